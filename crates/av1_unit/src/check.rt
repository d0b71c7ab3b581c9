// What is wrong with a unit before its scripts.
ghost use Rattle.std.specs.Prelude.{◌≡◌, option_map, OnOk};
ghost use Rattle.std.specs.List.{enumerate_from};
ghost use Rattle.av1_geometry.specs.Rules.{first_broken};
ghost use Rattle.av1_tile.specs.declared.error.UnitError.TheVariants.{Refused};
ghost use Rattle.av1_step.specs.Given.{IsCut, broken_scan_rule};
ghost use Rattle.av1_unit.specs.Checked.{IsChecked};
ghost use Rattle.av1_unit.specs.Findings.{Finds, first_of, messages_wrong, places_before, script_rules};
ghost use Rattle.av1_unit.specs.Plain.{plain};

use av1_cdf::check_tables;
use av1_coef::check_scans;
use av1_geometry::Rule;
use av1_header::{TilingInfo, check_frame, check_metadata, check_sequence};
use av1_tile::{Place, Unit, UnitError};

/// The first thing that is wrong before any script.
pub(crate) fn check_unit(unit: &Unit) -> Result<(), UnitError>
    ensures found { Finds result (first_of (places_before (plain unit.now))) }
    ensures checked { OnOk result (IsChecked (plain unit.now)) }
{
    check_place(Place::Tables, check_tables(&unit.tables))?;
    check_place(Place::Scans, broken_scan_rule(unit))?;
    check_place(Place::Sequence, check_sequence(&unit.fi.sequence))?;
    check_place(Place::Frame, check_frame(&unit.fi, &unit.fs, &unit.refs))?;
    check_messages(unit)?;
    check_place(Place::Scripts, check_scripts(unit))
}

// The first rule that the scans break.
fn broken_scan_rule(unit: &Unit) -> Option<Rule>
    ensures { result ≡ broken_scan_rule unit.now.scans }
{
    check_scans(&unit.scans)
}

// The error of a place that breaks this rule.
fn check_place(place: Place, broken: Option<Rule>) -> Result<(), UnitError>
    ensures { Finds result (option_map (Refused place) broken) }
{
    match broken {
        Some(rule) => Err(UnitError::Refused { place, rule }),
        None => Ok(()),
    }
}

// The first metadata OBU that breaks a rule.
fn check_messages(unit: &Unit) -> Result<(), UnitError>
    ensures { Finds result (messages_wrong unit.now.fi.sequence (enumerate_from 0 unit.now.metadata.items)) }
{
    for (index, metadata) in unit.metadata.iter().enumerate() {
        let broken = check_metadata(metadata, &unit.fi.sequence);
        check_place(Place::Metadata { index }, broken)?;
    }
    Ok(())
}

// The rule of the scripts: there is one for each tile.
fn check_scripts(unit: &Unit) -> Option<Rule>
    requires { IsCut unit.now.fi }
    ensures { result ≡ first_broken (script_rules (plain unit.now)) }
{
    let tiling = TilingInfo::of(
        unit.fi.width.div_ceil(64),
        unit.fi.height.div_ceil(64),
        unit.fi.tile_width_sb,
        unit.fi.tile_height_sb,
    );
    if unit.scripts.len() == tiling.cols * tiling.rows {
        None
    } else {
        Some(Rule(55))
    }
}
