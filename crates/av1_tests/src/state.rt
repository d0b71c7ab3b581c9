// The first state of a unit's tile, where nothing is wrong with what comes before its scripts.
ghost use Rattle.std.specs.Prelude.{◌≡◌};
ghost use Rattle.av1_step.specs.Given.{broken_scan_rule};

use av1_cdf::check_tables;
use av1_coef::check_scans;
use av1_geometry::Rule;
use av1_unit::{TileState, Unit, check_frame, check_sequence, law_of_tile_counts};
use std::alloc::Global;
use std::test::Fail;

// The first rule that the scans of a unit break.
fn broken_scan_rule(unit: &Unit) -> Option<Rule>
    ensures { result ≡ broken_scan_rule unit.now.scans }
{
    check_scans(&unit.scans)
}

/// The state that the first tile of a unit begins with, where tables, scans and headers break no rule.
pub fn first_state<'u>(alloc: Global, unit: &'u Unit) -> Result<TileState<'u>, Fail> {
    if check_tables(&unit.tables).is_some() {
        return Err("a broken rule".into());
    }
    if broken_scan_rule(unit).is_some() {
        return Err("a broken rule".into());
    }
    if check_sequence(&unit.fi.sequence).is_some() {
        return Err("a broken rule".into());
    }
    if check_frame(&unit.fi, &unit.fs, &unit.refs).is_some() {
        return Err("a broken rule".into());
    }
    law_of_tile_counts();
    Ok(TileState::new(alloc, unit, 0)?)
}
