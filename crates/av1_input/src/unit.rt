// The unit that a JSON text stands for.
ghost use Rattle.std.specs.Prelude.{◌≡◌, Some, IfOk, IfErr};
ghost use Rattle.serde_json.specs.View.{view};
ghost use Rattle.av1_input.specs.Fitted.{Fits};
ghost use Rattle.av1_input.specs.Unit.{input_of, input_said, json_of, said, shape, unit_of, via, via_named};
ghost use Rattle.av1_input.specs.Why.{Answers, IsCause, IsWhy};

use crate::error::ShapeError;
use crate::frame::Frame;
use crate::from_json::FromJson;
use crate::members::Members;
use crate::path::or_unfit;
use crate::scans::GivenScans;
use crate::tables::GivenTables;
use av1_frame::{FrameInvariants, Metadata, Refs, Sequence};
use av1_geometry::OutOfMemory;
use av1_tile::{TileScript, Unit, Via};
use serde_json::{Category, Value};
use std::alloc::Global;
use std::marker::Model;

impl FromJson for Via {
    ghost kind = { via };

    fn none(_alloc: Global) -> Self {
        Via::Direct
    }

    #[tactic(auto, unfolding(crate::specs::Kinds::fit_word))]
    fn from_json(alloc: Global, value: Value) -> Result<Self, ShapeError> {
        match value.as_str() {
            Some(name) => or_unfit(alloc, via_named(name)),
            None => Err(ShapeError::BadShape(String::new(alloc))),
        }
    }
}

fn via_named(name: &str) -> Option<Via>
    ensures { result ≡ via_named name.now }
{
    match name {
        "direct" => Some(Via::Direct),
        "recorded" => Some(Via::Recorded),
        _ => None,
    }
}

/// What a unit's JSON says, member by member. Contracts see each list as a plain one.
#[derive(Drop)]
struct UnitMembers {
    tables: GivenTables,
    scans: GivenScans,
    sequence: Sequence,
    frame: Frame,
    refs: Refs,
    metadata: Vec<Metadata>,
    delimiter: bool,
    eob_by_coded: bool,
    via: Via,
    scripts: Vec<TileScript>,
}

impl Model for UnitMembers {
    ghost use Rattle.av1_input.specs.Said.{Said};

    ghost Value = { Said };

    ghost use Rattle.av1_input.specs.SaidView.{said_by};

    ghost view = { said_by };
}

fn unit_members(alloc: Global, value: Value) -> Result<UnitMembers, ShapeError>
    ensures { Answers result (said.fit (view value)) }
{
    let mut members = Members::of(alloc, value);
    let said = UnitMembers {
        tables: members.optional("tables"),
        scans: members.optional("scans"),
        sequence: members.optional("seq"),
        frame: members.required("frame"),
        refs: members.optional("refs"),
        metadata: members.list("metadata"),
        delimiter: members.or("delimiter", true),
        eob_by_coded: members.optional("eob_by_coded"),
        via: members.optional("via"),
        scripts: members.required_list("tiles"),
    };
    members.finish(said)
}

fn unit(alloc: Global, said: UnitMembers) -> Result<(Unit, Via), OutOfMemory>
    ensures { IfOk result (λ found. input_of found.0 found.1 ≡ input_said said) }
{
    let UnitMembers {
        tables,
        scans,
        sequence,
        frame,
        refs,
        metadata,
        delimiter,
        eob_by_coded,
        via,
        scripts,
    } = said;
    let Frame { fi, fs } = frame;
    let unit = Unit {
        tables: tables.tables(alloc)?,
        scans: scans.scans(alloc)?,
        fi: FrameInvariants { sequence, ..fi },
        fs,
        refs,
        metadata,
        delimiter,
        eob_by_coded,
        scripts,
    };
    Ok((unit, via))
}

/// The unit that a JSON value stands for, and the way of its symbols to bytes, or the path of the first place that does
/// not fit. The value is let go, and each of its parts as soon as it was read.
#[tactic(auto, unfolding(crate::specs::Unit::unit_of))]
pub fn unit_from_json(alloc: Global, value: Value) -> Result<(Unit, Via), ShapeError>
    ensures fits { IfOk result (λ found. unit_of (view value) ≡ Fits (input_of found.0 found.1)) }
    ensures refused { IfErr result (λ e. IsWhy e (unit_of (view value))) }
{
    match unit_members(alloc, value) {
        Ok(said) => Ok(unit(alloc, said)?),
        Err(error) => Err(error),
    }
}

#[tactic(auto, using(crate::proofs::Texts::is_read, crate::proofs::Texts::is_refused))]
fn json(alloc: Global, text: &[u8]) -> Result<Value, ShapeError>
    ensures read { IfOk result (λ v. json_of text.now ≡ Some (view v)) }
    ensures refused { IfErr result (λ e. IsCause e (shape text.now)) }
{
    Value::from_slice(alloc, text).map_err(|error| match error.classify() {
        Category::Memory => ShapeError::OutOfMemory,
        _ => ShapeError::BadText,
    })
}

/// The unit that a JSON text stands for, as `docs/UNIT_FORMAT.md` describes it, and the way of its symbols to bytes.
pub fn read_unit(alloc: Global, text: &[u8]) -> Result<(Unit, Via), ShapeError>
    ensures fits { IfOk result (λ found. shape text.now ≡ Some (Fits (input_of found.0 found.1))) }
    ensures refused { IfErr result (λ e. IsCause e (shape text.now)) }
{
    let value = json(alloc, text)?;
    unit_from_json(alloc, value)
}
