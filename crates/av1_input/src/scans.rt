// In what order coefficients are coded, from a JSON value.
ghost use Rattle.std.specs.Prelude.{◌≡◌, IfOk, IfErr, map};
ghost use Rattle.serde_json.specs.View.{view, items_view};
ghost use Rattle.av1_input.specs.Fitted.{Fits};
ghost use Rattle.av1_input.specs.Kinds.{each};
ghost use Rattle.av1_input.specs.Scans.{class_scans, given_scans, scan, scans_named, scans_of, size_scans};
ghost use Rattle.av1_input.specs.Why.{Answers, IsWhy};

use crate::error::ShapeError;
use crate::from_json::FromJson;
use crate::list::{list_items, read_exactly, read_list};
use crate::path::or_unfit;
use av1_coef::{Scan, Scans, diagonal};
use av1_geometry::OutOfMemory;
use serde_json::Value;
use std::alloc::Global;

/// Scans by name, or their positions.
#[derive(Drop)]
pub enum GivenScans {
    /// Those in which positions rise by column and row together.
    Diagonal,

    /// A scan for each class of each size.
    OfEach(Scans),
}

impl GivenScans {
    /// The scans themselves.
    pub fn scans(self, alloc: Global) -> Result<Scans, OutOfMemory>
        ensures { IfOk result (λ s. s ≡ scans_of self) }
    {
        match self {
            GivenScans::Diagonal => diagonal(alloc),
            GivenScans::OfEach(scans) => Ok(scans),
        }
    }
}

fn scans_named(name: &str) -> Option<GivenScans>
    ensures { result ≡ scans_named name.now }
{
    match name {
        "diagonal" => Some(GivenScans::Diagonal),
        _ => None,
    }
}

impl FromJson for Scan {
    ghost kind = { scan };

    fn none(alloc: Global) -> Self {
        Scan {
            positions: Vec::new(alloc),
        }
    }

    fn from_json(alloc: Global, value: Value) -> Result<Self, ShapeError> {
        match read_list(alloc, value) {
            Ok(positions) => Ok(Scan { positions }),
            Err(error) => Err(error),
        }
    }
}

// Each size is let go as soon as it was read.
fn read_sizes(alloc: Global, items: Vec<Value>) -> Result<Vec<Vec<Scan>>, ShapeError>
    ensures ok { IfOk result (λ v. each 0 class_scans.fit (items_view items.items) ≡ Fits (map (λ size. size.items) v.items)) }
    ensures err { IfErr result (λ e. IsWhy e (each 0 class_scans.fit (items_view items.items))) }
{
    let mut items = items;
    let mut sizes = Vec::new(alloc);
    for i in 0..items.len() {
        match read_exactly::<Scan>(alloc, items[i].take(), 3) {
            Ok(size) => sizes.push(size)?,
            Err(error) => return Err(error.in_item(alloc, i)),
        }
    }
    Ok(sizes)
}

#[tactic(auto, using(crate::proofs::Lists::right_len, crate::proofs::Lists::wrong_len, crate::proofs::Lists::no_list))]
fn all_sizes(alloc: Global, value: Value) -> Result<Scans, ShapeError>
    ensures { Answers result (size_scans.fit (view value)) }
{
    match list_items(alloc, value) {
        Ok(items) => {
            if items.len() == 19 {
                match read_sizes(alloc, items) {
                    Ok(scans) => Ok(Scans { scans }),
                    Err(error) => Err(error),
                }
            } else {
                Err(ShapeError::BadShape(String::new(alloc)))
            }
        }
        Err(error) => Err(error),
    }
}

impl FromJson for GivenScans {
    ghost kind = { given_scans };

    fn none(_alloc: Global) -> Self {
        GivenScans::Diagonal
    }

    #[tactic(auto, unfolding(crate::specs::Scans::fit_scans))]
    fn from_json(alloc: Global, value: Value) -> Result<Self, ShapeError> {
        match value {
            Value::String(name) => or_unfit(alloc, scans_named(name.as_str())),
            _ => match all_sizes(alloc, value) {
                Ok(scans) => Ok(GivenScans::OfEach(scans)),
                Err(error) => Err(error),
            },
        }
    }
}
