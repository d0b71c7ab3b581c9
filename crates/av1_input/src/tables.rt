// What the distributions start from, from a JSON value.
ghost use Rattle.std.specs.Prelude.{◌≡◌, IfOk, IfErr, map};
ghost use Rattle.serde_json.specs.View.{view, items_view};
ghost use Rattle.av1_input.specs.Fitted.{Fits};
ghost use Rattle.av1_input.specs.Kinds.{each, list, whole};
ghost use Rattle.av1_input.specs.Tables.{given_tables, sets, sets_of, tables_named};
ghost use Rattle.av1_input.specs.Why.{Answers, IsWhy};

use crate::error::ShapeError;
use crate::from_json::FromJson;
use crate::list::{list_items, read_list};
use crate::path::or_unfit;
use av1_cdf::Tables;
use av1_geometry::OutOfMemory;
use serde_json::Value;
use std::alloc::Global;

/// Tables by name, or their numbers.
#[derive(Drop)]
pub enum GivenTables {
    /// Those in which all symbols of a distribution are equally likely.
    Uniform,

    /// Four sets of numbers.
    Sets(Tables),
}

impl GivenTables {
    /// The tables themselves.
    pub fn tables(self, alloc: Global) -> Result<Tables, OutOfMemory>
        ensures { IfOk result (λ t. t ≡ sets_of self) }
    {
        match self {
            GivenTables::Uniform => Tables::uniform(alloc),
            GivenTables::Sets(tables) => Ok(tables),
        }
    }
}

fn tables_named(name: &str) -> Option<GivenTables>
    ensures { result ≡ tables_named name.now }
{
    match name {
        "uniform" => Some(GivenTables::Uniform),
        _ => None,
    }
}

// Each set is let go as soon as it was read.
fn read_sets(alloc: Global, items: Vec<Value>) -> Result<Vec<Vec<u16>>, ShapeError>
    ensures ok { IfOk result (λ v. each 0 (list (whole 16)).fit (items_view items.items) ≡ Fits (map (λ set. set.items) v.items)) }
    ensures err { IfErr result (λ e. IsWhy e (each 0 (list (whole 16)).fit (items_view items.items))) }
{
    let mut items = items;
    let mut sets = Vec::new(alloc);
    for i in 0..items.len() {
        match read_list::<u16>(alloc, items[i].take()) {
            Ok(set) => sets.push(set)?,
            Err(error) => return Err(error.in_item(alloc, i)),
        }
    }
    Ok(sets)
}

#[tactic(auto, using(crate::proofs::Lists::right_len, crate::proofs::Lists::wrong_len, crate::proofs::Lists::no_list))]
fn four_sets(alloc: Global, value: Value) -> Result<Tables, ShapeError>
    ensures { Answers result (sets.fit (view value)) }
{
    match list_items(alloc, value) {
        Ok(items) => {
            if items.len() == 4 {
                match read_sets(alloc, items) {
                    Ok(sets) => Ok(Tables { sets }),
                    Err(error) => Err(error),
                }
            } else {
                Err(ShapeError::BadShape(String::new(alloc)))
            }
        }
        Err(error) => Err(error),
    }
}

impl FromJson for GivenTables {
    ghost kind = { given_tables };

    fn none(_alloc: Global) -> Self {
        GivenTables::Uniform
    }

    #[tactic(auto, unfolding(crate::specs::Tables::fit_tables))]
    fn from_json(alloc: Global, value: Value) -> Result<Self, ShapeError> {
        match value {
            Value::String(name) => or_unfit(alloc, tables_named(name.as_str())),
            _ => match four_sets(alloc, value) {
                Ok(tables) => Ok(GivenTables::Sets(tables)),
                Err(error) => Err(error),
            },
        }
    }
}
