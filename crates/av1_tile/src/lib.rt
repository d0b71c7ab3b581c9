//! A tile: a script of steps and trials, coded item by item, and trials that are kept or given up.
//!
//! What a step is, and what it does in the state of a tile, is `av1_step`'s, whose calls and types are handed on here.
//!
//! - `coding`: from the items of a script to the bytes of a tile
//! - `item`: one item of a script: a step, or the beginning or end of a trial (`write_item`)
//! - `check`: what is wrong with an item, and whether it can come (`can_come`)
//! - `costs`: what trials cost
//! - `report`, `error`: what is answered
//! - `laws`: a theorem of trials
#![tactic(auto)]

mod check;
mod coding;
mod costs;
mod error;
mod item;
mod laws;
mod report;

pub use av1_step::{
    Item, Levels, StepFault, TileScript, TileState, TileStep, TrialMark, Unit, check_step,
    law_of_read_steps, law_of_reading_steps, law_of_steps,
};
pub use check::can_come;
pub use coding::{CodedTile, Via, code_by, code_tile};
pub use error::{Place, UnitError};
pub use item::write_item;
pub use laws::law_of_trials;
pub use report::{TileReport, TrialCost};
