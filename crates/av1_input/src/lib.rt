//! What a unit's JSON text says: each member by one table, and the exact path of the first place that does not fit.
#![tactic(auto)]

mod enums;
mod error;
mod film_grain;
mod filter;
mod frame;
mod from_json;
mod item;
mod list;
mod members;
mod metadata;
mod numbers;
mod path;
mod reference;
mod scans;
mod sequence;
mod state;
mod tables;
mod unit;

pub use error::ShapeError;
pub use frame::Frame;
pub use from_json::FromJson;
pub use unit::{read_unit, unit_from_json};
