//! Large units from a number: a demonstration, a soak, and work for a measure of speed.
//!
//! - `unit`: the unit that a number makes (`make_unit`)
//! - `tree`: how superblocks are parted, and the trials of them
//! - `blocks`: the items of a block
//! - `draws`: numbers that are drawn, and the items that they decide
#![tactic(auto)]

mod blocks;
mod draws;
mod tree;
mod unit;

pub use unit::make_unit;
