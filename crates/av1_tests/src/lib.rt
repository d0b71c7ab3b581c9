//! Rows that cross crates: units to bytes, and a plain reader that takes the answers back.
//!
//! - `reader`: AV1's symbol decoder on plain numbers, written from its definition alone
//! - `rows`: worked units, with their bytes, reports and refusals
//! - `state`: the state that a unit's first tile begins with
//! - `uses`: the callers that documents quote
#![tactic(auto)]

#[cfg(test)]
mod reader;
#[cfg(test)]
mod rows;
pub mod state;
#[cfg(test)]
mod uses;
