//! One run of the program `av1_write`: JSON in, the bytes of an AV1 temporal unit out, as text or as they are.
//!
//! - `run`: the run, by what it reads and what it sends
//! - `shape`: the unit that a JSON text stands for
//! - `status`: how the program ends
//! - `text`: the text that tells the unit and its report
//! - `words`: the words on the command line
#![tactic(auto)]

pub mod run;
mod shape;
pub mod status;
mod text;
pub mod words;
