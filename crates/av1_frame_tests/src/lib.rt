//! Rows of sequences and frames that break one rule each, and rows of tilings, worked out by hand and by a program of their own.
//!
//! - `words`: the words `name=value` of a row
//! - `sequences`, `frames`, `states`: sequences, frames and their state from the words of a row
//! - `rows`: the rows
//! - `tests`: each row through the public calls
#![tactic(auto)]

#[cfg(test)]
mod frames;
#[cfg(test)]
mod rows;
#[cfg(test)]
mod sequences;
#[cfg(test)]
mod states;
#[cfg(test)]
mod tests;
#[cfg(test)]
mod words;
