//! Worked values of what every crate stands on: the numbers of rav1e's own tests, of its comments and of the AV1
//! specification.
//!
//! - `geometry`: sizes, modes, vectors, places and tables
//! - `codes`: the words of codes
//! - `bits`: bits and numbers as bytes, and what is read and sent
//! - `streams`: sinks and sources that fail
#![tactic(auto)]

#[cfg(test)]
mod bits;
#[cfg(test)]
mod codes;
#[cfg(test)]
mod geometry;
#[cfg(test)]
mod streams;
