//! Candidates and reference contexts of random grids, as rav1e 0.8.1 answers them.
//!
//! - `ready`: whether a grid keeps what the calls ask for
//! - `row`: a row of numbers, and the grid that it stands for
//! - `rows`: the rows, with what rav1e answers
//! - `candidates`: what the calls answer
#![tactic(auto)]

#[cfg(test)]
mod candidates;
#[cfg(test)]
mod ready;
#[cfg(test)]
mod row;
#[cfg(test)]
mod rows;
