//! Rows of single write calls on a fresh encoder.
//!
//! - `fresh`: the encoder and the tile of a row
//! - `rows`: the bytes and the bits of each call, by rav1e's own range coder on the same distributions
//! - `restoration`: the same of restoration filters, by rav1e's own `ContextWriter`
#![tactic(auto)]

pub mod fresh;
#[cfg(test)]
mod restoration;
#[cfg(test)]
mod rows;
