//! Rows of transform blocks, and of their types and sizes, by rav1e's own `ContextWriter`.
//!
//! - `coefficients`, `levels`: transform blocks, with the bytes and bits of rav1e's own call
//! - `transforms`: types and sizes of transforms
#![tactic(auto)]

#[cfg(test)]
mod coefficients;
#[cfg(test)]
mod levels;
#[cfg(test)]
mod transforms;
