//! Rows of single calls of inter blocks, by rav1e's own range coder on the same distributions.
//!
//! - `inter`: vectors, modes, references and candidates
#![tactic(auto)]

#[cfg(test)]
mod inter;
