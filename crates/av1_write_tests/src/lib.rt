//! The program's answers: worked units by `run`, and streams that fail.
//!
//! - `rows`: units with their status and text
//! - `kinds`: more of them, for each kind of step of a key frame's blocks
//! - `coefficients`: more of them, with coefficients, and whole tiles
//! - `inter_kinds`, `vector_kinds`: more of them, for each kind of step of how inter blocks are predicted
//! - `inter_blocks`: more of them, with trials, transforms and coefficients of inter blocks
//! - `traps`: more of them, where a step of an inter block is easily misread
//! - `every_kind`: one for each of the 26 kinds of step
//! - `examples`: the units of `examples/`
//! - `made`: summaries of units that numbers make
//! - `answers`: each row through `run`, and what no row can say
#![tactic(auto)]

#[cfg(test)]
mod answers;
#[cfg(test)]
mod coefficients;
#[cfg(test)]
mod every_kind;
#[cfg(test)]
mod examples;
#[cfg(test)]
mod inter_blocks;
#[cfg(test)]
mod inter_kinds;
#[cfg(test)]
mod kinds;
#[cfg(test)]
mod made;
#[cfg(test)]
mod rows;
#[cfg(test)]
mod traps;
#[cfg(test)]
mod vector_kinds;
