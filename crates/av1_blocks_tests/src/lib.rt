//! Calls on grid and edges, with what rav1e's own calls answer.
//!
//! - `rows`: random calls in a tile of a frame, in all four samplings
//! - `grids`: new frames, and superblocks that are saved and put back
#![tactic(auto)]

#[cfg(test)]
mod grids;
#[cfg(test)]
mod rows;
