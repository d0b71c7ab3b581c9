//! A step, and what it does in the state of a tile.
//!
//! Which symbols a step has is said once, by the tree that a reader goes down (`specs/Step.antt`).
//!
//! - `unit`: what is given: a frame, and a script of steps for each of its tiles
//! - `step`: what a step says
//! - `tile`: the state of a tile, and one step in it (`write_step`)
//! - `block_steps`: the steps that begin rows and blocks, part blocks and skip them
//! - `intra_steps`: the steps that say how intra blocks are predicted
//! - `angle_steps`: the steps that say more of it: angles, and factors of chroma from luma
//! - `filter_steps`: the steps of the current block for filters and palettes
//! - `delta_steps`: the steps of the current block for its segment and for the levels of the loop filter
//! - `transform_steps`: the steps of the sizes of transforms
//! - `inter_steps`: the steps that say whether a block is predicted from other frames, and from which
//! - `mode_steps`: the steps that say the mode of an inter block, and which candidate it takes
//! - `vector_steps`: the steps of the vectors of inter blocks: their candidates, and the vectors that are coded
//! - `coeff_steps`: the steps of transform blocks: their coefficients
//! - `restoration_steps`: the step that codes the filter of a restoration unit
//! - `check`: what is wrong with a step (`check_step`)
//! - `trial`: what a trial of steps keeps (`mark`), and going back to it (`go_back`)
//! - `place`: where the tiles of a frame lie
//! - `error`: the fault of a step
//! - `laws`: theorems of steps and of lists of steps
#![tactic(auto)]

mod angle_steps;
mod block_steps;
mod check;
mod coeff_steps;
mod delta_steps;
mod error;
mod filter_steps;
mod inter_steps;
mod intra_steps;
mod laws;
mod mode_steps;
mod place;
mod restoration_steps;
mod step;
mod tile;
mod transform_steps;
mod trial;
mod unit;
mod vector_steps;

pub use check::check_step;
pub use error::StepFault;
pub use laws::{law_of_read_steps, law_of_reading_steps, law_of_steps};
pub use step::{Levels, TileStep};
pub use tile::TileState;
pub use trial::TrialMark;
pub use unit::{Item, TileScript, Unit};
