//! One write call for each syntax element of a tile, as rav1e's `ContextWriter` has them.
//!
//! - `context_writer`: what the calls move: the edges and the grid, the context, the log of its changes
//! - `partition_unit`: partitions, skip flags, factors of chroma from luma, segments
//! - `block_unit`: modes of intra blocks, what belongs to them, and the deltas of the loop filter
//! - `frame_header`: the index of the enhancement filter
//! - `transform_unit`: sizes and types of transforms
//! - `transform_block`: the coefficients of a transform block, whose ends, sizes and signs are in `coefficients` and
//!   `coefficient_levels`
//! - `inter`: whether a block is predicted from other frames, its mode, the choice among candidates
//! - `ref_frames`: what a block refers to
//! - `motion_vectors`: vectors, by how they differ from a reference vector
//! - `restoration`: the filters of loop restoration; `count_lrf`: what they cost
//! - `laws`, `coefficient_laws`: what holds of every element
#![tactic(auto)]

mod block_unit;
mod coefficient_laws;
mod coefficient_levels;
mod coefficients;
mod context_writer;
mod count_lrf;
mod deblock_deltas;
mod frame_header;
mod inter;
mod laws;
mod motion_vectors;
mod partition_unit;
mod ref_frames;
mod restoration;
mod transform_block;
mod transform_unit;

pub use coefficient_laws::law_of_coefficients;
pub use context_writer::{ContextWriter, ContextWriterCheckpoint};
pub use count_lrf::CountLrf;
pub use laws::{
    law_of_counts, law_of_deltas, law_of_factors, law_of_flags, law_of_inter_modes,
    law_of_intra_modes, law_of_literals, law_of_partitions, law_of_ref_frames, law_of_restoration,
    law_of_segments, law_of_transforms, law_of_vectors,
};
pub use restoration::{RestorationFilter, RestorationPlane, TileRestorationState};
