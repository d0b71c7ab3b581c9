//! The blocks of a frame, and what they leave for the contexts of the next ones.
//!
//! - `block`: one block
//! - `frame_blocks`: the grid of a frame
//! - `tile_blocks`, `tile_blocks_mut`: a tile of the grid, to look at and to enter blocks in
//! - `saved_blocks`: the blocks of a superblock that are kept, to put them back
//! - `block_context`: the edges above and to the left of what is coded next, and the contexts that they give
//! - `coefficients`: the contexts of a transform block
//! - `checkpoint`: the edges of a moment, to go back to
//! - `laws`: what going back undoes
#![tactic(auto)]

mod area;
mod block;
mod block_context;
mod checkpoint;
mod coefficients;
mod edge;
mod entry;
mod frame_blocks;
mod laws;
mod saved_blocks;
mod tile_blocks;
mod tile_blocks_mut;

pub use block::Block;
pub use block_context::BlockContext;
pub use checkpoint::BlockContextCheckpoint;
pub use coefficients::TXB_CTX;
pub use frame_blocks::FrameBlocks;
pub use laws::law_of_going_back;
pub use saved_blocks::SavedBlocks;
pub use tile_blocks::TileBlocks;
pub use tile_blocks_mut::TileBlocksMut;
