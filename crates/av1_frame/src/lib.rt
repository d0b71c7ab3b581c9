//! What AV1's headers say, as rav1e's types; how a frame is cut into tiles; and the rules that a sequence, a frame and a metadata OBU
//! keep.
//!
//! Each rule is a test with a number, and each place has a list of them; what is answered is the first that is broken.
//!
//! - `sequence`, `frame`, `state`, `reference`, `film_grain`, `metadata`: what the headers say
//! - `obu`: the kinds of OBUs
//! - `tiling`: how a frame is cut into tiles
//! - `sequence_rules`, `frame_rules`, `metadata_rules`: the checks
//! - `header_rules`, `tile_rules`, `segment_rules`, `filter_rules`, `motion_rules`, `grain_rules`: the rules of a frame by subject
#![tactic(auto)]

mod film_grain;
mod filter_rules;
mod frame;
mod frame_rules;
mod grain_rules;
mod header_rules;
mod metadata;
mod metadata_rules;
mod motion_rules;
mod obu;
mod reference;
mod segment_rules;
mod sequence;
mod sequence_rules;
mod state;
mod tile_rules;
mod tiling;

pub use film_grain::FilmGrain;
pub use frame::FrameInvariants;
pub use frame_rules::check_frame;
pub use metadata::{Metadata, T35};
pub use metadata_rules::check_metadata;
pub use obu::{ObuMetaType, ObuType};
pub use reference::{ALL_REF_FRAMES_MASK, PRIMARY_REF_NONE, RefState, Refs};
pub use sequence::{
    ChromaticityPoint, ColorDescription, ContentLight, MasteringDisplay, Rational, Sequence,
};
pub use sequence_rules::check_sequence;
pub use state::{
    DeblockState, FrameState, RestorationPlaneConfig, RestorationState, SegmentationState,
};
pub use tiling::{TilingInfo, tile_log2};
