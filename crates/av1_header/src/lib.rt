//! The rows of AV1's sequence headers, frame headers and metadata, written and read back.
//!
//! A header is one tree of rows (`specs/Rows.antt`): each has its name, whether it is there, its code and what follows, by the
//! values read so far. The calls of `UncompressedHeader` write exactly these rows, and the reader is had from the same tree.
//!
//! - `header`: the calls
//! - `sequence_header`, `color`, `metadata`: what holds of a whole sequence, and metadata
//! - `frame_header`: the rows of a frame header, put together from those below
//! - `frame_flags`, `sizes`, `tiles`, `deltas`, `segments`, `filters`, `film_grain`: the families of its rows
//! - `values`: what rows tell, since later rows need it
//! - `rows`: one row
//! - `laws`: what holds of every tree of rows
//!
//! The types of headers and the rules on them are `av1_frame`'s, handed on here.
#![tactic(auto)]

mod color;
mod deltas;
mod film_grain;
mod filters;
mod frame_flags;
mod frame_header;
mod header;
mod laws;
mod metadata;
mod rows;
mod segments;
mod sequence_header;
mod sizes;
mod tiles;
mod values;

pub use av1_frame::{
    ALL_REF_FRAMES_MASK, ChromaticityPoint, ColorDescription, ContentLight, DeblockState,
    FilmGrain, FrameInvariants, FrameState, MasteringDisplay, Metadata, ObuMetaType, ObuType,
    PRIMARY_REF_NONE, Rational, RefState, Refs, RestorationPlaneConfig, RestorationState,
    SegmentationState, Sequence, T35, TilingInfo, check_frame, check_metadata, check_sequence,
};
pub use deltas::Deltas;
pub use film_grain::Multipliers;
pub use header::UncompressedHeader;
pub use laws::{law_of_beginnings, law_of_reading, law_of_rules};
pub use tiles::{Spans, TileLogs, TileValues};
pub use values::{
    Color, Filters, Forces, FrameKind, FrameStart, FrameTools, GrainPoints, InterTools, MaxSize,
    Profile, SequenceValues, SideInformation, Tools,
};
