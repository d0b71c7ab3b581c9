//! From a unit, which says a frame and how its blocks are coded, to the bytes of an AV1 temporal unit.
//!
//! A unit is checked place by place, the script of each tile is coded step by step, and headers and tiles are framed as OBUs.
//! What is wrong with a unit is said in `specs/Findings.antt`, what its bytes are in `specs/Framing.antt`, and what is promised
//! of them in `specs/Headline.antt`.
//!
//! - `write`: `unit_bytes`, `write_unit`, `count_tile`
//! - `check`: what is wrong with a unit before its scripts
//! - `tiles`: the tiles of a unit, coded or counted
//! - `lengths`: how long OBUs and tiles are
//! - `framing`: the OBUs
//! - `report`: what is answered
//! - `laws`: theorems of written units
//!
//! The types of a unit and the steps of a tile are those of `av1_tile` and `av1_step`, those of headers `av1_frame`'s, both handed on here.
#![tactic(auto)]

mod check;
mod framing;
mod laws;
mod lengths;
mod report;
mod tiles;
mod write;

pub use av1_header::{
    ALL_REF_FRAMES_MASK, ChromaticityPoint, ColorDescription, ContentLight, DeblockState,
    FilmGrain, FrameInvariants, FrameState, MasteringDisplay, Metadata, PRIMARY_REF_NONE, Rational,
    RefState, Refs, RestorationPlaneConfig, RestorationState, SegmentationState, Sequence, T35,
    TilingInfo, check_frame, check_metadata, check_sequence,
};
pub use av1_tile::{
    Item, Levels, Place, StepFault, TileReport, TileScript, TileState, TileStep, TrialCost,
    TrialMark, Unit, UnitError, Via, can_come, check_step, law_of_read_steps, law_of_reading_steps,
    law_of_steps, law_of_trials, write_item,
};
pub use laws::{law_of_taking_apart, law_of_tile_counts, law_of_written_units};
pub use report::Report;
pub use write::{count_tile, unit_bytes, write_unit};
