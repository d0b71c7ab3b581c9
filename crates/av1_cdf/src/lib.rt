//! The adaptive distributions of a tile: 5528 numbers, the CDFs among them by name, and the tables that they start from.
//!
//! The layout is one table of data, `specs/Layout.antt`: each field's name, its dimensions and its first place. A CDF is
//! named by a call of `CDFContext` with its field's name and its indices, and its clause takes place and length from that
//! table. Each place belongs to one CDF or is padding, and two CDFs have no place in common (`law_of_layout`).
//!
//! - `cdf_context`: the context, how it starts, and the reset of its counts
//! - `cdf_offset`: a CDF of the context, by place and length
//! - `numbers`: the array behind a context, of which a part is lent
//! - `log`, `part`: what a context was, to go back to it
//! - `reference_slots`, `block_slots`, `intra_slots`, `transform_slots`, `coefficient_slots`, `vector_slots`: the CDFs by name
//! - `layout`, `run`: the fields as runs of CDFs of one length, and the CDF that a place belongs to
//! - `field_map`: the fields by name
//! - `tables`: the tables that contexts start from, and their rules
//! - `nmv`: the distributions of vectors that rav1e starts with
//! - `laws`: what holds of the layout, of a context at its start, and of one whose CDF learns or is written
#![tactic(auto)]

mod block_slots;
mod cdf_context;
mod cdf_offset;
mod coefficient_slots;
mod field_map;
mod intra_slots;
mod laws;
mod layout;
mod log;
mod nmv;
mod numbers;
mod part;
mod reference_slots;
mod run;
mod tables;
mod transform_slots;
mod vector_slots;

pub use cdf_context::{CDF_LEN_MAX, CDFContext};
pub use cdf_offset::CDFOffset;
pub use field_map::FieldMap;
pub use laws::{
    law_of_distributions, law_of_layout, law_of_learning, law_of_starting, law_of_windows,
    law_of_writing,
};
pub use log::{CDFContextCheckpoint, CDFContextLog};
pub use nmv::{NMVComponent, NMVContext, default_nmv_context};
pub use tables::{Tables, check_tables};
