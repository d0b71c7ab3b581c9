//! The contexts of coefficients, and the orders in which they are coded: rav1e's coefficient functions of `transform_unit.rs`.
//!
//! Contexts are functions of levels by column and row, and of a place, as the AV1 specification says them; they use only what
//! a reader of a tile knows by then. Nothing but `diagonal` allocates.
//!
//! - `coefficient`: the two types of a coefficient
//! - `levels`: coefficients as padded levels
//! - `contexts`: the contexts of levels, from padded levels
//! - `ends`: classes of ends, and contexts by size
//! - `scans`: orders of the coefficients, and their rules
//! - `diagonal_order`: the diagonal order of every size and class
//! - `laws`: contexts depend on later positions alone; what the rules of scans give
#![tactic(auto)]

mod coefficient;
mod contexts;
mod diagonal_order;
mod ends;
mod laws;
mod levels;
mod scans;

pub use coefficient::Coefficient;
pub use contexts::{get_br_ctx, get_nz_mag, get_nz_map_contexts};
pub use diagonal_order::diagonal;
pub use ends::{get_eob_pos_token, get_txb_bhl, get_txsize_entropy_ctx};
pub use laws::{law_of_coded_sizes, law_of_contexts, law_of_scans};
pub use levels::txb_init_levels;
pub use scans::{Scan, Scans, check_scan, check_scans};
