//! Candidates for motion vectors, and the contexts of references, of a block of a tile.
//!
//! - `find`: the candidates of a block as a whole
//! - `edge`, `scan`, `neighbours`: the blocks beside it, line by line
//! - `candidate`, `stack`, `sort`, `clamp`: the list, its weights, its order and its bounds
//! - `turned`, `extra`, `pairs`: the extra search, for one reference and for two
//! - `drl`: the context of a choice among candidates
//! - `references`, `compound`: the contexts of references
#![tactic(auto)]

mod candidate;
mod clamp;
mod compound;
mod drl;
mod edge;
mod extra;
mod find;
mod neighbours;
mod pairs;
mod references;
mod scan;
mod sort;
mod stack;
mod turned;

pub use candidate::CandidateMV;
pub use compound::{get_comp_mode_ctx, get_comp_ref_type_ctx};
pub use drl::drl_ctx;
pub use find::find_mvrefs;
pub use references::{
    get_pred_ctx_brf_or_arf2, get_pred_ctx_brfarf2_or_arf, get_pred_ctx_last_or_last2,
    get_pred_ctx_last3_or_gold, get_pred_ctx_ll2_or_l3gld, get_ref_frame_ctx_b0, ref_count_ctx,
    ref_counts,
};
