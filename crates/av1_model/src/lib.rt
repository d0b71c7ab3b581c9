//! The mathematics under the entropy coder: AV1's range coder on whole numbers without bound, syntax
//! trees, and the laws over them. There is no other code here.
//!
//! A tile's symbols narrow an interval, beginning with the one from 0 to 1, and the tile is a binary
//! fraction in what is left of it (`specs/Interval.antt`). How much a symbol leaves is said by its
//! distribution, which adapts after it (`specs/Cdf.antt`). Which symbols stand for a syntax element is said
//! once, by the tree that a reader goes down (`specs/Syntax.antt`); a writer goes along a path of it, and
//! reading by the same tree gives the answer back (`specs/Reading.antt`).
//! Elements are put together from the same parts for both (`specs/Element.antt`), and a write call says how far down the tree the
//! writer came (`specs/Comes.antt`).
//! A writer is known by its position (`specs/Position.antt`), an encoder's memory by its window
//! (`specs/Window.antt`), and a cost is counted in eighths of a bit (`specs/Eighths.antt`).
//! The codes that headers and tiles share are lists of bits (`specs/Bits.antt`, `specs/Codes.antt`).
//!
//! Each function below is a theorem: it takes nothing, does nothing, and what it ensures holds of every
//! interval, distribution, tree and list of bytes. The definitions follow rav1e's `ec.rs` and the AV1
//! specification's sections 8.2 (symbol decoder) and 8.3 (distributions).
#![tactic(auto)]

mod cdf;
mod codes;
mod cost;
mod interval;
mod position;
mod reading;
mod syntax;
mod writer;

pub use cdf::{law_of_adapting, law_of_decoding, law_of_symbols, law_of_tiling};
pub use codes::{
    law_of_leb128, law_of_numbers, law_of_quniform, law_of_recentering, law_of_refsubexp,
    law_of_subexp,
};
pub use cost::law_of_costs;
pub use interval::{law_of_final_bytes, law_of_held_bytes, law_of_narrowing};
pub use position::law_of_positions;
pub use reading::{law_of_coding, law_of_reading, law_of_storing};
pub use syntax::law_of_paths;
pub use writer::law_of_writers;
