//! The range coder of AV1, by rav1e's names (`src/ec.rs`).
//!
//! A writer narrows an interval by one token for each symbol. What is known of it is its `Position`: the range, how
//! many bits were shifted out, the fake bits, an encoder's exact low end and a recorder's tokens. Each storing call
//! says how the position advances, in the same words for every storage (`specs/Storing.antt`). In a clause, `W.position w.new`
//! is the position of a `w: &mut W` under `W: Writer`, `W.Known` all that is known of such writers, and
//! `⟦<WriterBase<WriterEncoder> as Known>⟧.position w` the position of an encoder `w`.
//!
//! A checkpoint stands for a position while what was stored then is still there: `W.position_at w.new c` where
//! `W.IsReached w.new c`. Every store keeps that of each checkpoint, and a `rollback` keeps it of those that `reach` no
//! further than its own. A later checkpoint reaches at least as far as an earlier one, so trials may stand in trials.
//!
//! - `known`: what is known of a writer
//! - `storage`: what a writer keeps beside its range, and the calls that differ from one storage to another
//! - `writer`: the calls that are the same for all
//! - `writer_base`: the range, the count and the fake bits over a storage
//! - `encoder`: the storage that writes the bytes
//! - `precarry`: its entries of a byte and a carry, which leave a window and are summed at the end
//! - `recorder`: the storage that keeps the tokens, and their replay into another writer
//! - `counter`: the storage that keeps no more than how many bits there are
//! - `frac`: eighths of a bit
//! - `flat`: bits that are stored as symbols, as those of the codes' words
//! - `adaptive`: a symbol by a CDF of a context, which learns from it
//! - `laws`: how long the codes are, and how they are read back; `rates`: that all writers tell the same
//! - `symbol`: a symbol by a distribution
//! - `cdf`, `lanes`: how a distribution learns, eight numbers at a time, and what its symbols have of 512
//!
//! Memory: a storing call may answer `OutOfMemory`, and then the position is as it was. `ready(n)` makes the spare at
//! least n, and a store that begins with a spare succeeds and lowers it by at most one. So does a code whose bits are no
//! more than the spare, and it lowers it by at most its bits.
#![tactic(auto)]

mod adaptive;
mod cdf;
mod counter;
mod encoder;
mod flat;
mod frac;
mod known;
mod lanes;
mod laws;
mod precarry;
mod rates;
mod recorder;
mod storage;
mod symbol;
mod writer;
mod writer_base;

pub use cdf::{cdf_to_pdf, update_cdf};
pub use counter::WriterCounter;
pub use encoder::WriterEncoder;
pub use frac::OD_BITRES;
pub use known::Known;
pub use laws::{law_of_code_trees, law_of_flat_paths, law_of_lengths, law_of_symbol_lengths};
pub use rates::{
    law_of_counters, law_of_one_rate, law_of_recorders, law_of_replaying, law_of_rising,
    law_of_units,
};
pub use recorder::WriterRecorder;
pub use storage::{Storage, StorageBackend, Tally, WriterCheckpoint};
pub use writer::Writer;
pub use writer_base::WriterBase;
