//! Bytes and bits on their way out and in.
//!
//! - `bit_writer`: `BitWriter`, which makes bytes of bits
//! - `leb128`, `bcode`: the codes that AV1's headers write with it
//! - `outside`: `Sink` and `Source`, what the program sends to and reads from
//! - `mem_sink`, `mem_source`: both in memory, with faults at chosen calls
//! - `standard`: both over the streams of the operating system
//! - `transfer`: sending everything, and reading to the end
#![tactic(auto)]

mod bcode;
mod bit_writer;
mod leb128;
mod mem_sink;
mod mem_source;
mod outside;
mod standard;
mod transfer;

pub use bcode::BCodeWriter;
pub use bit_writer::BitWriter;
pub use leb128::{LEWriter, ULEB128Writer};
pub use mem_sink::MemSink;
pub use mem_source::MemSource;
pub use outside::{Failed, Sink, Source, a_count_that_rose_is_not_still};
pub use standard::{StdSink, StdSource};
pub use transfer::{PIECE, ReadError, read_at_most, send_all};
