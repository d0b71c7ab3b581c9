//! The codes of AV1's headers and tiles: each makes a word of a value, which `av1_bits` writes as bits and `av1_ec` stores as
//! symbols.
//!
//! - `word`: the words, and what they cost
#![tactic(auto)]

mod word;

pub use word::{Word, golomb_word, quniform_word, refsubexp_word, signed_word, subexp_word};
