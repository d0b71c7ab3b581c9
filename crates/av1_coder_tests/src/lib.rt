//! Symbols and codes on an encoder, and a plain reader that takes them back.
//!
//! - `symbol_reader`: the AV1 specification's symbol decoder, and the codes that it reads
//! - `codes`: symbols and codes on an encoder, with their bytes and costs
#![tactic(auto)]

#[cfg(test)]
mod codes;
#[cfg(test)]
mod symbol_reader;
