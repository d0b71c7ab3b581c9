//! Rows of headers and metadata, with bytes that were worked out apart from the program.
//!
//! - `numbers`: the numbers of a row
//! - `headers`: sequences, frames and references as rows of numbers
//! - `rows`: the rows, with the bytes of their two headers
//! - `tests`: each row through the public calls, and worked values of single calls
#![tactic(auto)]

#[cfg(test)]
mod headers;
#[cfg(test)]
mod numbers;
#[cfg(test)]
mod rows;
#[cfg(test)]
mod tests;
