//! Rows on the contexts of coefficients and on scans, with the answers of rav1e's own calls.
//!
//! - `plain`: contexts step by step from the AV1 specification's text
//! - `rows`: drawn levels of every size and class, ends, and what scans are refused
#![tactic(auto)]

#[cfg(test)]
mod plain;
#[cfg(test)]
mod rows;
