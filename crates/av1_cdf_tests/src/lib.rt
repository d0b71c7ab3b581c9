//! Worked values of contexts and of their log.
//!
//! - `context`: the numbers of a context, its fields by name and the rules of tables
//! - `log`: CDFs that learn, and are what they were
#![tactic(auto)]

#[cfg(test)]
mod context;
#[cfg(test)]
mod log;
