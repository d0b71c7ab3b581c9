//! Items one by one, as a search tries them.
//!
//! - `items`: the items of a made unit, and a trial that leaves no trace
#![tactic(auto)]

#[cfg(test)]
mod items;
