//! Rows of JSON texts: which path is told of those that do not fit, and what each member of those that fit says. They were computed by a
//! program of their own.
//!
//! - `path_rows`, `unit_rows`, `item_rows`: the rows
//! - `told`: lines of text
//! - `sequences`, `frames`, `states`, `units`, `items`: what is said, as lines
//! - `tests`: each row through `read_unit`
#![tactic(auto)]

#[cfg(test)]
mod frames;
#[cfg(test)]
mod item_rows;
#[cfg(test)]
mod items;
#[cfg(test)]
mod path_rows;
#[cfg(test)]
mod sequences;
#[cfg(test)]
mod states;
#[cfg(test)]
mod tests;
#[cfg(test)]
mod told;
#[cfg(test)]
mod unit_rows;
#[cfg(test)]
mod units;
