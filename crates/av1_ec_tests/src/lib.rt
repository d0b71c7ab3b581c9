//! Worked values of the range coder's writers.
//!
//! - `bits`: how much a test writes
//! - `encoder`: the encoder beside a plain one
//! - `writers`: a recorder and a counter beside an encoder
//! - `trials`: trials of symbols within one another
//! - `adaptive`: a trial of a symbol by a CDF that learns from it
#![tactic(auto)]

#[cfg(test)]
mod adaptive;
#[cfg(test)]
mod bits;
#[cfg(test)]
mod encoder;
#[cfg(test)]
mod trials;
#[cfg(test)]
mod writers;
