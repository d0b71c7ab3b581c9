//! A tool for tests, beside the program: it plays scripts of calls on an encoder, a call a line, and tells what the encoder
//! answers. `scripts/compare_ec.sh` compares it with rav1e's own coder. What it prints is only tested.
//!
//! A line is a call's name and its numbers, as `symbol s C`, `bool v f`, `literal bits v` or `count_subexp n k v`, where C is
//! a CDF with its count; `tell`, `tell_frac`, `stream_bits`, `range` and the costs are answered with their name and number.
//! `done` is answered with the bytes, and begins a fresh encoder.
//!
//! `checkpoint` begins a trial, which `rollback` gives up and `keep` keeps; `restore` goes back to its beginning.
//!
//! - `script`: the lines in turn, and the trials
//! - `play`: what a line does
//! - `call`: the calls that code something
//! - `question`: the calls that change nothing, and are answered with a number
//! - `code`: the codes of one of several values, which are written or counted
//! - `args`: the numbers of a line, as what a call takes
#![tactic(auto)]

mod args;
mod call;
mod code;
mod play;
mod question;
mod script;

use crate::script::play_lines;
use anyhow::Result;

fn main(rt: HostRuntime) -> Result<()> {
    let alloc = rt.alloc();
    let mut lines = Vec::new(alloc);
    for line in rt.lines(alloc) {
        lines.push(line?)?;
    }
    play_lines(&rt, alloc, &lines)
}
