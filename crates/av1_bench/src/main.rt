//! The speed of the writers: N symbols by the sizes 2 to 16 in turn are coded by each.
//!
//! `av1_bench N SEED` writes what each writer gives. `av1_bench N SEED WORK/WRITER` has one of them alone do one work, to count
//! its instructions. The work is `plain`, by distributions that stay, `adaptive`, by those that learn, `trials`, which are
//! coded twice, or `none`; the writer `encoder`, `counter`, `recorder`, or `replay`, a recorder and its replay into an encoder.
//!
//! - `symbols`: the symbols, and sums over bytes and numbers
//! - `round`: the distributions that stay, and the coding by them
//! - `slots`, `learner`, `learning`: those of a context, which learns, and the coding by them, also as trials
//! - `work`: what is done with the symbols, and what is told of it
#![tactic(auto)]

mod learner;
mod learning;
mod round;
mod slots;
mod symbols;
mod work;

ghost use Rattle.std.specs.Prelude.{ℕ, ◌+◌, ◌%◌, ◌^◌, ◌<◌, ◌≤◌, IfSome, length, slice_index};

use crate::symbols::{draw_symbols, fnv, sum};
use crate::work::{Coded, Work};
use av1_ec::{Writer, WriterCounter, WriterEncoder, WriterRecorder, law_of_recorders};
use av1_geometry::OutOfMemory;
use std::alloc::Global;
use std::{env, io};

// The most symbols.
const MOST: usize = 1 << 24;

fn by_encoder(alloc: Global, work: Work, symbols: &[u8]) -> Result<(Vec<u8>, Coded), OutOfMemory>
    requires few { length symbols.now ≤ 2 ^ 24 }
    requires symbols { (k : ℕ) → k < length symbols.now → slice_index symbols.now k < k % 15 + 2 }
{
    let mut w = WriterEncoder::new(alloc);
    let coded = work.done_by(alloc, &mut w, symbols)?;
    Ok((w.done()?, coded))
}

fn by_counter(alloc: Global, work: Work, symbols: &[u8]) -> Result<(u32, u32, Coded), OutOfMemory>
    requires few { length symbols.now ≤ 2 ^ 24 }
    requires symbols { (k : ℕ) → k < length symbols.now → slice_index symbols.now k < k % 15 + 2 }
{
    let mut w = WriterCounter::new();
    let coded = work.done_by(alloc, &mut w, symbols)?;
    Ok((w.tell(), w.tell_frac(), coded))
}

fn by_recorder(alloc: Global, work: Work, symbols: &[u8]) -> Result<(u32, u32, Coded), OutOfMemory>
    requires few { length symbols.now ≤ 2 ^ 24 }
    requires symbols { (k : ℕ) → k < length symbols.now → slice_index symbols.now k < k % 15 + 2 }
{
    let mut w = WriterRecorder::new(alloc);
    let coded = work.done_by(alloc, &mut w, symbols)?;
    Ok((w.tell(), w.tell_frac(), coded))
}

fn by_replay(alloc: Global, work: Work, symbols: &[u8]) -> Result<Vec<u8>, OutOfMemory>
    requires few { length symbols.now ≤ 2 ^ 24 }
    requires symbols { (k : ℕ) → k < length symbols.now → slice_index symbols.now k < k % 15 + 2 }
{
    let mut w = WriterRecorder::new(alloc);
    work.done_by(alloc, &mut w, symbols)?;
    let mut dest = WriterEncoder::new(alloc);
    law_of_recorders(&w);
    w.replay_into(&mut dest)?;
    dest.done()
}

// How many symbols, and the seed.
fn numbers(words: &[String]) -> Option<(usize, u32)>
    ensures { IfSome result (λ r. r.0 ≤ 2 ^ 24) }
{
    let n = words.get(0)?.parse::<usize>().ok()?;
    let seed = words.get(1)?.parse::<u32>().ok()?;
    if n > MOST {
        return None;
    }
    Some((n, seed))
}

fn no_memory(_: OutOfMemory) -> io::Error {
    io::Error::from(io::ErrorKind::OutOfMemory)
}

// What each writer gives. No trials are replayed.
fn report(rt: &HostRuntime, work: Work, symbols: &[u8]) -> io::Result<()>
    requires few { length symbols.now ≤ 2 ^ 24 }
    requires symbols { (k : ℕ) → k < length symbols.now → slice_index symbols.now k < k % 15 + 2 }
{
    let alloc = rt.alloc();
    let (bytes, coded) = by_encoder(alloc, work, symbols).map_err(no_memory)?;
    let summary = coded.summary(alloc).map_err(no_memory)?;
    println!(rt;
        "{work} encoder bytes {} sum {} fnv {}{summary}",
        bytes.len(),
        sum(&bytes),
        fnv(&bytes)
    )?;
    let (tell, tell_frac, coded) = by_counter(alloc, work, symbols).map_err(no_memory)?;
    let summary = coded.summary(alloc).map_err(no_memory)?;
    println!(rt; "{work} counter tell {tell} tell_frac {tell_frac}{summary}")?;
    let (tell, tell_frac, coded) = by_recorder(alloc, work, symbols).map_err(no_memory)?;
    let summary = coded.summary(alloc).map_err(no_memory)?;
    println!(rt; "{work} recorder tell {tell} tell_frac {tell_frac}{summary}")?;
    if work == Work::Trials {
        return Ok(());
    }
    let bytes = by_replay(alloc, work, symbols).map_err(no_memory)?;
    println!(rt;
        "{work} replayed bytes {} sum {} fnv {}",
        bytes.len(),
        sum(&bytes),
        fnv(&bytes)
    )
}

// Which writer does the work alone.
#[derive(Clone, Copy, Debug)]
enum WriterKind {
    Encoder,
    Counter,
    Recorder,
    // A recorder, and its replay into an encoder.
    Replay,
}

impl WriterKind {
    // The writer of this name.
    fn named(name: &str) -> Option<WriterKind> {
        match name {
            "encoder" => Some(WriterKind::Encoder),
            "counter" => Some(WriterKind::Counter),
            "recorder" => Some(WriterKind::Recorder),
            "replay" => Some(WriterKind::Replay),
            _ => None,
        }
    }
}

// A work and a writer, as `adaptive/encoder`.
fn work_and_writer(words: &str) -> Option<(Work, WriterKind)> {
    let (work, writer) = words.split_once('/')?;
    Some((Work::named(work)?, WriterKind::named(writer)?))
}

// The work of one writer alone; a number that stands on all of it.
fn one(alloc: Global, work: Work, writer: WriterKind, symbols: &[u8]) -> Result<usize, OutOfMemory>
    requires few { length symbols.now ≤ 2 ^ 24 }
    requires symbols { (k : ℕ) → k < length symbols.now → slice_index symbols.now k < k % 15 + 2 }
{
    match writer {
        WriterKind::Encoder => Ok(by_encoder(alloc, work, symbols)?.0.len()),
        WriterKind::Counter => Ok(by_counter(alloc, work, symbols)?.1 as usize),
        WriterKind::Recorder => Ok(by_recorder(alloc, work, symbols)?.1 as usize),
        WriterKind::Replay => Ok(by_replay(alloc, work, symbols)?.len()),
    }
}

fn report_one(rt: &HostRuntime, words: &str, symbols: &[u8]) -> io::Result<()>
    requires few { length symbols.now ≤ 2 ^ 24 }
    requires symbols { (k : ℕ) → k < length symbols.now → slice_index symbols.now k < k % 15 + 2 }
{
    let Some((work, writer)) = work_and_writer(words) else {
        return usage(rt);
    };
    let number = one(rt.alloc(), work, writer, symbols).map_err(no_memory)?;
    println!(rt; "{words} {number}")
}

fn usage(rt: &HostRuntime) -> io::Result<()> {
    eprintln!(rt; "usage: av1_bench N SEED [WORK/WRITER]")?;
    Err(io::Error::from(io::ErrorKind::InvalidInput))
}

fn main(rt: HostRuntime) -> io::Result<()> {
    let words: Vec<String> = env::args(&rt)?.skip(1).collect(rt.alloc())?;
    let Some((n, seed)) = numbers(&words) else {
        return usage(&rt);
    };
    let Ok(symbols) = draw_symbols(rt.alloc(), n, seed) else {
        return Err(no_memory(OutOfMemory));
    };
    if let Some(only) = words.get(2) {
        return report_one(&rt, only, &symbols);
    }
    println!(rt; "bench n {n} seed {seed} symbols {}", fnv(&symbols))?;
    report(&rt, Work::Plain, &symbols)?;
    report(&rt, Work::Adaptive, &symbols)?;
    report(&rt, Work::Trials, &symbols)
}
