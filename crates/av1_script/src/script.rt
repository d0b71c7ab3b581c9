// The lines of a script in turn.
ghost use Rattle.std.specs.Prelude.{◌≤◌, length, IfOk, OnOk};
ghost use Rattle.av1_ec.specs.Checkpoint.{reach};
ghost use Rattle.av1_ec.specs.Storing.{KeepsReached, KeepsReachedUpTo};

use crate::play::{numbers, play};
use anyhow::{Result, bail};
use av1_ec::{Known, Writer, WriterBase, WriterCheckpoint, WriterEncoder};
use std::alloc::Global;

// The name that a line begins with, which is empty in an empty line.
fn name_of(line: &str) -> &str {
    let Some(name) = line.split_whitespace().next() else {
        return "";
    };
    name
}

// Plays a line that is a call, and tells the answer.
fn play_line<P: Print>(
    rt: &P,
    alloc: Global,
    w: &mut WriterBase<WriterEncoder>,
    line: &str,
) -> Result<()>
    ensures stored { OnOk result (⟦<WriterBase<WriterEncoder> as Known>⟧.stored w.old ≤ ⟦<WriterBase<WriterEncoder> as Known>⟧.stored w.new) }
    ensures reached { OnOk result (KeepsReached ⟦<WriterBase<WriterEncoder> as Known>⟧ w.old w.new) }
{
    let name = name_of(line);
    if name == "" {
        return Ok(());
    }
    let args = numbers(alloc, line)?;
    if let Some(answer) = play(alloc, w, name, &args)? {
        println!(rt; "{name} {answer}")?;
    }
    Ok(())
}

// Plays the lines of a trial, up to the one that ends it; the lines after that.
fn play_trial<'a, P: Print>(
    rt: &P,
    alloc: Global,
    w: &mut WriterBase<WriterEncoder>,
    start: &WriterCheckpoint,
    lines: &'a [String],
) -> Result<&'a [String]>
    requires reached { ⟦<WriterBase<WriterEncoder> as Known>⟧.IsReached w.old start.now }
    requires reach { reach start.now ≤ ⟦<WriterBase<WriterEncoder> as Known>⟧.stored w.old }
    ensures stored { OnOk result (reach start.now ≤ ⟦<WriterBase<WriterEncoder> as Known>⟧.stored w.new) }
    ensures reached { OnOk result (KeepsReachedUpTo ⟦<WriterBase<WriterEncoder> as Known>⟧ (reach start.now) w.old w.new) }
    ensures fewer { IfOk result (λ rest. length rest.now ≤ length lines.now) }
{
    let mut left = lines;
    while let Some((line, rest)) = left.split_first() {
        left = rest;
        let name = name_of(line.as_str());
        if name == "checkpoint" {
            let inner = w.checkpoint();
            left = play_trial(rt, alloc, w, &inner, rest)?;
        } else if name == "restore" {
            w.rollback(start);
        } else if name == "rollback" {
            w.rollback(start);
            return Ok(rest);
        } else if name == "keep" {
            return Ok(rest);
        } else {
            play_line(rt, alloc, w, line.as_str())?;
        }
    }
    bail!("a trial that does not end")
}

/// Plays all lines, and tells what they answer.
pub fn play_lines<P: Print>(rt: &P, alloc: Global, lines: &[String]) -> Result<()> {
    let mut w = WriterEncoder::new(alloc);
    let mut left = lines;
    while let Some((line, rest)) = left.split_first() {
        left = rest;
        let name = name_of(line.as_str());
        if name == "done" {
            let bytes = w.done()?;
            let text = hex::encode(alloc, &bytes)?;
            println!(rt; "done {text}")?;
            w = WriterEncoder::new(alloc);
        } else if name == "checkpoint" {
            let start = w.checkpoint();
            left = play_trial(rt, alloc, &mut w, &start, rest)?;
        } else {
            play_line(rt, alloc, &mut w, line.as_str())?;
        }
    }
    Ok(())
}
