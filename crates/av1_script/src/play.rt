// What a line does.
ghost use Rattle.std.specs.Prelude.{◌≤◌};
ghost use Rattle.av1_ec.specs.Storing.{KeepsReached};

use crate::args::up_to;
use crate::call::{read_call, store};
use crate::question::{answer, read_question};
use anyhow::{Context, Result, bail, ensure};
use av1_ec::{Known, StorageBackend, Writer, WriterBase, WriterEncoder};
use std::alloc::Global;

/// The most bits that a writer may have shifted out before a call, and the most fake bits, in 256ths of a bit.
const MOST_BITS: u32 = 1 << 28;

/// The numbers of a line, after its name.
pub fn numbers(alloc: Global, line: &str) -> Result<Vec<i64>> {
    let mut numbers = Vec::new(alloc);
    for word in line.split_whitespace().skip(1) {
        numbers.push(word.parse::<i64>()?)?;
    }
    Ok(numbers)
}

// Adds fake bits, where the numbers are one that has room.
fn add_bits_frac(w: &mut WriterBase<WriterEncoder>, numbers: &[i64]) -> Result<()>
    ensures stored { ⟦<WriterBase<WriterEncoder> as Known>⟧.stored w.old ≤ ⟦<WriterBase<WriterEncoder> as Known>⟧.stored w.new }
    ensures reached { KeepsReached ⟦<WriterBase<WriterEncoder> as Known>⟧ w.old w.new }
{
    let &[bits_frac] = numbers else {
        bail!("not the numbers of bits_frac");
    };
    let room = MOST_BITS - w.tally().fake_bits_frac;
    let bits_frac = up_to(room, bits_frac).context("too many fake bits")?;
    Writer::add_bits_frac(w, bits_frac);
    Ok(())
}

/// Plays a line of this name and these numbers, and tells what it is answered.
pub fn play(
    alloc: Global,
    w: &mut WriterBase<WriterEncoder>,
    name: &str,
    numbers: &[i64],
) -> Result<Option<u32>>
    ensures stored { ⟦<WriterBase<WriterEncoder> as Known>⟧.stored w.old ≤ ⟦<WriterBase<WriterEncoder> as Known>⟧.stored w.new }
    ensures reached { KeepsReached ⟦<WriterBase<WriterEncoder> as Known>⟧ w.old w.new }
{
    if let Some(question) = read_question(alloc, name, numbers)? {
        return Ok(Some(answer(w, &question)));
    }
    if name == "bits_frac" {
        add_bits_frac(w, numbers)?;
        return Ok(None);
    }
    let Some(call) = read_call(alloc, name, numbers)? else {
        bail!("no such call: {name}");
    };
    ensure!(w.tally().bits <= MOST_BITS, "too many bits");
    store(w, &call)?;
    Ok(None)
}
