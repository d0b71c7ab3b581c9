// An encoder's entries, each a byte and a carry: they leave the window, and their carries are summed at the end.
ghost use Rattle.std.specs.Prelude.{◌≡◌, ◌+◌, ◌-◌, ◌/◌, ◌%◌, ◌^◌, ◌<◌, ◌≤◌, ◌++◌, ◌∷◌, [], IfOk, OnOk, OnErr, IsOk, All, take, vec_len, vec_capacity};
ghost use Rattle.av1_model.specs.Interval.{final_bytes};
ghost use Rattle.av1_model.specs.Window.{interval_of_window};
ghost use Rattle.av1_ec.specs.Encoder.{HasRoom, bytes_of_entries};

use av1_geometry::OutOfMemory;
use std::alloc::Global;

// Makes room for two entries.
#[inline(always)]
fn reserve_two(precarry: &mut Vec<u16>) -> Result<(), OutOfMemory>
    ensures same { precarry.new.items ≡ precarry.old.items }
    ensures ok { OnOk result (vec_len precarry.new + 2 ≤ vec_capacity precarry.new) }
    ensures room { vec_len precarry.old + 2 ≤ vec_capacity precarry.old → IsOk result }
    ensures capacity { vec_capacity precarry.old ≤ vec_capacity precarry.new }
{
    if precarry.capacity() - precarry.len() < 2 {
        return grow(precarry);
    }
    Ok(())
}

// Rare, so that it stays out of the way of what is often.
#[cold]
#[inline(never)]
fn grow(precarry: &mut Vec<u16>) -> Result<(), OutOfMemory>
    ensures same { precarry.new.items ≡ precarry.old.items }
    ensures ok { OnOk result (vec_len precarry.new + 2 ≤ vec_capacity precarry.new) }
    ensures capacity { vec_capacity precarry.old ≤ vec_capacity precarry.new }
{
    precarry.reserve(2)?;
    Ok(())
}

// Lets entries leave the window until it has room for `d` more bits: what is left of the low end, and its new weight.
#[inline(always)]
pub(crate) fn make_room(
    precarry: &mut Vec<u16>,
    low: &mut u32,
    weight: &mut u32,
    d: u32,
) -> Result<(), OutOfMemory>
    requires least { 15 ≤ weight.old }
    requires most { weight.old ≤ 23 }
    requires bits { d ≤ 13 }
    requires low { low.old < 2 ^ (weight.old + 1) }
    requires carries { All (λ e. e < 512) precarry.old.items }
    ensures ok { OnOk result (HasRoom precarry.old.items precarry.new.items low.old weight.old d low.new weight.new) }
    ensures err { OnErr result (precarry.new.items ≡ precarry.old.items) }
    ensures room { vec_len precarry.old + 2 ≤ vec_capacity precarry.old → IsOk result }
    ensures entries { vec_len precarry.new ≤ vec_len precarry.old + 2 }
    ensures begins { take (vec_len precarry.old) precarry.new.items ≡ precarry.old.items }
    ensures capacity { vec_capacity precarry.old ≤ vec_capacity precarry.new }
{
    if *weight + d < 24 {
        return Ok(());
    }
    reserve_two(precarry)?;
    leave(precarry, low, weight);
    if *weight + d < 24 {
        return Ok(());
    }
    leave(precarry, low, weight);
    Ok(())
}

// The top of the window leaves it as an entry: what is left of the low end, and its weight.
#[inline(always)]
fn leave(precarry: &mut Vec<u16>, low: &mut u32, weight: &mut u32)
    requires least { 8 ≤ weight.old }
    requires most { weight.old ≤ 23 }
    requires low { low.old < 2 ^ (weight.old + 1) }
    requires room { vec_len precarry.old < vec_capacity precarry.old }
    ensures entries { precarry.new.items ≡ precarry.old.items ++ (low.old / 2 ^ (weight.old - 8)) ∷ [] }
    ensures low { low.new ≡ low.old % 2 ^ (weight.old - 8) }
    ensures weight { weight.new ≡ weight.old - 8 }
    ensures capacity { vec_capacity precarry.old ≤ vec_capacity precarry.new }
{
    *weight -= 8;
    precarry.push_reserved((*low >> *weight) as u16);
    *low &= (1 << *weight) - 1;
}

// Pushes what `done` rounds the window to, as one entry, or as two where the window is 23 bits wide.
pub(crate) fn push_end(precarry: &mut Vec<u16>, low: u32, weight: u32) -> Result<(), OutOfMemory>
    requires least { 15 ≤ weight }
    requires most { weight ≤ 23 }
    requires low { low + 32768 ≤ 2 ^ (weight + 1) }
    requires carries { All (λ e. e < 512) precarry.old.items }
    ensures carries { OnOk result (All (λ e. e < 512) precarry.new.items) }
    ensures bytes { OnOk result (bytes_of_entries precarry.new.items ≡ final_bytes (interval_of_window precarry.old.items low 32768 weight)) }
{
    let end = ((low + 0x3fff) >> 15 << 15) + 0x4000;
    precarry.push((end >> (weight - 8)) as u16)?;
    if weight == 23 {
        precarry.push((end % 0x8000 >> 7) as u16)?;
    }
    Ok(())
}

// The bytes of entries, the carry of each added to the one before it.
pub(crate) fn sum_carries(alloc: Global, precarry: &[u16]) -> Result<Vec<u8>, OutOfMemory>
    requires { All (λ e. e < 512) precarry.now }
    ensures { IfOk result (λ v. v.items ≡ bytes_of_entries precarry.now) }
{
    let mut offs = precarry.len();
    let mut out = vec![in alloc; 0u8; offs]?;
    let mut c = 0u16;
    while offs > 0 {
        offs -= 1;
        c += precarry[offs];
        out[offs] = (c & 0xff) as u8;
        c >>= 8;
    }
    Ok(out)
}
