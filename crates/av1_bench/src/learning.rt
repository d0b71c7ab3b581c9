// The coding of symbols by CDFs that learn from them, also as trials.
ghost use Rattle.std.specs.Prelude.{◌≡◌, ℕ, ◌+◌, ◌*◌, ◌%◌, ◌^◌, ◌<◌, ◌≤◌, length, slice_index};

use crate::learner::Learner;
use crate::round::ROUND;
use crate::slots::slot;
use av1_ec::Writer;
use av1_geometry::OutOfMemory;

// How many symbols are coded between two clearings of the log.
const PART: usize = 270 * ROUND;

// How many symbols a trial has.
const TRIAL: usize = 4 * ROUND;

// Codes those of the sizes 2 to 6.
#[inline(always)]
fn learn_small<W: Writer>(w: &mut W, learner: &mut Learner, s: &[u8]) -> Result<(), OutOfMemory>
    requires whole { length s.now ≡ 15 }
    requires symbols { (k : ℕ) → k < 15 → slice_index s.now k < k + 2 }
    requires shift { (W.position w.old).shift + 65 ≤ 2 ^ 28 + 2 ^ 24 }
    requires reached { W.IsReached w.old learner.old.writer_mark }
    ensures shift { (W.position w.new).shift ≤ (W.position w.old).shift + 65 }
    ensures reached { W.IsReached w.new learner.new.writer_mark }
    ensures mark { W.position_at w.new learner.new.writer_mark ≡ W.position_at w.old learner.old.writer_mark }
{
    learner.code(w, s[0], slot(2))?;
    learner.code(w, s[1], slot(3))?;
    learner.code(w, s[2], slot(4))?;
    learner.code(w, s[3], slot(5))?;
    learner.code(w, s[4], slot(6))
}

// Codes those of the sizes 7 to 11.
#[inline(always)]
fn learn_middle<W: Writer>(w: &mut W, learner: &mut Learner, s: &[u8]) -> Result<(), OutOfMemory>
    requires whole { length s.now ≡ 15 }
    requires symbols { (k : ℕ) → k < 15 → slice_index s.now k < k + 2 }
    requires shift { (W.position w.old).shift + 65 ≤ 2 ^ 28 + 2 ^ 24 }
    requires reached { W.IsReached w.old learner.old.writer_mark }
    ensures shift { (W.position w.new).shift ≤ (W.position w.old).shift + 65 }
    ensures reached { W.IsReached w.new learner.new.writer_mark }
    ensures mark { W.position_at w.new learner.new.writer_mark ≡ W.position_at w.old learner.old.writer_mark }
{
    learner.code(w, s[5], slot(7))?;
    learner.code(w, s[6], slot(8))?;
    learner.code(w, s[7], slot(9))?;
    learner.code(w, s[8], slot(10))?;
    learner.code(w, s[9], slot(11))
}

// Codes those of the sizes 12 to 16.
#[inline(always)]
fn learn_large<W: Writer>(w: &mut W, learner: &mut Learner, s: &[u8]) -> Result<(), OutOfMemory>
    requires whole { length s.now ≡ 15 }
    requires symbols { (k : ℕ) → k < 15 → slice_index s.now k < k + 2 }
    requires shift { (W.position w.old).shift + 65 ≤ 2 ^ 28 + 2 ^ 24 }
    requires reached { W.IsReached w.old learner.old.writer_mark }
    ensures shift { (W.position w.new).shift ≤ (W.position w.old).shift + 65 }
    ensures reached { W.IsReached w.new learner.new.writer_mark }
    ensures mark { W.position_at w.new learner.new.writer_mark ≡ W.position_at w.old learner.old.writer_mark }
{
    learner.code(w, s[10], slot(12))?;
    learner.code(w, s[11], slot(13))?;
    learner.code(w, s[12], slot(14))?;
    learner.code(w, s[13], slot(15))?;
    learner.code(w, s[14], slot(16))
}

// Codes the symbols of a round, one of each size.
#[inline(always)]
fn learn_round<W: Writer>(w: &mut W, learner: &mut Learner, s: &[u8]) -> Result<(), OutOfMemory>
    requires whole { length s.now ≡ 15 }
    requires symbols { (k : ℕ) → k < 15 → slice_index s.now k < k + 2 }
    requires shift { (W.position w.old).shift + 195 ≤ 2 ^ 28 + 2 ^ 24 }
    requires reached { W.IsReached w.old learner.old.writer_mark }
    ensures shift { (W.position w.new).shift ≤ (W.position w.old).shift + 195 }
    ensures reached { W.IsReached w.new learner.new.writer_mark }
    ensures mark { W.position_at w.new learner.new.writer_mark ≡ W.position_at w.old learner.old.writer_mark }
{
    learn_small(w, learner, s)?;
    learn_middle(w, learner, s)?;
    learn_large(w, learner, s)
}

// Codes the symbols of a round that is cut off.
fn learn_rest<W: Writer>(w: &mut W, learner: &mut Learner, s: &[u8]) -> Result<(), OutOfMemory>
    requires part { length s.now < 15 }
    requires symbols { (k : ℕ) → k < length s.now → slice_index s.now k < k + 2 }
    requires shift { (W.position w.old).shift + 13 * length s.now ≤ 2 ^ 28 + 2 ^ 24 }
    requires reached { W.IsReached w.old learner.old.writer_mark }
    ensures shift { (W.position w.new).shift ≤ (W.position w.old).shift + 13 * length s.now }
    ensures reached { W.IsReached w.new learner.new.writer_mark }
    ensures mark { W.position_at w.new learner.new.writer_mark ≡ W.position_at w.old learner.old.writer_mark }
{
    for (j, &x) in s.iter().enumerate() {
        learner.code(w, x, slot(j + 2))?;
    }
    Ok(())
}

// Codes symbols, round after round. The learner's mark stays, and stands for what it stood for.
fn learn<W: Writer>(w: &mut W, learner: &mut Learner, symbols: &[u8]) -> Result<(), OutOfMemory>
    requires symbols { (k : ℕ) → k < length symbols.now → slice_index symbols.now k < k % 15 + 2 }
    requires shift { (W.position w.old).shift + 13 * length symbols.now ≤ 2 ^ 28 + 2 ^ 24 }
    requires reached { W.IsReached w.old learner.old.writer_mark }
    ensures shift { (W.position w.new).shift ≤ (W.position w.old).shift + 13 * length symbols.now }
    ensures reached { W.IsReached w.new learner.new.writer_mark }
    ensures mark { W.position_at w.new learner.new.writer_mark ≡ W.position_at w.old learner.old.writer_mark }
{
    let mut at = 0;
    while symbols.len() - at >= ROUND {
        learn_round(w, learner, &symbols[at..at + ROUND])?;
        at += ROUND;
    }
    learn_rest(w, learner, &symbols[at..])
}

/// Codes all symbols, and clears the log now and then.
pub(crate) fn learn_all<W: Writer>(
    w: &mut W,
    learner: &mut Learner,
    symbols: &[u8],
) -> Result<(), OutOfMemory>
    requires symbols { (k : ℕ) → k < length symbols.now → slice_index symbols.now k < k % 15 + 2 }
    requires shift { (W.position w.old).shift + 13 * length symbols.now ≤ 2 ^ 28 + 2 ^ 24 }
    requires reached { W.IsReached w.old learner.old.writer_mark }
{
    let mut at = 0;
    while symbols.len() - at >= PART {
        learn(w, learner, &symbols[at..at + PART])?;
        learner.clear_log();
        at += PART;
    }
    learn(w, learner, &symbols[at..])?;
    learner.clear_log();
    Ok(())
}

// Codes symbols on trial, goes back, and codes them again. It gives what they took, in eighths of a bit.
fn try_once<W: Writer>(w: &mut W, learner: &mut Learner, symbols: &[u8]) -> Result<u32, OutOfMemory>
    requires symbols { (k : ℕ) → k < length symbols.now → slice_index symbols.now k < k % 15 + 2 }
    requires shift { (W.position w.old).shift + 13 * length symbols.now ≤ 2 ^ 28 + 2 ^ 24 }
    ensures shift { (W.position w.new).shift ≤ (W.position w.old).shift + 13 * length symbols.now }
{
    let before = w.tell_frac();
    learner.set_mark(w);
    learn(w, learner, symbols)?;
    let cost = w.tell_frac().wrapping_sub(before);
    learner.rollback(w);
    learn(w, learner, symbols)?;
    learner.clear_log();
    Ok(cost)
}

/// Codes all symbols, each few of them first on trial. It gives what the trials took, in eighths of a bit.
pub(crate) fn try_all<W: Writer>(
    w: &mut W,
    learner: &mut Learner,
    symbols: &[u8],
) -> Result<u32, OutOfMemory>
    requires symbols { (k : ℕ) → k < length symbols.now → slice_index symbols.now k < k % 15 + 2 }
    requires shift { (W.position w.old).shift + 13 * length symbols.now ≤ 2 ^ 28 + 2 ^ 24 }
{
    let mut cost = 0u32;
    let mut at = 0;
    while symbols.len() - at >= TRIAL {
        cost = cost.wrapping_add(try_once(w, learner, &symbols[at..at + TRIAL])?);
        at += TRIAL;
    }
    Ok(cost.wrapping_add(try_once(w, learner, &symbols[at..])?))
}
