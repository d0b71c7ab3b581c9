// What to put back into a context, to undo what was done to it.
ghost use Rattle.std.specs.Prelude.{◌≡◌, ℕ, List, ◌+◌, ◌≤◌, ◌<◌, IsOk, OnOk, OnErr, IsTrue, take};
ghost use Rattle.av1_cdf.specs.Windows.{all_short, all_long};

use crate::cdf_context::{CDF_LEN_MAX, CDFContext};
use crate::cdf_offset::CDFOffset;
use crate::part::Part;
use av1_geometry::OutOfMemory;
use std::alloc::Global;

/// The longest CDF that the small part saves.
const CDF_LEN_SMALL: usize = 4;

/// The saves of a context. A CDF of at most 4 numbers is saved as the 4 from its place on, a longer one as the 16 from there;
/// they may reach over CDFs that follow, but no save of one part has a number that one of the other part may have.
#[derive(Drop)]
pub struct CDFContextLog {
    small: Part<CDF_LEN_SMALL>,
    large: Part<CDF_LEN_MAX>,
    ghost short: { IsTrue (all_short small.saves.items) },
    ghost long: { IsTrue (all_long large.saves.items) },
}

/// A moment of a log, to which `rollback` goes back.
#[derive(Clone, Copy, Debug)]
pub struct CDFContextCheckpoint {
    // How many saves each part had.
    small: usize,
    large: usize,
}

impl CDFContextLog {
    ghost use Rattle.av1_cdf.specs.Context.{with_contents};
    ghost use Rattle.av1_cdf.specs.Slots.{slot_of};
    ghost use Rattle.av1_cdf.specs.Log.{small_saves, large_saves, saves_of, saves_after, stored, spare, spare_for, IsReached, IsWithin, undone, KeepsUndone};
    ghost use Rattle.av1_cdf.specs.declared.log.CDFContextCheckpoint.{CDFContextCheckpoint};

    /// A log with no saves.
    pub fn new(alloc: Global) -> CDFContextLog
        ensures { stored result ≡ 0 }
    {
        CDFContextLog {
            small: Part::new(alloc),
            large: Part::new(alloc),
        }
    }

    // A push into a log that has room.
    #[tactic(auto, using(crate::proofs::Windows::slot_keeps))]
    #[inline(always)]
    pub(crate) fn save(&mut self, fc: &CDFContext, cdf: CDFOffset)
        requires room { 0 < spare_for self.old cdf.len }
        ensures appended { saves_of self.new ≡ saves_after self.old fc.now cdf }
        ensures saved { (ws : List ℕ) → KeepsUndone self.old self.new fc.now (with_contents fc.now (slot_of cdf) ws) }
        ensures spare { spare self.old ≤ spare self.new + 1 }
    {
        if cdf.len <= CDF_LEN_SMALL {
            self.small.keep(fc, cdf.place);
        } else {
            self.large.keep(fc, cdf.place);
        }
    }

    /// Saves the numbers of a CDF, which `CDFContext::values_mut` then hands out to be changed: one save of the 4 or 16
    /// numbers from its place on, in the part for its length. Where there is no memory for it nothing changes. It is
    /// `push` of rav1e's log (`src/context/cdf_context.rs`).
    pub fn push(&mut self, fc: &CDFContext, cdf: CDFOffset) -> Result<(), OutOfMemory>
        ensures appended { OnOk result (saves_of self.new ≡ saves_after self.old fc.now cdf) }
        ensures saved { OnOk result ((ws : List ℕ) → KeepsUndone self.old self.new fc.now (with_contents fc.now (slot_of cdf) ws)) }
        ensures same { OnErr result (saves_of self.new ≡ saves_of self.old) }
        ensures room { 0 < spare self.old → IsOk result }
        ensures spare { spare self.old ≤ spare self.new + 1 }
    {
        self.ready_for(cdf)?;
        self.save(fc, cdf);
        Ok(())
    }

    /// Makes room for this many saves, so that as many calls of `push` succeed. The saves stay, also on a refusal.
    pub fn ready(&mut self, pushes: usize) -> Result<(), OutOfMemory>
        ensures same { saves_of self.new ≡ saves_of self.old }
        ensures ready { OnOk result (pushes ≤ spare self.new) }
        ensures room { pushes ≤ spare self.old → IsOk result }
        ensures spare { spare self.old ≤ spare self.new }
    {
        self.small.ready(pushes)?;
        self.large.ready(pushes)
    }

    /// Makes room for one save of a CDF.
    #[inline(always)]
    pub fn ready_for(&mut self, cdf: CDFOffset) -> Result<(), OutOfMemory>
        ensures same { saves_of self.new ≡ saves_of self.old }
        ensures ready { OnOk result (0 < spare_for self.new cdf.len) }
        ensures room { 0 < spare self.old → IsOk result }
        ensures spare { spare self.old ≤ spare self.new }
    {
        if cdf.len <= CDF_LEN_SMALL {
            self.small.ready(1)
        } else {
            self.large.ready(1)
        }
    }

    /// A checkpoint of now, which stands for the context as it is.
    #[inline(always)]
    pub fn checkpoint(&self) -> CDFContextCheckpoint
        ensures reached { IsReached self.now result }
        ensures last { (c : CDFContextCheckpoint) → IsReached self.now c → IsWithin c result }
        ensures undone { (context : List ℕ) → undone self.now context result ≡ context }
    {
        CDFContextCheckpoint {
            small: self.small.saves.len(),
            large: self.large.saves.len(),
        }
    }

    /// Makes the context what the checkpoint stands for, and forgets the saves past it. Each checkpoint that reaches no
    /// further stands for what it stood for.
    pub fn rollback(&mut self, fc: &mut CDFContext, checkpoint: &CDFContextCheckpoint)
        requires { IsReached self.old checkpoint.now }
        ensures context { fc.new ≡ undone self.old fc.old checkpoint.now }
        ensures cut { saves_of self.new ≡ (take checkpoint.now.small (small_saves self.old), take checkpoint.now.large (large_saves self.old)) }
        ensures reached { (c : CDFContextCheckpoint) → IsWithin c checkpoint.now → IsReached self.new c }
        ensures kept { (c : CDFContextCheckpoint) → IsWithin c checkpoint.now → undone self.new fc.new c ≡ undone self.old fc.old c }
        ensures spare { spare self.old ≤ spare self.new }
    {
        self.small.undo(fc, checkpoint.small);
        self.large.undo(fc, checkpoint.large);
    }

    /// Forgets all saves.
    pub fn clear(&mut self)
        ensures stored { stored self.new ≡ 0 }
        ensures spare { spare self.old ≤ spare self.new }
    {
        self.small.saves.clear();
        self.large.saves.clear();
    }
}
