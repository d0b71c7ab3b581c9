// One part of a log: saves of one size.
ghost use Rattle.std.specs.Prelude.{◌≡◌, ◌+◌, ◌≤◌, ◌<◌, ◌++◌, ◌∷◌, [], IsOk, OnOk, IsTrue, length, take, drop};
ghost use Rattle.av1_cdf.specs.Part.{all_fit, part_spare, undone_part, window};

use crate::cdf_context::CDFContext;
use av1_geometry::OutOfMemory;
use std::alloc::Global;

/// Numbers of a context from a place on, as they were.
#[derive(Clone, Copy)]
pub(crate) struct Save<const N: usize> {
    pub(crate) place: u16,
    pub(crate) numbers: [u16; N],
}

/// Saves of one size, the oldest first.
#[derive(Drop)]
pub(crate) struct Part<const N: usize> {
    pub(crate) saves: Vec<Save<N>>,
}

impl<const N: usize> Part<N> {
    /// One that has no saves.
    pub(crate) fn new(alloc: Global) -> Part<N>
        ensures { result.saves.items ≡ [] }
    {
        Part {
            saves: Vec::new(alloc),
        }
    }

    /// Makes room for this many saves. The saves stay, also on a refusal.
    #[inline(always)]
    pub(crate) fn ready(&mut self, pushes: usize) -> Result<(), OutOfMemory>
        ensures same { self.new.saves.items ≡ self.old.saves.items }
        ensures ready { OnOk result (pushes ≤ part_spare self.new) }
        ensures room { pushes ≤ part_spare self.old → IsOk result }
        ensures spare { part_spare self.old ≤ part_spare self.new }
    {
        if self.saves.capacity() - self.saves.len() < pushes {
            return self.grow(pushes);
        }
        Ok(())
    }

    // Cold, so that the hot path stays in line.
    #[cold]
    #[inline(never)]
    fn grow(&mut self, pushes: usize) -> Result<(), OutOfMemory>
        ensures same { self.new.saves.items ≡ self.old.saves.items }
        ensures ready { OnOk result (pushes ≤ part_spare self.new) }
        ensures spare { part_spare self.old ≤ part_spare self.new }
    {
        self.saves.reserve(pushes)?;
        Ok(())
    }

    /// Saves the numbers from a place on.
    #[inline(always)]
    pub(crate) fn keep(&mut self, fc: &CDFContext, place: usize)
        requires window { place + N ≤ 5528 }
        requires room { 0 < part_spare self.old }
        ensures saved { self.new.saves.items ≡ self.old.saves.items ++ window N fc.now place ∷ [] }
        ensures spare { part_spare self.old ≤ part_spare self.new + 1 }
    {
        let mut numbers = [0; N];
        numbers.copy_from_slice(&fc.numbers.xs[place..place + N]);
        self.saves.push_reserved(Save {
            place: place as u16,
            numbers,
        });
    }

    /// Puts back what the saves past the first `left` have, the newest first, and forgets these saves.
    #[tactic(auto, using(crate::proofs::Undoing::save_fits))]
    #[inline(always)]
    pub(crate) fn undo(&mut self, fc: &mut CDFContext, left: usize)
        requires left { left ≤ length self.old.saves.items }
        requires windows { IsTrue (all_fit N self.old.saves.items) }
        ensures cut { self.new.saves.items ≡ take left self.old.saves.items }
        ensures undone { fc.new ≡ undone_part N (drop left self.old.saves.items) fc.old }
        ensures spare { part_spare self.old ≤ part_spare self.new }
    {
        let mut at = self.saves.len();
        while at > left {
            at -= 1;
            // A local copy, which the compiler knows not to overlap the context.
            let save = self.saves[at];
            let place = usize::from(save.place);
            fc.numbers
                .part_mut(place, place + N)
                .copy_from_slice(&save.numbers);
        }
        self.saves.truncate(left);
    }
}
