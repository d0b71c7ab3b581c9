// The array behind a context.
ghost use Rattle.std.specs.Prelude.{◌≡◌, ◌+◌, ◌≤◌, length};
ghost use Rattle.std.specs.Borrow.{sem};
ghost use Rattle.std.specs.List.{slice_range};

use crate::cdf_context::NUMBERS;

/// The numbers in a struct of their own, so that a clause can say what a loan of some of them leaves.
#[derive(Clone, Copy)]
pub(crate) struct NumberArray {
    pub(crate) xs: [u16; NUMBERS],
}

impl NumberArray {
    ghost use Rattle.av1_cdf.specs.Lending.{LendsPart};

    /// The numbers from one place up to another, to be changed.
    #[inline(always)]
    pub(crate) fn part_mut(&mut self, from: usize, to: usize) -> &mut [u16]
        requires order { from ≤ to }
        requires within { to ≤ 5528 }
        ensures* writes_back { sem 𝓛 (LendsPart self.entry from to result) }
        ensures value { (result.now ≡ slice_range self.old.xs from to) × (length result.now + from ≡ to) }
    {
        &mut self.xs[from..to]
    }
}
