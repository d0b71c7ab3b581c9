// CDFs of one length, one after another, and the CDF that a place belongs to.
ghost use Rattle.std.specs.Prelude.{◌≡◌, ◌<◌, ◌≤◌, ◌+◌, ◌*◌, ◌^◌, ◌&&◌, nat_eq, nat_le, IsTrue};
ghost use Rattle.av1_cdf.specs.Runs.{Has, HasOrEnds, IsBefore, end_of, has_run, is_in, run_at};
ghost use Rattle.av1_cdf.specs.Slots.{cell_of};

use crate::cdf_offset::CDFOffset;
use crate::layout::runs;

/// CDFs of one length, one after another. Padding is a run of lists of one number.
#[derive(Clone, Copy)]
pub(crate) struct Run {
    pub(crate) place: usize,
    pub(crate) count: usize,
    pub(crate) len: usize,
}

/// A CDF of the context, or a number of padding.
#[derive(Clone, Copy)]
pub(crate) struct Cell {
    pub(crate) place: usize,
    pub(crate) len: usize,
}

impl Cell {
    /// Whether the CDF's count stands at a place.
    pub(crate) fn ends_with(self, k: usize) -> bool
        requires place { self.place + self.len < 2 ^ 16 }
        requires k { k < 5528 }
        ensures { result ≡ (nat_le 2 self.len && nat_eq (k + 1) (self.place + self.len)) }
    {
        self.len >= 2 && k + 1 == self.place + self.len
    }
}

/// The run with this number.
#[tactic(auto, using(crate::proofs::Cells::run_fits))]
fn run_at(run: usize) -> Run
    requires { run < 72 }
    ensures is { result ≡ run_at run }
    ensures within { end_of result ≤ 5528 }
    ensures some { 0 < result.len }
{
    runs()[run]
}

/// The run that has a place, from one that has it or ends there.
pub(crate) fn run_with(run: usize, k: usize) -> usize
    requires run { HasOrEnds run k }
    requires k { k < 5528 }
    ensures { Has result k }
{
    if k < run_at(run).end() { run } else { run + 1 }
}

/// The CDF that a place belongs to, from that of the place before.
#[tactic(auto, using(crate::proofs::Cells::cell_after, crate::proofs::Cells::cell_of_place))]
#[inline(always)]
pub(crate) fn cell_with(run: usize, before: Cell, k: usize) -> Cell
    requires run { Has run k }
    requires before { IsBefore before k }
    requires k { k < 5528 }
    ensures is { result ≡ cell_of k }
    ensures from { result.place ≤ k }
    ensures to { k < result.place + result.len }
    ensures within { result.place + result.len ≤ 5528 }
{
    if k < before.place + before.len {
        before
    } else {
        Cell {
            place: k,
            len: run_at(run).len,
        }
    }
}

impl Run {
    /// The place past its end.
    #[inline(always)]
    pub(crate) fn end(self) -> usize
        requires { end_of self ≤ 5528 }
        ensures { result ≡ end_of self }
    {
        self.place + self.count * self.len
    }

    /// Whether one of its CDFs has a place.
    pub(crate) fn has_place(self, k: usize) -> bool
        requires { end_of self ≤ 5528 }
        ensures { result ≡ is_in k self }
    {
        self.place <= k && k < self.end()
    }

    /// The CDF with this number.
    #[tactic(auto, using(crate::proofs::Cells::slot_of_run, crate::proofs::Cells::place_within))]
    #[inline(always)]
    pub(crate) fn cdf(self, number: usize) -> CDFOffset
        requires run { IsTrue (has_run self) }
        requires number { number < self.count }
        ensures place { result.place ≡ self.place + number * self.len }
        ensures len { result.len ≡ self.len }
    {
        CDFOffset::new(self.place + number * self.len, self.len)
    }

    /// The same run of component 0 or 1 of vectors.
    #[tactic(auto, using(crate::proofs::Cells::component_run, crate::proofs::Cells::start_within))]
    #[inline(always)]
    pub(crate) fn of_component(self, component: usize) -> Run
        requires component { component < 2 }
        requires first { IsTrue (has_run self) }
        requires second { IsTrue (has_run (record self { place = self.place + 56 })) }
        requires some { 0 < self.count }
        ensures place { result.place ≡ self.place + 56 * component }
        ensures count { result.count ≡ self.count }
        ensures len { result.len ≡ self.len }
        ensures run { IsTrue (has_run result) }
    {
        Run {
            place: self.place + 56 * component,
            count: self.count,
            len: self.len,
        }
    }
}
