// The numbers of a context.
ghost use Rattle.std.specs.Prelude.{◌≡◌, ℕ, ◌+◌, ◌<◌, ◌≤◌, None, List, length, IfOk};
ghost use Rattle.std.specs.Borrow.{Lends, sem, u16 as number, Array};
ghost use Rattle.av1_cdf.specs.Context.{contents, with_contents, uniform_numbers, with_counts_reset};
ghost use Rattle.av1_cdf.specs.contracts.cdf_context.CDFContext.{the_row};
ghost use Rattle.av1_cdf.specs.Log.{saves_of, saves_after, spare, spare_for, KeepsUndone};
ghost use Rattle.av1_cdf.specs.Slots.{slot_of};
ghost use Rattle.av1_cdf.specs.Tables.{table_rules, set_at, set_number};
ghost use Rattle.av1_geometry.specs.Rules.{first_broken};

use crate::cdf_offset::CDFOffset;
use crate::log::CDFContextLog;
use crate::numbers::NumberArray;
use crate::run::{Cell, cell_with, run_with};
use crate::tables::Tables;
use av1_geometry::OutOfMemory;
use std::alloc::Global;
use std::fmt;
use std::marker::Model;

/// The size of a context.
pub(crate) const NUMBERS: usize = 5528;

/// The length of the longest CDF.
pub const CDF_LEN_MAX: usize = 16;

/// All adaptive distributions of a tile, as a flat array of numbers.
#[derive(Clone, Drop)]
pub struct CDFContext {
    pub(crate) numbers: NumberArray,
}

impl Model for CDFContext {
    ghost use Rattle.std.specs.Prelude.{ℕ, List};

    ghost Value = { List ℕ };

    ghost view = { λ c. c.numbers.xs };

    ghost inverse = { λ numbers. record { numbers = record { xs = numbers } } };
}

impl CDFContext {
    /// The place of a CDF.
    #[inline(always)]
    pub fn offset(&self, cdf: CDFOffset) -> usize
        ensures { result ≡ cdf.place }
    {
        cdf.place
    }

    /// The numbers of a CDF.
    #[tactic(auto, using(crate::proofs::Cells::slot_within))]
    #[inline(always)]
    pub fn values_of(&self, cdf: CDFOffset) -> &[u16]
        ensures value { result.now ≡ contents self.now (slot_of cdf) }
        ensures len { length result.now ≡ cdf.len }
        ensures whole { length self.now ≡ 5528 }
    {
        &self.numbers.xs[cdf.place..cdf.place + cdf.len]
    }

    /// The numbers of a CDF, to be changed. All others stay.
    #[tactic(auto, using(crate::proofs::Cells::slot_within))]
    #[inline(always)]
    pub fn values_mut(&mut self, cdf: CDFOffset) -> &mut [u16]
        ensures* writes_back { sem 𝓛 (Lends the_row (Array number 0) self.entry result (with_contents self.old (slot_of cdf))) }
        ensures value { result.now ≡ contents self.old (slot_of cdf) }
        ensures len { length result.now ≡ cdf.len }
    {
        self.numbers.part_mut(cdf.place, cdf.place + cdf.len)
    }

    /// Saves a CDF in the log, which has room for it (`CDFContextLog::ready`), and hands out its numbers to be changed:
    /// `CDFContextLog::push` and `values_mut` in one call that can't fail. Whatever is left there, each checkpoint that
    /// the log reaches stands for the context that it stood for.
    #[inline(always)]
    pub fn push(&mut self, log: &mut CDFContextLog, cdf: CDFOffset) -> &mut [u16]
        requires room { 0 < spare_for log.old cdf.len }
        ensures* writes_back { sem 𝓛 (Lends the_row (Array number 0) self.entry result (with_contents self.old (slot_of cdf))) }
        ensures value { result.now ≡ contents self.old (slot_of cdf) }
        ensures len { length result.now ≡ cdf.len }
        ensures appended { saves_of log.new ≡ saves_after log.old self.old cdf }
        ensures saved { (ws : List ℕ) → KeepsUndone log.old log.new self.old (with_contents self.old (slot_of cdf) ws) }
        ensures spare { spare log.old ≤ spare log.new + 1 }
    {
        log.save(self, cdf);
        self.values_mut(cdf)
    }

    /// The context that a tile of this quantizer (`base_q_idx`) starts with: set 0 up to 20, 1 up to 60, 2 up to 120,
    /// else 3.
    pub fn new(tables: &Tables, quantizer: u8) -> CDFContext
        requires { first_broken (table_rules tables.now) ≡ None }
        ensures { result ≡ set_at tables.now (set_number quantizer) }
    {
        let set = tables.set(quantizer);
        let mut numbers = [0; NUMBERS];
        numbers.copy_from_slice(set);
        CDFContext {
            numbers: NumberArray { xs: numbers },
        }
    }

    // The numbers in a list of their own.
    pub(crate) fn to_vec(&self, alloc: Global) -> Result<Vec<u16>, OutOfMemory>
        ensures { IfOk result (λ v. v.items ≡ self.now) }
    {
        Ok(Vec::from_slice(alloc, &self.numbers.xs)?)
    }

    /// The context in which all symbols are equally likely, and all counts are 0.
    pub fn uniform() -> CDFContext
        ensures { result ≡ uniform_numbers }
    {
        let mut numbers = [0; NUMBERS];
        write_uniform(&mut numbers);
        CDFContext {
            numbers: NumberArray { xs: numbers },
        }
    }

    /// Sets the count of every CDF to 0.
    pub fn reset_counts(&mut self)
        ensures { self.new ≡ with_counts_reset self.old }
    {
        reset_counts(&mut self.numbers.xs);
    }
}

fn write_uniform(numbers: &mut [u16])
    requires { length numbers.old ≡ 5528 }
    ensures { numbers.new ≡ uniform_numbers }
{
    let mut run = 0;
    let mut cell = Cell { place: 0, len: 0 };
    for k in 0..NUMBERS {
        run = run_with(run, k);
        cell = cell_with(run, cell, k);
        numbers[k] = (32768 - 32768 * (k - cell.place + 1) / cell.len) as u16;
    }
}

fn reset_counts(numbers: &mut [u16])
    requires { length numbers.old ≡ 5528 }
    ensures { numbers.new ≡ with_counts_reset numbers.old }
{
    let mut run = 0;
    let mut cell = Cell { place: 0, len: 0 };
    for k in 0..NUMBERS {
        run = run_with(run, k);
        cell = cell_with(run, cell, k);
        if cell.ends_with(k) {
            numbers[k] = 0;
        }
    }
}

impl fmt::Debug for CDFContext {
    fn fmt<W: fmt::Write>(&self, f: &mut fmt::Formatter<W>) -> fmt::Result {
        write!(f, "CDFContext contains too many numbers to print :-(")
    }
}
