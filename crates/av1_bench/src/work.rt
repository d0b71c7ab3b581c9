// What is done with the symbols, and what is told of it.
ghost use Rattle.std.specs.Prelude.{ℕ, ◌+◌, ◌*◌, ◌%◌, ◌^◌, ◌<◌, ◌≤◌, length, slice_index};

use crate::learner::Learner;
use crate::learning::{learn_all, try_all};
use crate::round::{ROUND, code_all};
use crate::slots::slot;
use crate::symbols::sum_from;
use av1_cdf::{CDFContext, Tables};
use av1_ec::Writer;
use av1_geometry::OutOfMemory;
use std::alloc::Global;
use std::fmt;

/// What is done with the symbols.
#[derive(Clone, Copy, Debug, PartialEq, Eq)]
pub(crate) enum Work {
    /// They are only made.
    Nothing,
    /// Each is coded by a CDF that stays.
    Plain,
    /// Each is coded by a CDF that learns from it.
    Adaptive,
    /// As adaptive, and each few of them first on trial.
    Trials,
}

impl Work {
    /// The work of this name.
    pub(crate) fn named(name: &str) -> Option<Work> {
        match name {
            "none" => Some(Work::Nothing),
            "plain" => Some(Work::Plain),
            "adaptive" => Some(Work::Adaptive),
            "trials" => Some(Work::Trials),
            _ => None,
        }
    }

    /// Does it by a writer.
    pub(crate) fn done_by<W: Writer>(
        self,
        alloc: Global,
        w: &mut W,
        symbols: &[u8],
    ) -> Result<Coded, OutOfMemory>
        requires few { length symbols.now ≤ 2 ^ 24 }
        requires symbols { (k : ℕ) → k < length symbols.now → slice_index symbols.now k < k % 15 + 2 }
        requires shift { (W.position w.old).shift + 13 * length symbols.now ≤ 2 ^ 28 + 2 ^ 24 }
    {
        let mut learner = Learner::new(alloc, w);
        let cost = match self {
            Work::Nothing => 0,
            Work::Plain => {
                code_all(w, symbols)?;
                0
            }
            Work::Adaptive => {
                learn_all(w, &mut learner, symbols)?;
                0
            }
            Work::Trials => try_all(w, &mut learner, symbols)?,
        };
        Ok(Coded {
            work: self,
            learner,
            cost,
        })
    }
}

impl fmt::Display for Work {
    fn fmt<W: fmt::Write>(&self, f: &mut fmt::Formatter<W>) -> fmt::Result {
        match self {
            Work::Nothing => write!(f, "none"),
            Work::Plain => write!(f, "plain"),
            Work::Adaptive => write!(f, "adaptive"),
            Work::Trials => write!(f, "trials"),
        }
    }
}

/// What the work leaves, beside what the writer has.
#[derive(Drop)]
pub(crate) struct Coded {
    work: Work,
    learner: Learner,
    // What trials took, in eighths of a bit.
    cost: u32,
}

impl Coded {
    /// What a report tells of it.
    pub(crate) fn summary(&self, alloc: Global) -> Result<Summary, OutOfMemory> {
        Ok(Summary {
            work: self.work,
            context: context_sum(alloc, self.learner.context())?,
            cost: self.cost,
        })
    }
}

/// What a report tells of the context and of trials; nothing of plain work.
#[derive(Clone, Copy, Debug)]
pub(crate) struct Summary {
    work: Work,
    context: u16,
    cost: u32,
}

impl fmt::Display for Summary {
    fn fmt<W: fmt::Write>(&self, f: &mut fmt::Formatter<W>) -> fmt::Result {
        match self.work {
            Work::Nothing | Work::Plain => Ok(()),
            Work::Adaptive => write!(f, " context {}", self.context),
            Work::Trials => write!(f, " context {} cost {}", self.context, self.cost),
        }
    }
}

// The sum over all numbers of a context in which nothing but the slots of the symbols has learned.
fn context_sum(alloc: Global, fc: &CDFContext) -> Result<u16, OutOfMemory> {
    let uniform = CDFContext::uniform();
    let tables = Tables::uniform(alloc)?;
    let mut total = match tables.sets.first() {
        Some(numbers) => sum_from(0, numbers),
        None => 0,
    };
    for size in 2..ROUND + 2 {
        let cdf = slot(size);
        total = total
            .wrapping_add(sum_from(cdf.place, fc.values_of(cdf)))
            .wrapping_sub(sum_from(cdf.place, uniform.values_of(cdf)));
    }
    Ok(total)
}
