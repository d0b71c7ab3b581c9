// What the trials of a script cost.
ghost use Rattle.std.specs.Prelude.{◌≡◌, ℕ, ◌<◌, List, [], ◌∷◌, ◌++◌, false, length, OnOk};
ghost use Rattle.av1_tile.specs.declared.report.TrialCost.{TrialCost};
ghost use Rattle.av1_tile.specs.Trials.{cost_told};

use crate::TrialCost;
use av1_geometry::OutOfMemory;
use std::alloc::Global;

/// What trials cost, in the order of their beginnings; for one that has not ended nothing is known yet.
#[derive(Drop)]
pub(crate) struct TrialCosts {
    pub all: Vec<TrialCost>,

    // The places of the costs of trials that have begun and not ended, the innermost last.
    begun: Vec<usize>,
}

impl TrialCosts {
    /// Before the first trial.
    pub fn new(alloc: Global) -> Self
        ensures all { result.all.items ≡ [] }
        ensures begun { result.begun.items ≡ [] }
    {
        TrialCosts {
            all: Vec::new(alloc),
            begun: Vec::new(alloc),
        }
    }

    /// A trial begins in this tile, by this item.
    pub fn begin(&mut self, tile: u32, item: usize) -> Result<(), OutOfMemory>
        ensures all { OnOk result (self.new.all.items ≡ self.old.all.items ++ record { tile = tile; item = item; eighths = 0; kept = false } ∷ []) }
        ensures begun { OnOk result (self.new.begun.items ≡ self.old.begun.items ++ length self.old.all.items ∷ []) }
    {
        let trial = self.all.len();
        self.all.push(TrialCost {
            tile,
            item,
            eighths: 0,
            kept: false,
        })?;
        self.begun.push(trial)?;
        Ok(())
    }

    /// The innermost trial ends.
    pub fn end(&mut self, eighths: u32, kept: bool)
        requires { (outer : List ℕ) (trial : ℕ) → self.old.begun.items ≡ outer ++ trial ∷ [] → trial < length self.old.all.items }
        ensures begun { (outer : List ℕ) (trial : ℕ) → self.old.begun.items ≡ outer ++ trial ∷ [] → self.new.begun.items ≡ outer }
        ensures all { (outer : List ℕ) (k : ℕ) (other : TrialCost) → self.old.begun.items ≡ outer ++ k ∷ [] →
            self.new.all.items ≡ cost_told self.old.all.items k other eighths kept }
    {
        let Some(trial) = self.begun.pop() else {
            return
        };
        let cost = &mut self.all[trial];
        cost.eighths = eighths;
        cost.kept = kept;
    }
}
