// Laws of steps and of lists of steps. Each function is a theorem: it takes nothing and does nothing.
ghost use Rattle.std.specs.Prelude.{◌≡◌, ℕ, ◌≤◌, List, ◌++◌, None, Some, map};
ghost use Rattle.av1_model.specs.Interval.{final_bytes};
ghost use Rattle.av1_model.specs.Reading.{Coding};
ghost use Rattle.av1_model.specs.Syntax.{Leads};
ghost use Rattle.av1_step.specs.declared.step.TileStep.{TileStep};
ghost use Rattle.av1_step.specs.Tile.{Tile};
ghost use Rattle.av1_cdf.specs.Context.{AreCdfs};
ghost use Rattle.av1_cdf.specs.Distribution.{coded_by, learnt};
ghost use Rattle.av1_model.specs.Comes.{Standing, stored_along, Begins};
ghost use Rattle.av1_geometry.specs.Rules.{first_broken};
ghost use Rattle.av1_step.specs.Step.{Question, question_of, rules, syntax_of, symbols_of, step_fault};
ghost use Rattle.av1_step.specs.Script.{after_all, first_broken_step, read_steps};
ghost use Rattle.av1_step.specs.Kept.{IsKept};
ghost use Rattle.av1_step.specs.Sound.{IsSound};

/// In each state that a tile can have, for each step that breaks no rule there is exactly one list of symbols that leads a reader
/// to it. A writer that was refused has stored a front of them. A step with no fault after some number of bits has none after fewer.
pub fn law_of_steps()
    ensures leads { (step : TileStep) (t : Tile) → first_broken (rules step t) ≡ None →
        AreCdfs t.numbers → IsKept t → Leads (syntax_of (question_of step) t) (symbols_of step t) step }
    ensures one_path { (step : TileStep) (t : Tile) (symbols : List ℕ) → AreCdfs t.numbers → IsKept t →
        Leads (syntax_of (question_of step) t) symbols step → (first_broken (rules step t) ≡ None) × (symbols ≡ symbols_of step t) }
    ensures refused { (step : TileStep) (t : Tile) (old new : Standing (List ℕ)) → AreCdfs t.numbers → IsKept t →
        Begins coded_by (learnt t.learns) (syntax_of (question_of step) t) step old new →
        (front : List ℕ) × (rest : List ℕ) × (front ++ rest ≡ symbols_of step t) ×
        (new ≡ stored_along coded_by (learnt t.learns) (syntax_of (question_of step) t) front old) }
    ensures fewer_bits { (step : TileStep) (t : Tile) (bits fewer : ℕ) → step_fault t bits step ≡ None → fewer ≤ bits →
        step_fault t fewer step ≡ None }
{}

/// A reader that is led by the questions of steps that break no rule takes exactly their answers from the final bytes of
/// the interval where coding them ends, and comes to exactly that interval and tile, wherever in a tile that begins.
pub fn law_of_reading_steps()
    ensures { (at : Coding Tile) (steps : List TileStep) → IsSound at → first_broken_step 0 at steps ≡ None →
        read_steps (map question_of steps) (final_bytes (after_all at steps).interval) at ≡ Some (steps, after_all at steps) }
{}

/// Whatever bytes a reader that is led by questions takes steps from, the steps answer the questions and break no rule, and
/// the reading ends where coding them does.
pub fn law_of_read_steps()
    ensures { (at : Coding Tile) (bytes : List ℕ) (questions : List Question) (steps : List TileStep) (end : Coding Tile) →
        IsSound at → read_steps questions bytes at ≡ Some (steps, end) →
        (map question_of steps ≡ questions) × (first_broken_step 0 at steps ≡ None) × (end ≡ after_all at steps) }
{}
