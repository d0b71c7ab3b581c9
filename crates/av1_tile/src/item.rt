// One item after another: steps, and trials of steps.
ghost use Rattle.std.specs.Prelude.{◌≡◌, ◌+◌, ◌<◌, List, [], None, length, true, OnOk};
ghost use Rattle.std.specs.Option.{ForSome};
ghost use Rattle.av1_cdf.specs.Log.{stored};
ghost use Rattle.av1_tile.specs.Items.{CanCome, IsNearLast, Steps, Begins, EndsKept, EndsUndone, Takes};
ghost use Rattle.av1_tile.specs.Marks.{AreMarks};
ghost use Rattle.av1_step.specs.State.{tile_of, log_of};
ghost use Rattle.av1_step.specs.Step.{is_untried, step_fault};
ghost use Rattle.av1_step.specs.Tile.{is_inside};
ghost use Rattle.av1_tile.specs.Trials.{place_of};
ghost use Rattle.av1_step.specs.declared.unit.Item.TheVariants.{Step};

use crate::{Item, TileState, TileStep, TrialMark};
use av1_ec::Writer;
use av1_geometry::{OutOfMemory, TileBlockOffset};
use std::alloc::Global;

/// Goes through one item; `marks` has what the trials that have begun and not ended keep, the innermost last. A step does what
/// `write_step` does, `Begin` appends a mark, `Keep` drops the last one, and `Abandon` drops it and goes back to it. Outside of
/// all trials the log of the numbers is cleared.
///
/// The answer for `Keep` and `Abandon` is how many eighths of a bit were coded since the mark; they take no memory. A refused
/// `Begin` changes nothing, and a refused step leaves `marks` as it was.
pub fn write_item<W: Writer>(
    alloc: Global,
    state: &mut TileState,
    w: &mut W,
    marks: &mut Vec<TrialMark>,
    item: &Item,
) -> Result<Option<u32>, OutOfMemory>
    requires marks { AreMarks W.Known w.old state.old marks.old.items }
    requires item { CanCome (tile_of state.old) ((W.position w.old).shift + 1) marks.old.items item.now }
    ensures took { Takes W.Known w.old w.new state.old state.new marks.old.items marks.new.items result item.now }
    ensures marks { AreMarks W.Known w.new state.new marks.new.items }
    ensures cleared { OnOk result (marks.new.items ≡ [] → stored (log_of state.new) ≡ 0) }
{
    match item {
        Item::Step(step) => go_on(state, w, &*marks, step),
        Item::Begin(place) => begin_trial(alloc, &*state, &*w, marks, *place),
        Item::Keep => Ok(keep_trial(state, &*w, marks)),
        Item::Abandon => Ok(abandon_trial(state, w, marks)),
    }
}

// A step is written.
fn go_on<W: Writer>(
    state: &mut TileState,
    w: &mut W,
    marks: &Vec<TrialMark>,
    step: &TileStep,
) -> Result<Option<u32>, OutOfMemory>
    requires marks { AreMarks W.Known w.old state.old marks.now.items }
    requires faultless { step_fault (tile_of state.old) ((W.position w.old).shift + 1) step.now ≡ None }
    requires near { ForSome (place_of (Step step.now) (tile_of state.old)) (IsNearLast marks.now.items) }
    requires outside { is_untried step.now ≡ true → marks.now.items ≡ [] }
    ensures steps { Steps W.Known w.old w.new state.old state.new marks.now.items marks.now.items result step.now }
    ensures marks { AreMarks W.Known w.new state.new marks.now.items }
    ensures cleared { OnOk result (marks.now.items ≡ [] → stored (log_of state.new) ≡ 0) }
{
    state.write_step(w, step)?;
    settle(state, marks);
    Ok(None)
}

// A trial begins.
fn begin_trial<W: Writer>(
    alloc: Global,
    state: &TileState,
    w: &W,
    marks: &mut Vec<TrialMark>,
    place: TileBlockOffset,
) -> Result<Option<u32>, OutOfMemory>
    requires marks { AreMarks W.Known w.now state.now marks.old.items }
    requires inside { is_inside (tile_of state.now) place.0 ≡ true }
    requires near { IsNearLast marks.old.items place.0 }
    ensures begins { Begins W.Known w.now w.now state.now state.now marks.old.items marks.new.items result place }
    ensures marks { AreMarks W.Known w.now state.now marks.new.items }
    ensures some { OnOk result (0 < length marks.new.items) }
{
    let mark = state.mark(alloc, w, place)?;
    marks.push(mark)?;
    Ok(None)
}

// The innermost trial ends, and what was tried stays.
fn keep_trial<W: Writer>(state: &mut TileState, w: &W, marks: &mut Vec<TrialMark>) -> Option<u32>
    requires marks { AreMarks W.Known w.now state.old marks.old.items }
    requires begun { 0 < length marks.old.items }
    ensures ends { EndsKept W.Known w.now w.now state.old state.new marks.old.items marks.new.items result }
    ensures marks { AreMarks W.Known w.now state.new marks.new.items }
    ensures cleared { marks.new.items ≡ [] → stored (log_of state.new) ≡ 0 }
{
    let Some(mark) = marks.pop() else { return None };
    let eighths = mark.told_since(w);
    settle(state, &*marks);
    Some(eighths)
}

// The innermost trial ends, and what was tried is undone.
fn abandon_trial<W: Writer>(
    state: &mut TileState,
    w: &mut W,
    marks: &mut Vec<TrialMark>,
) -> Option<u32>
    requires marks { AreMarks W.Known w.old state.old marks.old.items }
    requires begun { 0 < length marks.old.items }
    ensures ends { EndsUndone W.Known w.old w.new state.old state.new marks.old.items marks.new.items result }
    ensures marks { AreMarks W.Known w.new state.new marks.new.items }
    ensures cleared { marks.new.items ≡ [] → stored (log_of state.new) ≡ 0 }
{
    let Some(mark) = marks.pop() else { return None };
    let eighths = mark.told_since(&*w);
    state.go_back(w, &mark);
    settle(state, &*marks);
    Some(eighths)
}

// Where no trial has begun, nothing will be undone: the log is cleared.
fn settle(state: &mut TileState, marks: &Vec<TrialMark>)
    ensures tile { tile_of state.new ≡ tile_of state.old }
    ensures same { 0 < length marks.now.items → state.new ≡ state.old }
    ensures cleared { marks.now.items ≡ [] → stored (log_of state.new) ≡ 0 }
{
    if marks.is_empty() {
        state.clear_log();
    }
}
