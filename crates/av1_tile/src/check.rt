// What is wrong with an item, and whether it can come: what `write_item` asks of it.
ghost use Rattle.std.specs.Prelude.{◌≡◌, ◌↔◌, ◌&&◌, true, false, not, None, Some, IsTrue, IfErr, OnOk};
ghost use Rattle.std.specs.Option.{ForSome};
ghost use Rattle.av1_step.specs.State.{tile_of};
ghost use Rattle.av1_step.specs.Step.{is_untried};
ghost use Rattle.av1_tile.specs.Items.{CanCome, IsNearLast, MayStep};
ghost use Rattle.av1_tile.specs.Trials.{error_of};

use crate::coding::TileCoder;
use crate::{Item, Place, StepFault, TileState, TileStep, TrialMark, UnitError, check_step};
use av1_ec::Writer;
use av1_geometry::BlockOffset;

/// Whether an item can come in a state of a tile after so many bits, where these trials have begun and not ended, the innermost last.
/// A step has no fault (`check_step`), and comes outside of all trials if no trial has it; `Keep` and `Abandon` have a trial to end; a
/// `Begin` is inside the tile; and the place of the item lies in the superblock of the innermost trial.
pub fn can_come(state: &TileState, bits: u32, marks: &[TrialMark], item: &Item) -> bool
    ensures { IsTrue result ↔ CanCome (tile_of state.now) bits marks.now item.now }
{
    match item {
        Item::Step(step) => may_step(state, bits, marks, step),
        Item::Begin(place) => state.outside(place.0).is_none() && is_near(marks, place.0),
        Item::Keep => !marks.is_empty(),
        Item::Abandon => !marks.is_empty(),
    }
}

// Whether a step can come.
fn may_step(state: &TileState, bits: u32, marks: &[TrialMark], step: &TileStep) -> bool
    ensures { IsTrue result ↔ MayStep (tile_of state.now) bits marks.now step.now }
{
    if check_step(state, bits, step).is_some() {
        return false;
    }
    if step.is_untried() && !marks.is_empty() {
        return false;
    }
    is_near_if(marks, state.place_of(step))
}

// Whether a place lies in the superblock of the last mark, where there is one.
fn is_near(marks: &[TrialMark], place: BlockOffset) -> bool
    ensures { IsTrue result ↔ IsNearLast marks.now place }
{
    match marks.last() {
        Some(mark) => place.sb_offset() == mark.place.0.sb_offset(),
        None => true,
    }
}

// The same of what may have no place.
fn is_near_if(marks: &[TrialMark], place: Option<BlockOffset>) -> bool
    ensures { IsTrue result ↔ ForSome place (IsNearLast marks.now) }
{
    match place {
        Some(place) => is_near(marks, place),
        None => true,
    }
}

impl<'u, W: Writer> TileCoder<'u, W> {
    ghost use Rattle.av1_step.specs.declared.unit.Item.TheVariants.{Step};
    ghost use Rattle.av1_tile.specs.Coder.{Knows};
    ghost use Rattle.av1_tile.specs.Trials.{misplaced, no_trial, item_fault, strays, place_of, IsWrong};

    // Whether a place lies in another superblock than the innermost trial.
    fn strays(&self, place: BlockOffset) -> bool
        ensures { Knows W.Known self.now (λ p. result ≡ strays p.trials (Some place)) }
    {
        match self.marks.last() {
            Some(mark) => place.sb_offset() != mark.place.0.sb_offset(),
            None => false,
        }
    }

    // Whether a trial has begun and not ended.
    fn is_in_trial(&self) -> bool
        ensures { Knows W.Known self.now (λ p. result ≡ not (no_trial p.trials)) }
    {
        !self.marks.is_empty()
    }

    // Whether a step lies in another superblock than the innermost trial.
    fn is_astray(&self, step: &TileStep) -> bool
        ensures { Knows W.Known self.now (λ p. result ≡ strays p.trials (place_of (Step step.now) p.at.context)) }
    {
        match self.tile.place_of(step) {
            Some(place) => self.strays(place),
            None => false,
        }
    }

    // Whether a trial has begun that can't have a step.
    fn is_barred(&self, step: &TileStep) -> bool
        ensures { Knows W.Known self.now (λ p. result ≡ (is_untried step.now && not (no_trial p.trials))) }
    {
        step.is_untried() && self.is_in_trial()
    }

    // Whether a step can't come here: no trial has it, or it strays from the innermost one.
    fn is_misplaced_step(&self, step: &TileStep) -> bool
        ensures { Knows W.Known self.now (λ p. result ≡ misplaced (Step step.now) p.at.context p.trials) }
    {
        self.is_barred(step) || self.is_astray(step)
    }

    // Whether an item can't come here: it ends no trial, no trial has it, or it strays from the innermost one.
    fn is_misplaced(&self, item: &Item) -> bool
        ensures { Knows W.Known self.now (λ p. result ≡ misplaced item.now p.at.context p.trials) }
    {
        match item {
            Item::Step(step) => self.is_misplaced_step(step),
            Item::Begin(place) => self.strays(place.0),
            Item::Keep | Item::Abandon => self.marks.is_empty(),
        }
    }

    // What is wrong with an item that may come here.
    fn check_item(&self, item: &Item) -> Option<StepFault>
        ensures { Knows W.Known self.now (λ p. result ≡ item_fault item.now p.at) }
    {
        match item {
            Item::Step(step) => check_step(&self.tile, self.writer.tell(), step),
            Item::Begin(place) => self.tile.outside(place.0).map(StepFault::Broken),
            Item::Keep | Item::Abandon => None,
        }
    }

    // What is wrong with item `n`.
    pub(crate) fn check(&self, n: usize, item: &Item) -> Result<(), UnitError>
        ensures ok { OnOk result (Knows W.Known self.now (λ p. (misplaced item.now p.at.context p.trials ≡ false) × (item_fault item.now p.at ≡ None))) }
        ensures err { IfErr result (λ e. Knows W.Known self.now (λ p. IsWrong n p item.now e)) }
    {
        let tile = self.tile.number();
        if self.is_misplaced(item) {
            return Err(UnitError::BadScript { tile, item: n });
        }
        match self.check_item(item) {
            Some(fault) => Err(error_of(tile, n, fault)),
            None => Ok(()),
        }
    }
}

// The error that says what is wrong with item `n` of a tile.
fn error_of(tile: u32, n: usize, fault: StepFault) -> UnitError
    ensures { result ≡ error_of tile n fault }
{
    let place = Place::Item { tile, item: n };
    match fault {
        StepFault::TooLong => UnitError::TooLong { place },
        StepFault::Broken(rule) => UnitError::Refused { place, rule },
    }
}
