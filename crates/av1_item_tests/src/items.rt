// Items that are taken one by one, each where it can come.
ghost use Rattle.std.specs.Prelude.{◌≡◌, true, IsTrue, IfOk};
ghost use Rattle.av1_tile.specs.Items.{stage, TakesOne, TakesAll, ends_its_own};
ghost use Rattle.av1_tile.specs.Marks.{AreMarks};
ghost use Rattle.av1_step.specs.State.{tile_of};

use av1_ec::{Writer, WriterEncoder};
use av1_geometry::{BlockOffset, BlockSize, OutOfMemory, PredictionMode, TileBlockOffset};
use av1_make::make_unit;
use av1_tests::state::first_state;
use av1_unit::{
    Item, Report, TileReport, TileState, TileStep, TrialMark, Unit, Via, can_come, law_of_steps,
    law_of_trials, unit_bytes, write_item,
};
use std::alloc::Global;
use std::process::Abort;
use std::test::Fail;

/// The number of a made unit whose numbers are those of `av1_write_tests`' row.
const NUMBER: u32 = 352288;

// Takes an item where it can come. Whether it came.
fn take<W: Writer>(
    alloc: Global,
    state: &mut TileState,
    w: &mut W,
    marks: &mut Vec<TrialMark>,
    item: &Item,
) -> Result<bool, OutOfMemory>
    requires marks { AreMarks W.Known w.old state.old marks.old.items }
    ensures marks { AreMarks W.Known w.new state.new marks.new.items }
    ensures took { IfOk result (λ came. IsTrue came →
        TakesOne W.Known (stage w.old state.old marks.old.items) (stage w.new state.new marks.new.items) item.now) }
{
    law_of_steps();
    if !can_come(state, w.tell(), marks, item) {
        return Ok(false);
    }
    write_item(alloc, state, w, marks, item)?;
    Ok(true)
}

// Takes items one after another, as long as they can come. Whether all came.
fn take_all<W: Writer>(
    alloc: Global,
    state: &mut TileState,
    w: &mut W,
    marks: &mut Vec<TrialMark>,
    items: &[Item],
) -> Result<bool, OutOfMemory>
    requires marks { AreMarks W.Known w.old state.old marks.old.items }
    ensures marks { AreMarks W.Known w.new state.new marks.new.items }
    ensures took { IfOk result (λ came. IsTrue came →
        TakesAll W.Known (stage w.old state.old marks.old.items) (stage w.new state.new marks.new.items) items.now) }
{
    for item in items {
        if !take(alloc, state, w, marks, item)? {
            return Ok(false);
        }
    }
    Ok(true)
}

// A trial of items that end the trials that they begin is given up. Whether all of its items came; then all 5528 numbers of the
// distributions, and all else of the tile, are as before.
fn try_in_vain<W: Writer>(
    alloc: Global,
    state: &mut TileState,
    w: &mut W,
    place: TileBlockOffset,
    items: &[Item],
) -> Result<bool, OutOfMemory>
    requires own { ends_its_own 0 items.now ≡ true }
    ensures { IfOk result (λ came. IsTrue came → (tile_of state.new ≡ tile_of state.old) × (W.position w.new ≡ W.position w.old)) }
{
    law_of_trials::<W>();
    let mut marks = Vec::new(alloc);
    if !take(alloc, state, w, &mut marks, &Item::Begin(place))? {
        return Ok(false);
    }
    if !take_all(alloc, state, w, &mut marks, items)? {
        return Ok(false);
    }
    let came = take(alloc, state, w, &mut marks, &Item::Abandon)?;
    Ok(came)
}

// Takes all items, and gives the eighths of a bit of each trial, in the order of their ends. There is no answer where one can't come.
fn code_items<W: Writer>(
    alloc: Global,
    state: &mut TileState,
    w: &mut W,
    items: &[Item],
) -> Result<Option<Vec<u32>>, OutOfMemory> {
    let mut marks = Vec::new(alloc);
    let mut costs = Vec::new(alloc);
    law_of_steps();
    for item in items {
        if !can_come(state, w.tell(), &marks, item) {
            return Ok(None);
        }
        if let Some(eighths) = write_item(alloc, state, w, &mut marks, item)? {
            costs.push(eighths)?;
        }
    }
    Ok(Some(costs))
}

// What the unit's trials cost that ended so.
fn cost(report: &Report, kept: bool) -> u64 {
    let ended = report.trials.iter().filter(|trial| trial.kept == kept);
    ended.fold(0, |sum: u64, trial| sum.wrapping_add(trial.eighths as u64))
}

// The made unit by one way. The values are those of `av1_write_tests`' row.
fn is_made(rt: &impl Abort, alloc: Global, via: Via) -> Result<(), Fail> {
    let unit = make_unit(alloc, NUMBER)?;
    let Ok((bytes, report)) = unit_bytes(alloc, &unit, via) else {
        return Err("not written".into());
    };
    let tile = TileReport {
        bytes: 1318,
        bits: 10544,
    };
    assert_eq!(rt; bytes.len(), 1337);
    assert_eq!(rt; report.tiles.as_slice(), [tile].as_slice());
    assert_eq!(rt; report.trials.len(), 60);
    assert_eq!(rt; cost(&report, true), 84340);
    assert_eq!(rt; cost(&report, false), 112910);
    Ok(())
}

#[test]
fn both_ways_make_the_same(rt: HostRuntime) -> Result<(), Fail> {
    for via in [Via::Direct, Via::Recorded] {
        is_made(&rt, rt.alloc(), via)?;
    }
    Ok(())
}

// The tile of a unit by `write_item` over a new encoder, and what its trials cost.
fn by_items(alloc: Global, unit: &Unit) -> Result<(Vec<u8>, Vec<u32>), Fail> {
    let Some(script) = unit.scripts.first() else {
        return Err("no script".into());
    };
    let mut state = first_state(alloc, unit)?;
    let mut w = WriterEncoder::new(alloc);
    match code_items(alloc, &mut state, &mut w, &script.items)? {
        Some(costs) => Ok((w.done()?, costs)),
        None => Err("an item can't come".into()),
    }
}

#[test]
fn items_give_the_tile_of_the_unit(rt: HostRuntime) -> Result<(), Fail> {
    let alloc = rt.alloc();
    let unit = make_unit(alloc, NUMBER)?;
    let Ok((bytes, report)) = unit_bytes(alloc, &unit, Via::Direct) else {
        return Err("not written".into());
    };
    let (tile, costs) = by_items(alloc, &unit)?;
    assert!(rt; bytes.ends_with(&tile));
    assert_eq!(rt; tile.len(), 1318);
    assert!(rt;
        report
            .trials
            .iter()
            .map(|trial| trial.eighths)
            .eq(costs.iter().copied())
    );
    Ok(())
}

#[test]
fn three_trials_leave_no_trace(rt: HostRuntime) -> Result<(), Fail> {
    let alloc = rt.alloc();
    let unit = make_unit(alloc, 8008)?;
    let mut state = first_state(alloc, &unit)?;
    let mut w = WriterEncoder::new(alloc);
    let place = TileBlockOffset(BlockOffset { x: 0, y: 0 });
    let block = TileStep::Block {
        x: 0,
        y: 0,
        size: BlockSize::BLOCK_8X8,
    };
    let mode = TileStep::IntraModeKf {
        answer: PredictionMode::SMOOTH_PRED,
    };
    let skip = TileStep::Skip { answer: true };
    // two trials, one in the other, in the one that is tried
    let items = [
        Item::Step(block),
        Item::Begin(place),
        Item::Step(mode),
        Item::Begin(place),
        Item::Step(skip),
        Item::Abandon,
        Item::Abandon,
    ];
    let came = try_in_vain(alloc, &mut state, &mut w, place, &items)?;
    assert!(rt; came);
    assert_eq!(rt; w.tell(), 1);
    assert_eq!(rt; state.current.is_none(), true);
    assert_eq!(rt; w.done()?.as_slice(), [0x80].as_slice());
    Ok(())
}
