//! Uses of the crates, as a caller writes them. Each is proved, and a test of `av1_tests` runs it.
//!
//! - `header_bits`: av1_bits
//! - `two_symbols`, `cost_of`: av1_ec
//! - `try_symbol`: av1_ec over a context of av1_cdf
//! - `one_block`: av1_unit
//! - `cost_of_skip`: a trial over a tile of av1_unit
#![tactic(auto)]

ghost use Rattle.std.specs.Prelude.{◌≡◌, ◌+◌, ◌^◌, ◌<◌, ◌≤◌, length, OnOk};
ghost use Rattle.av1_cdf.specs.Context.{contents};
ghost use Rattle.av1_cdf.specs.Slots.{slot_of};
ghost use Rattle.av1_model.specs.Cdf.{IsCdf};
ghost use Rattle.av1_step.specs.State.{tile_of};

use av1_bits::{BitWriter, ULEB128Writer};
use av1_cdf::{CDFContext, CDFContextLog, CDFOffset, Tables};
use av1_coef::diagonal;
use av1_ec::{Writer, WriterEncoder, law_of_symbol_lengths};
use av1_geometry::{BlockSize, ChromaSampling, OutOfMemory};
use av1_unit::{
    FrameInvariants, FrameState, Item, Report, Sequence, TileScript, TileState, TileStep, Unit,
    UnitError, Via, check_step, law_of_steps, law_of_trials, unit_bytes, write_item,
};
use std::alloc::Global;

/// Header bits, filled to whole bytes.
pub fn header_bits(alloc: Global) -> Result<Vec<u8>, OutOfMemory> {
    let mut bits = BitWriter::new(alloc);
    bits.write::<3>(5)?;
    bits.write_uleb128(300)?;
    bits.byte_align()?;
    Ok(bits.bytes())
}

/// Two symbols by a distribution that stays, as bytes.
pub fn two_symbols(alloc: Global) -> Result<Vec<u8>, OutOfMemory> {
    let mut w = WriterEncoder::new(alloc);
    w.symbol(1, &[16384, 0])?;
    w.symbol(0, &[16384, 0])?;
    w.done()
}

/// What a symbol costs, in eighths of a bit, by a trial that leaves no trace. Any writer does.
pub fn cost_of<W: Writer>(w: &mut W, s: u32, cdf: &[u16]) -> Result<u32, OutOfMemory>
    requires cdf { IsCdf cdf.now }
    requires s { s < length cdf.now }
    requires shift { (W.position w.old).shift + 13 ≤ 2 ^ 28 + 2 ^ 24 }
    ensures { OnOk result (W.position w.new ≡ W.position w.old) }
{
    law_of_symbol_lengths();
    let before = w.tell_frac();
    let start = w.checkpoint();
    w.symbol(s, cdf)?;
    let after = w.tell_frac();
    w.rollback(&start);
    Ok(after.saturating_sub(before))
}

/// Codes symbol 1 by a CDF of a context, which learns from it, and undoes both.
pub fn try_symbol<W: Writer>(
    w: &mut W,
    fc: &mut CDFContext,
    log: &mut CDFContextLog,
    cdf: CDFOffset,
) -> Result<(), OutOfMemory>
    requires cdf { IsCdf (contents fc.old (slot_of cdf)) }
    requires shift { (W.position w.old).shift + 13 ≤ 2 ^ 28 + 2 ^ 24 }
    ensures writer { OnOk result (W.position w.new ≡ W.position w.old) }
    ensures context { OnOk result (fc.new ≡ fc.old) }
{
    law_of_symbol_lengths();
    let position = w.checkpoint();
    let context = log.checkpoint();
    w.symbol_with_update(1, cdf, log, fc)?;
    log.rollback(fc, &context);
    w.rollback(&position);
    Ok(())
}

/// A still picture of 8x8 samples without chroma, with one block, which is skipped.
pub fn one_block(alloc: Global) -> Result<(Vec<u8>, Report), UnitError> {
    let size = BlockSize::BLOCK_8X8;
    let items = vec![in alloc;
        Item::Step(TileStep::Block { x: 0, y: 0, size }),
        Item::Step(TileStep::Skip { answer: true }),
    ];
    let script = TileScript {
        items: items.map_err(|_| OutOfMemory)?,
    };
    let scripts = vec![in alloc; script];
    let mut sequence = Sequence::default();
    sequence.chroma_sampling = ChromaSampling::Cs400;
    let unit = Unit {
        tables: Tables::uniform(alloc)?,
        scans: diagonal(alloc)?,
        fi: FrameInvariants::new(sequence, 8, 8),
        fs: FrameState::default(),
        refs: [None; 8],
        metadata: Vec::new(alloc),
        delimiter: true,
        eob_by_coded: false,
        scripts: scripts.map_err(|_| OutOfMemory)?,
    };
    unit_bytes(alloc, &unit, Via::Direct)
}

/// What it costs that the current block is skipped, or that it isn't, in eighths of a bit, by a trial that leaves no trace. There is no answer
/// where no block is the current one, or where too many bits were written.
pub fn cost_of_skip<W: Writer>(
    alloc: Global,
    state: &mut TileState,
    w: &mut W,
    skip: bool,
) -> Result<Option<u32>, OutOfMemory>
    ensures tile { OnOk result (tile_of state.new ≡ tile_of state.old) }
    ensures writer { OnOk result (W.position w.new ≡ W.position w.old) }
{
    law_of_steps();
    law_of_trials::<W>();
    let Some((place, _)) = state.current else {
        return Ok(None)
    };
    let step = TileStep::Skip { answer: skip };
    if check_step(state, w.tell(), &step).is_some() {
        return Ok(None);
    }
    let mut marks = Vec::new(alloc);
    write_item(alloc, state, w, &mut marks, &Item::Begin(place))?;
    write_item(alloc, state, w, &mut marks, &Item::Step(step))?;
    write_item(alloc, state, w, &mut marks, &Item::Abandon)
}
