// From the items of a script to the bytes of a tile.
ghost use Rattle.std.specs.Prelude.{◌≡◌, ◌⊎◌, ℕ, ◌+◌, ◌*◌, ◌^◌, ◌<◌, ◌≤◌, false, length, None, Some, IfOk, IfErr, OnOk};
ghost use Rattle.av1_tile.specs.declared.error.UnitError.{UnitError};
ghost use Rattle.av1_tile.specs.declared.error.UnitError.TheVariants.{OutOfMemory as MemoryError};
ghost use Rattle.av1_step.specs.declared.unit.Item.{Item};
ghost use Rattle.av1_model.specs.Eighths.{eighths};
ghost use Rattle.av1_model.specs.Interval.{bits, final_bytes};
ghost use Rattle.av1_model.specs.Position.{encoder_at};
ghost use Rattle.av1_tile.specs.Coder.{IsNew, HasCoded, IsReplayed};
ghost use Rattle.av1_step.specs.Given.{given_of, tile_count, IsGiven};
ghost use Rattle.av1_tile.specs.TileBytes.{script_of, wrong_in, end_of, costs_of};

use crate::costs::TrialCosts;
use crate::item::write_item;
use crate::{Item, TileState, TrialCost, TrialMark, Unit, UnitError};
use av1_ec::{Known, Writer, WriterBase, WriterEncoder, WriterRecorder, law_of_recorders};
use av1_geometry::OutOfMemory;
use std::alloc::Global;

/// A tile on its way: what is coded, the trials that have begun, and what trials cost.
#[derive(Drop)]
pub(crate) struct TileCoder<'u, W> {
    pub tile: TileState<'u>,
    pub writer: W,

    /// What the trials that have begun and not ended keep, the innermost last.
    pub marks: Vec<TrialMark>,
    costs: TrialCosts,
}

impl<'u, W: Writer> TileCoder<'u, W> {
    ghost use Rattle.av1_tile.specs.Coder.{Stands, Knows, Proceeds};
    ghost use Rattle.av1_tile.specs.Trials.{moved, moved_all, misplaced, item_fault, first_wrong, IsRight, IsWrong};

    // Takes item `n`, with which nothing is wrong.
    fn take(&mut self, alloc: Global, n: usize, item: &Item) -> Result<(), OutOfMemory>
        requires standing { Stands W.Known self.old }
        requires right { Knows W.Known self.old (λ p. (misplaced item.now p.at.context p.trials ≡ false) × (item_fault item.now p.at ≡ None)) }
        ensures { OnOk result (Proceeds W.Known self.old self.new (λ p. moved n p item.now)) }
    {
        let tile = self.tile.number();
        let answer = write_item(
            alloc,
            &mut self.tile,
            &mut self.writer,
            &mut self.marks,
            item,
        )?;
        let eighths = answer.unwrap_or(0);
        match item {
            Item::Step(_) => {}
            Item::Begin(_) => self.costs.begin(tile, n)?,
            Item::Keep => self.costs.end(eighths, true),
            Item::Abandon => self.costs.end(eighths, false),
        }
        Ok(())
    }

    // Takes item `n`, where it is in its place and breaks no rule.
    fn code_item(&mut self, alloc: Global, n: usize, item: &Item) -> Result<(), UnitError>
        requires standing { Stands W.Known self.old }
        ensures ok { OnOk result (Proceeds W.Known self.old self.new (λ p. moved n p item.now)) }
        ensures right { OnOk result (Knows W.Known self.old (λ p. IsRight n p item.now)) }
        ensures err { IfErr result (λ e. (e ≡ MemoryError) ⊎ Knows W.Known self.old (λ p. IsWrong n p item.now e)) }
    {
        self.check(n, item)?;
        self.take(alloc, n, item)?;
        Ok(())
    }

    // Takes all items of a tile, at whose beginning this stands.
    fn code_items(&mut self, alloc: Global, items: &[Item]) -> Result<(), UnitError>
        requires standing { Stands W.Known self.old }
        ensures ok { OnOk result (Proceeds W.Known self.old self.new (λ p. moved_all 0 p items.now)) }
        ensures right { OnOk result (Knows W.Known self.old (λ p. first_wrong 0 p items.now ≡ None)) }
        ensures err { IfErr result (λ e. (e ≡ MemoryError) ⊎ Knows W.Known self.old (λ p. first_wrong 0 p items.now ≡ Some e)) }
    {
        for (i, item) in items.iter().enumerate() {
            self.code_item(alloc, i, item)?;
        }
        if self.marks.is_empty() {
            Ok(())
        } else {
            Err(UnitError::BadScript {
                tile: self.tile.number(),
                item: items.len(),
            })
        }
    }
}

/// The way of a tile's symbols to its bytes. It changes no byte.
#[derive(Clone, Copy, Debug, Default, PartialEq, Eq)]
pub enum Via {
    /// Through an encoder.
    #[default]
    Direct,

    /// Through a recorder, which is then replayed into an encoder.
    Recorded,
}

/// A tile that is coded.
#[derive(Drop)]
pub struct CodedTile {
    pub bytes: Vec<u8>,
    pub bits: u32,
    pub trials: Vec<TrialCost>,
}

/// Codes the items of a tile by a new writer. It gives the writer back, and what the trials cost.
pub fn code_by<W: Writer + Drop>(
    alloc: Global,
    unit: &Unit,
    tile: usize,
    writer: W,
) -> Result<(W, Vec<TrialCost>), UnitError>
    requires given { IsGiven (given_of unit.now) }
    requires tile { tile < tile_count unit.now.fi }
    requires script { tile < length unit.now.scripts.items }
    requires new { IsNew (W.position writer) }
    ensures allowed { OnOk result (wrong_in (given_of unit.now) tile (script_of unit.now tile) ≡ None) }
    ensures coded { IfOk result (λ r. HasCoded (W.position writer) (W.position r.0) (end_of unit.now tile)) }
    ensures few { OnOk result (eighths (end_of unit.now tile) ≤ 8 * (2 ^ 28 + 2 ^ 24)) }
    ensures trials { IfOk result (λ r. r.1.items ≡ costs_of (given_of unit.now) tile (script_of unit.now tile)) }
    ensures err { IfErr result (λ e. (e ≡ MemoryError) ⊎ (wrong_in (given_of unit.now) tile (script_of unit.now tile) ≡ Some e)) }
{
    let mut coder = TileCoder {
        tile: TileState::new(alloc, unit, tile)?,
        writer,
        marks: Vec::new(alloc),
        costs: TrialCosts::new(alloc),
    };
    let script = &unit.scripts[tile];
    coder.code_items(alloc, &script.items)?;
    let TileCoder { writer, costs, .. } = coder;
    let TrialCosts { all, .. } = costs;
    Ok((writer, all))
}

// A new encoder that gets a recorder's tokens.
fn replayed(
    alloc: Global,
    mut recorder: WriterBase<WriterRecorder>,
) -> Result<WriterBase<WriterEncoder>, OutOfMemory>
    ensures { IfOk result (λ w. IsReplayed (⟦<WriterBase<WriterRecorder> as Known>⟧.position recorder) (⟦<WriterBase<WriterEncoder> as Known>⟧.position w)) }
{
    law_of_recorders(&recorder);
    let mut encoder = WriterEncoder::new(alloc);
    recorder.replay_into(&mut encoder)?;
    Ok(encoder)
}

// Codes the items as `code_by` does, by an encoder or by a recorder that is replayed into one. The encoder is the same.
fn code_via(
    alloc: Global,
    unit: &Unit,
    tile: usize,
    via: Via,
) -> Result<(WriterBase<WriterEncoder>, Vec<TrialCost>), UnitError>
    requires given { IsGiven (given_of unit.now) }
    requires tile { tile < tile_count unit.now.fi }
    requires script { tile < length unit.now.scripts.items }
    ensures allowed { OnOk result (wrong_in (given_of unit.now) tile (script_of unit.now tile) ≡ None) }
    ensures coded { IfOk result (λ r. ⟦<WriterBase<WriterEncoder> as Known>⟧.position r.0 ≡ encoder_at (end_of unit.now tile)) }
    ensures few { OnOk result (eighths (end_of unit.now tile) ≤ 8 * (2 ^ 28 + 2 ^ 24)) }
    ensures trials { IfOk result (λ r. r.1.items ≡ costs_of (given_of unit.now) tile (script_of unit.now tile)) }
    ensures err { IfErr result (λ e. (e ≡ MemoryError) ⊎ (wrong_in (given_of unit.now) tile (script_of unit.now tile) ≡ Some e)) }
{
    match via {
        Via::Direct => {
            let writer = WriterEncoder::new(alloc);
            let (encoder, trials) = code_by(alloc, unit, tile, writer)?;
            Ok((encoder, trials))
        }
        Via::Recorded => {
            let writer = WriterRecorder::new(alloc);
            let (recorder, trials) = code_by(alloc, unit, tile, writer)?;
            let encoder = replayed(alloc, recorder)?;
            Ok((encoder, trials))
        }
    }
}

/// Codes the items of a tile.
pub fn code_tile(alloc: Global, unit: &Unit, tile: usize, via: Via) -> Result<CodedTile, UnitError>
    requires given { IsGiven (given_of unit.now) }
    requires tile { tile < tile_count unit.now.fi }
    requires script { tile < length unit.now.scripts.items }
    ensures allowed { OnOk result (wrong_in (given_of unit.now) tile (script_of unit.now tile) ≡ None) }
    ensures bytes { IfOk result (λ r. r.bytes.items ≡ final_bytes (end_of unit.now tile)) }
    ensures bits { IfOk result (λ r. r.bits ≡ bits (end_of unit.now tile)) }
    ensures trials { IfOk result (λ r. r.trials.items ≡ costs_of (given_of unit.now) tile (script_of unit.now tile)) }
    ensures short { IfOk result (λ r. length r.bytes.items ≤ 2 ^ 26) }
    ensures err { IfErr result (λ e. (e ≡ MemoryError) ⊎ (wrong_in (given_of unit.now) tile (script_of unit.now tile) ≡ Some e)) }
{
    let (encoder, trials) = code_via(alloc, unit, tile, via)?;
    let bits = encoder.tell();
    Ok(CodedTile {
        bytes: encoder.done()?,
        bits,
        trials,
    })
}
