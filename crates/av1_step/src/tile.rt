// The state of a tile, which steps move on.
ghost use Rattle.std.specs.Prelude.{◌≡◌, ◌+◌, ◌^◌, ◌≤◌, ◌<◌, ◌∷◌, [], None, option_map, IfOk, OnOk, OnErr};
ghost use Rattle.av1_cdf.specs.Context.{AreCdfs};
ghost use Rattle.av1_cdf.specs.Log.{KeepsUndone, stored};
ghost use Rattle.av1_ec.specs.Storing.{Keeps};
ghost use Rattle.av1_step.specs.Kept.{IsKept};
ghost use Rattle.av1_step.specs.Place.{tile_at, AreSwitches};

use crate::place::fresh_blocks;
use crate::restoration_steps::first_planes;
use crate::{TileStep, Unit};
use arrayvec::ArrayVec;
use av1_blocks::BlockContext;
use av1_cdf::CDFContext;
use av1_ec::Writer;
use av1_geometry::{BlockOffset, BlockSize, OutOfMemory, PredictionMode, Rule, TileBlockOffset};
use av1_mvref::CandidateMV;
use av1_syntax::{ContextWriter, TileRestorationState};
use std::alloc::Global;

/// The state of a tile of a unit: what decides how the next step is coded. It moves on by the steps that are written
/// (`write_step`).
#[derive(Drop)]
pub struct TileState<'u> {
    pub unit: &'u Unit,

    /// The grid and its edges, the context of the distributions, and the log of what trials changed in it.
    pub cw: ContextWriter,

    /// What the next filters of each plane refer to.
    pub rs: TileRestorationState,

    /// The block that steps speak of.
    pub current: Option<(TileBlockOffset, BlockSize)>,

    /// The chroma mode of the current block, once it is entered.
    pub uv: Option<PredictionMode>,

    /// The candidates for the vectors of the current block, by falling weight, and the context of its mode, once they are found.
    pub cands: Option<(ArrayVec<CandidateMV, 9>, usize)>,

    /// Which candidate the mode of the current block takes.
    pub pick: usize,

    // Which tile of the frame it is.
    number: u32,

    ghost cdfs: { AreCdfs cw.fc },
    ghost kept: { IsKept (tile_at unit.now number cw rs current uv cands pick) },
    ghost switches: { AreSwitches unit.now cw.adapt cw.eob_by_coded },
}

impl<'u> TileState<'u> {
    ghost use Rattle.av1_geometry.specs.Rules.{first_broken};
    ghost use Rattle.av1_step.specs.Given.{given_of, tile_count, IsGiven};
    ghost use Rattle.av1_step.specs.State.{tile_of, log_of};
    ghost use Rattle.av1_step.specs.Step.{entered, place_of_step, rules, step_fault};
    ghost use Rattle.av1_step.specs.Tile.{inside, place_of_block, with_numbers};
    ghost use Rattle.av1_step.specs.Script.{begin};
    ghost use Rattle.av1_step.specs.Writing.{Writes, WroteStep};

    /// A tile of a unit before its first step, with an empty log.
    pub fn new(alloc: Global, unit: &'u Unit, tile: usize) -> Result<Self, OutOfMemory>
        requires given { IsGiven (given_of unit.now) }
        requires tile { tile < tile_count unit.now.fi }
        ensures tile { IfOk result (λ s. tile_of s ≡ (begin (given_of unit.now) tile).context) }
        ensures log { IfOk result (λ s. stored (log_of s) ≡ 0) }
    {
        let blocks = fresh_blocks(alloc, &unit.fi, tile)?;
        let fc = CDFContext::new(&unit.tables, unit.fi.base_q_idx);
        let mut cw = ContextWriter::new(alloc, fc, BlockContext::new(blocks));
        cw.adapt = !unit.fi.disable_cdf_update;
        cw.eob_by_coded = unit.eob_by_coded;
        Ok(TileState {
            unit,
            cw,
            rs: first_planes(&unit.fs),
            current: None,
            uv: None,
            cands: None,
            pick: 0,
            number: tile as u32,
        })
    }

    /// Which tile of the frame it is, numbered row by row from 0.
    pub fn number(&self) -> u32
        ensures { result ≡ (tile_of self.now).number }
    {
        self.number
    }

    /// Rule 60, where a place breaks it: it lies outside of the tile.
    pub fn outside(&self, place: BlockOffset) -> Option<Rule>
        ensures { result ≡ first_broken (inside place (tile_of self.now) ∷ []) }
    {
        if place.x < self.cw.bc.blocks.cols() && place.y < self.cw.bc.blocks.rows() {
            None
        } else {
            Some(Rule(60))
        }
    }

    /// The place of a step: its own, or the current block's. A row of superblocks and a filter of loop restoration have none.
    pub fn place_of(&self, step: &TileStep) -> Option<BlockOffset>
        ensures { result ≡ place_of_step step.now (tile_of self.now) }
    {
        match step {
            TileStep::RowStart => None,
            TileStep::Block { x, y, .. } => Some(BlockOffset { x: *x, y: *y }),
            TileStep::Partition { x, y, .. } => Some(BlockOffset { x: *x, y: *y }),
            TileStep::Coeffs { x, y, .. } => Some(BlockOffset { x: *x, y: *y }),
            TileStep::Lrf { .. } => None,
            _ => self.place_of_current(),
        }
    }

    // The place of the current block.
    fn place_of_current(&self) -> Option<BlockOffset>
        ensures { result ≡ option_map place_of_block (tile_of self.now).current }
    {
        match self.current {
            Some((bo, _)) => Some(bo.0),
            None => None,
        }
    }

    /// Writes a step in which `check_step` finds no fault: the writer and the numbers move by the symbols of the step, and the
    /// state as its answer says. A refusal leaves them after a front of the symbols, and the rest of the state as it was. What was kept
    /// to go back to stays in both cases, in the writer and in the log of the numbers.
    pub fn write_step<W: Writer>(&mut self, w: &mut W, step: &TileStep) -> Result<(), OutOfMemory>
        requires { step_fault (tile_of self.old) ((W.position w.old).shift + 1) step.now ≡ None }
        ensures wrote { WroteStep W.Known result step.now (tile_of self.old) w.old w.new (tile_of self.new).numbers }
        ensures tile { OnOk result (tile_of self.new ≡ entered step.now (with_numbers (tile_of self.new).numbers (tile_of self.old))) }
        ensures refused { OnErr result (tile_of self.new ≡ with_numbers (tile_of self.new).numbers (tile_of self.old)) }
        ensures kept { Keeps W.Known w.old w.new }
        ensures undone { KeepsUndone (log_of self.old) (log_of self.new) (tile_of self.old).numbers (tile_of self.new).numbers }
    {
        self.write_allowed(w, step)
    }

    // Writes a step that breaks no rule and begins early enough.
    fn write_allowed<W: Writer>(&mut self, w: &mut W, step: &TileStep) -> Result<(), OutOfMemory>
        requires rules { first_broken (rules step.now (tile_of self.old)) ≡ None }
        requires early { (W.position w.old).shift ≤ 2 ^ 28 }
        ensures { Writes W.Known result step.now w.old w.new self.old self.new }
    {
        match step {
            TileStep::RowStart => {
                self.enter_row();
                Ok(())
            }
            TileStep::Block { x, y, size } => {
                self.enter_block(*x, *y, *size);
                Ok(())
            }
            TileStep::Partition { x, y, size, answer } => {
                self.write_partition(w, *x, *y, *size, *answer)
            }
            TileStep::Skip { answer } => self.write_skip(w, *answer),
            TileStep::Segment { answer } => self.write_segment(w, *answer),
            TileStep::IntraModeKf { answer } => self.write_intra_mode_kf(w, *answer),
            TileStep::UvMode { answer } => self.write_uv_mode(w, *answer),
            TileStep::IntraMode { answer } => self.write_intra_mode(w, *answer),
            TileStep::Cdef { answer } => self.write_cdef(w, *answer),
            TileStep::DeltaLf { answer } => self.write_delta_lf(w, *answer),
            TileStep::AngleDelta { chroma, answer } => self.write_angle_delta(w, *chroma, *answer),
            TileStep::CflAlphas { answer } => self.write_cfl_alphas(w, *answer),
            TileStep::FilterIntra { answer } => self.write_filter_intra(w, *answer),
            TileStep::Palette { answer } => self.write_palette(w, *answer),
            TileStep::TxNote => {
                self.enter_tx_note();
                Ok(())
            }
            TileStep::TxIntra { answer } => self.write_tx_intra(w, *answer),
            TileStep::TxInter { answer } => self.write_tx_inter(w, *answer),
            TileStep::IsInter { answer } => self.write_is_inter(w, *answer),
            TileStep::RefFrames { answer } => self.write_ref_frames(w, *answer),
            TileStep::InterMode { answer } => self.write_inter_mode(w, *answer),
            TileStep::CompoundMode { answer } => self.write_compound_mode(w, *answer),
            TileStep::Drl { index, answer } => self.write_drl(w, *index, *answer),
            TileStep::MvRefs { has_tr } => {
                self.enter_mv_refs(*has_tr);
                Ok(())
            }
            TileStep::Mv { list, answer } => self.write_mv(w, *list, *answer),
            TileStep::Coeffs {
                plane,
                x,
                y,
                tx_type,
                answer,
            } => self.write_coeffs(w, *plane, *x, *y, *tx_type, answer),
            TileStep::Lrf { plane, answer } => self.write_lrf(w, *plane, *answer),
        }
    }
}
