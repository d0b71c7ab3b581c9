// What a trial that has begun keeps.
ghost use Rattle.std.specs.Prelude.{◌≡◌, ◌≤◌, true, IfOk};
ghost use Rattle.av1_cdf.specs.Log.{IsReached as HasSaves, IsWithin, stored};
ghost use Rattle.av1_cdf.specs.Context.{AreCdfs};
ghost use Rattle.av1_step.specs.Mark.{IsMarkOf, WentBack};
ghost use Rattle.av1_step.specs.Kept.{IsKept};
ghost use Rattle.av1_step.specs.Place.{candidates_in};

use crate::tile::TileState;
use arrayvec::ArrayVec;
use av1_blocks::SavedBlocks;
use av1_ec::{Writer, WriterCheckpoint};
use av1_geometry::{BlockSize, OutOfMemory, PredictionMode, TileBlockOffset, TileSuperBlockOffset};
use av1_mvref::CandidateMV;
use av1_syntax::ContextWriterCheckpoint;
use std::alloc::Global;

/// What a trial that has begun keeps, to go back to: no numbers of a CDF and no bytes of a writer.
#[derive(Drop)]
pub struct TrialMark {
    /// Where the trial began.
    pub place: TileBlockOffset,

    /// What the writer told then, in eighths of a bit.
    pub tell: u32,

    pub writer: WriterCheckpoint,
    pub context: ContextWriterCheckpoint,

    /// The blocks of the superblock of the place.
    pub blocks: SavedBlocks,

    /// The current block then, its chroma mode, the candidates for its vectors, and which of them its mode takes.
    pub current: Option<(TileBlockOffset, BlockSize)>,
    pub uv: Option<PredictionMode>,
    pub cands: Option<(ArrayVec<CandidateMV, 9>, usize)>,
    pub pick: usize,
}

impl TrialMark {
    ghost use Rattle.std.specs.Prelude.{◌-◌};
    ghost use Rattle.av1_ec.specs.Rate.{tell_frac_at};

    /// How much a writer told since the mark, in eighths of a bit.
    pub fn told_since<W: Writer>(&self, w: &W) -> u32
        requires { self.now.tell ≤ tell_frac_at (W.position w.now) }
        ensures { result ≡ tell_frac_at (W.position w.now) - self.now.tell }
    {
        w.tell_frac() - self.tell
    }
}

impl<'u> TileState<'u> {
    ghost use Rattle.av1_cdf.specs.declared.log.CDFContextCheckpoint.{CDFContextCheckpoint};
    ghost use Rattle.av1_ec.specs.declared.storage.WriterCheckpoint.{WriterCheckpoint};
    ghost use Rattle.av1_step.specs.Mark.{back_to, IsOfTile};
    ghost use Rattle.av1_step.specs.State.{tile_of, log_of, numbers_at};
    ghost use Rattle.av1_step.specs.Tile.{is_inside};

    /// What a trial keeps that begins now, at a place inside the tile.
    pub fn mark<W: Writer>(
        &self,
        alloc: Global,
        w: &W,
        place: TileBlockOffset,
    ) -> Result<TrialMark, OutOfMemory>
        requires { is_inside (tile_of self.now) place.0 ≡ true }
        ensures { IfOk result (λ m. IsMarkOf W.Known w.now (log_of self.now) (tile_of self.now) place m) }
    {
        let sampling = self.unit.fi.sequence.chroma_sampling;
        Ok(TrialMark {
            place,
            tell: w.tell_frac(),
            writer: w.checkpoint(),
            context: self.cw.checkpoint(&place, sampling),
            blocks: self
                .cw
                .bc
                .save_sb(alloc, TileSuperBlockOffset(place.0.sb_offset()))?,
            current: self.current,
            uv: self.uv,
            cands: copy_of(&self.cands),
            pick: self.pick,
        })
    }

    /// Goes back to a mark: writer and state are those of the mark, and what was kept before it stays.
    pub fn go_back<W: Writer>(&mut self, w: &mut W, mark: &TrialMark)
        requires reached { W.IsReached w.old mark.now.writer }
        requires has_saves { HasSaves (log_of self.old) mark.now.context.fc }
        requires of_tile { IsOfTile mark.now (tile_of self.old) }
        requires kept { IsKept (back_to mark.now (log_of self.old) (tile_of self.old)) }
        requires cdfs { AreCdfs (back_to mark.now (log_of self.old) (tile_of self.old)).numbers }
        ensures tile { tile_of self.new ≡ back_to mark.now (log_of self.old) (tile_of self.old) }
        ensures writer { WentBack W.Known mark.now w.old w.new }
        ensures saves { (c : CDFContextCheckpoint) → IsWithin c mark.now.context.fc → HasSaves (log_of self.new) c }
        ensures undone { (c : CDFContextCheckpoint) → IsWithin c mark.now.context.fc → numbers_at self.new c ≡ numbers_at self.old c }
    {
        w.rollback(&mark.writer);
        self.cw.rollback(&mark.context);
        self.cw.bc.restore_sb(&mark.blocks);
        self.current = mark.current;
        self.uv = mark.uv;
        self.cands = copy_of(&mark.cands);
        self.pick = mark.pick;
    }

    /// Forgets what changed in the numbers: nothing of it will be undone.
    pub fn clear_log(&mut self)
        ensures tile { tile_of self.new ≡ tile_of self.old }
        ensures cleared { stored (log_of self.new) ≡ 0 }
    {
        self.cw.fc_log.clear();
    }
}

// The same candidates and context.
fn copy_of(
    cands: &Option<(ArrayVec<CandidateMV, 9>, usize)>,
) -> Option<(ArrayVec<CandidateMV, 9>, usize)>
    ensures { candidates_in result ≡ candidates_in cands.now }
{
    match cands {
        Some((list, context)) => Some((copied(list), *context)),
        None => None,
    }
}

// The same candidates.
fn copied(list: &ArrayVec<CandidateMV, 9>) -> ArrayVec<CandidateMV, 9>
    ensures { result.items ≡ list.now.items }
{
    let mut copy = ArrayVec::new();
    copy.try_extend_from_slice(list.as_slice()).unwrap();
    copy
}
