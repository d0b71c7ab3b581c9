// The steps that say how the quantizer and the loop filter differ in the current block: its segment, and its deltas.
ghost use Rattle.std.specs.Prelude.{◌≡◌, ◌^◌, ◌≤◌, if◌then◌else◌, nat_le, Some, None};
ghost use Rattle.av1_blocks.specs.Grid.{IsInside, block_at};
ghost use Rattle.av1_cdf.specs.Context.{AreCdfs};
ghost use Rattle.av1_geometry.specs.Cfl.{magnitude};
ghost use Rattle.av1_syntax.specs.Calls.{Coded, Moved};
ghost use Rattle.av1_syntax.specs.Deltas.{delta_count, deltas_element, AreDeltas};
ghost use Rattle.av1_syntax.specs.Segments.{IsSegment};
ghost use Rattle.av1_step.specs.DeltaSteps.{IsWhole, are_deltas, are_segments_coded, block_deltas, is_segment, segment_at};

use crate::tile::TileState;
use av1_ec::Writer;
use av1_geometry::{BlockSize, FRAME_LF_COUNT, OutOfMemory, Rule, TileBlockOffset};
use av1_syntax::ContextWriter;

impl<'u> TileState<'u> {
    ghost use Rattle.av1_geometry.specs.Rules.{first_broken};
    ghost use Rattle.av1_step.specs.declared.step.TileStep.TheVariants.{DeltaLf, Segment};
    ghost use Rattle.av1_step.specs.State.{tile_of};
    ghost use Rattle.av1_step.specs.Step.{rules};
    ghost use Rattle.av1_step.specs.Writing.{Writes};

    // The first rule that a segment breaks.
    pub(crate) fn check_segment(&self, segment: u8) -> Option<Rule>
        ensures { result ≡ first_broken (rules (Segment segment) (tile_of self.now)) }
    {
        let Some(b) = self.current else {
            return Some(Rule(64));
        };
        if self.are_segments_coded() && self.is_segment(b, segment) {
            None
        } else {
            Some(Rule(67))
        }
    }

    // Whether the segments of blocks are coded, which are at most eight.
    fn are_segments_coded(&self) -> bool
        ensures { result ≡ are_segments_coded (tile_of self.now).given.fs.segmentation }
    {
        let segmentation = &self.unit.fs.segmentation;
        segmentation.enabled && segmentation.update_map && segmentation.last_active_segid <= 7
    }

    // Whether a block may have a segment: a skipped one has the predicted one.
    fn is_segment(&self, b: (TileBlockOffset, BlockSize), segment: u8) -> bool
        requires { (tile_of self.now).current ≡ Some b }
        ensures { result ≡ is_segment (tile_of self.now) b segment }
    {
        let (bo, _) = b;
        let last = self.unit.fs.segmentation.last_active_segid;
        if self.cw.bc.blocks[bo].skip {
            let (predicted, _) = self.cw.get_segment_pred(bo, last);
            segment == predicted
        } else {
            segment <= last
        }
    }

    // Codes the segment of the current block.
    pub(crate) fn write_segment<W: Writer>(
        &mut self,
        w: &mut W,
        segment: u8,
    ) -> Result<(), OutOfMemory>
        requires rules { first_broken (rules (Segment segment) (tile_of self.old)) ≡ None }
        requires early { (W.position w.old).shift ≤ 2 ^ 28 }
        ensures { Writes W.Known result (Segment segment) w.old w.new self.old self.new }
    {
        let (bo, size) = self.current.unwrap();
        let last = self.unit.fs.segmentation.last_active_segid;
        code_segment(&mut self.cw, w, bo, segment, last)?;
        self.cw.bc.blocks.set_segmentation_idx(bo, size, segment);
        Ok(())
    }

    // The first rule that deltas of the loop filter break.
    pub(crate) fn check_delta_lf(&self, deltas: [i8; FRAME_LF_COUNT]) -> Option<Rule>
        ensures { result ≡ first_broken (rules (DeltaLf deltas) (tile_of self.now)) }
    {
        if self.current.is_none() {
            return Some(Rule(64));
        }
        if self.unit.fs.deblock.block_deltas_enabled && are_deltas(deltas, self.block_deltas()) {
            None
        } else {
            Some(Rule(69))
        }
    }

    // How many deltas a block has: one for all edges, or one for each direction of luma and each plane of chroma.
    fn block_deltas(&self) -> usize
        ensures { result ≡ block_deltas (tile_of self.now) }
    {
        if self.unit.fs.deblock.block_delta_multi {
            self.unit.fi.sequence.chroma_sampling.planes() + 1
        } else {
            1
        }
    }

    // Codes what the current block adds to the levels of the loop filter.
    pub(crate) fn write_delta_lf<W: Writer>(
        &mut self,
        w: &mut W,
        deltas: [i8; FRAME_LF_COUNT],
    ) -> Result<(), OutOfMemory>
        requires rules { first_broken (rules (DeltaLf deltas) (tile_of self.old)) ≡ None }
        requires early { (W.position w.old).shift ≤ 2 ^ 28 }
        ensures { Writes W.Known result (DeltaLf deltas) w.old w.new self.old self.new }
    {
        let (bo, size) = self.current.unwrap();
        let multi = self.unit.fs.deblock.block_delta_multi;
        let planes = self.unit.fi.sequence.chroma_sampling.planes();
        code_deltas(&mut self.cw, w, bo, deltas, multi, planes)?;
        self.cw.bc.blocks.set_deblock_deltas(bo, size, deltas);
        Ok(())
    }
}

// Codes a segment as that of the block at a place. The grid stays as it is.
fn code_segment<W: Writer>(
    cw: &mut ContextWriter,
    w: &mut W,
    bo: TileBlockOffset,
    segment: u8,
    last: u8,
) -> Result<(), OutOfMemory>
    requires inside { IsInside cw.old.bc.blocks bo.0 }
    requires whole { IsWhole cw.old.bc.blocks }
    requires last { last ≤ 7 }
    requires segment { let g = cw.old.bc.blocks in IsSegment g bo.0 (block_at g bo.0.x bo.0.y).skip last segment }
    requires cdfs { AreCdfs cw.old.fc }
    requires early { (W.position w.old).shift ≤ 2 ^ 28 }
    ensures wrote { Coded W.Known result (segment_at cw.old.bc.blocks bo.0 last) segment w.old w.new cw.old cw.new }
    ensures moves { Moved W.Known 13 w.old w.new cw.old cw.new }
    ensures rest { cw.new.bc ≡ cw.old.bc }
{
    let before = *cw.bc.blocks.at(bo);
    if before.skip {
        return Ok(());
    }
    cw.bc
        .blocks
        .set_segmentation_idx(bo, BlockSize::BLOCK_4X4, segment);
    let coded = cw.write_segmentation(w, bo, BlockSize::BLOCK_4X4, false, last);
    cw.bc
        .blocks
        .set_segmentation_idx(bo, BlockSize::BLOCK_4X4, before.segmentation_idx);
    coded
}

// Codes deltas as those of the block at a place. The grid stays as it is.
fn code_deltas<W: Writer>(
    cw: &mut ContextWriter,
    w: &mut W,
    bo: TileBlockOffset,
    deltas: [i8; FRAME_LF_COUNT],
    multi: bool,
    planes: usize,
) -> Result<(), OutOfMemory>
    requires inside { IsInside cw.old.bc.blocks bo.0 }
    requires whole { IsWhole cw.old.bc.blocks }
    requires planes_from { 1 ≤ planes }
    requires planes_to { planes ≤ 3 }
    requires deltas { AreDeltas 63 (delta_count multi planes) deltas }
    requires cdfs { AreCdfs cw.old.fc }
    requires early { (W.position w.old).shift ≤ 2 ^ 28 }
    ensures wrote { Coded W.Known result (deltas_element multi planes) deltas w.old w.new cw.old cw.new }
    ensures moves { Moved W.Known 520 w.old w.new cw.old cw.new }
    ensures rest { cw.new.bc ≡ cw.old.bc }
{
    let before = cw.bc.blocks.at(bo).deblock_deltas;
    cw.bc
        .blocks
        .set_deblock_deltas(bo, BlockSize::BLOCK_4X4, deltas);
    let coded = cw.write_block_deblock_deltas(w, bo, multi, planes);
    cw.bc
        .blocks
        .set_deblock_deltas(bo, BlockSize::BLOCK_4X4, before);
    coded
}

// Whether the deltas are small enough, and those past the count are zero.
fn are_deltas(deltas: [i8; FRAME_LF_COUNT], count: usize) -> bool
    ensures { result ≡ are_deltas count deltas }
{
    is_delta(deltas[0], 0 < count)
        && is_delta(deltas[1], 1 < count)
        && is_delta(deltas[2], 2 < count)
        && is_delta(deltas[3], 3 < count)
}

// Whether a delta is at most 63 in size, or zero where it is not coded.
fn is_delta(delta: i8, coded: bool) -> bool
    ensures { result ≡ nat_le (magnitude delta) (if coded then 63 else 0) }
{
    delta.unsigned_abs() <= if coded { 63 } else { 0 }
}
