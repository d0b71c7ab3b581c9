// The steps that say how intra blocks are predicted.
ghost use Rattle.std.specs.Prelude.{◌≡◌, ◌^◌, ◌≤◌, Some, None};
ghost use Rattle.av1_step.specs.IntraSteps.{mode_at, has_chroma, is_chroma_mode, is_intra, is_luma_mode};

use crate::tile::TileState;
use av1_ec::Writer;
use av1_geometry::{BlockSize, OutOfMemory, PredictionMode, Rule, TileBlockOffset, has_chroma};

impl<'u> TileState<'u> {
    ghost use Rattle.av1_geometry.specs.Rules.{first_broken};
    ghost use Rattle.av1_step.specs.declared.step.TileStep.TheVariants.{IntraMode, IntraModeKf, UvMode};
    ghost use Rattle.av1_step.specs.State.{tile_of};
    ghost use Rattle.av1_step.specs.Step.{rules};
    ghost use Rattle.av1_step.specs.Writing.{Writes};

    // The luma mode that stands in the grid at the place of the current block.
    pub(crate) fn mode_at(&self, b: (TileBlockOffset, BlockSize)) -> PredictionMode
        requires { (tile_of self.now).current ≡ Some b }
        ensures { result ≡ mode_at (tile_of self.now) b }
    {
        let (bo, _) = b;
        self.cw.bc.blocks[bo].mode
    }

    // Whether that mode is one of prediction within the frame.
    pub(crate) fn is_intra(&self, b: (TileBlockOffset, BlockSize)) -> bool
        requires { (tile_of self.now).current ≡ Some b }
        ensures { result ≡ is_intra (tile_of self.now) b }
    {
        self.mode_at(b).number() < 14
    }

    // The first rule that a luma mode breaks in an intra frame.
    pub(crate) fn check_intra_mode_kf(&self, mode: PredictionMode) -> Option<Rule>
        ensures { result ≡ first_broken (rules (IntraModeKf mode) (tile_of self.now)) }
    {
        let Some(b) = self.current else {
            return Some(Rule(64));
        };
        if !self.unit.fi.intra_only {
            return Some(Rule(65));
        }
        if !self.is_intra(b) {
            return Some(Rule(66));
        }
        if is_luma_mode(mode) {
            None
        } else {
            Some(Rule(70))
        }
    }

    // Codes the luma mode of the current block in an intra frame.
    pub(crate) fn write_intra_mode_kf<W: Writer>(
        &mut self,
        w: &mut W,
        mode: PredictionMode,
    ) -> Result<(), OutOfMemory>
        requires rules { first_broken (rules (IntraModeKf mode) (tile_of self.old)) ≡ None }
        requires early { (W.position w.old).shift ≤ 2 ^ 28 }
        ensures { Writes W.Known result (IntraModeKf mode) w.old w.new self.old self.new }
    {
        let (bo, size) = self.current.unwrap();
        self.cw.write_intra_mode_kf(w, bo, mode)?;
        self.cw.bc.blocks.set_mode(bo, size, mode);
        Ok(())
    }

    // The first rule that a luma mode breaks in another frame.
    pub(crate) fn check_intra_mode(&self, mode: PredictionMode) -> Option<Rule>
        ensures { result ≡ first_broken (rules (IntraMode mode) (tile_of self.now)) }
    {
        let Some(b) = self.current else {
            return Some(Rule(64));
        };
        if self.unit.fi.intra_only {
            return Some(Rule(65));
        }
        if !self.is_intra(b) {
            return Some(Rule(66));
        }
        if is_luma_mode(mode) {
            None
        } else {
            Some(Rule(70))
        }
    }

    // Codes the luma mode of the current block in another frame.
    pub(crate) fn write_intra_mode<W: Writer>(
        &mut self,
        w: &mut W,
        mode: PredictionMode,
    ) -> Result<(), OutOfMemory>
        requires rules { first_broken (rules (IntraMode mode) (tile_of self.old)) ≡ None }
        requires early { (W.position w.old).shift ≤ 2 ^ 28 }
        ensures { Writes W.Known result (IntraMode mode) w.old w.new self.old self.new }
    {
        let (bo, size) = self.current.unwrap();
        self.cw.write_intra_mode(w, size, mode)?;
        self.cw.bc.blocks.set_mode(bo, size, mode);
        Ok(())
    }

    // Whether the chroma of its place belongs to a block.
    pub(crate) fn has_chroma(&self, b: (TileBlockOffset, BlockSize)) -> bool
        ensures { result ≡ has_chroma (tile_of self.now) b }
    {
        let (bo, size) = b;
        let sampling = self.unit.fi.sequence.chroma_sampling;
        has_chroma(bo, size, sampling.xdec(), sampling.ydec(), sampling)
    }

    // The first rule that a chroma mode breaks.
    pub(crate) fn check_uv_mode(&self, mode: PredictionMode) -> Option<Rule>
        ensures { result ≡ first_broken (rules (UvMode mode) (tile_of self.now)) }
    {
        let Some(b) = self.current else {
            return Some(Rule(64));
        };
        if !self.is_intra(b) {
            return Some(Rule(66));
        }
        if self.has_chroma(b) && is_chroma_mode(b.1, mode) {
            None
        } else {
            Some(Rule(71))
        }
    }

    // Codes the chroma mode of the current block.
    pub(crate) fn write_uv_mode<W: Writer>(
        &mut self,
        w: &mut W,
        mode: PredictionMode,
    ) -> Result<(), OutOfMemory>
        requires rules { first_broken (rules (UvMode mode) (tile_of self.old)) ≡ None }
        requires early { (W.position w.old).shift ≤ 2 ^ 28 }
        ensures { Writes W.Known result (UvMode mode) w.old w.new self.old self.new }
    {
        let b = self.current.unwrap();
        let luma = self.mode_at(b);
        self.cw.write_intra_uv_mode(w, mode, luma, b.1)?;
        self.uv = Some(mode);
        Ok(())
    }
}

// Whether a mode is one of the thirteen of luma.
fn is_luma_mode(mode: PredictionMode) -> bool
    ensures { result ≡ is_luma_mode mode }
{
    mode.number() < 13
}

// Whether the chroma of a block of this size can have a mode.
fn is_chroma_mode(size: BlockSize, mode: PredictionMode) -> bool
    ensures { result ≡ is_chroma_mode size mode }
{
    if size.cfl_allowed() {
        mode.number() < 14
    } else {
        mode.number() < 13
    }
}
