// Modes of intra blocks, and what belongs to them.
ghost use Rattle.std.specs.Prelude.{◌≡◌, ℕ, ◌+◌, ◌^◌, ◌<◌, ◌≤◌, ◌&&◌, false, [], ◌∷◌, codes, pos, negsuc, ◌≤ℤ◌};
ghost use Rattle.av1_blocks.specs.Grid.{IsInside};
ghost use Rattle.av1_cdf.specs.Context.{AreCdfs, contents};
ghost use Rattle.av1_cdf.specs.Distribution.Distribution.{Adaptive};
ghost use Rattle.av1_cdf.specs.Layout.{slot};
ghost use Rattle.av1_cdf.specs.Slots.{slot_of};
ghost use Rattle.av1_geometry.specs.BlockSize.{number_of, width_log2, height_log2};
ghost use Rattle.av1_geometry.specs.Chroma.{has_chroma_at};
ghost use Rattle.av1_geometry.specs.PredictionMode.{prediction_mode_number};
ghost use Rattle.av1_syntax.specs.IntraModes.{class_of, above_class, left_class, HasIntraNeighbours};
ghost use Rattle.av1_syntax.specs.IntraModes.{kf_y_slot, y_mode_slot, uv_mode_slot, uv_modes, angle_number};
ghost use Rattle.av1_syntax.specs.Palette.{is_dc, palette_size};

use crate::context_writer::ContextWriter;
use av1_cdf::{CDFContext, CDFOffset};
use av1_ec::Writer;
use av1_geometry::{
    BlockSize, ChromaSampling, OutOfMemory, PredictionMode, TileBlockOffset, has_chroma,
};

/// The class of each intra mode as a context (AV1 specification, "Intra_Mode_Context").
static INTRA_MODE_CONTEXTS: [u8; 13] = [0, 1, 2, 3, 4, 4, 4, 4, 3, 0, 1, 2, 0];

// The class of a mode as a context.
fn class_of(mode: PredictionMode) -> usize
    requires { prediction_mode_number mode < 13 }
    ensures value { result ≡ class_of mode }
    ensures few { result < 5 }
{
    INTRA_MODE_CONTEXTS[mode.number()] as usize
}

impl ContextWriter {
    ghost use Rattle.av1_syntax.specs.Calls.{Coded, Moved};
    ghost use Rattle.av1_syntax.specs.Flags.{filter_intra_element};
    ghost use Rattle.av1_syntax.specs.IntraModes.{intra_mode_kf_element, intra_mode_element, uv_mode_element, angle_delta_element};
    ghost use Rattle.av1_syntax.specs.Palette.{off_where, palette_at};

    // The class of the mode above.
    fn above_class(&self, bo: TileBlockOffset) -> usize
        requires inside { IsInside self.now.bc.blocks bo.0 }
        requires intra { HasIntraNeighbours self.now.bc.blocks bo.0 }
        ensures value { result ≡ above_class self.now.bc.blocks bo.0 }
        ensures few { result < 5 }
    {
        if bo.0.y > 0 {
            class_of(self.bc.blocks.above_of(bo).mode)
        } else {
            0
        }
    }

    // The class of the mode to the left.
    fn left_class(&self, bo: TileBlockOffset) -> usize
        requires inside { IsInside self.now.bc.blocks bo.0 }
        requires intra { HasIntraNeighbours self.now.bc.blocks bo.0 }
        ensures value { result ≡ left_class self.now.bc.blocks bo.0 }
        ensures few { result < 5 }
    {
        if bo.0.x > 0 {
            class_of(self.bc.blocks.left_of(bo).mode)
        } else {
            0
        }
    }

    // The slot of the luma mode in a frame of intra blocks.
    fn kf_y_slot(&self, bo: TileBlockOffset) -> CDFOffset
        requires inside { IsInside self.now.bc.blocks bo.0 }
        requires neighbours { HasIntraNeighbours self.now.bc.blocks bo.0 }
        ensures is { slot_of result ≡ kf_y_slot self.now.bc.blocks bo.0 }
        ensures len { result.len ≡ 13 }
    {
        CDFContext::kf_y_cdf(self.above_class(bo), self.left_class(bo))
    }

    /// The distribution of `write_intra_mode_kf`: 13 modes.
    pub fn get_cdf_intra_mode_kf(&self, bo: TileBlockOffset) -> &[u16]
        requires inside { IsInside self.now.bc.blocks bo.0 }
        requires neighbours { HasIntraNeighbours self.now.bc.blocks bo.0 }
        ensures { result.now ≡ contents self.now.fc (kf_y_slot self.now.bc.blocks bo.0) }
    {
        self.fc.values_of(self.kf_y_slot(bo))
    }

    /// Codes the luma mode of a block in a frame of intra blocks, by the modes above and to the left.
    pub fn write_intra_mode_kf<W: Writer>(
        &mut self,
        w: &mut W,
        bo: TileBlockOffset,
        mode: PredictionMode,
    ) -> Result<(), OutOfMemory>
        requires inside { IsInside self.old.bc.blocks bo.0 }
        requires neighbours { HasIntraNeighbours self.old.bc.blocks bo.0 }
        requires luma { prediction_mode_number mode < 13 }
        requires cdfs { AreCdfs self.old.fc }
        requires early { (W.position w.old).shift ≤ 2 ^ 28 }
        ensures wrote { Coded W.Known result (intra_mode_kf_element self.old.bc.blocks bo.0) mode w.old w.new self.old self.new }
        ensures moves { Moved W.Known 13 w.old w.new self.old self.new }
        ensures rest { self.new.bc ≡ self.old.bc }
    {
        let cdf = self.kf_y_slot(bo);
        self.symbol(w, mode.number() as u32, cdf)
    }

    /// The distribution of `write_intra_mode`: 13 modes.
    pub fn get_cdf_intra_mode(&self, bsize: BlockSize) -> &[u16]
        ensures { result.now ≡ contents self.now.fc (y_mode_slot bsize) }
    {
        self.fc.values_of(y_mode_slot(bsize))
    }

    /// Codes the luma mode of an intra block in a frame that has inter blocks, by the size of the block.
    pub fn write_intra_mode<W: Writer>(
        &mut self,
        w: &mut W,
        bsize: BlockSize,
        mode: PredictionMode,
    ) -> Result<(), OutOfMemory>
        requires luma { prediction_mode_number mode < 13 }
        requires cdfs { AreCdfs self.old.fc }
        requires early { (W.position w.old).shift ≤ 2 ^ 28 }
        ensures wrote { Coded W.Known result (intra_mode_element bsize) mode w.old w.new self.old self.new }
        ensures moves { Moved W.Known 13 w.old w.new self.old self.new }
        ensures rest { self.new.bc ≡ self.old.bc }
    {
        self.symbol(w, mode.number() as u32, y_mode_slot(bsize))
    }

    /// Codes the chroma mode of an intra block by its luma mode. `UV_CFL_PRED` is one of the modes where both sides of the
    /// block are at most 32.
    pub fn write_intra_uv_mode<W: Writer>(
        &mut self,
        w: &mut W,
        uv_mode: PredictionMode,
        y_mode: PredictionMode,
        bs: BlockSize,
    ) -> Result<(), OutOfMemory>
        requires luma { prediction_mode_number y_mode < 13 }
        requires chroma { prediction_mode_number uv_mode < uv_modes bs }
        requires cdfs { AreCdfs self.old.fc }
        requires early { (W.position w.old).shift ≤ 2 ^ 28 }
        ensures wrote { Coded W.Known result (uv_mode_element y_mode bs) uv_mode w.old w.new self.old self.new }
        ensures moves { Moved W.Known 13 w.old w.new self.old self.new }
        ensures rest { self.new.bc ≡ self.old.bc }
    {
        self.symbol(w, uv_mode.number() as u32, uv_mode_slot(y_mode, bs))
    }

    /// Codes the angle of a directional mode, in steps of three degrees.
    pub fn write_angle_delta<W: Writer>(
        &mut self,
        w: &mut W,
        angle: i8,
        mode: PredictionMode,
    ) -> Result<(), OutOfMemory>
        requires low { negsuc 2 ≤ℤ angle }
        requires high { angle ≤ℤ pos 3 }
        requires directional { 1 ≤ prediction_mode_number mode }
        requires last { prediction_mode_number mode ≤ 8 }
        requires cdfs { AreCdfs self.old.fc }
        requires early { (W.position w.old).shift ≤ 2 ^ 28 }
        ensures wrote { Coded W.Known result (angle_delta_element mode) angle w.old w.new self.old self.new }
        ensures moves { Moved W.Known 13 w.old w.new self.old self.new }
        ensures rest { self.new.bc ≡ self.old.bc }
    {
        let cdf = CDFContext::angle_delta_cdf(mode.number() - PredictionMode::V_PRED.number());
        self.symbol(w, angle_symbol(angle), cdf)
    }

    /// Codes whether a block has filter intra, by its size.
    pub fn write_use_filter_intra<W: Writer>(
        &mut self,
        w: &mut W,
        enable: bool,
        block_size: BlockSize,
    ) -> Result<(), OutOfMemory>
        requires cdfs { AreCdfs self.old.fc }
        requires early { (W.position w.old).shift ≤ 2 ^ 28 }
        ensures wrote { Coded W.Known result (filter_intra_element block_size) enable w.old w.new self.old self.new }
        ensures moves { Moved W.Known 13 w.old w.new self.old self.new }
        ensures rest { self.new.bc ≡ self.old.bc }
    {
        self.flag(
            w,
            enable,
            CDFContext::filter_intra_cdfs(block_size.number()),
        )
    }

    /// Codes that a block has no palette, of luma where its mode is `DC_PRED`, and of chroma where it has chroma in that
    /// mode. Palettes are not coded, so `enable` is false.
    pub fn write_use_palette_mode<W: Writer>(
        &mut self,
        w: &mut W,
        enable: bool,
        bsize: BlockSize,
        bo: TileBlockOffset,
        luma_mode: PredictionMode,
        chroma_mode: PredictionMode,
        xdec: usize,
        ydec: usize,
        cs: ChromaSampling,
    ) -> Result<(), OutOfMemory>
        requires off { enable ≡ false }
        requires size { 3 ≤ number_of bsize }
        requires width { width_log2 bsize ≤ 6 }
        requires height { height_log2 bsize ≤ 6 }
        requires cdfs { AreCdfs self.old.fc }
        requires early { (W.position w.old).shift ≤ 2 ^ 28 }
        ensures wrote { Coded W.Known result (palette_at bo.0 bsize luma_mode chroma_mode xdec ydec cs) false w.old w.new self.old self.new }
        ensures moves { Moved W.Known 26 w.old w.new self.old self.new }
        ensures rest { self.new.bc ≡ self.old.bc }
    {
        prove!(!enable);
        let chroma = asks_chroma_palette(chroma_mode, has_chroma(bo, bsize, xdec, ydec, cs));
        self.off_where(w, is_dc(luma_mode), palette_y_slot(bsize))?;
        self.off_where(w, chroma, CDFContext::palette_uv_mode_cdfs(0))
    }

    // Codes no, where it is asked.
    fn off_where<W: Writer>(
        &mut self,
        w: &mut W,
        asked: bool,
        cdf: CDFOffset,
    ) -> Result<(), OutOfMemory>
        requires cdfs { AreCdfs self.old.fc }
        requires shift { (W.position w.old).shift + 13 ≤ 2 ^ 28 + 2 ^ 24 }
        ensures wrote { Coded W.Known result (off_where asked (Adaptive (slot_of cdf))) false w.old w.new self.old self.new }
        ensures moves { Moved W.Known 13 w.old w.new self.old self.new }
        ensures rest { self.new.bc ≡ self.old.bc }
    {
        if asked {
            return self.symbol(w, 0, cdf);
        }
        Ok(())
    }
}

// The slot of the luma mode in a frame that has inter blocks.
fn y_mode_slot(bsize: BlockSize) -> CDFOffset
    ensures is { slot_of result ≡ y_mode_slot bsize }
    ensures len { result.len ≡ 13 }
{
    CDFContext::y_mode_cdf(bsize.size_group())
}

// The slot of the chroma mode.
fn uv_mode_slot(y_mode: PredictionMode, bs: BlockSize) -> CDFOffset
    requires { prediction_mode_number y_mode < 13 }
    ensures is { slot_of result ≡ uv_mode_slot y_mode bs }
    ensures len { result.len ≡ uv_modes bs }
{
    if bs.cfl_allowed() {
        CDFContext::uv_mode_cfl_cdf(y_mode.number())
    } else {
        CDFContext::uv_mode_cdf(y_mode.number())
    }
}

// The slot of a luma palette.
fn palette_y_slot(bsize: BlockSize) -> CDFOffset
    requires size { 3 ≤ number_of bsize }
    requires width { width_log2 bsize ≤ 6 }
    requires height { height_log2 bsize ≤ 6 }
    ensures { slot_of result ≡ slot (codes "palette_y_mode_cdfs") (palette_size bsize ∷ 0 ∷ []) }
{
    let doublings = bsize.width_mi_log2() + bsize.height_mi_log2() - 2;
    CDFContext::palette_y_mode_cdfs(doublings, 0)
}

// The symbol of an angle from -3 to 3.
fn angle_symbol(angle: i8) -> u32
    requires low { negsuc 2 ≤ℤ angle }
    requires high { angle ≤ℤ pos 3 }
    ensures { result ≡ angle_number angle }
{
    (angle + 3) as u32
}

// Whether a mode is that of blocks that may have a palette.
fn is_dc(mode: PredictionMode) -> bool
    ensures { result ≡ is_dc mode }
{
    mode.number() == PredictionMode::DC_PRED.number()
}

// Whether a palette is asked for chroma, where it is there.
fn asks_chroma_palette(mode: PredictionMode, there: bool) -> bool
    ensures { result ≡ (there && is_dc mode) }
{
    there && is_dc(mode)
}
