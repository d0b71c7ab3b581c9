// The steps of the current block for filters, segments and palettes.
ghost use Rattle.std.specs.Prelude.{◌≡◌, ◌^◌, ◌≤◌, ◌==◌, ◌&&◌, ◌||◌, not, is_some, nat_lt, true, false, Some, None};
ghost use Rattle.std.specs.Option.{option_map_or};
ghost use Rattle.av1_syntax.specs.Palette.{is_dc};
ghost use Rattle.av1_step.specs.FilterSteps.{has_short_sides, may_have_palette};
ghost use Rattle.av1_step.specs.IntraSteps.{has_chroma};

use crate::tile::TileState;
use av1_ec::Writer;
use av1_geometry::{BlockSize, OutOfMemory, PredictionMode, Rule, TileBlockOffset};

impl<'u> TileState<'u> {
    ghost use Rattle.av1_geometry.specs.Rules.{first_broken};
    ghost use Rattle.av1_step.specs.declared.step.TileStep.TheVariants.{Cdef, FilterIntra, Palette};
    ghost use Rattle.av1_step.specs.State.{tile_of};
    ghost use Rattle.av1_step.specs.Step.{rules};
    ghost use Rattle.av1_step.specs.Writing.{Writes};

    // The first rule that an index of the enhancement filter breaks.
    pub(crate) fn check_cdef(&self, index: u8) -> Option<Rule>
        ensures { result ≡ first_broken (rules (Cdef index) (tile_of self.now)) }
    {
        if self.current.is_none() {
            return Some(Rule(64));
        }
        if self.unit.fi.sequence.enable_cdef && self.is_cdef_index(index) {
            None
        } else {
            Some(Rule(68))
        }
    }

    // Whether the bits that an index of the filter has hold this one.
    fn is_cdef_index(&self, index: u8) -> bool
        requires { (tile_of self.now).given.fi.sequence.enable_cdef ≡ true }
        ensures { result ≡ nat_lt index (2 ^ (tile_of self.now).given.fi.cdef_bits) }
    {
        u32::from(index) < 1 << self.unit.fi.cdef_bits
    }

    // Codes the index of the filter's strengths in the current block's superblock.
    pub(crate) fn write_cdef<W: Writer>(&mut self, w: &mut W, index: u8) -> Result<(), OutOfMemory>
        requires rules { first_broken (rules (Cdef index) (tile_of self.old)) ≡ None }
        requires early { (W.position w.old).shift ≤ 2 ^ 28 }
        ensures { Writes W.Known result (Cdef index) w.old w.new self.old self.new }
    {
        let (bo, size) = self.current.unwrap();
        self.cw.write_cdef(w, index, self.unit.fi.cdef_bits)?;
        self.cw.bc.blocks.set_cdef_index(bo, size, index);
        self.cw.bc.cdef_coded = true;
        Ok(())
    }

    // The first rule that a flag of filter intra breaks.
    pub(crate) fn check_filter_intra(&self, on: bool) -> Option<Rule>
        ensures { result ≡ first_broken (rules (FilterIntra on) (tile_of self.now)) }
    {
        let Some(b) = self.current else {
            return Some(Rule(64));
        };
        if !self.is_intra(b) {
            return Some(Rule(66));
        }
        let enabled = self.unit.fi.sequence.enable_filter_intra;
        if enabled && is_dc(self.mode_at(b)) && has_short_sides(b.1) && !on {
            None
        } else {
            Some(Rule(74))
        }
    }

    // Codes that the current block has no filter intra.
    pub(crate) fn write_filter_intra<W: Writer>(
        &mut self,
        w: &mut W,
        on: bool,
    ) -> Result<(), OutOfMemory>
        requires rules { first_broken (rules (FilterIntra on) (tile_of self.old)) ≡ None }
        requires early { (W.position w.old).shift ≤ 2 ^ 28 }
        ensures { Writes W.Known result (FilterIntra on) w.old w.new self.old self.new }
    {
        let (_, size) = self.current.unwrap();
        self.cw.write_use_filter_intra(w, on, size)
    }

    // The first rule that a flag of palettes breaks.
    pub(crate) fn check_palette(&self, on: bool) -> Option<Rule>
        ensures { result ≡ first_broken (rules (Palette on) (tile_of self.now)) }
    {
        let Some(b) = self.current else {
            return Some(Rule(64));
        };
        if !self.is_intra(b) {
            return Some(Rule(66));
        }
        if self.may_have_palette(b) && !on {
            None
        } else {
            Some(Rule(75))
        }
    }

    // Whether palettes may be asked for a block.
    fn may_have_palette(&self, b: (TileBlockOffset, BlockSize)) -> bool
        ensures { result ≡ may_have_palette (tile_of self.now) b }
    {
        self.unit.fi.allow_screen_content_tools != 0 && b.1.number() >= 3 && self.has_modes(b)
    }

    // Whether the chroma mode of a block is entered, where it has chroma.
    fn has_modes(&self, b: (TileBlockOffset, BlockSize)) -> bool
        ensures { result ≡ (is_some (tile_of self.now).uv || not (has_chroma (tile_of self.now) b)) }
    {
        self.uv.is_some() || !self.has_chroma(b)
    }

    // Codes that the current block has no palette.
    pub(crate) fn write_palette<W: Writer>(
        &mut self,
        w: &mut W,
        on: bool,
    ) -> Result<(), OutOfMemory>
        requires rules { first_broken (rules (Palette on) (tile_of self.old)) ≡ None }
        requires early { (W.position w.old).shift ≤ 2 ^ 28 }
        ensures { Writes W.Known result (Palette on) w.old w.new self.old self.new }
    {
        let (bo, size) = self.current.unwrap();
        let luma = self.mode_at((bo, size));
        let chroma = self.chroma_mode();
        let cs = self.unit.fi.sequence.chroma_sampling;
        self.cw
            .write_use_palette_mode(w, on, size, bo, luma, chroma, cs.xdec(), cs.ydec(), cs)
    }

    // The chroma mode of the current block, or one that has no palette where none is entered.
    fn chroma_mode(&self) -> PredictionMode
        ensures { is_dc result ≡ option_map_or is_dc (tile_of self.now).uv false }
    {
        match self.uv {
            Some(mode) => mode,
            None => PredictionMode::V_PRED,
        }
    }
}

// Whether a mode is the one that can have filter intra, and a palette.
fn is_dc(mode: PredictionMode) -> bool
    ensures { result ≡ is_dc mode }
{
    mode.number() == 0
}

// Whether no side is longer than 32.
fn has_short_sides(size: BlockSize) -> bool
    ensures { result ≡ has_short_sides size }
{
    size.width_log2() <= 5 && size.height_log2() <= 5
}
