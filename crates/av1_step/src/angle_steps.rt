// The steps that say more of how intra blocks are predicted: the angles of their modes, and the factors of chroma from luma.
ghost use Rattle.std.specs.Prelude.{◌≡◌, ◌^◌, ◌≤◌, false, Some, None};
ghost use Rattle.std.specs.Option.{option_map_or};
ghost use Rattle.av1_step.specs.AngleSteps.{angle_mode, are_factors, has_angle, is_angle, is_directional, is_from_luma};

use crate::tile::TileState;
use av1_ec::Writer;
use av1_geometry::{BlockSize, CFLParams, OutOfMemory, PredictionMode, Rule, TileBlockOffset};

impl<'u> TileState<'u> {
    ghost use Rattle.av1_geometry.specs.Rules.{first_broken};
    ghost use Rattle.av1_step.specs.declared.step.TileStep.TheVariants.{AngleDelta, CflAlphas};
    ghost use Rattle.av1_step.specs.State.{tile_of};
    ghost use Rattle.av1_step.specs.Step.{rules};
    ghost use Rattle.av1_step.specs.Writing.{Writes};

    // The mode whose angle is coded: that of chroma, once it is entered, or that of luma.
    fn angle_mode(&self, chroma: bool, b: (TileBlockOffset, BlockSize)) -> Option<PredictionMode>
        requires { (tile_of self.now).current ≡ Some b }
        ensures { result ≡ angle_mode chroma (tile_of self.now) b }
    {
        if chroma {
            self.uv
        } else {
            Some(self.mode_at(b))
        }
    }

    // Whether that mode has a direction.
    fn has_direction(&self, chroma: bool, b: (TileBlockOffset, BlockSize)) -> bool
        requires { (tile_of self.now).current ≡ Some b }
        ensures { result ≡ option_map_or is_directional (angle_mode chroma (tile_of self.now) b) false }
    {
        match self.angle_mode(chroma, b) {
            Some(mode) => is_directional(mode),
            None => false,
        }
    }

    // Whether a block is large enough for an angle, in a mode with a direction.
    fn has_angle(&self, chroma: bool, b: (TileBlockOffset, BlockSize)) -> bool
        requires { (tile_of self.now).current ≡ Some b }
        ensures { result ≡ has_angle chroma (tile_of self.now) b }
    {
        b.1.number() >= 3 && self.has_direction(chroma, b)
    }

    // The first rule that an angle breaks.
    pub(crate) fn check_angle_delta(&self, chroma: bool, angle: i8) -> Option<Rule>
        ensures { result ≡ first_broken (rules (AngleDelta chroma angle) (tile_of self.now)) }
    {
        let Some(b) = self.current else {
            return Some(Rule(64));
        };
        if !self.is_intra(b) {
            return Some(Rule(66));
        }
        if self.has_angle(chroma, b) && is_angle(angle) {
            None
        } else {
            Some(Rule(72))
        }
    }

    // Codes how far the direction of the chroma mode of the current block, or of its luma mode, is turned.
    pub(crate) fn write_angle_delta<W: Writer>(
        &mut self,
        w: &mut W,
        chroma: bool,
        angle: i8,
    ) -> Result<(), OutOfMemory>
        requires rules { first_broken (rules (AngleDelta chroma angle) (tile_of self.old)) ≡ None }
        requires early { (W.position w.old).shift ≤ 2 ^ 28 }
        ensures { Writes W.Known result (AngleDelta chroma angle) w.old w.new self.old self.new }
    {
        let b = self.current.unwrap();
        let mode = self.angle_mode(chroma, b).unwrap();
        self.cw.write_angle_delta(w, angle, mode)
    }

    // Whether chroma is predicted from luma.
    fn is_from_luma(&self) -> bool
        ensures { result ≡ is_from_luma (tile_of self.now) }
    {
        match self.uv {
            Some(mode) => mode.number() == 13,
            None => false,
        }
    }

    // The first rule that factors of chroma from luma break.
    pub(crate) fn check_cfl_alphas(&self, alphas: (i16, i16)) -> Option<Rule>
        ensures { result ≡ first_broken (rules (CflAlphas alphas) (tile_of self.now)) }
    {
        let Some(b) = self.current else {
            return Some(Rule(64));
        };
        if !self.is_intra(b) {
            return Some(Rule(66));
        }
        if self.is_from_luma() && are_factors(alphas) {
            None
        } else {
            Some(Rule(73))
        }
    }

    // Codes the factors by which the chroma of the current block is predicted from luma.
    pub(crate) fn write_cfl_alphas<W: Writer>(
        &mut self,
        w: &mut W,
        alphas: (i16, i16),
    ) -> Result<(), OutOfMemory>
        requires rules { first_broken (rules (CflAlphas alphas) (tile_of self.old)) ≡ None }
        requires early { (W.position w.old).shift ≤ 2 ^ 28 }
        ensures { Writes W.Known result (CflAlphas alphas) w.old w.new self.old self.new }
    {
        let (u, v) = alphas;
        self.cw.write_cfl_alphas(w, CFLParams::from_alpha(u, v))
    }
}

// Whether a mode is one of the eight with a direction.
fn is_directional(mode: PredictionMode) -> bool
    ensures { result ≡ is_directional mode }
{
    1 <= mode.number() && mode.number() <= 8
}

// Whether an angle is at most three steps to either side.
fn is_angle(angle: i8) -> bool
    ensures { result ≡ is_angle angle }
{
    -3 <= angle && angle <= 3
}

// Whether factors are at most 16 in size, and one of them is not zero.
fn are_factors(alphas: (i16, i16)) -> bool
    ensures { result ≡ are_factors alphas }
{
    let (u, v) = (alphas.0.unsigned_abs(), alphas.1.unsigned_abs());
    u <= 16 && v <= 16 && 1 <= u + v
}
