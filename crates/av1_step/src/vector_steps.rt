// The steps of the vectors of inter blocks: their candidates, and the vectors that are coded.
ghost use Rattle.std.specs.Prelude.{◌≡◌, ◌&&◌, ◌%◌, ◌==◌, ◌^◌, ◌≤◌, ◌-ℤ◌, is_some, Some, None};
ghost use Rattle.av1_geometry.specs.Cfl.{magnitude};
ghost use Rattle.av1_syntax.specs.InterModes.{is_among};
ghost use Rattle.av1_syntax.specs.Vectors.{difference, unit_of};
ghost use Rattle.av1_step.specs.IntraSteps.{mode_at};
ghost use Rattle.av1_step.specs.VectorSteps.{codes_first, codes_second, is_coded_list, is_small, is_valid, is_whole, precision_of, reference_vector, vector_rules};

use crate::tile::TileState;
use arrayvec::ArrayVec;
use av1_ec::Writer;
use av1_geometry::{
    BlockSize, MotionVector, MvSubpelPrecision, OutOfMemory, PredictionMode, Rule, TileBlockOffset,
};

/// No part of a difference that is coded is larger, in units of 1/8 sample.
const MOST: u32 = 16384;

impl<'u> TileState<'u> {
    ghost use Rattle.av1_geometry.specs.Rules.{first_broken};
    ghost use Rattle.av1_step.specs.declared.step.TileStep.TheVariants.{MvRefs, Mv};
    ghost use Rattle.av1_step.specs.State.{tile_of, log_of};
    ghost use Rattle.av1_step.specs.Step.{entered, rules};
    ghost use Rattle.av1_step.specs.Writing.{Writes};

    // The first rule that it breaks to find the candidates for the vectors of the current block.
    pub(crate) fn check_mv_refs(&self, has_tr: bool) -> Option<Rule>
        ensures { result ≡ first_broken (rules (MvRefs has_tr) (tile_of self.now)) }
    {
        let Some(b) = self.current else {
            return Some(Rule(64));
        };
        if self.unit.fi.intra_only {
            return Some(Rule(65));
        }
        if self.is_intra(b) {
            Some(Rule(66))
        } else {
            None
        }
    }

    // Finds the candidates for the vectors of the current block.
    pub(crate) fn enter_mv_refs(&mut self, has_tr: bool)
        requires { first_broken (rules (MvRefs has_tr) (tile_of self.old)) ≡ None }
        ensures tile { tile_of self.new ≡ entered (MvRefs has_tr) (tile_of self.old) }
        ensures log { log_of self.new ≡ log_of self.old }
    {
        let (bo, size) = self.current.unwrap();
        let block = self.standing_at((bo, size));
        let mut list = ArrayVec::new();
        let context = self.cw.find_mvrefs(
            bo,
            block.ref_frames,
            &mut list,
            size,
            &self.unit.fi.ref_frame_sign_bias,
            has_tr,
            block.has_second_ref(),
        );
        self.cands = Some((list, context));
    }

    // How finely the vectors of the frame are coded.
    fn precision(&self) -> MvSubpelPrecision
        ensures { result ≡ precision_of (tile_of self.now).given.fi }
    {
        let fi = &self.unit.fi;
        if fi.force_integer_mv != 0 {
            MvSubpelPrecision::MV_SUBPEL_NONE
        } else if fi.allow_high_precision_mv {
            MvSubpelPrecision::MV_SUBPEL_HIGH_PRECISION
        } else {
            MvSubpelPrecision::MV_SUBPEL_LOW_PRECISION
        }
    }

    // What the vector of a list is coded against: the candidate that the mode takes.
    fn reference_vector(&self, list: usize) -> MotionVector
        ensures { result ≡ reference_vector list (tile_of self.now) }
    {
        let taken = self.candidate_at(self.pick);
        if list == 0 {
            taken.this_mv
        } else {
            taken.comp_mv
        }
    }

    // Whether the vector of a list of a block is coded.
    fn codes_list(&self, b: (TileBlockOffset, BlockSize), list: usize) -> bool
        requires { (tile_of self.now).current ≡ Some b }
        ensures { let t = tile_of self.now in result ≡ (is_some t.cands && is_coded_list list (mode_at t b)) }
    {
        self.cands.is_some() && is_coded_list(list, self.mode_at(b))
    }

    // The first rule that a vector of a list that is coded breaks.
    fn check_vector(&self, list: usize, mv: MotionVector) -> Option<Rule>
        ensures { let t = tile_of self.now in result ≡ first_broken (vector_rules (precision_of t.given.fi) (reference_vector list t) mv) }
    {
        let ref_mv = self.reference_vector(list);
        if !(is_valid(mv) && is_near(mv, ref_mv)) {
            return Some(Rule(81));
        }
        if is_whole(mv, ref_mv, self.precision()) {
            None
        } else {
            Some(Rule(82))
        }
    }

    // The first rule that a vector breaks.
    pub(crate) fn check_mv(&self, list: usize, mv: MotionVector) -> Option<Rule>
        ensures { result ≡ first_broken (rules (Mv list mv) (tile_of self.now)) }
    {
        let Some(b) = self.current else {
            return Some(Rule(64));
        };
        if self.unit.fi.intra_only {
            return Some(Rule(65));
        }
        if self.is_intra(b) {
            return Some(Rule(66));
        }
        if self.codes_list(b, list) {
            self.check_vector(list, mv)
        } else {
            Some(Rule(81))
        }
    }

    // Codes a vector of the current block.
    pub(crate) fn write_mv<W: Writer>(
        &mut self,
        w: &mut W,
        list: usize,
        mv: MotionVector,
    ) -> Result<(), OutOfMemory>
        requires rules { first_broken (rules (Mv list mv) (tile_of self.old)) ≡ None }
        requires early { (W.position w.old).shift ≤ 2 ^ 28 }
        ensures { Writes W.Known result (Mv list mv) w.old w.new self.old self.new }
    {
        let (bo, size) = self.current.unwrap();
        let ref_mv = self.reference_vector(list);
        let precision = self.precision();
        let mut mvs = self.standing_at((bo, size)).mv;
        self.cw.write_mv(w, mv, ref_mv, precision)?;
        mvs[list] = mv;
        self.cw.bc.blocks.set_motion_vectors(bo, size, mvs);
        Ok(())
    }
}

// Whether a mode has a new vector of a list.
fn is_coded_list(list: usize, mode: PredictionMode) -> bool
    ensures { result ≡ is_coded_list list mode }
{
    match list {
        0 => codes_first(mode),
        1 => codes_second(mode),
        _ => false,
    }
}

// Whether a mode has a new vector of the first list.
fn codes_first(mode: PredictionMode) -> bool
    ensures { result ≡ is_among codes_first mode }
{
    matches!(
        mode,
        PredictionMode::NEWMV
            | PredictionMode::NEW_NEARESTMV
            | PredictionMode::NEW_NEAR0MV
            | PredictionMode::NEW_NEAR1MV
            | PredictionMode::NEW_NEAR2MV
            | PredictionMode::NEW_NEWMV
    )
}

// Whether a mode has a new vector of the second list.
fn codes_second(mode: PredictionMode) -> bool
    ensures { result ≡ is_among codes_second mode }
{
    matches!(
        mode,
        PredictionMode::NEAREST_NEWMV
            | PredictionMode::NEAR_NEW0MV
            | PredictionMode::NEAR_NEW1MV
            | PredictionMode::NEAR_NEW2MV
            | PredictionMode::NEW_NEWMV
    )
}

// Whether both parts of a vector lie between the bounds.
fn is_valid(mv: MotionVector) -> bool
    ensures { result ≡ is_valid mv }
{
    mv.is_valid()
}

// How far a part of a vector is from that of a reference vector.
fn distance(part: i16, reference: i16) -> u32
    ensures { result ≡ magnitude (part -ℤ reference) }
{
    (i32::from(part) - i32::from(reference)).unsigned_abs()
}

// Whether a vector is near enough to a reference vector.
fn is_near(mv: MotionVector, ref_mv: MotionVector) -> bool
    ensures { result ≡ is_small (difference mv ref_mv) }
{
    distance(mv.row, ref_mv.row) <= MOST && distance(mv.col, ref_mv.col) <= MOST
}

// The unit of a precision, in eighths of a sample.
fn unit_of(precision: MvSubpelPrecision) -> u32
    ensures value { result ≡ unit_of precision }
    ensures some { 1 ≤ result }
{
    match precision {
        MvSubpelPrecision::MV_SUBPEL_NONE => 8,
        MvSubpelPrecision::MV_SUBPEL_LOW_PRECISION => 2,
        MvSubpelPrecision::MV_SUBPEL_HIGH_PRECISION => 1,
    }
}

// Whether a vector differs by whole units from a reference vector.
fn is_whole(mv: MotionVector, ref_mv: MotionVector, precision: MvSubpelPrecision) -> bool
    ensures { result ≡ is_whole precision (difference mv ref_mv) }
{
    let unit = unit_of(precision);
    distance(mv.row, ref_mv.row) % unit == 0 && distance(mv.col, ref_mv.col) % unit == 0
}
