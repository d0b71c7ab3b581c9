// The steps that say the mode of an inter block, and which candidate it takes.
ghost use Rattle.std.specs.Prelude.{◌≡◌, ◌^◌, ◌≤◌, Some, None, if◌then◌else◌};
ghost use Rattle.av1_blocks.specs.Grid.{IsInside, over};
ghost use Rattle.av1_mvref.specs.Candidates.{no_vector};
ghost use Rattle.av1_syntax.specs.InterModes.{compound_modes, inter_modes, is_among};
ghost use Rattle.av1_step.specs.Kept.{candidate_at};
ghost use Rattle.av1_step.specs.Listed.{is_compound, listed, listed_context};
ghost use Rattle.av1_step.specs.ModeSteps.{first_pick, is_global, is_near, is_new, is_pair_mode, may_pick_after, near_group, variant, vectors_of};

use crate::tile::TileState;
use av1_blocks::TileBlocksMut;
use av1_ec::Writer;
use av1_geometry::{BlockSize, MotionVector, OutOfMemory, PredictionMode, Rule, TileBlockOffset};
use av1_mvref::{CandidateMV, drl_ctx};

impl<'u> TileState<'u> {
    ghost use Rattle.av1_geometry.specs.Rules.{first_broken};
    ghost use Rattle.av1_step.specs.declared.step.TileStep.TheVariants.{CompoundMode, Drl, InterMode};
    ghost use Rattle.av1_step.specs.State.{tile_of};
    ghost use Rattle.av1_step.specs.Step.{rules};
    ghost use Rattle.av1_step.specs.Writing.{Writes};

    // Whether a block has two references.
    fn is_compound(&self, b: (TileBlockOffset, BlockSize)) -> bool
        requires { (tile_of self.now).current ≡ Some b }
        ensures { result ≡ is_compound (tile_of self.now) b }
    {
        let (bo, _) = b;
        self.cw.bc.blocks[bo].has_second_ref()
    }

    // The candidates that were found: none where there are none.
    fn listed(&self) -> &[CandidateMV]
        ensures { result.now ≡ listed (tile_of self.now) }
    {
        match &self.cands {
            Some((list, _)) => list.as_slice(),
            None => &[],
        }
    }

    // The context of the mode.
    fn listed_context(&self) -> usize
        ensures { result ≡ listed_context (tile_of self.now) }
    {
        match &self.cands {
            Some((_, context)) => *context,
            None => 0,
        }
    }

    // One of the candidates; there is no vector past the last.
    pub(crate) fn candidate_at(&self, i: usize) -> CandidateMV
        ensures { result ≡ candidate_at (listed (tile_of self.now)) i }
    {
        let list = self.listed();
        if i < list.len() {
            list[i]
        } else {
            no_candidate()
        }
    }

    // The vectors of a mode that takes this candidate, one for each list.
    fn vectors_of(&self, mode: PredictionMode, pick: usize) -> [MotionVector; 2]
        ensures { result ≡ vectors_of (listed (tile_of self.now)) mode pick }
    {
        let candidate = self.candidate_at(pick);
        [
            vector_or_none(candidate.this_mv, !is_global(mode)),
            vector_or_none(candidate.comp_mv, is_pair_mode(mode) && !is_global(mode)),
        ]
    }

    // The first rule that the mode of a block with one reference breaks.
    pub(crate) fn check_inter_mode(&self, mode: PredictionMode) -> Option<Rule>
        ensures { result ≡ first_broken (rules (InterMode mode) (tile_of self.now)) }
    {
        let Some(b) = self.current else {
            return Some(Rule(64));
        };
        if self.unit.fi.intra_only {
            return Some(Rule(65));
        }
        if self.is_intra(b) {
            return Some(Rule(66));
        }
        if self.cands.is_some() && !self.is_compound(b) && is_inter_mode(mode) {
            None
        } else {
            Some(Rule(79))
        }
    }

    // Codes the mode of the current block, which has one reference.
    pub(crate) fn write_inter_mode<W: Writer>(
        &mut self,
        w: &mut W,
        mode: PredictionMode,
    ) -> Result<(), OutOfMemory>
        requires rules { first_broken (rules (InterMode mode) (tile_of self.old)) ≡ None }
        requires early { (W.position w.old).shift ≤ 2 ^ 28 }
        ensures { Writes W.Known result (InterMode mode) w.old w.new self.old self.new }
    {
        let (bo, size) = self.current.unwrap();
        let pick = first_pick(mode);
        let mvs = self.vectors_of(mode, pick);
        let ctx = self.listed_context();
        self.cw.write_inter_mode(w, mode, ctx)?;
        enter_mode(&mut self.cw.bc.blocks, bo, size, mode, mvs);
        self.pick = pick;
        Ok(())
    }

    // The first rule that the mode of a block with two references breaks.
    pub(crate) fn check_compound_mode(&self, mode: PredictionMode) -> Option<Rule>
        ensures { result ≡ first_broken (rules (CompoundMode mode) (tile_of self.now)) }
    {
        let Some(b) = self.current else {
            return Some(Rule(64));
        };
        if self.unit.fi.intra_only {
            return Some(Rule(65));
        }
        if self.is_intra(b) {
            return Some(Rule(66));
        }
        if self.cands.is_some() && self.is_compound(b) && is_compound_mode(mode) {
            None
        } else {
            Some(Rule(79))
        }
    }

    // Codes the mode of the current block, which has two references.
    pub(crate) fn write_compound_mode<W: Writer>(
        &mut self,
        w: &mut W,
        mode: PredictionMode,
    ) -> Result<(), OutOfMemory>
        requires rules { first_broken (rules (CompoundMode mode) (tile_of self.old)) ≡ None }
        requires early { (W.position w.old).shift ≤ 2 ^ 28 }
        ensures { Writes W.Known result (CompoundMode mode) w.old w.new self.old self.new }
    {
        let (bo, size) = self.current.unwrap();
        let pick = first_pick(mode);
        let mvs = self.vectors_of(mode, pick);
        let ctx = self.listed_context();
        self.cw.write_compound_mode(w, mode, ctx)?;
        enter_mode(&mut self.cw.bc.blocks, bo, size, mode, mvs);
        self.pick = pick;
        Ok(())
    }

    // The first rule that the choice of a later candidate than number `index` breaks.
    pub(crate) fn check_drl(&self, index: usize, later: bool) -> Option<Rule>
        ensures { result ≡ first_broken (rules (Drl index later) (tile_of self.now)) }
    {
        let Some(b) = self.current else {
            return Some(Rule(64));
        };
        if self.unit.fi.intra_only {
            return Some(Rule(65));
        }
        if self.is_intra(b) {
            return Some(Rule(66));
        }
        let last = self.listed().len().saturating_sub(1);
        if index < last && may_pick_after(index, self.mode_at(b)) {
            None
        } else {
            Some(Rule(80))
        }
    }

    // Codes whether the current block takes a later candidate than number `index`.
    pub(crate) fn write_drl<W: Writer>(
        &mut self,
        w: &mut W,
        index: usize,
        later: bool,
    ) -> Result<(), OutOfMemory>
        requires rules { first_broken (rules (Drl index later) (tile_of self.old)) ≡ None }
        requires early { (W.position w.old).shift ≤ 2 ^ 28 }
        ensures { Writes W.Known result (Drl index later) w.old w.new self.old self.new }
    {
        let b = self.current.unwrap();
        let before = self.mode_at(b);
        let mode = variant(index, before);
        let pick = index + 1;
        let mvs = self.vectors_of(mode, pick);
        let ctx = drl_ctx(self.listed(), index);
        self.cw.write_drl_mode(w, later, ctx)?;
        if later {
            enter_mode(&mut self.cw.bc.blocks, b.0, b.1, mode, mvs);
            self.pick = pick;
        }
        Ok(())
    }
}

// A block gets a mode, and the vectors that it takes.
fn enter_mode(
    blocks: &mut TileBlocksMut,
    bo: TileBlockOffset,
    size: BlockSize,
    mode: PredictionMode,
    mvs: [MotionVector; 2],
)
    requires { IsInside blocks.old bo.0 }
    ensures { blocks.new ≡ over bo.0 size (λ x. record x { mode = mode; mv = mvs }) blocks.old }
{
    blocks.set_mode(bo, size, mode);
    blocks.set_motion_vectors(bo, size, mvs);
}

// What stands for a candidate past the last.
fn no_candidate() -> CandidateMV
    ensures { result ≡ record { this_mv = no_vector; comp_mv = no_vector; weight = 0 } }
{
    CandidateMV {
        this_mv: MotionVector { row: 0, col: 0 },
        comp_mv: MotionVector { row: 0, col: 0 },
        weight: 0,
    }
}

// A vector where it is taken, else none.
fn vector_or_none(mv: MotionVector, taken: bool) -> MotionVector
    ensures { result ≡ (if taken then mv else no_vector) }
{
    if taken {
        mv
    } else {
        MotionVector { row: 0, col: 0 }
    }
}

// Whether a mode is one that is coded of a block with one reference.
fn is_inter_mode(mode: PredictionMode) -> bool
    ensures { result ≡ is_among inter_modes mode }
{
    matches!(
        mode,
        PredictionMode::NEWMV
            | PredictionMode::GLOBALMV
            | PredictionMode::NEARESTMV
            | PredictionMode::NEAR0MV
    )
}

// Whether a mode is one that is coded of a block with two references.
fn is_compound_mode(mode: PredictionMode) -> bool
    ensures { result ≡ is_among compound_modes mode }
{
    matches!(
        mode,
        PredictionMode::NEAREST_NEARESTMV
            | PredictionMode::NEAR_NEAR0MV
            | PredictionMode::NEAREST_NEWMV
            | PredictionMode::NEW_NEARESTMV
            | PredictionMode::NEAR_NEW0MV
            | PredictionMode::NEW_NEAR0MV
            | PredictionMode::GLOBAL_GLOBALMV
            | PredictionMode::NEW_NEWMV
    )
}

// Whether a mode takes the vectors of the whole frame, which are zero.
fn is_global(mode: PredictionMode) -> bool
    ensures { result ≡ is_global mode }
{
    matches!(
        mode,
        PredictionMode::GLOBALMV | PredictionMode::GLOBAL_GLOBALMV
    )
}

// Whether all vectors of a mode are new.
fn is_new(mode: PredictionMode) -> bool
    ensures { result ≡ is_new mode }
{
    matches!(mode, PredictionMode::NEWMV | PredictionMode::NEW_NEWMV)
}

// Whether a mode is one of two references.
fn is_pair_mode(mode: PredictionMode) -> bool
    ensures { result ≡ is_pair_mode mode }
{
    mode.number() >= 20
}

// The near modes that differ from a mode by the candidate alone, if it is one.
fn near_group(mode: PredictionMode) -> Option<[PredictionMode; 3]>
    ensures { result ≡ near_group mode }
{
    match mode {
        PredictionMode::NEAR0MV | PredictionMode::NEAR1MV | PredictionMode::NEAR2MV => Some([
            PredictionMode::NEAR0MV,
            PredictionMode::NEAR1MV,
            PredictionMode::NEAR2MV,
        ]),
        PredictionMode::NEAR_NEAR0MV
        | PredictionMode::NEAR_NEAR1MV
        | PredictionMode::NEAR_NEAR2MV => Some([
            PredictionMode::NEAR_NEAR0MV,
            PredictionMode::NEAR_NEAR1MV,
            PredictionMode::NEAR_NEAR2MV,
        ]),
        PredictionMode::NEAR_NEW0MV | PredictionMode::NEAR_NEW1MV | PredictionMode::NEAR_NEW2MV =>
            Some([
                PredictionMode::NEAR_NEW0MV,
                PredictionMode::NEAR_NEW1MV,
                PredictionMode::NEAR_NEW2MV,
            ]),
        PredictionMode::NEW_NEAR0MV | PredictionMode::NEW_NEAR1MV | PredictionMode::NEW_NEAR2MV =>
            Some([
                PredictionMode::NEW_NEAR0MV,
                PredictionMode::NEW_NEAR1MV,
                PredictionMode::NEW_NEAR2MV,
            ]),
        _ => None,
    }
}

// Whether a mode has NEAR in its name.
fn is_near(mode: PredictionMode) -> bool
    ensures { result ≡ is_near mode }
{
    near_group(mode).is_some()
}

// Which candidate a mode begins with.
fn first_pick(mode: PredictionMode) -> usize
    ensures { result ≡ first_pick mode }
{
    if is_near(mode) { 1 } else { 0 }
}

// Whether a mode may take a later candidate than number `index`.
fn may_pick_after(index: usize, mode: PredictionMode) -> bool
    ensures { result ≡ may_pick_after index mode }
{
    (is_new(mode) && index <= 1) || (is_near(mode) && 1 <= index && index <= 2)
}

// The variant of a mode that takes candidate number `index + 1`.
fn variant(index: usize, mode: PredictionMode) -> PredictionMode
    ensures { result ≡ variant index mode }
{
    match near_group(mode) {
        Some(group) if index < 3 => group[index],
        _ => mode,
    }
}
