// The steps that say whether a block is predicted from other frames, and from which.
ghost use Rattle.std.specs.Prelude.{◌≡◌, ◌^◌, ◌≤◌, ◌∷◌, [], Some, None};
ghost use Rattle.av1_blocks.specs.Grid.{IsInside, block_at, over};
ghost use Rattle.av1_blocks.specs.Sound.{IsReady};
ghost use Rattle.av1_cdf.specs.Context.{AreCdfs};
ghost use Rattle.av1_geometry.specs.declared.block_size.BlockSize.TheVariants.{BLOCK_4X4};
ghost use Rattle.av1_mvref.specs.References.{counts};
ghost use Rattle.av1_syntax.specs.Calls.{Coded, Moved};
ghost use Rattle.av1_syntax.specs.RefFrames.{may_be_pair, ref_frames_element, AreRefFrames};
ghost use Rattle.av1_step.specs.DeltaSteps.{IsWhole};
ghost use Rattle.av1_step.specs.InterSteps.{are_references, first_mode, first_refs, is_one, is_two, mode_of_refs};

use crate::tile::TileState;
use av1_blocks::{Block, TileBlocksMut};
use av1_ec::Writer;
use av1_geometry::{
    BlockSize, OutOfMemory, PredictionMode, RefType, ReferenceMode, Rule, TileBlockOffset,
};
use av1_mvref::ref_counts;
use av1_syntax::ContextWriter;

impl<'u> TileState<'u> {
    ghost use Rattle.av1_geometry.specs.Rules.{first_broken};
    ghost use Rattle.av1_step.specs.declared.step.TileStep.TheVariants.{IsInter, RefFrames};
    ghost use Rattle.av1_step.specs.State.{tile_of};
    ghost use Rattle.av1_step.specs.Step.{rules};
    ghost use Rattle.av1_step.specs.Tile.{grid_block};
    ghost use Rattle.av1_step.specs.Writing.{Writes};

    // The first rule that it breaks to say whether the current block is predicted from other frames.
    pub(crate) fn check_is_inter(&self, is_inter: bool) -> Option<Rule>
        ensures { result ≡ first_broken (rules (IsInter is_inter) (tile_of self.now)) }
    {
        if self.current.is_none() {
            return Some(Rule(64));
        }
        if self.unit.fi.intra_only {
            Some(Rule(65))
        } else {
            None
        }
    }

    // Codes whether the current block is predicted from other frames.
    pub(crate) fn write_is_inter<W: Writer>(
        &mut self,
        w: &mut W,
        is_inter: bool,
    ) -> Result<(), OutOfMemory>
        requires rules { first_broken (rules (IsInter is_inter) (tile_of self.old)) ≡ None }
        requires early { (W.position w.old).shift ≤ 2 ^ 28 }
        ensures { Writes W.Known result (IsInter is_inter) w.old w.new self.old self.new }
    {
        let (bo, size) = self.current.unwrap();
        self.cw.write_is_inter(w, bo, is_inter)?;
        enter_refs(
            &mut self.cw.bc.blocks,
            bo,
            size,
            first_refs(is_inter),
            first_mode(is_inter),
        );
        self.cands = None;
        Ok(())
    }

    // The first rule that references break.
    pub(crate) fn check_ref_frames(&self, refs: (RefType, RefType)) -> Option<Rule>
        ensures { result ≡ first_broken (rules (RefFrames refs) (tile_of self.now)) }
    {
        let Some(b) = self.current else {
            return Some(Rule(64));
        };
        if self.unit.fi.intra_only {
            return Some(Rule(65));
        }
        if self.is_intra(b) {
            return Some(Rule(66));
        }
        if self.are_references(b, refs) {
            None
        } else {
            Some(Rule(77))
        }
    }

    // Whether the current block may have references.
    fn are_references(&self, b: (TileBlockOffset, BlockSize), refs: (RefType, RefType)) -> bool
        requires { (tile_of self.now).current ≡ Some b }
        ensures { let t = tile_of self.now in result ≡ are_references t.given.fi.reference_mode (grid_block t b) refs }
    {
        let block = self.standing_at(b);
        is_one(refs) || (is_two(refs) && may_be_pair(self.unit.fi.reference_mode, &block))
    }

    // Codes which frames the current block is predicted from.
    pub(crate) fn write_ref_frames<W: Writer>(
        &mut self,
        w: &mut W,
        refs: (RefType, RefType),
    ) -> Result<(), OutOfMemory>
        requires rules { first_broken (rules (RefFrames refs) (tile_of self.old)) ≡ None }
        requires early { (W.position w.old).shift ≤ 2 ^ 28 }
        ensures { Writes W.Known result (RefFrames refs) w.old w.new self.old self.new }
    {
        let (bo, size) = self.current.unwrap();
        code_ref_frames(&mut self.cw, w, bo, refs, self.unit.fi.reference_mode)?;
        note_counts(&mut self.cw.bc.blocks, bo);
        enter_refs(&mut self.cw.bc.blocks, bo, size, refs, mode_of_refs(refs));
        self.cands = None; // those that were found are of other references
        Ok(())
    }
}

// What a block refers to before its references are known.
fn first_refs(is_inter: bool) -> (RefType, RefType)
    ensures { result ≡ first_refs is_inter }
{
    if is_inter {
        (RefType::LAST_FRAME, RefType::NONE_FRAME)
    } else {
        (RefType::INTRA_FRAME, RefType::NONE_FRAME)
    }
}

// The mode that a block begins with.
fn first_mode(is_inter: bool) -> PredictionMode
    ensures { result ≡ first_mode is_inter }
{
    if is_inter {
        PredictionMode::NEARESTMV
    } else {
        PredictionMode::DC_PRED
    }
}

// The mode that references begin with.
fn mode_of_refs(refs: (RefType, RefType)) -> PredictionMode
    ensures { result ≡ mode_of_refs refs }
{
    if is_two(refs) {
        PredictionMode::NEAREST_NEARESTMV
    } else {
        PredictionMode::NEARESTMV
    }
}

// Whether it is one of the seven references alone.
fn is_one(refs: (RefType, RefType)) -> bool
    ensures { result ≡ is_one refs }
{
    let (first, second) = (refs.0.number(), refs.1.number());
    1 <= first && first <= 7 && second == 8
}

// Whether it is one reference behind and one ahead.
fn is_two(refs: (RefType, RefType)) -> bool
    ensures { result ≡ is_two refs }
{
    let (first, second) = (refs.0.number(), refs.1.number());
    1 <= first && first <= 4 && 5 <= second && second <= 7
}

// Whether a block may have two references.
fn may_be_pair(reference_mode: ReferenceMode, block: &Block) -> bool
    ensures { result ≡ may_be_pair reference_mode block.now }
{
    let several = reference_mode.number() != ReferenceMode::SINGLE.number();
    several && block.n4_w.min(block.n4_h) >= 2
}

// Enters references and a mode over a block.
fn enter_refs(
    blocks: &mut TileBlocksMut,
    bo: TileBlockOffset,
    size: BlockSize,
    refs: (RefType, RefType),
    mode: PredictionMode,
)
    requires { IsInside blocks.old bo.0 }
    ensures { blocks.new ≡ over bo.0 size (λ x. record x { ref_frames = refs.0 ∷ refs.1 ∷ []; mode = mode }) blocks.old }
{
    blocks.set_ref_frames(bo, size, [refs.0, refs.1]);
    blocks.set_mode(bo, size, mode);
}

// Notes in the block at a place how often its neighbours refer to each reference.
fn note_counts(blocks: &mut TileBlocksMut, bo: TileBlockOffset)
    requires { IsInside blocks.old bo.0 }
    ensures { blocks.new ≡ over bo.0 BLOCK_4X4 (λ x. record x { neighbors_ref_counts = counts blocks.old bo.0 }) blocks.old }
{
    let counts = ref_counts(&blocks.as_const(), bo);
    blocks.set_neighbors_ref_counts(bo, BlockSize::BLOCK_4X4, counts);
}

// Codes references as those of the block at a place. The grid stays as it is.
fn code_ref_frames<W: Writer>(
    cw: &mut ContextWriter,
    w: &mut W,
    bo: TileBlockOffset,
    refs: (RefType, RefType),
    reference_mode: ReferenceMode,
) -> Result<(), OutOfMemory>
    requires inside { IsInside cw.old.bc.blocks bo.0 }
    requires whole { IsWhole cw.old.bc.blocks }
    requires ready { IsReady cw.old.bc.blocks }
    requires refs { AreRefFrames (may_be_pair reference_mode (block_at cw.old.bc.blocks bo.0.x bo.0.y)) refs }
    requires cdfs { AreCdfs cw.old.fc }
    requires early { (W.position w.old).shift ≤ 2 ^ 28 }
    ensures wrote { Coded W.Known result (ref_frames_element cw.old.bc.blocks bo.0 reference_mode) refs w.old w.new cw.old cw.new }
    ensures moves { Moved W.Known 78 w.old w.new cw.old cw.new }
    ensures rest { cw.new.bc ≡ cw.old.bc }
{
    let before = *cw.bc.blocks.at(bo);
    let mut block = before;
    block.ref_frames = [refs.0, refs.1];
    block.neighbors_ref_counts = ref_counts(&cw.bc.blocks.as_const(), bo);
    cw.bc.blocks.set_block(bo, BlockSize::BLOCK_4X4, block);
    let coded = cw.write_ref_frames(w, reference_mode, bo);
    cw.bc.blocks.set_block(bo, BlockSize::BLOCK_4X4, before);
    coded
}
