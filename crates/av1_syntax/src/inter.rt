// Inter blocks: whether a block is one, its mode, the choice among candidates, and where its candidates come from.
ghost use Rattle.std.specs.Prelude.{◌≡◌, ℕ, ◌+◌, ◌-◌, ◌*◌, ◌/◌, ◌%◌, ◌^◌, ◌<◌, ◌≤◌, [], IsTrue, slice_index_or};
ghost use Rattle.av1_blocks.specs.Grid.{IsInside};
ghost use Rattle.av1_blocks.specs.Sound.{IsReady};
ghost use Rattle.av1_cdf.specs.Context.{AreCdfs};
ghost use Rattle.av1_geometry.specs.RefType.{reference_number};
ghost use Rattle.av1_geometry.specs.declared.ref_type.RefType.TheVariants.{NONE_FRAME};
ghost use Rattle.av1_mvref.specs.Conditions.{IsAligned, IsReference};
ghost use Rattle.av1_mvref.specs.ExtraSearch.{candidates};
ghost use Rattle.av1_syntax.specs.InterModes.{new_context, zero_context, ref_context, is_among, inter_modes, compound_modes, compound_number, compound_context};

use crate::context_writer::ContextWriter;
use arrayvec::ArrayVec;
use av1_cdf::CDFContext;
use av1_ec::Writer;
use av1_geometry::{BlockSize, OutOfMemory, PredictionMode, RefType, TileBlockOffset};
use av1_mvref::{CandidateMV, find_mvrefs};

/// The symbols of the compound modes in their order: those that differ by the candidate alone have one.
static COMPOUND_SYMBOLS: [u8; 14] = [0, 1, 1, 1, 2, 3, 4, 4, 4, 5, 5, 5, 6, 7];

impl ContextWriter {
    ghost use Rattle.av1_syntax.specs.Calls.{Coded, Moved};
    ghost use Rattle.av1_syntax.specs.InterModes.{is_inter_element, drl_mode_element, inter_mode_element, compound_mode_element};

    /// Codes whether a block is predicted from other frames, by how the blocks above and to the left are (`is_inter` of the AV1
    /// specification).
    pub fn write_is_inter<W: Writer>(
        &mut self,
        w: &mut W,
        bo: TileBlockOffset,
        is_inter: bool,
    ) -> Result<(), OutOfMemory>
        requires inside { IsInside self.old.bc.blocks bo.0 }
        requires cdfs { AreCdfs self.old.fc }
        requires early { (W.position w.old).shift ≤ 2 ^ 28 }
        ensures wrote { Coded W.Known result (is_inter_element self.old.bc.blocks bo.0) is_inter w.old w.new self.old self.new }
        ensures moves { Moved W.Known 13 w.old w.new self.old self.new }
        ensures rest { self.new.bc ≡ self.old.bc }
    {
        let cdf = CDFContext::intra_inter_cdfs(self.bc.intra_inter_context(bo));
        self.flag(w, is_inter, cdf)
    }

    /// Codes the mode of a block with one reference: `NEARESTMV`, `NEAR0MV`, `GLOBALMV` or `NEWMV`. `ctx` is the context that
    /// `find_mvrefs` answers, which holds three: for a new vector, for the one of the whole frame, and for the candidates
    /// (`new_mv`, `zero_mv` and `ref_mv` of the AV1 specification).
    pub fn write_inter_mode<W: Writer>(
        &mut self,
        w: &mut W,
        mode: PredictionMode,
        ctx: usize,
    ) -> Result<(), OutOfMemory>
        requires mode { IsTrue (is_among inter_modes mode) }
        requires new_context { new_context ctx ≤ 5 }
        requires ref_context { ref_context ctx ≤ 5 }
        requires cdfs { AreCdfs self.old.fc }
        requires early { (W.position w.old).shift ≤ 2 ^ 28 }
        ensures wrote { Coded W.Known result (inter_mode_element ctx) mode w.old w.new self.old self.new }
        ensures moves { Moved W.Known 39 w.old w.new self.old self.new }
        ensures rest { self.new.bc ≡ self.old.bc }
    {
        let other = mode.number() != PredictionMode::NEWMV.number();
        self.flag(w, other, CDFContext::newmv_cdf(new_context(ctx)))?;
        if !other {
            return Ok(());
        }
        let other = mode.number() != PredictionMode::GLOBALMV.number();
        self.flag(w, other, CDFContext::zeromv_cdf(zero_context(ctx)))?;
        if !other {
            return Ok(());
        }
        let other = mode.number() != PredictionMode::NEARESTMV.number();
        self.flag(w, other, CDFContext::refmv_cdf(ref_context(ctx)))
    }

    /// Codes the mode of a block with two references: one of the eight that take the first candidate of their kind. `ctx` is
    /// the context that `find_mvrefs` answers (`compound_mode` of the AV1 specification).
    pub fn write_compound_mode<W: Writer>(
        &mut self,
        w: &mut W,
        mode: PredictionMode,
        ctx: usize,
    ) -> Result<(), OutOfMemory>
        requires mode { IsTrue (is_among compound_modes mode) }
        requires cdfs { AreCdfs self.old.fc }
        requires early { (W.position w.old).shift ≤ 2 ^ 28 }
        ensures wrote { Coded W.Known result (compound_mode_element ctx) mode w.old w.new self.old self.new }
        ensures moves { Moved W.Known 13 w.old w.new self.old self.new }
        ensures rest { self.new.bc ≡ self.old.bc }
    {
        let cdf = CDFContext::compound_mode_cdf(compound_context(ctx));
        self.symbol(w, compound_symbol(mode), cdf)
    }

    /// Codes whether a later candidate is taken. `ctx` is what `drl_ctx` answers, 0 to 2 (`drl_mode` of the AV1 specification).
    pub fn write_drl_mode<W: Writer>(
        &mut self,
        w: &mut W,
        drl_mode: bool,
        ctx: usize,
    ) -> Result<(), OutOfMemory>
        requires ctx { ctx ≤ 2 }
        requires cdfs { AreCdfs self.old.fc }
        requires early { (W.position w.old).shift ≤ 2 ^ 28 }
        ensures wrote { Coded W.Known result (drl_mode_element ctx) drl_mode w.old w.new self.old self.new }
        ensures moves { Moved W.Known 13 w.old w.new self.old self.new }
        ensures rest { self.new.bc ≡ self.old.bc }
    {
        self.flag(w, drl_mode, CDFContext::drl_cdfs(ctx))
    }

    /// Finds the candidates for the vectors of a block of this tile, by falling weight, and the context of its mode: as
    /// `av1_mvref::find_mvrefs`, which says what each argument is. The list is empty before.
    pub fn find_mvrefs(
        &self,
        bo: TileBlockOffset,
        ref_frames: [RefType; 2],
        mv_stack: &mut ArrayVec<CandidateMV, 9>,
        bsize: BlockSize,
        sign_bias: &[bool; 7],
        has_tr: bool,
        is_compound: bool,
    ) -> usize
        requires inside { IsInside self.now.bc.blocks bo.0 }
        requires ready { IsReady self.now.bc.blocks }
        requires aligned { IsAligned bo.0 bsize }
        requires empty { mv_stack.old.items ≡ [] }
        requires first { reference_number (slice_index_or ref_frames 0 NONE_FRAME) ≤ 7 }
        requires pair { IsTrue is_compound → IsReference (slice_index_or ref_frames 0 NONE_FRAME) × IsReference (slice_index_or ref_frames 1 NONE_FRAME) }
        ensures list { mv_stack.new.items ≡ (candidates self.now.bc.blocks bo.0 bsize ref_frames is_compound has_tr sign_bias.now).list }
        ensures context { result ≡ (candidates self.now.bc.blocks bo.0 bsize ref_frames is_compound has_tr sign_bias.now).context }
        ensures low { result % 16 ≤ 5 }
        ensures high { result / 16 ≤ 5 }
    {
        let blocks = self.bc.blocks.as_const();
        find_mvrefs(
            &blocks,
            bo,
            ref_frames,
            mv_stack,
            bsize,
            sign_bias,
            has_tr,
            is_compound,
        )
    }
}

// The context of a new vector.
fn new_context(ctx: usize) -> usize
    ensures { result ≡ new_context ctx }
{
    ctx % 8
}

// The context of the vector of the whole frame.
fn zero_context(ctx: usize) -> usize
    ensures { result ≡ zero_context ctx }
{
    ctx / 8 % 2
}

// The context of the candidates.
fn ref_context(ctx: usize) -> usize
    ensures { result ≡ ref_context ctx }
{
    ctx / 16 % 16
}

// The context of a compound mode.
fn compound_context(ctx: usize) -> usize
    ensures value { result ≡ compound_context ctx }
    ensures few { result < 8 }
{
    let new = new_context(ctx);
    let of_ref = ref_context(ctx);
    if of_ref < 2 {
        new.min(1)
    } else if of_ref < 4 {
        (new + 1).min(4)
    } else {
        (new.max(1) + 3).min(7)
    }
}

// The symbol of a compound mode.
fn compound_symbol(mode: PredictionMode) -> u32
    requires { IsTrue (is_among compound_modes mode) }
    ensures value { result ≡ compound_number mode }
    ensures few { result < 8 }
{
    u32::from(COMPOUND_SYMBOLS[mode.number() - PredictionMode::NEAREST_NEARESTMV.number()])
}
