// What a block refers to, and the contexts of that, which rav1e codes in `frame_header.rs`.
ghost use Rattle.std.specs.Prelude.{◌≡◌, ℕ, ◌+◌, ◌^◌, ◌<◌, ◌≤◌, true};
ghost use Rattle.av1_blocks.specs.Grid.{IsInside, block_at};
ghost use Rattle.av1_blocks.specs.Sound.{IsReady};
ghost use Rattle.av1_cdf.specs.Context.{AreCdfs};
ghost use Rattle.av1_cdf.specs.Slots.{slot_of};
ghost use Rattle.av1_geometry.specs.RefType.{reference_number};
ghost use Rattle.av1_mvref.specs.References.{counts, by_counts, kept_count, kept_behind, kept_ahead};
ghost use Rattle.av1_mvref.specs.References.{comp_mode_context, comp_ref_type_context, refs_above, refs_left};
ghost use Rattle.av1_syntax.specs.RefFrames.{may_be_pair, is_second, refs_of, ref_frames_at, AreRefFrames, AreContexts, contexts_at, with_counts};

use crate::context_writer::ContextWriter;
use av1_blocks::Block;
use av1_cdf::{CDFContext, CDFOffset};
use av1_ec::Writer;
use av1_geometry::{BlockSize, OutOfMemory, RefType, ReferenceMode, TileBlockOffset};

// The contexts of a block's references, 0 to 2.
#[derive(Clone, Copy)]
pub(crate) struct RefContexts {
    // Between the four references behind and the three ahead in display order.
    pub side: usize,
    // Between the earlier two behind and the later two, and within each of these pairs.
    pub behind: usize,
    pub early: usize,
    pub late: usize,
    // Between the first two ahead and the last one, and within the first two.
    pub ahead: usize,
    pub near: usize,
}

impl ContextWriter {
    ghost use Rattle.av1_syntax.specs.Calls.{Coded, Moved};
    ghost use Rattle.av1_syntax.specs.RefFrames.{RefFramesCoded, among_element, single_element, two_element, pair_element, behind, ahead};

    /// Notes in the block at a place how often the blocks above and to the left refer to each of the seven references.
    pub fn fill_neighbours_ref_counts(&mut self, bo: TileBlockOffset)
        requires { IsInside self.old.bc.blocks bo.0 }
        ensures counts { self.new.bc ≡ with_counts bo.0 self.old.bc }
        ensures fc { self.new.fc ≡ self.old.fc }
        ensures log { self.new.fc_log ≡ self.old.fc_log }
        ensures switches { (self.new.adapt ≡ self.old.adapt) × (self.new.eob_by_coded ≡ self.old.eob_by_coded) }
    {
        let mut block = *self.bc.blocks.at(bo);
        block.neighbors_ref_counts = av1_mvref::ref_counts(&self.bc.blocks.as_const(), bo);
        self.bc.blocks.set_block(bo, BlockSize::BLOCK_4X4, block);
    }

    /// The context of a choice between two groups of references by how often each is used, 0 to 2.
    pub fn ref_count_ctx(counts0: u8, counts1: u8) -> usize
        ensures value { result ≡ by_counts counts0 counts1 }
        ensures bound { result ≤ 2 }
    {
        av1_mvref::ref_count_ctx(counts0, counts1)
    }

    /// The context of the choice between the four references behind and the three ahead in display order, 0 to 2.
    pub fn get_ref_frame_ctx_b0(&self, bo: TileBlockOffset) -> usize
        requires inside { IsInside self.now.bc.blocks bo.0 }
        requires ready { IsReady self.now.bc.blocks }
        ensures value { result ≡ by_counts (kept_behind self.now.bc.blocks bo.0) (kept_ahead self.now.bc.blocks bo.0) }
        ensures bound { result ≤ 2 }
    {
        av1_mvref::get_ref_frame_ctx_b0(&self.bc.blocks.as_const(), bo)
    }

    /// The context of the choice between `BWDREF_FRAME` or `ALTREF2_FRAME` and `ALTREF_FRAME`, 0 to 2.
    pub fn get_pred_ctx_brfarf2_or_arf(&self, bo: TileBlockOffset) -> usize
        requires inside { IsInside self.now.bc.blocks bo.0 }
        requires ready { IsReady self.now.bc.blocks }
        ensures value { let kept = kept_count self.now.bc.blocks bo.0 in result ≡ by_counts (kept 5 + kept 6) (kept 7) }
        ensures bound { result ≤ 2 }
    {
        av1_mvref::get_pred_ctx_brfarf2_or_arf(&self.bc.blocks.as_const(), bo)
    }

    /// The context of the choice between `LAST_FRAME` or `LAST2_FRAME` and `LAST3_FRAME` or `GOLDEN_FRAME`, 0 to 2.
    pub fn get_pred_ctx_ll2_or_l3gld(&self, bo: TileBlockOffset) -> usize
        requires inside { IsInside self.now.bc.blocks bo.0 }
        requires ready { IsReady self.now.bc.blocks }
        ensures value { let kept = kept_count self.now.bc.blocks bo.0 in result ≡ by_counts (kept 1 + kept 2) (kept 3 + kept 4) }
        ensures bound { result ≤ 2 }
    {
        av1_mvref::get_pred_ctx_ll2_or_l3gld(&self.bc.blocks.as_const(), bo)
    }

    /// The context of the choice between `LAST_FRAME` and `LAST2_FRAME`, 0 to 2.
    pub fn get_pred_ctx_last_or_last2(&self, bo: TileBlockOffset) -> usize
        requires inside { IsInside self.now.bc.blocks bo.0 }
        requires ready { IsReady self.now.bc.blocks }
        ensures value { let kept = kept_count self.now.bc.blocks bo.0 in result ≡ by_counts (kept 1) (kept 2) }
        ensures bound { result ≤ 2 }
    {
        av1_mvref::get_pred_ctx_last_or_last2(&self.bc.blocks.as_const(), bo)
    }

    /// The context of the choice between `LAST3_FRAME` and `GOLDEN_FRAME`, 0 to 2.
    pub fn get_pred_ctx_last3_or_gold(&self, bo: TileBlockOffset) -> usize
        requires inside { IsInside self.now.bc.blocks bo.0 }
        requires ready { IsReady self.now.bc.blocks }
        ensures value { let kept = kept_count self.now.bc.blocks bo.0 in result ≡ by_counts (kept 3) (kept 4) }
        ensures bound { result ≤ 2 }
    {
        av1_mvref::get_pred_ctx_last3_or_gold(&self.bc.blocks.as_const(), bo)
    }

    /// The context of the choice between `BWDREF_FRAME` and `ALTREF2_FRAME`, 0 to 2.
    pub fn get_pred_ctx_brf_or_arf2(&self, bo: TileBlockOffset) -> usize
        requires inside { IsInside self.now.bc.blocks bo.0 }
        requires ready { IsReady self.now.bc.blocks }
        ensures value { let kept = kept_count self.now.bc.blocks bo.0 in result ≡ by_counts (kept 5) (kept 6) }
        ensures bound { result ≤ 2 }
    {
        av1_mvref::get_pred_ctx_brf_or_arf2(&self.bc.blocks.as_const(), bo)
    }

    /// The context of the choice between one reference and two, 0 to 4.
    pub fn get_comp_mode_ctx(&self, bo: TileBlockOffset) -> usize
        requires { IsInside self.now.bc.blocks bo.0 }
        ensures value { result ≡ comp_mode_context (refs_above self.now.bc.blocks bo.0) (refs_left self.now.bc.blocks bo.0) }
        ensures bound { result ≤ 4 }
    {
        av1_mvref::get_comp_mode_ctx(&self.bc.blocks.as_const(), bo)
    }

    /// The context of the choice between two references on one side in time and one on each, 0 to 4.
    pub fn get_comp_ref_type_ctx(&self, bo: TileBlockOffset) -> usize
        requires { IsInside self.now.bc.blocks bo.0 }
        ensures value { result ≡ comp_ref_type_context (refs_above self.now.bc.blocks bo.0) (refs_left self.now.bc.blocks bo.0) }
        ensures bound { result ≤ 4 }
    {
        av1_mvref::get_comp_ref_type_ctx(&self.bc.blocks.as_const(), bo)
    }

    /// Codes the references of a block, as it stands at its place in the grid: one of seven, or, where the frame does not have
    /// one reference alone and both sides are at least 8 luma samples, two of which one lies behind and one ahead in display
    /// order (`ref_frames` of the AV1 specification). The block keeps how often its neighbours refer to each
    /// (`fill_neighbours_ref_counts`; `law_of_counts`).
    pub fn write_ref_frames<W: Writer>(
        &mut self,
        w: &mut W,
        reference_mode: ReferenceMode,
        bo: TileBlockOffset,
    ) -> Result<(), OutOfMemory>
        requires inside { IsInside self.old.bc.blocks bo.0 }
        requires ready { IsReady self.old.bc.blocks }
        requires counts { (block_at self.old.bc.blocks bo.0.x bo.0.y).neighbors_ref_counts ≡ counts self.old.bc.blocks bo.0 }
        requires refs { let b = block_at self.old.bc.blocks bo.0.x bo.0.y in
            AreRefFrames (may_be_pair reference_mode b) (ref_frames_at self.old.bc.blocks bo.0) }
        requires cdfs { AreCdfs self.old.fc }
        requires early { (W.position w.old).shift ≤ 2 ^ 28 }
        ensures wrote { RefFramesCoded W.Known result self.old.bc.blocks bo.0 reference_mode w.old w.new self.old self.new }
        ensures moves { Moved W.Known 78 w.old w.new self.old self.new }
        ensures rest { self.new.bc ≡ self.old.bc }
    {
        let block = *self.bc.blocks.at(bo);
        let (first, second) = refs_of(&block);
        let contexts = self.ref_contexts(bo);
        self.write_among(
            w,
            may_be_pair(reference_mode, &block),
            first,
            second,
            bo,
            contexts,
        )
    }

    // Codes the references of a block, by whether it may have two.
    fn write_among<W: Writer>(
        &mut self,
        w: &mut W,
        two: bool,
        first: RefType,
        second: RefType,
        bo: TileBlockOffset,
        contexts: RefContexts,
    ) -> Result<(), OutOfMemory>
        requires inside { IsInside self.old.bc.blocks bo.0 }
        requires refs { AreRefFrames two (first, second) }
        requires few { AreContexts contexts }
        requires cdfs { AreCdfs self.old.fc }
        requires shift { (W.position w.old).shift + 78 ≤ 2 ^ 28 + 2 ^ 24 }
        ensures wrote { Coded W.Known result (among_element self.old.bc.blocks bo.0 contexts two) (first, second) w.old w.new self.old self.new }
        ensures moves { Moved W.Known 78 w.old w.new self.old self.new }
        ensures rest { self.new.bc ≡ self.old.bc }
    {
        if !two {
            return self.write_one(w, first, contexts);
        }
        let pair = is_second(second);
        let cdf = CDFContext::comp_mode_cdf(self.get_comp_mode_ctx(bo));
        self.flag(w, pair, cdf)?;
        if pair {
            return self.write_two(w, first, second, bo, contexts);
        }
        self.write_one(w, first, contexts)
    }

    // The contexts of a block's references.
    fn ref_contexts(&self, bo: TileBlockOffset) -> RefContexts
        requires inside { IsInside self.now.bc.blocks bo.0 }
        requires ready { IsReady self.now.bc.blocks }
        requires counts { (block_at self.now.bc.blocks bo.0.x bo.0.y).neighbors_ref_counts ≡ counts self.now.bc.blocks bo.0 }
        ensures value { result ≡ contexts_at self.now.bc.blocks bo.0 }
        ensures few { AreContexts result }
    {
        RefContexts {
            side: self.get_ref_frame_ctx_b0(bo),
            behind: self.get_pred_ctx_ll2_or_l3gld(bo),
            early: self.get_pred_ctx_last_or_last2(bo),
            late: self.get_pred_ctx_last3_or_gold(bo),
            ahead: self.get_pred_ctx_brfarf2_or_arf(bo),
            near: self.get_pred_ctx_brf_or_arf2(bo),
        }
    }

    // Codes the reference of a block that has one.
    fn write_one<W: Writer>(
        &mut self,
        w: &mut W,
        r: RefType,
        contexts: RefContexts,
    ) -> Result<(), OutOfMemory>
        requires from { 1 ≤ reference_number r }
        requires to { reference_number r ≤ 7 }
        requires few { AreContexts contexts }
        requires cdfs { AreCdfs self.old.fc }
        requires shift { (W.position w.old).shift + 39 ≤ 2 ^ 28 + 2 ^ 24 }
        ensures wrote { Coded W.Known result (single_element contexts) r w.old w.new self.old self.new }
        ensures moves { Moved W.Known 39 w.old w.new self.old self.new }
        ensures rest { self.new.bc ≡ self.old.bc }
    {
        let is_ahead = r.number() >= RefType::BWDREF_FRAME.number();
        self.flag(w, is_ahead, CDFContext::single_ref_cdfs(contexts.side, 0))?;
        if is_ahead {
            let last = CDFContext::single_ref_cdfs(contexts.ahead, 1);
            return self.write_ahead(w, r, last, CDFContext::single_ref_cdfs(contexts.near, 5));
        }
        let pair = CDFContext::single_ref_cdfs(contexts.behind, 2);
        let early = CDFContext::single_ref_cdfs(contexts.early, 3);
        self.write_behind(
            w,
            r,
            pair,
            early,
            CDFContext::single_ref_cdfs(contexts.late, 4),
        )
    }

    // Codes the references of a block that has two: that one lies on each side, and then both.
    fn write_two<W: Writer>(
        &mut self,
        w: &mut W,
        first: RefType,
        second: RefType,
        bo: TileBlockOffset,
        contexts: RefContexts,
    ) -> Result<(), OutOfMemory>
        requires inside { IsInside self.old.bc.blocks bo.0 }
        requires first_from { 1 ≤ reference_number first }
        requires first_to { reference_number first ≤ 4 }
        requires second_from { 5 ≤ reference_number second }
        requires second_to { reference_number second ≤ 7 }
        requires few { AreContexts contexts }
        requires cdfs { AreCdfs self.old.fc }
        requires shift { (W.position w.old).shift + 65 ≤ 2 ^ 28 + 2 ^ 24 }
        ensures wrote { Coded W.Known result (two_element self.old.bc.blocks bo.0 contexts) (first, second) w.old w.new self.old self.new }
        ensures moves { Moved W.Known 65 w.old w.new self.old self.new }
        ensures rest { self.new.bc ≡ self.old.bc }
    {
        let cdf = CDFContext::comp_ref_type_cdf(self.get_comp_ref_type_ctx(bo));
        self.symbol(w, 1, cdf)?;
        self.write_pair(w, first, second, contexts)
    }

    // Codes a reference behind and one ahead.
    fn write_pair<W: Writer>(
        &mut self,
        w: &mut W,
        first: RefType,
        second: RefType,
        contexts: RefContexts,
    ) -> Result<(), OutOfMemory>
        requires first_from { 1 ≤ reference_number first }
        requires first_to { reference_number first ≤ 4 }
        requires second_from { 5 ≤ reference_number second }
        requires second_to { reference_number second ≤ 7 }
        requires few { AreContexts contexts }
        requires cdfs { AreCdfs self.old.fc }
        requires shift { (W.position w.old).shift + 52 ≤ 2 ^ 28 + 2 ^ 24 }
        ensures wrote { Coded W.Known result (pair_element contexts) (first, second) w.old w.new self.old self.new }
        ensures moves { Moved W.Known 52 w.old w.new self.old self.new }
        ensures rest { self.new.bc ≡ self.old.bc }
    {
        let pair = CDFContext::comp_ref_cdf(contexts.behind, 0);
        let early = CDFContext::comp_ref_cdf(contexts.early, 1);
        self.write_behind(
            w,
            first,
            pair,
            early,
            CDFContext::comp_ref_cdf(contexts.late, 2),
        )?;
        let last = CDFContext::comp_bwd_ref_cdf(contexts.ahead, 0);
        self.write_ahead(
            w,
            second,
            last,
            CDFContext::comp_bwd_ref_cdf(contexts.near, 1),
        )
    }

    // Codes one of the four references behind.
    fn write_behind<W: Writer>(
        &mut self,
        w: &mut W,
        r: RefType,
        pair: CDFOffset,
        early: CDFOffset,
        late: CDFOffset,
    ) -> Result<(), OutOfMemory>
        requires from { 1 ≤ reference_number r }
        requires to { reference_number r ≤ 4 }
        requires cdfs { AreCdfs self.old.fc }
        requires shift { (W.position w.old).shift + 26 ≤ 2 ^ 28 + 2 ^ 24 }
        ensures wrote { Coded W.Known result (behind (slot_of pair) (slot_of early) (slot_of late)) r w.old w.new self.old self.new }
        ensures moves { Moved W.Known 26 w.old w.new self.old self.new }
        ensures rest { self.new.bc ≡ self.old.bc }
    {
        let is_late = r.number() >= RefType::LAST3_FRAME.number();
        self.flag(w, is_late, pair)?;
        if is_late {
            return self.flag(w, r.number() >= RefType::GOLDEN_FRAME.number(), late);
        }
        self.flag(w, r.number() >= RefType::LAST2_FRAME.number(), early)
    }

    // Codes one of the three references ahead.
    fn write_ahead<W: Writer>(
        &mut self,
        w: &mut W,
        r: RefType,
        last: CDFOffset,
        near: CDFOffset,
    ) -> Result<(), OutOfMemory>
        requires from { 5 ≤ reference_number r }
        requires to { reference_number r ≤ 7 }
        requires cdfs { AreCdfs self.old.fc }
        requires shift { (W.position w.old).shift + 26 ≤ 2 ^ 28 + 2 ^ 24 }
        ensures wrote { Coded W.Known result (ahead (slot_of last) (slot_of near)) r w.old w.new self.old self.new }
        ensures moves { Moved W.Known 26 w.old w.new self.old self.new }
        ensures rest { self.new.bc ≡ self.old.bc }
    {
        let is_last = r.number() >= RefType::ALTREF_FRAME.number();
        self.flag(w, is_last, last)?;
        if is_last {
            return Ok(());
        }
        self.flag(w, r.number() >= RefType::ALTREF2_FRAME.number(), near)
    }
}

// The references of a block.
fn refs_of(block: &Block) -> (RefType, RefType)
    ensures { result ≡ refs_of block.now }
{
    (block.ref_frames[0], block.ref_frames[1])
}

// Whether a reference is one of the seven.
fn is_second(r: RefType) -> bool
    ensures { result ≡ is_second r }
{
    1 <= r.number() && r.number() <= 7
}

// Whether a block may have two references.
fn may_be_pair(reference_mode: ReferenceMode, block: &Block) -> bool
    ensures { result ≡ may_be_pair reference_mode block.now }
{
    let several = reference_mode.number() != ReferenceMode::SINGLE.number();
    several && block.n4_w.min(block.n4_h) >= 2
}
