// The coefficients of a transform block, which rav1e codes in `block_unit.rs`.
ghost use Rattle.std.specs.Prelude.{◌≡◌, ℕ, ◌+◌, ◌-◌, ◌*◌, ◌^◌, ◌<◌, ◌≤◌, List, [], ◌∷◌, Bool, true, false};
ghost use Rattle.std.specs.Prelude.{if◌then◌else◌, IfOk, length, map, min, unsigned_abs, slice_index_or, pos, ◌≤ℤ◌};
ghost use Rattle.std.specs.List.{sum_by};
ghost use Rattle.av1_cdf.specs.Context.{AreCdfs};
ghost use Rattle.av1_cdf.specs.Distribution.{Distribution, Even};
ghost use Rattle.av1_cdf.specs.Distribution.Distribution.{Adaptive};
ghost use Rattle.av1_cdf.specs.Layout.{slot};
ghost use Rattle.av1_cdf.specs.Slots.{slot_of};
ghost use Rattle.av1_coef.specs.Contexts.{coded_area, coded_width, coded_height, coded_height_log2, size_context};
ghost use Rattle.av1_syntax.specs.Coefficients.{base_by, range_by, one_dimensional, value_at};
ghost use Rattle.av1_syntax.specs.EndOfBlock.{class_fields, area_number};

use crate::context_writer::ContextWriter;
use av1_cdf::{CDFContext, CDFOffset};
use av1_coef::{
    Coefficient, get_br_ctx, get_eob_pos_token, get_nz_map_contexts, get_txb_bhl, txb_init_levels,
};
use av1_ec::Writer;
use av1_geometry::{
    MAX_CODED_TX_SQUARE, OutOfMemory, TX_PAD_2D, TX_PAD_HOR, TxClass, TxSize, av1_get_coded_tx_size,
};

// What is the same for all coefficients of a transform block: its size and the class of its type, the context of its size, and
// 0 for luma or 1 for chroma.
#[derive(Clone, Copy)]
pub(crate) struct CoeffBlock {
    pub tx_size: TxSize,
    pub tx_class: TxClass,
    pub txs_ctx: usize,
    pub plane_type: usize,
}

// The distribution of the first symbol of a size by its context, which is that of the last one or of another.
fn base_cdf(block: CoeffBlock, is_last: bool, context: usize) -> CDFOffset
    requires size { block.txs_ctx ≡ size_context block.tx_size }
    requires plane { block.plane_type < 2 }
    requires context { context < (if is_last then 4 else 42) }
    ensures is { Adaptive (slot_of result) ≡ base_by block.tx_size block.plane_type is_last context }
    ensures len { result.len ≡ (if is_last then 3 else 4) }
{
    if is_last {
        CDFContext::coeff_base_eob_cdf(block.txs_ctx, block.plane_type, context)
    } else {
        CDFContext::coeff_base_cdf(block.txs_ctx, block.plane_type, context)
    }
}

// The distribution of the other symbols of the size at a position.
fn range_cdf(block: CoeffBlock, levels: &[u8], at: usize) -> CDFOffset
    requires size { block.txs_ctx ≡ size_context block.tx_size }
    requires plane { block.plane_type < 2 }
    requires place { at < coded_area block.tx_size }
    requires room { (coded_width block.tx_size + 4) * (coded_height block.tx_size + 4) ≤ length levels.now }
    ensures is { Adaptive (slot_of result) ≡ range_by block.tx_size block.plane_type block.tx_class levels.now at }
    ensures len { result.len ≡ 4 }
{
    let context = get_br_ctx(levels, at, get_txb_bhl(block.tx_size), block.tx_class);
    CDFContext::coeff_br_cdf(block.txs_ctx.min(3), block.plane_type, context)
}

// How often the area of a transform, or the coded part of it, doubles that of 4x4, up to 6 times.
fn area_doublings(by_coded: bool, size: TxSize) -> usize
    ensures { result ≡ area_number by_coded size }
{
    let size = if by_coded {
        av1_get_coded_tx_size(size)
    } else {
        size
    };
    (size.area_log2() - 4).min(6)
}

// The distribution of the class of an end, by how often the area of the transform doubles that of 4x4.
fn eob_flag_cdf(doublings: usize, plane_type: usize, context: usize) -> CDFOffset
    requires doublings { doublings ≤ 6 }
    requires plane { plane_type < 2 }
    requires context { context < 2 }
    ensures is { slot_of result ≡ slot (slice_index_or class_fields doublings []) (plane_type ∷ context ∷ []) }
    ensures len { result.len ≡ 5 + doublings }
{
    match doublings {
        0 => CDFContext::eob_flag_cdf16(plane_type, context),
        1 => CDFContext::eob_flag_cdf32(plane_type, context),
        2 => CDFContext::eob_flag_cdf64(plane_type, context),
        3 => CDFContext::eob_flag_cdf128(plane_type, context),
        4 => CDFContext::eob_flag_cdf256(plane_type, context),
        5 => CDFContext::eob_flag_cdf512(plane_type, context),
        _ => CDFContext::eob_flag_cdf1024(plane_type, context),
    }
}

// Whether a class is not the two-dimensional one.
fn one_dimensional(tx_class: TxClass) -> usize
    ensures value { result ≡ one_dimensional tx_class }
    ensures few { result < 2 }
{
    match tx_class {
        TxClass::TX_CLASS_2D => 0,
        TxClass::TX_CLASS_HORIZ | TxClass::TX_CLASS_VERT => 1,
    }
}

// The coefficient at a position.
#[inline(always)]
pub(crate) fn level_at<T: Coefficient>(coeffs: &[T], at: usize) -> i32
    requires { at < length coeffs.now }
    ensures { result ≡ value_at (map T.value coeffs.now) at }
{
    coeffs[at].to_i32()
}

// The context at a place.
#[inline(always)]
fn context_at(contexts: &[i8], c: usize) -> usize
    requires place { c < length contexts.now }
    requires least { pos 0 ≤ℤ slice_index_or contexts.now c (pos 0) }
    requires most { slice_index_or contexts.now c (pos 0) ≤ℤ pos 40 }
    ensures { pos result ≡ slice_index_or contexts.now c (pos 0) }
{
    contexts[c] as usize
}

impl ContextWriter {
    ghost use Rattle.av1_syntax.specs.Calls.{Coded, Moved};
    ghost use Rattle.av1_syntax.specs.Coefficients.{levels_at, end_in, SizeByCoded, SizeCoded, SizesCoded};
    ghost use Rattle.av1_syntax.specs.Coefficients.{SignsCoded, BlockCoded, AreCoded, ArePadded, AreContexts};
    ghost use Rattle.av1_syntax.specs.EndOfBlock.{extra_element};

    // Codes the number of an end in its class: the highest bit by a distribution, the others as they are.
    fn write_eob_extra<W: Writer>(
        &mut self,
        w: &mut W,
        extra: u32,
        bits: u8,
        cdf: CDFOffset,
    ) -> Result<(), OutOfMemory>
        requires some { 1 ≤ bits }
        requires few { bits ≤ 9 }
        requires fits { extra < 2 ^ bits }
        requires two { cdf.len ≡ 2 }
        requires cdfs { AreCdfs self.old.fc }
        requires shift { (W.position w.old).shift + 117 ≤ 2 ^ 28 + 2 ^ 24 }
        ensures wrote { Coded W.Known result (extra_element (Adaptive (slot_of cdf)) bits) extra w.old w.new self.old self.new }
        ensures moves { Moved W.Known 117 w.old w.new self.old self.new }
        ensures rest { self.new.bc ≡ self.old.bc }
    {
        let low = bits - 1;
        self.symbol(w, extra >> low, cdf)?;
        self.literal(w, low, extra % (1 << low))
    }

    // Codes the number of levels of a transform block that has some.
    fn write_eob<W: Writer>(
        &mut self,
        w: &mut W,
        eob: u16,
        block: CoeffBlock,
    ) -> Result<(), OutOfMemory>
        requires some { 1 ≤ eob }
        requires few { eob ≤ coded_area block.tx_size }
        requires size { block.txs_ctx ≡ size_context block.tx_size }
        requires plane { block.plane_type < 2 }
        requires cdfs { AreCdfs self.old.fc }
        requires shift { (W.position w.old).shift + 130 ≤ 2 ^ 28 + 2 ^ 24 }
        ensures wrote { Coded W.Known result (end_in self.old.eob_by_coded block) eob w.old w.new self.old self.new }
        ensures moves { Moved W.Known 130 w.old w.new self.old self.new }
        ensures rest { self.new.bc ≡ self.old.bc }
    {
        let (class, extra) = get_eob_pos_token(eob);
        let doublings = area_doublings(self.eob_by_coded, block.tx_size);
        let context = one_dimensional(block.tx_class);
        let flag = eob_flag_cdf(doublings, block.plane_type, context);
        self.symbol(w, class - 1, flag)?;
        if class < 3 {
            return Ok(());
        }
        let highest = CDFContext::eob_extra_cdf(
            block.txs_ctx,
            block.plane_type,
            class as usize - 3,
        );
        self.write_eob_extra(w, extra, class as u8 - 2, highest)
    }

    // Codes a size up to 15, by padded levels.
    #[inline(always)]
    fn write_coeff_size<W: Writer>(
        &mut self,
        w: &mut W,
        block: CoeffBlock,
        levels: &[u8],
        at: usize,
        size: u32,
        is_last: bool,
        base: CDFOffset,
    ) -> Result<(), OutOfMemory>
        requires least { (if is_last then 1 else 0) ≤ size }
        requires base { base.len ≡ (if is_last then 3 else 4) }
        requires size { block.txs_ctx ≡ size_context block.tx_size }
        requires plane { block.plane_type < 2 }
        requires place { at < coded_area block.tx_size }
        requires room { (coded_width block.tx_size + 4) * (coded_height block.tx_size + 4) ≤ length levels.now }
        requires cdfs { AreCdfs self.old.fc }
        requires shift { (W.position w.old).shift + 65 ≤ 2 ^ 28 + 2 ^ 24 }
        ensures wrote { SizeByCoded W.Known result block (slot_of base) levels.now at is_last size w.old w.new self.old self.new }
        ensures moves { Moved W.Known 65 w.old w.new self.old self.new }
        ensures rest { self.new.bc ≡ self.old.bc }
    {
        self.symbol(w, size.min(3) - u32::from(is_last), base)?;
        if size < 3 {
            return Ok(());
        }
        self.write_coeff_range(w, size, range_cdf(block, levels, at))
    }

    // Codes the size up to 15 of the level at one of the first `eob` places of a scan.
    fn write_coeff_at<T: Coefficient, W: Writer>(
        &mut self,
        w: &mut W,
        block: CoeffBlock,
        coeffs: &[T],
        scan: &[u16],
        eob: usize,
        levels: &[u8],
        contexts: &[i8],
        c: usize,
    ) -> Result<(), OutOfMemory>
        requires coded { AreCoded block.tx_size block.tx_class scan.now eob (map T.value coeffs.now) }
        requires padded { ArePadded block.tx_size (map T.value coeffs.now) levels.now }
        requires contexts { AreContexts block.tx_size block.tx_class levels.now scan.now eob contexts.now }
        requires size { block.txs_ctx ≡ size_context block.tx_size }
        requires plane { block.plane_type < 2 }
        requires place { c < eob }
        requires cdfs { AreCdfs self.old.fc }
        requires shift { (W.position w.old).shift + 65 ≤ 2 ^ 28 + 2 ^ 24 }
        ensures wrote { SizeCoded W.Known result block (map T.value coeffs.now) scan.now eob c w.old w.new self.old self.new }
        ensures moves { Moved W.Known 65 w.old w.new self.old self.new }
        ensures rest { self.new.bc ≡ self.old.bc }
    {
        let at = usize::from(scan[c]);
        let size = level_at(coeffs, at).unsigned_abs();
        let is_last = c + 1 == eob;
        let base = base_cdf(block, is_last, context_at(contexts, c));
        self.write_coeff_size(w, block, levels, at, size, is_last, base)
    }

    // Codes the sizes up to 15 of the levels at the first `eob` places of a scan, the last one first.
    fn write_coeff_sizes<T: Coefficient, W: Writer>(
        &mut self,
        w: &mut W,
        block: CoeffBlock,
        coeffs: &[T],
        scan: &[u16],
        eob: usize,
        levels: &[u8],
        contexts: &[i8],
    ) -> Result<(), OutOfMemory>
        requires coded { AreCoded block.tx_size block.tx_class scan.now eob (map T.value coeffs.now) }
        requires padded { ArePadded block.tx_size (map T.value coeffs.now) levels.now }
        requires contexts { AreContexts block.tx_size block.tx_class levels.now scan.now eob contexts.now }
        requires size { block.txs_ctx ≡ size_context block.tx_size }
        requires plane { block.plane_type < 2 }
        requires cdfs { AreCdfs self.old.fc }
        requires shift { (W.position w.old).shift + 65 * 1024 ≤ 2 ^ 28 + 2 ^ 24 }
        ensures wrote { SizesCoded W.Known result block (map T.value coeffs.now) scan.now eob w.old w.new self.old self.new }
        ensures moves { Moved W.Known (65 * 1024) w.old w.new self.old self.new }
        ensures rest { self.new.bc ≡ self.old.bc }
    {
        let mut left = eob;
        while left > 0 {
            left -= 1;
            self.write_coeff_at(w, block, coeffs, scan, eob, levels, contexts, left)?;
        }
        Ok(())
    }

    // Codes the signs of the levels at the first `eob` positions of a scan, and what their sizes have above 14, the first level
    // first. The answer is the sum of the sizes.
    fn write_coeff_signs<T: Coefficient, W: Writer>(
        &mut self,
        w: &mut W,
        block: CoeffBlock,
        coeffs: &[T],
        scan: &[u16],
        eob: usize,
        dc_sign_ctx: usize,
    ) -> Result<u32, OutOfMemory>
        requires coded { AreCoded block.tx_size block.tx_class scan.now eob (map T.value coeffs.now) }
        requires context { dc_sign_ctx < 3 }
        requires plane { block.plane_type < 2 }
        requires cdfs { AreCdfs self.old.fc }
        requires shift { (W.position w.old).shift + 832 * 1024 ≤ 2 ^ 28 + 2 ^ 24 }
        ensures wrote { SignsCoded W.Known result block dc_sign_ctx (map T.value coeffs.now) scan.now eob w.old w.new self.old self.new }
        ensures total { IfOk result (λ s. s ≡ sum_by unsigned_abs (levels_at (map T.value coeffs.now) scan.now eob)) }
        ensures moves { Moved W.Known (832 * 1024) w.old w.new self.old self.new }
        ensures rest { self.new.bc ≡ self.old.bc }
    {
        let cdf = CDFContext::dc_sign_cdf(block.plane_type, dc_sign_ctx);
        let mut total = 0;
        for c in 0..eob {
            let level = level_at(coeffs, usize::from(scan[c]));
            self.write_coeff_level(w, level, c == 0, cdf)?;
            total += level.unsigned_abs();
        }
        Ok(total)
    }

    // Codes the sizes up to 15 of the levels at the first `eob` places of a scan, by their contexts.
    fn write_block_sizes<T: Coefficient, W: Writer>(
        &mut self,
        w: &mut W,
        block: CoeffBlock,
        coeffs: &[T],
        scan: &[u16],
        eob: u16,
    ) -> Result<(), OutOfMemory>
        requires coded { AreCoded block.tx_size block.tx_class scan.now eob (map T.value coeffs.now) }
        requires size { block.txs_ctx ≡ size_context block.tx_size }
        requires plane { block.plane_type < 2 }
        requires cdfs { AreCdfs self.old.fc }
        requires shift { (W.position w.old).shift + 65 * 1024 ≤ 2 ^ 28 + 2 ^ 24 }
        ensures wrote { SizesCoded W.Known result block (map T.value coeffs.now) scan.now eob w.old w.new self.old self.new }
        ensures moves { Moved W.Known (65 * 1024) w.old w.new self.old self.new }
        ensures rest { self.new.bc ≡ self.old.bc }
    {
        let coded = av1_get_coded_tx_size(block.tx_size);
        let mut levels = [0u8; TX_PAD_2D];
        let height = coded.height();
        txb_init_levels(
            &coeffs[..coded.area()],
            height,
            &mut levels,
            height + TX_PAD_HOR,
        );
        let mut contexts = [0i8; MAX_CODED_TX_SQUARE];
        get_nz_map_contexts(
            &mut levels,
            scan,
            eob,
            block.tx_size,
            block.tx_class,
            &mut contexts,
        );
        self.write_coeff_sizes(w, block, coeffs, scan, usize::from(eob), &levels, &contexts)
    }

    // Codes the levels of a transform block that has some: their number, their sizes up to 15, and what is left of them. The
    // answer is the sum of the sizes.
    pub(crate) fn write_block_coeffs<T: Coefficient, W: Writer>(
        &mut self,
        w: &mut W,
        block: CoeffBlock,
        coeffs: &[T],
        scan: &[u16],
        eob: u16,
        dc_sign_ctx: usize,
    ) -> Result<u32, OutOfMemory>
        requires some { 1 ≤ eob }
        requires coded { AreCoded block.tx_size block.tx_class scan.now eob (map T.value coeffs.now) }
        requires context { dc_sign_ctx < 3 }
        requires size { block.txs_ctx ≡ size_context block.tx_size }
        requires plane { block.plane_type < 2 }
        requires cdfs { AreCdfs self.old.fc }
        requires shift { (W.position w.old).shift + 918658 ≤ 2 ^ 28 + 2 ^ 24 }
        ensures wrote { BlockCoded W.Known result block dc_sign_ctx (map T.value coeffs.now) scan.now eob w.old w.new self.old self.new }
        ensures total { IfOk result (λ s. s ≡ sum_by unsigned_abs (levels_at (map T.value coeffs.now) scan.now eob)) }
        ensures moves { Moved W.Known 918658 w.old w.new self.old self.new }
        ensures rest { self.new.bc ≡ self.old.bc }
    {
        self.write_eob(w, eob, block)?;
        self.write_block_sizes(w, block, coeffs, scan, eob)?;
        self.write_coeff_signs(w, block, coeffs, scan, usize::from(eob), dc_sign_ctx)
    }
}
