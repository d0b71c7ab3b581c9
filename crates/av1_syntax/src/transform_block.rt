// The coefficients of a transform block, with its type and its contexts.
ghost use Rattle.std.specs.Prelude.{◌≡◌, ◌≢◌, ◌+◌, ◌-◌, ◌*◌, ◌/◌, ◌%◌, ◌^◌, ◌<◌, ◌≤◌, Bool, IfOk};
ghost use Rattle.std.specs.Prelude.{OnOk, OnErr, List, length, slice_index, map, min, nat_lt, pos};
ghost use Rattle.av1_blocks.specs.Coefficients.{with_dc_sign, block_contexts};
ghost use Rattle.av1_blocks.specs.Edges.{with_coefficients};
ghost use Rattle.av1_cdf.specs.Context.{AreCdfs};
ghost use Rattle.av1_coef.specs.Contexts.{coded_area};
ghost use Rattle.av1_geometry.specs.PredictionMode.{prediction_mode_number};
ghost use Rattle.av1_geometry.specs.TxSize.{tx_width_log2, tx_height_log2};
ghost use Rattle.av1_geometry.specs.TxTables.{class_of};
ghost use Rattle.av1_syntax.specs.Coefficients.{is_inter, plane_type, value_at};

use crate::coefficients::{CoeffBlock, level_at};
use crate::context_writer::ContextWriter;
use av1_blocks::{BlockContext, TXB_CTX};
use av1_cdf::CDFContext;
use av1_coef::{Coefficient, Scan, get_txsize_entropy_ctx};
use av1_ec::Writer;
use av1_geometry::{
    BlockSize, COEFF_CONTEXT_MASK, OutOfMemory, PredictionMode, TileBlockOffset, TxSize, TxType,
};

// Whether a mode predicts from another frame.
fn is_inter(mode: PredictionMode) -> bool
    ensures { result ≡ is_inter mode }
{
    mode.number() >= PredictionMode::NEARESTMV.number()
}

// 0 for luma, 1 for chroma.
fn plane_type(plane: usize) -> usize
    ensures value { result ≡ plane_type plane }
    ensures few { result < 2 }
{
    usize::from(plane != 0)
}

// The entry in the edges of levels with this sum of sizes and this first one.
fn entry_of(total: u32, first: i32) -> u8
    ensures { result ≡ with_dc_sign (min 63 total) first }
{
    let mut cul_level = total.min(COEFF_CONTEXT_MASK as u32);
    BlockContext::set_dc_sign(&mut cul_level, first);
    cul_level as u8
}

// The first level in the order of a scan.
fn first_level<T: Coefficient>(coeffs: &[T], scan: &[u16]) -> i32
    requires some { 0 < length scan.now }
    requires place { slice_index scan.now 0 < length coeffs.now }
    ensures { result ≡ value_at (map T.value coeffs.now) (slice_index scan.now 0) }
{
    level_at(coeffs, usize::from(scan[0]))
}

impl ContextWriter {
    ghost use Rattle.av1_syntax.specs.Calls.{Coded, Moved};
    ghost use Rattle.av1_syntax.specs.Coefficients.{levels_at, types_element, entry_at, AreCoded, HasType, TransformCoded};

    // Codes the type of a transform block that has levels, in luma.
    fn write_type_of_plane<W: Writer>(
        &mut self,
        w: &mut W,
        plane: usize,
        tx_size: TxSize,
        tx_type: TxType,
        pred_mode: PredictionMode,
        use_reduced_tx_set: bool,
        eob: u16,
    ) -> Result<(), OutOfMemory>
        requires mode { plane ≡ 0 → prediction_mode_number pred_mode ≢ 13 }
        requires typed { HasType plane tx_size pred_mode use_reduced_tx_set eob tx_type }
        requires some { 1 ≤ eob }
        requires cdfs { AreCdfs self.old.fc }
        requires shift { (W.position w.old).shift + 13 ≤ 2 ^ 28 + 2 ^ 24 }
        ensures wrote { Coded W.Known result (types_element plane tx_size pred_mode use_reduced_tx_set tx_type) tx_type w.old w.new self.old self.new }
        ensures moves { Moved W.Known 13 w.old w.new self.old self.new }
        ensures rest { self.new.bc ≡ self.old.bc }
    {
        if plane == 0 {
            let inter = is_inter(pred_mode);
            return self.tx_type(w, tx_size, tx_type, pred_mode, inter, use_reduced_tx_set);
        }
        Ok(())
    }

    // Codes the coefficients of a transform block by its contexts. The edges stay, and the answer is its entry in them.
    fn code_coeffs<T: Coefficient, W: Writer>(
        &mut self,
        w: &mut W,
        plane: usize,
        coeffs: &[T],
        eob: u16,
        pred_mode: PredictionMode,
        tx_size: TxSize,
        tx_type: TxType,
        scan: &Scan,
        use_reduced_tx_set: bool,
        txb_ctx: TXB_CTX,
    ) -> Result<u8, OutOfMemory>
        requires mode { plane ≡ 0 → prediction_mode_number pred_mode ≢ 13 }
        requires typed { HasType plane tx_size pred_mode use_reduced_tx_set eob tx_type }
        requires coded { AreCoded tx_size (class_of tx_type) scan.now eob (map T.value coeffs.now) }
        requires few_skips { txb_ctx.txb_skip_ctx < 13 }
        requires few_signs { txb_ctx.dc_sign_ctx < 3 }
        requires cdfs { AreCdfs self.old.fc }
        requires early { (W.position w.old).shift ≤ 2 ^ 28 }
        ensures entry { IfOk result (λ v. v ≡ entry_at (map T.value coeffs.now) scan.now eob) }
        ensures wrote { let levels = levels_at (map T.value coeffs.now) scan.now eob in
            TransformCoded W.Known result plane tx_size pred_mode use_reduced_tx_set tx_type txb_ctx scan.now levels w.old w.new self.old self.new }
        ensures moves { Moved W.Known (2 ^ 20) w.old w.new self.old self.new }
        ensures rest { self.new.bc ≡ self.old.bc }
    {
        let block = CoeffBlock {
            tx_size,
            tx_class: tx_type.class(),
            txs_ctx: get_txsize_entropy_ctx(tx_size),
            plane_type: plane_type(plane),
        };
        let all_zero = CDFContext::txb_skip_cdf(block.txs_ctx, txb_ctx.txb_skip_ctx);
        self.flag(w, eob == 0, all_zero)?;
        if eob == 0 {
            return Ok(0);
        }
        self.write_type_of_plane(
            w,
            plane,
            tx_size,
            tx_type,
            pred_mode,
            use_reduced_tx_set,
            eob,
        )?;
        let positions = scan.positions.as_slice();
        let dc_sign_ctx = txb_ctx.dc_sign_ctx;
        let total = self.write_block_coeffs(w, block, coeffs, positions, eob, dc_sign_ctx)?;
        Ok(entry_of(total, first_level(coeffs, positions)))
    }

    /// Codes the coefficients of a transform block (rav1e, `context/block_unit.rs`; AV1 specification, "Coefficients syntax"),
    /// and enters them in the coefficient edges of `plane`, whose sides are halved `xdec` and `ydec` times. The answer is
    /// whether there are some.
    ///
    /// `coeffs_in` has the coefficient of column c and row r at position c * h + r, where h rows are coded, and `scan` the order
    /// of these positions. All of the first `eob` in this order are coded, of which the last is not 0, and all others are 0. The
    /// transform stands at `bo`, in a block whose size in the plane is `plane_bsize`, and so many of its columns and rows of
    /// samples are inside the frame. Its type is coded in luma, where `pred_mode` is the luma mode of the block.
    pub fn write_coeffs_lv_map<T: Coefficient, W: Writer>(
        &mut self,
        w: &mut W,
        plane: usize,
        bo: TileBlockOffset,
        coeffs_in: &[T],
        eob: u16,
        pred_mode: PredictionMode,
        tx_size: TxSize,
        tx_type: TxType,
        scan: &Scan,
        plane_bsize: BlockSize,
        xdec: usize,
        ydec: usize,
        use_reduced_tx_set: bool,
        frame_clipped_txw: usize,
        frame_clipped_txh: usize,
    ) -> Result<bool, OutOfMemory>
        requires plane { plane < 3 }
        requires xdec { xdec ≤ 1 }
        requires ydec { ydec ≤ 1 }
        requires columns { bo.0.x / 2 ^ xdec + 2 ^ (tx_width_log2 tx_size - 2) ≤ 1024 }
        requires rows { bo.0.y % 16 / 2 ^ ydec + 2 ^ (tx_height_log2 tx_size - 2) ≤ 16 }
        requires clipped_width { frame_clipped_txw ≤ 2 ^ tx_width_log2 tx_size }
        requires clipped_height { frame_clipped_txh ≤ 2 ^ tx_height_log2 tx_size }
        requires mode { plane ≡ 0 → prediction_mode_number pred_mode ≢ 13 }
        requires typed { HasType plane tx_size pred_mode use_reduced_tx_set eob tx_type }
        requires coded { AreCoded tx_size (class_of tx_type) scan.now eob (map T.value coeffs_in.now) }
        requires cdfs { AreCdfs self.old.fc }
        requires early { (W.position w.old).shift ≤ 2 ^ 28 }
        ensures answer { IfOk result (λ some. some ≡ nat_lt 0 eob) }
        ensures wrote { let contexts = block_contexts self.old.bc plane bo.0 plane_bsize tx_size xdec ydec frame_clipped_txw frame_clipped_txh in
            let levels = levels_at (map T.value coeffs_in.now) scan.now eob in
            TransformCoded W.Known result plane tx_size pred_mode use_reduced_tx_set tx_type contexts scan.now levels w.old w.new self.old self.new }
        ensures edges { OnOk result (self.new.bc ≡
            with_coefficients plane bo.0 tx_size xdec ydec (entry_at (map T.value coeffs_in.now) scan.now eob) self.old.bc) }
        ensures refused { OnErr result (self.new.bc ≡ self.old.bc) }
        ensures moves { Moved W.Known (2 ^ 20) w.old w.new self.old self.new }
    {
        let txb_ctx = self.bc.get_txb_ctx(
            plane_bsize,
            tx_size,
            plane,
            bo,
            xdec,
            ydec,
            frame_clipped_txw,
            frame_clipped_txh,
        );
        let entry = self.code_coeffs(
            w,
            plane,
            coeffs_in,
            eob,
            pred_mode,
            tx_size,
            tx_type,
            scan,
            use_reduced_tx_set,
            txb_ctx,
        )?;
        self.bc
            .set_coeff_context(plane, bo, tx_size, xdec, ydec, entry);
        Ok(eob > 0)
    }
}
