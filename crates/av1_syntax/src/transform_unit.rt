// Sizes and types of transforms.
ghost use Rattle.std.specs.Prelude.{◌≡◌, ℕ, ◌+◌, ◌-◌, ◌*◌, ◌/◌, ◌%◌, ◌^◌, ◌<◌, ◌≤◌, IsTrue, IfSome, OnOk};
ghost use Rattle.std.specs.Prelude.{OnErr, option_map, true, false, length, nat_eq, if◌then◌else◌, []};
ghost use Rattle.av1_blocks.specs.Grid.{IsInside};
ghost use Rattle.av1_cdf.specs.Context.{AreCdfs};
ghost use Rattle.av1_cdf.specs.Slots.{slot_of};
ghost use Rattle.av1_cdf.specs.Distribution.Distribution.{Adaptive};
ghost use Rattle.av1_geometry.specs.BlockSize.{number_of, width_log2, height_log2};
ghost use Rattle.av1_geometry.specs.BlockTables.{max_tx_size};
ghost use Rattle.av1_geometry.specs.PredictionMode.{prediction_mode_number};
ghost use Rattle.av1_geometry.specs.TxSize.{tx_width_log2, tx_height_log2};
ghost use Rattle.av1_geometry.specs.TxTables.{coded_types, uses, tx_set};
ghost use Rattle.av1_syntax.specs.TransformSizes.{longer, halved, depths, depth_of, is_offered, depth_slot};
ghost use Rattle.av1_syntax.specs.TransformSizes.{reach_above, reach_left, is_wide_above, is_high_left, tx_size_context};
ghost use Rattle.av1_syntax.specs.TransformSizes.{width_above, height_left, split_category};
ghost use Rattle.av1_syntax.specs.TransformSizes.{txfm_partition_context, split_slot, IsPlaced, is_within, parts_of, place_of};
ghost use Rattle.av1_syntax.specs.TransformSizes.{entered_tx, entered_parts, entered_split, AreSome, AreSomeIf};
ghost use Rattle.av1_syntax.specs.TransformTypes.{tx_type_slot};

use crate::context_writer::ContextWriter;
use av1_cdf::{CDFContext, CDFOffset};
use av1_ec::Writer;
use av1_geometry::{
    BlockOffset, BlockSize, OutOfMemory, PredictionMode, TileBlockOffset, TxSet, TxSize, TxType,
    get_tx_set,
};

impl ContextWriter {
    ghost use Rattle.av1_syntax.specs.Calls.{Coded, Moved};
    ghost use Rattle.av1_syntax.specs.TransformSizes.{tx_size_element, part_element, parts_element, split_element, tx_size_inter_element};
    ghost use Rattle.av1_syntax.specs.TransformTypes.{tx_type_element};

    /// Codes the type of a transform (rav1e, `context/transform_unit.rs`), which its set has, by the size, the block's mode
    /// and whether that is an inter mode. Nothing is coded where the set has one type.
    pub fn write_tx_type<W: Writer>(
        &mut self,
        w: &mut W,
        tx_size: TxSize,
        tx_type: TxType,
        y_mode: PredictionMode,
        is_inter: bool,
        use_reduced_tx_set: bool,
    ) -> Result<(), OutOfMemory>
        requires mode { is_inter ≡ false → prediction_mode_number y_mode < 13 }
        requires used { IsTrue (uses (tx_set tx_size is_inter use_reduced_tx_set) tx_type) }
        requires cdfs { AreCdfs self.old.fc }
        requires early { (W.position w.old).shift ≤ 2 ^ 28 }
        ensures wrote { Coded W.Known result (tx_type_element tx_size y_mode is_inter use_reduced_tx_set) tx_type w.old w.new self.old self.new }
        ensures moves { Moved W.Known 13 w.old w.new self.old self.new }
        ensures rest { self.new.bc ≡ self.old.bc }
    {
        self.tx_type(w, tx_size, tx_type, y_mode, is_inter, use_reduced_tx_set)
    }

    // The same, where more was coded before in the same call.
    pub(crate) fn tx_type<W: Writer>(
        &mut self,
        w: &mut W,
        tx_size: TxSize,
        tx_type: TxType,
        y_mode: PredictionMode,
        is_inter: bool,
        use_reduced_tx_set: bool,
    ) -> Result<(), OutOfMemory>
        requires mode { is_inter ≡ false → prediction_mode_number y_mode < 13 }
        requires used { IsTrue (uses (tx_set tx_size is_inter use_reduced_tx_set) tx_type) }
        requires cdfs { AreCdfs self.old.fc }
        requires shift { (W.position w.old).shift + 13 ≤ 2 ^ 28 + 2 ^ 24 }
        ensures wrote { Coded W.Known result (tx_type_element tx_size y_mode is_inter use_reduced_tx_set) tx_type w.old w.new self.old self.new }
        ensures moves { Moved W.Known 13 w.old w.new self.old self.new }
        ensures rest { self.new.bc ≡ self.old.bc }
    {
        let s = get_tx_set(tx_size, is_inter, use_reduced_tx_set).index_of(tx_type);
        match tx_type_slot(tx_size, y_mode, is_inter, use_reduced_tx_set) {
            Some(cdf) => self.symbol(w, s as u32, cdf),
            None => Ok(()),
        }
    }

    /// Codes the size of the transforms of an intra block, at most twice halved from the largest, by how the transforms
    /// above and to the left compare with that (rav1e, `context/transform_unit.rs`).
    pub fn write_tx_size_intra<W: Writer>(
        &mut self,
        w: &mut W,
        bo: TileBlockOffset,
        bsize: BlockSize,
        tx_size: TxSize,
    ) -> Result<(), OutOfMemory>
        requires inside { IsInside self.old.bc.blocks bo.0 }
        requires few { self.old.bc.blocks.cols ≤ 1024 }
        requires larger { 1 ≤ number_of bsize }
        requires size { IsTrue (is_offered (max_tx_size bsize) tx_size) }
        requires cdfs { AreCdfs self.old.fc }
        requires early { (W.position w.old).shift ≤ 2 ^ 28 }
        ensures wrote { Coded W.Known result (tx_size_element self.old.bc bo.0 bsize) tx_size w.old w.new self.old self.new }
        ensures moves { Moved W.Known 13 w.old w.new self.old self.new }
        ensures rest { self.new.bc ≡ self.old.bc }
    {
        let largest = bsize.tx_size();
        let cdf = depth_slot(largest, self.get_tx_size_context(bo, bsize));
        self.symbol(w, depth_of(largest, tx_size) as u32, cdf)
    }

    // How many of the transforms above and to the left reach over the sides of a block's largest one.
    fn get_tx_size_context(&self, bo: TileBlockOffset, bsize: BlockSize) -> usize
        requires inside { IsInside self.now.bc.blocks bo.0 }
        requires few { self.now.bc.blocks.cols ≤ 1024 }
        ensures value { result ≡ tx_size_context self.now.bc bo.0 (max_tx_size bsize) }
        ensures few { result < 3 }
    {
        let largest = bsize.tx_size();
        usize::from(self.is_wide_above(bo, largest)) + usize::from(self.is_high_left(bo, largest))
    }

    // Whether the transform above is as wide as the largest one.
    fn is_wide_above(&self, bo: TileBlockOffset, largest: TxSize) -> bool
        requires inside { IsInside self.now.bc.blocks bo.0 }
        requires few { self.now.bc.blocks.cols ≤ 1024 }
        ensures { result ≡ is_wide_above self.now.bc bo.0 largest }
    {
        bo.0.y > 0 && self.reach_above(bo) >= largest.width()
    }

    // Whether the transform to the left is as high.
    fn is_high_left(&self, bo: TileBlockOffset, largest: TxSize) -> bool
        requires { IsInside self.now.bc.blocks bo.0 }
        ensures { result ≡ is_high_left self.now.bc bo.0 largest }
    {
        bo.0.x > 0 && self.reach_left(bo) >= largest.height()
    }

    // The width of the transform above, or of the whole block if that is an inter block.
    fn reach_above(&self, bo: TileBlockOffset) -> usize
        requires inside { IsInside self.now.bc.blocks bo.0 }
        requires few { self.now.bc.blocks.cols ≤ 1024 }
        requires row { 0 < bo.0.y }
        ensures { result ≡ reach_above self.now.bc bo.0 }
    {
        let block = self.bc.blocks.above_of(bo);
        if block.is_inter() {
            4 * usize::from(block.n4_w)
        } else {
            usize::from(self.bc.above_tx_context[bo.0.x])
        }
    }

    // The height of the transform to the left, or of the whole block if that is an inter block.
    fn reach_left(&self, bo: TileBlockOffset) -> usize
        requires inside { IsInside self.now.bc.blocks bo.0 }
        requires column { 0 < bo.0.x }
        ensures { result ≡ reach_left self.now.bc bo.0 }
    {
        let block = self.bc.blocks.left_of(bo);
        if block.is_inter() {
            4 * usize::from(block.n4_h)
        } else {
            usize::from(self.bc.left_tx_context[bo.0.y_in_sb()])
        }
    }

    /// Codes whether the largest transform of an inter block, at depth 0, is split, and for each part that begins inside
    /// the tile and is not 4x4 that it is not split further; or that alone of one part, at depth 1, which is one of so many
    /// columns and rows of parts (rav1e, `context/transform_unit.rs`). The transforms' sizes are entered in the edges. After
    /// a refusal those of the parts that were coded are.
    pub fn write_tx_size_inter<W: Writer>(
        &mut self,
        w: &mut W,
        bo: TileBlockOffset,
        bsize: BlockSize,
        tx_size: TxSize,
        txfm_split: bool,
        tbx: usize,
        tby: usize,
        depth: usize,
    ) -> Result<(), OutOfMemory>
        requires inside { depth ≡ 0 → IsInside self.old.bc.blocks bo.0 }
        requires few { self.old.bc.blocks.cols ≤ 1024 }
        requires placed { IsInside self.old.bc.blocks bo.0 → IsPlaced bo.0 tx_size }
        requires larger { 1 ≤ number_of bsize }
        requires width { width_log2 bsize ≤ 6 }
        requires height { height_log2 bsize ≤ 6 }
        requires depth { depth ≤ 1 }
        requires size { tx_size ≡ halved depth (max_tx_size bsize) }
        requires whole { depth ≡ 1 → txfm_split ≡ false }
        requires cdfs { AreCdfs self.old.fc }
        requires early { (W.position w.old).shift ≤ 2 ^ 28 }
        ensures wrote { let e = tx_size_inter_element self.old.bc bo.0 bsize tx_size tbx tby depth in
            Coded W.Known result e txfm_split w.old w.new self.old self.new }
        ensures moves { Moved W.Known 65 w.old w.new self.old self.new }
        ensures entered { OnOk result (self.new.bc ≡ entered_split bo.0 bsize tx_size txfm_split self.old.bc) }
        ensures refused { OnErr result (AreSomeIf txfm_split bsize bo.0 tx_size self.old.bc self.new.bc) }
    {
        if depth == 1 {
            return self.write_part(w, bo, bsize, tx_size, tbx, tby);
        }
        self.write_split(w, bo, bsize, tx_size, txfm_split, tbx, tby)
    }

    // Codes whether the largest transform of a block is split, and its parts.
    fn write_split<W: Writer>(
        &mut self,
        w: &mut W,
        bo: TileBlockOffset,
        bsize: BlockSize,
        largest: TxSize,
        txfm_split: bool,
        tbx: usize,
        tby: usize,
    ) -> Result<(), OutOfMemory>
        requires inside { IsInside self.old.bc.blocks bo.0 }
        requires few { self.old.bc.blocks.cols ≤ 1024 }
        requires placed { IsPlaced bo.0 largest }
        requires larger { 1 ≤ number_of bsize }
        requires width { width_log2 bsize ≤ 6 }
        requires height { height_log2 bsize ≤ 6 }
        requires size { largest ≡ max_tx_size bsize }
        requires cdfs { AreCdfs self.old.fc }
        requires early { (W.position w.old).shift ≤ 2 ^ 28 }
        ensures wrote { Coded W.Known result (split_element self.old.bc bo.0 bsize tbx tby) txfm_split w.old w.new self.old self.new }
        ensures moves { Moved W.Known 65 w.old w.new self.old self.new }
        ensures entered { OnOk result (self.new.bc ≡ entered_split bo.0 bsize largest txfm_split self.old.bc) }
        ensures refused { OnErr result (AreSomeIf txfm_split bsize bo.0 largest self.old.bc self.new.bc) }
    {
        let context = self.txfm_partition_context(bo, bsize, largest, tbx, tby);
        self.flag(w, txfm_split, CDFContext::txfm_partition_cdf(context))?;
        if txfm_split {
            return self.write_parts(w, bo, bsize, largest.sub_tx_size());
        }
        self.bc
            .update_tx_size_context(bo, largest.block_size(), largest, false);
        Ok(())
    }

    // Codes that no part of a block is split further.
    fn write_parts<W: Writer>(
        &mut self,
        w: &mut W,
        bo: TileBlockOffset,
        bsize: BlockSize,
        part: TxSize,
    ) -> Result<(), OutOfMemory>
        requires inside { IsInside self.old.bc.blocks bo.0 }
        requires few { self.old.bc.blocks.cols ≤ 1024 }
        requires placed { IsPlaced bo.0 (max_tx_size bsize) }
        requires larger { 1 ≤ number_of bsize }
        requires width { width_log2 bsize ≤ 6 }
        requires height { height_log2 bsize ≤ 6 }
        requires size { part ≡ halved 1 (max_tx_size bsize) }
        requires cdfs { AreCdfs self.old.fc }
        requires shift { (W.position w.old).shift + 52 ≤ 2 ^ 28 + 2 ^ 24 }
        ensures wrote { Coded W.Known result (parts_element bo.0 bsize part (parts_of bsize part) self.old.bc) true w.old w.new self.old self.new }
        ensures moves { Moved W.Known 52 w.old w.new self.old self.new }
        ensures entered { OnOk result (self.new.bc ≡ entered_parts bo.0 part (parts_of bsize part) self.old.bc) }
        ensures refused { OnErr result (AreSome bo.0 part (parts_of bsize part) self.old.bc self.new.bc) }
    {
        let (columns, rows) = part_counts(bsize, part);
        for k in 0..columns * rows {
            let (tbx, tby) = (k % columns, k / columns);
            let place = part_place(bo, part, tbx, tby);
            self.write_part(w, place, bsize, part, tbx, tby)?;
        }
        Ok(())
    }

    // Codes that a part of a split transform is not split further, unless it begins outside the tile or is 4x4.
    fn write_part<W: Writer>(
        &mut self,
        w: &mut W,
        bo: TileBlockOffset,
        bsize: BlockSize,
        part: TxSize,
        tbx: usize,
        tby: usize,
    ) -> Result<(), OutOfMemory>
        requires few { self.old.bc.blocks.cols ≤ 1024 }
        requires placed { IsInside self.old.bc.blocks bo.0 → IsPlaced bo.0 part }
        requires larger { 1 ≤ number_of bsize }
        requires size { part ≡ halved 1 (max_tx_size bsize) }
        requires cdfs { AreCdfs self.old.fc }
        requires shift { (W.position w.old).shift + 13 ≤ 2 ^ 28 + 2 ^ 24 }
        ensures wrote { Coded W.Known result (part_element self.old.bc bo.0 bsize part tbx tby) false w.old w.new self.old self.new }
        ensures moves { Moved W.Known 13 w.old w.new self.old self.new }
        ensures entered { OnOk result (self.new.bc ≡ entered_tx bo.0 part self.old.bc) }
        ensures refused { OnErr result (self.new.bc ≡ self.old.bc) }
    {
        if !self.is_within(bo) {
            return Ok(());
        }
        self.write_whole(w, bo, bsize, part, tbx, tby)?;
        self.bc
            .update_tx_size_context(bo, part.block_size(), part, false);
        Ok(())
    }

    // Whether a place is inside the tile.
    fn is_within(&self, bo: TileBlockOffset) -> bool
        ensures { result ≡ is_within self.now.bc.blocks bo.0 }
    {
        bo.0.x < self.bc.blocks.cols() && bo.0.y < self.bc.blocks.rows()
    }

    // The same of a part that begins inside the tile; the edges stay.
    fn write_whole<W: Writer>(
        &mut self,
        w: &mut W,
        bo: TileBlockOffset,
        bsize: BlockSize,
        part: TxSize,
        tbx: usize,
        tby: usize,
    ) -> Result<(), OutOfMemory>
        requires inside { IsInside self.old.bc.blocks bo.0 }
        requires few { self.old.bc.blocks.cols ≤ 1024 }
        requires larger { 1 ≤ number_of bsize }
        requires size { part ≡ halved 1 (max_tx_size bsize) }
        requires cdfs { AreCdfs self.old.fc }
        requires shift { (W.position w.old).shift + 13 ≤ 2 ^ 28 + 2 ^ 24 }
        ensures wrote { Coded W.Known result (part_element self.old.bc bo.0 bsize part tbx tby) false w.old w.new self.old self.new }
        ensures moves { Moved W.Known 13 w.old w.new self.old self.new }
        ensures rest { self.new.bc ≡ self.old.bc }
    {
        if longer(part) == 2 {
            return Ok(());
        }
        let context = self.txfm_partition_context(bo, bsize, part, tbx, tby);
        self.symbol(w, 0, CDFContext::txfm_partition_cdf(context))
    }

    // The context of whether a transform is split, which is one of so many columns and rows of those of its block.
    fn txfm_partition_context(
        &self,
        bo: TileBlockOffset,
        bsize: BlockSize,
        tx_size: TxSize,
        tbx: usize,
        tby: usize,
    ) -> usize
        requires inside { IsInside self.now.bc.blocks bo.0 }
        requires few { self.now.bc.blocks.cols ≤ 1024 }
        ensures value { result ≡ txfm_partition_context self.now.bc bo.0 bsize tx_size tbx tby }
        ensures most { result < 42 }
    {
        let above = self.get_above_tx_width(bo, tby == 0) < tx_size.width();
        let left = self.get_left_tx_height(bo, tbx == 0) < tx_size.height();
        category(bsize, tx_size) + (usize::from(above) + usize::from(left))
    }

    // The width above by which a transform is split or not.
    fn get_above_tx_width(&self, bo: TileBlockOffset, first_tx: bool) -> usize
        requires inside { IsInside self.now.bc.blocks bo.0 }
        requires few { self.now.bc.blocks.cols ≤ 1024 }
        ensures { result ≡ width_above self.now.bc bo.0 first_tx }
    {
        if first_tx {
            if bo.0.y == 0 {
                return 64;
            }
            let block = self.bc.blocks.above_of(bo);
            if block.skip && block.is_inter() {
                return block.bsize.width();
            }
        }
        usize::from(self.bc.above_tx_context[bo.0.x])
    }

    // The height to the left by which a transform is split or not.
    fn get_left_tx_height(&self, bo: TileBlockOffset, first_tx: bool) -> usize
        requires inside { IsInside self.now.bc.blocks bo.0 }
        ensures { result ≡ height_left self.now.bc bo.0 first_tx }
    {
        if first_tx {
            if bo.0.x == 0 {
                return 64;
            }
            let block = self.bc.blocks.left_of(bo);
            if block.skip && block.is_inter() {
                return block.bsize.height();
            }
        }
        usize::from(self.bc.left_tx_context[bo.0.y_in_sb()])
    }
}

// The logarithm of the longer side.
fn longer(tx_size: TxSize) -> usize
    ensures value { result ≡ longer tx_size }
    ensures least { 2 ≤ result }
    ensures most { result ≤ 6 }
{
    tx_size.width_log2().max(tx_size.height_log2())
}

// Three for each halving of 64 down to the longer side of a block, twice, and once for that of the transform.
fn category(bsize: BlockSize, tx_size: TxSize) -> usize
    ensures value { result ≡ split_category bsize tx_size }
    ensures most { result ≤ 27 }
{
    let side = longer(bsize.tx_size());
    if longer(tx_size) == side {
        6 * (6 - side)
    } else {
        6 * (6 - side) + 3
    }
}

// How often a size is halved from the largest.
fn depth_of(largest: TxSize, tx_size: TxSize) -> usize
    requires { longer tx_size ≤ longer largest }
    ensures value { result ≡ depth_of largest tx_size }
    ensures few { result ≤ 4 }
{
    longer(largest) - longer(tx_size)
}

// The distribution of the depth, by the longer side of the largest size.
fn depth_slot(largest: TxSize, ctx: usize) -> CDFOffset
    requires larger { 3 ≤ longer largest }
    requires context { ctx < 3 }
    ensures is { slot_of result ≡ depth_slot largest ctx }
    ensures len { result.len ≡ depths largest }
{
    let side = longer(largest);
    if side == 3 {
        CDFContext::tx_size_8x8_cdf(ctx)
    } else {
        CDFContext::tx_size_cdf(side - 4, ctx)
    }
}

// How many parts of a split transform lie side by side, and how many one below the other.
fn part_counts(bsize: BlockSize, part: TxSize) -> (usize, usize)
    requires width { width_log2 bsize ≤ 6 }
    requires height { height_log2 bsize ≤ 6 }
    requires size { part ≡ halved 1 (max_tx_size bsize) }
    ensures columns { result.0 ≡ 2 ^ (width_log2 bsize - tx_width_log2 part) }
    ensures rows { result.1 ≡ 2 ^ (height_log2 bsize - tx_height_log2 part) }
    ensures all { length (parts_of bsize part) ≡ result.0 * result.1 }
    ensures few { result.0 * result.1 ≤ 4 }
{
    (
        bsize.width_mi() / part.width_mi(),
        bsize.height_mi() / part.height_mi(),
    )
}

// Where a part of a split transform is.
fn part_place(bo: TileBlockOffset, part: TxSize, tbx: usize, tby: usize) -> TileBlockOffset
    requires column { bo.0.x % 16 + tbx * 2 ^ (tx_width_log2 part - 2) < 16 }
    requires row { bo.0.y % 16 + tby * 2 ^ (tx_height_log2 part - 2) < 16 }
    ensures { result.0 ≡ place_of bo.0 part (tbx, tby) }
{
    TileBlockOffset(BlockOffset {
        x: bo.0.x + tbx * part.width_mi(),
        y: bo.0.y + tby * part.height_mi(),
    })
}

// What codes the type of a transform, where its set has several.
fn tx_type_slot(
    tx_size: TxSize,
    y_mode: PredictionMode,
    is_inter: bool,
    use_reduced_tx_set: bool,
) -> Option<CDFOffset>
    requires { is_inter ≡ false → prediction_mode_number y_mode < 13 }
    ensures is { option_map slot_of result ≡ tx_type_slot tx_size y_mode is_inter use_reduced_tx_set }
    ensures len { IfSome result (λ cdf. cdf.len ≡ length (coded_types (tx_set tx_size is_inter use_reduced_tx_set))) }
{
    let sqr = tx_size.sqr().number();
    let mode = y_mode.number();
    match get_tx_set(tx_size, is_inter, use_reduced_tx_set) {
        TxSet::TX_SET_DCTONLY => None,
        TxSet::TX_SET_INTRA_1 => Some(CDFContext::intra_tx_1_cdf(sqr, mode)),
        TxSet::TX_SET_INTRA_2 => Some(CDFContext::intra_tx_2_cdf(sqr, mode)),
        TxSet::TX_SET_INTER_1 => Some(CDFContext::inter_tx_1_cdf(sqr)),
        TxSet::TX_SET_INTER_2 => Some(CDFContext::inter_tx_2_cdf(sqr)),
        TxSet::TX_SET_INTER_3 => Some(CDFContext::inter_tx_3_cdf(sqr)),
    }
}
