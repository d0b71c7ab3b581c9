// Partitions, skip flags, factors of chroma from luma, and segments.
ghost use Rattle.std.specs.Prelude.{◌≡◌, ℕ, ◌+◌, ◌^◌, ◌-◌, ◌<◌, ◌≤◌, IsTrue, length, false, pos, unsigned_abs, ◌≤ℤ◌, ◌<ℤ◌};
ghost use Rattle.av1_blocks.specs.Edges.{partition_context};
ghost use Rattle.av1_blocks.specs.Grid.{IsInside, block_at};
ghost use Rattle.av1_cdf.specs.Context.{AreCdfs};
ghost use Rattle.av1_cdf.specs.Slots.{slot_of};
ghost use Rattle.av1_geometry.specs.Cfl.{sign_at, scale_at, signed};
ghost use Rattle.av1_geometry.specs.PartitionType.{partition_number};
ghost use Rattle.av1_model.specs.Cdf.{IsCdf};
ghost use Rattle.av1_syntax.specs.Partition.{probability, gathered, vert_alike, horz_alike, partition_slot, partitions, has_cols, has_rows, split_number, IsParted, is_allowed};
ghost use Rattle.av1_syntax.specs.Segments.{agreement, predicted_segment, segment_context, entered_segment, interleaved};

use crate::context_writer::ContextWriter;
use av1_cdf::{CDFContext, CDFOffset};
use av1_ec::Writer;
use av1_geometry::{BlockSize, CFLParams, OutOfMemory, PartitionType, TileBlockOffset};

impl ContextWriter {
    ghost use Rattle.av1_syntax.specs.Calls.{Coded, Moved};
    ghost use Rattle.av1_syntax.specs.Factors.{AreCoded, factors_element, factor_where, factor_at, factors_of};
    ghost use Rattle.av1_syntax.specs.Flags.{skip_element};
    ghost use Rattle.av1_syntax.specs.Partition.{partition_element};
    ghost use Rattle.av1_syntax.specs.Segments.{SegmentCoded};

    /// Codes whether a block is skipped: whether it has no coefficients.
    pub fn write_skip<W: Writer>(
        &mut self,
        w: &mut W,
        bo: TileBlockOffset,
        skip: bool,
    ) -> Result<(), OutOfMemory>
        requires inside { IsInside self.old.bc.blocks bo.0 }
        requires cdfs { AreCdfs self.old.fc }
        requires early { (W.position w.old).shift ≤ 2 ^ 28 }
        ensures wrote { Coded W.Known result (skip_element self.old.bc.blocks bo.0) skip w.old w.new self.old self.new }
        ensures moves { Moved W.Known 13 w.old w.new self.old self.new }
        ensures rest { self.new.bc ≡ self.old.bc }
    {
        let cdf = CDFContext::skip_cdfs(self.bc.skip_context(bo));
        self.flag(w, skip, cdf)
    }

    /// The part of 32768 that a symbol of a CDF has.
    pub fn cdf_element_prob(cdf: &[u16], element: usize) -> u16
        requires cdf { IsCdf cdf.now }
        requires element { element < length cdf.now }
        ensures value { result ≡ probability cdf.now element }
        ensures most { result ≤ 32768 }
    {
        let from = if element == 0 {
            32768
        } else {
            cdf[element - 1]
        };
        let to = if element + 1 == cdf.len() {
            0
        } else {
            cdf[element]
        };
        from - to
    }

    /// Codes how a block is parted. Where its second half begins outside the tile, in columns or in rows, it is parted there
    /// in any case, and a flag tells whether it is parted in the other direction as well; where both do, nothing is coded.
    /// The flag's distribution is gathered from those of the partitions, and does not learn.
    pub fn write_partition<W: Writer>(
        &mut self,
        w: &mut W,
        bo: TileBlockOffset,
        p: PartitionType,
        bsize: BlockSize,
    ) -> Result<(), OutOfMemory>
        requires place { IsParted self.old.bc.blocks bo.0 bsize }
        requires allowed { IsTrue (is_allowed (has_cols self.old.bc.blocks bo.0 bsize) (has_rows self.old.bc.blocks bo.0 bsize) bsize p) }
        requires cdfs { AreCdfs self.old.fc }
        requires early { (W.position w.old).shift ≤ 2 ^ 28 }
        ensures wrote { Coded W.Known result (partition_element self.old.fc self.old.bc bo.0 bsize) p w.old w.new self.old self.new }
        ensures moves { Moved W.Known 13 w.old w.new self.old self.new }
        ensures rest { self.new.bc ≡ self.old.bc }
    {
        let cdf = self.partition_cdf(bo, bsize);
        match (self.has_cols(bo, bsize), self.has_rows(bo, bsize)) {
            (true, true) => self.symbol(w, p.number() as u32, cdf),
            (true, false) => {
                let gathered = gather_vert_alike(self.fc.values_of(cdf));
                self.fixed_symbol(w, split_number(p), &gathered)
            }
            (false, true) => {
                let gathered = gather_horz_alike(self.fc.values_of(cdf));
                self.fixed_symbol(w, split_number(p), &gathered)
            }
            (false, false) => Ok(()),
        }
    }

    // The distribution of partitions by the blocks above and to the left. A block that is parted at the tile's end has all ten.
    fn partition_cdf(&self, bo: TileBlockOffset, bsize: BlockSize) -> CDFOffset
        requires place { IsParted self.now.bc.blocks bo.0 bsize }
        ensures is { slot_of result ≡ partition_slot (partition_context self.now.bc bo.0 bsize) }
        ensures len { result.len ≡ partitions bsize }
    {
        partition_slot(self.bc.partition_plane_context(bo, bsize))
    }

    // Whether the second half of a block begins inside the tile, in columns.
    fn has_cols(&self, bo: TileBlockOffset, bsize: BlockSize) -> bool
        requires place { IsParted self.now.bc.blocks bo.0 bsize }
        ensures { result ≡ has_cols self.now.bc.blocks bo.0 bsize }
    {
        bo.0.x + bsize.width_mi() / 2 < self.bc.blocks.cols()
    }

    // And in rows.
    fn has_rows(&self, bo: TileBlockOffset, bsize: BlockSize) -> bool
        requires place { IsParted self.now.bc.blocks bo.0 bsize }
        ensures { result ≡ has_rows self.now.bc.blocks bo.0 bsize }
    {
        bo.0.y + bsize.width_mi() / 2 < self.bc.blocks.rows()
    }

    /// Codes the factors of chroma from luma: both signs in one symbol, and the size of each factor that is not zero.
    pub fn write_cfl_alphas<W: Writer>(
        &mut self,
        w: &mut W,
        cfl: CFLParams,
    ) -> Result<(), OutOfMemory>
        requires factors { AreCoded cfl }
        requires cdfs { AreCdfs self.old.fc }
        requires early { (W.position w.old).shift ≤ 2 ^ 28 }
        ensures wrote { Coded W.Known result factors_element (factors_of cfl) w.old w.new self.old self.new }
        ensures moves { Moved W.Known 39 w.old w.new self.old self.new }
        ensures rest { self.new.bc ≡ self.old.bc }
    {
        self.symbol(w, cfl.joint_sign(), CDFContext::cfl_sign_cdf())?;
        self.write_factor(w, cfl, 0)?;
        self.write_factor(w, cfl, 1)
    }

    // Codes the size of a factor, unless it is zero.
    fn write_factor<W: Writer>(
        &mut self,
        w: &mut W,
        cfl: CFLParams,
        uv: usize,
    ) -> Result<(), OutOfMemory>
        requires plane { uv < 2 }
        requires factors { AreCoded cfl }
        requires cdfs { AreCdfs self.old.fc }
        requires shift { (W.position w.old).shift + 13 ≤ 2 ^ 28 + 2 ^ 24 }
        ensures wrote { Coded W.Known result (factor_where cfl uv) (factor_at cfl uv) w.old w.new self.old self.new }
        ensures moves { Moved W.Known 13 w.old w.new self.old self.new }
        ensures rest { self.new.bc ≡ self.old.bc }
    {
        if cfl.is_coded(uv) {
            let cdf = CDFContext::cfl_alpha_cdf(cfl.context(uv));
            return self.symbol(w, cfl.index(uv), cdf);
        }
        Ok(())
    }

    /// The segment that the blocks above and to the left predict, up to the last one that is used, and the context of their
    /// agreement, 0 to 2.
    pub fn get_segment_pred(&self, bo: TileBlockOffset, last_active_segid: u8) -> (u8, u8)
        requires { IsInside self.now.bc.blocks bo.0 }
        ensures segment { result.0 ≡ predicted_segment self.now.bc.blocks bo.0 last_active_segid }
        ensures context { result.1 ≡ segment_context self.now.bc.blocks bo.0 }
        ensures few { result.1 < 3 }
    {
        let blocks = &self.bc.blocks;
        if bo.0.x == 0 && bo.0.y == 0 {
            return (0, 0);
        }
        if bo.0.x == 0 {
            return (
                blocks.above_of(bo).segmentation_idx.min(last_active_segid),
                0,
            );
        }
        if bo.0.y == 0 {
            return (
                blocks.left_of(bo).segmentation_idx.min(last_active_segid),
                0,
            );
        }
        let above = blocks.above_of(bo).segmentation_idx;
        let left = blocks.left_of(bo).segmentation_idx;
        let corner = blocks.above_left_of(bo).segmentation_idx;
        let segment = if corner == above { above } else { left };
        (
            segment.min(last_active_segid),
            agreement(corner, above, left),
        )
    }

    /// The number of `x` among the values from 0 up to `max`, where the prediction `r` and those around it come first.
    pub fn neg_interleave(x: i32, r: i32, max: i32) -> i32
        requires value_from { pos 0 ≤ℤ x }
        requires value_to { x <ℤ max }
        requires prediction_from { pos 0 ≤ℤ r }
        requires prediction_to { r <ℤ max }
        ensures { result ≡ pos (interleaved (unsigned_abs max) (unsigned_abs r) (unsigned_abs x)) }
    {
        interleave(x as u32, r as u32, max as u32) as i32
    }

    /// Codes the segment of a block, which stands at its place in the grid, by its distance from the predicted one. A block
    /// that is skipped has the predicted segment: it is entered over the part of the block inside the tile, and nothing is
    /// coded.
    pub fn write_segmentation<W: Writer>(
        &mut self,
        w: &mut W,
        bo: TileBlockOffset,
        bsize: BlockSize,
        skip: bool,
        last_active_segid: u8,
    ) -> Result<(), OutOfMemory>
        requires inside { IsInside self.old.bc.blocks bo.0 }
        requires last { last_active_segid ≤ 7 }
        requires segment { skip ≡ false → (block_at self.old.bc.blocks bo.0.x bo.0.y).segmentation_idx ≤ last_active_segid }
        requires cdfs { AreCdfs self.old.fc }
        requires early { (W.position w.old).shift ≤ 2 ^ 28 }
        ensures wrote { SegmentCoded W.Known result self.old.bc.blocks bo.0 skip last_active_segid w.old w.new self.old self.new }
        ensures moves { Moved W.Known 13 w.old w.new self.old self.new }
        ensures edges { self.new.bc ≡ entered_segment bo.0 bsize skip last_active_segid self.old.bc }
    {
        let (segment, context) = self.get_segment_pred(bo, last_active_segid);
        if skip {
            self.bc.blocks.set_segmentation_idx(bo, bsize, segment);
            return Ok(());
        }
        let idx = u32::from(self.bc.blocks.at(bo).segmentation_idx);
        let s = interleave(idx, u32::from(segment), u32::from(last_active_segid) + 1);
        let cdf = CDFContext::spatial_segmentation_cdfs(context as usize);
        self.symbol(w, s, cdf)
    }
}

// The number of `x` among the `n` values from 0 on, where those around `r` come first.
fn interleave(x: u32, r: u32, n: u32) -> u32
    requires value { x < n }
    requires prediction { r < n }
    ensures value { result ≡ interleaved n r x }
    ensures below { result < n }
{
    let room = r.min(n - 1 - r);
    if x > r && x - r <= room {
        return 2 * (x - r) - 1;
    }
    if x <= r && r - x <= room {
        return 2 * (r - x);
    }
    if r < n - r { x } else { n - 1 - x }
}

// How far the segments of the blocks above and to the left agree.
fn agreement(corner: u8, above: u8, left: u8) -> u8
    ensures value { result ≡ agreement corner above left }
    ensures few { result < 3 }
{
    if corner == above && corner == left {
        2
    } else if corner == above || corner == left || above == left {
        1
    } else {
        0
    }
}

// The distribution of partitions by their context.
fn partition_slot(ctx: usize) -> CDFOffset
    requires { ctx < 16 }
    ensures { slot_of result ≡ partition_slot ctx }
{
    if ctx < 4 {
        CDFContext::partition_w8_cdf(ctx)
    } else {
        CDFContext::partition_cdf(ctx - 4)
    }
}

// The symbol of a flag that tells whether a block is parted in both directions.
fn split_number(p: PartitionType) -> u32
    ensures { result ≡ split_number p }
{
    u32::from(p.number() == PartitionType::PARTITION_SPLIT.number())
}

// Whether a block is parted in both directions, where it is parted into two rows in any case.
#[tactic(auto, using(crate::proofs::Gathering::vert_few))]
fn gather_vert_alike(cdf: &[u16]) -> [u16; 2]
    requires cdf { IsCdf cdf.now }
    requires ten { length cdf.now ≡ 10 }
    ensures { result ≡ gathered cdf.now vert_alike }
{
    let sum = prob(cdf, PartitionType::PARTITION_VERT)
        + prob(cdf, PartitionType::PARTITION_SPLIT)
        + prob(cdf, PartitionType::PARTITION_HORZ_A)
        + prob(cdf, PartitionType::PARTITION_VERT_A)
        + prob(cdf, PartitionType::PARTITION_VERT_B)
        + prob(cdf, PartitionType::PARTITION_VERT_4);
    [sum as u16, 0]
}

// The same, where it is parted into two columns in any case.
#[tactic(auto, using(crate::proofs::Gathering::horz_few))]
fn gather_horz_alike(cdf: &[u16]) -> [u16; 2]
    requires cdf { IsCdf cdf.now }
    requires ten { length cdf.now ≡ 10 }
    ensures { result ≡ gathered cdf.now horz_alike }
{
    let sum = prob(cdf, PartitionType::PARTITION_HORZ)
        + prob(cdf, PartitionType::PARTITION_SPLIT)
        + prob(cdf, PartitionType::PARTITION_HORZ_A)
        + prob(cdf, PartitionType::PARTITION_HORZ_B)
        + prob(cdf, PartitionType::PARTITION_VERT_A)
        + prob(cdf, PartitionType::PARTITION_HORZ_4);
    [sum as u16, 0]
}

fn prob(cdf: &[u16], p: PartitionType) -> u32
    requires cdf { IsCdf cdf.now }
    requires ten { length cdf.now ≡ 10 }
    ensures value { result ≡ probability cdf.now (partition_number p) }
    ensures most { result ≤ 32768 }
{
    u32::from(ContextWriter::cdf_element_prob(cdf, p.number()))
}
