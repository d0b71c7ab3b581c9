// The edges above and to the left of what is coded next.
ghost use Rattle.std.specs.Prelude.{◌≡◌, ◌+◌, ◌-◌, ◌/◌, ◌%◌, ◌^◌, ◌<◌, ◌≤◌, IfOk};
ghost use Rattle.av1_geometry.specs.BlockSize.{width_mi, height_mi, width_log2, height_log2};
ghost use Rattle.av1_geometry.specs.TxSize.{tx_width_log2, tx_height_log2};
ghost use Rattle.av1_blocks.specs.Grid.{IsInside, skip_context, intra_inter_context};
ghost use Rattle.av1_blocks.specs.Places.{sb_column};
ghost use Rattle.av1_blocks.specs.Saved.{IsSavedOf, first_block, saved_of};

use crate::checkpoint::BlockContextCheckpoint;
use crate::coefficients::{
    TXB_CTX, chroma_skip_ctx, dc_sign_ctx, has_sides, is_larger, luma_skip_ctx,
};
use crate::edge::{
    clear_planes, fill, fill_above, fill_left, halvings, put_back, put_back_planes, take,
    take_partitions, take_planes,
};
use crate::saved_blocks::SavedBlocks;
use crate::tile_blocks_mut::TileBlocksMut;
use av1_geometry::{
    BlockSize, COEFF_CONTEXT_BITS, COEFF_CONTEXT_MAX_WIDTH, ChromaSampling, MAX_PLANES, MIB_SIZE,
    OutOfMemory, PARTITION_CONTEXT_MAX_WIDTH, TileBlockOffset, TileSuperBlockOffset, TxSize,
    has_chroma, partition_context_lookup,
};
use std::alloc::Global;

/// What the blocks above and to the left leave: the edges above by columns of the tile, those to the left by rows of the superblock.
#[derive(Drop)]
pub struct BlockContext {
    pub cdef_coded: bool,
    pub code_deltas: bool,
    pub update_seg: bool,
    pub preskip_segid: bool,
    /// For each column of 8 luma samples, by the width of the block above.
    pub above_partition_context: [u8; PARTITION_CONTEXT_MAX_WIDTH],
    pub left_partition_context: [u8; MIB_SIZE >> 1],
    /// For each column of 4 luma samples, the width of the transform above.
    pub above_tx_context: [u8; COEFF_CONTEXT_MAX_WIDTH],
    pub left_tx_context: [u8; MIB_SIZE],
    /// For each plane and column of 4 samples, the size of the levels above and the first one's sign.
    pub above_coeff_context: [[u8; COEFF_CONTEXT_MAX_WIDTH]; MAX_PLANES],
    pub left_coeff_context: [[u8; MIB_SIZE]; MAX_PLANES],
    pub blocks: TileBlocksMut,
}

impl BlockContext {
    ghost use Rattle.av1_blocks.specs.Coefficients.{with_dc_sign, block_contexts};
    ghost use Rattle.av1_blocks.specs.Edges.{fresh, partition_context, planes_coded, taken, tx_width, tx_height};
    ghost use Rattle.av1_blocks.specs.Edges.{with_coefficients, with_edges, with_left_reset, with_partition, with_plane};
    ghost use Rattle.av1_blocks.specs.Edges.{with_reset, with_restored, with_skip_reset, with_tx_sides};

    /// The edges before the first block of a tile.
    pub fn new(blocks: TileBlocksMut) -> Self
        ensures { result ≡ fresh blocks }
    {
        BlockContext {
            cdef_coded: false,
            code_deltas: false,
            update_seg: false,
            preskip_segid: false,
            above_partition_context: [0; PARTITION_CONTEXT_MAX_WIDTH],
            left_partition_context: [0; MIB_SIZE >> 1],
            above_tx_context: [0; COEFF_CONTEXT_MAX_WIDTH],
            left_tx_context: [0; MIB_SIZE],
            above_coeff_context: [[0; COEFF_CONTEXT_MAX_WIDTH]; MAX_PLANES],
            left_coeff_context: [[0; MIB_SIZE]; MAX_PLANES],
            blocks,
        }
    }

    /// The context of a partition.
    pub fn partition_plane_context(&self, bo: TileBlockOffset, bsize: BlockSize) -> usize
        requires column { bo.0.x < 1024 }
        requires square { width_log2 bsize ≡ height_log2 bsize }
        requires least { 3 ≤ width_log2 bsize }
        ensures { result ≡ partition_context self.now bo.0 bsize }
    {
        let above = self.above_partition_context[bo.0.x >> 1];
        let left = self.left_partition_context[bo.0.y_in_sb() >> 1];
        let bsl = bsize.width_log2() - 3;
        let above = (above >> bsl) & 1;
        let left = (left >> bsl) & 1;
        (left * 2 + above) as usize + bsl * 4
    }

    /// Enters that a block is parted into blocks of a size.
    pub fn update_partition_context(
        &mut self,
        bo: TileBlockOffset,
        subsize: BlockSize,
        bsize: BlockSize,
    )
        requires column { bo.0.x + width_mi bsize ≤ 1024 }
        requires row { bo.0.y % 16 + height_mi bsize ≤ 16 }
        ensures { self.new ≡ with_partition bo.0 subsize bsize self.old }
    {
        let [above, left] = partition_context_lookup[subsize.number()];
        let (x, y) = (bo.0.x, bo.0.y_in_sb());
        fill(
            &mut self.above_partition_context,
            x >> 1,
            (x + bsize.width_mi()) >> 1,
            above,
        );
        fill(
            &mut self.left_partition_context,
            y >> 1,
            (y + bsize.height_mi()) >> 1,
            left,
        );
    }

    /// How many of the blocks above and to the left are skipped.
    pub fn skip_context(&self, bo: TileBlockOffset) -> usize
        requires { IsInside self.now.blocks bo.0 }
        ensures value { result ≡ skip_context self.now.blocks bo.0 }
        ensures few { result < 3 }
    {
        let above = bo.0.y > 0 && self.blocks.above_of(bo).skip;
        let left = bo.0.x > 0 && self.blocks.left_of(bo).skip;
        usize::from(above) + usize::from(left)
    }

    /// How the blocks above and to the left are predicted.
    pub fn intra_inter_context(&self, bo: TileBlockOffset) -> usize
        requires { IsInside self.now.blocks bo.0 }
        ensures value { result ≡ intra_inter_context self.now.blocks bo.0 }
        ensures few { result < 4 }
    {
        let above_intra = bo.0.y > 0 && !self.blocks.above_of(bo).is_inter();
        let left_intra = bo.0.x > 0 && !self.blocks.left_of(bo).is_inter();
        if above_intra && left_intra {
            3
        } else if !above_intra && !left_intra {
            0
        } else if bo.0.x == 0 || bo.0.y == 0 {
            2
        } else {
            1
        }
    }

    /// What `rollback` needs to go back to these edges, after calls in the superblock of a place.
    pub fn checkpoint(
        &self,
        tile_bo: &TileBlockOffset,
        chroma_sampling: ChromaSampling,
    ) -> BlockContextCheckpoint
        ensures { result ≡ taken tile_bo.now.0 chroma_sampling self.now }
    {
        let x = sb_column(tile_bo.0.x);
        BlockContextCheckpoint {
            x,
            chroma_sampling,
            cdef_coded: self.cdef_coded,
            above_partition_context: take_partitions(&self.above_partition_context, x >> 1),
            left_partition_context: self.left_partition_context,
            above_tx_context: take(&self.above_tx_context, x),
            left_tx_context: self.left_tx_context,
            above_coeff_context: take_planes(
                &self.above_coeff_context,
                chroma_sampling.planes(),
                chroma_sampling.xdec(),
                x,
            ),
            left_coeff_context: self.left_coeff_context,
        }
    }

    /// The edges go back to a checkpoint, in the columns of its superblock; the grid stays.
    pub fn rollback(&mut self, checkpoint: &BlockContextCheckpoint)
        ensures { self.new ≡ with_edges checkpoint.now self.old }
    {
        let x = sb_column(checkpoint.x);
        let cs = checkpoint.chroma_sampling;
        self.cdef_coded = checkpoint.cdef_coded;
        put_back(
            &mut self.above_partition_context,
            x >> 1,
            MIB_SIZE >> 1,
            &checkpoint.above_partition_context,
        );
        self.left_partition_context = checkpoint.left_partition_context;
        put_back(
            &mut self.above_tx_context,
            x,
            MIB_SIZE,
            &checkpoint.above_tx_context,
        );
        self.left_tx_context = checkpoint.left_tx_context;
        put_back_planes(
            &mut self.above_coeff_context,
            cs.planes(),
            cs.xdec(),
            x,
            &checkpoint.above_coeff_context,
        );
        self.left_coeff_context = checkpoint.left_coeff_context;
    }

    /// Clears the edges to the left, in so many planes, as a row of superblocks begins.
    pub fn reset_left_contexts(&mut self, planes: usize)
        requires { planes ≤ 3 }
        ensures { self.new ≡ with_left_reset planes self.old }
    {
        clear_planes(&mut self.left_coeff_context, planes);
        self.left_partition_context = [0; MIB_SIZE >> 1];
        self.left_tx_context = [0; MIB_SIZE];
    }

    /// Enters the sides of a block's transforms: those of the transform, or of the whole block where it is skipped.
    pub fn update_tx_size_context(
        &mut self,
        bo: TileBlockOffset,
        bsize: BlockSize,
        tx_size: TxSize,
        skip: bool,
    )
        requires column { bo.0.x + width_mi bsize ≤ 1024 }
        requires row { bo.0.y % 16 + height_mi bsize ≤ 16 }
        ensures { self.new ≡ with_tx_sides bo.0 bsize (tx_width bsize tx_size skip) (tx_height bsize tx_size skip) self.old }
    {
        let (width, height) = if skip {
            (bsize.width(), bsize.height())
        } else {
            (tx_size.width(), tx_size.height())
        };
        let (x, y) = (bo.0.x, bo.0.y_in_sb());
        fill(
            &mut self.above_tx_context,
            x,
            x + bsize.width_mi(),
            width as u8,
        );
        fill(
            &mut self.left_tx_context,
            y,
            y + bsize.height_mi(),
            height as u8,
        );
    }

    /// Enters the first level's sign into the entry of a transform block.
    pub fn set_dc_sign(cul_level: &mut u32, dc_val: i32)
        requires { cul_level.old ≤ 63 }
        ensures { cul_level.new ≡ with_dc_sign cul_level.old dc_val }
    {
        if dc_val < 0 {
            *cul_level += 1 << COEFF_CONTEXT_BITS;
        } else if dc_val > 0 {
            *cul_level += 2 << COEFF_CONTEXT_BITS;
        }
    }

    /// Enters a number over a transform block in a plane whose sides are halved so often.
    pub fn set_coeff_context(
        &mut self,
        plane: usize,
        bo: TileBlockOffset,
        tx_size: TxSize,
        xdec: usize,
        ydec: usize,
        value: u8,
    )
        requires plane { plane < 3 }
        requires xdec { xdec ≤ 1 }
        requires ydec { ydec ≤ 1 }
        requires columns { bo.0.x / 2 ^ xdec + 2 ^ (tx_width_log2 tx_size - 2) ≤ 1024 }
        requires rows { bo.0.y % 16 / 2 ^ ydec + 2 ^ (tx_height_log2 tx_size - 2) ≤ 16 }
        ensures { self.new ≡ with_coefficients plane bo.0 tx_size xdec ydec value self.old }
    {
        let (x, y) = (bo.0.x >> xdec, bo.0.y_in_sb() >> ydec);
        self.fill_plane(plane, x, tx_size.width_mi(), y, tx_size.height_mi(), value);
    }

    // Sets a number over so many columns and rows in the coefficient edges of one plane.
    fn fill_plane(
        &mut self,
        plane: usize,
        x: usize,
        width: usize,
        y: usize,
        height: usize,
        value: u8,
    )
        requires plane { plane < 3 }
        requires columns { x + width ≤ 1024 }
        requires rows { y + height ≤ 16 }
        ensures { self.new ≡ with_plane plane x width y height value self.old }
    {
        fill_above(&mut self.above_coeff_context[plane], x, x + width, value);
        fill_left(&mut self.left_coeff_context[plane], y, y + height, value);
    }

    /// Enters that a block has no coefficients, in the planes that it codes.
    pub fn reset_skip_context(
        &mut self,
        bo: TileBlockOffset,
        bsize: BlockSize,
        xdec: usize,
        ydec: usize,
        cs: ChromaSampling,
    )
        requires column { bo.0.x + width_mi bsize ≤ 1024 }
        requires row { bo.0.y % 16 + height_mi bsize ≤ 16 }
        requires xdec { xdec ≤ 1 }
        requires ydec { ydec ≤ 1 }
        ensures { self.new ≡ with_skip_reset (planes_coded bo.0 bsize xdec ydec cs) xdec ydec bo.0 bsize self.old }
    {
        let planes = if has_chroma(bo, bsize, xdec, ydec, cs) {
            MAX_PLANES
        } else {
            1
        };
        self.reset_planes(
            planes,
            xdec,
            bo.0.x,
            bsize.width_mi(),
            ydec,
            bo.0.y_in_sb(),
            bsize.height_mi(),
        );
    }

    // Sets 0 over so many columns and rows of luma in the coefficient edges of the first planes.
    fn reset_planes(
        &mut self,
        planes: usize,
        xdec: usize,
        x: usize,
        width: usize,
        ydec: usize,
        y: usize,
        height: usize,
    )
        requires planes { planes ≤ 3 }
        requires xdec { xdec ≤ 1 }
        requires ydec { ydec ≤ 1 }
        requires width { 1 ≤ width }
        requires height { 1 ≤ height }
        requires columns { x + width ≤ 1024 }
        requires rows { y + height ≤ 16 }
        ensures { self.new ≡ with_reset planes xdec x width ydec y height self.old }
    {
        for plane in 0..planes {
            let dx = halvings(xdec, plane);
            let dy = halvings(ydec, plane);
            let columns = (width >> dx).max(1);
            let rows = (height >> dy).max(1);
            self.fill_plane(plane, x >> dx, columns, y >> dy, rows, 0);
        }
    }

    /// The contexts of a transform block in a plane whose sides are halved so often, of which so many samples are inside the frame.
    pub fn get_txb_ctx(
        &self,
        plane_bsize: BlockSize,
        tx_size: TxSize,
        plane: usize,
        bo: TileBlockOffset,
        xdec: usize,
        ydec: usize,
        frame_clipped_txw: usize,
        frame_clipped_txh: usize,
    ) -> TXB_CTX
        requires plane { plane < 3 }
        requires xdec { xdec ≤ 1 }
        requires ydec { ydec ≤ 1 }
        requires columns { bo.0.x / 2 ^ xdec + frame_clipped_txw / 4 ≤ 1024 }
        requires rows { bo.0.y % 16 / 2 ^ ydec + frame_clipped_txh / 4 ≤ 16 }
        ensures value { result ≡
            block_contexts self.now plane bo.0 plane_bsize tx_size xdec ydec frame_clipped_txw frame_clipped_txh }
        ensures few_skips { result.txb_skip_ctx < 13 }
        ensures few_signs { result.dc_sign_ctx < 3 }
    {
        let (x, y) = (bo.0.x >> xdec, bo.0.y_in_sb() >> ydec);
        let above = &self.above_coeff_context[plane];
        let above = &above[x..x + (frame_clipped_txw >> 2)];
        let left = &self.left_coeff_context[plane];
        let left = &left[y..y + (frame_clipped_txh >> 2)];
        let txb_skip_ctx = if plane == 0 {
            luma_skip_ctx(has_sides(plane_bsize, tx_size), above, left)
        } else {
            chroma_skip_ctx(is_larger(plane_bsize, tx_size), above, left)
        };
        TXB_CTX {
            txb_skip_ctx,
            dc_sign_ctx: dc_sign_ctx(above, left),
        }
    }

    /// The blocks of a superblock, as far as they are inside the tile.
    pub fn save_sb(
        &self,
        alloc: Global,
        sbo: TileSuperBlockOffset,
    ) -> Result<SavedBlocks, OutOfMemory>
        requires { IsInside self.now.blocks (first_block sbo.0) }
        ensures { IfOk result (λ s. s ≡ saved_of sbo.0 self.now.blocks) }
    {
        SavedBlocks::of(alloc, &self.blocks.as_const(), sbo)
    }

    /// Puts the blocks of a superblock back.
    pub fn restore_sb(&mut self, saved: &SavedBlocks)
        requires { IsSavedOf self.old.blocks saved.now }
        ensures { self.new ≡ with_restored saved.now self.old }
    {
        self.blocks.restore(saved);
    }
}

// The first column of the superblock of a column, of those that the edges have.
fn sb_column(x: usize) -> usize
    ensures value { result ≡ sb_column x }
    ensures inside { result ≤ 1008 }
{
    x % COEFF_CONTEXT_MAX_WIDTH / MIB_SIZE * MIB_SIZE
}
