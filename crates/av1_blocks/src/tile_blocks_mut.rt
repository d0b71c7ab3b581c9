// A tile of the grid, to enter blocks in.
ghost use Rattle.std.specs.Prelude.{◌≡◌, ◌+◌, ◌-◌, ◌<◌, ◌≤◌};
ghost use Rattle.av1_blocks.specs.Entry.{entered};
ghost use Rattle.av1_blocks.specs.Grid.{IsInside, tile, block_at, over};
ghost use Rattle.av1_blocks.specs.Saved.{IsSavedOf, with_saved};

use crate::block::Block;
use crate::entry::Entry;
use crate::frame_blocks::FrameBlocks;
use crate::saved_blocks::SavedBlocks;
use crate::tile_blocks::TileBlocks;
use av1_geometry::{
    BlockSize, FRAME_LF_COUNT, INTER_REFS_PER_FRAME, MotionVector, PredictionMode, RefType,
    TileBlockOffset, TxSize,
};
use std::marker::Model;
use std::ops::Index;

/// A tile of the grid, which it owns. Places count blocks of 4x4 luma samples from the tile's corner.
#[derive(Drop)]
pub struct TileBlocksMut {
    frame: FrameBlocks,
    x: usize,
    y: usize,
    cols: usize,
    rows: usize,
    frame_cols: usize,
    frame_rows: usize,
}

impl Model for TileBlocksMut {
    ghost use Rattle.av1_blocks.specs.Grid.{Grid, IsTile, tile};

    ghost Value = { Grid };

    ghost view = { λ t. tile t.frame t.x t.y t.cols t.rows };

    ghost invariant = { λ t. IsTile (tile t.frame t.x t.y t.cols t.rows) t.frame_cols t.frame_rows };
}

impl TileBlocksMut {
    /// The tile from a column and a row on.
    pub fn new(frame: FrameBlocks, x: usize, y: usize, cols: usize, rows: usize) -> Self
        requires columns { x + cols ≤ frame.frame_cols }
        requires rows { y + rows ≤ frame.frame_rows }
        ensures { result ≡ tile frame x y cols rows }
    {
        let (frame_cols, frame_rows) = (frame.cols(), frame.rows());
        TileBlocksMut {
            frame,
            x,
            y,
            cols,
            rows,
            frame_cols,
            frame_rows,
        }
    }

    /// The frame's grid.
    pub fn into_frame(self) -> FrameBlocks
        ensures { result ≡ self.frame }
    {
        let TileBlocksMut { frame, .. } = self;
        frame
    }

    /// The same tile, to look at.
    pub fn as_const(&self) -> TileBlocks<'_>
        ensures { result ≡ self.now }
    {
        TileBlocks::new(&self.frame, self.x, self.y, self.cols, self.rows)
    }

    /// The column of the frame where the tile begins.
    pub fn x(&self) -> usize
        ensures value { result ≡ self.now.x }
        ensures inside { result + self.now.cols ≤ self.now.frame.frame_cols }
    {
        self.x
    }

    /// The row of the frame where the tile begins.
    pub fn y(&self) -> usize
        ensures value { result ≡ self.now.y }
        ensures inside { result + self.now.rows ≤ self.now.frame.frame_rows }
    {
        self.y
    }

    /// How many columns the tile has.
    pub fn cols(&self) -> usize
        ensures { result ≡ self.now.cols }
    {
        self.cols
    }

    /// How many rows the tile has.
    pub fn rows(&self) -> usize
        ensures { result ≡ self.now.rows }
    {
        self.rows
    }

    /// How many columns the frame has.
    pub fn frame_cols(&self) -> usize
        ensures { result ≡ self.now.frame.frame_cols }
    {
        self.frame_cols
    }

    /// How many rows the frame has.
    pub fn frame_rows(&self) -> usize
        ensures { result ≡ self.now.frame.frame_rows }
    {
        self.frame_rows
    }

    /// The block at a place.
    pub fn at(&self, bo: TileBlockOffset) -> &Block
        requires { IsInside self.now bo.0 }
        ensures { result.now ≡ block_at self.now bo.0.x bo.0.y }
    {
        self.as_const().at(bo)
    }

    /// The block above a place.
    pub fn above_of(&self, bo: TileBlockOffset) -> &Block
        requires inside { IsInside self.now bo.0 }
        requires row { 0 < bo.0.y }
        ensures { result.now ≡ block_at self.now bo.0.x (bo.0.y - 1) }
    {
        self.as_const().above_of(bo)
    }

    /// The block to the left of a place.
    pub fn left_of(&self, bo: TileBlockOffset) -> &Block
        requires inside { IsInside self.now bo.0 }
        requires column { 0 < bo.0.x }
        ensures { result.now ≡ block_at self.now (bo.0.x - 1) bo.0.y }
    {
        self.as_const().left_of(bo)
    }

    /// The block above and to the left of a place.
    pub fn above_left_of(&self, bo: TileBlockOffset) -> &Block
        requires inside { IsInside self.now bo.0 }
        requires column { 0 < bo.0.x }
        requires row { 0 < bo.0.y }
        ensures { result.now ≡ block_at self.now (bo.0.x - 1) (bo.0.y - 1) }
    {
        self.as_const().above_left_of(bo)
    }

    // Enters something over the part of a block that is inside the tile.
    fn enter(&mut self, bo: TileBlockOffset, bsize: BlockSize, entry: Entry)
        requires { IsInside self.old bo.0 }
        ensures { self.new ≡ over bo.0 bsize (entered entry) self.old }
    {
        let area = self.as_const().area(bo, bsize);
        self.frame.enter(area, entry);
    }

    // Puts back the blocks of a superblock.
    pub(crate) fn restore(&mut self, saved: &SavedBlocks)
        requires { IsSavedOf self.old saved.now }
        ensures { self.new ≡ with_saved saved.now self.old }
    {
        let area = self.as_const().area(saved.place, BlockSize::BLOCK_64X64);
        self.frame.put(area, &saved.blocks);
    }

    /// Sets the blocks over the part of a block that is inside the tile.
    pub fn set_block(&mut self, bo: TileBlockOffset, bsize: BlockSize, block: Block)
        requires { IsInside self.old bo.0 }
        ensures { self.new ≡ over bo.0 bsize (λ _. block) self.old }
    {
        self.enter(bo, bsize, Entry::Whole(block));
    }

    /// Sets the mode over the part of a block that is inside the tile.
    pub fn set_mode(&mut self, bo: TileBlockOffset, bsize: BlockSize, mode: PredictionMode)
        requires { IsInside self.old bo.0 }
        ensures { self.new ≡ over bo.0 bsize (λ b. record b { mode = mode }) self.old }
    {
        self.enter(bo, bsize, Entry::Mode(mode));
    }

    /// Sets the skip flag over the part of a block that is inside the tile.
    pub fn set_skip(&mut self, bo: TileBlockOffset, bsize: BlockSize, skip: bool)
        requires { IsInside self.old bo.0 }
        ensures { self.new ≡ over bo.0 bsize (λ b. record b { skip = skip }) self.old }
    {
        self.enter(bo, bsize, Entry::Skip(skip));
    }

    /// Sets both references over the part of a block that is inside the tile.
    pub fn set_ref_frames(&mut self, bo: TileBlockOffset, bsize: BlockSize, r: [RefType; 2])
        requires { IsInside self.old bo.0 }
        ensures { self.new ≡ over bo.0 bsize (λ b. record b { ref_frames = r }) self.old }
    {
        self.enter(bo, bsize, Entry::References(r));
    }

    /// Sets both vectors over the part of a block that is inside the tile.
    pub fn set_motion_vectors(
        &mut self,
        bo: TileBlockOffset,
        bsize: BlockSize,
        mvs: [MotionVector; 2],
    )
        requires { IsInside self.old bo.0 }
        ensures { self.new ≡ over bo.0 bsize (λ b. record b { mv = mvs }) self.old }
    {
        self.enter(bo, bsize, Entry::Vectors(mvs));
    }

    /// Sets the segment over the part of a block that is inside the tile.
    pub fn set_segmentation_idx(&mut self, bo: TileBlockOffset, bsize: BlockSize, idx: u8)
        requires { IsInside self.old bo.0 }
        ensures { self.new ≡ over bo.0 bsize (λ b. record b { segmentation_idx = idx }) self.old }
    {
        self.enter(bo, bsize, Entry::Segment(idx));
    }

    /// Sets the index of the enhancement filter over the part of a block that is inside the tile.
    pub fn set_cdef_index(&mut self, bo: TileBlockOffset, bsize: BlockSize, idx: u8)
        requires { IsInside self.old bo.0 }
        ensures { self.new ≡ over bo.0 bsize (λ b. record b { cdef_index = idx }) self.old }
    {
        self.enter(bo, bsize, Entry::Cdef(idx));
    }

    /// Sets the deltas of the deblocking filter over the part of a block that is inside the tile.
    pub fn set_deblock_deltas(
        &mut self,
        bo: TileBlockOffset,
        bsize: BlockSize,
        deltas: [i8; FRAME_LF_COUNT],
    )
        requires { IsInside self.old bo.0 }
        ensures { self.new ≡ over bo.0 bsize (λ b. record b { deblock_deltas = deltas }) self.old }
    {
        self.enter(bo, bsize, Entry::Deltas(deltas));
    }

    /// Sets the size of the transforms over the part of a block that is inside the tile.
    pub fn set_txsize(&mut self, bo: TileBlockOffset, bsize: BlockSize, txsize: TxSize)
        requires { IsInside self.old bo.0 }
        ensures { self.new ≡ over bo.0 bsize (λ b. record b { txsize = txsize }) self.old }
    {
        self.enter(bo, bsize, Entry::Transform(txsize));
    }

    /// Sets how often the blocks around refer to each reference, over the part of a block that is inside the tile.
    pub fn set_neighbors_ref_counts(
        &mut self,
        bo: TileBlockOffset,
        bsize: BlockSize,
        counts: [u8; INTER_REFS_PER_FRAME],
    )
        requires { IsInside self.old bo.0 }
        ensures { self.new ≡ over bo.0 bsize (λ b. record b { neighbors_ref_counts = counts }) self.old }
    {
        self.enter(bo, bsize, Entry::Counts(counts));
    }
}

impl Index<TileBlockOffset> for TileBlocksMut {
    type Output = Block;

    ghost can_index = { λ t bo. IsInside t bo.0 };

    ghost index_gives = { λ t bo b. b ≡ block_at t bo.0.x bo.0.y };

    fn index(&self, index: TileBlockOffset) -> &Block {
        self.at(index)
    }
}
