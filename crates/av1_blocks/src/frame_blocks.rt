// The grid of blocks of a frame.
ghost use Rattle.std.specs.Prelude.{◌≡◌, ◌+◌, ◌-◌, ◌*◌, ◌^◌, ◌<◌, ◌≤◌, IfOk, length, replicate, slice_range};
ghost use Rattle.av1_blocks.specs.declared.block.TheConstants.Block.{DEFAULT};
ghost use Rattle.av1_blocks.specs.Area.{IsAreaOf, over_area, put_area};
ghost use Rattle.av1_blocks.specs.Grid.{frame, frame_block, part, whole, with_blocks, IsInFrame};

use crate::area::Area;
use crate::block::Block;
use crate::entry::Entry;
use crate::tile_blocks::TileBlocks;
use crate::tile_blocks_mut::TileBlocksMut;
use av1_geometry::{BlockOffset, OutOfMemory, PlaneBlockOffset};
use std::alloc::Global;
use std::marker::Model;
use std::ops::Index;

/// The blocks of a frame, or of a part of one that is stored alone, row by row (rav1e, `context/block_unit.rs`).
#[derive(Drop)]
pub struct FrameBlocks {
    blocks: Vec<Block>,
    cols: usize,
    rows: usize,
    // Where in the whole frame they begin, and its columns and rows.
    at: PlaneBlockOffset,
    all_cols: usize,
    all_rows: usize,
}

impl Model for FrameBlocks {
    ghost use Rattle.av1_blocks.specs.Grid.{Frame, IsFrame, part};

    ghost Value = { Frame };

    ghost view = { λ f. part f.at.0 f.cols f.rows f.all_cols f.all_rows f.blocks.items };

    ghost invariant = { λ f. IsFrame (part f.at.0 f.cols f.rows f.all_cols f.all_rows f.blocks.items) };
}

impl FrameBlocks {
    /// A grid of default blocks, of so many columns and rows of 4x4 luma samples.
    pub fn new(alloc: Global, cols: usize, rows: usize) -> Result<FrameBlocks, OutOfMemory>
        requires { cols * rows ≤ 2 ^ 22 }
        ensures { IfOk result (λ f. f ≡ frame cols rows (replicate (cols * rows) DEFAULT)) }
    {
        let corner = PlaneBlockOffset(BlockOffset { x: 0, y: 0 });
        FrameBlocks::part(alloc, corner, cols, rows, cols, rows)
    }

    /// A grid of default blocks that is a part of a frame and is stored alone: from a place of the frame on, so many columns and rows, and
    /// then the frame's own.
    pub fn part(
        alloc: Global,
        at: PlaneBlockOffset,
        cols: usize,
        rows: usize,
        all_cols: usize,
        all_rows: usize,
    ) -> Result<FrameBlocks, OutOfMemory>
        requires few { cols * rows ≤ 2 ^ 22 }
        requires columns { at.0.x + cols ≤ all_cols }
        requires rows { at.0.y + rows ≤ all_rows }
        ensures { IfOk result (λ f. f ≡ part at.0 cols rows all_cols all_rows (replicate (cols * rows) DEFAULT)) }
    {
        Ok(FrameBlocks {
            blocks: vec![in alloc; Block::DEFAULT; cols * rows]?,
            cols,
            rows,
            at,
            all_cols,
            all_rows,
        })
    }

    // The place in the whole frame of the block at a column and a row.
    pub(crate) fn place_in_frame(&self, x: usize, y: usize) -> PlaneBlockOffset
        requires column { x < self.now.frame_cols }
        requires row { y < self.now.frame_rows }
        ensures x { result.0.x ≡ self.now.left + x }
        ensures y { result.0.y ≡ self.now.top + y }
        ensures columns { result.0.x < self.now.all_cols }
        ensures rows { result.0.y < self.now.all_rows }
    {
        // counted from the frame's end, no sum can wrap
        PlaneBlockOffset(BlockOffset {
            x: self.all_cols - (self.all_cols - self.at.0.x - x),
            y: self.all_rows - (self.all_rows - self.at.0.y - y),
        })
    }

    /// How many columns the whole frame has.
    pub fn all_cols(&self) -> usize
        ensures { result ≡ self.now.all_cols }
    {
        self.all_cols
    }

    /// How many rows the whole frame has.
    pub fn all_rows(&self) -> usize
        ensures { result ≡ self.now.all_rows }
    {
        self.all_rows
    }

    /// How many columns are stored.
    pub fn cols(&self) -> usize
        ensures { result ≡ self.now.frame_cols }
    {
        self.cols
    }

    /// How many rows are stored.
    pub fn rows(&self) -> usize
        ensures { result ≡ self.now.frame_rows }
    {
        self.rows
    }

    /// All blocks as a tile.
    pub fn as_tile_blocks(&self) -> TileBlocks<'_>
        ensures { result ≡ whole self.now }
    {
        TileBlocks::new(self, 0, 0, self.cols, self.rows)
    }

    /// All blocks as a tile that owns them.
    pub fn as_tile_blocks_mut(self) -> TileBlocksMut
        ensures { result ≡ whole self }
    {
        let (cols, rows) = (self.cols, self.rows);
        TileBlocksMut::new(self, 0, 0, cols, rows)
    }

    /// A row of blocks.
    pub fn row(&self, y: usize) -> &[Block]
        requires { y < self.now.frame_rows }
        ensures { result.now ≡ slice_range self.now.blocks (y * self.now.frame_cols) (y * self.now.frame_cols + self.now.frame_cols) }
    {
        let from = y * self.cols;
        &self.blocks[from..from + self.cols]
    }

    // The block at a column and a row.
    pub(crate) fn block(&self, x: usize, y: usize) -> &Block
        requires column { x < self.now.frame_cols }
        requires row { y < self.now.frame_rows }
        ensures { result.now ≡ frame_block self.now x y }
    {
        &self.blocks[y * self.cols + x]
    }

    // Enters something in each block of an area.
    pub(crate) fn enter(&mut self, area: Area, entry: Entry)
        requires { IsAreaOf self.old area }
        ensures { self.new ≡ with_blocks (over_area area self.old.frame_cols entry self.old.blocks) self.old }
    {
        let cols = self.cols;
        area.enter(&mut self.blocks, cols, entry);
    }

    // Puts blocks that stand row by row in an area.
    pub(crate) fn put(&mut self, area: Area, items: &[Block])
        requires area { IsAreaOf self.old area }
        requires items { length items.now ≡ (area.bottom - area.top) * (area.right - area.left) }
        ensures { self.new ≡ with_blocks (put_area area self.old.frame_cols items.now self.old.blocks) self.old }
    {
        let cols = self.cols;
        area.put(&mut self.blocks, cols, items);
    }
}

impl Index<PlaneBlockOffset> for FrameBlocks {
    type Output = Block;

    ghost can_index = { λ f bo. IsInFrame f bo.0 };

    ghost index_gives = { λ f bo b. b ≡ frame_block f bo.0.x bo.0.y };

    fn index(&self, index: PlaneBlockOffset) -> &Block {
        self.block(index.0.x, index.0.y)
    }
}
