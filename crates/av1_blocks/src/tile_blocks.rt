// A tile of the grid, to look at.
ghost use Rattle.std.specs.Prelude.{◌≡◌, ◌+◌, ◌-◌, ◌<◌, ◌≤◌};
ghost use Rattle.av1_blocks.specs.Area.{IsAreaOf, area_of};
ghost use Rattle.av1_blocks.specs.Grid.{IsInside, tile, block_at, place_in_frame};

use crate::area::Area;
use crate::block::Block;
use crate::frame_blocks::FrameBlocks;
use av1_geometry::{BlockOffset, BlockSize, PlaneBlockOffset, TileBlockOffset};
use std::marker::Model;
use std::ops::Index;

/// A view of a tile of the grid. Places count blocks of 4x4 luma samples from the tile's corner.
#[derive(Drop)]
pub struct TileBlocks<'a> {
    frame: &'a FrameBlocks,
    x: usize,
    y: usize,
    cols: usize,
    rows: usize,
    frame_cols: usize,
    frame_rows: usize,
}

impl<'a> Model for TileBlocks<'a> {
    ghost use Rattle.av1_blocks.specs.Grid.{Grid, IsTile, tile};

    ghost Value = { Grid };

    ghost view = { λ t. tile t.frame.now t.x t.y t.cols t.rows };

    ghost invariant = { λ t. IsTile (tile t.frame.now t.x t.y t.cols t.rows) t.frame_cols t.frame_rows };
}

impl<'a> TileBlocks<'a> {
    /// The tile from a column and a row on.
    pub fn new(frame: &'a FrameBlocks, x: usize, y: usize, cols: usize, rows: usize) -> Self
        requires columns { x + cols ≤ frame.now.frame_cols }
        requires rows { y + rows ≤ frame.now.frame_rows }
        ensures { result ≡ tile frame.now x y cols rows }
    {
        TileBlocks {
            frame,
            x,
            y,
            cols,
            rows,
            frame_cols: frame.cols(),
            frame_rows: frame.rows(),
        }
    }

    /// The column of the frame where the tile begins.
    pub fn x(&self) -> usize
        ensures value { result ≡ self.now.x }
        ensures inside { result + self.now.cols ≤ self.now.frame.frame_cols }
    {
        self.x
    }

    /// The row of the frame where the tile begins.
    pub fn y(&self) -> usize
        ensures value { result ≡ self.now.y }
        ensures inside { result + self.now.rows ≤ self.now.frame.frame_rows }
    {
        self.y
    }

    /// How many columns the tile has.
    pub fn cols(&self) -> usize
        ensures { result ≡ self.now.cols }
    {
        self.cols
    }

    /// How many rows the tile has.
    pub fn rows(&self) -> usize
        ensures { result ≡ self.now.rows }
    {
        self.rows
    }

    /// How many columns the frame has.
    pub fn frame_cols(&self) -> usize
        ensures { result ≡ self.now.frame.frame_cols }
    {
        self.frame_cols
    }

    /// How many rows the frame has.
    pub fn frame_rows(&self) -> usize
        ensures { result ≡ self.now.frame.frame_rows }
    {
        self.frame_rows
    }

    /// How many columns the whole frame has.
    pub fn all_cols(&self) -> usize
        ensures { result ≡ self.now.frame.all_cols }
    {
        self.frame.all_cols()
    }

    /// How many rows the whole frame has.
    pub fn all_rows(&self) -> usize
        ensures { result ≡ self.now.frame.all_rows }
    {
        self.frame.all_rows()
    }

    /// The place in the whole frame of a place of the tile.
    pub fn place_in_frame(&self, bo: TileBlockOffset) -> PlaneBlockOffset
        requires { IsInside self.now bo.0 }
        ensures value { result.0 ≡ place_in_frame self.now bo.0 }
        ensures column { result.0.x < self.now.frame.all_cols }
        ensures row { result.0.y < self.now.frame.all_rows }
    {
        self.frame.place_in_frame(self.x + bo.0.x, self.y + bo.0.y)
    }

    /// The block at a place.
    pub fn at(&self, bo: TileBlockOffset) -> &'a Block
        requires { IsInside self.now bo.0 }
        ensures { result.now ≡ block_at self.now bo.0.x bo.0.y }
    {
        let frame = self.frame;
        frame.block(self.x + bo.0.x, self.y + bo.0.y)
    }

    /// The block above a place.
    pub fn above_of(&self, bo: TileBlockOffset) -> &'a Block
        requires inside { IsInside self.now bo.0 }
        requires row { 0 < bo.0.y }
        ensures { result.now ≡ block_at self.now bo.0.x (bo.0.y - 1) }
    {
        self.at(TileBlockOffset(BlockOffset {
            x: bo.0.x,
            y: bo.0.y - 1,
        }))
    }

    /// The block to the left of a place.
    pub fn left_of(&self, bo: TileBlockOffset) -> &'a Block
        requires inside { IsInside self.now bo.0 }
        requires column { 0 < bo.0.x }
        ensures { result.now ≡ block_at self.now (bo.0.x - 1) bo.0.y }
    {
        self.at(TileBlockOffset(BlockOffset {
            x: bo.0.x - 1,
            y: bo.0.y,
        }))
    }

    /// The block above and to the left of a place.
    pub fn above_left_of(&self, bo: TileBlockOffset) -> &'a Block
        requires inside { IsInside self.now bo.0 }
        requires column { 0 < bo.0.x }
        requires row { 0 < bo.0.y }
        ensures { result.now ≡ block_at self.now (bo.0.x - 1) (bo.0.y - 1) }
    {
        self.at(TileBlockOffset(BlockOffset {
            x: bo.0.x - 1,
            y: bo.0.y - 1,
        }))
    }

    // The part of a block that is inside the tile.
    pub(crate) fn area(&self, bo: TileBlockOffset, bsize: BlockSize) -> Area
        requires { IsInside self.now bo.0 }
        ensures value { result ≡ area_of self.now bo.0 bsize }
        ensures inside { IsAreaOf self.now.frame result }
    {
        let left = self.x + bo.0.x;
        let top = self.y + bo.0.y;
        Area {
            left,
            right: left + bsize.width_mi().min(self.cols - bo.0.x),
            top,
            bottom: top + bsize.height_mi().min(self.rows - bo.0.y),
        }
    }
}

impl<'a> Index<TileBlockOffset> for TileBlocks<'a> {
    type Output = Block;

    ghost can_index = { λ t bo. IsInside t bo.0 };

    ghost index_gives = { λ t bo b. b ≡ block_at t bo.0.x bo.0.y };

    fn index(&self, index: TileBlockOffset) -> &Block {
        self.at(index)
    }
}
