// Places of blocks, in units of 4x4 luma samples.
ghost use Rattle.std.specs.Prelude.{◌≡◌, ◌+◌, ◌*◌, ◌/◌, ◌%◌, ◌^◌, ◌<◌, ◌≤◌, ◌↔◌, IsTrue, pos, ◌+ℤ◌, ◌≤ℤ◌, ◌<ℤ◌};

use crate::constants::{BLOCK_TO_PLANE_SHIFT, MIB_SIZE, SUPERBLOCK_TO_BLOCK_SHIFT};
use crate::plane::{PlaneConfig, PlaneOffset};
use crate::superblock_offset::{PlaneSuperBlockOffset, SuperBlockOffset, TileSuperBlockOffset};

/// A place in blocks of 4x4 luma samples.
#[derive(Clone, Copy, Debug, Default, PartialEq, Eq)]
pub struct BlockOffset {
    pub x: usize,
    pub y: usize,
}

/// The place of a block in a plane of the frame.
#[derive(Clone, Copy, Debug, Default, PartialEq, Eq)]
pub struct PlaneBlockOffset(pub BlockOffset);

/// The place of a block in its tile.
#[derive(Clone, Copy, Debug, Default, PartialEq, Eq)]
pub struct TileBlockOffset(pub BlockOffset);

impl BlockOffset {
    /// The superblock in which the block lies.
    pub fn sb_offset(self) -> SuperBlockOffset
        ensures x { result.x ≡ self.x / 16 }
        ensures y { result.y ≡ self.y / 16 }
    {
        SuperBlockOffset {
            x: self.x >> SUPERBLOCK_TO_BLOCK_SHIFT,
            y: self.y >> SUPERBLOCK_TO_BLOCK_SHIFT,
        }
    }

    /// The place of the first sample of the block in a plane.
    pub fn plane_offset(self, plane: &PlaneConfig) -> PlaneOffset
        requires x_fits { self.x < 2 ^ 24 }
        requires y_fits { self.y < 2 ^ 24 }
        requires xdec { plane.now.xdec ≤ 1 }
        requires ydec { plane.now.ydec ≤ 1 }
        ensures x { result.x ≡ pos (4 * (self.x / 2 ^ plane.now.xdec)) }
        ensures y { result.y ≡ pos (4 * (self.y / 2 ^ plane.now.ydec)) }
    {
        PlaneOffset {
            x: ((self.x >> plane.xdec) << BLOCK_TO_PLANE_SHIFT) as isize,
            y: ((self.y >> plane.ydec) << BLOCK_TO_PLANE_SHIFT) as isize,
        }
    }

    /// The place of the first luma sample of the block.
    pub fn to_luma_plane_offset(self) -> PlaneOffset
        requires x_fits { self.x < 2 ^ 24 }
        requires y_fits { self.y < 2 ^ 24 }
        ensures x { result.x ≡ pos (4 * self.x) }
        ensures y { result.y ≡ pos (4 * self.y) }
    {
        PlaneOffset {
            x: (self.x << BLOCK_TO_PLANE_SHIFT) as isize,
            y: (self.y << BLOCK_TO_PLANE_SHIFT) as isize,
        }
    }

    /// The row of the block in its superblock, in units of 4 samples.
    pub fn y_in_sb(self) -> usize
        ensures value { result ≡ self.y % 16 }
        ensures bound { result < 16 }
    {
        self.y % MIB_SIZE
    }

    /// The place so many columns to the right and rows below, in units of 4 samples.
    pub fn with_offset(self, col_offset: isize, row_offset: isize) -> BlockOffset
        requires x_fits { self.x < 2 ^ 24 }
        requires y_fits { self.y < 2 ^ 24 }
        requires not_left { pos 0 ≤ℤ (pos self.x +ℤ col_offset) }
        requires not_right { (pos self.x +ℤ col_offset) <ℤ pos (2 ^ 24) }
        requires not_above { pos 0 ≤ℤ (pos self.y +ℤ row_offset) }
        requires not_below { (pos self.y +ℤ row_offset) <ℤ pos (2 ^ 24) }
        ensures x { pos result.x ≡ pos self.x +ℤ col_offset }
        ensures y { pos result.y ≡ pos self.y +ℤ row_offset }
    {
        BlockOffset {
            x: (self.x as isize + col_offset) as usize,
            y: (self.y as isize + row_offset) as usize,
        }
    }
}

impl PlaneBlockOffset {
    /// The superblock in which the block lies.
    pub fn sb_offset(self) -> PlaneSuperBlockOffset
        ensures x { result.0.x ≡ self.0.x / 16 }
        ensures y { result.0.y ≡ self.0.y / 16 }
    {
        PlaneSuperBlockOffset(self.0.sb_offset())
    }

    /// The place of the first sample of the block in a plane.
    pub fn plane_offset(self, plane: &PlaneConfig) -> PlaneOffset
        requires x_fits { self.0.x < 2 ^ 24 }
        requires y_fits { self.0.y < 2 ^ 24 }
        requires xdec { plane.now.xdec ≤ 1 }
        requires ydec { plane.now.ydec ≤ 1 }
        ensures x { result.x ≡ pos (4 * (self.0.x / 2 ^ plane.now.xdec)) }
        ensures y { result.y ≡ pos (4 * (self.0.y / 2 ^ plane.now.ydec)) }
    {
        self.0.plane_offset(plane)
    }

    /// The place of the first luma sample of the block.
    pub fn to_luma_plane_offset(self) -> PlaneOffset
        requires x_fits { self.0.x < 2 ^ 24 }
        requires y_fits { self.0.y < 2 ^ 24 }
        ensures x { result.x ≡ pos (4 * self.0.x) }
        ensures y { result.y ≡ pos (4 * self.0.y) }
    {
        self.0.to_luma_plane_offset()
    }

    /// The row of the block in its superblock, in units of 4 samples.
    pub fn y_in_sb(self) -> usize
        ensures value { result ≡ self.0.y % 16 }
        ensures bound { result < 16 }
    {
        self.0.y_in_sb()
    }

    /// The place so many columns to the right and rows below, in units of 4 samples.
    pub fn with_offset(self, col_offset: isize, row_offset: isize) -> PlaneBlockOffset
        requires x_fits { self.0.x < 2 ^ 24 }
        requires y_fits { self.0.y < 2 ^ 24 }
        requires not_left { pos 0 ≤ℤ (pos self.0.x +ℤ col_offset) }
        requires not_right { (pos self.0.x +ℤ col_offset) <ℤ pos (2 ^ 24) }
        requires not_above { pos 0 ≤ℤ (pos self.0.y +ℤ row_offset) }
        requires not_below { (pos self.0.y +ℤ row_offset) <ℤ pos (2 ^ 24) }
        ensures x { pos result.0.x ≡ pos self.0.x +ℤ col_offset }
        ensures y { pos result.0.y ≡ pos self.0.y +ℤ row_offset }
    {
        PlaneBlockOffset(self.0.with_offset(col_offset, row_offset))
    }
}

impl TileBlockOffset {
    /// The superblock in which the block lies.
    pub fn sb_offset(self) -> TileSuperBlockOffset
        ensures x { result.0.x ≡ self.0.x / 16 }
        ensures y { result.0.y ≡ self.0.y / 16 }
    {
        TileSuperBlockOffset(self.0.sb_offset())
    }

    /// The place of the first sample of the block in a plane.
    pub fn plane_offset(self, plane: &PlaneConfig) -> PlaneOffset
        requires x_fits { self.0.x < 2 ^ 24 }
        requires y_fits { self.0.y < 2 ^ 24 }
        requires xdec { plane.now.xdec ≤ 1 }
        requires ydec { plane.now.ydec ≤ 1 }
        ensures x { result.x ≡ pos (4 * (self.0.x / 2 ^ plane.now.xdec)) }
        ensures y { result.y ≡ pos (4 * (self.0.y / 2 ^ plane.now.ydec)) }
    {
        self.0.plane_offset(plane)
    }

    /// The place of the first luma sample of the block.
    pub fn to_luma_plane_offset(self) -> PlaneOffset
        requires x_fits { self.0.x < 2 ^ 24 }
        requires y_fits { self.0.y < 2 ^ 24 }
        ensures x { result.x ≡ pos (4 * self.0.x) }
        ensures y { result.y ≡ pos (4 * self.0.y) }
    {
        self.0.to_luma_plane_offset()
    }

    /// The row of the block in its superblock, in units of 4 samples.
    pub fn y_in_sb(self) -> usize
        ensures value { result ≡ self.0.y % 16 }
        ensures bound { result < 16 }
    {
        self.0.y_in_sb()
    }

    /// The place so many columns to the right and rows below, in units of 4 samples.
    pub fn with_offset(self, col_offset: isize, row_offset: isize) -> TileBlockOffset
        requires x_fits { self.0.x < 2 ^ 24 }
        requires y_fits { self.0.y < 2 ^ 24 }
        requires not_left { pos 0 ≤ℤ (pos self.0.x +ℤ col_offset) }
        requires not_right { (pos self.0.x +ℤ col_offset) <ℤ pos (2 ^ 24) }
        requires not_above { pos 0 ≤ℤ (pos self.0.y +ℤ row_offset) }
        requires not_below { (pos self.0.y +ℤ row_offset) <ℤ pos (2 ^ 24) }
        ensures x { pos result.0.x ≡ pos self.0.x +ℤ col_offset }
        ensures y { pos result.0.y ≡ pos self.0.y +ℤ row_offset }
    {
        TileBlockOffset(self.0.with_offset(col_offset, row_offset))
    }
}

/// Two places are equal where their columns and their rows are.
pub fn law_block_offsets()
    ensures block { (a b : BlockOffset) → IsTrue (⟦<BlockOffset as PartialEq>⟧.eq a b) ↔
        ((a.x ≡ b.x) × (a.y ≡ b.y)) }
    ensures plane { (a b : PlaneBlockOffset) → IsTrue (⟦<PlaneBlockOffset as PartialEq>⟧.eq a b) ↔
        ((a.0.x ≡ b.0.x) × (a.0.y ≡ b.0.y)) }
    ensures tile { (a b : TileBlockOffset) → IsTrue (⟦<TileBlockOffset as PartialEq>⟧.eq a b) ↔
        ((a.0.x ≡ b.0.x) × (a.0.y ≡ b.0.y)) }
    ensures samples { (a b : PlaneOffset) → IsTrue (⟦<PlaneOffset as PartialEq>⟧.eq a b) ↔
        ((a.x ≡ b.x) × (a.y ≡ b.y)) }
{}
