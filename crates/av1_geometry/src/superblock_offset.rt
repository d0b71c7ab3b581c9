// Places of superblocks, in units of 64x64 luma samples.
ghost use Rattle.std.specs.Prelude.{◌≡◌, ◌+◌, ◌-◌, ◌*◌, ◌^◌, ◌<◌, ◌≤◌, ◌↔◌, IsTrue, pos};

use crate::block_offset::{BlockOffset, PlaneBlockOffset, TileBlockOffset};
use crate::constants::{SUPERBLOCK_TO_BLOCK_SHIFT, SUPERBLOCK_TO_PLANE_SHIFT};
use crate::plane::{PlaneConfig, PlaneOffset};
use std::ops::Add;

/// A place in superblocks of 64x64 luma samples.
#[derive(Clone, Copy, Debug, PartialEq, Eq)]
pub struct SuperBlockOffset {
    pub x: usize,
    pub y: usize,
}

/// The place of a superblock in a plane of the frame.
#[derive(Clone, Copy, Debug, PartialEq, Eq)]
pub struct PlaneSuperBlockOffset(pub SuperBlockOffset);

/// The place of a superblock in its tile.
#[derive(Clone, Copy, Debug, PartialEq, Eq)]
pub struct TileSuperBlockOffset(pub SuperBlockOffset);

impl SuperBlockOffset {
    /// The place of the block that lies so far from the first block of the superblock.
    pub fn block_offset(self, block_x: usize, block_y: usize) -> BlockOffset
        requires x_fits { self.x < 2 ^ 24 }
        requires y_fits { self.y < 2 ^ 24 }
        requires block_x_fits { block_x < 2 ^ 24 }
        requires block_y_fits { block_y < 2 ^ 24 }
        ensures x { result.x ≡ 16 * self.x + block_x }
        ensures y { result.y ≡ 16 * self.y + block_y }
    {
        BlockOffset {
            x: (self.x << SUPERBLOCK_TO_BLOCK_SHIFT) + block_x,
            y: (self.y << SUPERBLOCK_TO_BLOCK_SHIFT) + block_y,
        }
    }

    /// The place of the first sample of the superblock in a plane.
    pub fn plane_offset(self, plane: &PlaneConfig) -> PlaneOffset
        requires x_fits { self.x < 2 ^ 24 }
        requires y_fits { self.y < 2 ^ 24 }
        requires xdec { plane.now.xdec ≤ 1 }
        requires ydec { plane.now.ydec ≤ 1 }
        ensures x { result.x ≡ pos (self.x * 2 ^ (6 - plane.now.xdec)) }
        ensures y { result.y ≡ pos (self.y * 2 ^ (6 - plane.now.ydec)) }
    {
        PlaneOffset {
            x: (self.x << (SUPERBLOCK_TO_PLANE_SHIFT - plane.xdec)) as isize,
            y: (self.y << (SUPERBLOCK_TO_PLANE_SHIFT - plane.ydec)) as isize,
        }
    }
}

impl Add for SuperBlockOffset {
    type Output = SuperBlockOffset;

    ghost can_add = { λ a b. (a.x + b.x < 2 ^ 24) × (a.y + b.y < 2 ^ 24) };

    ghost add_gives = { λ a b r. r ≡ record { x = a.x + b.x; y = a.y + b.y } };

    fn add(self, other: SuperBlockOffset) -> SuperBlockOffset {
        SuperBlockOffset {
            x: self.x + other.x,
            y: self.y + other.y,
        }
    }
}

impl PlaneSuperBlockOffset {
    /// The place of the block that lies so far from the first block of the superblock.
    pub fn block_offset(self, block_x: usize, block_y: usize) -> PlaneBlockOffset
        requires x_fits { self.0.x < 2 ^ 24 }
        requires y_fits { self.0.y < 2 ^ 24 }
        requires block_x_fits { block_x < 2 ^ 24 }
        requires block_y_fits { block_y < 2 ^ 24 }
        ensures x { result.0.x ≡ 16 * self.0.x + block_x }
        ensures y { result.0.y ≡ 16 * self.0.y + block_y }
    {
        PlaneBlockOffset(self.0.block_offset(block_x, block_y))
    }

    /// The place of the first sample of the superblock in a plane.
    pub fn plane_offset(self, plane: &PlaneConfig) -> PlaneOffset
        requires x_fits { self.0.x < 2 ^ 24 }
        requires y_fits { self.0.y < 2 ^ 24 }
        requires xdec { plane.now.xdec ≤ 1 }
        requires ydec { plane.now.ydec ≤ 1 }
        ensures x { result.x ≡ pos (self.0.x * 2 ^ (6 - plane.now.xdec)) }
        ensures y { result.y ≡ pos (self.0.y * 2 ^ (6 - plane.now.ydec)) }
    {
        self.0.plane_offset(plane)
    }
}

impl Add for PlaneSuperBlockOffset {
    type Output = PlaneSuperBlockOffset;

    ghost can_add = { λ a b. (a.0.x + b.0.x < 2 ^ 24) × (a.0.y + b.0.y < 2 ^ 24) };

    ghost add_gives = { λ a b r. r ≡ record { 0 = record { x = a.0.x + b.0.x; y = a.0.y + b.0.y } } };

    fn add(self, other: PlaneSuperBlockOffset) -> PlaneSuperBlockOffset {
        PlaneSuperBlockOffset(self.0 + other.0)
    }
}

impl TileSuperBlockOffset {
    /// The place of the block that lies so far from the first block of the superblock.
    pub fn block_offset(self, block_x: usize, block_y: usize) -> TileBlockOffset
        requires x_fits { self.0.x < 2 ^ 24 }
        requires y_fits { self.0.y < 2 ^ 24 }
        requires block_x_fits { block_x < 2 ^ 24 }
        requires block_y_fits { block_y < 2 ^ 24 }
        ensures x { result.0.x ≡ 16 * self.0.x + block_x }
        ensures y { result.0.y ≡ 16 * self.0.y + block_y }
    {
        TileBlockOffset(self.0.block_offset(block_x, block_y))
    }

    /// The place of the first sample of the superblock in a plane.
    pub fn plane_offset(self, plane: &PlaneConfig) -> PlaneOffset
        requires x_fits { self.0.x < 2 ^ 24 }
        requires y_fits { self.0.y < 2 ^ 24 }
        requires xdec { plane.now.xdec ≤ 1 }
        requires ydec { plane.now.ydec ≤ 1 }
        ensures x { result.x ≡ pos (self.0.x * 2 ^ (6 - plane.now.xdec)) }
        ensures y { result.y ≡ pos (self.0.y * 2 ^ (6 - plane.now.ydec)) }
    {
        self.0.plane_offset(plane)
    }
}

impl Add for TileSuperBlockOffset {
    type Output = TileSuperBlockOffset;

    ghost can_add = { λ a b. (a.0.x + b.0.x < 2 ^ 24) × (a.0.y + b.0.y < 2 ^ 24) };

    ghost add_gives = { λ a b r. r ≡ record { 0 = record { x = a.0.x + b.0.x; y = a.0.y + b.0.y } } };

    fn add(self, other: TileSuperBlockOffset) -> TileSuperBlockOffset {
        TileSuperBlockOffset(self.0 + other.0)
    }
}

/// Two places are equal where their columns and their rows are, and a sum adds both.
pub fn law_superblock_offsets()
    ensures block { (a b : SuperBlockOffset) → IsTrue (⟦<SuperBlockOffset as PartialEq>⟧.eq a b) ↔
        ((a.x ≡ b.x) × (a.y ≡ b.y)) }
    ensures plane { (a b : PlaneSuperBlockOffset) → IsTrue (⟦<PlaneSuperBlockOffset as PartialEq>⟧.eq a b) ↔
        ((a.0.x ≡ b.0.x) × (a.0.y ≡ b.0.y)) }
    ensures tile { (a b : TileSuperBlockOffset) → IsTrue (⟦<TileSuperBlockOffset as PartialEq>⟧.eq a b) ↔
        ((a.0.x ≡ b.0.x) × (a.0.y ≡ b.0.y)) }
    ensures block_sum { (a b r : SuperBlockOffset) → ⟦<SuperBlockOffset as Add>⟧.add_gives a b r →
        (r.x ≡ a.x + b.x) × (r.y ≡ a.y + b.y) }
    ensures plane_sum { (a b r : PlaneSuperBlockOffset) → ⟦<PlaneSuperBlockOffset as Add>⟧.add_gives a b r →
        (r.0.x ≡ a.0.x + b.0.x) × (r.0.y ≡ a.0.y + b.0.y) }
    ensures tile_sum { (a b r : TileSuperBlockOffset) → ⟦<TileSuperBlockOffset as Add>⟧.add_gives a b r →
        (r.0.x ≡ a.0.x + b.0.x) × (r.0.y ≡ a.0.y + b.0.y) }
{}
