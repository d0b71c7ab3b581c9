// The 22 sizes of a block.
ghost use Rattle.std.specs.Prelude.{◌≡◌, ◌≢◌, ℕ, ◌-◌, ◌*◌, ◌^◌, ◌<◌, ◌≤◌, ◌+◌, ◌↔◌, IsTrue, IsSome, IfSome, min, max};
ghost use Rattle.av1_geometry.specs.BlockSize.{number_of, size_of, width_log2, height_log2, width_mi, height_mi};

use crate::constants::MI_SIZE_LOG2;
use crate::sides::by_sides;
use std::cmp::Ordering;

/// The size of a block by its width and height in luma samples, in the order of the AV1 specification, "Block size semantics".
#[derive(Clone, Copy, Debug, PartialEq, Eq)]
pub enum BlockSize {
    BLOCK_4X4,
    BLOCK_4X8,
    BLOCK_8X4,
    BLOCK_8X8,
    BLOCK_8X16,
    BLOCK_16X8,
    BLOCK_16X16,
    BLOCK_16X32,
    BLOCK_32X16,
    BLOCK_32X32,
    BLOCK_32X64,
    BLOCK_64X32,
    BLOCK_64X64,
    BLOCK_64X128,
    BLOCK_128X64,
    BLOCK_128X128,
    BLOCK_4X16,
    BLOCK_16X4,
    BLOCK_8X32,
    BLOCK_32X8,
    BLOCK_16X64,
    BLOCK_64X16,
}

use BlockSize::*;

/// All sizes by their numbers.
const ALL_SIZES: [BlockSize; BlockSize::BLOCK_SIZES_ALL] = [
    BLOCK_4X4,
    BLOCK_4X8,
    BLOCK_8X4,
    BLOCK_8X8,
    BLOCK_8X16,
    BLOCK_16X8,
    BLOCK_16X16,
    BLOCK_16X32,
    BLOCK_32X16,
    BLOCK_32X32,
    BLOCK_32X64,
    BLOCK_64X32,
    BLOCK_64X64,
    BLOCK_64X128,
    BLOCK_128X64,
    BLOCK_128X128,
    BLOCK_4X16,
    BLOCK_16X4,
    BLOCK_8X32,
    BLOCK_32X8,
    BLOCK_16X64,
    BLOCK_64X16,
];

impl BlockSize {
    pub const BLOCK_SIZES_ALL: usize = 22;

    /// The place of the size in the order of the enum.
    pub fn number(self) -> usize
        ensures value { result ≡ number_of self }
        ensures bound { result < 22 }
    {
        self as usize
    }

    /// The size whose number this is.
    #[tactic(auto, using(crate::proofs::BlockSizes::sized))]
    pub fn from_number(number: usize) -> Option<BlockSize>
        ensures listed { result ≡ size_of number }
        ensures found { IsSome result ↔ (number < 22) }
        ensures value { IfSome result (λ size. number_of size ≡ number) }
    {
        if number < BlockSize::BLOCK_SIZES_ALL {
            Some(ALL_SIZES[number])
        } else {
            None
        }
    }

    /// The logarithm of the width in samples.
    pub fn width_log2(self) -> usize
        ensures value { result ≡ width_log2 self }
        ensures least { 2 ≤ result }
        ensures most { result ≤ 7 }
    {
        match self {
            BLOCK_4X4 | BLOCK_4X8 | BLOCK_4X16 => 2,
            BLOCK_8X4 | BLOCK_8X8 | BLOCK_8X16 | BLOCK_8X32 => 3,
            BLOCK_16X4 | BLOCK_16X8 | BLOCK_16X16 | BLOCK_16X32 | BLOCK_16X64 => 4,
            BLOCK_32X8 | BLOCK_32X16 | BLOCK_32X32 | BLOCK_32X64 => 5,
            BLOCK_64X16 | BLOCK_64X32 | BLOCK_64X64 | BLOCK_64X128 => 6,
            BLOCK_128X64 | BLOCK_128X128 => 7,
        }
    }

    /// The logarithm of the height in samples.
    pub fn height_log2(self) -> usize
        ensures value { result ≡ height_log2 self }
        ensures least { 2 ≤ result }
        ensures most { result ≤ 7 }
    {
        match self {
            BLOCK_4X4 | BLOCK_8X4 | BLOCK_16X4 => 2,
            BLOCK_4X8 | BLOCK_8X8 | BLOCK_16X8 | BLOCK_32X8 => 3,
            BLOCK_4X16 | BLOCK_8X16 | BLOCK_16X16 | BLOCK_32X16 | BLOCK_64X16 => 4,
            BLOCK_8X32 | BLOCK_16X32 | BLOCK_32X32 | BLOCK_64X32 => 5,
            BLOCK_16X64 | BLOCK_32X64 | BLOCK_64X64 | BLOCK_128X64 => 6,
            BLOCK_64X128 | BLOCK_128X128 => 7,
        }
    }

    /// The width in samples.
    pub fn width(self) -> usize
        ensures value { result ≡ 2 ^ width_log2 self }
        ensures least { 4 ≤ result }
        ensures most { result ≤ 128 }
    {
        1 << self.width_log2()
    }

    /// The height in samples.
    pub fn height(self) -> usize
        ensures value { result ≡ 2 ^ height_log2 self }
        ensures least { 4 ≤ result }
        ensures most { result ≤ 128 }
    {
        1 << self.height_log2()
    }

    /// The logarithm of the width in blocks of 4x4 samples.
    pub fn width_mi_log2(self) -> usize
        ensures value { result ≡ width_log2 self - 2 }
        ensures most { result ≤ 5 }
    {
        self.width_log2() - MI_SIZE_LOG2
    }

    /// The logarithm of the height in blocks of 4x4 samples.
    pub fn height_mi_log2(self) -> usize
        ensures value { result ≡ height_log2 self - 2 }
        ensures most { result ≤ 5 }
    {
        self.height_log2() - MI_SIZE_LOG2
    }

    /// The width in blocks of 4x4 samples.
    pub fn width_mi(self) -> usize
        ensures value { result ≡ width_mi self }
        ensures least { 1 ≤ result }
        ensures most { result ≤ 32 }
    {
        1 << self.width_mi_log2()
    }

    /// The height in blocks of 4x4 samples.
    pub fn height_mi(self) -> usize
        ensures value { result ≡ height_mi self }
        ensures least { 1 ≤ result }
        ensures most { result ≤ 32 }
    {
        1 << self.height_mi_log2()
    }

    /// The number of samples.
    pub fn area(self) -> usize
        ensures value { result ≡ 2 ^ width_log2 self * 2 ^ height_log2 self }
        ensures least { 16 ≤ result }
        ensures most { result ≤ 16384 }
    {
        self.width() * self.height()
    }

    /// The logarithm of the number of samples.
    pub fn area_log2(self) -> usize
        ensures value { result ≡ width_log2 self + height_log2 self }
        ensures most { result ≤ 14 }
    {
        self.width_log2() + self.height_log2()
    }

    /// The square of the shorter side.
    pub fn sqr(self) -> BlockSize
        ensures width { width_log2 result ≡ min (width_log2 self) (height_log2 self) }
        ensures height { height_log2 result ≡ min (width_log2 self) (height_log2 self) }
    {
        match self {
            BLOCK_4X4 | BLOCK_4X8 | BLOCK_8X4 | BLOCK_4X16 | BLOCK_16X4 => BLOCK_4X4,
            BLOCK_8X8 | BLOCK_8X16 | BLOCK_16X8 | BLOCK_8X32 | BLOCK_32X8 => BLOCK_8X8,
            BLOCK_16X16 | BLOCK_16X32 | BLOCK_32X16 | BLOCK_16X64 | BLOCK_64X16 => BLOCK_16X16,
            BLOCK_32X32 | BLOCK_32X64 | BLOCK_64X32 => BLOCK_32X32,
            BLOCK_64X64 | BLOCK_64X128 | BLOCK_128X64 => BLOCK_64X64,
            BLOCK_128X128 => BLOCK_128X128,
        }
    }

    /// The square of the longer side.
    pub fn sqr_up(self) -> BlockSize
        ensures width { width_log2 result ≡ max (width_log2 self) (height_log2 self) }
        ensures height { height_log2 result ≡ max (width_log2 self) (height_log2 self) }
    {
        match self {
            BLOCK_4X4 => BLOCK_4X4,
            BLOCK_4X8 | BLOCK_8X4 | BLOCK_8X8 => BLOCK_8X8,
            BLOCK_8X16 | BLOCK_16X8 | BLOCK_16X16 | BLOCK_4X16 | BLOCK_16X4 => BLOCK_16X16,
            BLOCK_16X32 | BLOCK_32X16 | BLOCK_32X32 | BLOCK_8X32 | BLOCK_32X8 => BLOCK_32X32,
            BLOCK_32X64 | BLOCK_64X32 | BLOCK_64X64 | BLOCK_16X64 | BLOCK_64X16 => BLOCK_64X64,
            BLOCK_64X128 | BLOCK_128X64 | BLOCK_128X128 => BLOCK_128X128,
        }
    }

    /// Whether the sides are equal.
    pub fn is_sqr(self) -> bool
        ensures { IsTrue result ↔ (width_log2 self ≡ height_log2 self) }
    {
        self.width_log2() == self.height_log2()
    }

    /// Whether the sides differ.
    pub fn is_rect(self) -> bool
        ensures { IsTrue result ↔ (width_log2 self ≢ height_log2 self) }
    {
        self.width_log2() != self.height_log2()
    }

    /// Whether chroma may be predicted from luma: both sides are at most 32 samples.
    pub fn cfl_allowed(self) -> bool
        ensures { IsTrue result ↔ ((width_log2 self ≤ 5) × (height_log2 self ≤ 5)) }
    {
        self.width_log2() <= 5 && self.height_log2() <= 5
    }
}

impl PartialOrd for BlockSize {
    ghost use Rattle.av1_geometry.specs.BlockSizeOrder.{block_order, compare_sizes};

    ghost partial_cmp = { compare_sizes };

    ghost laws = { block_order };

    fn partial_cmp(&self, other: &BlockSize) -> Option<Ordering> {
        by_sides(
            self.width_log2().cmp(&other.width_log2()),
            self.height_log2().cmp(&other.height_log2()),
        )
    }
}
