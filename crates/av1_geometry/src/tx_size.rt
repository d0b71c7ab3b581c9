// The 19 sizes of a transform.
ghost use Rattle.std.specs.Prelude.{◌≡◌, ◌≢◌, ℕ, ◌-◌, ◌*◌, ◌^◌, ◌<◌, ◌≤◌, ◌+◌, ◌↔◌, min, max, IsTrue, IsSome, IfSome};
ghost use Rattle.av1_geometry.specs.BlockSize.{width_log2, height_log2, with_sides};
ghost use Rattle.av1_geometry.specs.TxSize.{tx_number, tx_size_of, tx_width_log2, tx_height_log2, tx_sqr, tx_sqr_up};

use crate::block_size::BlockSize;
use crate::block_size::BlockSize::*;
use crate::constants::MI_SIZE_LOG2;
use crate::sides::by_sides;
use std::cmp::Ordering;

/// The size of a transform by its width and height in samples, in the order of the AV1 specification, "Transform size semantics".
#[derive(Clone, Copy, Debug, PartialEq, Eq)]
pub enum TxSize {
    TX_4X4,
    TX_8X8,
    TX_16X16,
    TX_32X32,
    TX_64X64,
    TX_4X8,
    TX_8X4,
    TX_8X16,
    TX_16X8,
    TX_16X32,
    TX_32X16,
    TX_32X64,
    TX_64X32,
    TX_4X16,
    TX_16X4,
    TX_8X32,
    TX_32X8,
    TX_16X64,
    TX_64X16,
}

use TxSize::*;

/// All sizes by their numbers.
pub(crate) const ALL_TX_SIZES: [TxSize; TxSize::TX_SIZES_ALL] = [
    TX_4X4, TX_8X8, TX_16X16, TX_32X32, TX_64X64, TX_4X8, TX_8X4, TX_8X16, TX_16X8, TX_16X32,
    TX_32X16, TX_32X64, TX_64X32, TX_4X16, TX_16X4, TX_8X32, TX_32X8, TX_16X64, TX_64X16,
];

impl TxSize {
    /// The square sizes.
    pub const TX_SIZES: usize = 5;

    pub const TX_SIZES_ALL: usize = 19;

    /// The place of the size in the order of the enum.
    pub fn number(self) -> usize
        ensures value { result ≡ tx_number self }
        ensures bound { result < 19 }
    {
        self as usize
    }

    /// The size whose number this is.
    #[tactic(auto, using(crate::proofs::TxSizes::sized))]
    pub fn from_number(number: usize) -> Option<TxSize>
        ensures listed { result ≡ tx_size_of number }
        ensures found { IsSome result ↔ (number < 19) }
        ensures value { IfSome result (λ size. tx_number size ≡ number) }
    {
        if number < TxSize::TX_SIZES_ALL {
            Some(ALL_TX_SIZES[number])
        } else {
            None
        }
    }

    /// The logarithm of the width in samples.
    pub fn width_log2(self) -> usize
        ensures value { result ≡ tx_width_log2 self }
        ensures least { 2 ≤ result }
        ensures most { result ≤ 6 }
    {
        match self {
            TX_4X4 | TX_4X8 | TX_4X16 => 2,
            TX_8X8 | TX_8X4 | TX_8X16 | TX_8X32 => 3,
            TX_16X16 | TX_16X8 | TX_16X32 | TX_16X4 | TX_16X64 => 4,
            TX_32X32 | TX_32X16 | TX_32X64 | TX_32X8 => 5,
            TX_64X64 | TX_64X32 | TX_64X16 => 6,
        }
    }

    /// The logarithm of the height in samples.
    pub fn height_log2(self) -> usize
        ensures value { result ≡ tx_height_log2 self }
        ensures least { 2 ≤ result }
        ensures most { result ≤ 6 }
    {
        match self {
            TX_4X4 | TX_8X4 | TX_16X4 => 2,
            TX_8X8 | TX_4X8 | TX_16X8 | TX_32X8 => 3,
            TX_16X16 | TX_8X16 | TX_32X16 | TX_4X16 | TX_64X16 => 4,
            TX_32X32 | TX_16X32 | TX_64X32 | TX_8X32 => 5,
            TX_64X64 | TX_32X64 | TX_16X64 => 6,
        }
    }

    /// The width in samples.
    pub fn width(self) -> usize
        ensures value { result ≡ 2 ^ tx_width_log2 self }
        ensures least { 4 ≤ result }
        ensures most { result ≤ 64 }
    {
        1 << self.width_log2()
    }

    /// The height in samples.
    pub fn height(self) -> usize
        ensures value { result ≡ 2 ^ tx_height_log2 self }
        ensures least { 4 ≤ result }
        ensures most { result ≤ 64 }
    {
        1 << self.height_log2()
    }

    /// The logarithm of the width in blocks of 4x4 samples.
    pub fn width_mi_log2(self) -> usize
        ensures value { result ≡ tx_width_log2 self - 2 }
        ensures most { result ≤ 4 }
    {
        self.width_log2() - MI_SIZE_LOG2
    }

    /// The logarithm of the height in blocks of 4x4 samples.
    pub fn height_mi_log2(self) -> usize
        ensures value { result ≡ tx_height_log2 self - 2 }
        ensures most { result ≤ 4 }
    {
        self.height_log2() - MI_SIZE_LOG2
    }

    /// The width in blocks of 4x4 samples.
    pub fn width_mi(self) -> usize
        ensures value { result ≡ 2 ^ (tx_width_log2 self - 2) }
        ensures least { 1 ≤ result }
        ensures most { result ≤ 16 }
    {
        1 << self.width_mi_log2()
    }

    /// The height in blocks of 4x4 samples.
    pub fn height_mi(self) -> usize
        ensures value { result ≡ 2 ^ (tx_height_log2 self - 2) }
        ensures least { 1 ≤ result }
        ensures most { result ≤ 16 }
    {
        1 << self.height_mi_log2()
    }

    /// The logarithm of the number of samples.
    pub fn area_log2(self) -> usize
        ensures value { result ≡ tx_width_log2 self + tx_height_log2 self }
        ensures most { result ≤ 12 }
    {
        self.width_log2() + self.height_log2()
    }

    /// The number of samples.
    pub fn area(self) -> usize
        ensures value { result ≡ 2 ^ tx_width_log2 self * 2 ^ tx_height_log2 self }
        ensures least { 16 ≤ result }
        ensures most { result ≤ 4096 }
    {
        self.width() * self.height()
    }

    /// The square of the shorter side.
    pub fn sqr(self) -> TxSize
        ensures value { result ≡ tx_sqr self }
        ensures width { tx_width_log2 result ≡ min (tx_width_log2 self) (tx_height_log2 self) }
        ensures height { tx_height_log2 result ≡ min (tx_width_log2 self) (tx_height_log2 self) }
    {
        match self {
            TX_4X4 | TX_4X8 | TX_8X4 | TX_4X16 | TX_16X4 => TX_4X4,
            TX_8X8 | TX_8X16 | TX_16X8 | TX_8X32 | TX_32X8 => TX_8X8,
            TX_16X16 | TX_16X32 | TX_32X16 | TX_16X64 | TX_64X16 => TX_16X16,
            TX_32X32 | TX_32X64 | TX_64X32 => TX_32X32,
            TX_64X64 => TX_64X64,
        }
    }

    /// The square of the longer side.
    pub fn sqr_up(self) -> TxSize
        ensures value { result ≡ tx_sqr_up self }
        ensures width { tx_width_log2 result ≡ max (tx_width_log2 self) (tx_height_log2 self) }
        ensures height { tx_height_log2 result ≡ max (tx_width_log2 self) (tx_height_log2 self) }
    {
        match self {
            TX_4X4 => TX_4X4,
            TX_8X8 | TX_4X8 | TX_8X4 => TX_8X8,
            TX_16X16 | TX_8X16 | TX_16X8 | TX_4X16 | TX_16X4 => TX_16X16,
            TX_32X32 | TX_16X32 | TX_32X16 | TX_8X32 | TX_32X8 => TX_32X32,
            TX_64X64 | TX_32X64 | TX_64X32 | TX_16X64 | TX_64X16 => TX_64X64,
        }
    }

    /// The block of the same sides.
    pub fn block_size(self) -> BlockSize
        ensures width { width_log2 result ≡ tx_width_log2 self }
        ensures height { height_log2 result ≡ tx_height_log2 self }
        ensures value { with_sides (tx_width_log2 self) (tx_height_log2 self) ≡ Some result }
    {
        match self {
            TX_4X4 => BLOCK_4X4,
            TX_8X8 => BLOCK_8X8,
            TX_16X16 => BLOCK_16X16,
            TX_32X32 => BLOCK_32X32,
            TX_64X64 => BLOCK_64X64,
            TX_4X8 => BLOCK_4X8,
            TX_8X4 => BLOCK_8X4,
            TX_8X16 => BLOCK_8X16,
            TX_16X8 => BLOCK_16X8,
            TX_16X32 => BLOCK_16X32,
            TX_32X16 => BLOCK_32X16,
            TX_32X64 => BLOCK_32X64,
            TX_64X32 => BLOCK_64X32,
            TX_4X16 => BLOCK_4X16,
            TX_16X4 => BLOCK_16X4,
            TX_8X32 => BLOCK_8X32,
            TX_32X8 => BLOCK_32X8,
            TX_16X64 => BLOCK_16X64,
            TX_64X16 => BLOCK_64X16,
        }
    }

    /// Whether the sides are equal.
    pub fn is_sqr(self) -> bool
        ensures { IsTrue result ↔ (tx_width_log2 self ≡ tx_height_log2 self) }
    {
        self.width_log2() == self.height_log2()
    }

    /// Whether the sides differ.
    pub fn is_rect(self) -> bool
        ensures { IsTrue result ↔ (tx_width_log2 self ≢ tx_height_log2 self) }
    {
        self.width_log2() != self.height_log2()
    }
}

impl PartialOrd for TxSize {
    ghost use Rattle.av1_geometry.specs.TxSizeOrder.{tx_size_order, compare_tx_sizes};

    ghost partial_cmp = { compare_tx_sizes };

    ghost laws = { tx_size_order };

    fn partial_cmp(&self, other: &TxSize) -> Option<Ordering> {
        by_sides(
            self.width_log2().cmp(&other.width_log2()),
            self.height_log2().cmp(&other.height_log2()),
        )
    }
}
