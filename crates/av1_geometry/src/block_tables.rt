// Tables that a block size is looked up in, and what follows from a block size by them.
ghost use Rattle.std.specs.Prelude.{◌≡◌, ◌-◌, ◌<◌, ◌≤◌, min, max};
ghost use Rattle.av1_geometry.specs.BlockSize.{width_log2, height_log2, with_sides, width_mi, height_mi};
ghost use Rattle.av1_geometry.specs.PartitionType.{width_halvings, height_halvings};
ghost use Rattle.av1_geometry.specs.TxSize.{tx_width_log2, tx_height_log2};
ghost use Rattle.av1_geometry.specs.BlockTables.{subsize_of, subsampled_size_of, max_tx_size, size_group};
ghost use Rattle.av1_geometry.specs.BlockTables.{PartitionContextsAreByWidthAndHeight, SizeGroupsAreByShorterSide};
ghost use Rattle.av1_geometry.specs.BlockTables.{LargestTransformsAreWithin64, PartsKeepTheBlock};

use crate::block_size::BlockSize;
use crate::block_size::BlockSize::*;
use crate::constants::BLOCK_SIZE_GROUPS;
use crate::partition_type::PartitionType;
use crate::tx_size::TxSize;
use crate::tx_size::TxSize::*;

/// What a block of each size leaves in the partition contexts above it and left of it: a bit for each size of 8 samples and more that its side does not reach.
pub static partition_context_lookup: [[u8; 2]; BlockSize::BLOCK_SIZES_ALL] = [
    [31, 31],
    [31, 30],
    [30, 31],
    [30, 30],
    [30, 28],
    [28, 30],
    [28, 28],
    [28, 24],
    [24, 28],
    [24, 24],
    [24, 16],
    [16, 24],
    [16, 16],
    [16, 0],
    [0, 16],
    [0, 0],
    [31, 28],
    [28, 31],
    [30, 24],
    [24, 30],
    [28, 16],
    [16, 28],
];

/// The group of each size in the contexts of luma modes.
pub static size_group_lookup: [u8; BlockSize::BLOCK_SIZES_ALL] = [
    0, 0, 0, 1, 1, 1, 2, 2, 2, 3, 3, 3, 3, 3, 3, 3, 0, 0, 1, 1, 2, 2,
];

/// The largest transform of each block size.
pub static max_txsize_rect_lookup: [TxSize; BlockSize::BLOCK_SIZES_ALL] = [
    TX_4X4, TX_4X8, TX_8X4, TX_8X8, TX_8X16, TX_16X8, TX_16X16, TX_16X32, TX_32X16, TX_32X32,
    TX_32X64, TX_64X32, TX_64X64, TX_64X64, TX_64X64, TX_64X64, TX_4X16, TX_16X4, TX_8X32, TX_32X8,
    TX_16X64, TX_64X16,
];

/// The block sizes by the logarithms of their sides.
static SIZES_BY_SIDES: [[Option<BlockSize>; 8]; 8] = [
    [None, None, None, None, None, None, None, None],
    [None, None, None, None, None, None, None, None],
    [
        None,
        None,
        Some(BLOCK_4X4),
        Some(BLOCK_4X8),
        Some(BLOCK_4X16),
        None,
        None,
        None,
    ],
    [
        None,
        None,
        Some(BLOCK_8X4),
        Some(BLOCK_8X8),
        Some(BLOCK_8X16),
        Some(BLOCK_8X32),
        None,
        None,
    ],
    [
        None,
        None,
        Some(BLOCK_16X4),
        Some(BLOCK_16X8),
        Some(BLOCK_16X16),
        Some(BLOCK_16X32),
        Some(BLOCK_16X64),
        None,
    ],
    [
        None,
        None,
        None,
        Some(BLOCK_32X8),
        Some(BLOCK_32X16),
        Some(BLOCK_32X32),
        Some(BLOCK_32X64),
        None,
    ],
    [
        None,
        None,
        None,
        None,
        Some(BLOCK_64X16),
        Some(BLOCK_64X32),
        Some(BLOCK_64X64),
        Some(BLOCK_64X128),
    ],
    [
        None,
        None,
        None,
        None,
        None,
        None,
        Some(BLOCK_128X64),
        Some(BLOCK_128X128),
    ],
];

/// The size with these sides, given by their logarithms.
fn sized(width_log2: usize, height_log2: usize) -> Option<BlockSize>
    requires width { width_log2 < 8 }
    requires height { height_log2 < 8 }
    ensures { result ≡ with_sides width_log2 height_log2 }
{
    SIZES_BY_SIDES[width_log2][height_log2]
}

impl BlockSize {
    /// The largest transform of a block: that of its sides, or of 64 where a side is longer.
    #[tactic(auto, using(crate::proofs::BlockTables::largest_transform))]
    pub fn tx_size(self) -> TxSize
        ensures value { result ≡ max_tx_size self }
        ensures width { tx_width_log2 result ≡ min (width_log2 self) 6 }
        ensures height { tx_height_log2 result ≡ min (height_log2 self) 6 }
    {
        max_txsize_rect_lookup[self.number()]
    }

    /// The group of the size in the contexts of luma modes.
    #[tactic(auto, using(crate::proofs::BlockTables::group_of_size))]
    pub fn size_group(self) -> usize
        ensures value { result ≡ size_group self }
        ensures bound { result < BLOCK_SIZE_GROUPS }
    {
        size_group_lookup[self.number()] as usize
    }

    /// The size of the first part of a block, where there is such a size.
    pub fn subsize(self, p: PartitionType) -> Option<BlockSize>
        ensures { result ≡ subsize_of self p }
    {
        sized(
            self.width_log2() - p.width_halvings(),
            self.height_log2() - p.height_halvings(),
        )
    }

    /// The size of a block in a plane whose sides are halved so often, but not below 4, where there is such a size.
    pub fn subsampled_size(self, xdec: usize, ydec: usize) -> Option<BlockSize>
        ensures { result ≡ subsampled_size_of self xdec ydec }
    {
        sized(
            self.width_log2().saturating_sub(xdec).max(2),
            self.height_log2().saturating_sub(ydec).max(2),
        )
    }
}

/// The rules of the tables above, each over the whole table.
pub fn law_block_tables()
    ensures partition_contexts { PartitionContextsAreByWidthAndHeight }
    ensures size_groups { SizeGroupsAreByShorterSide }
    ensures largest_transforms { LargestTransformsAreWithin64 }
    ensures parts { PartsKeepTheBlock }
{}
