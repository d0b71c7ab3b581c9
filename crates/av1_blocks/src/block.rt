// One block of the grid.
ghost use Rattle.std.specs.Prelude.{◌≡◌};
ghost use Rattle.av1_blocks.specs.Block.{is_inter, has_second_ref};

use av1_geometry::{
    BlockSize, FRAME_LF_COUNT, INTER_REFS_PER_FRAME, MotionVector, PartitionType, PredictionMode,
    RefType, TxSize,
};

/// How the block at a place of the grid is coded (rav1e, `context/block_unit.rs`).
#[derive(Clone, Copy, Debug, PartialEq, Eq)]
pub struct Block {
    pub mode: PredictionMode,
    pub partition: PartitionType,
    /// Whether no coefficients are coded.
    pub skip: bool,
    /// What it refers to: first and second.
    pub ref_frames: [RefType; 2],
    pub mv: [MotionVector; 2],
    /// How often the blocks above and to the left refer to each of the seven references.
    pub neighbors_ref_counts: [u8; INTER_REFS_PER_FRAME],
    pub cdef_index: u8,
    pub bsize: BlockSize,
    /// The width in blocks of 4x4 luma samples.
    pub n4_w: u8,
    /// The height in blocks of 4x4 luma samples.
    pub n4_h: u8,
    pub txsize: TxSize,
    /// What is added to the levels of the deblocking filter: both luma edges, then the chroma planes.
    pub deblock_deltas: [i8; FRAME_LF_COUNT],
    pub segmentation_idx: u8,
}

impl Block {
    /// The block that stands where none was entered.
    pub const DEFAULT: Block = Block {
        mode: PredictionMode::DC_PRED,
        partition: PartitionType::PARTITION_NONE,
        skip: false,
        ref_frames: [RefType::INTRA_FRAME; 2],
        mv: [MotionVector { row: 0, col: 0 }; 2],
        neighbors_ref_counts: [0; INTER_REFS_PER_FRAME],
        cdef_index: 0,
        bsize: BlockSize::BLOCK_64X64,
        n4_w: 16,
        n4_h: 16,
        txsize: TxSize::TX_64X64,
        deblock_deltas: [0; FRAME_LF_COUNT],
        segmentation_idx: 0,
    };

    /// Whether the block is predicted from other frames.
    pub fn is_inter(&self) -> bool
        ensures { result ≡ is_inter self.now }
    {
        self.mode.number() >= 14
    }

    /// Whether the block is predicted from two references.
    pub fn has_second_ref(&self) -> bool
        ensures { result ≡ has_second_ref self.now }
    {
        let second = self.ref_frames[1].number();
        1 <= second && second <= 7
    }
}

impl Default for Block {
    ghost use Rattle.av1_blocks.specs.declared.block.TheConstants.Block.{DEFAULT};

    fn default() -> Block
        ensures { result ≡ DEFAULT }
    {
        Block::DEFAULT
    }
}
