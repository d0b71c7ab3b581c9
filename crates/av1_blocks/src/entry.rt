// What is entered over a block.
ghost use Rattle.std.specs.Prelude.{◌≡◌};
ghost use Rattle.av1_blocks.specs.Entry.{entered};

use crate::block::Block;
use av1_geometry::{
    FRAME_LF_COUNT, INTER_REFS_PER_FRAME, MotionVector, PredictionMode, RefType, TxSize,
};

#[derive(Clone, Copy)]
pub(crate) enum Entry {
    Whole(Block),
    Mode(PredictionMode),
    Skip(bool),
    References([RefType; 2]),
    Vectors([MotionVector; 2]),
    Segment(u8),
    Cdef(u8),
    Deltas([i8; FRAME_LF_COUNT]),
    Transform(TxSize),
    Counts([u8; INTER_REFS_PER_FRAME]),
}

impl Entry {
    pub(crate) fn enter(self, block: &mut Block)
        ensures { block.new ≡ entered self block.old }
    {
        match self {
            Entry::Whole(whole) => *block = whole,
            Entry::Mode(mode) => block.mode = mode,
            Entry::Skip(skip) => block.skip = skip,
            Entry::References(ref_frames) => block.ref_frames = ref_frames,
            Entry::Vectors(mv) => block.mv = mv,
            Entry::Segment(idx) => block.segmentation_idx = idx,
            Entry::Cdef(idx) => block.cdef_index = idx,
            Entry::Deltas(deltas) => block.deblock_deltas = deltas,
            Entry::Transform(txsize) => block.txsize = txsize,
            Entry::Counts(counts) => block.neighbors_ref_counts = counts,
        }
    }
}
