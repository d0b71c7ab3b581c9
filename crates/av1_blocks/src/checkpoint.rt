// The edges of a moment.
use av1_geometry::{ChromaSampling, MAX_PLANES, MIB_SIZE};

/// The edges of a moment, as far as a superblock may change them (rav1e, `context/block_unit.rs`).
#[derive(Clone, Copy)]
pub struct BlockContextCheckpoint {
    /// The first column of the superblock, in blocks of 4x4 luma samples.
    pub x: usize,
    pub chroma_sampling: ChromaSampling,
    pub cdef_coded: bool,
    pub above_partition_context: [u8; MIB_SIZE >> 1],
    pub left_partition_context: [u8; MIB_SIZE >> 1],
    pub above_tx_context: [u8; MIB_SIZE],
    pub left_tx_context: [u8; MIB_SIZE],
    pub above_coeff_context: [[u8; MIB_SIZE]; MAX_PLANES],
    pub left_coeff_context: [[u8; MIB_SIZE]; MAX_PLANES],
}
