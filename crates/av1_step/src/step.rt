// What a step says.
use av1_geometry::{
    BlockSize, FRAME_LF_COUNT, MotionVector, PartitionType, PredictionMode, RefType, TxSize, TxType,
};
use av1_syntax::RestorationFilter;
use std::marker::Model;

/// One step: a question, which the reader is given, and its answer, which the bytes hold.
///
/// Places count 4x4 luma blocks from the corner of the tile.
#[derive(Drop)]
pub enum TileStep {
    /// A row of superblocks begins. Nothing is coded.
    RowStart,

    /// A block becomes the current one. Nothing is coded.
    Block {
        x: usize,
        y: usize,
        size: BlockSize,
    },

    /// How a block is parted (`partition`, AV1 specification 5.11.4).
    Partition {
        x: usize,
        y: usize,
        size: BlockSize,
        answer: PartitionType,
    },

    /// Whether the current block has no coefficients (`skip`, AV1 specification 5.11.11).
    Skip {
        answer: bool,
    },

    /// Which segment the current block belongs to (`segment_id`, AV1 specification 5.11.9). Of a skipped block nothing is coded: it is
    /// the predicted one.
    Segment {
        answer: u8,
    },

    /// The luma mode of the current block in an intra frame (`intra_frame_y_mode`, AV1 specification 5.11.7).
    IntraModeKf {
        answer: PredictionMode,
    },

    /// The chroma mode of the current block (`uv_mode`, AV1 specification 5.11.22).
    UvMode {
        answer: PredictionMode,
    },

    /// The luma mode of the current block in a frame that is not an intra frame (`y_mode`, AV1 specification 5.11.22).
    IntraMode {
        answer: PredictionMode,
    },

    /// Which strengths the constrained directional enhancement filter has in the superblock (`cdef_idx`, AV1 specification 5.11.56).
    Cdef {
        answer: u8,
    },

    /// What the current block adds to the levels of the loop filter: both directions of luma, then the planes of chroma, where one
    /// delta is coded for all it is the first (`delta_lf_abs`, AV1 specification 5.11.13).
    DeltaLf {
        answer: [i8; FRAME_LF_COUNT],
    },

    /// How far the direction of a mode of the current block is turned, in steps of three degrees: of the chroma mode, or of the luma
    /// mode (`angle_delta_uv` and `angle_delta_y`, AV1 specification 5.11.43 and 5.11.42).
    AngleDelta {
        chroma: bool,
        answer: i8,
    },

    /// The factors by which both planes of chroma are predicted from luma, in eighths (`cfl_alphas`, AV1 specification 5.11.45).
    CflAlphas {
        answer: (i16, i16),
    },

    /// That the current block has no filter intra (`use_filter_intra`, AV1 specification 5.11.24): the answer is false.
    FilterIntra {
        answer: bool,
    },

    /// That the current block has no palette (`has_palette_y` and `has_palette_uv`, AV1 specification 5.11.46): the answer is
    /// false.
    Palette {
        answer: bool,
    },

    /// The transforms of the current block are entered in the edges (`read_block_tx_size`, AV1 specification 5.11.16). Nothing is
    /// coded.
    TxNote,

    /// The size of the transforms of the current block, which is an intra block (`tx_depth`, AV1 specification 5.11.15).
    TxIntra {
        answer: TxSize,
    },

    /// Whether the largest transform of the current block, which is an inter block, is split (`txfm_split`, AV1 specification
    /// 5.11.17).
    TxInter {
        answer: bool,
    },

    /// Whether the current block is predicted from other frames (`is_inter`, AV1 specification 5.11.20). It begins with the last
    /// frame as its reference, or as an intra block.
    IsInter {
        answer: bool,
    },

    /// Which frames the current block, which is an inter block, is predicted from: one, or one behind and one ahead in display order
    /// (`ref_frames`, AV1 specification 5.11.25).
    RefFrames {
        answer: (RefType, RefType),
    },

    /// The candidates for the vectors of the current block, which is an inter block, are found in the blocks around it
    /// (`find_mv_stack`, AV1 specification 7.10.2). `has_tr` says whether the block at the top right is coded before it. Nothing is
    /// coded.
    MvRefs {
        has_tr: bool,
    },

    /// The mode of the current block, which has one reference: one of those that take the first candidate of their kind (`new_mv`,
    /// `zero_mv` and `ref_mv`, AV1 specification 5.11.23).
    InterMode {
        answer: PredictionMode,
    },

    /// The mode of the current block, which has two references: one of those that take the first candidate of their kind
    /// (`compound_mode`, AV1 specification 5.11.23).
    CompoundMode {
        answer: PredictionMode,
    },

    /// Whether the current block takes a later candidate than number `index` (`drl_mode`, AV1 specification 5.11.23). Where it does, it
    /// takes the next one, until a further step says that it takes a later one still.
    Drl {
        index: usize,
        answer: bool,
    },

    /// The first vector of the current block, list 0, or the second, list 1, where its mode has a new one: it is coded by how it
    /// differs from that of the candidate that the mode takes (`read_mv`, AV1 specification 5.11.31).
    Mv {
        list: usize,
        answer: MotionVector,
    },

    /// The coefficients of a transform block of the current block (`coeffs`, AV1 specification 5.11.39). The type of the transform
    /// is coded in luma, plane 0, and given in chroma.
    Coeffs {
        plane: usize,
        x: usize,
        y: usize,
        tx_type: TxType,
        answer: Levels,
    },

    /// The filter of a unit of loop restoration in a plane (`lr_unit`, AV1 specification 5.11.58). It comes in no trial.
    Lrf {
        plane: usize,
        answer: RestorationFilter,
    },
}

/// The coefficients of a transform block in the order of its scan, up to the last that is not 0.
#[derive(Drop)]
pub struct Levels {
    pub levels: Vec<i32>,
}

impl Model for Levels {
    ghost use Rattle.std.specs.Prelude.{ℤ, List};

    ghost Value = { List ℤ };

    ghost view = { λ s. s.levels.items };
}

impl TileStep {
    ghost use Rattle.std.specs.Prelude.{◌≡◌};
    ghost use Rattle.av1_step.specs.Step.{is_untried};

    /// Whether no trial has the step: what it changes is not undone.
    pub fn is_untried(&self) -> bool
        ensures { result ≡ is_untried self.now }
    {
        match self {
            TileStep::RowStart => true,
            TileStep::Lrf { .. } => true,
            _ => false,
        }
    }
}
