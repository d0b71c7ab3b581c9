// The numbers that rav1e's files of the context share. Where one follows from others, it is written by them.
ghost use Rattle.std.specs.Prelude.{◌≡◌, [], ◌∷◌, ◌++◌, pos, negsuc, replicate, map, slice_index};
ghost use Rattle.av1_geometry.specs.declared.tx_size.TheConstants.TxSize.{TX_SIZES};

// Planes, modes and contexts of a block (src/context/block_unit.rs).

/// Planes of a frame: luma and two of chroma.
pub const MAX_PLANES: usize = 3;
/// Luma and chroma.
pub const PLANE_TYPES: usize = 2;

pub const BLOCK_SIZE_GROUPS: usize = 4;

pub const MAX_ANGLE_DELTA: usize = 3;

pub const DIRECTIONAL_MODES: usize = 8;

pub const KF_MODE_CONTEXTS: usize = 5;

pub const INTRA_INTER_CONTEXTS: usize = 4;

pub const INTER_MODE_CONTEXTS: usize = 8;

pub const DRL_MODE_CONTEXTS: usize = 3;

pub const COMP_INTER_CONTEXTS: usize = 5;

pub const COMP_REF_TYPE_CONTEXTS: usize = 5;

pub const UNI_COMP_REF_CONTEXTS: usize = 3;

pub const COMP_INDEX_CONTEXTS: usize = 6;

pub const COMP_GROUP_IDX_CONTEXTS: usize = 6;
/// Blocks of 4x4 samples across the widest tile.
pub const COEFF_CONTEXT_MAX_WIDTH: usize = MAX_TILE_WIDTH / MI_SIZE;

// Loop filter and quantizer deltas, vectors (src/context/mod.rs).

pub const REF_CAT_LEVEL: u32 = 640;

pub const FRAME_LF_COUNT: usize = 4;

pub const MAX_LOOP_FILTER: usize = 63;

pub const DELTA_LF_PROBS: usize = 3;

pub const DELTA_Q_PROBS: usize = 3;
/// Above each part of a motion vector, in units of 1/8 sample.
pub const MV_UPP: i32 = 16384;
/// Below each part of a motion vector, in units of 1/8 sample.
pub const MV_LOW: i32 = -16384;

// Partitions (src/context/partition_unit.rs).

pub const CFL_JOINT_SIGNS: usize = 8;

pub const CFL_ALPHA_CONTEXTS: usize = 6;

pub const CFL_ALPHABET_SIZE: usize = 16;

pub const PARTITION_PLOFFSET: usize = 4;

pub const PARTITION_BLOCK_SIZES: usize = 5;

pub const PARTITION_CONTEXTS: usize = PARTITION_BLOCK_SIZES * PARTITION_PLOFFSET;

pub const PARTITION_TYPES: usize = 4;

pub const EXT_PARTITION_TYPES: usize = 10;

pub const SKIP_CONTEXTS: usize = 3;

pub const SKIP_MODE_CONTEXTS: usize = 3;
/// Samples to one place of the partition contexts: a block of 4x4 cannot be split.
pub const PARTITION_CONTEXT_GRANULARITY: usize = 8;

pub const PARTITION_CONTEXT_MAX_WIDTH: usize = MAX_TILE_WIDTH / PARTITION_CONTEXT_GRANULARITY;

// Superblocks (src/context/superblock_unit.rs). `MI` is a block of 4x4 samples, `MIB` a superblock counted in them.

pub const MAX_SB_SIZE_LOG2: usize = 7;

pub const SB_SIZE: usize = 1 << SUPERBLOCK_TO_PLANE_SHIFT;

pub const MI_SIZE_LOG2: usize = 2;

pub const MI_SIZE: usize = 1 << MI_SIZE_LOG2;

pub const MAX_MIB_SIZE_LOG2: usize = MAX_SB_SIZE_LOG2 - MI_SIZE_LOG2;

pub const MIB_SIZE_LOG2: usize = SUPERBLOCK_TO_PLANE_SHIFT - MI_SIZE_LOG2;

pub const MIB_SIZE: usize = 1 << MIB_SIZE_LOG2;

pub const MIB_MASK: usize = MIB_SIZE - 1;

pub const SUPERBLOCK_TO_PLANE_SHIFT: usize = 6;

pub const SUPERBLOCK_TO_BLOCK_SHIFT: usize = MIB_SIZE_LOG2;

pub const BLOCK_TO_PLANE_SHIFT: usize = MI_SIZE_LOG2;

pub const IMPORTANCE_BLOCK_TO_BLOCK_SHIFT: usize = 1;

pub const LOCAL_BLOCK_MASK: usize = MIB_MASK;

pub const MAX_SB_IN_IMP_B: usize = 1
    << (MAX_SB_SIZE_LOG2 - IMPORTANCE_BLOCK_TO_BLOCK_SHIFT - BLOCK_TO_PLANE_SHIFT);

// Transforms and coefficients (src/context/transform_unit.rs).

pub const MAX_TX_SIZE: usize = 64;
/// The longest side of which coefficients are coded.
pub const MAX_CODED_TX_SIZE: usize = 32;

pub const MAX_CODED_TX_SQUARE: usize = MAX_CODED_TX_SIZE * MAX_CODED_TX_SIZE;

pub const TX_SIZE_SQR_CONTEXTS: usize = 4;

pub const TX_SETS: usize = 6;

pub const TX_SETS_INTRA: usize = 3;

pub const TX_SETS_INTER: usize = 4;

pub const INTRA_MODES: usize = 13;

pub const UV_INTRA_MODES: usize = 14;

pub const TXFM_PARTITION_CONTEXTS: usize = 21;

pub const TXB_SKIP_CONTEXTS: usize = 13;

pub const EOB_COEF_CONTEXTS: usize = 9;

pub const SIG_COEF_CONTEXTS_EOB: usize = 4;
/// 26 of two-dimensional transforms, 16 of one-dimensional ones.
pub const SIG_COEF_CONTEXTS: usize = 26 + 16;

pub const DC_SIGN_CONTEXTS: usize = 3;

pub const LEVEL_CONTEXTS: usize = 21;

pub const NUM_BASE_LEVELS: usize = 2;

pub const BR_CDF_SIZE: usize = 4;

pub const COEFF_BASE_RANGE: usize = 4 * (BR_CDF_SIZE - 1);

pub const COEFF_CONTEXT_BITS: usize = 6;

pub const COEFF_CONTEXT_MASK: usize = (1 << COEFF_CONTEXT_BITS) - 1;

pub const TX_PAD_HOR_LOG2: usize = 2;
/// Columns past the coefficients, so that no context asks whether there is a column.
pub const TX_PAD_HOR: usize = 4;

pub const TX_PAD_TOP: usize = 2;

pub const TX_PAD_BOTTOM: usize = 4;
/// Rows past the coefficients, so that no context asks whether there is a row.
pub const TX_PAD_VER: usize = TX_PAD_TOP + TX_PAD_BOTTOM;
/// Numbers of a padded array of levels, with 16 past its end.
pub const TX_PAD_2D: usize = (MAX_CODED_TX_SIZE + TX_PAD_HOR) * (MAX_CODED_TX_SIZE + TX_PAD_VER)
    + 16;

// Sizes, references and modes (rav1e's files beside the context).

pub const BWD_REFS: usize = 3;

pub const FWD_REFS: usize = 4;

pub const REF_CONTEXTS: usize = 3;

pub const SINGLE_REFS: usize = 7;

pub const NEWMV_MODE_CONTEXTS: usize = 6;

pub const GLOBALMV_MODE_CONTEXTS: usize = 2;

pub const REFMV_MODE_CONTEXTS: usize = 6;

pub const PALETTE_BSIZE_CTXS: usize = 7;

pub const PALETTE_Y_MODE_CONTEXTS: usize = 3;

pub const PALETTE_UV_MODE_CONTEXTS: usize = 2;

pub const TX_SIZE_CONTEXTS: usize = 3;

pub const BIG_TX_CATS: usize = 3;

pub const MAX_TX_CATS: usize = 4;

pub const MAX_TX_DEPTH: usize = 2;

pub const TX_TYPES: usize = 16;

pub const MV_JOINTS: usize = 4;

pub const INTER_COMPOUND_MODES: usize = 8;

pub const MVREF_ROW_COLS: usize = 3;
/// Luma samples across the widest tile.
pub const MAX_TILE_WIDTH: usize = 4096;

pub const REF_FRAMES: usize = 8;

pub const REF_FRAMES_LOG2: usize = 3;

pub const INTER_REFS_PER_FRAME: usize = 7;

pub const GLOBALMV_OFFSET: usize = 3;

pub const REFMV_OFFSET: usize = 4;

pub const NEWMV_CTX_MASK: usize = 7;

pub const GLOBALMV_CTX_MASK: usize = 1;

pub const REFMV_CTX_MASK: usize = 15;

// Loop restoration.

pub const RESTORE_NONE: u8 = 0;

pub const RESTORE_SWITCHABLE: u8 = 1;

pub const RESTORE_WIENER: u8 = 2;

pub const RESTORE_SGRPROJ: u8 = 3;

pub const SGRPROJ_PARAMS_BITS: u8 = 4;

pub const SGRPROJ_PRJ_SUBEXP_K: u8 = 4;
/// Least of the two weights of a self-guided filter.
pub const SGRPROJ_XQD_MIN: [i8; 2] = [-96, -32];
/// Greatest of the two weights of a self-guided filter.
pub const SGRPROJ_XQD_MAX: [i8; 2] = [31, 95];
/// The weights that the first self-guided filter of a tile refers to.
pub const SGRPROJ_XQD_MID: [i8; 2] = [-32, 31];
/// Least of the three taps of a Wiener filter.
pub const WIENER_TAPS_MIN: [i8; 3] = [-5, -23, -17];
/// Greatest of the three taps of a Wiener filter.
pub const WIENER_TAPS_MAX: [i8; 3] = [10, 8, 46];
/// The taps that the first Wiener filter of a tile refers to.
pub const WIENER_TAPS_MID: [i8; 3] = [3, -7, 15];
/// The radii of both passes of each self-guided filter; a pass of radius 0 is left out (AV1 specification, "Box filter process").
pub const SGRPROJ_RADII: [[u8; 2]; 16] = [
    [2, 1],
    [2, 1],
    [2, 1],
    [2, 1],
    [2, 1],
    [2, 1],
    [2, 1],
    [2, 1],
    [2, 1],
    [2, 1],
    [0, 1],
    [0, 1],
    [0, 1],
    [0, 1],
    [2, 0],
    [2, 0],
];

/// The values of the constants, those that are written by others too.
pub fn law_constants()
    ensures of_1 { IMPORTANCE_BLOCK_TO_BLOCK_SHIFT ∷ GLOBALMV_CTX_MASK ∷ [] ≡ replicate 2 1 }
    ensures of_2 { PLANE_TYPES ∷ MI_SIZE_LOG2 ∷ BLOCK_TO_PLANE_SHIFT ∷ NUM_BASE_LEVELS ∷
        TX_PAD_HOR_LOG2 ∷ [] ≡ replicate 5 2 }
    ensures of_2_last { TX_PAD_TOP ∷ GLOBALMV_MODE_CONTEXTS ∷ PALETTE_UV_MODE_CONTEXTS ∷
        MAX_TX_DEPTH ∷ [] ≡ replicate 4 2 }
    ensures of_3 { MAX_PLANES ∷ MAX_ANGLE_DELTA ∷ DRL_MODE_CONTEXTS ∷ UNI_COMP_REF_CONTEXTS ∷
        DELTA_LF_PROBS ∷ DELTA_Q_PROBS ∷ [] ≡ replicate 6 3 }
    ensures of_3_next { SKIP_CONTEXTS ∷ SKIP_MODE_CONTEXTS ∷ TX_SETS_INTRA ∷ DC_SIGN_CONTEXTS ∷
        BWD_REFS ∷ REF_CONTEXTS ∷ [] ≡ replicate 6 3 }
    ensures of_3_last { PALETTE_Y_MODE_CONTEXTS ∷ TX_SIZE_CONTEXTS ∷ BIG_TX_CATS ∷ MVREF_ROW_COLS ∷
        REF_FRAMES_LOG2 ∷ GLOBALMV_OFFSET ∷ [] ≡ replicate 6 3 }
    ensures of_4 { BLOCK_SIZE_GROUPS ∷ INTRA_INTER_CONTEXTS ∷ FRAME_LF_COUNT ∷ PARTITION_PLOFFSET ∷
        PARTITION_TYPES ∷ MI_SIZE ∷ [] ≡ replicate 6 4 }
    ensures of_4_next { MIB_SIZE_LOG2 ∷ SUPERBLOCK_TO_BLOCK_SHIFT ∷ TX_SIZE_SQR_CONTEXTS ∷
        TX_SETS_INTER ∷ SIG_COEF_CONTEXTS_EOB ∷ BR_CDF_SIZE ∷ [] ≡ replicate 6 4 }
    ensures of_4_last { TX_PAD_HOR ∷ TX_PAD_BOTTOM ∷ FWD_REFS ∷ MAX_TX_CATS ∷ MV_JOINTS ∷
        REFMV_OFFSET ∷ [] ≡ replicate 6 4 }
    ensures tx_sizes { TX_SIZES ≡ 5 }
    ensures of_5 { KF_MODE_CONTEXTS ∷ COMP_INTER_CONTEXTS ∷ COMP_REF_TYPE_CONTEXTS ∷ PARTITION_BLOCK_SIZES ∷
        MAX_MIB_SIZE_LOG2 ∷ [] ≡ replicate 5 5 }
    ensures of_6 { COMP_INDEX_CONTEXTS ∷ COMP_GROUP_IDX_CONTEXTS ∷ CFL_ALPHA_CONTEXTS ∷
        SUPERBLOCK_TO_PLANE_SHIFT ∷ TX_SETS ∷ [] ≡ replicate 5 6 }
    ensures of_6_last { COEFF_CONTEXT_BITS ∷ TX_PAD_VER ∷ NEWMV_MODE_CONTEXTS ∷
        REFMV_MODE_CONTEXTS ∷ [] ≡ replicate 4 6 }
    ensures of_7 { MAX_SB_SIZE_LOG2 ∷ SINGLE_REFS ∷ PALETTE_BSIZE_CTXS ∷ INTER_REFS_PER_FRAME ∷
        NEWMV_CTX_MASK ∷ [] ≡ replicate 5 7 }
    ensures of_8 { DIRECTIONAL_MODES ∷ INTER_MODE_CONTEXTS ∷ CFL_JOINT_SIGNS ∷
        PARTITION_CONTEXT_GRANULARITY ∷ INTER_COMPOUND_MODES ∷ REF_FRAMES ∷ [] ≡ replicate 6 8 }
    ensures of_9 { EOB_COEF_CONTEXTS ≡ 9 }
    ensures of_10 { EXT_PARTITION_TYPES ≡ 10 }
    ensures of_12 { COEFF_BASE_RANGE ≡ 12 }
    ensures of_13 { INTRA_MODES ∷ TXB_SKIP_CONTEXTS ∷ [] ≡ replicate 2 13 }
    ensures of_14 { UV_INTRA_MODES ≡ 14 }
    ensures of_15 { MIB_MASK ∷ LOCAL_BLOCK_MASK ∷ REFMV_CTX_MASK ∷ [] ≡ replicate 3 15 }
    ensures of_16 { CFL_ALPHABET_SIZE ∷ MIB_SIZE ∷ MAX_SB_IN_IMP_B ∷ TX_TYPES ∷ [] ≡ replicate 4 16 }
    ensures of_20 { PARTITION_CONTEXTS ≡ 20 }
    ensures of_21 { LEVEL_CONTEXTS ∷ TXFM_PARTITION_CONTEXTS ∷ [] ≡ replicate 2 21 }
    ensures of_32 { MAX_CODED_TX_SIZE ≡ 32 }
    ensures of_42 { SIG_COEF_CONTEXTS ≡ 42 }
    ensures of_63 { MAX_LOOP_FILTER ∷ COEFF_CONTEXT_MASK ∷ [] ≡ replicate 2 63 }
    ensures of_64 { SB_SIZE ∷ MAX_TX_SIZE ∷ [] ≡ replicate 2 64 }
    ensures of_512 { PARTITION_CONTEXT_MAX_WIDTH ≡ 512 }
    ensures of_640 { REF_CAT_LEVEL ≡ 640 }
    ensures of_1024 { COEFF_CONTEXT_MAX_WIDTH ∷ MAX_CODED_TX_SQUARE ∷ [] ≡ replicate 2 1024 }
    ensures of_1384 { TX_PAD_2D ≡ 1384 }
    ensures of_4096 { MAX_TILE_WIDTH ≡ 4096 }
    ensures upper { MV_UPP ≡ pos 16384 }
    ensures lower { MV_LOW ≡ negsuc 16383 }
    ensures restoration { RESTORE_NONE ∷ RESTORE_SWITCHABLE ∷ RESTORE_WIENER ∷ RESTORE_SGRPROJ ∷ [] ≡
        0 ∷ 1 ∷ 2 ∷ 3 ∷ [] }
    ensures self_guided { SGRPROJ_PARAMS_BITS ∷ SGRPROJ_PRJ_SUBEXP_K ∷ [] ≡ replicate 2 4 }
    ensures least_weights { SGRPROJ_XQD_MIN ≡ negsuc 95 ∷ negsuc 31 ∷ [] }
    ensures greatest_weights { SGRPROJ_XQD_MAX ≡ pos 31 ∷ pos 95 ∷ [] }
    ensures first_weights { SGRPROJ_XQD_MID ≡ negsuc 31 ∷ pos 31 ∷ [] }
    ensures least_taps { WIENER_TAPS_MIN ≡ negsuc 4 ∷ negsuc 22 ∷ negsuc 16 ∷ [] }
    ensures greatest_taps { WIENER_TAPS_MAX ≡ pos 10 ∷ pos 8 ∷ pos 46 ∷ [] }
    ensures first_taps { WIENER_TAPS_MID ≡ pos 3 ∷ negsuc 6 ∷ pos 15 ∷ [] }
    ensures first_radius { map (λ radii. slice_index radii 0) SGRPROJ_RADII ≡
        replicate 10 2 ++ replicate 4 0 ++ replicate 2 2 }
    ensures second_radius { map (λ radii. slice_index radii 1) SGRPROJ_RADII ≡ replicate 14 1 ++ replicate 2 0 }
{}
