// The state of a frame's filters and segments.

/// The segments of a frame (AV1 specification 5.9.14).
#[derive(Clone, Copy)]
pub struct SegmentationState {
    pub enabled: bool,
    pub update_map: bool,
    pub update_data: bool,

    /// Which features each segment has.
    pub features: [[bool; 8]; 8],

    /// The value of each feature of each segment.
    pub values: [[i16; 8]; 8],

    /// The greatest segment that has a feature, or 0.
    pub last_active_segid: u8,
}

impl Default for SegmentationState {
    ghost use Rattle.std.specs.Prelude.{◌≡◌};
    ghost use Rattle.av1_frame.specs.Defaults.{no_segments};

    ghost is_default = { λ state. state ≡ no_segments };

    /// No segment.
    fn default() -> SegmentationState {
        SegmentationState {
            enabled: false,
            update_map: false,
            update_data: false,
            features: [[false; 8]; 8],
            values: [[0; 8]; 8],
            last_active_segid: 0,
        }
    }
}

/// The deblocking filter of a frame (AV1 specification 5.9.11 and 5.9.18).
#[derive(Clone, Copy)]
pub struct DeblockState {
    /// Of Y for vertical and for horizontal edges, of Cb, of Cr.
    pub levels: [u8; 4],

    pub sharpness: u8,
    pub deltas_enabled: bool,
    pub delta_updates_enabled: bool,
    pub ref_deltas: [i8; 8],
    pub mode_deltas: [i8; 2],
    pub block_deltas_enabled: bool,
    pub block_delta_shift: u8,
    pub block_delta_multi: bool,
}

impl Default for DeblockState {
    ghost use Rattle.std.specs.Prelude.{◌≡◌};
    ghost use Rattle.av1_frame.specs.Defaults.{nothing_deblocked};

    ghost is_default = { λ state. state ≡ nothing_deblocked };

    /// No filter.
    fn default() -> DeblockState {
        DeblockState {
            levels: [0; 4],
            sharpness: 0,
            deltas_enabled: false,
            delta_updates_enabled: false,
            ref_deltas: [0; 8],
            mode_deltas: [0; 2],
            block_deltas_enabled: false,
            block_delta_shift: 0,
            block_delta_multi: false,
        }
    }
}

/// How a plane is restored.
#[derive(Clone, Copy)]
pub struct RestorationPlaneConfig {
    /// `RESTORE_NONE` to `RESTORE_SGRPROJ`.
    pub lrf_type: u8,

    /// The side of a restoration unit in samples of its plane.
    pub unit_size: usize,
}

impl Default for RestorationPlaneConfig {
    ghost use Rattle.std.specs.Prelude.{◌≡◌};
    ghost use Rattle.av1_frame.specs.Defaults.{unrestored};

    ghost is_default = { λ plane. plane ≡ unrestored };

    /// No filter.
    fn default() -> RestorationPlaneConfig {
        RestorationPlaneConfig {
            lrf_type: 0,
            unit_size: 64,
        }
    }
}

/// How the planes of a frame are restored (AV1 specification 5.9.20).
#[derive(Clone, Copy)]
pub struct RestorationState {
    /// Of Y, Cb and Cr.
    pub planes: [RestorationPlaneConfig; 3],
}

impl Default for RestorationState {
    ghost use Rattle.std.specs.Prelude.{◌≡◌};
    ghost use Rattle.av1_frame.specs.Defaults.{nothing_restored};

    ghost is_default = { λ state. state ≡ nothing_restored };

    /// No filter.
    fn default() -> RestorationState {
        RestorationState {
            planes: [RestorationPlaneConfig::default(); 3],
        }
    }
}

/// What a frame header says beside the invariants.
#[derive(Clone, Copy)]
pub struct FrameState {
    /// The tile whose distributions the frame hands on.
    pub context_update_tile_id: usize,

    pub segmentation: SegmentationState,
    pub deblock: DeblockState,
    pub restoration: RestorationState,

    /// How many bytes the size of a tile has, 1 to 4.
    pub max_tile_size_bytes: u32,
}

impl Default for FrameState {
    ghost use Rattle.std.specs.Prelude.{◌≡◌};
    ghost use Rattle.av1_frame.specs.Defaults.{plain_state};

    ghost is_default = { λ state. state ≡ plain_state };

    /// No filter and no segment.
    fn default() -> FrameState {
        FrameState {
            context_update_tile_id: 0,
            segmentation: SegmentationState::default(),
            deblock: DeblockState::default(),
            restoration: RestorationState::default(),
            max_tile_size_bytes: 1,
        }
    }
}
