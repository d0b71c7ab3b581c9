// What holds of a frame.
ghost use Rattle.std.specs.Prelude.{◌≡◌};
ghost use Rattle.av1_frame.specs.Defaults.{key_frame};

use crate::film_grain::FilmGrain;
use crate::reference::{ALL_REF_FRAMES_MASK, PRIMARY_REF_NONE};
use crate::sequence::Sequence;
use av1_geometry::{FrameType, GlobalMVMode, ReferenceMode};

/// What a frame header says (AV1 specification 5.9), beside the state of filters and segments.
#[derive(Drop)]
pub struct FrameInvariants {
    pub sequence: Sequence,

    /// The frame's width in luma samples.
    pub width: usize,

    /// The frame's height in luma samples.
    pub height: usize,

    /// The width of a tile in superblocks of 64x64, but for the last tile of a row.
    pub tile_width_sb: usize,

    /// The height of a tile in superblocks of 64x64, but for the last tile of a column.
    pub tile_height_sb: usize,

    pub frame_type: FrameType,
    pub show_frame: bool,
    pub showable_frame: bool,
    pub show_existing_frame: bool,
    pub frame_to_show_map_idx: u32,
    pub error_resilient: bool,

    /// Whether all blocks are intra: the frame is a key frame or an intra-only frame.
    pub intra_only: bool,

    pub disable_cdf_update: bool,
    pub allow_screen_content_tools: u32,
    pub force_integer_mv: u32,
    pub frame_size_override_flag: bool,
    pub order_hint: u32,

    /// Which of `ref_frames` hands on its state, or `PRIMARY_REF_NONE`.
    pub primary_ref_frame: u32,

    pub refresh_frame_flags: u32,
    pub render_and_frame_size_different: bool,
    pub render_width: usize,
    pub render_height: usize,
    pub allow_intrabc: bool,

    /// The places among the eight reference states, of LAST to ALTREF.
    pub ref_frames: [u8; 7],

    pub allow_high_precision_mv: bool,
    pub is_filter_switchable: bool,
    pub default_filter: u32,
    pub is_motion_mode_switchable: bool,
    pub use_ref_frame_mvs: bool,
    pub disable_frame_end_update_cdf: bool,
    pub base_q_idx: u8,

    /// Of Y, Cb and Cr.
    pub dc_delta_q: [i8; 3],

    /// Of Y, Cb and Cr.
    pub ac_delta_q: [i8; 3],

    pub delta_q_present: bool,
    pub cdef_damping: u8,
    pub cdef_bits: u8,
    pub cdef_y_strengths: [u8; 8],
    pub cdef_uv_strengths: [u8; 8],
    pub tx_mode_select: bool,
    pub reference_mode: ReferenceMode,
    pub skip_mode_allowed: bool,
    pub allow_warped_motion: bool,
    pub use_reduced_tx_set: bool,
    pub globalmv_transformation_type: [GlobalMVMode; 7],
    pub film_grain: Option<FilmGrain>,
    pub large_scale_tile: bool,
    pub ref_frame_sign_bias: [bool; 7],

    /// Whether the frame has segments: `enabled` of its segmentation.
    pub enable_segmentation: bool,
}

impl FrameInvariants {
    /// A shown key frame of these sides in luma samples: one tile, no tool, quantizer 100.
    #[tactic(auto, unfolding(crate::specs::Defaults::key_frame))]
    pub fn new(sequence: Sequence, width: usize, height: usize) -> FrameInvariants
        ensures { result ≡ key_frame sequence width height }
    {
        FrameInvariants {
            sequence,
            width,
            height,
            tile_width_sb: width.div_ceil(64),
            tile_height_sb: height.div_ceil(64),
            frame_type: FrameType::KEY,
            show_frame: true,
            showable_frame: false,
            show_existing_frame: false,
            frame_to_show_map_idx: 0,
            error_resilient: false,
            intra_only: true,
            disable_cdf_update: false,
            allow_screen_content_tools: 0,
            force_integer_mv: 1,
            frame_size_override_flag: false,
            order_hint: 0,
            primary_ref_frame: PRIMARY_REF_NONE,
            refresh_frame_flags: ALL_REF_FRAMES_MASK,
            render_and_frame_size_different: false,
            render_width: width,
            render_height: height,
            allow_intrabc: false,
            ref_frames: [0; 7],
            allow_high_precision_mv: false,
            is_filter_switchable: false,
            default_filter: 0,
            is_motion_mode_switchable: false,
            use_ref_frame_mvs: false,
            disable_frame_end_update_cdf: true,
            base_q_idx: 100,
            dc_delta_q: [0; 3],
            ac_delta_q: [0; 3],
            delta_q_present: false,
            cdef_damping: 3,
            cdef_bits: 0,
            cdef_y_strengths: [0; 8],
            cdef_uv_strengths: [0; 8],
            tx_mode_select: false,
            reference_mode: ReferenceMode::SINGLE,
            skip_mode_allowed: false,
            allow_warped_motion: false,
            use_reduced_tx_set: false,
            globalmv_transformation_type: [GlobalMVMode::IDENTITY; 7],
            film_grain: None,
            large_scale_tile: false,
            ref_frame_sign_bias: [false; 7],
            enable_segmentation: false,
        }
    }
}
