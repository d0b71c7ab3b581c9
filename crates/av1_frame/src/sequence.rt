// What holds of a whole sequence of frames.
use av1_geometry::{ChromaSampling, PixelRange};

/// How many seconds a tick of the clock lasts, as a fraction (`Rational` of rav1e).
#[derive(Clone, Copy, Default)]
pub struct Rational {
    pub num: u64,
    pub den: u64,
}

/// What the numbers of samples stand for (AV1 specification 6.4.2). Each is a number of ISO/IEC 23091-4.
#[derive(Clone, Copy, Default)]
pub struct ColorDescription {
    pub color_primaries: u8,
    pub transfer_characteristics: u8,
    pub matrix_coefficients: u8,
}

/// How light the content is, in candelas per square metre (AV1 specification 5.8.3).
#[derive(Clone, Copy, Default)]
pub struct ContentLight {
    pub max_content_light_level: u16,
    pub max_frame_average_light_level: u16,
}

/// A point of the chromaticity diagram, in parts of 65536.
#[derive(Clone, Copy, Default)]
pub struct ChromaticityPoint {
    pub x: u16,
    pub y: u16,
}

/// The display on which the content was mastered (AV1 specification 5.8.4).
#[derive(Clone, Copy, Default)]
pub struct MasteringDisplay {
    /// Red, green and blue.
    pub primaries: [ChromaticityPoint; 3],

    pub white_point: ChromaticityPoint,

    /// In candelas per square metre, times 256.
    pub max_luminance: u32,

    /// In candelas per square metre, times 16384.
    pub min_luminance: u32,
}

/// What a sequence header says (AV1 specification 5.5), and what metadata there is.
#[derive(Clone, Copy)]
pub struct Sequence {
    pub profile: u8,
    pub still_picture: bool,
    pub reduced_still_picture_hdr: bool,
    pub level_idx: u8,
    pub timing_info_present: bool,
    pub time_base: Rational,
    pub use_128x128_superblock: bool,
    pub enable_filter_intra: bool,
    pub enable_intra_edge_filter: bool,
    pub enable_interintra_compound: bool,
    pub enable_masked_compound: bool,
    pub enable_warped_motion: bool,
    pub enable_dual_filter: bool,
    pub enable_order_hint: bool,
    pub enable_jnt_comp: bool,
    pub enable_ref_frame_mvs: bool,

    /// Whether frames have tools for screen content: 0 none, 1 all, 2 as each frame says.
    pub force_screen_content_tools: u32,

    /// Whether motion vectors are whole samples: 0 none, 1 all, 2 as each frame says.
    pub force_integer_mv: u32,

    pub order_hint_bits_minus_1: u32,
    pub enable_superres: bool,
    pub enable_cdef: bool,
    pub enable_restoration: bool,
    pub frame_id_numbers_present_flag: bool,
    pub decoder_model_info_present_flag: bool,
    pub film_grain_params_present: bool,
    pub bit_depth: u8,
    pub chroma_sampling: ChromaSampling,
    pub chroma_sample_position: u8,
    pub pixel_range: PixelRange,
    pub color_description: Option<ColorDescription>,
    pub content_light: Option<ContentLight>,
    pub mastering_display: Option<MasteringDisplay>,
}

impl Default for Sequence {
    ghost use Rattle.std.specs.Prelude.{◌≡◌};
    ghost use Rattle.av1_frame.specs.Defaults.{still_sequence};

    ghost is_default = { λ seq. seq ≡ still_sequence };

    /// A still picture of 8 bits in 4:2:0 with a reduced header and no tool.
    #[tactic(auto, unfolding(crate::specs::Defaults::still_sequence))]
    fn default() -> Sequence {
        Sequence {
            profile: 0,
            still_picture: true,
            reduced_still_picture_hdr: true,
            level_idx: 0,
            timing_info_present: false,
            time_base: Rational { num: 0, den: 0 },
            use_128x128_superblock: false,
            enable_filter_intra: false,
            enable_intra_edge_filter: false,
            enable_interintra_compound: false,
            enable_masked_compound: false,
            enable_warped_motion: false,
            enable_dual_filter: false,
            enable_order_hint: false,
            enable_jnt_comp: false,
            enable_ref_frame_mvs: false,
            force_screen_content_tools: 2,
            force_integer_mv: 2,
            order_hint_bits_minus_1: 0,
            enable_superres: false,
            enable_cdef: false,
            enable_restoration: false,
            frame_id_numbers_present_flag: false,
            decoder_model_info_present_flag: false,
            film_grain_params_present: false,
            bit_depth: 8,
            chroma_sampling: ChromaSampling::Cs420,
            chroma_sample_position: 0,
            pixel_range: PixelRange::Limited,
            color_description: None,
            content_light: None,
            mastering_display: None,
        }
    }
}
