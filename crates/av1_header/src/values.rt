// What rows tell: values that later rows need.

/// How samples are stored.
#[derive(Clone, Copy)]
pub struct Color {
    /// Whether there is luma alone.
    pub monochrome: bool,

    /// Whether chroma has half the width.
    pub xdec: bool,

    /// Whether chroma has half the height.
    pub ydec: bool,
}

/// The greatest sides of frames, and in how many bits each is coded.
#[derive(Clone, Copy)]
pub struct MaxSize {
    pub width_bits: u32,
    pub height_bits: u32,
    pub width: u32,
    pub height: u32,
}

/// The profile, and whether headers are reduced to those of a still picture.
#[derive(Clone, Copy)]
pub struct Profile {
    pub profile: u32,
    pub reduced: bool,
}

/// The tools for inter frames that frame headers ask for.
#[derive(Clone, Copy)]
pub struct InterTools {
    pub warped_motion: bool,
    pub order_hint: bool,
    pub ref_frame_mvs: bool,
}

/// What is forced on frames: 0 off, 1 on, 2 as each frame says; and the bits of an order hint, 0 where there is none.
#[derive(Clone, Copy)]
pub struct Forces {
    pub screen_content_tools: u32,
    pub integer_mv: u32,
    pub order_hint_bits: u32,
}

/// The filters that frames may use.
#[derive(Clone, Copy)]
pub struct Filters {
    pub cdef: bool,
    pub restoration: bool,
}

/// What a sequence header tells from the greatest sides to the filters.
#[derive(Clone, Copy)]
pub struct Tools {
    pub size: MaxSize,
    pub inter: InterTools,
    pub forces: Forces,
    pub filters: Filters,
}

/// What a sequence header tells frame headers.
#[derive(Clone, Copy)]
pub struct SequenceValues {
    pub reduced: bool,
    pub tools: Tools,
    pub color: Color,
    pub film_grain: bool,
}

/// Which kind of frame it is.
#[derive(Clone, Copy)]
pub struct FrameKind {
    /// 0 for a key frame, 1 inter, 2 intra-only, 3 for a switch frame.
    pub frame_type: u32,

    /// Whether all blocks are intra.
    pub intra: bool,

    pub error_resilient: bool,
}

/// The tools that a frame has, and the references that it keeps.
#[derive(Clone, Copy)]
pub struct FrameTools {
    pub disable_cdf_update: bool,
    pub screen_content_tools: bool,
    pub integer_mv: bool,
    pub size_override: bool,
    pub primary_ref_frame: u32,
    pub refresh_frame_flags: u32,
}

/// How many points the scalings of film grain have.
#[derive(Clone, Copy)]
pub struct GrainPoints {
    pub y: u32,
    pub cb: u32,
    pub cr: u32,

    /// Whether chroma is scaled by luma's points.
    pub from_luma: bool,
}

/// What the first rows of a frame header tell.
#[derive(Clone, Copy)]
pub struct FrameStart {
    pub kind: FrameKind,
    pub tools: FrameTools,

    /// Whether vectors have eighths of a sample.
    pub high_precision: bool,
}

/// What is known of a frame beside its header: values that may have no bit there.
#[derive(Clone, Copy)]
pub struct SideInformation {
    /// Whether vectors have eighths of a sample, where no row says so.
    pub high_precision: bool,

    pub skip_mode_allowed: bool,
}
