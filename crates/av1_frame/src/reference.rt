// The reference frames that a frame header speaks of.

/// The `primary_ref_frame` of a frame that takes over no state.
pub const PRIMARY_REF_NONE: u32 = 7;

/// The `refresh_frame_flags` of a frame that replaces all eight reference frames.
pub const ALL_REF_FRAMES_MASK: u32 = 255;

/// What is kept of a reference frame.
#[derive(Clone, Copy)]
pub struct RefState {
    pub order_hint: u32,
    pub width: usize,
    pub height: usize,
    pub render_width: usize,
    pub render_height: usize,
    pub ref_deltas: [i8; 8],
    pub mode_deltas: [i8; 2],
}

/// The eight reference frames, some of which may be absent.
pub type Refs = [Option<RefState>; 8];
