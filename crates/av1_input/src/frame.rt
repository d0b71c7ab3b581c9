// A frame from a JSON value.
ghost use Rattle.av1_input.specs.Frame.{size_rows, show_rows, reference_rows, motion_rows, quantizer_rows, mode_rows, invariant_rows};
ghost use Rattle.av1_input.specs.Taking.{Pours};
ghost use Rattle.av1_input.specs.WholeFrame.{frame_of, nothing_of_frame};
ghost use Rattle.std.specs.Prelude.{◌≡◌};

use crate::error::ShapeError;
use crate::from_json::FromJson;
use crate::members::Members;
use crate::state::with_state;
use av1_frame::{ALL_REF_FRAMES_MASK, FrameInvariants, FrameState, PRIMARY_REF_NONE, Sequence};
use serde_json::Value;
use std::alloc::Global;

/// What the member `frame` of a unit says: a frame of a sequence that is said elsewhere, and its state.
#[derive(Drop)]
pub struct Frame {
    pub fi: FrameInvariants,
    pub fs: FrameState,
}

impl FromJson for Frame {
    ghost use Rattle.av1_input.specs.WholeFrame.{frame};

    ghost kind = { frame };

    fn none(_alloc: Global) -> Self {
        frame_of(nothing_of_frame(), FrameState::default())
    }

    fn from_json(alloc: Global, value: Value) -> Result<Self, ShapeError> {
        let mut members = Members::of(alloc, value);
        let fi = with_invariants(&mut members, nothing_of_frame());
        let fs = with_state(&mut members, FrameState::default());
        members.finish(frame_of(fi, fs))
    }
}

fn nothing_of_frame() -> FrameInvariants
    ensures { result ≡ nothing_of_frame }
{
    FrameInvariants::new(Sequence::default(), 0, 0)
}

fn frame_of(fi: FrameInvariants, fs: FrameState) -> Frame
    ensures { result ≡ frame_of fi fs }
{
    Frame {
        fi: FrameInvariants {
            enable_segmentation: fs.segmentation.enabled,
            ..fi
        },
        fs,
    }
}

// The frame's sides and its tiles'.
fn with_size(members: &mut Members, fi: FrameInvariants) -> FrameInvariants
    ensures { Pours size_rows members.old members.new fi result }
{
    let width = members.required("width");
    let height = members.required("height");
    FrameInvariants {
        width,
        height,
        tile_width_sb: members.or("tile_width_sb", width.div_ceil(64)),
        tile_height_sb: members.or("tile_height_sb", height.div_ceil(64)),
        ..fi
    }
}

// How the frame is shown, and what its blocks may be.
fn with_show(members: &mut Members, fi: FrameInvariants) -> FrameInvariants
    ensures { Pours show_rows members.old members.new fi result }
{
    FrameInvariants {
        frame_type: members.optional("frame_type"),
        show_frame: members.or("show_frame", true),
        showable_frame: members.optional("showable_frame"),
        show_existing_frame: members.optional("show_existing_frame"),
        frame_to_show_map_idx: members.optional("frame_to_show_map_idx"),
        error_resilient: members.optional("error_resilient"),
        intra_only: members.or("intra_only", true),
        disable_cdf_update: members.optional("disable_cdf_update"),
        allow_screen_content_tools: members.optional("allow_screen_content_tools"),
        force_integer_mv: members.or("force_integer_mv", 1),
        ..fi
    }
}

// Other frames, and the sides to render at.
fn with_reference(members: &mut Members, fi: FrameInvariants) -> FrameInvariants
    ensures { Pours reference_rows members.old members.new fi result }
{
    FrameInvariants {
        frame_size_override_flag: members.optional("frame_size_override_flag"),
        order_hint: members.optional("order_hint"),
        primary_ref_frame: members.or("primary_ref_frame", PRIMARY_REF_NONE),
        refresh_frame_flags: members.or("refresh_frame_flags", ALL_REF_FRAMES_MASK),
        render_and_frame_size_different: members.optional("render_and_frame_size_different"),
        render_width: members.or("render_width", fi.width),
        render_height: members.or("render_height", fi.height),
        allow_intrabc: members.optional("allow_intrabc"),
        ref_frames: members.optional("ref_frames"),
        ..fi
    }
}

// Motion, and the end of the frame.
fn with_motion(members: &mut Members, fi: FrameInvariants) -> FrameInvariants
    ensures { Pours motion_rows members.old members.new fi result }
{
    FrameInvariants {
        allow_high_precision_mv: members.optional("allow_high_precision_mv"),
        is_filter_switchable: members.optional("is_filter_switchable"),
        default_filter: members.optional("default_filter"),
        is_motion_mode_switchable: members.optional("is_motion_mode_switchable"),
        use_ref_frame_mvs: members.optional("use_ref_frame_mvs"),
        disable_frame_end_update_cdf: members.or("disable_frame_end_update_cdf", true),
        ..fi
    }
}

// Quantizers and the directional filter.
fn with_quantizer(members: &mut Members, fi: FrameInvariants) -> FrameInvariants
    ensures { Pours quantizer_rows members.old members.new fi result }
{
    FrameInvariants {
        base_q_idx: members.or("base_q_idx", 100),
        dc_delta_q: members.optional("dc_delta_q"),
        ac_delta_q: members.optional("ac_delta_q"),
        delta_q_present: members.optional("delta_q_present"),
        cdef_damping: members.or("cdef_damping", 3),
        cdef_bits: members.optional("cdef_bits"),
        cdef_y_strengths: members.optional("cdef_y_strengths"),
        cdef_uv_strengths: members.optional("cdef_uv_strengths"),
        ..fi
    }
}

// Modes, global motion and film grain.
fn with_mode(members: &mut Members, fi: FrameInvariants) -> FrameInvariants
    ensures { Pours mode_rows members.old members.new fi result }
{
    FrameInvariants {
        tx_mode_select: members.optional("tx_mode_select"),
        reference_mode: members.optional("reference_mode"),
        skip_mode_allowed: members.optional("skip_mode_allowed"),
        allow_warped_motion: members.optional("allow_warped_motion"),
        use_reduced_tx_set: members.optional("use_reduced_tx_set"),
        globalmv_transformation_type: members.optional("globalmv_transformation_type"),
        film_grain: members.optional("film_grain"),
        large_scale_tile: members.optional("large_scale_tile"),
        ref_frame_sign_bias: members.optional("ref_frame_sign_bias"),
        ..fi
    }
}

/// A frame by its members, but for the state of its filters and segments.
pub fn with_invariants(members: &mut Members, fi: FrameInvariants) -> FrameInvariants
    ensures { Pours invariant_rows members.old members.new fi result }
{
    let fi = with_size(members, fi);
    let fi = with_show(members, fi);
    let fi = with_reference(members, fi);
    let fi = with_motion(members, fi);
    let fi = with_quantizer(members, fi);
    with_mode(members, fi)
}
