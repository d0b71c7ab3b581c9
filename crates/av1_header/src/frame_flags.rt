// The first rows of a frame header.
ghost use Rattle.std.specs.Prelude.{◌≡◌, ℕ, ◌+◌, ◌-◌, ◌^◌, ◌<◌, ◌≤◌, ◌==◌, ◌&&◌, List, Option, None, true, not, nat_lt, slice_index_or, if◌then◌else◌};
ghost use Rattle.av1_geometry.specs.FrameType.{frame_type_number};
ghost use Rattle.av1_header.specs.FrameFlags.{show_existing, frame_kind, frame_tools, hint_of, ref_order_hint};
ghost use Rattle.av1_header.specs.FrameFlags.{ref_order_hints, ref_frame_idx, ref_frames, vectors, intra_frame, inter_frame};
ghost use Rattle.av1_header.specs.Rows.{Wrote, each};
ghost use Rattle.av1_header.specs.SequenceHeader.{SidesFit};
ghost use Rattle.av1_header.specs.Sizes.{BitsHold, with_refs, RenderFits};

use crate::rows::{fixed, flag_or, number_or};
use crate::sizes::{write_own_size, write_searched_sizes, write_shown_size};
use crate::values::{Forces, FrameKind, FrameTools, MaxSize};
use av1_bits::BitWriter;
use av1_frame::{FrameInvariants, RefState, Refs};

pub(crate) fn write_show_existing(
    bits: &mut BitWriter,
    refused: &mut bool,
    fi: &FrameInvariants,
    reduced: bool,
) -> bool
    requires { (not reduced && fi.now.show_existing_frame) ≡ true → fi.now.frame_to_show_map_idx < 2 ^ 3 }
    ensures wrote { Wrote (show_existing reduced) fi.now result refused.old refused.new bits.old bits.new }
    ensures value { result ≡ (not reduced && fi.now.show_existing_frame) }
{
    let existing = flag_or(bits, refused, !reduced, false, fi.show_existing_frame);
    number_or(bits, refused, existing, 0, 3, fi.frame_to_show_map_idx);
    fixed(bits, refused, existing, 1, 1);
    existing
}

fn number_of_type(fi: &FrameInvariants) -> u32
    ensures value { result ≡ frame_type_number fi.now.frame_type }
    ensures fits { result < 2 ^ 2 }
{
    fi.frame_type.number() as u32
}

pub(crate) fn write_frame_kind(
    bits: &mut BitWriter,
    refused: &mut bool,
    fi: &FrameInvariants,
    reduced: bool,
) -> FrameKind
    ensures { Wrote (frame_kind reduced) fi.now result refused.old refused.new bits.old bits.new }
{
    let kind = number_or(bits, refused, !reduced, 0, 2, number_of_type(fi));
    let shown = flag_or(bits, refused, !reduced, true, fi.show_frame);
    flag_or(bits, refused, !reduced & !shown, false, fi.showable_frame);
    let resilient = flag_or(
        bits,
        refused,
        !reduced & (kind != 3) & !((kind == 0) & shown),
        true,
        fi.error_resilient,
    );
    FrameKind {
        frame_type: kind,
        intra: (kind == 0) | (kind == 2),
        error_resilient: resilient,
    }
}

pub(crate) fn write_frame_tools(
    bits: &mut BitWriter,
    refused: &mut bool,
    fi: &FrameInvariants,
    reduced: bool,
    forces: &Forces,
    kind: &FrameKind,
) -> FrameTools
    requires few { forces.now.order_hint_bits ≤ 8 }
    requires hint { nat_lt 0 forces.now.order_hint_bits ≡ true → fi.now.order_hint < 2 ^ forces.now.order_hint_bits }
    requires primary { fi.now.primary_ref_frame < 2 ^ 3 }
    requires refresh { fi.now.refresh_frame_flags < 2 ^ 8 }
    ensures { Wrote (frame_tools reduced forces.now kind.now) fi.now result refused.old refused.new bits.old bits.new }
{
    let screen_force = forces.screen_content_tools;
    let integer_force = forces.integer_mv;
    let n = forces.order_hint_bits;
    let switch = kind.frame_type == 3;
    let disable_cdf_update = flag_or(bits, refused, true, false, fi.disable_cdf_update);
    let screen = flag_or(
        bits,
        refused,
        screen_force == 2,
        screen_force == 1,
        fi.allow_screen_content_tools != 0,
    );
    let integer = flag_or(
        bits,
        refused,
        screen & (integer_force == 2),
        screen & (integer_force == 1),
        fi.force_integer_mv != 0,
    );
    let own = flag_or(
        bits,
        refused,
        !switch & !reduced,
        switch,
        fi.frame_size_override_flag,
    );
    number_or(bits, refused, n > 0, 0, n, fi.order_hint);
    let has_primary = !kind.error_resilient & !kind.intra;
    let primary = number_or(bits, refused, has_primary, 7, 3, fi.primary_ref_frame);
    let refreshes = (kind.frame_type != 0) & !switch;
    let refresh = number_or(bits, refused, refreshes, 255, 8, fi.refresh_frame_flags);
    FrameTools {
        disable_cdf_update,
        screen_content_tools: screen,
        integer_mv: integer,
        size_override: own,
        primary_ref_frame: primary,
        refresh_frame_flags: refresh,
    }
}

fn hint_of(reference: Option<RefState>) -> u32
    ensures { result ≡ hint_of reference }
{
    match reference {
        Some(r) => r.order_hint,
        None => 0,
    }
}

fn write_ref_hint(
    bits: &mut BitWriter,
    refused: &mut bool,
    refs: &Refs,
    there: bool,
    n: u32,
    i: usize,
)
    requires place { i < 8 }
    requires few { n ≤ 8 }
    requires fits { there ≡ true → hint_of (slice_index_or refs.now i None) < 2 ^ n }
    ensures { Wrote (ref_order_hint there n i) refs.now tt refused.old refused.new bits.old bits.new }
{
    number_or(bits, refused, there, 0, n, hint_of(refs[i]));
}

pub(crate) fn write_ref_hints(
    bits: &mut BitWriter,
    refused: &mut bool,
    refs: &Refs,
    there: bool,
    n: u32,
)
    requires few { n ≤ 8 }
    requires fits { there ≡ true → (i : ℕ) → i < 8 → hint_of (slice_index_or refs.now i None) < 2 ^ n }
    ensures { Wrote (ref_order_hints there n) refs.now tt refused.old refused.new bits.old bits.new }
{
    for i in 0..8 {
        write_ref_hint(bits, refused, refs, there, n, i);
    }
}

fn write_ref_frame(bits: &mut BitWriter, refused: &mut bool, fi: &FrameInvariants, i: usize)
    requires place { i < 7 }
    requires fits { slice_index_or fi.now.ref_frames i 0 < 2 ^ 3 }
    ensures { Wrote (ref_frame_idx i) fi.now tt refused.old refused.new bits.old bits.new }
{
    number_or(bits, refused, true, 0, 3, u32::from(fi.ref_frames[i]));
}

fn write_places(bits: &mut BitWriter, refused: &mut bool, fi: &FrameInvariants)
    requires { (i : ℕ) → i < 7 → slice_index_or fi.now.ref_frames i 0 < 2 ^ 3 }
    ensures { Wrote (each 7 0 ref_frame_idx) fi.now tt refused.old refused.new bits.old bits.new }
{
    for i in 0..7 {
        write_ref_frame(bits, refused, fi, i);
    }
}

fn write_ref_frames(bits: &mut BitWriter, refused: &mut bool, fi: &FrameInvariants, hints: bool)
    requires { (i : ℕ) → i < 7 → slice_index_or fi.now.ref_frames i 0 < 2 ^ 3 }
    ensures { Wrote (ref_frames hints) fi.now tt refused.old refused.new bits.old bits.new }
{
    fixed(bits, refused, hints, 1, 0);
    write_places(bits, refused, fi);
}

fn write_vectors(
    bits: &mut BitWriter,
    refused: &mut bool,
    fi: &FrameInvariants,
    integer: bool,
    mvs: bool,
    high_precision: bool,
) -> bool
    requires { fi.now.default_filter < 2 ^ 2 }
    ensures { Wrote (vectors integer mvs high_precision) fi.now result refused.old refused.new bits.old bits.new }
{
    let high = flag_or(
        bits,
        refused,
        !integer,
        high_precision,
        fi.allow_high_precision_mv,
    );
    let switchable = flag_or(bits, refused, true, false, fi.is_filter_switchable);
    number_or(bits, refused, !switchable, 0, 2, fi.default_filter);
    flag_or(bits, refused, true, false, fi.is_motion_mode_switchable);
    flag_or(bits, refused, mvs, false, fi.use_ref_frame_mvs);
    high
}

pub(crate) fn write_intra_frame(
    bits: &mut BitWriter,
    refused: &mut bool,
    fi: &FrameInvariants,
    refs: &Refs,
    tools: &FrameTools,
    size: &MaxSize,
    high_precision: bool,
) -> bool
    requires sides { SidesFit fi.now }
    requires render { RenderFits fi.now }
    requires bits { BitsHold size.now fi.now }
    ensures { Wrote (intra_frame tools.now size.now high_precision) (with_refs fi.now refs.now) result refused.old refused.new bits.old bits.new }
{
    write_own_size(bits, refused, fi, tools.size_override, size);
    write_shown_size(bits, refused, fi, true);
    flag_or(
        bits,
        refused,
        tools.screen_content_tools,
        false,
        fi.allow_intrabc,
    );
    high_precision
}

pub(crate) fn write_inter_frame(
    bits: &mut BitWriter,
    refused: &mut bool,
    fi: &FrameInvariants,
    refs: &Refs,
    hints: bool,
    mvs: bool,
    resilient: bool,
    tools: &FrameTools,
    size: &MaxSize,
    high: bool,
) -> bool
    requires places { (i : ℕ) → i < 7 → slice_index_or fi.now.ref_frames i 0 < 2 ^ 3 }
    requires filter { fi.now.default_filter < 2 ^ 2 }
    requires sides { SidesFit fi.now }
    requires render { RenderFits fi.now }
    requires bits { BitsHold size.now fi.now }
    ensures { Wrote (inter_frame hints mvs resilient tools.now size.now high) (with_refs fi.now refs.now) result refused.old refused.new bits.old bits.new }
{
    write_ref_frames(bits, refused, fi, hints);
    let there = tools.size_override & !resilient;
    write_searched_sizes(bits, refused, fi, refs, there, tools.size_override, size);
    write_vectors(bits, refused, fi, tools.integer_mv, mvs & !resilient, high)
}
