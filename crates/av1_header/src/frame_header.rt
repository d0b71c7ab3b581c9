// The rows of a frame header, put together.
ghost use Rattle.std.specs.Prelude.{◌≡◌, ℕ, ◌^◌, ◌<◌, ◌≤◌, ◌==◌, ◌&&◌, true, false, not, if◌then◌else◌};
ghost use Rattle.av1_frame.specs.Tiling.{tiling};
ghost use Rattle.av1_header.specs.Color.{color_of};
ghost use Rattle.av1_header.specs.Rows.{Wrote};
ghost use Rattle.av1_header.specs.FrameHeader.{frame_of, FrameFits, StartFits, frame_sides, says_hints, frame_start};
ghost use Rattle.av1_header.specs.FrameHeader.{superblocks, tiles_of, deblock_of, frame_filters, tiles_in, motions};
ghost use Rattle.av1_header.specs.FrameHeader.{frame_modes, frame_rows, header_of, order_hint_bits_of, sequence_values_of, shows_existing};
ghost use Rattle.av1_header.specs.SequenceHeader.{SidesFit};
ghost use Rattle.av1_header.specs.Sizes.{BitsHold, with_refs};
ghost use Rattle.av1_header.specs.Tiles.{HasSmallLogs, TilesFit};
ghost use Rattle.av1_header.specs.FilmGrain.{FilmGrainFits};
ghost use Rattle.av1_header.specs.Filters.{global_motion_params};

use crate::color::{halves_height, halves_width, is_monochrome};
use crate::deltas::{deltas_before, write_loop_filter, write_quantizer};
use crate::film_grain::write_film_grain;
use crate::filters::{write_cdef, write_modes, write_motions, write_restoration};
use crate::frame_flags::{
    write_frame_kind, write_frame_tools, write_inter_frame, write_intra_frame, write_ref_hints,
    write_show_existing,
};
use crate::rows::{fixed, flag_or};
use crate::segments::write_segmentation;
use crate::sizes::max_size;
use crate::tiles::{TileValues, write_tile_info};
use crate::values::{
    Color, Filters, Forces, FrameKind, FrameStart, FrameTools, InterTools, SequenceValues,
    SideInformation, Tools,
};
use av1_bits::BitWriter;
use av1_frame::{FrameInvariants, FrameState, Refs, Sequence, TilingInfo};

pub(crate) fn color_of(seq: &Sequence) -> Color
    ensures { result ≡ color_of seq.now.chroma_sampling }
{
    Color {
        monochrome: is_monochrome(seq),
        xdec: halves_width(seq),
        ydec: halves_height(seq),
    }
}

fn order_hint_bits(seq: &Sequence) -> u32
    requires { order_hint_bits_of seq.now ≤ 8 }
    ensures { result ≡ order_hint_bits_of seq.now }
{
    if seq.enable_order_hint {
        seq.order_hint_bits_minus_1 + 1
    } else {
        0
    }
}

// What the sequence header tells.
pub(crate) fn sequence_values(fi: &FrameInvariants) -> SequenceValues
    requires sides { SidesFit fi.now }
    requires hint_bits { order_hint_bits_of fi.now.sequence ≤ 8 }
    ensures value { result ≡ sequence_values_of fi.now }
    ensures bits { BitsHold result.tools.size fi.now }
{
    let seq = &fi.sequence;
    SequenceValues {
        reduced: seq.reduced_still_picture_hdr,
        tools: Tools {
            size: max_size(fi),
            inter: InterTools {
                warped_motion: seq.enable_warped_motion,
                order_hint: seq.enable_order_hint,
                ref_frame_mvs: seq.enable_ref_frame_mvs,
            },
            forces: Forces {
                screen_content_tools: seq.force_screen_content_tools,
                integer_mv: seq.force_integer_mv,
                order_hint_bits: order_hint_bits(seq),
            },
            filters: Filters {
                cdef: seq.enable_cdef,
                restoration: seq.enable_restoration,
            },
        },
        color: color_of(seq),
        film_grain: seq.film_grain_params_present,
    }
}

fn write_frame_sides(
    bits: &mut BitWriter,
    refused: &mut bool,
    fi: &FrameInvariants,
    refs: &Refs,
    q: &SequenceValues,
    kind: &FrameKind,
    tools: &FrameTools,
    high_precision: bool,
) -> bool
    requires sequence { q.now ≡ sequence_values_of fi.now }
    requires bits { BitsHold q.now.tools.size fi.now }
    requires fits { StartFits (with_refs fi.now refs.now) }
    ensures { Wrote (frame_sides q.now kind.now tools.now high_precision) (with_refs fi.now refs.now) result refused.old refused.new bits.old bits.new }
{
    let size = &q.tools.size;
    if kind.intra {
        write_intra_frame(bits, refused, fi, refs, tools, size, high_precision)
    } else {
        let hints = q.tools.forces.order_hint_bits > 0;
        let mvs = q.tools.inter.ref_frame_mvs;
        let resilient = kind.error_resilient;
        write_inter_frame(
            bits,
            refused,
            fi,
            refs,
            hints,
            mvs,
            resilient,
            tools,
            size,
            high_precision,
        )
    }
}

fn write_start(
    bits: &mut BitWriter,
    refused: &mut bool,
    fi: &FrameInvariants,
    refs: &Refs,
    q: &SequenceValues,
    high_precision: bool,
) -> FrameStart
    requires sequence { q.now ≡ sequence_values_of fi.now }
    requires bits { BitsHold q.now.tools.size fi.now }
    requires fits { StartFits (with_refs fi.now refs.now) }
    ensures { Wrote (frame_start q.now high_precision) (with_refs fi.now refs.now) result refused.old refused.new bits.old bits.new }
{
    let forces = &q.tools.forces;
    let n = forces.order_hint_bits;
    let kind = write_frame_kind(bits, refused, fi, q.reduced);
    let tools = write_frame_tools(bits, refused, fi, q.reduced, forces, &kind);
    let replaces_some = !kind.intra | (tools.refresh_frame_flags != 255);
    let there = kind.error_resilient & (n > 0) & replaces_some;
    write_ref_hints(bits, refused, refs, there, n);
    let high_precision = write_frame_sides(
        bits,
        refused,
        fi,
        refs,
        q,
        &kind,
        &tools,
        high_precision,
    );
    let some = !q.reduced & !tools.disable_cdf_update;
    flag_or(bits, refused, some, true, fi.disable_frame_end_update_cdf);
    FrameStart {
        kind,
        tools,
        high_precision,
    }
}

fn tiling_of(fi: &FrameInvariants, state: &FrameState, refs: &Refs) -> TilingInfo
    requires { TilesFit (tiles_of (frame_of fi.now state.now refs.now)) }
    ensures value { result ≡ (tiles_of (frame_of fi.now state.now refs.now)).tiling }
    ensures small { HasSmallLogs result }
{
    let width = fi.width.div_ceil(64);
    let height = fi.height.div_ceil(64);
    TilingInfo::of(width, height, fi.tile_width_sb, fi.tile_height_sb)
}

// The tiles of a frame, in a sequence of its sides.
fn write_frame_tiles(
    bits: &mut BitWriter,
    refused: &mut bool,
    fi: &FrameInvariants,
    state: &FrameState,
    refs: &Refs,
) -> TileValues
    requires { TilesFit (tiles_of (frame_of fi.now state.now refs.now)) }
    ensures { Wrote (tiles_in fi.now.width fi.now.height) (tiles_of (frame_of fi.now state.now refs.now)) result refused.old refused.new bits.old bits.new }
{
    let info = tiling_of(fi, state, refs);
    write_tile_info(bits, refused, &info, state)
}

fn write_filters(
    bits: &mut BitWriter,
    refused: &mut bool,
    fi: &FrameInvariants,
    state: &FrameState,
    refs: &Refs,
    q: &SequenceValues,
    has_primary: bool,
) -> TileValues
    requires sequence { q.now ≡ sequence_values_of fi.now }
    requires fits { FrameFits (frame_of fi.now state.now refs.now) }
    ensures { Wrote (frame_filters q.now has_primary) (frame_of fi.now state.now refs.now) result refused.old refused.new bits.old bits.new }
{
    let mono = q.color.monochrome;
    let filters = &q.tools.filters;
    let before = deltas_before(fi, refs);
    let tiles = write_frame_tiles(bits, refused, fi, state, refs);
    write_quantizer(bits, refused, fi, mono);
    write_segmentation(bits, refused, &state.segmentation, has_primary);
    fixed(bits, refused, true, 1, 0);
    write_loop_filter(bits, refused, &state.deblock, &before, mono);
    write_cdef(bits, refused, fi, filters.cdef, mono);
    write_restoration(
        bits,
        refused,
        &state.restoration,
        filters.restoration,
        &q.color,
    );
    tiles
}

fn motions(intra: bool) -> usize
    ensures value { result ≡ motions intra }
    ensures few { result ≤ 7 }
{
    if intra { 0 } else { 7 }
}

fn write_all_motions(
    bits: &mut BitWriter,
    refused: &mut bool,
    fi: &FrameInvariants,
    intra: bool,
    high_precision: bool,
)
    ensures { Wrote (global_motion_params (motions intra) high_precision) fi.now tt refused.old refused.new bits.old bits.new }
{
    write_motions(bits, refused, fi, motions(intra), high_precision);
}

fn write_frame_modes(
    bits: &mut BitWriter,
    refused: &mut bool,
    fi: &FrameInvariants,
    q: &SequenceValues,
    start: &FrameStart,
    skip_mode_allowed: bool,
)
    requires { q.now.film_grain ≡ true → FilmGrainFits q.now.color fi.now.film_grain }
    ensures { Wrote (frame_modes q.now start.now skip_mode_allowed) fi.now tt refused.old refused.new bits.old bits.new }
{
    let warped = q.tools.inter.warped_motion;
    write_modes(bits, refused, fi, &start.kind, skip_mode_allowed, warped);
    write_all_motions(bits, refused, fi, start.kind.intra, start.high_precision);
    let inter = start.kind.frame_type == 1;
    write_film_grain(bits, refused, fi, q.film_grain, inter, &q.color);
}

fn write_rows(
    bits: &mut BitWriter,
    refused: &mut bool,
    fi: &FrameInvariants,
    state: &FrameState,
    refs: &Refs,
    q: &SequenceValues,
    side: &SideInformation,
) -> Option<TileValues>
    requires sequence { q.now ≡ sequence_values_of fi.now }
    requires bits { BitsHold q.now.tools.size fi.now }
    requires fits { FrameFits (frame_of fi.now state.now refs.now) }
    ensures { Wrote (frame_rows q.now side.now) (frame_of fi.now state.now refs.now) result refused.old refused.new bits.old bits.new }
{
    let start = write_start(bits, refused, fi, refs, q, side.high_precision);
    let has_primary = start.tools.primary_ref_frame != 7;
    let tiles = write_filters(bits, refused, fi, state, refs, q, has_primary);
    write_frame_modes(bits, refused, fi, q, &start, side.skip_mode_allowed);
    Some(tiles)
}

pub(crate) fn write_header_of_frame(
    bits: &mut BitWriter,
    refused: &mut bool,
    fi: &FrameInvariants,
    state: &FrameState,
    refs: &Refs,
) -> Option<TileValues>
    requires index { shows_existing fi.now ≡ true → fi.now.frame_to_show_map_idx < 2 ^ 3 }
    requires fits { shows_existing fi.now ≡ false → FrameFits (frame_of fi.now state.now refs.now) }
    ensures { Wrote (header_of fi.now) (frame_of fi.now state.now refs.now) result refused.old refused.new bits.old bits.new }
{
    let reduced = fi.sequence.reduced_still_picture_hdr;
    let existing = write_show_existing(bits, refused, fi, reduced);
    if existing {
        None
    } else {
        let side = SideInformation {
            high_precision: fi.allow_high_precision_mv,
            skip_mode_allowed: fi.skip_mode_allowed,
        };
        write_rows(bits, refused, fi, state, refs, &sequence_values(fi), &side)
    }
}
