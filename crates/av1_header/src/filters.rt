// Filters behind deblocking, modes and motion of a frame.
ghost use Rattle.std.specs.Prelude.{◌≡◌, ℕ, ◌+◌, ◌-◌, ◌*◌, ◌^◌, ◌<◌, ◌≤◌, ◌==◌, ◌&&◌, true, false, not, nat_lt, slice_index_or, if◌then◌else◌};
ghost use Rattle.av1_geometry.specs.FrameType.{reference_mode_number, global_mv_mode_number};
ghost use Rattle.av1_header.specs.Filters.{CdefFits, RestorationFits, cdef_strengths, strengths, cdef_params};
ghost use Rattle.av1_header.specs.Filters.{lr_params, plane, modes, translations, global_param, global_motion_params};
ghost use Rattle.av1_header.specs.Rows.{Wrote, each};

use crate::rows::{fixed, flag_or, number_or, zero};
use crate::values::{Color, FrameKind};
use av1_bits::BitWriter;
use av1_frame::{FrameInvariants, RestorationState};
use av1_geometry::GlobalMVMode;

fn write_strength(
    bits: &mut BitWriter,
    refused: &mut bool,
    fi: &FrameInvariants,
    monochrome: bool,
    i: usize,
)
    requires place { i < 8 }
    requires fits { CdefFits fi.now }
    ensures { Wrote (cdef_strengths monochrome i) fi.now tt refused.old refused.new bits.old bits.new }
{
    number_or(bits, refused, true, 0, 6, u32::from(fi.cdef_y_strengths[i]));
    number_or(
        bits,
        refused,
        !monochrome,
        0,
        6,
        u32::from(fi.cdef_uv_strengths[i]),
    );
}

fn write_strengths(
    bits: &mut BitWriter,
    refused: &mut bool,
    fi: &FrameInvariants,
    monochrome: bool,
    n: usize,
)
    requires few { n ≤ 8 }
    requires fits { 1 ≤ n → CdefFits fi.now }
    ensures { Wrote (each n 0 (cdef_strengths monochrome)) fi.now tt refused.old refused.new bits.old bits.new }
{
    for i in 0..n {
        write_strength(bits, refused, fi, monochrome, i);
    }
}

fn strengths(there: bool, bits: u32) -> usize
    requires { bits ≤ 3 }
    ensures value { result ≡ strengths there bits }
    ensures few { result ≤ 8 }
    ensures none { there ≡ false → result ≡ 0 }
{
    match bits {
        _ if !there => 0,
        0 => 1,
        1 => 2,
        2 => 4,
        _ => 8,
    }
}

fn write_all_strengths(
    bits: &mut BitWriter,
    refused: &mut bool,
    fi: &FrameInvariants,
    monochrome: bool,
    there: bool,
    n: u32,
)
    requires few { n ≤ 3 }
    requires fits { there ≡ true → CdefFits fi.now }
    ensures { Wrote (each (strengths there n) 0 (cdef_strengths monochrome)) fi.now tt refused.old refused.new bits.old bits.new }
{
    write_strengths(bits, refused, fi, monochrome, strengths(there, n));
}

// The damping, which is coded as 3 less.
fn damping(fi: &FrameInvariants) -> u32
    ensures { result ≡ fi.now.cdef_damping - 3 }
{
    u32::from(fi.cdef_damping).saturating_sub(3)
}

pub(crate) fn write_cdef(
    bits: &mut BitWriter,
    refused: &mut bool,
    fi: &FrameInvariants,
    there: bool,
    monochrome: bool,
)
    requires { there ≡ true → CdefFits fi.now }
    ensures { Wrote (cdef_params there monochrome) fi.now tt refused.old refused.new bits.old bits.new }
{
    number_or(bits, refused, there, 0, 2, damping(fi));
    let n = number_or(bits, refused, there, 0, 2, u32::from(fi.cdef_bits));
    write_all_strengths(bits, refused, fi, monochrome, there, n);
}

fn lrf_type(rs: &RestorationState, i: usize) -> u32
    requires { i < 3 }
    ensures { result ≡ (plane rs.now i).lrf_type }
{
    u32::from(rs.planes[i].lrf_type)
}

// Whether restoration units of luma are larger than this.
fn unit_above(rs: &RestorationState, side: usize) -> bool
    ensures { result ≡ nat_lt side (plane rs.now 0).unit_size }
{
    rs.planes[0].unit_size > side
}

// Whether restoration units of chroma are smaller than those of luma.
fn chroma_is_smaller(rs: &RestorationState) -> bool
    ensures { result ≡ nat_lt (plane rs.now 1).unit_size (plane rs.now 0).unit_size }
{
    rs.planes[0].unit_size > rs.planes[1].unit_size
}

pub(crate) fn write_restoration(
    bits: &mut BitWriter,
    refused: &mut bool,
    rs: &RestorationState,
    there: bool,
    color: &Color,
)
    requires { there ≡ true → RestorationFits rs.now }
    ensures { Wrote (lr_params there color.now) rs.now tt refused.old refused.new bits.old bits.new }
{
    let has_chroma = there & !color.monochrome;
    let y = number_or(bits, refused, there, 0, 2, lrf_type(rs, 0));
    let u = number_or(bits, refused, has_chroma, 0, 2, lrf_type(rs, 1));
    let v = number_or(bits, refused, has_chroma, 0, 2, lrf_type(rs, 2));
    let chroma = (u > 0) | (v > 0);
    let shift = flag_or(bits, refused, (y > 0) | chroma, false, unit_above(rs, 64));
    flag_or(bits, refused, shift, false, unit_above(rs, 128));
    flag_or(
        bits,
        refused,
        color.xdec & color.ydec & chroma,
        false,
        chroma_is_smaller(rs),
    );
}

fn selects_references(fi: &FrameInvariants) -> bool
    ensures { result ≡ not (reference_mode_number fi.now.reference_mode == 0) }
{
    fi.reference_mode.number() != 0
}

pub(crate) fn write_modes(
    bits: &mut BitWriter,
    refused: &mut bool,
    fi: &FrameInvariants,
    kind: &FrameKind,
    skip_mode_allowed: bool,
    warped: bool,
)
    ensures { Wrote (modes kind.now skip_mode_allowed warped) fi.now tt refused.old refused.new bits.old bits.new }
{
    flag_or(bits, refused, true, false, fi.tx_mode_select);
    flag_or(bits, refused, !kind.intra, false, selects_references(fi));
    fixed(bits, refused, skip_mode_allowed, 1, 0);
    let warps = !kind.intra & !kind.error_resilient & warped;
    flag_or(bits, refused, warps, false, fi.allow_warped_motion);
    flag_or(bits, refused, true, false, fi.use_reduced_tx_set);
}

fn number_of_motion(motion: GlobalMVMode) -> usize
    ensures { result ≡ global_mv_mode_number motion }
{
    motion.number()
}

fn translations(high_precision: bool) -> u16
    ensures value { result ≡ translations high_precision }
    ensures some { 1 ≤ result }
    ensures few { result ≤ 4096 }
{
    if high_precision { 513 } else { 257 }
}

fn write_motion(
    bits: &mut BitWriter,
    refused: &mut bool,
    motion: GlobalMVMode,
    high_precision: bool,
)
    ensures { Wrote (global_param high_precision) motion tt refused.old refused.new bits.old bits.new }
{
    let number = number_of_motion(motion);
    let n = translations(high_precision);
    let moves = flag_or(bits, refused, true, false, number != 0);
    let rot_zoom = flag_or(bits, refused, moves, false, number == 2);
    let translation = flag_or(bits, refused, moves & !rot_zoom, false, number == 1);
    zero(bits, refused, translation, n);
    zero(bits, refused, translation, n);
}

pub(crate) fn write_motions(
    bits: &mut BitWriter,
    refused: &mut bool,
    fi: &FrameInvariants,
    n: usize,
    high_precision: bool,
)
    requires { n ≤ 7 }
    ensures { Wrote (global_motion_params n high_precision) fi.now tt refused.old refused.new bits.old bits.new }
{
    for i in 0..n {
        write_motion(
            bits,
            refused,
            fi.globalmv_transformation_type[i],
            high_precision,
        );
    }
}
