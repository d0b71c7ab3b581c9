// The film grain of a frame.
ghost use Rattle.std.specs.Prelude.{◌≡◌, ℕ, ◌+◌, ◌-◌, ◌*◌, ◌^◌, ◌<◌, ◌≤◌, ◌==◌, true, Some, None, length, pos, ◌+ℤ◌, unsigned_abs, slice_index_or};
ghost use Rattle.av1_geometry.specs.ChromaSampling.{pixel_range_number};
ghost use Rattle.av1_header.specs.FilmGrain.{GrainFits, HasCoefficients, FilmGrainFits, point, points, all_points, coefficient};
ghost use Rattle.av1_header.specs.FilmGrain.{luma_coefficients, chroma_coefficients, count_if, coefficients, multipliers};
ghost use Rattle.av1_header.specs.FilmGrain.{multipliers_cb, multipliers_cr, grain_end, grain_rows, applied_grain, film_grain_params};
ghost use Rattle.av1_header.specs.Rows.{Wrote, told, each};

use crate::rows::{fixed, flag_or, number_or};
use crate::values::{Color, GrainPoints};
use av1_bits::BitWriter;
use av1_frame::{FilmGrain, FrameInvariants};

/// How the noise of a chroma plane follows luma and the plane.
#[derive(Clone, Copy)]
pub struct Multipliers {
    pub mult: u8,
    pub luma_mult: u8,
    pub offset: u16,
}

// What is read of a grain, each as contracts see it.

fn points_y(grain: &FilmGrain) -> &[[u8; 2]]
    ensures { result.now ≡ grain.now.scaling_points_y }
{
    grain.scaling_points_y.as_slice()
}

fn points_cb(grain: &FilmGrain) -> &[[u8; 2]]
    ensures { result.now ≡ grain.now.scaling_points_cb }
{
    grain.scaling_points_cb.as_slice()
}

fn points_cr(grain: &FilmGrain) -> &[[u8; 2]]
    ensures { result.now ≡ grain.now.scaling_points_cr }
{
    grain.scaling_points_cr.as_slice()
}

fn coefficients_y(grain: &FilmGrain) -> &[i8]
    ensures { result.now ≡ grain.now.ar_coeffs_y }
{
    grain.ar_coeffs_y.as_slice()
}

fn coefficients_cb(grain: &FilmGrain) -> &[i8]
    ensures { result.now ≡ grain.now.ar_coeffs_cb }
{
    grain.ar_coeffs_cb.as_slice()
}

fn coefficients_cr(grain: &FilmGrain) -> &[i8]
    ensures { result.now ≡ grain.now.ar_coeffs_cr }
{
    grain.ar_coeffs_cr.as_slice()
}

fn seed(grain: &FilmGrain) -> u32
    ensures value { result ≡ grain.now.random_seed }
    ensures fits { result < 2 ^ 16 }
{
    u32::from(grain.random_seed)
}

fn lag(grain: &FilmGrain) -> u32
    ensures { result ≡ grain.now.ar_coeff_lag }
{
    u32::from(grain.ar_coeff_lag)
}

fn scale_shift(grain: &FilmGrain) -> u32
    ensures { result ≡ grain.now.grain_scale_shift }
{
    u32::from(grain.grain_scale_shift)
}

fn scales_from_luma(grain: &FilmGrain) -> bool
    ensures { result ≡ grain.now.chroma_scaling_from_luma }
{
    grain.chroma_scaling_from_luma
}

fn overlaps(grain: &FilmGrain) -> bool
    ensures { result ≡ grain.now.overlap_flag }
{
    grain.overlap_flag
}

fn multipliers_cb(grain: &FilmGrain) -> Multipliers
    ensures { result ≡ multipliers_cb grain.now }
{
    Multipliers {
        mult: grain.cb_mult,
        luma_mult: grain.cb_luma_mult,
        offset: grain.cb_offset,
    }
}

fn multipliers_cr(grain: &FilmGrain) -> Multipliers
    ensures { result ≡ multipliers_cr grain.now }
{
    Multipliers {
        mult: grain.cr_mult,
        luma_mult: grain.cr_luma_mult,
        offset: grain.cr_offset,
    }
}

fn write_point(bits: &mut BitWriter, refused: &mut bool, points: &[[u8; 2]], i: usize)
    requires { i < length points.now }
    ensures { Wrote (point i) points.now tt refused.old refused.new bits.old bits.new }
{
    number_or(bits, refused, true, 0, 8, u32::from(points[i][0]));
    number_or(bits, refused, true, 0, 8, u32::from(points[i][1]));
}

fn write_each_point(bits: &mut BitWriter, refused: &mut bool, points: &[[u8; 2]], n: usize)
    requires { n ≤ length points.now }
    ensures { Wrote (each n 0 point) points.now tt refused.old refused.new bits.old bits.new }
{
    for i in 0..n {
        write_point(bits, refused, points, i);
    }
}

fn write_points(bits: &mut BitWriter, refused: &mut bool, list: &[[u8; 2]], there: bool) -> u32
    requires { length list.now < 2 ^ 4 }
    ensures { Wrote (points there) list.now result refused.old refused.new bits.old bits.new }
{
    let count = number_or(bits, refused, there, 0, 4, list.len() as u32);
    write_each_point(bits, refused, list, count as usize);
    count
}

fn write_all_points(
    bits: &mut BitWriter,
    refused: &mut bool,
    grain: &FilmGrain,
    color: &Color,
) -> GrainPoints
    requires { GrainFits grain.now }
    ensures { Wrote (all_points color.now) grain.now result refused.old refused.new bits.old bits.new }
{
    let y = write_points(bits, refused, points_y(grain), true);
    let chroma = !color.monochrome;
    let from_luma = flag_or(bits, refused, chroma, false, scales_from_luma(grain));
    let coded = chroma & !from_luma & !(color.xdec & color.ydec & (y == 0));
    let cb = write_points(bits, refused, points_cb(grain), coded);
    let cr = write_points(bits, refused, points_cr(grain), coded);
    GrainPoints {
        y,
        cb,
        cr,
        from_luma,
    }
}

// A coefficient, which is coded as 128 more.
fn plus_128(coefficients: &[i8], i: usize) -> u32
    requires { i < length coefficients.now }
    ensures value { result ≡ unsigned_abs (slice_index_or coefficients.now i (pos 0) +ℤ pos 128) }
    ensures fits { result < 2 ^ 8 }
{
    u32::from((i16::from(coefficients[i]) + 128).unsigned_abs())
}

fn write_coefficient(bits: &mut BitWriter, refused: &mut bool, coefficients: &[i8], i: usize)
    requires { i < length coefficients.now }
    ensures { Wrote (coefficient i) coefficients.now tt refused.old refused.new bits.old bits.new }
{
    number_or(bits, refused, true, 0, 8, plus_128(coefficients, i));
}

fn write_coefficients(bits: &mut BitWriter, refused: &mut bool, coefficients: &[i8], n: usize)
    requires { n ≤ length coefficients.now }
    ensures { Wrote (each n 0 coefficient) coefficients.now tt refused.old refused.new bits.old bits.new }
{
    for i in 0..n {
        write_coefficient(bits, refused, coefficients, i);
    }
}

fn scaling_less_8(grain: &FilmGrain) -> u32
    requires { (8 ≤ grain.now.scaling_shift) × (grain.now.scaling_shift ≤ 11) }
    ensures value { result ≡ grain.now.scaling_shift - 8 }
    ensures fits { result < 2 ^ 2 }
{
    u32::from(grain.scaling_shift) - 8
}

fn shift_less_6(grain: &FilmGrain) -> u32
    requires { (6 ≤ grain.now.ar_coeff_shift) × (grain.now.ar_coeff_shift ≤ 9) }
    ensures value { result ≡ grain.now.ar_coeff_shift - 6 }
    ensures fits { result < 2 ^ 2 }
{
    u32::from(grain.ar_coeff_shift) - 6
}

fn luma_count(there: bool, lag: u32) -> usize
    requires { lag ≤ 3 }
    ensures { result ≡ count_if there (luma_coefficients lag) }
{
    if there {
        2 * lag as usize * (lag as usize + 1)
    } else {
        0
    }
}

fn chroma_count(there: bool, lag: u32, y: u32) -> usize
    requires { lag ≤ 3 }
    ensures { result ≡ count_if there (chroma_coefficients lag y) }
{
    if there {
        2 * lag as usize * (lag as usize + 1) + if y > 0 { 1 } else { 0 }
    } else {
        0
    }
}

fn write_luma_coefficients(
    bits: &mut BitWriter,
    refused: &mut bool,
    list: &[i8],
    there: bool,
    lag: u32,
)
    requires lag { lag ≤ 3 }
    requires long { count_if there (luma_coefficients lag) ≤ length list.now }
    ensures { Wrote (each (count_if there (luma_coefficients lag)) 0 coefficient) list.now tt refused.old refused.new bits.old bits.new }
{
    write_coefficients(bits, refused, list, luma_count(there, lag));
}

fn write_chroma_coefficients(
    bits: &mut BitWriter,
    refused: &mut bool,
    list: &[i8],
    there: bool,
    lag: u32,
    y: u32,
)
    requires lag { lag ≤ 3 }
    requires long { count_if there (chroma_coefficients lag y) ≤ length list.now }
    ensures { Wrote (each (count_if there (chroma_coefficients lag y)) 0 coefficient) list.now tt refused.old refused.new bits.old bits.new }
{
    write_coefficients(bits, refused, list, chroma_count(there, lag, y));
}

fn write_plane_coefficients(
    bits: &mut BitWriter,
    refused: &mut bool,
    grain: &FilmGrain,
    points: &GrainPoints,
)
    requires fits { GrainFits grain.now }
    requires long { HasCoefficients points.now grain.now }
    ensures { Wrote (coefficients points.now) grain.now tt refused.old refused.new bits.old bits.new }
{
    number_or(bits, refused, true, 0, 2, scaling_less_8(grain));
    let lag = number_or(bits, refused, true, 0, 2, lag(grain));
    write_luma_coefficients(bits, refused, coefficients_y(grain), points.y > 0, lag);
    let y = points.y;
    let there = points.from_luma | (points.cb > 0);
    write_chroma_coefficients(bits, refused, coefficients_cb(grain), there, lag, y);
    let there = points.from_luma | (points.cr > 0);
    write_chroma_coefficients(bits, refused, coefficients_cr(grain), there, lag, y);
}

fn write_multipliers(bits: &mut BitWriter, refused: &mut bool, there: bool, m: &Multipliers)
    requires { m.now.offset < 2 ^ 9 }
    ensures { Wrote (multipliers there) m.now tt refused.old refused.new bits.old bits.new }
{
    number_or(bits, refused, there, 0, 8, u32::from(m.mult));
    number_or(bits, refused, there, 0, 8, u32::from(m.luma_mult));
    number_or(bits, refused, there, 0, 9, u32::from(m.offset));
}

fn write_grain_end(
    bits: &mut BitWriter,
    refused: &mut bool,
    grain: &FilmGrain,
    points: &GrainPoints,
)
    requires { GrainFits grain.now }
    ensures { Wrote (grain_end points.now) grain.now tt refused.old refused.new bits.old bits.new }
{
    number_or(bits, refused, true, 0, 2, shift_less_6(grain));
    number_or(bits, refused, true, 0, 2, scale_shift(grain));
    write_multipliers(bits, refused, points.cb > 0, &multipliers_cb(grain));
    write_multipliers(bits, refused, points.cr > 0, &multipliers_cr(grain));
    flag_or(bits, refused, true, false, overlaps(grain));
}

fn write_grain(
    bits: &mut BitWriter,
    refused: &mut bool,
    grain: &FilmGrain,
    inter: bool,
    color: &Color,
)
    requires fits { GrainFits grain.now }
    requires long { HasCoefficients (told (all_points color.now) grain.now) grain.now }
    ensures { Wrote (grain_rows inter color.now) grain.now tt refused.old refused.new bits.old bits.new }
{
    number_or(bits, refused, true, 0, 16, seed(grain));
    fixed(bits, refused, inter, 1, 1);
    let points = write_all_points(bits, refused, grain, color);
    write_plane_coefficients(bits, refused, grain, &points);
    write_grain_end(bits, refused, grain, &points);
}

fn is_limited(fi: &FrameInvariants) -> bool
    ensures { result ≡ (pixel_range_number fi.now.sequence.pixel_range == 0) }
{
    fi.sequence.pixel_range.number() == 0
}

fn write_applied_grain(
    bits: &mut BitWriter,
    refused: &mut bool,
    fi: &FrameInvariants,
    grain: &FilmGrain,
    inter: bool,
    color: &Color,
)
    requires same { fi.now.film_grain ≡ Some grain.now }
    requires fits { GrainFits grain.now }
    requires long { HasCoefficients (told (all_points color.now) grain.now) grain.now }
    ensures { Wrote (applied_grain inter color.now) fi.now tt refused.old refused.new bits.old bits.new }
{
    write_grain(bits, refused, grain, inter, color);
    flag_or(bits, refused, true, false, is_limited(fi));
}

fn write_some_grain(
    bits: &mut BitWriter,
    refused: &mut bool,
    fi: &FrameInvariants,
    grain: &FilmGrain,
    there: bool,
    inter: bool,
    color: &Color,
)
    requires same { fi.now.film_grain ≡ Some grain.now }
    requires fits { there ≡ true → FilmGrainFits color.now (Some grain.now) }
    ensures { Wrote (film_grain_params there inter color.now) fi.now tt refused.old refused.new bits.old bits.new }
{
    let apply = flag_or(bits, refused, there, false, true);
    if apply {
        write_applied_grain(bits, refused, fi, grain, inter, color);
    }
}

fn write_no_grain(
    bits: &mut BitWriter,
    refused: &mut bool,
    fi: &FrameInvariants,
    there: bool,
    inter: bool,
    color: &Color,
)
    requires { fi.now.film_grain ≡ None }
    ensures { Wrote (film_grain_params there inter color.now) fi.now tt refused.old refused.new bits.old bits.new }
{
    flag_or(bits, refused, there, false, false);
}

pub(crate) fn write_film_grain(
    bits: &mut BitWriter,
    refused: &mut bool,
    fi: &FrameInvariants,
    there: bool,
    inter: bool,
    color: &Color,
)
    requires { there ≡ true → FilmGrainFits color.now fi.now.film_grain }
    ensures { Wrote (film_grain_params there inter color.now) fi.now tt refused.old refused.new bits.old bits.new }
{
    match &fi.film_grain {
        Some(grain) => write_some_grain(bits, refused, fi, grain, there, inter, color),
        None => write_no_grain(bits, refused, fi, there, inter, color),
    }
}
