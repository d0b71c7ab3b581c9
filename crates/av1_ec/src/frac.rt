// Eighths of a bit.
ghost use Rattle.std.specs.Prelude.{◌≡◌, ℕ, ◌+◌, ◌*◌, ◌^◌, ◌<◌, ◌≤◌, length};
ghost use Rattle.av1_model.specs.Cdf.{IsCdf, token_of};
ghost use Rattle.av1_model.specs.Eighths.{log_digits, eighths};
ghost use Rattle.av1_model.specs.Interval.{Interval, narrow};

use crate::writer_base::{lr_compute, token};

/// The costs of `tell_frac` and `symbol_bits` are in units of 2 to the power of minus this.
pub const OD_BITRES: u8 = 3;

// How many eighths of a bit a symbol takes where the range is `rng`.
#[inline]
pub(crate) fn symbol_eighths(rng: u16, s: u32, cdf: &[u16]) -> u32
    requires wide { 32768 ≤ rng }
    requires cdf { IsCdf cdf.now }
    requires s { s < length cdf.now }
    ensures { (i : Interval) → i.range ≡ rng → eighths i + result ≡ eighths (narrow i (token_of cdf.now s)) }
{
    let (fl, fh, nms) = token(s as usize, cdf);
    let (_, width) = lr_compute(rng, fl, fh, nms);
    let d = width.leading_zeros();
    8 * d + log_eighths(u32::from(rng)) - log_eighths(u32::from(width << d))
}

// Three binary digits for the logarithm of a range, by squares that are cut to 16 bits, as rav1e finds them.
#[inline(always)]
pub(crate) fn log_eighths(rng: u32) -> u32
    requires least { 32768 ≤ rng }
    requires most { rng < 65536 }
    ensures is { result ≡ log_digits 3 rng }
    ensures few { result < 8 }
{
    let (first, rng) = log_digit(rng);
    let (second, rng) = log_digit(rng);
    let (third, _) = log_digit(rng);
    4 * first + 2 * second + third
}

// The first of these digits, and the range that has the others.
#[inline(always)]
fn log_digit(rng: u32) -> (u32, u32)
    requires least { 32768 ≤ rng }
    requires most { rng < 65536 }
    ensures digits { (n : ℕ) → log_digits (n + 1) rng ≡ result.0 * 2 ^ n + log_digits n result.1 }
    ensures digit { result.0 ≤ 1 }
    ensures least { 32768 ≤ result.1 }
    ensures most { result.1 < 65536 }
{
    let square = rng * rng >> 15;
    let digit = square >> 16;
    (digit, square >> digit)
}
