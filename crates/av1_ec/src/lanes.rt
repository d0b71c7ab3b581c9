// The numbers of a CDF learn, eight at a time where there are as many.
ghost use Rattle.std.specs.Prelude.{◌≡◌, ℕ, ◌+◌, ◌-◌, ◌/◌, ◌^◌, ◌<◌, ◌≤◌, length, slice_index, nat_lt, if◌then◌else◌};
ghost use Rattle.av1_ec.specs.Learning.{moved};

use std::simd::prelude::*;

// Each lane of `a` whose number, counted on from `at`, is below `val`, and each other one of `b`.
#[inline(always)]
fn chosen(at: u16, val: u16, a: u16x8, b: u16x8) -> u16x8
    requires at { at ≤ 8 }
    requires a { length a ≡ 8 }
    requires b { length b ≡ 8 }
    ensures len { length result ≡ 8 }
    ensures lanes { (i : ℕ) → i < 8 → slice_index result i ≡ (if nat_lt (at + i) val then slice_index a i else slice_index b i) }
{
    let numbers = u16x8::from_array([0, 1, 2, 3, 4, 5, 6, 7]) + u16x8::splat(at);
    numbers.simd_lt(u16x8::splat(val)).select(a, b)
}

// Each lane shifted right.
#[inline(always)]
fn shifted(v: u16x8, rate: u16) -> u16x8
    requires v { length v ≡ 8 }
    requires rate { rate < 16 }
    ensures len { length result ≡ 8 }
    ensures lanes { (i : ℕ) → i < 8 → slice_index result i ≡ slice_index v i / 2 ^ rate }
{
    v >> u16x8::splat(rate)
}

// The lanes of `a` without those of `b`.
#[inline(always)]
fn less(a: u16x8, b: u16x8) -> u16x8
    requires a { length a ≡ 8 }
    requires b { length b ≡ 8 }
    requires most { (i : ℕ) → i < 8 → slice_index b i ≤ slice_index a i }
    ensures len { length result ≡ 8 }
    ensures lanes { (i : ℕ) → i < 8 → slice_index result i ≡ slice_index a i - slice_index b i }
{
    a - b
}

// The lanes of both together.
#[inline(always)]
fn more(a: u16x8, b: u16x8) -> u16x8
    requires a { length a ≡ 8 }
    requires b { length b ≡ 8 }
    requires most { (i : ℕ) → i < 8 → slice_index a i + slice_index b i < 65536 }
    ensures len { length result ≡ 8 }
    ensures lanes { (i : ℕ) → i < 8 → slice_index result i ≡ slice_index a i + slice_index b i }
{
    a + b
}

// Eight numbers, of which the first is number `at`, after symbol `val`.
#[inline(always)]
fn learned(v: u16x8, at: u16, val: u16, rate: u16) -> u16x8
    requires at { at ≤ 8 }
    requires v { length v ≡ 8 }
    requires rate { rate < 16 }
    requires below { (i : ℕ) → i < 8 → slice_index v i ≤ 32768 }
    ensures len { length result ≡ 8 }
    ensures lanes { (i : ℕ) → i < 8 → slice_index result i ≡ moved rate val (at + i) (slice_index v i) }
{
    let up = more(v, shifted(less(u16x8::splat(32768), v), rate));
    let down = less(v, shifted(v, rate));
    chosen(at, val, up, down)
}

// The eight numbers from a place on.
#[inline(always)]
fn eight(cdf: &[u16], at: usize) -> u16x8
    requires { at + 8 ≤ length cdf.now }
    ensures len { length result ≡ 8 }
    ensures lanes { (i : ℕ) → i < 8 → slice_index result i ≡ slice_index cdf.now (at + i) }
{
    u16x8::from_slice(&cdf[at..at + 8])
}

// Writes eight numbers from a place on.
#[inline(always)]
fn put_eight(cdf: &mut [u16], at: usize, v: u16x8)
    requires within { at + 8 ≤ length cdf.old }
    requires v { length v ≡ 8 }
    ensures same { length cdf.new ≡ length cdf.old }
    ensures put { (k : ℕ) → at ≤ k → k < at + 8 → slice_index cdf.new k ≡ slice_index v (k - at) }
    ensures kept { (k : ℕ) → (k < at → slice_index cdf.new k ≡ slice_index cdf.old k) × (at + 8 ≤ k → slice_index cdf.new k ≡ slice_index cdf.old k) }
{
    cdf[at..at + 8].copy_from_slice(&v.to_array());
}

/// All numbers of a CDF of at least 8, after symbol `val`. They are read before any is written, since the two pieces of 8
/// may overlap.
#[inline(always)]
pub(crate) fn learn_long(cdf: &mut [u16], val: u16, rate: u16)
    requires least { 8 ≤ length cdf.old }
    requires most { length cdf.old ≤ 16 }
    requires rate { rate < 16 }
    requires below { (k : ℕ) → k < length cdf.old → slice_index cdf.old k ≤ 32768 }
    ensures same { length cdf.new ≡ length cdf.old }
    ensures moved { (k : ℕ) → k < length cdf.old → slice_index cdf.new k ≡ moved rate val k (slice_index cdf.old k) }
{
    let from = cdf.len() - 8;
    let first = learned(eight(cdf, 0), 0, val, rate);
    let last = learned(eight(cdf, from), from as u16, val, rate);
    put_eight(cdf, 0, first);
    put_eight(cdf, from, last);
}

/// All numbers but the last of a shorter CDF, after symbol `val`.
#[inline(always)]
pub(crate) fn learn_short(cdf: &mut [u16], val: u32, rate: u16)
    requires least { 0 < length cdf.old }
    requires most { length cdf.old ≤ 16 }
    requires rate { rate < 16 }
    requires below { (k : ℕ) → k < length cdf.old → slice_index cdf.old k ≤ 32768 }
    ensures same { length cdf.new ≡ length cdf.old }
    ensures moved { (k : ℕ) → k + 1 < length cdf.old → slice_index cdf.new k ≡ moved rate val k (slice_index cdf.old k) }
    ensures last { let n = length cdf.old - 1 in slice_index cdf.new n ≡ slice_index cdf.old n }
{
    for i in 0..cdf.len() - 1 {
        let x = cdf[i];
        cdf[i] = if (i as u32) < val {
            x + ((32768 - x) >> rate)
        } else {
            x - (x >> rate)
        };
    }
}
