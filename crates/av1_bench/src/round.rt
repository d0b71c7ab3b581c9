// The distributions of the symbols, one for each size, and their coding.
ghost use Rattle.std.specs.Prelude.{◌≡◌, ℕ, ◌+◌, ◌*◌, ◌%◌, ◌^◌, ◌<◌, ◌≤◌, length, slice_index};
ghost use Rattle.av1_model.specs.Cdf.{IsCdf};

use av1_ec::Writer;
use av1_geometry::OutOfMemory;

// How many sizes there are, from 2 to 16.
pub(crate) const ROUND: usize = 15;

// Number i of n is 32768 (n - 1 - i)^2 / n^2, rounded down, so that the last, the count, is 0.
const SKEW_2: [u16; 2] = [8192, 0];

const SKEW_3: [u16; 3] = [14563, 3640, 0];

const SKEW_4: [u16; 4] = [18432, 8192, 2048, 0];

const SKEW_5: [u16; 5] = [20971, 11796, 5242, 1310, 0];

const SKEW_6: [u16; 6] = [22755, 14563, 8192, 3640, 910, 0];

const SKEW_7: [u16; 7] = [24074, 16718, 10699, 6018, 2674, 668, 0];

const SKEW_8: [u16; 8] = [25088, 18432, 12800, 8192, 4608, 2048, 512, 0];

const SKEW_9: [u16; 9] = [25890, 19822, 14563, 10113, 6472, 3640, 1618, 404, 0];

const SKEW_10: [u16; 10] = [26542, 20971, 16056, 11796, 8192, 5242, 2949, 1310, 327, 0];

const SKEW_11: [u16; 11] = [
    27080, 21935, 17331, 13269, 9749, 6770, 4332, 2437, 1083, 270, 0,
];

const SKEW_12: [u16; 12] = [
    27534, 22755, 18432, 14563, 11150, 8192, 5688, 3640, 2048, 910, 227, 0,
];

const SKEW_13: [u16; 13] = [
    27920, 23461, 19389, 15705, 12409, 9500, 6980, 4847, 3102, 1745, 775, 193, 0,
];

const SKEW_14: [u16; 14] = [
    28254, 24074, 20229, 16718, 13541, 10699, 8192, 6018, 4179, 2674, 1504, 668, 167, 0,
];

const SKEW_15: [u16; 15] = [
    28544, 24612, 20971, 17621, 14563, 11796, 9320, 7136, 5242, 3640, 2330, 1310, 582, 145, 0,
];

const SKEW_16: [u16; 16] = [
    28800, 25088, 21632, 18432, 15488, 12800, 10368, 8192, 6272, 4608, 3200, 2048, 1152, 512, 128,
    0,
];

// Codes a symbol, which takes at most 13 bits.
#[inline(always)]
fn coded<W: Writer>(w: &mut W, s: u8, cdf: &[u16]) -> Result<(), OutOfMemory>
    requires cdf { IsCdf cdf.now }
    requires s { s < length cdf.now }
    requires shift { (W.position w.old).shift + 13 ≤ 2 ^ 28 + 2 ^ 24 }
    ensures shift { (W.position w.new).shift ≤ (W.position w.old).shift + 13 }
{
    w.symbol(u32::from(s), cdf)
}

// Codes those of the sizes 2 to 6.
#[inline(always)]
fn code_small<W: Writer>(w: &mut W, s: &[u8]) -> Result<(), OutOfMemory>
    requires whole { length s.now ≡ 15 }
    requires symbols { (k : ℕ) → k < 15 → slice_index s.now k < k + 2 }
    requires shift { (W.position w.old).shift + 65 ≤ 2 ^ 28 + 2 ^ 24 }
    ensures shift { (W.position w.new).shift ≤ (W.position w.old).shift + 65 }
{
    coded(w, s[0], &SKEW_2)?;
    coded(w, s[1], &SKEW_3)?;
    coded(w, s[2], &SKEW_4)?;
    coded(w, s[3], &SKEW_5)?;
    coded(w, s[4], &SKEW_6)
}

// Codes those of the sizes 7 to 11.
#[inline(always)]
fn code_middle<W: Writer>(w: &mut W, s: &[u8]) -> Result<(), OutOfMemory>
    requires whole { length s.now ≡ 15 }
    requires symbols { (k : ℕ) → k < 15 → slice_index s.now k < k + 2 }
    requires shift { (W.position w.old).shift + 65 ≤ 2 ^ 28 + 2 ^ 24 }
    ensures shift { (W.position w.new).shift ≤ (W.position w.old).shift + 65 }
{
    coded(w, s[5], &SKEW_7)?;
    coded(w, s[6], &SKEW_8)?;
    coded(w, s[7], &SKEW_9)?;
    coded(w, s[8], &SKEW_10)?;
    coded(w, s[9], &SKEW_11)
}

// Codes those of the sizes 12 to 16.
#[inline(always)]
fn code_large<W: Writer>(w: &mut W, s: &[u8]) -> Result<(), OutOfMemory>
    requires whole { length s.now ≡ 15 }
    requires symbols { (k : ℕ) → k < 15 → slice_index s.now k < k + 2 }
    requires shift { (W.position w.old).shift + 65 ≤ 2 ^ 28 + 2 ^ 24 }
    ensures shift { (W.position w.new).shift ≤ (W.position w.old).shift + 65 }
{
    coded(w, s[10], &SKEW_12)?;
    coded(w, s[11], &SKEW_13)?;
    coded(w, s[12], &SKEW_14)?;
    coded(w, s[13], &SKEW_15)?;
    coded(w, s[14], &SKEW_16)
}

// Codes the symbols of a round, one of each size. Each size is a call of its own, as in rav1e's bench, so that its length
// is known; five calls in a row are proved in a fraction of the time of fifteen.
#[inline(always)]
fn code_round<W: Writer>(w: &mut W, s: &[u8]) -> Result<(), OutOfMemory>
    requires whole { length s.now ≡ 15 }
    requires symbols { (k : ℕ) → k < 15 → slice_index s.now k < k + 2 }
    requires shift { (W.position w.old).shift + 195 ≤ 2 ^ 28 + 2 ^ 24 }
    ensures shift { (W.position w.new).shift ≤ (W.position w.old).shift + 195 }
{
    code_small(w, s)?;
    code_middle(w, s)?;
    code_large(w, s)
}

// The distribution of a size.
fn skew(size: usize) -> &'static [u16]
    requires from { 2 ≤ size }
    requires to { size ≤ 16 }
    ensures cdf { IsCdf result.now }
    ensures length { length result.now ≡ size }
{
    match size {
        2 => &SKEW_2,
        3 => &SKEW_3,
        4 => &SKEW_4,
        5 => &SKEW_5,
        6 => &SKEW_6,
        7 => &SKEW_7,
        8 => &SKEW_8,
        9 => &SKEW_9,
        10 => &SKEW_10,
        11 => &SKEW_11,
        12 => &SKEW_12,
        13 => &SKEW_13,
        14 => &SKEW_14,
        15 => &SKEW_15,
        _ => &SKEW_16,
    }
}

// Codes the symbols of a round that is cut off.
fn code_rest<W: Writer>(w: &mut W, s: &[u8]) -> Result<(), OutOfMemory>
    requires part { length s.now < 15 }
    requires symbols { (k : ℕ) → k < length s.now → slice_index s.now k < k + 2 }
    requires shift { (W.position w.old).shift + 13 * length s.now ≤ 2 ^ 28 + 2 ^ 24 }
{
    for (j, &x) in s.iter().enumerate() {
        coded(w, x, skew(j + 2))?;
    }
    Ok(())
}

/// Codes the symbols, round after round.
pub(crate) fn code_all<W: Writer>(w: &mut W, symbols: &[u8]) -> Result<(), OutOfMemory>
    requires few { length symbols.now ≤ 2 ^ 24 }
    requires symbols { (k : ℕ) → k < length symbols.now → slice_index symbols.now k < k % 15 + 2 }
    requires shift { (W.position w.old).shift + 13 * length symbols.now ≤ 2 ^ 28 + 2 ^ 24 }
{
    let mut at = 0;
    while symbols.len() - at >= ROUND {
        code_round(w, &symbols[at..at + ROUND])?;
        at += ROUND;
    }
    code_rest(w, &symbols[at..])
}
