// A writer's range, its count and its fake bits, over a storage.
ghost use Rattle.std.specs.Prelude.{◌≡◌, ◌-◌, ◌^◌, ◌<◌, ◌≤◌, ◌≤ℤ◌, negsuc, length};
ghost use Rattle.av1_model.specs.Cdf.{IsCdf, token_of};
ghost use Rattle.av1_model.specs.Interval.{Token, IsToken, top, bottom};
ghost use Rattle.av1_ec.specs.Encoder.{weight_of};

use crate::storage::Storage;

pub(crate) const EC_PROB_SHIFT: u32 = 6;

const EC_MIN_PROB: u32 = 4;

/// A writer over a storage.
#[derive(Drop)]
pub struct WriterBase<S: Storage> {
    // The width of the interval.
    pub(crate) rng: u16,
    // How many bits the window holds, from -9 to -1: a whole entry leaves it where the count would reach 0.
    pub(crate) cnt: i16,
    // Fake bits, in 256ths of a bit.
    pub(crate) fake_bits_frac: u32,
    // What is stored.
    pub(crate) s: S,
    ghost wide: { 32768 ≤ rng },
    ghost least: { negsuc 8 ≤ℤ cnt },
    ghost most: { cnt ≤ℤ negsuc 0 },
    ghost fake: { fake_bits_frac ≤ 2 ^ 28 },
    ghost window: { ∥ S.GoesWith s rng cnt ∥₁ },
}

impl<S: Storage> WriterBase<S> {
    // Where the window begins: at 2 to this power.
    #[inline(always)]
    pub(crate) fn weight(&self) -> u32
        ensures is { result ≡ weight_of self.now.cnt }
        ensures least { 15 ≤ result }
        ensures most { result ≤ 23 }
    {
        (self.cnt + 24) as u32
    }
}

// The count of a window that begins at 2^weight.
#[inline(always)]
pub(crate) fn count_of(weight: u32) -> i16
    requires least { 15 ≤ weight }
    requires most { weight ≤ 23 }
    ensures is { weight_of result ≡ weight }
    ensures least { negsuc 8 ≤ℤ result }
    ensures most { result ≤ℤ negsuc 0 }
{
    weight as i16 - 24
}

// How far a token's part of a range lies above the low end, and how wide it is.
#[inline(always)]
pub(crate) fn lr_compute(rng: u16, fl: u16, fh: u16, nms: u16) -> (u32, u16)
    requires wide { 32768 ≤ rng }
    requires token { IsToken record { fl = fl; fh = fh; nms = nms } }
    ensures above { result.0 ≡ rng - top rng record { fl = fl; fh = fh; nms = nms } }
    ensures width { let t : Token = record { fl = fl; fh = fh; nms = nms } in result.1 ≡ top rng t - bottom rng t }
{
    let r = u32::from(rng);
    let v = (r >> 8) * (u32::from(fh) >> EC_PROB_SHIFT) >> (7 - EC_PROB_SHIFT);
    if fl >= 32768 {
        (0, (r - v - EC_MIN_PROB * u32::from(nms - 1)) as u16)
    } else {
        let u = (r >> 8) * (u32::from(fl) >> EC_PROB_SHIFT) >> (7 - EC_PROB_SHIFT);
        (
            r - u - EC_MIN_PROB * u32::from(nms),
            (u - v + EC_MIN_PROB) as u16,
        )
    }
}

// The token of the first symbol.
#[inline(always)]
pub(crate) fn first_token(cdf: &[u16]) -> (u16, u16, u16)
    requires cdf { IsCdf cdf.now }
    ensures is { record { fl = result.0; fh = result.1; nms = result.2 } ≡ token_of cdf.now 0 }
    ensures valid { IsToken record { fl = result.0; fh = result.1; nms = result.2 } }
{
    (32768, cdf[0], cdf.len() as u16)
}

// The token of a later symbol. The remainder is the number itself, and shows the compiler that the symbol is not the first.
#[inline(always)]
pub(crate) fn later_token(s: usize, cdf: &[u16]) -> (u16, u16, u16)
    requires cdf { IsCdf cdf.now }
    requires later { 0 < s }
    requires s { s < length cdf.now }
    ensures is { record { fl = result.0; fh = result.1; nms = result.2 } ≡ token_of cdf.now s }
    ensures valid { IsToken record { fl = result.0; fh = result.1; nms = result.2 } }
{
    (cdf[s - 1] % 32768, cdf[s], (cdf.len() - s) as u16)
}

// The token of a symbol.
#[inline(always)]
pub(crate) fn token(s: usize, cdf: &[u16]) -> (u16, u16, u16)
    requires cdf { IsCdf cdf.now }
    requires s { s < length cdf.now }
    ensures is { record { fl = result.0; fh = result.1; nms = result.2 } ≡ token_of cdf.now s }
    ensures valid { IsToken record { fl = result.0; fh = result.1; nms = result.2 } }
{
    let fl = if s > 0 { cdf[s - 1] } else { 32768 };
    (fl, cdf[s], (cdf.len() - s) as u16)
}
