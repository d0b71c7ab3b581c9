// How a distribution learns from the symbols that it codes, and what each symbol has of it.
ghost use Rattle.std.specs.Prelude.{◌≡◌, ℕ, ◌-◌, ◌/◌, ◌<◌, length, slice_index};
ghost use Rattle.av1_model.specs.Cdf.{IsCdf, adapt, token_of};

use crate::lanes::{learn_long, learn_short};

/// Adapts a CDF after symbol `val`, as rav1e's `update_cdf` of `src/ec.rs`: the numbers before the symbol rise towards
/// 32768, those from it on fall, and the count, in the last place, rises by one up to 32. The more symbols there are and
/// the higher the count, the slower it learns.
#[inline(always)]
pub fn update_cdf(cdf: &mut [u16], val: u32)
    requires cdf { IsCdf cdf.old }
    requires val { val < length cdf.old }
    ensures adapted { cdf.new ≡ adapt cdf.old val }
    ensures valid { IsCdf cdf.new }
{
    let last = cdf.len() - 1;
    let count = cdf[last];
    let rate = 3 + (cdf.len() >> 1).min(2) as u16 + (count >> 4);
    if cdf.len() >= 8 {
        learn_long(cdf, val as u16, rate);
    } else {
        learn_short(cdf, val, rate);
    }
    cdf[last] = count + 1 - (count >> 5);
}

/// How many of 512 each symbol has, as rav1e's `cdf_to_pdf`: its number and the one before it, 32768 for the first symbol,
/// are shifted right by 6, and the difference is taken.
pub fn cdf_to_pdf<const CDF_LEN: usize>(cdf: &[u16; CDF_LEN]) -> [u16; CDF_LEN]
    requires { IsCdf cdf.now }
    ensures { (s : ℕ) → s < CDF_LEN → let t = token_of cdf.now s in slice_index result s ≡ t.fl / 64 - t.fh / 64 }
{
    let mut pdf = [0; CDF_LEN];
    let mut z = 512;
    for i in 0..CDF_LEN {
        let next = cdf[i] >> 6;
        pdf[i] = z - next;
        z = next;
    }
    pdf
}
