// The codes that choose one of n values. Each word is written at once.
ghost use Rattle.std.specs.Prelude.{◌≡◌, ◌-◌, ◌^◌, ◌<◌, ◌≤◌, ◌++◌, Bool, List, max, ℤ, pos, neg_ℤ, ◌≤ℤ◌, ◌<ℤ◌, unsigned_abs, OnOk, OnErr};
ghost use Rattle.av1_model.specs.Bits.{bits_of};
ghost use Rattle.av1_model.specs.Codes.{quniform, subexp, recenter, recenter_finite, refsubexp, signed_refsubexp};

use crate::BitWriter;
use av1_codes::{Word, quniform_word, subexp_word};
use av1_geometry::OutOfMemory;

/// Writes one of `n` values by the codes of AV1's headers.
pub trait BCodeWriter {
    /// The bits that were written.
    ghost bits: { Self → List Bool };

    /// The distance of `v` from `r`, above and below in turn.
    fn recenter_nonneg(&mut self, r: u16, v: u16) -> u16
        requires { r < 2 ^ 15 }
        ensures value { result ≡ recenter r v }
        ensures same { bits self.new ≡ bits self.old };

    /// The distance of `v` from `r` among `n` values, from the side on which `r` is nearer to the end.
    fn recenter_finite_nonneg(&mut self, n: u16, r: u16, v: u16) -> u16
        requires reference { r < n }
        requires value { v < n }
        requires small { r < 2 ^ 15 }
        ensures value { result ≡ recenter_finite n r v }
        ensures same { bits self.new ≡ bits self.old };

    /// Writes `v`, one of `n` values, in the quasi-uniform code: ns(n) of the AV1 specification.
    fn write_quniform(&mut self, n: u16, v: u16) -> Result<(), OutOfMemory>
        requires value { v < max n 1 }
        requires few { n ≤ 2 ^ 13 }
        ensures ok { OnOk result (bits self.new ≡ bits self.old ++ quniform n v) }
        ensures err { OnErr result (bits self.new ≡ bits self.old) };

    /// Writes `v`, one of `n` values, in the subexponential code with first width `k`.
    fn write_subexpfin(&mut self, n: u16, k: u16, v: u16) -> Result<(), OutOfMemory>
        requires value { v < max n 1 }
        requires few { n ≤ 2 ^ 13 }
        requires width { k ≤ 12 }
        ensures ok { OnOk result (bits self.new ≡ bits self.old ++ subexp n k v) }
        ensures err { OnErr result (bits self.new ≡ bits self.old) };

    /// Writes `v`, one of `n` values, by its distance from `r` in the subexponential code.
    fn write_refsubexpfin(&mut self, n: u16, k: u16, r: i16, v: i16) -> Result<(), OutOfMemory>
        requires reference_from { pos 0 ≤ℤ r }
        requires reference_to { r <ℤ pos (max n 1) }
        requires value_from { pos 0 ≤ℤ v }
        requires value_to { v <ℤ pos (max n 1) }
        requires few { n ≤ 2 ^ 13 }
        requires width { k ≤ 12 }
        ensures ok { OnOk result (bits self.new ≡ bits self.old ++ refsubexp n k (unsigned_abs r) (unsigned_abs v)) }
        ensures err { OnErr result (bits self.new ≡ bits self.old) };

    /// Writes `v`, a number from `-(n - 1)` to `n - 1`, by its distance from `r` in the subexponential code.
    fn write_s_refsubexpfin(&mut self, n: u16, k: u16, r: i16, v: i16) -> Result<(), OutOfMemory>
        requires some { 1 ≤ n }
        requires few { n ≤ 4096 }
        requires reference_from { neg_ℤ (pos (n - 1)) ≤ℤ r }
        requires reference_to { r ≤ℤ pos (n - 1) }
        requires value_from { neg_ℤ (pos (n - 1)) ≤ℤ v }
        requires value_to { v ≤ℤ pos (n - 1) }
        requires width { k ≤ 12 }
        ensures ok { OnOk result (bits self.new ≡ bits self.old ++ signed_refsubexp n k r v) }
        ensures err { OnErr result (bits self.new ≡ bits self.old) };
}

impl BCodeWriter for BitWriter {
    ghost bits = { λ w. w };

    fn recenter_nonneg(&mut self, r: u16, v: u16) -> u16 {
        if v > 2 * r {
            v
        } else if v >= r {
            2 * (v - r)
        } else {
            2 * (r - v) - 1
        }
    }

    fn recenter_finite_nonneg(&mut self, n: u16, r: u16, v: u16) -> u16 {
        if 2 * r <= n {
            self.recenter_nonneg(r, v)
        } else {
            self.recenter_nonneg(n - 1 - r, n - 1 - v)
        }
    }

    fn write_quniform(&mut self, n: u16, v: u16) -> Result<(), OutOfMemory> {
        self.write_word(quniform_word(u32::from(n), u32::from(v)))
    }

    fn write_subexpfin(&mut self, n: u16, k: u16, v: u16) -> Result<(), OutOfMemory> {
        self.write_word(subexp_word(u32::from(n), k as u8, u32::from(v)))
    }

    fn write_refsubexpfin(&mut self, n: u16, k: u16, r: i16, v: i16) -> Result<(), OutOfMemory> {
        if n == 0 {
            return self.write_subexpfin(0, k, 0);
        }
        let distance = self.recenter_finite_nonneg(n, r as u16, v as u16);
        self.write_subexpfin(n, k, distance)
    }

    fn write_s_refsubexpfin(&mut self, n: u16, k: u16, r: i16, v: i16) -> Result<(), OutOfMemory> {
        let above = (n - 1) as i16;
        self.write_refsubexpfin(2 * n - 1, k, r + above, v + above)
    }
}

impl BitWriter {
    fn write_word(&mut self, word: Word) -> Result<(), OutOfMemory>
        ensures ok { OnOk result (self.new ≡ self.old ++ bits_of word.len word.number) }
        ensures err { OnErr result (self.new ≡ self.old) }
    {
        self.write_var(word.len, word.number)
    }
}
