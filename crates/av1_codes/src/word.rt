// The words of codes as numbers of so many bits.
ghost use Rattle.std.specs.Prelude.{◌≡◌, ℕ, ◌+◌, ◌-◌, ◌*◌, ◌^◌, ◌<◌, ◌≤◌, ◌∷◌, Bool, List, true, max, length, IfSome, IfNone, pos, ◌-ℤ◌, ◌≤ℤ◌, ◌<ℤ◌};
ghost use Rattle.av1_codes.specs.Codes.{golomb, refsubexp_between};
ghost use Rattle.av1_model.specs.Bits.{bits_of};
ghost use Rattle.av1_model.specs.Codes.{binary_digits, quniform, subexp, subexp_step, subexp_from, recenter_finite, refsubexp};

/// A number of `len` bits, at most 64, the highest first.
#[derive(Clone, Copy)]
pub struct Word {
    pub len: u32,
    pub number: u64,
    ghost few: { len ≤ 64 },
    ghost fits: { number < 2 ^ len },
}

impl Word {
    /// What it costs in eighths of a bit.
    pub fn eighths(self) -> u32
        ensures { result ≡ 8 * length (bits_of self.len self.number) }
    {
        8 * self.len
    }

    // The word after a one.
    fn after_one(self) -> Word
        requires { self.len ≤ 60 }
        ensures bits { bits_of result.len result.number ≡ true ∷ bits_of self.len self.number }
        ensures len { result.len ≡ self.len + 1 }
    {
        Word {
            len: self.len + 1,
            number: (1 << self.len) + self.number,
        }
    }
}

// How many binary digits `n` has.
fn binary_digits_of(n: u32) -> u32
    requires { 1 ≤ n }
    ensures value { result ≡ binary_digits n }
    ensures least { 1 ≤ result }
    ensures most { result ≤ 32 }
    ensures from { 2 ^ (result - 1) ≤ n }
    ensures to { n < 2 ^ result }
{
    32 - n.leading_zeros()
}

/// The Exp-Golomb word of `level`: `write_golomb` of rav1e's `src/ec.rs`.
pub fn golomb_word(level: u32) -> Word
    requires { level + 1 < 2 ^ 32 }
    ensures { bits_of result.len result.number ≡ golomb level }
{
    let digits = binary_digits_of(level + 1);
    Word {
        len: 2 * digits - 1,
        number: (level + 1) as u64,
    }
}

/// The quasi-uniform word of `v`, one of `n` values: ns(n) of the AV1 specification.
pub fn quniform_word(n: u32, v: u32) -> Word
    requires value { v < max n 1 }
    requires few { n ≤ 2 ^ 24 }
    ensures bits { bits_of result.len result.number ≡ quniform n v }
    ensures short { result.len ≤ 25 }
{
    if n < 2 {
        return Word { len: 0, number: 0 };
    }
    let digits = binary_digits_of(n);
    let shorter = (1 << digits) - n;
    if v < shorter {
        return Word {
            len: digits - 1,
            number: v as u64,
        };
    }
    Word {
        len: digits,
        number: (v + shorter) as u64,
    }
}

// The word at width `b`, where it ends there.
fn last_word(b: u32, n: u32, v: u32) -> Option<Word>
    requires value { v < max n 1 }
    requires few { n ≤ 2 ^ 24 }
    requires width { b ≤ 23 }
    ensures bits { IfSome result (λ w. (rest : List Bool) → bits_of w.len w.number ≡ subexp_step b n v rest) }
    ensures short { IfSome result (λ w. w.len ≤ 25) }
    ensures many { IfNone result (3 * 2 ^ b < n) }
    ensures high { IfNone result (2 ^ b ≤ v) }
{
    if n <= 3 << b {
        Some(quniform_word(n, v))
    } else if v < 1 << b {
        Some(Word {
            len: b + 1,
            number: v as u64,
        })
    } else {
        None
    }
}

// The word at widths from `b` on.
fn rising_word(b: u32, n: u32, v: u32) -> Word
    requires value { v < max n 1 }
    requires few { n ≤ 2 ^ 24 }
    requires width { b ≤ 23 }
    ensures bits { (steps : ℕ) → n ≤ steps → bits_of result.len result.number ≡ subexp_from steps b n v }
    ensures short { result.len + b ≤ 48 }
{
    match last_word(b, n, v) {
        Some(word) => word,
        None => rising_word(b + 1, n - (1 << b), v - (1 << b)).after_one(),
    }
}

/// The subexponential word of `v`, one of `n` values, with first width `k`.
pub fn subexp_word(n: u32, k: u8, v: u32) -> Word
    requires value { v < max n 1 }
    requires few { n ≤ 2 ^ 24 }
    requires width { k ≤ 16 }
    ensures { bits_of result.len result.number ≡ subexp n k v }
{
    let k = k as u32;
    match last_word(k, n, v) {
        Some(word) => word,
        None => rising_word(k, n - (1 << k), v - (1 << k)).after_one(),
    }
}

// The distance of `v` from `r` among `n` values, from the side on which `r` is nearer to the end.
fn recentered(n: u32, r: u32, v: u32) -> u32
    requires few { n ≤ 2 ^ 24 }
    requires reference { r < n }
    requires value { v < n }
    ensures is { result ≡ recenter_finite n r v }
    ensures below { result < n }
{
    let (r, v) = if 2 * r <= n {
        (r, v)
    } else {
        (n - 1 - r, n - 1 - v)
    };
    if v > 2 * r {
        v
    } else if v >= r {
        2 * (v - r)
    } else {
        2 * (r - v) - 1
    }
}

/// The subexponential word of the distance of `v` from `r`, both of `n` values.
pub fn refsubexp_word(n: u32, k: u8, r: u32, v: u32) -> Word
    requires few { n ≤ 2 ^ 24 }
    requires reference { r < n }
    requires value { v < n }
    requires width { k ≤ 16 }
    ensures { bits_of result.len result.number ≡ refsubexp n k r v }
{
    subexp_word(n, k, recentered(n, r, v))
}

/// The same for numbers from `low` on and below `high`.
pub fn signed_word(low: i32, high: i32, k: u8, r: i32, v: i32) -> Word
    requires few { (high -ℤ low) ≤ℤ pos (2 ^ 24) }
    requires reference_from { low ≤ℤ r }
    requires reference_to { r <ℤ high }
    requires value_from { low ≤ℤ v }
    requires value_to { v <ℤ high }
    requires width { k ≤ 16 }
    ensures { bits_of result.len result.number ≡ refsubexp_between low high k r v }
{
    refsubexp_word((high - low) as u32, k, (r - low) as u32, (v - low) as u32)
}
