//! Laws of distributions: their symbols' parts, the symbol that bytes stand for, and adaptation.

ghost use Rattle.std.specs.Prelude.{◌≡◌, ℕ, ◌+◌, ◌-◌, ◌<◌, ◌≤◌, ◌↔◌, List, Some, None, min, length, slice_index};
ghost use Rattle.av1_model.specs.Interval.{Interval, IsInterval, IsToken, part, Holds};
ghost use Rattle.av1_model.specs.Cdf.{IsCdf, token_of, decoded_symbol, adapt};

/// Each symbol of a valid distribution has a valid token, and a part of an interval with a width of at
/// least 4.
pub fn law_of_symbols()
    ensures token { (cdf : List ℕ) (s : ℕ) → IsCdf cdf → s < length cdf → IsToken (token_of cdf s) }
    ensures wide { (i : Interval) (cdf : List ℕ) (s : ℕ) → IsInterval i → IsCdf cdf → s < length cdf →
        4 ≤ (part i (token_of cdf s)).range }
{}

/// The parts of a valid distribution's symbols tile an interval in order: the first begins with it, each
/// other where the one before it ends, and the last ends with it.
pub fn law_of_tiling()
    ensures first { (i : Interval) (cdf : List ℕ) → (part i (token_of cdf 0)).low ≡ i.low }
    ensures next { (i : Interval) (cdf : List ℕ) (s : ℕ) → IsInterval i → IsCdf cdf → s + 1 < length cdf →
        (part i (token_of cdf (s + 1))).low ≡ (part i (token_of cdf s)).low + (part i (token_of cdf s)).range }
    ensures last { (i : Interval) (cdf : List ℕ) (s : ℕ) → IsInterval i → IsCdf cdf → s + 1 ≡ length cdf →
        (part i (token_of cdf s)).low + (part i (token_of cdf s)).range ≡ i.low + i.range }
{}

/// Bytes in an interval stand for exactly one symbol of a valid distribution, the one whose part has them,
/// and other bytes for none (the AV1 specification's section 8.2.6).
pub fn law_of_decoding()
    ensures found { (bytes : List ℕ) (i : Interval) (cdf : List ℕ) → IsInterval i → IsCdf cdf → Holds bytes i →
        (s : ℕ) × (decoded_symbol bytes i cdf ≡ Some s) }
    ensures exact { (bytes : List ℕ) (i : Interval) (cdf : List ℕ) (s : ℕ) → IsInterval i → IsCdf cdf →
        (decoded_symbol bytes i cdf ≡ Some s) ↔ ((s < length cdf) × Holds bytes (part i (token_of cdf s))) }
    ensures none { (bytes : List ℕ) (i : Interval) (cdf : List ℕ) → IsInterval i → IsCdf cdf → ¬ Holds bytes i →
        decoded_symbol bytes i cdf ≡ None }
{}

/// A valid distribution stays valid after a symbol. Numbers before the symbol don't fall, the others don't
/// rise, and the count rises by 1 up to 32 (rav1e's `ec.rs`, `update_cdf`; the AV1 specification's section
/// 8.2.6).
pub fn law_of_adapting()
    ensures valid { (cdf : List ℕ) (s : ℕ) → IsCdf cdf → IsCdf (adapt cdf s) }
    ensures same_length { (cdf : List ℕ) (s : ℕ) → length (adapt cdf s) ≡ length cdf }
    ensures before { (cdf : List ℕ) (s k : ℕ) → IsCdf cdf → k + 1 < length cdf → k < s →
        slice_index cdf k ≤ slice_index (adapt cdf s) k }
    ensures after { (cdf : List ℕ) (s k : ℕ) → IsCdf cdf → k + 1 < length cdf → s ≤ k →
        slice_index (adapt cdf s) k ≤ slice_index cdf k }
    ensures count { (cdf : List ℕ) (s : ℕ) → IsCdf cdf →
        slice_index (adapt cdf s) (length cdf - 1) ≡ min (slice_index cdf (length cdf - 1) + 1) 32 }
{}
