//! Laws of intervals: what a token leaves of one, and the bytes that lie in it.

ghost use Rattle.std.specs.Prelude.{◌≡◌, ℕ, ◌+◌, ◌*◌, ◌/◌, ◌^◌, ◌≤◌, ◌↔◌, List, length};
ghost use Rattle.std.specs.Int.Digits.{number_from_digits, AllBelowBase};
ghost use Rattle.av1_model.specs.Interval.{Interval, IsInterval, Token, IsToken, bits, part, doubled, narrow, Holds, point, final_bytes};
ghost use Rattle.av1_model.specs.Laws.{IsLeastDoublings, IsLeastOdd};

/// A valid token narrows an interval to an interval within it. The token's part has a width of at least 4
/// of the range's 32768 to 65535, and is doubled the least number of times that gives it 16 bits again,
/// at most 13 times (rav1e's `ec.rs`, `store`; the AV1 specification's section 8.2.6).
pub fn law_of_narrowing()
    ensures valid { (i : Interval) (t : Token) → IsInterval i → IsToken t → IsInterval (narrow i t) }
    ensures wide { (i : Interval) (t : Token) → IsInterval i → IsToken t → 4 ≤ (part i t).range }
    ensures from { (i : Interval) (t : Token) → IsInterval i → IsToken t → i.low ≤ (part i t).low }
    ensures to { (i : Interval) (t : Token) → IsInterval i → IsToken t →
        (part i t).low + (part i t).range ≤ i.low + i.range }
    ensures least { (i : Interval) (t : Token) → IsInterval i → IsToken t →
        (d : ℕ) × IsLeastDoublings (part i t).range d × (narrow i t ≡ doubled d (part i t)) }
    ensures few { (i : Interval) (t : Token) → IsInterval i → IsToken t → (narrow i t).shift ≤ i.shift + 13 }
{}

/// The final bytes of an interval lie in it. They are the least odd multiple of 2^-(shift + 1) from its low
/// end on, written in shift + 1 binary digits and filled with zeros to whole bytes (rav1e's `ec.rs`,
/// `done`).
pub fn law_of_final_bytes()
    ensures within { (i : Interval) → IsInterval i → Holds (final_bytes i) i }
    ensures odd { (low : ℕ) → IsLeastOdd low (point low) }
    ensures digits { (i : Interval) → IsInterval i →
        number_from_digits 256 (final_bytes i) * 2 ^ bits i ≡ point i.low * 256 ^ length (final_bytes i) }
    ensures short { (i : Interval) → length (final_bytes i) ≡ (bits i + 7) / 8 }
    ensures bytes { (i : Interval) → AllBelowBase 256 (final_bytes i) }
{}

/// Bytes lie in an interval whatever its units are, and those that a later interval holds each earlier one
/// holds.
pub fn law_of_held_bytes()
    ensures units { (bytes : List ℕ) (i : Interval) (d : ℕ) → Holds bytes (doubled d i) ↔ Holds bytes i }
    ensures earlier { (bytes : List ℕ) (i : Interval) (t : Token) → IsInterval i → IsToken t →
        Holds bytes (narrow i t) → Holds bytes i }
{}
