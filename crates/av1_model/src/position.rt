//! Laws of what is known of a writer.

ghost use Rattle.std.specs.Prelude.{◌≡◌, ◌+◌, ◌*◌, ◌≤◌, ◌++◌, List, Some, All, length};
ghost use Rattle.av1_model.specs.Interval.{Interval, IsInterval, Token, IsToken, narrow};
ghost use Rattle.av1_model.specs.Position.{Position, interval_of, advance, advance_all, encoder_at};

/// An encoder advances as its interval is narrowed, and range and shift advance alike in every writer,
/// whether it knows its low end or not. Valid tokens keep a writer's interval an interval and add at most
/// 13 bits each, and a recorder's tokens grow by them.
pub fn law_of_positions()
    ensures encoder { (i : Interval) (t : Token) → advance (encoder_at i) t ≡ encoder_at (narrow i t) }
    ensures same_range { (p q : Position) (ts : List Token) → p.range ≡ q.range → p.shift ≡ q.shift →
        (advance_all p ts).range ≡ (advance_all q ts).range }
    ensures same_shift { (p q : Position) (ts : List Token) → p.range ≡ q.range → p.shift ≡ q.shift →
        (advance_all p ts).shift ≡ (advance_all q ts).shift }
    ensures in_turn { (p : Position) (xs ys : List Token) → advance_all p (xs ++ ys) ≡ advance_all (advance_all p xs) ys }
    ensures valid { (p : Position) (ts : List Token) → IsInterval (interval_of p) → All IsToken ts →
        IsInterval (interval_of (advance_all p ts)) }
    ensures few { (p : Position) (ts : List Token) → IsInterval (interval_of p) → All IsToken ts →
        (advance_all p ts).shift ≤ p.shift + 13 * length ts }
    ensures fake { (p : Position) (ts : List Token) → (advance_all p ts).fake ≡ p.fake }
    ensures tokens { (p : Position) (ts before : List Token) → p.tokens ≡ Some before →
        (advance_all p ts).tokens ≡ Some (before ++ ts) }
{}
