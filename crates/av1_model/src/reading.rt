//! Laws of coding along a path and of reading it back, for every syntax tree at once. `C` is the context
//! that has the distributions, `Q` what codes a symbol, `A` and `B` are answers.

ghost use Rattle.std.specs.Prelude.{◌≡◌, ℕ, ◌+◌, ◌*◌, ◌≤◌, ◌++◌, List, Some, length};
ghost use Rattle.av1_model.specs.Interval.{IsInterval, Holds, final_bytes};
ghost use Rattle.av1_model.specs.Paths.{tokens_along, context_along};
ghost use Rattle.av1_model.specs.Position.{advance_all, encoder_at};
ghost use Rattle.av1_model.specs.Reading.{Coding, along, read, Fits};
ghost use Rattle.av1_model.specs.Syntax.{Syntax, Leads, bind};

/// Coding along a path whose symbols fit keeps an interval an interval, and one element after another is
/// coded as both at once.
pub fn law_of_coding<C, Q, A, B>()
    ensures valid { (contents : C → Q → List ℕ) (adapted : C → Q → ℕ → C) (t : Syntax Q A) (symbols : List ℕ) (at : Coding C) →
        IsInterval at.interval → Fits contents adapted t symbols at.context →
        IsInterval (along contents adapted t symbols at).interval }
    ensures both { (contents : C → Q → List ℕ) (adapted : C → Q → ℕ → C) (t : Syntax Q A) (f : A → Syntax Q B)
        (xs ys : List ℕ) (a : A) (at : Coding C) → Leads t xs a →
        along contents adapted (bind t f) (xs ++ ys) at ≡ along contents adapted (f a) ys (along contents adapted t xs at) }
    ensures fits { (contents : C → Q → List ℕ) (adapted : C → Q → ℕ → C) (t : Syntax Q A) (f : A → Syntax Q B)
        (xs ys : List ℕ) (a : A) (at : Coding C) → Leads t xs a → Fits contents adapted t xs at.context →
        Fits contents adapted (f a) ys (along contents adapted t xs at).context →
        Fits contents adapted (bind t f) (xs ++ ys) at.context }
{}

/// Bytes that the interval after a path holds, the interval before it holds. A reader of such bytes, as the
/// final bytes, takes exactly this answer, and comes to exactly this interval and context. And whatever is read is read along
/// a path.
pub fn law_of_reading<C, Q, A>()
    ensures earlier { (contents : C → Q → List ℕ) (adapted : C → Q → ℕ → C) (t : Syntax Q A) (symbols : List ℕ)
        (at : Coding C) (bytes : List ℕ) → IsInterval at.interval → Fits contents adapted t symbols at.context →
        Holds bytes (along contents adapted t symbols at).interval → Holds bytes at.interval }
    ensures read_back { (contents : C → Q → List ℕ) (adapted : C → Q → ℕ → C) (t : Syntax Q A) (symbols : List ℕ) (answer : A)
        (at : Coding C) (bytes : List ℕ) → IsInterval at.interval → Leads t symbols answer →
        Fits contents adapted t symbols at.context → Holds bytes (along contents adapted t symbols at).interval →
        read contents adapted t bytes at ≡ Some (answer, along contents adapted t symbols at) }
    ensures read_final { (contents : C → Q → List ℕ) (adapted : C → Q → ℕ → C) (t : Syntax Q A) (symbols : List ℕ) (answer : A)
        (at : Coding C) → IsInterval at.interval → Leads t symbols answer → Fits contents adapted t symbols at.context →
        read contents adapted t (final_bytes (along contents adapted t symbols at).interval) at
        ≡ Some (answer, along contents adapted t symbols at) }
    ensures path { (contents : C → Q → List ℕ) (adapted : C → Q → ℕ → C) (t : Syntax Q A) (answer : A) (at end : Coding C) (bytes : List ℕ) →
        read contents adapted t bytes at ≡ Some (answer, end) →
        (symbols : List ℕ) × Leads t symbols answer × (end ≡ along contents adapted t symbols at) × (Holds bytes at.interval → Holds bytes end.interval) }
{}

/// An encoder that stores the tokens of a path stands at the interval after it, and the context after a
/// path doesn't depend on what was coded before.
pub fn law_of_storing<C, Q, A>()
    ensures encoder { (contents : C → Q → List ℕ) (adapted : C → Q → ℕ → C) (t : Syntax Q A) (symbols : List ℕ) (at : Coding C) →
        advance_all (encoder_at at.interval) (tokens_along contents adapted t symbols at.context)
        ≡ encoder_at (along contents adapted t symbols at).interval }
    ensures context { (contents : C → Q → List ℕ) (adapted : C → Q → ℕ → C) (t : Syntax Q A) (symbols : List ℕ) (at : Coding C) →
        (along contents adapted t symbols at).context ≡ context_along contents adapted t symbols at.context }
    ensures few_bits { (contents : C → Q → List ℕ) (adapted : C → Q → ℕ → C) (t : Syntax Q A) (symbols : List ℕ) (at : Coding C) →
        IsInterval at.interval → Fits contents adapted t symbols at.context →
        (along contents adapted t symbols at).interval.shift ≤ at.interval.shift + 13 * length symbols }
{}
