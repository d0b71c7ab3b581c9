//! Laws of a writer on its way down a syntax tree.

ghost use Rattle.std.specs.Prelude.{ℕ, List};
ghost use Rattle.av1_model.specs.Comes.{Begins, BeginsInFirst, Comes, Standing};
ghost use Rattle.av1_model.specs.Syntax.{Syntax, bind};

/// A writer comes to a tree and from there to another; and what comes within an element comes within all that begins with it.
/// It is refused in an element after coming to it, or in the first of two where the second can follow.
pub fn law_of_writers<C, Q, A, B>()
    ensures in_turn { (contents : C → Q → List ℕ) (adapted : C → Q → ℕ → C) (t u v : Syntax Q A) (old mid new : Standing C) →
        Comes contents adapted t u old mid → Comes contents adapted u v mid new → Comes contents adapted t v old new }
    ensures within { (contents : C → Q → List ℕ) (adapted : C → Q → ℕ → C) (t u : Syntax Q A) (f : A → Syntax Q B) (old new : Standing C) →
        Comes contents adapted t u old new → Comes contents adapted (bind t f) (bind u f) old new }
    ensures refused_later { (contents : C → Q → List ℕ) (adapted : C → Q → ℕ → C) (t u : Syntax Q A) (a : A) (old mid new : Standing C) →
        Comes contents adapted t u old mid → Begins contents adapted u a mid new → Begins contents adapted t a old new }
    ensures refused_first { (contents : C → Q → List ℕ) (adapted : C → Q → ℕ → C) (t : Syntax Q A) (f : A → Syntax Q B) (a : A) (b : B) →
        BeginsInFirst contents adapted t f a b }
{}
