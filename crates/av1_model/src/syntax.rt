//! Laws of syntax trees.

ghost use Rattle.std.specs.Prelude.{◌≡◌, ℕ, ◌++◌, ◌∷◌, List};
ghost use Rattle.av1_model.specs.Syntax.{Syntax, Leads, bind};

/// A path of one syntax element and a path of the next make a path of both, and each path of both is made
/// so. No path is a proper beginning of another, and a path has one answer. `Q` is what codes a symbol, `A`
/// and `B` are answers.
pub fn law_of_paths<Q, A, B>()
    ensures both { (t : Syntax Q A) (f : A → Syntax Q B) (xs ys : List ℕ) (a : A) (b : B) →
        Leads t xs a → Leads (f a) ys b → Leads (bind t f) (xs ++ ys) b }
    ensures apart { (t : Syntax Q A) (f : A → Syntax Q B) (zs : List ℕ) (b : B) → Leads (bind t f) zs b →
        (a : A) × (xs : List ℕ) × (ys : List ℕ) × (zs ≡ xs ++ ys) × Leads t xs a × Leads (f a) ys b }
    ensures no_beginning { (t : Syntax Q A) (xs : List ℕ) (y : ℕ) (ys : List ℕ) (a b : A) →
        Leads t xs a → ¬ Leads t (xs ++ y ∷ ys) b }
    ensures one_answer { (t : Syntax Q A) (xs : List ℕ) (a b : A) → Leads t xs a → Leads t xs b → a ≡ b }
{}
