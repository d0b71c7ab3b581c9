// Laws of the codes.
ghost use Rattle.std.specs.Prelude.{ℕ, ◌+◌, ◌^◌, ◌<◌, ◌≤◌, ◌≡◌, List, Bool, length, ℤ, pos, ◌-ℤ◌, ◌≤ℤ◌, ◌<ℤ◌, max};
ghost use Rattle.av1_ec.specs.CodeTrees.{AsksOnly, IsFlat, ReadsCode, bit_symbols};
ghost use Rattle.av1_ec.specs.CodeTrees.{between_tree, golomb_tree, literal_tree, quniform_tree, refsubexp_tree, subexp_tree};
ghost use Rattle.av1_codes.specs.Codes.{golomb, refsubexp_between};
ghost use Rattle.av1_ec.specs.Flat.{flat_tokens};
ghost use Rattle.av1_ec.specs.Writing.{HasFewBits, IsPosition};
ghost use Rattle.av1_model.specs.Bits.{bits_of};
ghost use Rattle.av1_model.specs.Cdf.{IsCdf, token_of};
ghost use Rattle.av1_model.specs.Codes.{quniform, subexp, refsubexp};
ghost use Rattle.av1_model.specs.Paths.{tokens_along, context_along};
ghost use Rattle.av1_model.specs.Position.{Position, advance, advance_all};
ghost use Rattle.av1_model.specs.Reading.{Coding, Fits};
ghost use Rattle.av1_model.specs.Syntax.{Syntax, Leads};

/// A literal has its bits, and every other code at most 64; and so many may follow wherever a writer has shifted out at most 2^28.
pub fn law_of_lengths()
    ensures literal { (bits s : ℕ) → length (bits_of bits s) ≡ bits }
    ensures golomb { (level : ℕ) → level + 1 < 2 ^ 32 → length (golomb level) ≤ 63 }
    ensures quniform { (n v : ℕ) → n ≤ 2 ^ 24 → length (quniform n v) ≤ 25 }
    ensures subexp { (n k v : ℕ) → n ≤ 2 ^ 24 → k ≤ 16 → length (subexp n k v) ≤ 49 }
    ensures refsubexp { (n k r v : ℕ) → n ≤ 2 ^ 24 → k ≤ 16 → length (refsubexp n k r v) ≤ 49 }
    ensures between { (low high r v : ℤ) (k : ℕ) → low ≤ℤ high → (high -ℤ low) ≤ℤ pos (2 ^ 24) → k ≤ 16 → length (refsubexp_between low high k r v) ≤ 49 }
    ensures near { (p : Position) (bits : List Bool) → IsPosition p → length bits ≤ 64 → p.shift ≤ 2 ^ 28 → HasFewBits (advance_all p (flat_tokens bits)) }
{}

/// A symbol takes at most 13 bits.
pub fn law_of_symbol_lengths()
    ensures { (p : Position) (cdf : List ℕ) (s : ℕ) → IsPosition p → IsCdf cdf → s < length cdf →
        (advance p (token_of cdf s)).shift ≤ p.shift + 13 }
{}

/// In each code a reader asks for bits alone, the bits of a value lead to it, and no other symbols do. `q` is what codes a bit.
/// The trees are trees of elements, so a reader goes on after one by `bind`.
pub fn law_of_code_trees<Q>()
    ensures literal { (q : Q) (n : ℕ) → ReadsCode q (literal_tree q n) (λ v. v < 2 ^ n) (bits_of n) }
    ensures golomb { (q : Q) (most : ℕ) → ReadsCode q (golomb_tree q most) (λ v. v + 1 < 2 ^ most) golomb }
    ensures quniform { (q : Q) (n : ℕ) → ReadsCode q (quniform_tree q n) (λ v. v < max n 1) (quniform n) }
    ensures subexp { (q : Q) (n k : ℕ) → ReadsCode q (subexp_tree q n k) (λ v. v < max n 1) (subexp n k) }
    ensures refsubexp { (q : Q) (n k r : ℕ) → r < n → ReadsCode q (refsubexp_tree q n k r) (λ v. v < n) (refsubexp n k r) }
    ensures between { (q : Q) (low high r : ℤ) (k : ℕ) → low ≤ℤ r → r <ℤ high →
        ReadsCode q (between_tree q low high k r) (λ v. (low ≤ℤ v) × (v <ℤ high)) (refsubexp_between low high k r) }
{}

/// Where `q` codes bits that are as likely as not, and the context stays, a writer of a code's bits stores the tokens that its
/// tree's path has, and each symbol fits. `C` is the context that has the distributions.
pub fn law_of_flat_paths<C, Q, A>()
    ensures fits { (contents : C → Q → List ℕ) (adapted : C → Q → ℕ → C) (q : Q) (t : Syntax Q A) (bits : List Bool) (a : A) (at : Coding C) →
        IsFlat contents adapted q → AsksOnly q t → Leads t (bit_symbols bits) a → Fits contents adapted t (bit_symbols bits) at.context }
    ensures tokens { (contents : C → Q → List ℕ) (adapted : C → Q → ℕ → C) (q : Q) (t : Syntax Q A) (bits : List Bool) (a : A) (c : C) →
        IsFlat contents adapted q → AsksOnly q t → Leads t (bit_symbols bits) a → tokens_along contents adapted t (bit_symbols bits) c ≡ flat_tokens bits }
    ensures context { (contents : C → Q → List ℕ) (adapted : C → Q → ℕ → C) (q : Q) (t : Syntax Q A) (symbols : List ℕ) (c : C) →
        IsFlat contents adapted q → AsksOnly q t → context_along contents adapted t symbols c ≡ c }
{}
