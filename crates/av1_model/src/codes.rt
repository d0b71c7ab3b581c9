// The laws of the codes of headers and tiles.
ghost use Rattle.std.specs.Prelude.{◌≡◌, ℕ, ◌<◌, ◌≤◌, ◌^◌, List, [], ◌++◌, Some, All, length};
ghost use Rattle.av1_model.specs.Bits.{bits_of, number_of};
ghost use Rattle.av1_model.specs.Codes.{quniform, subexp, refsubexp, recenter_finite, inverse_recenter_finite, IsPrefixCode, leb128, leb128_read};

/// A number of `n` bits is told by its bits.
pub fn law_of_numbers()
    ensures { (n v : ℕ) → v < 2 ^ n → number_of (bits_of n v) ≡ v }
{}

/// The quasi-uniform code of `n` values is a prefix code.
pub fn law_of_quniform()
    ensures { (n : ℕ) → IsPrefixCode n (quniform n) }
{}

/// The subexponential code of `n` values is a prefix code, whatever its first width.
pub fn law_of_subexp()
    ensures { (n k : ℕ) → IsPrefixCode n (subexp n k) }
{}

/// The subexponential code with a reference is a prefix code, for every reference among the values.
pub fn law_of_refsubexp()
    ensures { (n k r : ℕ) → r < n → IsPrefixCode n (refsubexp n k r) }
{}

/// With the choice of side, the distances from a reference are the values below `n`, each once.
pub fn law_of_recentering()
    ensures below { (n r v : ℕ) → r < n → v < n → recenter_finite n r v < n }
    ensures back_below { (n r d : ℕ) → r < n → d < n → inverse_recenter_finite n r d < n }
    ensures back { (n r v : ℕ) → r < n → v < n → inverse_recenter_finite n r (recenter_finite n r v) ≡ v }
    ensures forth { (n r d : ℕ) → r < n → d < n → recenter_finite n r (inverse_recenter_finite n r d) ≡ d }
{}

/// LEB128 is bytes, from which the number is read back, and no fewer bytes are read as the number.
pub fn law_of_leb128()
    ensures bytes { (v : ℕ) → All (λ b. b < 256) (leb128 v) }
    ensures back { (v : ℕ) (rest : List ℕ) → leb128_read (leb128 v ++ rest) ≡ Some (v, rest) }
    ensures shortest { (v : ℕ) (bytes : List ℕ) → All (λ b. b < 256) bytes → leb128_read bytes ≡ Some (v, []) → length (leb128 v) ≤ length bytes }
{}
