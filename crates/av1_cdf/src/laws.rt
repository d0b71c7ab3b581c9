// What holds of the layout, of the contexts that a tile starts with, and of one whose CDFs learn or are written.
ghost use Rattle.std.specs.Prelude.{◌≡◌, ℕ, ◌+◌, ◌≤◌, ◌<◌, ◌⊎◌, List, Bool, None, IsTrue, length};
ghost use Rattle.av1_model.specs.Cdf.{adapt};
ghost use Rattle.av1_model.specs.Element.{Keeps};
ghost use Rattle.av1_cdf.specs.Distribution.{coded_by, learnt, HasSymbols};
ghost use Rattle.av1_cdf.specs.Layout.{Slot, layout, rises, is_slot, cell};
ghost use Rattle.av1_cdf.specs.Context.{AreCdfs, contents, with_contents, uniform_numbers};
ghost use Rattle.av1_cdf.specs.declared.cdf_context.TheConstants.{CDF_LEN_MAX};
ghost use Rattle.av1_cdf.specs.Windows.{short_windows, long_windows};
ghost use Rattle.av1_cdf.specs.Tables.{table_rules, set_at, set_number};
ghost use Rattle.av1_geometry.specs.Rules.{first_broken};

/// The fields follow on one another without a gap up to the end of the context. Each CDF lies within the context, each of
/// its places belongs to it, and two CDFs that are not the same have no place in common.
pub fn law_of_layout()
    ensures without_gaps { IsTrue (rises 0 layout 5528) }
    ensures within { (s : Slot) → IsTrue (is_slot s.place s.len) → (2 ≤ s.len) × (s.len ≤ 16) × (s.place + s.len ≤ 5528) }
    ensures own_places { (s : Slot) (k : ℕ) → IsTrue (is_slot s.place s.len) → s.place ≤ k → k < s.place + s.len → cell k ≡ s }
    ensures longest { CDF_LEN_MAX ≡ 16 }
    ensures apart { (s t : Slot) → IsTrue (is_slot s.place s.len) → IsTrue (is_slot t.place t.len) →
        (s ≡ t) ⊎ ((s.place + s.len ≤ t.place) ⊎ (t.place + t.len ≤ s.place)) }
{}

/// What a log saves of a CDF of at most 4 numbers lies in a region of such CDFs, what it saves of a longer one in a region of
/// these, and no number of one is a number of the other. So it doesn't matter which part of a log is undone first.
pub fn law_of_windows()
    ensures short { (s : Slot) → IsTrue (is_slot s.place s.len) → s.len ≤ 4 → IsTrue (short_windows s.place s.place) }
    ensures long { (s : Slot) → IsTrue (is_slot s.place s.len) → 4 < s.len → IsTrue (long_windows s.place s.place) }
    ensures apart { (p q : ℕ) → IsTrue (short_windows p p) → IsTrue (long_windows q q) → (p + 4 ≤ q) ⊎ (q + 16 ≤ p) }
{}

/// The set that a quantizer chooses, of tables that break no rule, is a context whose CDFs are all valid, and so is the
/// uniform context.
pub fn law_of_starting()
    ensures tables { (sets : List (List ℕ)) (quantizer : ℕ) → first_broken (table_rules sets) ≡ None →
        AreCdfs (set_at sets (set_number quantizer)) }
    ensures uniform { AreCdfs uniform_numbers }
{}

/// A context whose CDFs are all valid, one of which is adapted by a symbol, is one still.
pub fn law_of_learning()
    ensures { (xs : List ℕ) (s : Slot) (symbol : ℕ) → AreCdfs xs → IsTrue (is_slot s.place s.len) →
        AreCdfs (with_contents xs s (adapt (contents xs s) symbol)) }
{}

/// In a context whose CDFs are all valid each distribution is valid and has its symbols, and the context stays so, whether it
/// learns or not.
pub fn law_of_distributions()
    ensures { (learns : Bool) → Keeps HasSymbols coded_by (learnt learns) AreCdfs }
{}

/// A CDF of a context that is written has the numbers written, and each other one stays.
pub fn law_of_writing()
    ensures size { (numbers ws : List ℕ) (s : Slot) → length (with_contents numbers s ws) ≡ length numbers }
    ensures own { (xs ws : List ℕ) (s : Slot) → IsTrue (is_slot s.place s.len) → length xs ≡ 5528 →
        length ws ≡ s.len → contents (with_contents xs s ws) s ≡ ws }
    ensures others { (xs ws : List ℕ) (s t : Slot) → IsTrue (is_slot s.place s.len) → IsTrue (is_slot t.place t.len) →
        length xs ≡ 5528 → (s ≡ t) ⊎ (contents (with_contents xs s ws) t ≡ contents xs t) }
{}
