// What contexts know of a block, and what the rules of scans give.
ghost use Rattle.std.specs.Prelude.{◌+◌, ◌*◌, ◌≤◌, ℕ, List, IsTrue};
ghost use Rattle.av1_geometry.specs.declared.tx_size.TxSize.{TxSize};
ghost use Rattle.av1_geometry.specs.declared.tx_type.TxClass.{TxClass};
ghost use Rattle.av1_coef.specs.Causal.{ContextsKnowLaterLevels, ContextsKnowLevelsUpTo15};
ghost use Rattle.av1_coef.specs.Contexts.{coded_width, coded_height, coded_area};
ghost use Rattle.av1_coef.specs.Scans.{AreScans, IsCodedAt, IsScan, of_each, scan_of};

/// In a scan that keeps its rules, base and range context of each position are the same whatever stands at positions that come
/// no later, and they are the same whether levels are up to 127 or up to 15.
pub fn law_of_contexts()
    ensures later { ContextsKnowLaterLevels }
    ensures cut { ContextsKnowLevelsUpTo15 }
{}

/// Scans that keep their rules have a scan for each size and class that keeps its own, and its positions are those of coded
/// coefficients.
pub fn law_of_scans()
    ensures inside { (size : TxSize) (class : TxClass) (scan : List ℕ) (i : ℕ) → IsScan size class scan → IsCodedAt size scan i }
    ensures each { (s : List (List (List ℕ))) → AreScans s → IsTrue (of_each s) }
    ensures scan { (s : List (List (List ℕ))) (size : TxSize) (class : TxClass) → AreScans s → IsScan size class (scan_of s size class) }
{}

/// The coefficients that are coded, and the levels that they need with their padding, have room in arrays of 1024 and 1296.
pub fn law_of_coded_sizes()
    ensures width { (size : TxSize) → coded_width size ≤ 32 }
    ensures height { (size : TxSize) → coded_height size ≤ 32 }
    ensures area { (size : TxSize) → coded_area size ≤ 1024 }
    ensures room { (size : TxSize) → (coded_width size + 4) * (coded_height size + 4) ≤ 1296 }
{}
