// Levels in the order of a scan as the coefficients of a transform.
ghost use Rattle.std.specs.Prelude.{◌≡◌, ℕ, ◌<◌, ◌≤◌, true, false, length, pos};
ghost use Rattle.av1_coef.specs.Contexts.{coded_area};
ghost use Rattle.av1_coef.specs.Scans.{IsScan};
ghost use Rattle.av1_geometry.specs.declared.prediction_mode.PredictionMode.TheVariants.{DC_PRED};
ghost use Rattle.av1_syntax.specs.Coefficients.{value_at, levels_at, AreCoded, AreLevels, HasType};

use av1_geometry::{TxClass, TxSize, TxType, get_tx_set};

// Whether levels may be coded, where so many coefficients are.
pub(crate) fn are_levels(levels: &[i32], most: usize) -> bool
    ensures { result ≡ true → AreLevels most levels.now }
{
    if levels.len() > most {
        return false;
    }
    for i in 0..levels.len() {
        if levels[i].unsigned_abs() >= 1 << 20 {
            return false;
        }
    }
    levels.is_empty() || levels[levels.len() - 1] != 0
}

// Whether a transform block of a block with `DC_PRED` may have a type, where it has so many levels.
pub(crate) fn has_type(plane: usize, tx_size: TxSize, eob: usize, tx_type: TxType) -> bool
    ensures { result ≡ true → HasType plane tx_size DC_PRED false eob tx_type }
{
    if plane > 0 {
        return true;
    }
    if eob == 0 {
        return tx_type == TxType::DCT_DCT;
    }
    get_tx_set(tx_size, false, false).uses(tx_type)
}

// Puts levels into coefficients that are all zero.
pub(crate) fn put_levels(
    levels: &[i32],
    scan: &[u16],
    tx_size: TxSize,
    tx_class: TxClass,
    coeffs: &mut [i32],
)
    requires order { IsScan tx_size tx_class scan.now }
    requires levels { AreLevels (coded_area tx_size) levels.now }
    requires room { coded_area tx_size ≤ length coeffs.old }
    requires zeros { (p : ℕ) → value_at coeffs.old p ≡ pos 0 }
    ensures coded { AreCoded tx_size tx_class scan.now (length levels.now) coeffs.new }
    ensures levels { levels_at coeffs.new scan.now (length levels.now) ≡ levels.now }
{
    for i in 0..levels.len() {
        coeffs[usize::from(scan[i])] = levels[i];
    }
}
