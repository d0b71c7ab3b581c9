// The law of the coefficients of a transform block.
ghost use Rattle.std.specs.Prelude.{◌≡◌, ◌≢◌, ◌<◌, ℕ, List, Bool};
ghost use Rattle.av1_blocks.specs.declared.coefficients.TXB_CTX.{TXB_CTX};
ghost use Rattle.av1_cdf.specs.Distribution.{HasSymbols};
ghost use Rattle.av1_coef.specs.Contexts.{coded_area};
ghost use Rattle.av1_geometry.specs.PredictionMode.{prediction_mode_number};
ghost use Rattle.av1_geometry.specs.declared.prediction_mode.PredictionMode.{PredictionMode};
ghost use Rattle.av1_geometry.specs.declared.tx_size.TxSize.{TxSize};
ghost use Rattle.av1_geometry.specs.declared.tx_type.TxClass.{TxClass};
ghost use Rattle.av1_geometry.specs.declared.tx_type.TxType.{TxType};
ghost use Rattle.av1_model.specs.Element.{Reads};
ghost use Rattle.av1_syntax.specs.Coefficients.{coeffs_element, type_without, AreCoeffs, IsTyped};

/// For any scans, a transform block has at most as many levels as coefficients of it are coded, of which the last is not 0, each
/// of a size below 2^20. In luma its type is one of its set, and DCT where it has no levels; in chroma it is the given one.
pub fn law_of_coefficients()
    ensures { (by_coded : Bool) (plane : ℕ) (size : TxSize) (mode : PredictionMode) (reduced : Bool) (given : TxType) →
        (contexts : TXB_CTX) (scans : TxClass → List ℕ) →
        (plane ≡ 0 → prediction_mode_number mode ≢ 13) → contexts.txb_skip_ctx < 13 → contexts.dc_sign_ctx < 3 →
        let IsOne = AreCoeffs (IsTyped plane size mode reduced given) (type_without plane given) (coded_area size) in
        Reads HasSymbols (coeffs_element by_coded plane size mode reduced given contexts scans) IsOne 70668 }
{}
