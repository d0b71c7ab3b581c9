// How a block is predicted.
ghost use Rattle.std.specs.Prelude.{◌≡◌, ◌<◌, ◌↔◌, IsTrue, IsSome, IfSome};
ghost use Rattle.av1_geometry.specs.PredictionMode.{prediction_mode_number, prediction_mode_of, has_newmv};

/// How a block is predicted: 0 to 13 within the frame, of which the last is for chroma alone, then from one reference, from 20 on
/// from two. The index of a near candidate stands in its name.
#[derive(Clone, Copy, Debug, PartialEq, Eq)]
pub enum PredictionMode {
    DC_PRED,
    V_PRED,
    H_PRED,
    D45_PRED,
    D135_PRED,
    D113_PRED,
    D157_PRED,
    D203_PRED,
    D67_PRED,
    SMOOTH_PRED,
    SMOOTH_V_PRED,
    SMOOTH_H_PRED,
    PAETH_PRED,
    UV_CFL_PRED,
    NEARESTMV,
    NEAR0MV,
    NEAR1MV,
    NEAR2MV,
    GLOBALMV,
    NEWMV,
    NEAREST_NEARESTMV,
    NEAR_NEAR0MV,
    NEAR_NEAR1MV,
    NEAR_NEAR2MV,
    NEAREST_NEWMV,
    NEW_NEARESTMV,
    NEAR_NEW0MV,
    NEAR_NEW1MV,
    NEAR_NEW2MV,
    NEW_NEAR0MV,
    NEW_NEAR1MV,
    NEW_NEAR2MV,
    GLOBAL_GLOBALMV,
    NEW_NEWMV,
}

/// All values by their numbers.
static ALL_MODES: [PredictionMode; 34] = [
    PredictionMode::DC_PRED,
    PredictionMode::V_PRED,
    PredictionMode::H_PRED,
    PredictionMode::D45_PRED,
    PredictionMode::D135_PRED,
    PredictionMode::D113_PRED,
    PredictionMode::D157_PRED,
    PredictionMode::D203_PRED,
    PredictionMode::D67_PRED,
    PredictionMode::SMOOTH_PRED,
    PredictionMode::SMOOTH_V_PRED,
    PredictionMode::SMOOTH_H_PRED,
    PredictionMode::PAETH_PRED,
    PredictionMode::UV_CFL_PRED,
    PredictionMode::NEARESTMV,
    PredictionMode::NEAR0MV,
    PredictionMode::NEAR1MV,
    PredictionMode::NEAR2MV,
    PredictionMode::GLOBALMV,
    PredictionMode::NEWMV,
    PredictionMode::NEAREST_NEARESTMV,
    PredictionMode::NEAR_NEAR0MV,
    PredictionMode::NEAR_NEAR1MV,
    PredictionMode::NEAR_NEAR2MV,
    PredictionMode::NEAREST_NEWMV,
    PredictionMode::NEW_NEARESTMV,
    PredictionMode::NEAR_NEW0MV,
    PredictionMode::NEAR_NEW1MV,
    PredictionMode::NEAR_NEW2MV,
    PredictionMode::NEW_NEAR0MV,
    PredictionMode::NEW_NEAR1MV,
    PredictionMode::NEW_NEAR2MV,
    PredictionMode::GLOBAL_GLOBALMV,
    PredictionMode::NEW_NEWMV,
];

impl PredictionMode {
    /// The place of the value in the order of the enum.
    pub fn number(self) -> usize
        ensures value { result ≡ prediction_mode_number self }
        ensures bound { result < 34 }
    {
        self as usize
    }

    /// The value whose number this is.
    pub fn from_number(number: usize) -> Option<PredictionMode>
        ensures listed { result ≡ prediction_mode_of number }
        ensures found { IsSome result ↔ (number < 34) }
        ensures value { IfSome result (λ value. prediction_mode_number value ≡ number) }
    {
        if number < 34 {
            Some(ALL_MODES[number])
        } else {
            None
        }
    }

    /// Whether a vector is coded for one of the references: the name has NEW in it.
    pub fn has_newmv(self) -> bool
        ensures { result ≡ has_newmv self }
    {
        matches!(
            self,
            PredictionMode::NEWMV
                | PredictionMode::NEAREST_NEWMV
                | PredictionMode::NEW_NEARESTMV
                | PredictionMode::NEAR_NEW0MV
                | PredictionMode::NEAR_NEW1MV
                | PredictionMode::NEAR_NEW2MV
                | PredictionMode::NEW_NEAR0MV
                | PredictionMode::NEW_NEAR1MV
                | PredictionMode::NEW_NEAR2MV
                | PredictionMode::NEW_NEWMV
        )
    }
}
