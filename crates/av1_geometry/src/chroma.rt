// Where a block has chroma, and the transform type that its chroma mode implies.
ghost use Rattle.std.specs.Prelude.{◌≡◌, ◌≤◌};
ghost use Rattle.av1_geometry.specs.PredictionMode.{prediction_mode_number};
ghost use Rattle.av1_geometry.specs.Chroma.{has_chroma_at, chroma_tx_type};

use crate::block_offset::TileBlockOffset;
use crate::block_size::BlockSize;
use crate::chroma_sampling::ChromaSampling;
use crate::prediction_mode::PredictionMode;
use crate::tx_type::TxType;

/// Whether the chroma of the place belongs to this block: a block that is one unit wide in halved chroma leaves it to the block
/// to its right, one that is one unit high to the block below.
pub fn has_chroma(
    bo: TileBlockOffset,
    bsize: BlockSize,
    subsampling_x: usize,
    subsampling_y: usize,
    chroma_sampling: ChromaSampling,
) -> bool
    ensures { result ≡ has_chroma_at bo.0.x bo.0.y bsize subsampling_x subsampling_y chroma_sampling }
{
    if chroma_sampling == ChromaSampling::Cs400 {
        return false;
    }
    (bo.0.x % 2 == 1 || bsize.width_mi() % 2 == 0 || subsampling_x == 0)
        && (bo.0.y % 2 == 1 || bsize.height_mi() % 2 == 0 || subsampling_y == 0)
}

/// The type of transform that an intra mode of chroma implies (AV1 specification, "Mode to transform type").
pub fn uv_intra_mode_to_tx_type_context(pred: PredictionMode) -> TxType
    requires { prediction_mode_number pred ≤ 13 }
    ensures { result ≡ chroma_tx_type pred }
{
    match pred {
        PredictionMode::V_PRED
        | PredictionMode::D113_PRED
        | PredictionMode::D67_PRED
        | PredictionMode::SMOOTH_V_PRED => TxType::ADST_DCT,
        PredictionMode::H_PRED
        | PredictionMode::D157_PRED
        | PredictionMode::D203_PRED
        | PredictionMode::SMOOTH_H_PRED => TxType::DCT_ADST,
        PredictionMode::D135_PRED | PredictionMode::SMOOTH_PRED | PredictionMode::PAETH_PRED =>
            TxType::ADST_ADST,
        _ => TxType::DCT_DCT,
    }
}
