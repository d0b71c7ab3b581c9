// The layout of the context, as runs of CDFs of one length.
ghost use Rattle.std.specs.Prelude.{◌≡◌};
ghost use Rattle.av1_cdf.specs.Runs.{runs};

use crate::run::Run;

macro_rules! run {
    ($place:literal, $count:literal, $len:literal) => {
        Run {
            place: $place,
            count: $count,
            len: $len,
        }
    };
}

pub(crate) const RUNS: usize = 72;

pub(crate) const COMP_BWD_REF_CDF: Run = run!(0, 6, 2);

pub(crate) const COMP_MODE_CDF: Run = run!(12, 5, 2);

pub(crate) const COMP_REF_CDF: Run = run!(22, 9, 2);

pub(crate) const COMP_REF_TYPE_CDF: Run = run!(40, 5, 2);

pub(crate) const DC_SIGN_CDF: Run = run!(50, 6, 2);

pub(crate) const DRL_CDFS: Run = run!(62, 3, 2);

pub(crate) const EOB_EXTRA_CDF: Run = run!(68, 90, 2);

pub(crate) const FILTER_INTRA_CDFS: Run = run!(248, 22, 2);

pub(crate) const INTRA_INTER_CDFS: Run = run!(292, 4, 2);

pub(crate) const LRF_SGRPROJ_CDF: Run = run!(300, 1, 2);

pub(crate) const LRF_WIENER_CDF: Run = run!(302, 1, 2);

pub(crate) const NEWMV_CDF: Run = run!(304, 6, 2);

pub(crate) const PALETTE_UV_MODE_CDFS: Run = run!(316, 2, 2);

pub(crate) const PALETTE_Y_MODE_CDFS: Run = run!(320, 21, 2);

pub(crate) const REFMV_CDF: Run = run!(362, 6, 2);

pub(crate) const SINGLE_REF_CDFS: Run = run!(374, 18, 2);

pub(crate) const SKIP_CDFS: Run = run!(410, 3, 2);

pub(crate) const TXB_SKIP_CDF: Run = run!(416, 65, 2);

pub(crate) const TXFM_PARTITION_CDF: Run = run!(546, 21, 2);

pub(crate) const ZEROMV_CDF: Run = run!(588, 2, 2);

pub(crate) const TX_SIZE_8X8_CDF: Run = run!(592, 3, 2);

pub(crate) const INTER_TX_3_CDF: Run = run!(598, 4, 2);

pub(crate) const COEFF_BASE_EOB_CDF: Run = run!(606, 40, 3);

pub(crate) const LRF_SWITCHABLE_CDF: Run = run!(726, 1, 3);

pub(crate) const TX_SIZE_CDF: Run = run!(729, 9, 3);

pub(crate) const COEFF_BASE_CDF: Run = run!(756, 420, 4);

pub(crate) const COEFF_BR_CDF: Run = run!(2436, 210, 4);

pub(crate) const DEBLOCK_DELTA_CDF: Run = run!(3276, 1, 4);

pub(crate) const DEBLOCK_DELTA_MULTI_CDF: Run = run!(3280, 4, 4);

pub(crate) const PARTITION_W8_CDF: Run = run!(3296, 4, 4);

pub(crate) const EOB_FLAG_CDF16: Run = run!(3312, 4, 5);

pub(crate) const INTRA_TX_2_CDF: Run = run!(3332, 52, 5);

pub(crate) const EOB_FLAG_CDF32: Run = run!(3592, 4, 6);

pub(crate) const ANGLE_DELTA_CDF: Run = run!(3616, 8, 7);

pub(crate) const EOB_FLAG_CDF64: Run = run!(3672, 4, 7);

pub(crate) const INTRA_TX_1_CDF: Run = run!(3700, 52, 7);

pub(crate) const CFL_SIGN_CDF: Run = run!(4064, 1, 8);

pub(crate) const COMPOUND_MODE_CDF: Run = run!(4072, 8, 8);

pub(crate) const EOB_FLAG_CDF128: Run = run!(4136, 4, 8);

pub(crate) const SPATIAL_SEGMENTATION_CDFS: Run = run!(4168, 3, 8);

pub(crate) const PARTITION_W128_CDF: Run = run!(4192, 4, 8);

pub(crate) const EOB_FLAG_CDF256: Run = run!(4224, 4, 9);

pub(crate) const EOB_FLAG_CDF512: Run = run!(4260, 4, 10);

pub(crate) const PARTITION_CDF: Run = run!(4300, 12, 10);

pub(crate) const EOB_FLAG_CDF1024: Run = run!(4420, 4, 11);

pub(crate) const INTER_TX_2_CDF: Run = run!(4464, 4, 12);

pub(crate) const KF_Y_CDF: Run = run!(4512, 25, 13);

pub(crate) const Y_MODE_CDF: Run = run!(4837, 4, 13);

pub(crate) const UV_MODE_CDF: Run = run!(4889, 13, 13);

pub(crate) const UV_MODE_CFL_CDF: Run = run!(5058, 13, 14);

pub(crate) const CFL_ALPHA_CDF: Run = run!(5240, 6, 16);

pub(crate) const INTER_TX_1_CDF: Run = run!(5336, 4, 16);

pub(crate) const JOINTS_CDF: Run = run!(5400, 1, 4);

pub(crate) const JOINTS_PADDING: Run = run!(5404, 12, 1);

pub(crate) const SIGN_CDF: Run = run!(5416, 1, 2);

pub(crate) const CLASS0_HP_CDF: Run = run!(5418, 1, 2);

pub(crate) const HP_CDF: Run = run!(5420, 1, 2);

pub(crate) const CLASS0_CDF: Run = run!(5422, 1, 2);

pub(crate) const BITS_CDF: Run = run!(5424, 10, 2);

pub(crate) const CLASS0_FP_CDF: Run = run!(5444, 2, 4);

pub(crate) const FP_CDF: Run = run!(5452, 1, 4);

pub(crate) const CLASSES_CDF: Run = run!(5456, 1, 11);

pub(crate) const COMPONENT_PADDING: Run = run!(5467, 5, 1);

static LAYOUT: [Run; RUNS] = [
    COMP_BWD_REF_CDF,
    COMP_MODE_CDF,
    COMP_REF_CDF,
    COMP_REF_TYPE_CDF,
    DC_SIGN_CDF,
    DRL_CDFS,
    EOB_EXTRA_CDF,
    FILTER_INTRA_CDFS,
    INTRA_INTER_CDFS,
    LRF_SGRPROJ_CDF,
    LRF_WIENER_CDF,
    NEWMV_CDF,
    PALETTE_UV_MODE_CDFS,
    PALETTE_Y_MODE_CDFS,
    REFMV_CDF,
    SINGLE_REF_CDFS,
    SKIP_CDFS,
    TXB_SKIP_CDF,
    TXFM_PARTITION_CDF,
    ZEROMV_CDF,
    TX_SIZE_8X8_CDF,
    INTER_TX_3_CDF,
    COEFF_BASE_EOB_CDF,
    LRF_SWITCHABLE_CDF,
    TX_SIZE_CDF,
    COEFF_BASE_CDF,
    COEFF_BR_CDF,
    DEBLOCK_DELTA_CDF,
    DEBLOCK_DELTA_MULTI_CDF,
    PARTITION_W8_CDF,
    EOB_FLAG_CDF16,
    INTRA_TX_2_CDF,
    EOB_FLAG_CDF32,
    ANGLE_DELTA_CDF,
    EOB_FLAG_CDF64,
    INTRA_TX_1_CDF,
    CFL_SIGN_CDF,
    COMPOUND_MODE_CDF,
    EOB_FLAG_CDF128,
    SPATIAL_SEGMENTATION_CDFS,
    PARTITION_W128_CDF,
    EOB_FLAG_CDF256,
    EOB_FLAG_CDF512,
    PARTITION_CDF,
    EOB_FLAG_CDF1024,
    INTER_TX_2_CDF,
    KF_Y_CDF,
    Y_MODE_CDF,
    UV_MODE_CDF,
    UV_MODE_CFL_CDF,
    CFL_ALPHA_CDF,
    INTER_TX_1_CDF,
    JOINTS_CDF,
    JOINTS_PADDING,
    SIGN_CDF,
    CLASS0_HP_CDF,
    HP_CDF,
    CLASS0_CDF,
    BITS_CDF,
    CLASS0_FP_CDF,
    FP_CDF,
    CLASSES_CDF,
    COMPONENT_PADDING,
    run!(5472, 1, 2),
    run!(5474, 1, 2),
    run!(5476, 1, 2),
    run!(5478, 1, 2),
    run!(5480, 10, 2),
    run!(5500, 2, 4),
    run!(5508, 1, 4),
    run!(5512, 1, 11),
    run!(5523, 5, 1),
];

/// All runs by rising places.
#[tactic(auto, unfolding(crate::specs::Runs::runs, crate::specs::Layout::layout))]
pub(crate) fn runs() -> &'static [Run; RUNS]
    ensures { result.now ≡ runs }
{
    &LAYOUT
}
