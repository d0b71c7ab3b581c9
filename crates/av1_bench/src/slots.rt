// The CDFs of a context that learn from the symbols, one for each size.
#![tactic(auto, unfolding(av1_cdf::specs::Layout::slot))]

ghost use Rattle.std.specs.Prelude.{◌≤◌};

use av1_cdf::{CDFContext, CDFOffset};

/// The CDF of a size. No CDF has 15 numbers, so size 15 has one of 16.
#[inline(always)]
pub(crate) fn slot(size: usize) -> CDFOffset
    requires from { 2 ≤ size }
    requires to { size ≤ 16 }
    ensures { size ≤ result.len }
{
    match size {
        2 => CDFContext::skip_cdfs(0),
        3 => CDFContext::lrf_switchable_cdf(),
        4 => CDFContext::coeff_base_cdf(0, 0, 0),
        5 => CDFContext::intra_tx_2_cdf(0, 0),
        6 => CDFContext::eob_flag_cdf32(0, 0),
        7 => CDFContext::angle_delta_cdf(0),
        8 => CDFContext::cfl_sign_cdf(),
        9 => CDFContext::eob_flag_cdf256(0, 0),
        10 => CDFContext::partition_cdf(0),
        11 => CDFContext::eob_flag_cdf1024(0, 0),
        12 => CDFContext::inter_tx_2_cdf(0),
        13 => CDFContext::kf_y_cdf(0, 0),
        14 => CDFContext::uv_mode_cfl_cdf(0),
        15 => CDFContext::inter_tx_1_cdf(0),
        _ => CDFContext::cfl_alpha_cdf(0),
    }
}
