// The rules of quantizers and segments.
ghost use Rattle.std.specs.Prelude.{◌≡◌, ◌<◌};
ghost use Rattle.std.specs.List.{list_all, range_with_len};
ghost use Rattle.av1_frame.specs.SegmentRules.{quantizer_fits, delta_fits, value_fits, feature_fits, segment_fits};
ghost use Rattle.av1_frame.specs.SegmentRules.{segment_at_fits, segments_fit, is_active, ends_before, last_segment_fits, segmentation_fits};

use crate::frame::FrameInvariants;
use crate::reference::PRIMARY_REF_NONE;
use crate::state::SegmentationState;
use av1_geometry::seg_feature_is_signed;

/// How far the value of each feature is from 0 (`Segmentation_Feature_Max`, AV1 specification 5.9.14).
const FEATURE_MAX: [u16; 8] = [255, 63, 63, 63, 63, 7, 0, 0];

fn delta_fits(delta: i8) -> bool
    ensures { result ≡ delta_fits delta }
{
    delta.unsigned_abs() <= 63
}

fn deltas_fit(deltas: &[i8; 3]) -> bool
    ensures { result ≡ list_all delta_fits deltas.now }
{
    deltas.iter().all(|delta| delta_fits(*delta))
}

#[tactic(auto, unfolding(crate::specs::SegmentRules::quantizer_fits))]
pub(crate) fn quantizer_fits(fi: &FrameInvariants) -> bool
    ensures { result ≡ quantizer_fits fi.now }
{
    fi.base_q_idx > 0
        && deltas_fit(&fi.dc_delta_q)
        && deltas_fit(&fi.ac_delta_q)
        && fi.ac_delta_q[0] == 0
}

fn value_fits(feature: usize, value: i16) -> bool
    requires { feature < 8 }
    ensures { result ≡ value_fits feature value }
{
    value.unsigned_abs() <= FEATURE_MAX[feature] && (seg_feature_is_signed[feature] || value >= 0)
}

fn feature_fits(features: &[bool; 8], values: &[i16; 8], j: usize) -> bool
    requires { j < 8 }
    ensures { result ≡ feature_fits features.now values.now j }
{
    !features[j] || value_fits(j, values[j])
}

#[tactic(auto, using(crate::proofs::Ranges::ranges), unfolding(crate::specs::SegmentRules::segment_fits))]
fn segment_fits(features: &[bool; 8], values: &[i16; 8]) -> bool
    ensures { result ≡ segment_fits features.now values.now }
{
    for j in 0..8 {
        if !feature_fits(features, values, j) {
            return false;
        }
    }
    true
}

fn segment_at_fits(s: &SegmentationState, i: usize) -> bool
    requires { i < 8 }
    ensures { result ≡ segment_at_fits s.now i }
{
    segment_fits(&s.features[i], &s.values[i])
}

#[tactic(auto, using(crate::proofs::Ranges::ranges), unfolding(crate::specs::SegmentRules::segments_fit))]
fn segments_fit(s: &SegmentationState) -> bool
    ensures { result ≡ segments_fit s.now }
{
    for i in 0..8 {
        if !segment_at_fits(s, i) {
            return false;
        }
    }
    true
}

#[tactic(auto, unfolding(crate::specs::SegmentRules::is_active))]
fn is_active(s: &SegmentationState, i: usize) -> bool
    ensures { result ≡ is_active s.now i }
{
    i < 8 && s.features[i].iter().any(|has| *has)
}

// Whether a segment is no later than the last one, or has no feature.
fn ends_before(s: &SegmentationState, i: usize) -> bool
    ensures { result ≡ ends_before s.now i }
{
    i <= usize::from(s.last_active_segid) || !is_active(s, i)
}

#[tactic(auto, using(crate::proofs::Ranges::ranges))]
fn all_end_before(s: &SegmentationState) -> bool
    ensures { result ≡ list_all (ends_before s.now) (range_with_len 0 8) }
{
    for i in 0..8 {
        if !ends_before(s, i) {
            return false;
        }
    }
    true
}

#[tactic(auto, unfolding(crate::specs::SegmentRules::last_segment_fits))]
fn last_segment_fits(s: &SegmentationState) -> bool
    ensures { result ≡ last_segment_fits s.now }
{
    let last = usize::from(s.last_active_segid);
    (last == 0 || is_active(s, last)) && all_end_before(s)
}

#[tactic(auto, unfolding(crate::specs::SegmentRules::segmentation_fits))]
pub(crate) fn segmentation_fits(fi: &FrameInvariants, s: &SegmentationState) -> bool
    ensures { result ≡ segmentation_fits fi.now s.now }
{
    let whole = s.update_map && s.update_data;
    fi.enable_segmentation == s.enabled
        && (!(s.enabled && fi.primary_ref_frame == PRIMARY_REF_NONE) || whole)
        && segments_fit(s)
        && last_segment_fits(s)
}
