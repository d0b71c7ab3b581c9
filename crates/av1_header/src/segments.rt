// The segments of a frame.
ghost use Rattle.std.specs.Prelude.{◌≡◌, ◌+◌, ◌^◌, ◌<◌, ◌≤◌, ℕ, Bool, true, false, IsTrue, unsigned_abs, slice_index_or};
ghost use Rattle.av1_geometry.specs.declared.segmentation.TheConstants.{seg_feature_bits, seg_feature_is_signed};
ghost use Rattle.av1_header.specs.Rows.{Wrote};
ghost use Rattle.av1_header.specs.Segments.{feature, segment, segment_features, segmentation_params, Feature, feature_of, HaveFittingFeatures};

use crate::rows::{fixed, flag_or, number_or, signed_if};
use av1_bits::BitWriter;
use av1_frame::SegmentationState;
use av1_geometry::{seg_feature_bits, seg_feature_is_signed};

// Whether the values of a feature have a sign.
fn is_signed(j: usize) -> bool
    requires { j < 8 }
    ensures { result ≡ slice_index_or seg_feature_is_signed j false }
{
    seg_feature_is_signed[j]
}

// The bits of the values of a feature, a sign aside.
fn bits_of_values(j: usize) -> u32
    requires { j < 8 }
    ensures value { result ≡ slice_index_or seg_feature_bits j 0 }
    ensures few { result ≤ 8 }
{
    seg_feature_bits[j]
}

fn magnitude(value: i16) -> u32
    ensures { result ≡ unsigned_abs value }
{
    u32::from(value.unsigned_abs())
}

fn write_feature(bits: &mut BitWriter, refused: &mut bool, j: usize, present: bool, value: i16)
    requires feature { j < 8 }
    requires fits { present ≡ true → unsigned_abs value < 2 ^ slice_index_or seg_feature_bits j 0 }
    ensures { Wrote (feature j) (record { present = present; value = value }) tt refused.old refused.new bits.old bits.new }
{
    let signed = is_signed(j);
    let count = bits_of_values(j);
    let coded = flag_or(bits, refused, true, false, present);
    signed_if(bits, refused, coded & signed, count + 1, value);
    number_or(bits, refused, coded & !signed, 0, count, magnitude(value));
}

fn write_segment(
    bits: &mut BitWriter,
    refused: &mut bool,
    segmentation: &SegmentationState,
    i: usize,
)
    requires segment { i < 8 }
    requires fits { HaveFittingFeatures segmentation.now }
    ensures { Wrote (segment i) segmentation.now tt refused.old refused.new bits.old bits.new }
{
    for j in 0..8 {
        write_feature(
            bits,
            refused,
            j,
            segmentation.features[i][j],
            segmentation.values[i][j],
        );
    }
}

fn write_segment_features(
    bits: &mut BitWriter,
    refused: &mut bool,
    segmentation: &SegmentationState,
)
    requires fits { HaveFittingFeatures segmentation.now }
    ensures { Wrote segment_features segmentation.now tt refused.old refused.new bits.old bits.new }
{
    for i in 0..8 {
        write_segment(bits, refused, segmentation, i);
    }
}

pub(crate) fn write_segmentation(
    bits: &mut BitWriter,
    refused: &mut bool,
    segmentation: &SegmentationState,
    has_primary: bool,
)
    requires fits { HaveFittingFeatures segmentation.now }
    ensures { Wrote (segmentation_params has_primary) segmentation.now tt refused.old refused.new bits.old bits.new }
{
    let enabled = flag_or(bits, refused, true, false, segmentation.enabled);
    let update_map = flag_or(
        bits,
        refused,
        enabled & has_primary,
        enabled,
        segmentation.update_map,
    );
    fixed(bits, refused, enabled & has_primary & update_map, 1, 0);
    let update_data = flag_or(
        bits,
        refused,
        enabled & has_primary,
        enabled,
        segmentation.update_data,
    );
    if update_data {
        write_segment_features(bits, refused, segmentation);
    }
}
