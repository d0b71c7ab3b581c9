// The rules of a sequence, each a function of its own.
ghost use Rattle.std.specs.Prelude.{◌≡◌};
ghost use Rattle.av1_geometry.specs.Rules.{first_broken};
ghost use Rattle.av1_frame.specs.SequenceRules.{sequence_rules, known_profile, reduced_is_still, reduced_has_defaults, is_carried};
ghost use Rattle.av1_frame.specs.SequenceRules.{time_base_fits, tools_fit, samples_fit, srgb_fits, position_fits, is_srgb, in_main};
ghost use Rattle.av1_frame.specs.SequenceRules.{in_high, in_professional, is_420, is_monochrome, is_full, has_inter_tools, forces_fit};

use crate::sequence::{ColorDescription, Sequence};
use av1_geometry::{ChromaSampling, PixelRange, Rule};

/// The broken rule of a sequence with the lowest number, 10 to 18.
#[tactic(auto, unfolding(crate::specs::SequenceRules::sequence_rules))]
pub fn check_sequence(seq: &Sequence) -> Option<Rule>
    ensures { result ≡ first_broken (sequence_rules seq.now) }
{
    if !known_profile(seq) {
        return Some(Rule(10));
    }
    if !reduced_is_still(seq) {
        return Some(Rule(11));
    }
    if !reduced_has_defaults(seq) {
        return Some(Rule(12));
    }
    if !is_carried(seq) {
        return Some(Rule(13));
    }
    if !time_base_fits(seq) {
        return Some(Rule(14));
    }
    if !tools_fit(seq) {
        return Some(Rule(15));
    }
    if !samples_fit(seq) {
        return Some(Rule(16));
    }
    if !srgb_fits(seq) {
        return Some(Rule(17));
    }
    if !position_fits(seq) {
        return Some(Rule(18));
    }
    None
}

#[tactic(auto, unfolding(crate::specs::SequenceRules::known_profile))]
fn known_profile(seq: &Sequence) -> bool
    ensures { result ≡ known_profile seq.now }
{
    seq.profile <= 2 && seq.level_idx <= 31
}

#[tactic(auto, unfolding(crate::specs::SequenceRules::reduced_is_still))]
fn reduced_is_still(seq: &Sequence) -> bool
    ensures { result ≡ reduced_is_still seq.now }
{
    !seq.reduced_still_picture_hdr || seq.still_picture
}

fn has_inter_tools(seq: &Sequence) -> bool
    ensures { result ≡ has_inter_tools seq.now }
{
    seq.enable_interintra_compound
        || seq.enable_masked_compound
        || seq.enable_warped_motion
        || seq.enable_dual_filter
        || seq.enable_order_hint
        || seq.enable_jnt_comp
        || seq.enable_ref_frame_mvs
}

#[tactic(auto, unfolding(crate::specs::SequenceRules::reduced_has_defaults))]
fn reduced_has_defaults(seq: &Sequence) -> bool
    ensures { result ≡ reduced_has_defaults seq.now }
{
    !seq.reduced_still_picture_hdr
        || (!seq.timing_info_present
            && !has_inter_tools(seq)
            && seq.force_screen_content_tools == 2
            && seq.force_integer_mv == 2)
}

#[tactic(auto, unfolding(crate::specs::SequenceRules::is_carried))]
fn is_carried(seq: &Sequence) -> bool
    ensures { result ≡ is_carried seq.now }
{
    !seq.use_128x128_superblock
        && !seq.enable_superres
        && !seq.frame_id_numbers_present_flag
        && !seq.decoder_model_info_present_flag
}

#[tactic(auto, unfolding(crate::specs::SequenceRules::time_base_fits))]
fn time_base_fits(seq: &Sequence) -> bool
    ensures { result ≡ time_base_fits seq.now }
{
    seq.time_base.num < 1 << 32 && seq.time_base.den < 1 << 32
}

fn forces_fit(seq: &Sequence) -> bool
    ensures { result ≡ forces_fit seq.now }
{
    seq.force_screen_content_tools <= 2
        && seq.force_integer_mv <= 2
        && (seq.force_screen_content_tools != 0 || seq.force_integer_mv == 2)
}

#[tactic(auto, unfolding(crate::specs::SequenceRules::tools_fit))]
fn tools_fit(seq: &Sequence) -> bool
    ensures { result ≡ tools_fit seq.now }
{
    forces_fit(seq)
        && seq.order_hint_bits_minus_1 <= 7
        && (seq.enable_order_hint || (!seq.enable_jnt_comp && !seq.enable_ref_frame_mvs))
}

fn in_main(sampling: ChromaSampling) -> bool
    ensures { result ≡ in_main sampling }
{
    matches!(sampling, ChromaSampling::Cs420 | ChromaSampling::Cs400)
}

fn in_high(sampling: ChromaSampling) -> bool
    ensures { result ≡ in_high sampling }
{
    matches!(sampling, ChromaSampling::Cs444)
}

fn in_professional(sampling: ChromaSampling) -> bool
    ensures { result ≡ in_professional sampling }
{
    matches!(sampling, ChromaSampling::Cs422 | ChromaSampling::Cs400)
}

#[tactic(auto, unfolding(crate::specs::SequenceRules::samples_fit))]
fn samples_fit(seq: &Sequence) -> bool
    ensures { result ≡ samples_fit seq.now }
{
    let low = seq.bit_depth == 8 || seq.bit_depth == 10;
    (seq.profile != 0 || (low && in_main(seq.chroma_sampling)))
        && (seq.profile != 1 || (low && in_high(seq.chroma_sampling)))
        && (seq.profile != 2
            || seq.bit_depth == 12
            || (low && in_professional(seq.chroma_sampling)))
}

fn is_srgb(description: Option<ColorDescription>) -> bool
    ensures { result ≡ is_srgb description }
{
    match description {
        Some(d) => {
            d.color_primaries == 1 && d.transfer_characteristics == 13 && d.matrix_coefficients == 0
        }
        None => false,
    }
}

// Whether both sides of chroma are half of luma's.
pub(crate) fn is_420(sampling: ChromaSampling) -> bool
    ensures { result ≡ is_420 sampling }
{
    matches!(sampling, ChromaSampling::Cs420)
}

// Whether there is luma alone.
pub(crate) fn is_monochrome(sampling: ChromaSampling) -> bool
    ensures { result ≡ is_monochrome sampling }
{
    matches!(sampling, ChromaSampling::Cs400)
}

fn is_full(range: PixelRange) -> bool
    ensures { result ≡ is_full range }
{
    matches!(range, PixelRange::Full)
}

#[tactic(auto, unfolding(crate::specs::SequenceRules::srgb_fits))]
fn srgb_fits(seq: &Sequence) -> bool
    ensures { result ≡ srgb_fits seq.now }
{
    !is_srgb(seq.color_description)
        || is_monochrome(seq.chroma_sampling)
        || (is_full(seq.pixel_range) && in_high(seq.chroma_sampling))
}

#[tactic(auto, unfolding(crate::specs::SequenceRules::position_fits))]
fn position_fits(seq: &Sequence) -> bool
    ensures { result ≡ position_fits seq.now }
{
    seq.chroma_sample_position <= 2
}
