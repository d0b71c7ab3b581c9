// The rules of a frame's kind, sides and references, each a function of its own.
ghost use Rattle.std.specs.Prelude.{◌≡◌, ◌+◌, ◌*◌, ◌^◌, ◌≤◌, nat_lt, is_some, IsTrue};
ghost use Rattle.std.specs.List.{list_all};
ghost use Rattle.av1_geometry.specs.Rules.{first_broken};
ghost use Rattle.av1_frame.specs.FrameKind.{is_key, is_intra_only, is_switch, is_intra, primary_reference};
ghost use Rattle.av1_frame.specs.HeaderRules.{header_rules, sides_fit, blocks, side_fits, frame_is_carried, showing_fits};
ghost use Rattle.av1_frame.specs.HeaderRules.{intra_fits, primary_fits, forces_are_kept, hints_fit, reference_hint_fits};
ghost use Rattle.av1_frame.specs.HeaderRules.{refresh_fits, override_fits, render_fits, place_fits, references_fit, frame_end_fits};

use crate::frame::FrameInvariants;
use crate::reference::{ALL_REF_FRAMES_MASK, PRIMARY_REF_NONE, RefState, Refs};
use av1_geometry::{FrameType, Rule};

/// The longest side of a frame.
const MAX_SIDE: usize = 65536;
/// The most 4x4 blocks that a frame has.
const MAX_BLOCKS: usize = 1 << 22;

// The first rule from 21 to 33 that is broken.
#[tactic(auto, unfolding(crate::specs::HeaderRules::header_rules))]
pub(crate) fn broken_header_rule(fi: &FrameInvariants, refs: &Refs) -> Option<Rule>
    ensures { result ≡ first_broken (header_rules fi.now refs.now) }
{
    if !frame_is_carried(fi) {
        return Some(Rule(21));
    }
    if !showing_fits(fi) {
        return Some(Rule(23));
    }
    if !intra_fits(fi) {
        return Some(Rule(24));
    }
    if !primary_fits(fi, refs) {
        return Some(Rule(25));
    }
    if !forces_are_kept(fi) {
        return Some(Rule(26));
    }
    if !hints_fit(fi, refs) {
        return Some(Rule(27));
    }
    if !refresh_fits(fi) {
        return Some(Rule(28));
    }
    if !override_fits(fi) {
        return Some(Rule(29));
    }
    if !render_fits(fi) {
        return Some(Rule(30));
    }
    if !references_fit(fi) {
        return Some(Rule(31));
    }
    if !frame_end_fits(fi) {
        return Some(Rule(33));
    }
    None
}

fn side_fits(side: usize) -> bool
    ensures value { result ≡ side_fits side }
    ensures known { IsTrue result → (1 ≤ side) × (side ≤ 65536) }
{
    1 <= side && side <= MAX_SIDE
}

// How many 4x4 blocks a side has: whole pairs of them.
fn blocks(side: usize) -> usize
    requires { side ≤ 65536 }
    ensures value { result ≡ blocks side }
    ensures few { result ≤ 16384 }
{
    2 * side.div_ceil(8)
}

#[tactic(auto, unfolding(crate::specs::HeaderRules::sides_fit))]
pub(crate) fn sides_fit(fi: &FrameInvariants) -> bool
    ensures value { result ≡ sides_fit fi.now }
    ensures width { IsTrue result → (1 ≤ fi.now.width) × (fi.now.width ≤ 65536) }
    ensures height { IsTrue result → (1 ≤ fi.now.height) × (fi.now.height ≤ 65536) }
{
    side_fits(fi.width)
        && side_fits(fi.height)
        && blocks(fi.width) * blocks(fi.height) <= MAX_BLOCKS
}

#[tactic(auto, unfolding(crate::specs::HeaderRules::frame_is_carried))]
fn frame_is_carried(fi: &FrameInvariants) -> bool
    ensures { result ≡ frame_is_carried fi.now }
{
    !fi.show_existing_frame && !fi.large_scale_tile && !fi.allow_intrabc && !fi.delta_q_present
}

fn is_key(frame_type: FrameType) -> bool
    ensures { result ≡ is_key frame_type }
{
    matches!(frame_type, FrameType::KEY)
}

fn is_intra_only(frame_type: FrameType) -> bool
    ensures { result ≡ is_intra_only frame_type }
{
    matches!(frame_type, FrameType::INTRA_ONLY)
}

fn is_switch(frame_type: FrameType) -> bool
    ensures { result ≡ is_switch frame_type }
{
    matches!(frame_type, FrameType::SWITCH)
}

fn is_intra(frame_type: FrameType) -> bool
    ensures { result ≡ is_intra frame_type }
{
    matches!(frame_type, FrameType::KEY | FrameType::INTRA_ONLY)
}

#[tactic(auto, unfolding(crate::specs::HeaderRules::showing_fits))]
fn showing_fits(fi: &FrameInvariants) -> bool
    ensures { result ≡ showing_fits fi.now }
{
    let key = is_key(fi.frame_type);
    (!key || fi.show_frame)
        && (!fi.sequence.reduced_still_picture_hdr || (key && !fi.showable_frame))
}

#[tactic(auto, unfolding(crate::specs::HeaderRules::intra_fits))]
fn intra_fits(fi: &FrameInvariants) -> bool
    ensures { result ≡ intra_fits fi.now }
{
    let intra = is_intra(fi.frame_type);
    if fi.intra_only {
        intra && fi.force_integer_mv == 1
    } else {
        !intra
            && fi.force_integer_mv <= 1
            && (fi.allow_screen_content_tools != 0 || fi.force_integer_mv == 0)
    }
}

// Whether the reference whose state a frame takes over is there.
#[tactic(auto, unfolding(crate::specs::FrameKind::primary_reference))]
fn has_primary_reference(fi: &FrameInvariants, refs: &Refs) -> bool
    ensures { result ≡ is_some (primary_reference fi.now refs.now) }
{
    if fi.primary_ref_frame >= PRIMARY_REF_NONE {
        return false;
    }
    let place = usize::from(fi.ref_frames[fi.primary_ref_frame as usize]);
    place < refs.len() && refs[place].is_some()
}

#[tactic(auto, unfolding(crate::specs::HeaderRules::primary_fits))]
fn primary_fits(fi: &FrameInvariants, refs: &Refs) -> bool
    ensures { result ≡ primary_fits fi.now refs.now }
{
    let none = fi.primary_ref_frame == PRIMARY_REF_NONE;
    fi.primary_ref_frame <= PRIMARY_REF_NONE
        && (!(fi.error_resilient || fi.intra_only) || none)
        && (!is_switch(fi.frame_type) || fi.error_resilient)
        && (none || has_primary_reference(fi, refs))
}

#[tactic(auto, unfolding(crate::specs::HeaderRules::forces_are_kept))]
fn forces_are_kept(fi: &FrameInvariants) -> bool
    ensures { result ≡ forces_are_kept fi.now }
{
    let tools = fi.allow_screen_content_tools;
    let seq = &fi.sequence;
    tools <= 1
        && (seq.force_screen_content_tools == 2 || tools == seq.force_screen_content_tools)
        && (tools != 1 || seq.force_integer_mv == 2 || fi.force_integer_mv == seq.force_integer_mv)
}

// Whether a number has one bit more than so many.
#[tactic(auto, using(crate::proofs::Hints::any_number_has))]
fn has_bits(number: u32, bits_minus_1: u32) -> bool
    ensures { result ≡ nat_lt number (2 ^ (bits_minus_1 + 1)) }
{
    bits_minus_1 >= 31 || number < 1 << (bits_minus_1 + 1)
}

fn reference_hint_fits(reference: &Option<RefState>, bits_minus_1: u32) -> bool
    ensures { result ≡ reference_hint_fits (bits_minus_1 + 1) reference.now }
{
    match reference {
        Some(r) => has_bits(r.order_hint, bits_minus_1),
        None => true,
    }
}

fn reference_hints_fit(refs: &Refs, bits_minus_1: u32) -> bool
    ensures { result ≡ list_all (reference_hint_fits (bits_minus_1 + 1)) refs.now }
{
    refs.iter().all(|r| reference_hint_fits(r, bits_minus_1))
}

#[tactic(auto, unfolding(crate::specs::HeaderRules::hints_fit))]
fn hints_fit(fi: &FrameInvariants, refs: &Refs) -> bool
    ensures { result ≡ hints_fit fi.now refs.now }
{
    let bits_minus_1 = fi.sequence.order_hint_bits_minus_1;
    !fi.sequence.enable_order_hint
        || (has_bits(fi.order_hint, bits_minus_1) && reference_hints_fit(refs, bits_minus_1))
}

#[tactic(auto, unfolding(crate::specs::HeaderRules::refresh_fits))]
fn refresh_fits(fi: &FrameInvariants) -> bool
    ensures { result ≡ refresh_fits fi.now }
{
    let all = fi.refresh_frame_flags == ALL_REF_FRAMES_MASK;
    fi.refresh_frame_flags <= ALL_REF_FRAMES_MASK
        && (!(is_key(fi.frame_type) || is_switch(fi.frame_type)) || all)
        && (!is_intra_only(fi.frame_type) || !all)
}

#[tactic(auto, unfolding(crate::specs::HeaderRules::override_fits))]
fn override_fits(fi: &FrameInvariants) -> bool
    ensures { result ≡ override_fits fi.now }
{
    (!fi.sequence.reduced_still_picture_hdr || !fi.frame_size_override_flag)
        && (!is_switch(fi.frame_type) || fi.frame_size_override_flag)
}

#[tactic(auto, unfolding(crate::specs::HeaderRules::render_fits))]
fn render_fits(fi: &FrameInvariants) -> bool
    ensures { result ≡ render_fits fi.now }
{
    side_fits(fi.render_width)
        && side_fits(fi.render_height)
        && (fi.render_and_frame_size_different
            || (fi.render_width == fi.width && fi.render_height == fi.height))
}

fn places_fit(places: &[u8; 7]) -> bool
    ensures { result ≡ list_all place_fits places.now }
{
    places.iter().all(|place| *place <= 7)
}

#[tactic(auto, unfolding(crate::specs::HeaderRules::references_fit))]
fn references_fit(fi: &FrameInvariants) -> bool
    ensures { result ≡ references_fit fi.now }
{
    places_fit(&fi.ref_frames) && fi.default_filter <= 3
}

#[tactic(auto, unfolding(crate::specs::HeaderRules::frame_end_fits))]
fn frame_end_fits(fi: &FrameInvariants) -> bool
    ensures { result ≡ frame_end_fits fi.now }
{
    !(fi.sequence.reduced_still_picture_hdr || fi.disable_cdf_update)
        || fi.disable_frame_end_update_cdf
}
