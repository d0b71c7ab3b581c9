// All rules of a frame.
ghost use Rattle.std.specs.Prelude.{◌≡◌};
ghost use Rattle.av1_geometry.specs.Rules.{first_broken};
ghost use Rattle.av1_frame.specs.FrameRules.{frame_rules, coding_rules};

use crate::filter_rules::{cdef_fits, deblock_fits, restoration_fits};
use crate::frame::FrameInvariants;
use crate::grain_rules::grain_fits;
use crate::header_rules::{broken_header_rule, sides_fit};
use crate::motion_rules::{global_motion_fits, reference_mode_fits};
use crate::reference::Refs;
use crate::segment_rules::{quantizer_fits, segmentation_fits};
use crate::state::FrameState;
use crate::tile_rules::broken_tile_rule;
use av1_geometry::Rule;

/// The broken rule of a frame with the lowest number, 20 to 43, whatever the values are.
#[tactic(auto, using(crate::proofs::Broken::broken))]
pub fn check_frame(fi: &FrameInvariants, fs: &FrameState, refs: &Refs) -> Option<Rule>
    ensures { result ≡ first_broken (frame_rules fi.now fs.now refs.now) }
{
    if !sides_fit(fi) {
        return Some(Rule(20));
    }
    let of_header = broken_header_rule(fi, refs);
    if of_header.is_some() {
        return of_header;
    }
    let of_tiles = broken_tile_rule(fi, fs);
    if of_tiles.is_some() {
        return of_tiles;
    }
    broken_coding_rule(fi, fs)
}

// The first rule from 36 to 43 that is broken.
#[tactic(auto, unfolding(crate::specs::FrameRules::coding_rules))]
fn broken_coding_rule(fi: &FrameInvariants, fs: &FrameState) -> Option<Rule>
    ensures { result ≡ first_broken (coding_rules fi.now fs.now) }
{
    if !quantizer_fits(fi) {
        return Some(Rule(36));
    }
    if !segmentation_fits(fi, &fs.segmentation) {
        return Some(Rule(37));
    }
    if !deblock_fits(&fs.deblock) {
        return Some(Rule(38));
    }
    if !cdef_fits(fi) {
        return Some(Rule(39));
    }
    if !restoration_fits(fi, &fs.restoration) {
        return Some(Rule(40));
    }
    if !reference_mode_fits(fi) {
        return Some(Rule(41));
    }
    if !global_motion_fits(fi) {
        return Some(Rule(42));
    }
    if !grain_fits(&fi.sequence, &fi.film_grain) {
        return Some(Rule(43));
    }
    None
}
