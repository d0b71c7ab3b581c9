// The rules of reference modes and of global motion.
ghost use Rattle.std.specs.Prelude.{◌≡◌};
ghost use Rattle.av1_frame.specs.MotionRules.{mode_fits, reference_mode_fits, is_plain, global_motion_fits};

use crate::frame::FrameInvariants;
use av1_geometry::{GlobalMVMode, ReferenceMode};

fn mode_fits(mode: ReferenceMode, intra: bool) -> bool
    ensures { result ≡ mode_fits mode intra }
{
    match mode {
        ReferenceMode::SINGLE => true,
        ReferenceMode::COMPOUND => false,
        ReferenceMode::SELECT => !intra,
    }
}

#[tactic(auto, unfolding(crate::specs::MotionRules::reference_mode_fits))]
pub(crate) fn reference_mode_fits(fi: &FrameInvariants) -> bool
    ensures { result ≡ reference_mode_fits fi.now }
{
    mode_fits(fi.reference_mode, fi.intra_only)
}

fn is_plain(mode: GlobalMVMode) -> bool
    ensures { result ≡ is_plain mode }
{
    matches!(mode, GlobalMVMode::IDENTITY | GlobalMVMode::TRANSLATION)
}

#[tactic(auto, unfolding(crate::specs::MotionRules::global_motion_fits))]
pub(crate) fn global_motion_fits(fi: &FrameInvariants) -> bool
    ensures { result ≡ global_motion_fits fi.now }
{
    fi.globalmv_transformation_type
        .iter()
        .all(|mode| is_plain(*mode))
}
