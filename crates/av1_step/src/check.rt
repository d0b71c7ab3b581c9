// What is wrong with a step.
ghost use Rattle.std.specs.Prelude.{◌≡◌};
ghost use Rattle.av1_step.specs.State.{tile_of};
ghost use Rattle.av1_step.specs.Step.{step_fault};

use crate::tile::TileState;
use crate::{StepFault, TileStep};
use av1_geometry::Rule;

/// The most bits after which a step may begin.
const MOST_BITS: u32 = 1 << 28;

/// What is wrong with a step that would begin in this state after so many bits: `TooLong` after more than 2^28, else the
/// lowest rule that it breaks.
pub fn check_step(state: &TileState, bits: u32, step: &TileStep) -> Option<StepFault>
    ensures { result ≡ step_fault (tile_of state.now) bits step.now }
{
    if bits > MOST_BITS {
        return Some(StepFault::TooLong);
    }
    state.broken_rule(step).map(StepFault::Broken)
}

impl<'u> TileState<'u> {
    ghost use Rattle.av1_geometry.specs.Rules.{first_broken};
    ghost use Rattle.av1_step.specs.Step.{rules};

    // The first rule that a step breaks.
    fn broken_rule(&self, step: &TileStep) -> Option<Rule>
        ensures { result ≡ first_broken (rules step.now (tile_of self.now)) }
    {
        match step {
            TileStep::RowStart => None,
            TileStep::Block { x, y, size } => self.check_block(*x, *y, *size),
            TileStep::Partition { x, y, size, answer } => {
                self.check_partition(*x, *y, *size, *answer)
            }
            TileStep::Skip { answer } => self.check_skip(*answer),
            TileStep::Segment { answer } => self.check_segment(*answer),
            TileStep::IntraModeKf { answer } => self.check_intra_mode_kf(*answer),
            TileStep::UvMode { answer } => self.check_uv_mode(*answer),
            TileStep::IntraMode { answer } => self.check_intra_mode(*answer),
            TileStep::Cdef { answer } => self.check_cdef(*answer),
            TileStep::DeltaLf { answer } => self.check_delta_lf(*answer),
            TileStep::AngleDelta { chroma, answer } => self.check_angle_delta(*chroma, *answer),
            TileStep::CflAlphas { answer } => self.check_cfl_alphas(*answer),
            TileStep::FilterIntra { answer } => self.check_filter_intra(*answer),
            TileStep::Palette { answer } => self.check_palette(*answer),
            TileStep::TxNote => self.check_tx_note(),
            TileStep::TxIntra { answer } => self.check_tx_intra(*answer),
            TileStep::TxInter { answer } => self.check_tx_inter(*answer),
            TileStep::IsInter { answer } => self.check_is_inter(*answer),
            TileStep::RefFrames { answer } => self.check_ref_frames(*answer),
            TileStep::InterMode { answer } => self.check_inter_mode(*answer),
            TileStep::CompoundMode { answer } => self.check_compound_mode(*answer),
            TileStep::Drl { index, answer } => self.check_drl(*index, *answer),
            TileStep::MvRefs { has_tr } => self.check_mv_refs(*has_tr),
            TileStep::Mv { list, answer } => self.check_mv(*list, *answer),
            TileStep::Coeffs {
                plane,
                x,
                y,
                tx_type,
                answer,
            } => self.check_coeffs(*plane, *x, *y, *tx_type, answer),
            TileStep::Lrf { plane, answer } => self.check_lrf(*plane, *answer),
        }
    }
}
