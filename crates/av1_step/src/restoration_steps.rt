// The step that codes the filter of a unit of loop restoration.
ghost use Rattle.std.specs.Prelude.{◌≡◌, ◌^◌, ◌<◌, ◌≤◌, None, nat_eq};
ghost use Rattle.av1_geometry.specs.ChromaSampling.{planes_of};
ghost use Rattle.av1_syntax.specs.Restoration.{plane_at, has_radius, unused_weight};
ghost use Rattle.av1_step.specs.RestorationSteps.{filter_fits, has_sgrproj, has_wiener, pass_fits, passes_fit, tap_fits, weight_fits, weights_fit};
ghost use Rattle.av1_step.specs.Tile.{first_planes};

use crate::tile::TileState;
use av1_ec::Writer;
use av1_frame::FrameState;
use av1_geometry::{
    OutOfMemory, RESTORE_SGRPROJ, RESTORE_SWITCHABLE, RESTORE_WIENER, Rule, SGRPROJ_RADII,
    SGRPROJ_XQD_MAX, SGRPROJ_XQD_MIN, WIENER_TAPS_MAX, WIENER_TAPS_MIN,
};
use av1_syntax::{RestorationFilter, RestorationPlane, TileRestorationState};

impl<'u> TileState<'u> {
    ghost use Rattle.av1_geometry.specs.Rules.{first_broken};
    ghost use Rattle.av1_step.specs.declared.step.TileStep.TheVariants.{Lrf};
    ghost use Rattle.av1_step.specs.State.{tile_of};
    ghost use Rattle.av1_step.specs.Step.{rules};
    ghost use Rattle.av1_step.specs.Tile.{sampling};
    ghost use Rattle.av1_step.specs.Writing.{Writes};

    // The first rule that the filter of a unit breaks.
    pub(crate) fn check_lrf(&self, plane: usize, filter: RestorationFilter) -> Option<Rule>
        ensures { result ≡ first_broken (rules (Lrf plane filter) (tile_of self.now)) }
    {
        if plane >= self.unit.fi.sequence.chroma_sampling.planes() {
            return Some(Rule(86));
        }
        if self.has_filter(plane, filter) {
            None
        } else {
            Some(Rule(86))
        }
    }

    // Whether a plane that exists can have a filter.
    fn has_filter(&self, plane: usize, filter: RestorationFilter) -> bool
        requires { plane < planes_of (sampling (tile_of self.now)) }
        ensures { result ≡ filter_fits (plane_at (tile_of self.now).rs plane).lrf_type (nat_eq plane 0) filter }
    {
        filter_fits(self.rs.planes[plane].lrf_type, plane == 0, filter)
    }

    // Codes the filter of a unit, to which the next one of its plane refers.
    pub(crate) fn write_lrf<W: Writer>(
        &mut self,
        w: &mut W,
        plane: usize,
        filter: RestorationFilter,
    ) -> Result<(), OutOfMemory>
        requires rules { first_broken (rules (Lrf plane filter) (tile_of self.old)) ≡ None }
        requires early { (W.position w.old).shift ≤ 2 ^ 28 }
        ensures { Writes W.Known result (Lrf plane filter) w.old w.new self.old self.new }
    {
        self.cw.write_lrf(w, &mut self.rs, plane, filter)
    }
}

// What the first filters of a tile refer to, in planes of the frame's types.
pub(crate) fn first_planes(fs: &FrameState) -> TileRestorationState
    ensures { result ≡ first_planes fs.now }
{
    let planes = &fs.restoration.planes;
    TileRestorationState {
        planes: [
            RestorationPlane::new(planes[0].lrf_type),
            RestorationPlane::new(planes[1].lrf_type),
            RestorationPlane::new(planes[2].lrf_type),
        ],
    }
}

// Whether a plane of a type can have a filter.
fn filter_fits(lrf_type: u8, luma: bool, filter: RestorationFilter) -> bool
    ensures { result ≡ filter_fits lrf_type luma filter }
{
    match filter {
        RestorationFilter::None => true,
        RestorationFilter::Wiener { coeffs } => has_wiener(lrf_type) && passes_fit(luma, coeffs),
        RestorationFilter::Sgrproj { set, xqd } => {
            has_sgrproj(lrf_type) && set < 16 && weights_fit(set, xqd)
        }
    }
}

fn has_wiener(lrf_type: u8) -> bool
    ensures { result ≡ has_wiener lrf_type }
{
    lrf_type == RESTORE_SWITCHABLE || lrf_type == RESTORE_WIENER
}

fn has_sgrproj(lrf_type: u8) -> bool
    ensures { result ≡ has_sgrproj lrf_type }
{
    lrf_type == RESTORE_SWITCHABLE || lrf_type == RESTORE_SGRPROJ
}

// Whether the taps of both passes fit.
fn passes_fit(luma: bool, coeffs: [[i8; 3]; 2]) -> bool
    ensures { result ≡ passes_fit luma coeffs }
{
    pass_fits(luma, coeffs[0]) && pass_fits(luma, coeffs[1])
}

fn pass_fits(luma: bool, taps: [i8; 3]) -> bool
    ensures { result ≡ pass_fits luma taps }
{
    tap_fits(luma, 0, taps[0]) && tap_fits(luma, 1, taps[1]) && tap_fits(luma, 2, taps[2])
}

// Whether a tap is in its range, and zero where it is not coded.
fn tap_fits(luma: bool, k: usize, tap: i8) -> bool
    requires { k < 3 }
    ensures { result ≡ tap_fits luma k tap }
{
    WIENER_TAPS_MIN[k] <= tap && tap <= WIENER_TAPS_MAX[k] && (luma || k != 0 || tap == 0)
}

// Whether both weights of a set fit.
fn weights_fit(set: u8, xqd: [i8; 2]) -> bool
    requires { set < 16 }
    ensures { result ≡ weights_fit set xqd }
{
    weight_fits(set, 0, xqd[0]) && weight_fits(set, 1, xqd[1])
}

// Whether a weight is in its range, and the fixed one where the set has no such pass.
fn weight_fits(set: u8, pass: usize, weight: i8) -> bool
    requires set { set < 16 }
    requires pass { pass < 2 }
    ensures { result ≡ weight_fits set pass weight }
{
    SGRPROJ_XQD_MIN[pass] <= weight
        && weight <= SGRPROJ_XQD_MAX[pass]
        && (has_radius(set, pass) || weight == unused_weight(pass))
}

// Whether a set of the self-guided filter has a pass.
fn has_radius(set: u8, pass: usize) -> bool
    requires set { set < 16 }
    requires pass { pass < 2 }
    ensures { result ≡ has_radius set pass }
{
    SGRPROJ_RADII[set as usize][pass] != 0
}

// The weight of a pass that a set has not.
fn unused_weight(pass: usize) -> i8
    ensures { result ≡ unused_weight pass }
{
    if pass == 0 { 0 } else { 95 }
}
