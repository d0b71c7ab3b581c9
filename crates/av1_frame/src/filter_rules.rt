// The rules of filters.
ghost use Rattle.std.specs.Prelude.{◌≡◌};
ghost use Rattle.std.specs.List.{list_all};
ghost use Rattle.av1_frame.specs.FilterRules.{deblock_fits, six_bits, level_delta_fits, cdef_fits};
ghost use Rattle.av1_frame.specs.FilterRules.{is_restored, chroma_is_restored, units_fit, type_fits, restoration_fits};
ghost use Rattle.av1_frame.specs.SequenceRules.{is_420};

use crate::frame::FrameInvariants;
use crate::sequence_rules::is_420;
use crate::state::{DeblockState, RestorationPlaneConfig, RestorationState};
use av1_geometry::{ChromaSampling, RESTORE_NONE, RESTORE_SGRPROJ};

fn six_bits(n: u8) -> bool
    ensures { result ≡ six_bits n }
{
    n < 64
}

fn all_six_bits(numbers: &[u8]) -> bool
    ensures { result ≡ list_all six_bits numbers.now }
{
    numbers.iter().all(|n| six_bits(*n))
}

fn level_delta_fits(delta: i8) -> bool
    ensures { result ≡ level_delta_fits delta }
{
    -64 <= delta && delta <= 63
}

fn level_deltas_fit(deltas: &[i8]) -> bool
    ensures { result ≡ list_all level_delta_fits deltas.now }
{
    deltas.iter().all(|delta| level_delta_fits(*delta))
}

#[tactic(auto, unfolding(crate::specs::FilterRules::deblock_fits))]
pub(crate) fn deblock_fits(d: &DeblockState) -> bool
    ensures { result ≡ deblock_fits d.now }
{
    all_six_bits(&d.levels)
        && d.sharpness <= 7
        && level_deltas_fit(&d.ref_deltas)
        && level_deltas_fit(&d.mode_deltas)
        && d.block_delta_shift <= 3
}

#[tactic(auto, unfolding(crate::specs::FilterRules::cdef_fits))]
pub(crate) fn cdef_fits(fi: &FrameInvariants) -> bool
    ensures { result ≡ cdef_fits fi.now }
{
    !fi.sequence.enable_cdef
        || (3 <= fi.cdef_damping
            && fi.cdef_damping <= 6
            && fi.cdef_bits <= 3
            && all_six_bits(&fi.cdef_y_strengths)
            && all_six_bits(&fi.cdef_uv_strengths))
}

fn is_restored(plane: &RestorationPlaneConfig) -> bool
    ensures { result ≡ is_restored plane.now }
{
    plane.lrf_type != RESTORE_NONE
}

fn chroma_is_restored(rs: &RestorationState) -> bool
    ensures { result ≡ chroma_is_restored rs.now }
{
    is_restored(&rs.planes[1]) || is_restored(&rs.planes[2])
}

fn units_fit(sampling: ChromaSampling, rs: &RestorationState) -> bool
    ensures { result ≡ units_fit sampling rs.now }
{
    let luma = rs.planes[0].unit_size;
    let chroma = rs.planes[1].unit_size;
    (luma == 64 || luma == 128 || luma == 256)
        && chroma == rs.planes[2].unit_size
        && (chroma == luma || (is_420(sampling) && chroma_is_restored(rs) && chroma == luma / 2))
}

fn types_fit(planes: &[RestorationPlaneConfig; 3]) -> bool
    ensures { result ≡ list_all type_fits planes.now }
{
    planes.iter().all(|plane| plane.lrf_type <= RESTORE_SGRPROJ)
}

#[tactic(auto, unfolding(crate::specs::FilterRules::restoration_fits))]
pub(crate) fn restoration_fits(fi: &FrameInvariants, rs: &RestorationState) -> bool
    ensures { result ≡ restoration_fits fi.now rs.now }
{
    let restored = is_restored(&rs.planes[0]) || chroma_is_restored(rs);
    let types = types_fit(&rs.planes);
    let units = units_fit(fi.sequence.chroma_sampling, rs);
    types && (!restored || (fi.sequence.enable_restoration && units))
}
