// What loop restoration costs, by distributions that stay as they are.
ghost use Rattle.std.specs.Prelude.{◌≡◌, ℕ, List, ◌+◌, ◌*◌, ◌<◌, ◌≤◌, ℤ, [], codes, length};
ghost use Rattle.av1_cdf.specs.Context.{contents};
ghost use Rattle.av1_cdf.specs.Layout.{slot};
ghost use Rattle.av1_geometry.specs.declared.constants.TheConstants.{SGRPROJ_XQD_MIN, SGRPROJ_XQD_MAX};
ghost use Rattle.av1_model.specs.Cdf.{IsCdf};
ghost use Rattle.av1_model.specs.Position.{interval_of};
ghost use Rattle.av1_syntax.specs.Restoration.{plane_at, number_at, IsBetween, AreWithin};
ghost use Rattle.av1_syntax.specs.Restoration.{near_word, weight_by, flat_bits_by, IsCounted, IsCost, IsFilterCost};

use crate::context_writer::ContextWriter;
use crate::restoration::{RestorationFilter, TileRestorationState, has_pass};
use av1_cdf::CDFContext;
use av1_ec::Writer;
use av1_geometry::{SGRPROJ_PRJ_SUBEXP_K, SGRPROJ_XQD_MAX, SGRPROJ_XQD_MIN};

/// Counts what loop restoration takes, without a write (rav1e, `context/frame_header.rs`).
pub trait CountLrf {
    /// The numbers of the distributions.
    ghost numbers: { Self → List ℕ };

    /// What the filter of a unit would take here in plane `pli`, where the kinds of filters are switched, in eighths of a
    /// bit: that of its symbol, and 8 for each flat bit. The filter is not a Wiener filter.
    fn count_lrf_switchable<W: Writer>(
        &self,
        w: &W,
        rs: &TileRestorationState,
        filter: RestorationFilter,
        pli: usize,
    ) -> u32
        requires plane { pli < 3 }
        requires filter { IsCounted filter }
        requires references { AreWithin 2 SGRPROJ_XQD_MIN SGRPROJ_XQD_MAX (plane_at rs.now pli).sgrproj_ref }
        requires cdf { IsCdf (contents (numbers self.now) (slot (codes "lrf_switchable_cdf") [])) }
        ensures { IsFilterCost (interval_of (W.position w.now)) (numbers self.now) (plane_at rs.now pli) filter result };
}

impl CountLrf for CDFContext {
    ghost numbers = { λ context. context };

    fn count_lrf_switchable<W: Writer>(
        &self,
        w: &W,
        rs: &TileRestorationState,
        filter: RestorationFilter,
        pli: usize,
    ) -> u32 {
        let refs = rs.planes[pli].sgrproj_ref;
        let cdf = self.values_of(CDFContext::lrf_switchable_cdf());
        symbol_cost(w, filter.kind(), cdf) + flat_cost(w, refs, filter)
    }
}

impl ContextWriter {
    /// What the filter of a unit would take here in plane `pli`, by the context as it is: `CountLrf`.
    pub fn count_lrf_switchable<W: Writer>(
        &self,
        w: &W,
        rs: &TileRestorationState,
        filter: RestorationFilter,
        pli: usize,
    ) -> u32
        requires plane { pli < 3 }
        requires filter { IsCounted filter }
        requires references { AreWithin 2 SGRPROJ_XQD_MIN SGRPROJ_XQD_MAX (plane_at rs.now pli).sgrproj_ref }
        requires cdf { IsCdf (contents self.now.fc (slot (codes "lrf_switchable_cdf") [])) }
        ensures { IsFilterCost (interval_of (W.position w.now)) self.now.fc (plane_at rs.now pli) filter result }
    {
        self.fc.count_lrf_switchable(w, rs, filter, pli)
    }
}

// What a symbol takes, in eighths of a bit.
fn symbol_cost<W: Writer>(w: &W, s: u32, cdf: &[u16]) -> u32
    requires cdf { IsCdf cdf.now }
    requires s { s < length cdf.now }
    ensures value { IsCost (interval_of (W.position w.now)) cdf.now s 0 result }
    ensures few { result ≤ 111 }
{
    w.symbol_bits(s, cdf)
}

// What the flat bits of a filter take.
fn flat_cost<W: Writer>(w: &W, refs: [i8; 2], filter: RestorationFilter) -> u32
    requires filter { IsCounted filter }
    requires references { AreWithin 2 SGRPROJ_XQD_MIN SGRPROJ_XQD_MAX refs }
    ensures value { result ≡ 8 * flat_bits_by refs filter }
    ensures few { result ≤ 816 }
{
    match filter {
        RestorationFilter::Sgrproj { set, xqd } => {
            32 + weight_cost(w, set, 0, refs[0], xqd[0]) + weight_cost(w, set, 1, refs[1], xqd[1])
        }
        _ => 0,
    }
}

// What the weight of a pass takes, where the set has that pass.
fn weight_cost<W: Writer>(w: &W, set: u8, pass: usize, reference: i8, weight: i8) -> u32
    requires set { set < 16 }
    requires pass { pass < 2 }
    requires reference { IsBetween (number_at SGRPROJ_XQD_MIN pass) (number_at SGRPROJ_XQD_MAX pass) reference }
    requires within { IsBetween (number_at SGRPROJ_XQD_MIN pass) (number_at SGRPROJ_XQD_MAX pass) weight }
    ensures value { result ≡ 8 * length ((weight_by set pass reference).symbols weight) }
    ensures few { result ≤ 392 }
{
    if !has_pass(set, pass) {
        return 0;
    }
    let (least, greatest) = (SGRPROJ_XQD_MIN[pass], SGRPROJ_XQD_MAX[pass]);
    near_cost(w, least, greatest, SGRPROJ_PRJ_SUBEXP_K, reference, weight)
}

// What a number takes by its distance from a reference.
fn near_cost<W: Writer>(w: &W, least: i8, greatest: i8, k: u8, reference: i8, v: i8) -> u32
    requires k { k ≤ 16 }
    requires reference { IsBetween least greatest reference }
    requires within { IsBetween least greatest v }
    ensures value { result ≡ 8 * length (near_word least greatest k reference v) }
    ensures few { result ≤ 392 }
{
    w.count_signed_subexp_with_ref(
        i32::from(v),
        i32::from(least),
        i32::from(greatest) + 1,
        k,
        i32::from(reference),
    )
}
