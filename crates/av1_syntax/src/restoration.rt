// The filters of loop restoration, which rav1e codes in `frame_header.rs`.
ghost use Rattle.std.specs.Prelude.{◌≡◌, ℕ, List, ◌+◌, ◌*◌, ◌^◌, ◌<◌, ◌≤◌, ◌≤ℤ◌, ℤ, pos, false, OnOk, OnErr, IsTrue, [], codes, length, nat_eq, slice_set};
ghost use Rattle.av1_cdf.specs.Context.{AreCdfs, contents};
ghost use Rattle.av1_cdf.specs.Layout.{slot};
ghost use Rattle.av1_cdf.specs.Slots.{slot_of};
ghost use Rattle.av1_geometry.specs.declared.constants.TheConstants.{SGRPROJ_XQD_MIN, SGRPROJ_XQD_MAX, WIENER_TAPS_MIN, WIENER_TAPS_MAX};
ghost use Rattle.av1_syntax.specs.Restoration.{plane_at, starting, number_at, kind_of, kinds, kind_symbol, kind_slot, renewed, renewed_taps};
ghost use Rattle.av1_syntax.specs.Restoration.{has_radius, unused_weight, has_tap, weight_by, tap_by, IsBetween, AreWithin, AreReferences};
ghost use Rattle.av1_syntax.specs.Restoration.{HasReferences, AreWeights, ArePassTaps, AreTaps, IsKindOf, IsFilterOf};

use crate::context_writer::ContextWriter;
use av1_cdf::{CDFContext, CDFOffset};
use av1_ec::Writer;
use av1_geometry::{
    OutOfMemory, RESTORE_NONE, RESTORE_SWITCHABLE, RESTORE_WIENER, SGRPROJ_PARAMS_BITS,
    SGRPROJ_PRJ_SUBEXP_K, SGRPROJ_RADII, SGRPROJ_XQD_MAX, SGRPROJ_XQD_MID, SGRPROJ_XQD_MIN,
    WIENER_TAPS_MAX, WIENER_TAPS_MID, WIENER_TAPS_MIN,
};

/// The filter of a restoration unit (rav1e, `lrf.rs`).
#[derive(Clone, Copy, Debug, PartialEq, Eq)]
pub enum RestorationFilter {
    None,
    /// The first three taps of the vertical and of the horizontal pass; in chroma the first one is 0.
    Wiener { coeffs: [[i8; 3]; 2] },
    /// One of 16 sets of parameters, and the weights of both passes.
    Sgrproj { set: u8, xqd: [i8; 2] },
}

/// What the next filters of a plane refer to: the weights and the taps that were coded last.
#[derive(Clone, Copy, Debug, PartialEq, Eq)]
pub struct RestorationPlane {
    /// Which filters the plane has: `RESTORE_NONE`, `RESTORE_SWITCHABLE`, `RESTORE_WIENER` or `RESTORE_SGRPROJ`.
    pub lrf_type: u8,
    pub sgrproj_ref: [i8; 2],
    pub wiener_ref: [[i8; 3]; 2],
}

impl RestorationPlane {
    /// A plane with filters of a type, as a tile begins.
    pub fn new(lrf_type: u8) -> Self
        ensures { result ≡ starting lrf_type }
    {
        RestorationPlane {
            lrf_type,
            sgrproj_ref: SGRPROJ_XQD_MID,
            wiener_ref: [WIENER_TAPS_MID; 2],
        }
    }
}

/// The three planes of a tile.
#[derive(Clone, Copy, Debug, PartialEq, Eq)]
pub struct TileRestorationState {
    pub planes: [RestorationPlane; 3],
}

impl RestorationFilter {
    // No filter, a Wiener filter, a self-guided one.
    pub(crate) fn kind(self) -> u32
        ensures value { result ≡ kind_of self }
        ensures few { result < 3 }
    {
        match self {
            RestorationFilter::None => 0,
            RestorationFilter::Wiener { .. } => 1,
            RestorationFilter::Sgrproj { .. } => 2,
        }
    }
}

impl ContextWriter {
    ghost use Rattle.av1_syntax.specs.Calls.{Coded, Moved};
    ghost use Rattle.av1_syntax.specs.Restoration.{each, kind_element, near_element, weight_element, sgrproj_element};
    ghost use Rattle.av1_syntax.specs.Restoration.{tap_element, wiener_element, filter_element, lrf_element};
    ghost use Rattle.av1_syntax.specs.declared.restoration.RestorationFilter.TheVariants.{Wiener, Sgrproj};

    /// Codes the filter of a restoration unit in plane `pli`, of a kind that the plane's type admits, and by its distance
    /// from the plane's references, which it then replaces (rav1e, `context/frame_header.rs`; AV1 specification, "Read loop
    /// restoration unit syntax"). A refusal leaves the references as they were.
    pub fn write_lrf<W: Writer>(
        &mut self,
        w: &mut W,
        rs: &mut TileRestorationState,
        pli: usize,
        filter: RestorationFilter,
    ) -> Result<(), OutOfMemory>
        requires plane { pli < 3 }
        requires lrf_type { (plane_at rs.old pli).lrf_type ≤ 3 }
        requires references { HasReferences (plane_at rs.old pli) }
        requires filter { IsFilterOf (plane_at rs.old pli).lrf_type (nat_eq pli 0) filter }
        requires cdfs { AreCdfs self.old.fc }
        requires early { (W.position w.old).shift ≤ 2 ^ 28 }
        ensures wrote { Coded W.Known result (lrf_element (plane_at rs.old pli) (nat_eq pli 0)) filter w.old w.new self.old self.new }
        ensures moves { Moved W.Known 3835 w.old w.new self.old self.new }
        ensures rest { self.new.bc ≡ self.old.bc }
        ensures renewed { OnOk result (rs.new.planes ≡ slice_set rs.old.planes pli (renewed (nat_eq pli 0) filter (plane_at rs.old pli))) }
        ensures refused { OnErr result (rs.new ≡ rs.old) }
    {
        let plane = rs.planes[pli];
        self.write_kind(w, plane.lrf_type, filter.kind())?;
        self.write_filter(w, pli == 0, plane, filter)?;
        rs.planes[pli] = renewed(pli == 0, filter, plane);
        Ok(())
    }

    // Codes which kind of filter it is, unless the plane has none.
    fn write_kind<W: Writer>(
        &mut self,
        w: &mut W,
        lrf_type: u8,
        kind: u32,
    ) -> Result<(), OutOfMemory>
        requires lrf_type { lrf_type ≤ 3 }
        requires kind { IsKindOf lrf_type kind }
        requires cdfs { AreCdfs self.old.fc }
        requires shift { (W.position w.old).shift + 13 ≤ 2 ^ 28 + 2 ^ 24 }
        ensures wrote { Coded W.Known result (kind_element lrf_type) kind w.old w.new self.old self.new }
        ensures moves { Moved W.Known 13 w.old w.new self.old self.new }
        ensures rest { self.new.bc ≡ self.old.bc }
    {
        if lrf_type == RESTORE_NONE {
            return Ok(());
        }
        self.symbol(w, kind_symbol(lrf_type, kind), kind_slot(lrf_type))
    }

    // Codes a filter of a kind that is known.
    fn write_filter<W: Writer>(
        &self,
        w: &mut W,
        luma: bool,
        plane: RestorationPlane,
        filter: RestorationFilter,
    ) -> Result<(), OutOfMemory>
        requires references { HasReferences plane }
        requires filter { IsFilterOf plane.lrf_type luma filter }
        requires cdfs { AreCdfs self.now.fc }
        requires shift { (W.position w.old).shift + 3822 ≤ 2 ^ 28 + 2 ^ 24 }
        ensures wrote { Coded W.Known result (filter_element plane luma (kind_of filter)) filter w.old w.new self.now self.now }
        ensures moves { Moved W.Known 3822 w.old w.new self.now self.now }
    {
        match filter {
            RestorationFilter::None => Ok(()),
            RestorationFilter::Wiener { coeffs } => {
                self.write_wiener(w, luma, plane.wiener_ref, coeffs)
            }
            RestorationFilter::Sgrproj { set, xqd } => {
                self.write_sgrproj(w, plane.sgrproj_ref, set, xqd)
            }
        }
    }

    // Codes a Wiener filter: the taps of both passes.
    fn write_wiener<W: Writer>(
        &self,
        w: &mut W,
        luma: bool,
        refs: [[i8; 3]; 2],
        coeffs: [[i8; 3]; 2],
    ) -> Result<(), OutOfMemory>
        requires references { AreReferences refs }
        requires taps { AreTaps luma coeffs }
        requires cdfs { AreCdfs self.now.fc }
        requires shift { (W.position w.old).shift + 3822 ≤ 2 ^ 28 + 2 ^ 24 }
        ensures wrote { Coded W.Known result (wiener_element luma refs) (Wiener coeffs) w.old w.new self.now self.now }
        ensures moves { Moved W.Known 3822 w.old w.new self.now self.now }
    {
        self.write_taps(w, luma, refs[0], coeffs[0])?;
        self.write_taps(w, luma, refs[1], coeffs[1])
    }

    // Codes the taps of a pass.
    fn write_taps<W: Writer>(
        &self,
        w: &mut W,
        luma: bool,
        refs: [i8; 3],
        taps: [i8; 3],
    ) -> Result<(), OutOfMemory>
        requires references { AreWithin 3 WIENER_TAPS_MIN WIENER_TAPS_MAX refs }
        requires taps { ArePassTaps luma taps }
        requires cdfs { AreCdfs self.now.fc }
        requires shift { (W.position w.old).shift + 1911 ≤ 2 ^ 28 + 2 ^ 24 }
        ensures wrote { Coded W.Known result (each (tap_element luma refs) (pos 0) 0 3) taps w.old w.new self.now self.now }
        ensures moves { Moved W.Known 1911 w.old w.new self.now self.now }
    {
        self.write_tap(w, luma, 0, refs[0], taps[0])?;
        self.write_tap(w, luma, 1, refs[1], taps[1])?;
        self.write_tap(w, luma, 2, refs[2], taps[2])
    }

    // Codes a tap, unless it is the first one of chroma.
    fn write_tap<W: Writer>(
        &self,
        w: &mut W,
        luma: bool,
        k: usize,
        reference: i8,
        tap: i8,
    ) -> Result<(), OutOfMemory>
        requires tap { k < 3 }
        requires reference { IsBetween (number_at WIENER_TAPS_MIN k) (number_at WIENER_TAPS_MAX k) reference }
        requires within { IsBetween (number_at WIENER_TAPS_MIN k) (number_at WIENER_TAPS_MAX k) tap }
        requires first { has_tap luma k ≡ false → tap ≡ pos 0 }
        requires cdfs { AreCdfs self.now.fc }
        requires shift { (W.position w.old).shift + 637 ≤ 2 ^ 28 + 2 ^ 24 }
        ensures wrote { Coded W.Known result (tap_by luma k reference) tap w.old w.new self.now self.now }
        ensures moves { Moved W.Known 637 w.old w.new self.now self.now }
    {
        if !luma && k == 0 {
            return Ok(());
        }
        let (least, greatest) = (WIENER_TAPS_MIN[k], WIENER_TAPS_MAX[k]);
        self.write_near(w, least, greatest, k as u8 + 1, reference, tap)
    }

    // Codes a self-guided filter: its set and both weights.
    fn write_sgrproj<W: Writer>(
        &self,
        w: &mut W,
        refs: [i8; 2],
        set: u8,
        xqd: [i8; 2],
    ) -> Result<(), OutOfMemory>
        requires references { AreWithin 2 SGRPROJ_XQD_MIN SGRPROJ_XQD_MAX refs }
        requires set { set < 16 }
        requires weights { AreWeights set xqd }
        requires cdfs { AreCdfs self.now.fc }
        requires shift { (W.position w.old).shift + 1326 ≤ 2 ^ 28 + 2 ^ 24 }
        ensures wrote { Coded W.Known result (sgrproj_element refs) (Sgrproj set xqd) w.old w.new self.now self.now }
        ensures moves { Moved W.Known 1326 w.old w.new self.now self.now }
    {
        self.literal(w, SGRPROJ_PARAMS_BITS, u32::from(set))?;
        self.write_weights(w, refs, set, xqd)
    }

    // Codes both weights.
    fn write_weights<W: Writer>(
        &self,
        w: &mut W,
        refs: [i8; 2],
        set: u8,
        xqd: [i8; 2],
    ) -> Result<(), OutOfMemory>
        requires references { AreWithin 2 SGRPROJ_XQD_MIN SGRPROJ_XQD_MAX refs }
        requires set { set < 16 }
        requires weights { AreWeights set xqd }
        requires cdfs { AreCdfs self.now.fc }
        requires shift { (W.position w.old).shift + 1274 ≤ 2 ^ 28 + 2 ^ 24 }
        ensures wrote { Coded W.Known result (each (weight_element set refs) (pos 0) 0 2) xqd w.old w.new self.now self.now }
        ensures moves { Moved W.Known 1274 w.old w.new self.now self.now }
    {
        self.write_weight(w, set, 0, refs[0], xqd[0])?;
        self.write_weight(w, set, 1, refs[1], xqd[1])
    }

    // Codes the weight of a pass, unless the set has no such pass.
    fn write_weight<W: Writer>(
        &self,
        w: &mut W,
        set: u8,
        pass: usize,
        reference: i8,
        weight: i8,
    ) -> Result<(), OutOfMemory>
        requires set { set < 16 }
        requires pass { pass < 2 }
        requires reference { IsBetween (number_at SGRPROJ_XQD_MIN pass) (number_at SGRPROJ_XQD_MAX pass) reference }
        requires within { IsBetween (number_at SGRPROJ_XQD_MIN pass) (number_at SGRPROJ_XQD_MAX pass) weight }
        requires unused { has_radius set pass ≡ false → weight ≡ unused_weight pass }
        requires cdfs { AreCdfs self.now.fc }
        requires shift { (W.position w.old).shift + 637 ≤ 2 ^ 28 + 2 ^ 24 }
        ensures wrote { Coded W.Known result (weight_by set pass reference) weight w.old w.new self.now self.now }
        ensures moves { Moved W.Known 637 w.old w.new self.now self.now }
    {
        if !has_pass(set, pass) {
            return Ok(());
        }
        let (least, greatest) = (SGRPROJ_XQD_MIN[pass], SGRPROJ_XQD_MAX[pass]);
        self.write_near(w, least, greatest, SGRPROJ_PRJ_SUBEXP_K, reference, weight)
    }

    // Codes a number from a least one to a greatest one by its distance from a reference.
    fn write_near<W: Writer>(
        &self,
        w: &mut W,
        least: i8,
        greatest: i8,
        k: u8,
        reference: i8,
        v: i8,
    ) -> Result<(), OutOfMemory>
        requires k { k ≤ 16 }
        requires reference { IsBetween least greatest reference }
        requires within { IsBetween least greatest v }
        requires cdfs { AreCdfs self.now.fc }
        requires shift { (W.position w.old).shift + 637 ≤ 2 ^ 28 + 2 ^ 24 }
        ensures wrote { Coded W.Known result (near_element least greatest k reference) v w.old w.new self.now self.now }
        ensures moves { Moved W.Known 637 w.old w.new self.now self.now }
    {
        w.write_signed_subexp_with_ref(
            i32::from(v),
            i32::from(least),
            i32::from(greatest) + 1,
            k,
            i32::from(reference),
        )?;
        Ok(())
    }
}

// Whether a set of the self-guided filter has a pass.
pub(crate) fn has_pass(set: u8, pass: usize) -> bool
    requires set { set < 16 }
    requires pass { pass < 2 }
    ensures { result ≡ has_radius set pass }
{
    SGRPROJ_RADII[set as usize][pass] != 0
}

// The symbol of a kind of filter in a plane of a type.
fn kind_symbol(lrf_type: u8, kind: u32) -> u32
    ensures { result ≡ kind_symbol lrf_type kind }
{
    if lrf_type == RESTORE_SWITCHABLE {
        kind
    } else {
        kind.min(1)
    }
}

// What codes the kind of filter in a plane of a type.
fn kind_slot(lrf_type: u8) -> CDFOffset
    ensures is { slot_of result ≡ kind_slot lrf_type }
    ensures len { result.len ≡ length (kinds lrf_type) }
{
    if lrf_type == RESTORE_SWITCHABLE {
        CDFContext::lrf_switchable_cdf()
    } else if lrf_type == RESTORE_WIENER {
        CDFContext::lrf_wiener_cdf()
    } else {
        CDFContext::lrf_sgrproj_cdf()
    }
}

// The plane after a filter.
fn renewed(luma: bool, filter: RestorationFilter, plane: RestorationPlane) -> RestorationPlane
    ensures { result ≡ renewed luma filter plane }
{
    match filter {
        RestorationFilter::None => plane,
        RestorationFilter::Wiener { coeffs } => RestorationPlane {
            wiener_ref: [
                renewed_taps(luma, coeffs[0], plane.wiener_ref[0]),
                renewed_taps(luma, coeffs[1], plane.wiener_ref[1]),
            ],
            ..plane
        },
        RestorationFilter::Sgrproj { xqd, .. } => RestorationPlane {
            sgrproj_ref: xqd,
            ..plane
        },
    }
}

// The taps of a pass after a filter: the first one of chroma stays.
fn renewed_taps(luma: bool, taps: [i8; 3], refs: [i8; 3]) -> [i8; 3]
    ensures { result ≡ renewed_taps luma taps refs }
{
    if luma {
        taps
    } else {
        [refs[0], taps[1], taps[2]]
    }
}
