// Of references, inter modes and candidate lists.
#![tactic(auto, unfolding(crate::specs::Layout::slot, crate::specs::Runs::has_run))]

ghost use Rattle.std.specs.Prelude.{◌≡◌, ◌<◌, [], ◌∷◌, codes};
ghost use Rattle.av1_cdf.specs.Layout.{slot};
ghost use Rattle.av1_cdf.specs.Slots.{slot_of};

use crate::cdf_context::CDFContext;
use crate::cdf_offset::CDFOffset;
use crate::layout::{
    COMP_BWD_REF_CDF, COMP_MODE_CDF, COMP_REF_CDF, COMP_REF_TYPE_CDF, COMPOUND_MODE_CDF, DRL_CDFS,
    INTRA_INTER_CDFS, NEWMV_CDF, REFMV_CDF, SINGLE_REF_CDFS, ZEROMV_CDF,
};

impl CDFContext {
    /// A backward reference of a compound block, by context and decision. Shape 3x2x2.
    #[inline(always)]
    pub fn comp_bwd_ref_cdf(ctx: usize, decision: usize) -> CDFOffset
        requires ctx { ctx < 3 }
        requires decision { decision < 2 }
        ensures { slot_of result ≡ slot (codes "comp_bwd_ref_cdf") (ctx ∷ decision ∷ []) }
    {
        COMP_BWD_REF_CDF.cdf(ctx * 2 + decision)
    }

    /// Whether a block has two references. Shape 5x2.
    #[inline(always)]
    pub fn comp_mode_cdf(ctx: usize) -> CDFOffset
        requires { ctx < 5 }
        ensures { slot_of result ≡ slot (codes "comp_mode_cdf") (ctx ∷ []) }
    {
        COMP_MODE_CDF.cdf(ctx)
    }

    /// A forward reference of a compound block, by context and decision. Shape 3x3x2.
    #[inline(always)]
    pub fn comp_ref_cdf(ctx: usize, decision: usize) -> CDFOffset
        requires ctx { ctx < 3 }
        requires decision { decision < 3 }
        ensures { slot_of result ≡ slot (codes "comp_ref_cdf") (ctx ∷ decision ∷ []) }
    {
        COMP_REF_CDF.cdf(ctx * 3 + decision)
    }

    /// Whether two references look the same way. Shape 5x2.
    #[inline(always)]
    pub fn comp_ref_type_cdf(ctx: usize) -> CDFOffset
        requires { ctx < 5 }
        ensures { slot_of result ≡ slot (codes "comp_ref_type_cdf") (ctx ∷ []) }
    {
        COMP_REF_TYPE_CDF.cdf(ctx)
    }

    /// The mode of a compound block. Shape 8x8.
    #[inline(always)]
    pub fn compound_mode_cdf(ctx: usize) -> CDFOffset
        requires { ctx < 8 }
        ensures { slot_of result ≡ slot (codes "compound_mode_cdf") (ctx ∷ []) }
    {
        COMPOUND_MODE_CDF.cdf(ctx)
    }

    /// Whether a later candidate is taken. Shape 3x2.
    #[inline(always)]
    pub fn drl_cdfs(ctx: usize) -> CDFOffset
        requires { ctx < 3 }
        ensures { slot_of result ≡ slot (codes "drl_cdfs") (ctx ∷ []) }
    {
        DRL_CDFS.cdf(ctx)
    }

    /// Whether a block is inter. Shape 4x2.
    #[inline(always)]
    pub fn intra_inter_cdfs(ctx: usize) -> CDFOffset
        requires { ctx < 4 }
        ensures { slot_of result ≡ slot (codes "intra_inter_cdfs") (ctx ∷ []) }
    {
        INTRA_INTER_CDFS.cdf(ctx)
    }

    /// Whether a mode is another than NEWMV. Shape 6x2.
    #[inline(always)]
    pub fn newmv_cdf(ctx: usize) -> CDFOffset
        requires { ctx < 6 }
        ensures { slot_of result ≡ slot (codes "newmv_cdf") (ctx ∷ []) }
    {
        NEWMV_CDF.cdf(ctx)
    }

    /// Whether a mode is NEARMV rather than NEARESTMV. Shape 6x2.
    #[inline(always)]
    pub fn refmv_cdf(ctx: usize) -> CDFOffset
        requires { ctx < 6 }
        ensures { slot_of result ≡ slot (codes "refmv_cdf") (ctx ∷ []) }
    {
        REFMV_CDF.cdf(ctx)
    }

    /// The one reference of a block, by context and decision. Shape 3x6x2.
    #[inline(always)]
    pub fn single_ref_cdfs(ctx: usize, decision: usize) -> CDFOffset
        requires ctx { ctx < 3 }
        requires decision { decision < 6 }
        ensures { slot_of result ≡ slot (codes "single_ref_cdfs") (ctx ∷ decision ∷ []) }
    {
        SINGLE_REF_CDFS.cdf(ctx * 6 + decision)
    }

    /// Whether a mode is another than GLOBALMV. Shape 2x2.
    #[inline(always)]
    pub fn zeromv_cdf(ctx: usize) -> CDFOffset
        requires { ctx < 2 }
        ensures { slot_of result ≡ slot (codes "zeromv_cdf") (ctx ∷ []) }
    {
        ZEROMV_CDF.cdf(ctx)
    }
}
