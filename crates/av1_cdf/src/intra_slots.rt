// Of intra modes, chroma from luma and palettes.
#![tactic(auto, unfolding(crate::specs::Layout::slot, crate::specs::Runs::has_run))]

ghost use Rattle.std.specs.Prelude.{◌≡◌, ◌<◌, [], ◌∷◌, codes};
ghost use Rattle.av1_cdf.specs.Layout.{slot};
ghost use Rattle.av1_cdf.specs.Slots.{slot_of};

use crate::cdf_context::CDFContext;
use crate::cdf_offset::CDFOffset;
use crate::layout::{
    ANGLE_DELTA_CDF, CFL_ALPHA_CDF, CFL_SIGN_CDF, FILTER_INTRA_CDFS, KF_Y_CDF,
    PALETTE_UV_MODE_CDFS, PALETTE_Y_MODE_CDFS, UV_MODE_CDF, UV_MODE_CFL_CDF, Y_MODE_CDF,
};

impl CDFContext {
    /// The angle of a directional mode, by the mode minus V_PRED. Shape 8x7.
    #[inline(always)]
    pub fn angle_delta_cdf(mode: usize) -> CDFOffset
        requires { mode < 8 }
        ensures { slot_of result ≡ slot (codes "angle_delta_cdf") (mode ∷ []) }
    {
        ANGLE_DELTA_CDF.cdf(mode)
    }

    /// The size of a factor of chroma from luma. Shape 6x16.
    #[inline(always)]
    pub fn cfl_alpha_cdf(ctx: usize) -> CDFOffset
        requires { ctx < 6 }
        ensures { slot_of result ≡ slot (codes "cfl_alpha_cdf") (ctx ∷ []) }
    {
        CFL_ALPHA_CDF.cdf(ctx)
    }

    /// The signs of both factors of chroma from luma. Shape 8.
    #[inline(always)]
    pub fn cfl_sign_cdf() -> CDFOffset
        ensures { slot_of result ≡ slot (codes "cfl_sign_cdf") [] }
    {
        CFL_SIGN_CDF.cdf(0)
    }

    /// Whether a block has filter intra, by its size. Shape 22x2.
    #[inline(always)]
    pub fn filter_intra_cdfs(bsize: usize) -> CDFOffset
        requires { bsize < 22 }
        ensures { slot_of result ≡ slot (codes "filter_intra_cdfs") (bsize ∷ []) }
    {
        FILTER_INTRA_CDFS.cdf(bsize)
    }

    /// The luma mode in a key frame, by the contexts of the modes above and left. Shape 5x5x13.
    #[inline(always)]
    pub fn kf_y_cdf(above: usize, left: usize) -> CDFOffset
        requires above { above < 5 }
        requires left { left < 5 }
        ensures { slot_of result ≡ slot (codes "kf_y_cdf") (above ∷ left ∷ []) }
    {
        KF_Y_CDF.cdf(above * 5 + left)
    }

    /// Whether chroma has a palette. Shape 2x2.
    #[inline(always)]
    pub fn palette_uv_mode_cdfs(ctx: usize) -> CDFOffset
        requires { ctx < 2 }
        ensures { slot_of result ≡ slot (codes "palette_uv_mode_cdfs") (ctx ∷ []) }
    {
        PALETTE_UV_MODE_CDFS.cdf(ctx)
    }

    /// Whether luma has a palette, by the context of the size and of the neighbours. Shape 7x3x2.
    #[inline(always)]
    pub fn palette_y_mode_cdfs(bsize_ctx: usize, ctx: usize) -> CDFOffset
        requires bsize_ctx { bsize_ctx < 7 }
        requires ctx { ctx < 3 }
        ensures { slot_of result ≡ slot (codes "palette_y_mode_cdfs") (bsize_ctx ∷ ctx ∷ []) }
    {
        PALETTE_Y_MODE_CDFS.cdf(bsize_ctx * 3 + ctx)
    }

    /// The chroma mode by the luma mode, without chroma from luma. Shape 13x13.
    #[inline(always)]
    pub fn uv_mode_cdf(mode: usize) -> CDFOffset
        requires { mode < 13 }
        ensures { slot_of result ≡ slot (codes "uv_mode_cdf") (mode ∷ []) }
    {
        UV_MODE_CDF.cdf(mode)
    }

    /// The chroma mode by the luma mode, with chroma from luma. Shape 13x14.
    #[inline(always)]
    pub fn uv_mode_cfl_cdf(mode: usize) -> CDFOffset
        requires { mode < 13 }
        ensures { slot_of result ≡ slot (codes "uv_mode_cfl_cdf") (mode ∷ []) }
    {
        UV_MODE_CFL_CDF.cdf(mode)
    }

    /// The luma mode in a frame that is not a key frame, by the group of the size. Shape 4x13.
    #[inline(always)]
    pub fn y_mode_cdf(size_group: usize) -> CDFOffset
        requires { size_group < 4 }
        ensures { slot_of result ≡ slot (codes "y_mode_cdf") (size_group ∷ []) }
    {
        Y_MODE_CDF.cdf(size_group)
    }
}
