// Of coefficients, which differ by quantizer.
#![tactic(auto, unfolding(crate::specs::Layout::slot, crate::specs::Runs::has_run))]

ghost use Rattle.std.specs.Prelude.{◌≡◌, ◌<◌, [], ◌∷◌, codes};
ghost use Rattle.av1_cdf.specs.Layout.{slot};
ghost use Rattle.av1_cdf.specs.Slots.{slot_of};

use crate::cdf_context::CDFContext;
use crate::cdf_offset::CDFOffset;
use crate::layout::{
    COEFF_BASE_CDF, COEFF_BASE_EOB_CDF, COEFF_BR_CDF, DC_SIGN_CDF, EOB_EXTRA_CDF, EOB_FLAG_CDF16,
    EOB_FLAG_CDF32, EOB_FLAG_CDF64, EOB_FLAG_CDF128, EOB_FLAG_CDF256, EOB_FLAG_CDF512,
    EOB_FLAG_CDF1024, TXB_SKIP_CDF,
};

impl CDFContext {
    /// The size of a coefficient, up to 3. Shape 5x2x42x4.
    #[inline(always)]
    pub fn coeff_base_cdf(tx_size: usize, plane_type: usize, ctx: usize) -> CDFOffset
        requires tx_size { tx_size < 5 }
        requires plane_type { plane_type < 2 }
        requires ctx { ctx < 42 }
        ensures { slot_of result ≡ slot (codes "coeff_base_cdf") (tx_size ∷ plane_type ∷ ctx ∷ []) }
    {
        COEFF_BASE_CDF.cdf((tx_size * 2 + plane_type) * 42 + ctx)
    }

    /// The size of the last coefficient, from 1 up to 3. Shape 5x2x4x3.
    #[inline(always)]
    pub fn coeff_base_eob_cdf(tx_size: usize, plane_type: usize, ctx: usize) -> CDFOffset
        requires tx_size { tx_size < 5 }
        requires plane_type { plane_type < 2 }
        requires ctx { ctx < 4 }
        ensures { slot_of result ≡ slot (codes "coeff_base_eob_cdf") (tx_size ∷ plane_type ∷ ctx ∷ []) }
    {
        COEFF_BASE_EOB_CDF.cdf((tx_size * 2 + plane_type) * 4 + ctx)
    }

    /// What a coefficient has above 3, in steps of up to 3. Shape 5x2x21x4.
    #[inline(always)]
    pub fn coeff_br_cdf(tx_size: usize, plane_type: usize, ctx: usize) -> CDFOffset
        requires tx_size { tx_size < 5 }
        requires plane_type { plane_type < 2 }
        requires ctx { ctx < 21 }
        ensures { slot_of result ≡ slot (codes "coeff_br_cdf") (tx_size ∷ plane_type ∷ ctx ∷ []) }
    {
        COEFF_BR_CDF.cdf((tx_size * 2 + plane_type) * 21 + ctx)
    }

    /// The sign of the first coefficient. Shape 2x3x2.
    #[inline(always)]
    pub fn dc_sign_cdf(plane_type: usize, ctx: usize) -> CDFOffset
        requires plane_type { plane_type < 2 }
        requires ctx { ctx < 3 }
        ensures { slot_of result ≡ slot (codes "dc_sign_cdf") (plane_type ∷ ctx ∷ []) }
    {
        DC_SIGN_CDF.cdf(plane_type * 3 + ctx)
    }

    /// The top bit of the place in an end-of-block class, by the class minus 3. Shape 5x2x9x2.
    #[inline(always)]
    pub fn eob_extra_cdf(tx_size: usize, plane_type: usize, ctx: usize) -> CDFOffset
        requires tx_size { tx_size < 5 }
        requires plane_type { plane_type < 2 }
        requires ctx { ctx < 9 }
        ensures { slot_of result ≡ slot (codes "eob_extra_cdf") (tx_size ∷ plane_type ∷ ctx ∷ []) }
    {
        EOB_EXTRA_CDF.cdf((tx_size * 2 + plane_type) * 9 + ctx)
    }

    /// The end-of-block class of 1024 coefficients, by whether the class of the type is not 2D. Shape 2x2x11.
    #[inline(always)]
    pub fn eob_flag_cdf1024(plane_type: usize, ctx: usize) -> CDFOffset
        requires plane_type { plane_type < 2 }
        requires ctx { ctx < 2 }
        ensures { slot_of result ≡ slot (codes "eob_flag_cdf1024") (plane_type ∷ ctx ∷ []) }
    {
        EOB_FLAG_CDF1024.cdf(plane_type * 2 + ctx)
    }

    /// The end-of-block class of 128 coefficients, by whether the class of the type is not 2D. Shape 2x2x8.
    #[inline(always)]
    pub fn eob_flag_cdf128(plane_type: usize, ctx: usize) -> CDFOffset
        requires plane_type { plane_type < 2 }
        requires ctx { ctx < 2 }
        ensures { slot_of result ≡ slot (codes "eob_flag_cdf128") (plane_type ∷ ctx ∷ []) }
    {
        EOB_FLAG_CDF128.cdf(plane_type * 2 + ctx)
    }

    /// The end-of-block class of 16 coefficients, by whether the class of the type is not 2D. Shape 2x2x5.
    #[inline(always)]
    pub fn eob_flag_cdf16(plane_type: usize, ctx: usize) -> CDFOffset
        requires plane_type { plane_type < 2 }
        requires ctx { ctx < 2 }
        ensures { slot_of result ≡ slot (codes "eob_flag_cdf16") (plane_type ∷ ctx ∷ []) }
    {
        EOB_FLAG_CDF16.cdf(plane_type * 2 + ctx)
    }

    /// The end-of-block class of 256 coefficients, by whether the class of the type is not 2D. Shape 2x2x9.
    #[inline(always)]
    pub fn eob_flag_cdf256(plane_type: usize, ctx: usize) -> CDFOffset
        requires plane_type { plane_type < 2 }
        requires ctx { ctx < 2 }
        ensures { slot_of result ≡ slot (codes "eob_flag_cdf256") (plane_type ∷ ctx ∷ []) }
    {
        EOB_FLAG_CDF256.cdf(plane_type * 2 + ctx)
    }

    /// The end-of-block class of 32 coefficients, by whether the class of the type is not 2D. Shape 2x2x6.
    #[inline(always)]
    pub fn eob_flag_cdf32(plane_type: usize, ctx: usize) -> CDFOffset
        requires plane_type { plane_type < 2 }
        requires ctx { ctx < 2 }
        ensures { slot_of result ≡ slot (codes "eob_flag_cdf32") (plane_type ∷ ctx ∷ []) }
    {
        EOB_FLAG_CDF32.cdf(plane_type * 2 + ctx)
    }

    /// The end-of-block class of 512 coefficients, by whether the class of the type is not 2D. Shape 2x2x10.
    #[inline(always)]
    pub fn eob_flag_cdf512(plane_type: usize, ctx: usize) -> CDFOffset
        requires plane_type { plane_type < 2 }
        requires ctx { ctx < 2 }
        ensures { slot_of result ≡ slot (codes "eob_flag_cdf512") (plane_type ∷ ctx ∷ []) }
    {
        EOB_FLAG_CDF512.cdf(plane_type * 2 + ctx)
    }

    /// The end-of-block class of 64 coefficients, by whether the class of the type is not 2D. Shape 2x2x7.
    #[inline(always)]
    pub fn eob_flag_cdf64(plane_type: usize, ctx: usize) -> CDFOffset
        requires plane_type { plane_type < 2 }
        requires ctx { ctx < 2 }
        ensures { slot_of result ≡ slot (codes "eob_flag_cdf64") (plane_type ∷ ctx ∷ []) }
    {
        EOB_FLAG_CDF64.cdf(plane_type * 2 + ctx)
    }

    /// Whether a transform block has no coefficients. Shape 5x13x2.
    #[inline(always)]
    pub fn txb_skip_cdf(tx_size: usize, ctx: usize) -> CDFOffset
        requires tx_size { tx_size < 5 }
        requires ctx { ctx < 13 }
        ensures { slot_of result ≡ slot (codes "txb_skip_cdf") (tx_size ∷ ctx ∷ []) }
    {
        TXB_SKIP_CDF.cdf(tx_size * 13 + ctx)
    }
}
