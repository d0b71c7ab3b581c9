// Of partitions, flags of blocks, deltas and restoration.
#![tactic(auto, unfolding(crate::specs::Layout::slot, crate::specs::Runs::has_run))]

ghost use Rattle.std.specs.Prelude.{◌≡◌, ◌<◌, [], ◌∷◌, codes};
ghost use Rattle.av1_cdf.specs.Layout.{slot};
ghost use Rattle.av1_cdf.specs.Slots.{slot_of};

use crate::cdf_context::CDFContext;
use crate::cdf_offset::CDFOffset;
use crate::layout::{
    DEBLOCK_DELTA_CDF, DEBLOCK_DELTA_MULTI_CDF, LRF_SGRPROJ_CDF, LRF_SWITCHABLE_CDF,
    LRF_WIENER_CDF, PARTITION_CDF, PARTITION_W8_CDF, PARTITION_W128_CDF, SKIP_CDFS,
    SPATIAL_SEGMENTATION_CDFS,
};

impl CDFContext {
    /// The size of a delta of the loop filter level, up to 3. Shape 4.
    #[inline(always)]
    pub fn deblock_delta_cdf() -> CDFOffset
        ensures { slot_of result ≡ slot (codes "deblock_delta_cdf") [] }
    {
        DEBLOCK_DELTA_CDF.cdf(0)
    }

    /// The size of a delta of one of the loop filter levels, up to 3. Shape 4x4.
    #[inline(always)]
    pub fn deblock_delta_multi_cdf(filter: usize) -> CDFOffset
        requires { filter < 4 }
        ensures { slot_of result ≡ slot (codes "deblock_delta_multi_cdf") (filter ∷ []) }
    {
        DEBLOCK_DELTA_MULTI_CDF.cdf(filter)
    }

    /// Whether a restoration unit has the self-guided filter. Shape 2.
    #[inline(always)]
    pub fn lrf_sgrproj_cdf() -> CDFOffset
        ensures { slot_of result ≡ slot (codes "lrf_sgrproj_cdf") [] }
    {
        LRF_SGRPROJ_CDF.cdf(0)
    }

    /// The filter of a restoration unit, where each unit has its own kind. Shape 3.
    #[inline(always)]
    pub fn lrf_switchable_cdf() -> CDFOffset
        ensures { slot_of result ≡ slot (codes "lrf_switchable_cdf") [] }
    {
        LRF_SWITCHABLE_CDF.cdf(0)
    }

    /// Whether a restoration unit has the Wiener filter. Shape 2.
    #[inline(always)]
    pub fn lrf_wiener_cdf() -> CDFOffset
        ensures { slot_of result ≡ slot (codes "lrf_wiener_cdf") [] }
    {
        LRF_WIENER_CDF.cdf(0)
    }

    /// The partition of a block of 16x16 to 64x64, four contexts for each size. Shape 12x10.
    #[inline(always)]
    pub fn partition_cdf(ctx: usize) -> CDFOffset
        requires { ctx < 12 }
        ensures { slot_of result ≡ slot (codes "partition_cdf") (ctx ∷ []) }
    {
        PARTITION_CDF.cdf(ctx)
    }

    /// The partition of a block of 128x128. Shape 4x8.
    #[inline(always)]
    pub fn partition_w128_cdf(ctx: usize) -> CDFOffset
        requires { ctx < 4 }
        ensures { slot_of result ≡ slot (codes "partition_w128_cdf") (ctx ∷ []) }
    {
        PARTITION_W128_CDF.cdf(ctx)
    }

    /// The partition of a block of 8x8. Shape 4x4.
    #[inline(always)]
    pub fn partition_w8_cdf(ctx: usize) -> CDFOffset
        requires { ctx < 4 }
        ensures { slot_of result ≡ slot (codes "partition_w8_cdf") (ctx ∷ []) }
    {
        PARTITION_W8_CDF.cdf(ctx)
    }

    /// Whether a block has no coefficients. Shape 3x2.
    #[inline(always)]
    pub fn skip_cdfs(ctx: usize) -> CDFOffset
        requires { ctx < 3 }
        ensures { slot_of result ≡ slot (codes "skip_cdfs") (ctx ∷ []) }
    {
        SKIP_CDFS.cdf(ctx)
    }

    /// The segment of a block, against the one predicted. Shape 3x8.
    #[inline(always)]
    pub fn spatial_segmentation_cdfs(ctx: usize) -> CDFOffset
        requires { ctx < 3 }
        ensures { slot_of result ≡ slot (codes "spatial_segmentation_cdfs") (ctx ∷ []) }
    {
        SPATIAL_SEGMENTATION_CDFS.cdf(ctx)
    }
}
