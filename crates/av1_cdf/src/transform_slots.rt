// Of sizes and types of transforms.
#![tactic(auto, unfolding(crate::specs::Layout::slot, crate::specs::Runs::has_run))]

ghost use Rattle.std.specs.Prelude.{◌≡◌, ◌<◌, [], ◌∷◌, codes};
ghost use Rattle.av1_cdf.specs.Layout.{slot};
ghost use Rattle.av1_cdf.specs.Slots.{slot_of};

use crate::cdf_context::CDFContext;
use crate::cdf_offset::CDFOffset;
use crate::layout::{
    INTER_TX_1_CDF, INTER_TX_2_CDF, INTER_TX_3_CDF, INTRA_TX_1_CDF, INTRA_TX_2_CDF,
    TX_SIZE_8X8_CDF, TX_SIZE_CDF, TXFM_PARTITION_CDF,
};

impl CDFContext {
    /// The type of an inter transform among 16, by the square size. Shape 4x16.
    #[inline(always)]
    pub fn inter_tx_1_cdf(tx_size: usize) -> CDFOffset
        requires { tx_size < 4 }
        ensures { slot_of result ≡ slot (codes "inter_tx_1_cdf") (tx_size ∷ []) }
    {
        INTER_TX_1_CDF.cdf(tx_size)
    }

    /// The type of an inter transform among 12, by the square size. Shape 4x12.
    #[inline(always)]
    pub fn inter_tx_2_cdf(tx_size: usize) -> CDFOffset
        requires { tx_size < 4 }
        ensures { slot_of result ≡ slot (codes "inter_tx_2_cdf") (tx_size ∷ []) }
    {
        INTER_TX_2_CDF.cdf(tx_size)
    }

    /// The type of an inter transform among 2, by the square size. Shape 4x2.
    #[inline(always)]
    pub fn inter_tx_3_cdf(tx_size: usize) -> CDFOffset
        requires { tx_size < 4 }
        ensures { slot_of result ≡ slot (codes "inter_tx_3_cdf") (tx_size ∷ []) }
    {
        INTER_TX_3_CDF.cdf(tx_size)
    }

    /// The type of an intra transform among 7, by the square size and the mode. Shape 4x13x7.
    #[inline(always)]
    pub fn intra_tx_1_cdf(tx_size: usize, mode: usize) -> CDFOffset
        requires tx_size { tx_size < 4 }
        requires mode { mode < 13 }
        ensures { slot_of result ≡ slot (codes "intra_tx_1_cdf") (tx_size ∷ mode ∷ []) }
    {
        INTRA_TX_1_CDF.cdf(tx_size * 13 + mode)
    }

    /// The type of an intra transform among 5, by the square size and the mode. Shape 4x13x5.
    #[inline(always)]
    pub fn intra_tx_2_cdf(tx_size: usize, mode: usize) -> CDFOffset
        requires tx_size { tx_size < 4 }
        requires mode { mode < 13 }
        ensures { slot_of result ≡ slot (codes "intra_tx_2_cdf") (tx_size ∷ mode ∷ []) }
    {
        INTRA_TX_2_CDF.cdf(tx_size * 13 + mode)
    }

    /// The depth of a transform in a block with sides of at most 8. Shape 3x2.
    #[inline(always)]
    pub fn tx_size_8x8_cdf(ctx: usize) -> CDFOffset
        requires { ctx < 3 }
        ensures { slot_of result ≡ slot (codes "tx_size_8x8_cdf") (ctx ∷ []) }
    {
        TX_SIZE_8X8_CDF.cdf(ctx)
    }

    /// The depth of a transform in a larger block, by the category of its size minus 1. Shape 3x3x3.
    #[inline(always)]
    pub fn tx_size_cdf(category: usize, ctx: usize) -> CDFOffset
        requires category { category < 3 }
        requires ctx { ctx < 3 }
        ensures { slot_of result ≡ slot (codes "tx_size_cdf") (category ∷ ctx ∷ []) }
    {
        TX_SIZE_CDF.cdf(category * 3 + ctx)
    }

    /// Whether an inter transform is split. Shape 21x2.
    #[inline(always)]
    pub fn txfm_partition_cdf(ctx: usize) -> CDFOffset
        requires { ctx < 21 }
        ensures { slot_of result ≡ slot (codes "txfm_partition_cdf") (ctx ∷ []) }
    {
        TXFM_PARTITION_CDF.cdf(ctx)
    }
}
