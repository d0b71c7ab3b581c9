// The contexts of a transform block.
ghost use Rattle.std.specs.Prelude.{◌≡◌, ◌<◌, ◌≤◌, length};
ghost use Rattle.av1_blocks.specs.Coefficients.{greatest, signs, is_any, dc_sign_context, luma_skip_context, chroma_skip_context, has_sides, is_larger};

use av1_geometry::{BlockSize, COEFF_CONTEXT_BITS, TxSize};

/// The contexts of a transform block: whether it has coefficients, and the sign of the first.
#[derive(Clone, Copy, Debug, PartialEq, Eq)]
pub struct TXB_CTX {
    /// Below 13.
    pub txb_skip_ctx: usize,
    /// Below 3.
    pub dc_sign_ctx: usize,
}

// What the sign of the first level is counted in.
const SIGN: u8 = 1 << COEFF_CONTEXT_BITS;

// The greatest sum of levels.
#[tactic(auto, using(crate::proofs::Entries::greatest_more))]
fn greatest(entries: &[u8]) -> u8
    ensures { result ≡ greatest entries.now }
{
    let mut most = 0;
    for entry in entries {
        most = most.max(*entry % SIGN);
    }
    most
}

// How many first levels have a sign.
#[tactic(auto, using(crate::proofs::Entries::signs_more_yes, crate::proofs::Entries::signs_more_no))]
fn signs(entries: &[u8], sign: u8) -> usize
    ensures value { result ≡ signs sign entries.now }
    ensures few { result ≤ length entries.now }
{
    let mut count = 0;
    for entry in entries {
        if *entry / SIGN == sign {
            count += 1;
        }
    }
    count
}

// Whether there are levels.
#[tactic(auto, using(crate::proofs::Entries::any_more))]
fn is_any(entries: &[u8]) -> bool
    ensures { result ≡ is_any entries.now }
{
    let mut any = false;
    for entry in entries {
        any = any || *entry != 0;
    }
    any
}

// The context of the first level's sign.
pub(crate) fn dc_sign_ctx(above: &[u8], left: &[u8]) -> usize
    requires above { length above.now ≤ 1024 }
    requires left { length left.now ≤ 1024 }
    ensures value { result ≡ dc_sign_context above.now left.now }
    ensures few { result < 3 }
{
    let negative = signs(above, 1) + signs(left, 1);
    let positive = signs(above, 2) + signs(left, 2);
    if positive < negative {
        1
    } else if negative < positive {
        2
    } else {
        0
    }
}

// The context of a luma block's coefficients, by the greatest sums above and to the left.
pub(crate) fn luma_skip_ctx(whole: bool, above: &[u8], left: &[u8]) -> usize
    ensures value { result ≡ luma_skip_context whole (greatest above.now) (greatest left.now) }
    ensures few { result < 7 }
{
    if whole {
        return 0;
    }
    let (above, left) = (greatest(above), greatest(left));
    let (most, least) = (above.max(left), above.min(left));
    if most == 0 {
        1
    } else if least == 0 {
        if most > 3 { 3 } else { 2 }
    } else if most <= 3 {
        4
    } else if least <= 3 {
        5
    } else {
        6
    }
}

// The context of a chroma block's coefficients.
pub(crate) fn chroma_skip_ctx(larger: bool, above: &[u8], left: &[u8]) -> usize
    ensures value { result ≡ chroma_skip_context larger above.now left.now }
    ensures few { result < 13 }
{
    let least = if larger { 10 } else { 7 };
    least + usize::from(is_any(above)) + usize::from(is_any(left))
}

// Whether a transform has the sides of a block.
pub(crate) fn has_sides(size: BlockSize, tx: TxSize) -> bool
    ensures { result ≡ has_sides size tx }
{
    size.width_log2() == tx.width_log2() && size.height_log2() == tx.height_log2()
}

// Whether a block has more samples than a transform.
pub(crate) fn is_larger(size: BlockSize, tx: TxSize) -> bool
    ensures { result ≡ is_larger size tx }
{
    tx.area_log2() < size.area_log2()
}
