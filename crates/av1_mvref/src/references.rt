// How often the neighbours of a block refer to each frame, and the contexts of a block's references by that.
ghost use Rattle.std.specs.Prelude.{◌≡◌, ◌+◌, ◌-◌, ◌≤◌, nat_lt, if◌then◌else◌};
ghost use Rattle.av1_geometry.specs.RefType.{reference_number};
ghost use Rattle.av1_blocks.specs.Grid.{IsInside, block_at};
ghost use Rattle.av1_blocks.specs.Sound.{IsReady};
ghost use Rattle.av1_mvref.specs.References.{times, count_of, counts, by_counts, kept_count, kept_behind, kept_ahead};

use av1_blocks::{Block, TileBlocks};
use av1_geometry::{RefType, TileBlockOffset};

// How often a block refers to a frame.
fn times(block: &Block, number: usize) -> u8
    ensures value { result ≡ times block.now number }
    ensures bound { result ≤ 2 }
{
    if block.is_inter() {
        u8::from(block.ref_frames[0].number() == number)
            + u8::from(block.ref_frames[1].number() == number)
    } else {
        0
    }
}

fn times_above(blocks: &TileBlocks<'_>, bo: TileBlockOffset, number: usize) -> u8
    requires { IsInside blocks.now bo.0 }
    ensures value { result ≡ (if nat_lt 0 bo.0.y then times (block_at blocks.now bo.0.x (bo.0.y - 1)) number else 0) }
    ensures bound { result ≤ 2 }
{
    if bo.0.y > 0 {
        times(blocks.above_of(bo), number)
    } else {
        0
    }
}

fn times_left(blocks: &TileBlocks<'_>, bo: TileBlockOffset, number: usize) -> u8
    requires { IsInside blocks.now bo.0 }
    ensures value { result ≡ (if nat_lt 0 bo.0.x then times (block_at blocks.now (bo.0.x - 1) bo.0.y) number else 0) }
    ensures bound { result ≤ 2 }
{
    if bo.0.x > 0 {
        times(blocks.left_of(bo), number)
    } else {
        0
    }
}

// How often the blocks above and to the left refer to a frame.
fn count_of(blocks: &TileBlocks<'_>, bo: TileBlockOffset, number: usize) -> u8
    requires { IsInside blocks.now bo.0 }
    ensures value { result ≡ count_of blocks.now bo.0 number }
    ensures bound { result ≤ 4 }
{
    times_above(blocks, bo, number) + times_left(blocks, bo, number)
}

/// How often the blocks above and to the left, 0 to 4 times, refer to each of the seven references, LAST_FRAME first.
///
/// This is what `fill_neighbours_ref_counts` stores in a block (rav1e's `block_unit.rs`), and the counts of references
/// in the AV1 specification, 8.3.2.
pub fn ref_counts(blocks: &TileBlocks<'_>, bo: TileBlockOffset) -> [u8; 7]
    requires { IsInside blocks.now bo.0 }
    ensures { result ≡ counts blocks.now bo.0 }
{
    let last = count_of(blocks, bo, 1);
    let last2 = count_of(blocks, bo, 2);
    let last3 = count_of(blocks, bo, 3);
    let gold = count_of(blocks, bo, 4);
    let brf = count_of(blocks, bo, 5);
    let arf2 = count_of(blocks, bo, 6);
    let arf = count_of(blocks, bo, 7);
    [last, last2, last3, gold, brf, arf2, arf]
}

/// The context of a choice between two groups of references: 0 where the second is used more, 1 where both are used
/// as much, 2 where the first is (AV1 specification, 8.3.2, `ref_count_ctx`).
pub fn ref_count_ctx(counts0: u8, counts1: u8) -> usize
    ensures value { result ≡ by_counts counts0 counts1 }
    ensures bound { result ≤ 2 }
{
    if counts0 < counts1 {
        0
    } else if counts0 == counts1 {
        1
    } else {
        2
    }
}

// The count that a block keeps for a frame.
fn kept(blocks: &TileBlocks<'_>, bo: TileBlockOffset, reference: RefType) -> u8
    requires inside { IsInside blocks.now bo.0 }
    requires ready { IsReady blocks.now }
    requires first { 1 ≤ reference_number reference }
    requires last { reference_number reference ≤ 7 }
    ensures value { result ≡ kept_count blocks.now bo.0 (reference_number reference) }
    ensures bound { result ≤ 4 }
{
    blocks.at(bo).neighbors_ref_counts[reference.to_index()]
}

/// The context of the choice between the four references behind and the three ahead in display order, 0 to 2.
pub fn get_ref_frame_ctx_b0(blocks: &TileBlocks<'_>, bo: TileBlockOffset) -> usize
    requires inside { IsInside blocks.now bo.0 }
    requires ready { IsReady blocks.now }
    ensures value { result ≡ by_counts (kept_behind blocks.now bo.0) (kept_ahead blocks.now bo.0) }
    ensures bound { result ≤ 2 }
{
    let first = kept(blocks, bo, RefType::LAST_FRAME)
        + kept(blocks, bo, RefType::LAST2_FRAME)
        + kept(blocks, bo, RefType::LAST3_FRAME)
        + kept(blocks, bo, RefType::GOLDEN_FRAME);
    let second = kept(blocks, bo, RefType::BWDREF_FRAME)
        + kept(blocks, bo, RefType::ALTREF2_FRAME)
        + kept(blocks, bo, RefType::ALTREF_FRAME);
    ref_count_ctx(first, second)
}

/// The context of the choice between LAST_FRAME or LAST2_FRAME and LAST3_FRAME or GOLDEN_FRAME, 0 to 2.
pub fn get_pred_ctx_ll2_or_l3gld(blocks: &TileBlocks<'_>, bo: TileBlockOffset) -> usize
    requires inside { IsInside blocks.now bo.0 }
    requires ready { IsReady blocks.now }
    ensures value { let kept = kept_count blocks.now bo.0 in
        result ≡ by_counts (kept 1 + kept 2) (kept 3 + kept 4) }
    ensures bound { result ≤ 2 }
{
    let first = kept(blocks, bo, RefType::LAST_FRAME) + kept(blocks, bo, RefType::LAST2_FRAME);
    let second = kept(blocks, bo, RefType::LAST3_FRAME) + kept(blocks, bo, RefType::GOLDEN_FRAME);
    ref_count_ctx(first, second)
}

/// The context of the choice between LAST_FRAME and LAST2_FRAME, 0 to 2.
pub fn get_pred_ctx_last_or_last2(blocks: &TileBlocks<'_>, bo: TileBlockOffset) -> usize
    requires inside { IsInside blocks.now bo.0 }
    requires ready { IsReady blocks.now }
    ensures value { result ≡ by_counts (kept_count blocks.now bo.0 1) (kept_count blocks.now bo.0 2) }
    ensures bound { result ≤ 2 }
{
    let first = kept(blocks, bo, RefType::LAST_FRAME);
    let second = kept(blocks, bo, RefType::LAST2_FRAME);
    ref_count_ctx(first, second)
}

/// The context of the choice between LAST3_FRAME and GOLDEN_FRAME, 0 to 2.
pub fn get_pred_ctx_last3_or_gold(blocks: &TileBlocks<'_>, bo: TileBlockOffset) -> usize
    requires inside { IsInside blocks.now bo.0 }
    requires ready { IsReady blocks.now }
    ensures value { result ≡ by_counts (kept_count blocks.now bo.0 3) (kept_count blocks.now bo.0 4) }
    ensures bound { result ≤ 2 }
{
    let first = kept(blocks, bo, RefType::LAST3_FRAME);
    let second = kept(blocks, bo, RefType::GOLDEN_FRAME);
    ref_count_ctx(first, second)
}

/// The context of the choice between BWDREF_FRAME or ALTREF2_FRAME and ALTREF_FRAME, 0 to 2.
pub fn get_pred_ctx_brfarf2_or_arf(blocks: &TileBlocks<'_>, bo: TileBlockOffset) -> usize
    requires inside { IsInside blocks.now bo.0 }
    requires ready { IsReady blocks.now }
    ensures value { result ≡ by_counts (kept_count blocks.now bo.0 5 + kept_count blocks.now bo.0 6) (kept_count blocks.now bo.0 7) }
    ensures bound { result ≤ 2 }
{
    let first = kept(blocks, bo, RefType::BWDREF_FRAME) + kept(blocks, bo, RefType::ALTREF2_FRAME);
    let second = kept(blocks, bo, RefType::ALTREF_FRAME);
    ref_count_ctx(first, second)
}

/// The context of the choice between BWDREF_FRAME and ALTREF2_FRAME, 0 to 2.
pub fn get_pred_ctx_brf_or_arf2(blocks: &TileBlocks<'_>, bo: TileBlockOffset) -> usize
    requires inside { IsInside blocks.now bo.0 }
    requires ready { IsReady blocks.now }
    ensures value { result ≡ by_counts (kept_count blocks.now bo.0 5) (kept_count blocks.now bo.0 6) }
    ensures bound { result ≤ 2 }
{
    let first = kept(blocks, bo, RefType::BWDREF_FRAME);
    let second = kept(blocks, bo, RefType::ALTREF2_FRAME);
    ref_count_ctx(first, second)
}
