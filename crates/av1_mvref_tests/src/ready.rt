// What the calls ask of a grid.
ghost use Rattle.std.specs.Prelude.{ℕ, ◌<◌, ◌≤◌, IsTrue, slice_index_or};
ghost use Rattle.av1_blocks.specs.Grid.{block_at};
ghost use Rattle.av1_blocks.specs.Sound.{IsSound, IsReady};
ghost use Rattle.av1_mvref.specs.Conditions.{IsAligned};

use av1_blocks::{Block, TileBlocks};
use av1_geometry::{BlockOffset, BlockSize, TileBlockOffset};

// Whether every count of references is at most 4.
fn counts_are_few(counts: &[u8; 7]) -> bool
    ensures { IsTrue result → (k : ℕ) → k < 7 → slice_index_or counts.now k 0 ≤ 4 }
{
    for n in counts.iter() {
        if *n > 4 {
            return false;
        }
    }
    true
}

fn is_sound(block: &Block) -> bool
    ensures { IsTrue result → IsSound block.now }
{
    if block.n4_w as usize != block.bsize.width_mi() {
        return false;
    }
    if block.n4_h as usize != block.bsize.height_mi() {
        return false;
    }
    if !block.mv[0].is_valid() || !block.mv[1].is_valid() {
        return false;
    }
    let first = block.ref_frames[0].number();
    if first < 1 || first > 7 {
        return !block.is_inter() && counts_are_few(&block.neighbors_ref_counts);
    }
    counts_are_few(&block.neighbors_ref_counts)
}

fn is_sound_row(blocks: &TileBlocks<'_>, y: usize) -> bool
    requires { y < blocks.now.rows }
    ensures { IsTrue result → (x : ℕ) → x < blocks.now.cols → IsSound (block_at blocks.now x y) }
{
    for x in 0..blocks.cols() {
        if !is_sound(blocks.at(TileBlockOffset(BlockOffset { x, y }))) {
            return false;
        }
    }
    true
}

pub fn is_ready(blocks: &TileBlocks<'_>) -> bool
    ensures { IsTrue result → IsReady blocks.now }
{
    let (cols, rows) = (blocks.cols(), blocks.rows());
    if cols % 2 != 0 || rows % 2 != 0 {
        return false;
    }
    for y in 0..rows {
        if !is_sound_row(blocks, y) {
            return false;
        }
    }
    true
}

pub fn is_aligned(bo: TileBlockOffset, bsize: BlockSize) -> bool
    ensures { IsTrue result → IsAligned bo.0 bsize }
{
    bo.0.x % bsize.width_mi() == 0 && bo.0.y % bsize.height_mi() == 0
}
