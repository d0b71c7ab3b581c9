// The neighbours along one line beside a block.
ghost use Rattle.std.specs.Prelude.{◌≡◌, ◌+◌, ◌*◌, ◌-◌, ◌%◌, ◌^◌, ◌<◌, ◌≤◌, length, map, nat_lt, ◌||◌, ◌&&◌, if◌then◌else◌};
ghost use Rattle.std.specs.List.{list_any};
ghost use Rattle.av1_geometry.specs.PredictionMode.{has_newmv};
ghost use Rattle.av1_blocks.specs.Grid.{IsInside};
ghost use Rattle.av1_blocks.specs.Sound.{IsReady};
ghost use Rattle.av1_mvref.specs.Neighbours.{reach, line, line_after, done_after, done_by, neighbour, neighbours_after, edge_of};
ghost use Rattle.av1_mvref.specs.Candidates.{gives, gives_new};
ghost use Rattle.av1_mvref.specs.Noted.{took, took_all, heaviest};

use crate::candidate::{CandidateMV, Wanted};
use crate::edge::BlockEdge;
use crate::stack::add_ref_mv_candidate;
use arrayvec::ArrayVec;
use av1_blocks::{Block, TileBlocks};

// Takes what one neighbour gives. Whether it gives something.
fn visit(
    beside: BlockEdge,
    blocks: &TileBlocks<'_>,
    distance: usize,
    block: &Block,
    done: &mut usize,
    new: &mut bool,
    wanted: Wanted,
    stack: &mut ArrayVec<CandidateMV, 9>,
) -> bool
    requires far { distance ≤ reach (edge_of beside blocks.now) }
    requires near { 1 ≤ distance }
    requires short { distance ≤ 6 }
    requires few { length stack.old.items ≤ 8 }
    requires light { heaviest stack.old.items + 448 < 2 ^ 32 }
    ensures items { stack.new.items ≡ took wanted stack.old.items (neighbour (edge_of beside blocks.now) distance block.now) }
    ensures found { result ≡ gives wanted (neighbour (edge_of beside blocks.now) distance block.now) }
    ensures new { new.new ≡ (new.old || gives_new wanted (neighbour (edge_of beside blocks.now) distance block.now)) }
    ensures light { heaviest stack.new.items ≤ heaviest stack.old.items + 448 }
    ensures lines { done.new ≡ done_by (edge_of beside blocks.now) distance done.old block.now }
{
    *done = beside.done_by(blocks, distance, *done, block);
    let weight = beside.weight_of(blocks, distance, block);
    let found = add_ref_mv_candidate(wanted, block, weight, stack);
    *new = *new || is_new(found, block);
    found
}

// Whether a neighbour that gives something has a new vector.
pub(crate) fn is_new(found: bool, block: &Block) -> bool
    ensures { result ≡ (found && has_newmv block.now.mode) }
{
    found && block.mode.has_newmv()
}

// Takes what the blocks along a line at a distance give. Whether one of them gives something.
pub(crate) fn scan_line(
    beside: BlockEdge,
    blocks: &TileBlocks<'_>,
    distance: usize,
    done: &mut usize,
    new: &mut bool,
    wanted: Wanted,
    stack: &mut ArrayVec<CandidateMV, 9>,
) -> bool
    requires ready { IsReady blocks.now }
    requires inside { IsInside blocks.now beside.bo.0 }
    requires even { let e = edge_of beside blocks.now in 2 ≤ e.side → e.x % 2 ≡ 0 }
    requires near { 1 ≤ distance }
    requires far { distance ≤ reach (edge_of beside blocks.now) }
    requires short { distance ≤ 6 }
    requires few { length stack.old.items ≤ 8 }
    requires light { heaviest stack.old.items + 8000 < 2 ^ 32 }
    ensures items { let e = edge_of beside blocks.now in
        stack.new.items ≡ took_all wanted stack.old.items (map (neighbour e distance) (line e distance)) }
    ensures found { let e = edge_of beside blocks.now in
        result ≡ list_any (gives wanted) (map (neighbour e distance) (line e distance)) }
    ensures new { let e = edge_of beside blocks.now in
        new.new ≡ (new.old || list_any (gives_new wanted) (map (neighbour e distance) (line e distance))) }
    ensures lines { let e = edge_of beside blocks.now in
        done.new ≡ done_after e distance done.old (line e distance) }
    ensures few { length stack.new.items ≤ 8 }
    ensures light { heaviest stack.new.items ≤ heaviest stack.old.items + 2 ^ 15 }
{
    let shown = beside.shown(blocks);
    let mut found = false;
    let mut i = 0;
    while i < shown {
        let block = beside.block_at(blocks, distance, i);
        let here = visit(beside, blocks, distance, block, done, new, wanted, stack);
        found = found || here;
        i += beside.steps(blocks, distance, block);
    }
    found
}

// Takes what the line at a distance gives, unless it is too far or done.
pub(crate) fn scan_line_after(
    beside: BlockEdge,
    blocks: &TileBlocks<'_>,
    distance: usize,
    done: &mut usize,
    new: &mut bool,
    wanted: Wanted,
    stack: &mut ArrayVec<CandidateMV, 9>,
) -> bool
    requires ready { IsReady blocks.now }
    requires inside { IsInside blocks.now beside.bo.0 }
    requires even { let e = edge_of beside blocks.now in 2 ≤ e.side → e.x % 2 ≡ 0 }
    requires near { 1 ≤ distance }
    requires few { length stack.old.items ≤ 8 }
    requires light { heaviest stack.old.items + 8000 < 2 ^ 32 }
    ensures items { let e = edge_of beside blocks.now in
        stack.new.items ≡ took_all wanted stack.old.items (neighbours_after e done.old distance) }
    ensures found { let e = edge_of beside blocks.now in
        result ≡ list_any (gives wanted) (neighbours_after e done.old distance) }
    ensures new { let e = edge_of beside blocks.now in
        new.new ≡ (new.old || list_any (gives_new wanted) (neighbours_after e done.old distance)) }
    ensures lines { let e = edge_of beside blocks.now in
        done.new ≡ done_after e distance done.old (line_after e done.old distance) }
    ensures few { length stack.new.items ≤ 8 }
    ensures light { heaviest stack.new.items ≤ heaviest stack.old.items + 2 ^ 15 }
{
    if distance <= beside.reach(blocks) && *done < distance {
        scan_line(beside, blocks, distance, done, new, wanted, stack)
    } else {
        false
    }
}
