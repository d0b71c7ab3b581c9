// The extra search, where the neighbours give fewer than two candidates.
ghost use Rattle.std.specs.Prelude.{◌≡◌, ◌+◌, ◌<◌, ◌≤◌, length, fold, min};
ghost use Rattle.std.specs.List.{list_any};
ghost use Rattle.av1_blocks.specs.Grid.{IsInside};
ghost use Rattle.av1_blocks.specs.Sound.{IsSound, IsReady};
ghost use Rattle.av1_mvref.specs.declared.edge.Direction.TheVariants.{Upper, Left};
ghost use Rattle.av1_mvref.specs.Neighbours.{pick, edge, shown, edge_of};
ghost use Rattle.av1_mvref.specs.Candidates.{same_mv};
ghost use Rattle.av1_mvref.specs.Conditions.{IsReference, AreReferences};
ghost use Rattle.av1_mvref.specs.ExtraSearch.{with_mv, with_vector, with_block, blocks_beside, referred_in, searched, searched_along, completed};

use crate::candidate::{CandidateMV, Wanted};
use crate::edge::{BlockEdge, Direction};
use crate::pairs::add_pairs;
use crate::turned::{is_frame, turned};
use arrayvec::ArrayVec;
use av1_blocks::{Block, TileBlocks};
use av1_geometry::{BlockSize, MotionVector, RefType, TileBlockOffset};

// What a candidate of the extra search weighs.
pub(crate) const LIGHT: u32 = 2;

fn has_vector(stack: &[CandidateMV], mv: MotionVector) -> bool
    ensures { result ≡ list_any (λ c. same_mv c.this_mv mv) stack.now }
{
    stack.iter().any(|c| c.has_vector(mv))
}

// Adds a vector, where no candidate has it.
fn add_vector(stack: &mut ArrayVec<CandidateMV, 9>, mv: MotionVector)
    requires { length stack.old.items ≤ 8 }
    ensures items { stack.new.items ≡ with_mv stack.old.items mv }
    ensures few { length stack.new.items ≤ length stack.old.items + 1 }
{
    if !has_vector(stack.as_slice(), mv) {
        stack.push(CandidateMV {
            this_mv: mv,
            comp_mv: MotionVector { row: 0, col: 0 },
            weight: LIGHT,
        });
    }
}

// Adds a block's vector of a list, turned towards the reference that is looked for.
fn add_turned(
    to: RefType,
    sign_bias: &[bool; 7],
    block: &Block,
    list: usize,
    stack: &mut ArrayVec<CandidateMV, 9>,
)
    requires list { list < 2 }
    requires reference { IsReference to }
    requires sound { IsSound block.now }
    requires room { length stack.old.items ≤ 8 }
    ensures items { stack.new.items ≡ fold (with_vector sign_bias.now to) stack.old.items (referred_in block.now list) }
    ensures few { length stack.new.items ≤ length stack.old.items + 1 }
{
    let from = block.ref_frames[list];
    if is_frame(from) {
        add_vector(stack, turned(sign_bias, from, to, block.mv[list]));
    }
}

// Adds the vectors of a block, where there are fewer than two candidates.
fn add_block(
    to: RefType,
    sign_bias: &[bool; 7],
    block: &Block,
    stack: &mut ArrayVec<CandidateMV, 9>,
)
    requires reference { IsReference to }
    requires sound { IsSound block.now }
    requires few { length stack.old.items ≤ 3 }
    ensures items { stack.new.items ≡ with_block sign_bias.now to stack.old.items block.now }
    ensures few { length stack.new.items ≤ 3 }
{
    if stack.len() < 2 {
        add_turned(to, sign_bias, block, 0, stack);
        add_turned(to, sign_bias, block, 1, stack);
    }
}

// Adds the vectors of the blocks along an edge that has blocks beside it.
fn add_blocks(
    beside: BlockEdge,
    blocks: &TileBlocks<'_>,
    n: usize,
    to: RefType,
    sign_bias: &[bool; 7],
    stack: &mut ArrayVec<CandidateMV, 9>,
)
    requires ready { IsReady blocks.now }
    requires inside { IsInside blocks.now beside.bo.0 }
    requires near { 1 ≤ pick beside.to beside.bo.0.y beside.bo.0.x }
    requires shown { n ≤ shown (edge_of beside blocks.now) }
    requires reference { IsReference to }
    requires few { length stack.old.items ≤ 3 }
    ensures items { let e = edge_of beside blocks.now in
        stack.new.items ≡ fold (with_block sign_bias.now to) stack.old.items (blocks_beside e n) }
    ensures few { length stack.new.items ≤ 3 }
{
    let mut i = 0;
    while i < n {
        let block = beside.block_at(blocks, 1, i);
        add_block(to, sign_bias, block, stack);
        i += beside.side_of(blocks, block);
    }
}

// Adds the vectors of the blocks along an edge.
fn add_line(
    beside: BlockEdge,
    blocks: &TileBlocks<'_>,
    n: usize,
    to: RefType,
    sign_bias: &[bool; 7],
    stack: &mut ArrayVec<CandidateMV, 9>,
)
    requires ready { IsReady blocks.now }
    requires inside { IsInside blocks.now beside.bo.0 }
    requires shown { n ≤ shown (edge_of beside blocks.now) }
    requires reference { IsReference to }
    requires few { length stack.old.items ≤ 3 }
    ensures items { let e = edge_of beside blocks.now in
        stack.new.items ≡ fold (with_block sign_bias.now to) stack.old.items (searched_along e n) }
    ensures few { length stack.new.items ≤ 3 }
{
    if beside.y() > 0 {
        add_blocks(beside, blocks, n, to, sign_bias, stack);
    }
}

// Along how many places of both edges blocks are searched.
pub(crate) fn searched_sides(
    blocks: &TileBlocks<'_>,
    bo: TileBlockOffset,
    bsize: BlockSize,
) -> usize
    requires { IsInside blocks.now bo.0 }
    ensures { result ≡ min (shown (edge Upper blocks.now bo.0 bsize)) (shown (edge Left blocks.now bo.0 bsize)) }
{
    let upper = BlockEdge {
        to: Direction::Upper,
        bo,
        bsize,
    };
    let left = BlockEdge {
        to: Direction::Left,
        bo,
        bsize,
    };
    upper.shown(blocks).min(left.shown(blocks))
}

// Adds the vectors of the blocks above and to the left.
fn add_vectors(
    blocks: &TileBlocks<'_>,
    bo: TileBlockOffset,
    bsize: BlockSize,
    to: RefType,
    sign_bias: &[bool; 7],
    stack: &mut ArrayVec<CandidateMV, 9>,
)
    requires ready { IsReady blocks.now }
    requires inside { IsInside blocks.now bo.0 }
    requires reference { IsReference to }
    requires few { length stack.old.items ≤ 3 }
    ensures { stack.new.items ≡ fold (with_block sign_bias.now to) stack.old.items (searched blocks.now bo.0 bsize) }
{
    let n = searched_sides(blocks, bo, bsize);
    let upper = BlockEdge {
        to: Direction::Upper,
        bo,
        bsize,
    };
    let left = BlockEdge {
        to: Direction::Left,
        bo,
        bsize,
    };
    add_line(upper, blocks, n, to, sign_bias, stack);
    add_line(left, blocks, n, to, sign_bias, stack);
}

// Completes a list of fewer than two candidates.
pub(crate) fn complete(
    blocks: &TileBlocks<'_>,
    bo: TileBlockOffset,
    bsize: BlockSize,
    wanted: Wanted,
    sign_bias: &[bool; 7],
    stack: &mut ArrayVec<CandidateMV, 9>,
)
    requires ready { IsReady blocks.now }
    requires inside { IsInside blocks.now bo.0 }
    requires references { AreReferences wanted }
    ensures { stack.new.items ≡ completed sign_bias.now wanted (searched blocks.now bo.0 bsize) stack.old.items }
{
    if stack.len() >= 2 {
        return;
    }
    if wanted.is_compound {
        add_pairs(blocks, bo, bsize, wanted, sign_bias, stack);
    } else {
        add_vectors(blocks, bo, bsize, wanted.first, sign_bias, stack);
    }
}
