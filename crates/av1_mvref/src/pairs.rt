// The extra search for pairs of vectors, of two references.
ghost use Rattle.std.specs.Prelude.{◌≡◌, ◌<◌, ◌≤◌, ◌++◌, ◌∷◌, [], length, flat_map, fold, take, slice_index_or};
ghost use Rattle.av1_blocks.specs.Grid.{IsInside};
ghost use Rattle.av1_blocks.specs.Sound.{IsSound, IsReady};
ghost use Rattle.av1_mvref.specs.Neighbours.{pick, edge, shown, edge_of};
ghost use Rattle.av1_mvref.specs.Candidates.{no_vector};
ghost use Rattle.av1_mvref.specs.Noted.{kept_same, kept_others};
ghost use Rattle.av1_mvref.specs.Conditions.{IsReference};
ghost use Rattle.av1_mvref.specs.ExtraSearch.{blocks_beside, referred_in, referred, searched, searched_along, to_same, to_others, vectors_to, with_pairs, with_both, pair_at};

use crate::candidate::{CandidateMV, Wanted};
use crate::edge::{BlockEdge, Direction};
use crate::extra::{LIGHT, searched_sides};
use crate::turned::{is_frame, turned};
use arrayvec::ArrayVec;
use av1_blocks::{Block, TileBlocks};
use av1_geometry::{BlockSize, MotionVector, RefType, TileBlockOffset};

// Keeps a vector, where fewer than two are kept.
fn keep(list: &mut ArrayVec<MotionVector, 2>, mv: MotionVector)
    requires { length list.old.items ≤ 2 }
    ensures items { list.new.items ≡ take 2 (list.old.items ++ mv ∷ []) }
    ensures few { length list.new.items ≤ 2 }
{
    if list.len() < 2 {
        list.push(mv);
    }
}

// Keeps a block's vector of a list among those to the same reference, or turned among the others.
fn keep_vector(
    to: RefType,
    sign_bias: &[bool; 7],
    block: &Block,
    list: usize,
    same: &mut ArrayVec<MotionVector, 2>,
    others: &mut ArrayVec<MotionVector, 2>,
)
    requires list { list < 2 }
    requires reference { IsReference to }
    requires sound { IsSound block.now }
    requires few { length same.old.items ≤ 2 }
    requires few_others { length others.old.items ≤ 2 }
    ensures same { same.new.items ≡ take 2 (same.old.items ++ to_same to (referred_in block.now list)) }
    ensures others { others.new.items ≡ take 2 (others.old.items ++ to_others sign_bias.now to (referred_in block.now list)) }
    ensures few { length same.new.items ≤ 2 }
    ensures few_others { length others.new.items ≤ 2 }
{
    let from = block.ref_frames[list];
    if !is_frame(from) {
        return;
    }
    if from.number() == to.number() {
        keep(same, block.mv[list]);
    } else {
        keep(others, turned(sign_bias, from, to, block.mv[list]));
    }
}

// Keeps the vectors of a block.
fn keep_block(
    to: RefType,
    sign_bias: &[bool; 7],
    block: &Block,
    same: &mut ArrayVec<MotionVector, 2>,
    others: &mut ArrayVec<MotionVector, 2>,
)
    requires reference { IsReference to }
    requires sound { IsSound block.now }
    requires few { length same.old.items ≤ 2 }
    requires few_others { length others.old.items ≤ 2 }
    ensures same { same.new.items ≡ kept_same to same.old.items block.now }
    ensures others { others.new.items ≡ kept_others sign_bias.now to others.old.items block.now }
    ensures few { length same.new.items ≤ 2 }
    ensures few_others { length others.new.items ≤ 2 }
{
    keep_vector(to, sign_bias, block, 0, same, others);
    keep_vector(to, sign_bias, block, 1, same, others);
}

// Keeps the vectors of the blocks along an edge that has blocks beside it.
fn keep_blocks(
    beside: BlockEdge,
    blocks: &TileBlocks<'_>,
    n: usize,
    to: RefType,
    sign_bias: &[bool; 7],
    same: &mut ArrayVec<MotionVector, 2>,
    others: &mut ArrayVec<MotionVector, 2>,
)
    requires ready { IsReady blocks.now }
    requires inside { IsInside blocks.now beside.bo.0 }
    requires near { 1 ≤ pick beside.to beside.bo.0.y beside.bo.0.x }
    requires shown { n ≤ shown (edge_of beside blocks.now) }
    requires reference { IsReference to }
    requires few { length same.old.items ≤ 2 }
    requires few_others { length others.old.items ≤ 2 }
    ensures same { let e = edge_of beside blocks.now in
        same.new.items ≡ fold (kept_same to) same.old.items (blocks_beside e n) }
    ensures others { let e = edge_of beside blocks.now in
        others.new.items ≡ fold (kept_others sign_bias.now to) others.old.items (blocks_beside e n) }
    ensures few { length same.new.items ≤ 2 }
    ensures few_others { length others.new.items ≤ 2 }
{
    let mut i = 0;
    while i < n {
        let block = beside.block_at(blocks, 1, i);
        keep_block(to, sign_bias, block, same, others);
        i += beside.side_of(blocks, block);
    }
}

// Keeps the vectors of the blocks along an edge.
fn keep_line(
    beside: BlockEdge,
    blocks: &TileBlocks<'_>,
    n: usize,
    to: RefType,
    sign_bias: &[bool; 7],
    same: &mut ArrayVec<MotionVector, 2>,
    others: &mut ArrayVec<MotionVector, 2>,
)
    requires ready { IsReady blocks.now }
    requires inside { IsInside blocks.now beside.bo.0 }
    requires shown { n ≤ shown (edge_of beside blocks.now) }
    requires reference { IsReference to }
    requires few { length same.old.items ≤ 2 }
    requires few_others { length others.old.items ≤ 2 }
    ensures same { let e = edge_of beside blocks.now in
        same.new.items ≡ fold (kept_same to) same.old.items (searched_along e n) }
    ensures others { let e = edge_of beside blocks.now in
        others.new.items ≡ fold (kept_others sign_bias.now to) others.old.items (searched_along e n) }
    ensures few { length same.new.items ≤ 2 }
    ensures few_others { length others.new.items ≤ 2 }
{
    if beside.y() > 0 {
        keep_blocks(beside, blocks, n, to, sign_bias, same, others);
    }
}

// Keeps further vectors.
fn append(list: &mut ArrayVec<MotionVector, 2>, more: &[MotionVector])
    requires { length list.old.items ≤ 2 }
    ensures { list.new.items ≡ take 2 (list.old.items ++ more.now) }
{
    for k in 0..more.len() {
        keep(list, more[k]);
    }
}

// The first two vectors of the blocks above and to the left: those that refer to a frame, and then the others.
fn vectors_to(
    blocks: &TileBlocks<'_>,
    bo: TileBlockOffset,
    bsize: BlockSize,
    to: RefType,
    sign_bias: &[bool; 7],
) -> ArrayVec<MotionVector, 2>
    requires ready { IsReady blocks.now }
    requires inside { IsInside blocks.now bo.0 }
    requires reference { IsReference to }
    ensures { result.items ≡ take 2 (vectors_to sign_bias.now to (flat_map referred (searched blocks.now bo.0 bsize))) }
{
    let n = searched_sides(blocks, bo, bsize);
    let upper = BlockEdge {
        to: Direction::Upper,
        bo,
        bsize,
    };
    let left = BlockEdge {
        to: Direction::Left,
        bo,
        bsize,
    };
    let mut same = ArrayVec::new();
    let mut others = ArrayVec::new();
    keep_line(upper, blocks, n, to, sign_bias, &mut same, &mut others);
    keep_line(left, blocks, n, to, sign_bias, &mut same, &mut others);
    append(&mut same, others.as_slice());
    same
}

fn vector_at(list: &[MotionVector], i: usize) -> MotionVector
    ensures { result ≡ slice_index_or list.now i no_vector }
{
    if i < list.len() {
        list[i]
    } else {
        MotionVector { row: 0, col: 0 }
    }
}

fn pair_at(
    firsts: &ArrayVec<MotionVector, 2>,
    seconds: &ArrayVec<MotionVector, 2>,
    i: usize,
) -> CandidateMV
    ensures { result ≡ pair_at firsts.now.items seconds.now.items i }
{
    CandidateMV {
        this_mv: vector_at(firsts.as_slice(), i),
        comp_mv: vector_at(seconds.as_slice(), i),
        weight: LIGHT,
    }
}

// Adds two pairs, or the one of them that is not there.
fn add_two(stack: &mut ArrayVec<CandidateMV, 9>, first: CandidateMV, second: CandidateMV)
    requires { length stack.old.items < 2 }
    ensures { stack.new.items ≡ with_pairs first second stack.old.items }
{
    if stack.len() == 0 {
        stack.push(first);
        stack.push(second);
    } else if stack.as_slice()[0].is_same(first) {
        stack.push(second);
    } else {
        stack.push(first);
    }
}

// Adds pairs of the vectors of the blocks above and to the left.
pub(crate) fn add_pairs(
    blocks: &TileBlocks<'_>,
    bo: TileBlockOffset,
    bsize: BlockSize,
    wanted: Wanted,
    sign_bias: &[bool; 7],
    stack: &mut ArrayVec<CandidateMV, 9>,
)
    requires ready { IsReady blocks.now }
    requires inside { IsInside blocks.now bo.0 }
    requires first { IsReference wanted.first }
    requires second { IsReference wanted.second }
    requires few { length stack.old.items < 2 }
    ensures { stack.new.items ≡ with_both sign_bias.now wanted (searched blocks.now bo.0 bsize) stack.old.items }
{
    let firsts = vectors_to(blocks, bo, bsize, wanted.first, sign_bias);
    let seconds = vectors_to(blocks, bo, bsize, wanted.second, sign_bias);
    let first = pair_at(&firsts, &seconds, 0);
    let second = pair_at(&firsts, &seconds, 1);
    add_two(stack, first, second);
}
