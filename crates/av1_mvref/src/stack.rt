// The list of candidates while neighbours are visited.
ghost use Rattle.std.specs.Prelude.{◌≡◌, ◌+◌, ◌*◌, ◌^◌, ◌<◌, ◌≤◌, ◌-◌, length, map, nat_lt, fold, true};
ghost use Rattle.std.specs.List.{IsFirstMatchOrLen};
ghost use Rattle.av1_mvref.specs.Candidates.{same, given, gives, ref_of, mv_of, vector_of, pair_of};
ghost use Rattle.av1_mvref.specs.Noted.{noted, took, heaviest, took_all, nearer};

use crate::candidate::{CandidateMV, Wanted};
use arrayvec::ArrayVec;
use av1_blocks::Block;
use av1_geometry::{MotionVector, REF_CAT_LEVEL};

// The place of the first candidate with the same vectors, or the length.
fn place_of(stack: &[CandidateMV], seen: CandidateMV) -> usize
    requires { length stack.now ≤ 8 }
    ensures bound { result ≤ length stack.now }
    ensures value { IsFirstMatchOrLen (same seen) stack.now result }
{
    for k in 0..stack.len() {
        if seen.is_same(stack[k]) {
            return k;
        }
    }
    stack.len()
}

// Adds a candidate that is seen, or its weight where it is already there.
fn note(stack: &mut ArrayVec<CandidateMV, 9>, seen: CandidateMV)
    requires few { length stack.old.items ≤ 8 }
    requires light { heaviest stack.old.items + seen.weight < 2 ^ 32 }
    ensures { stack.new.items ≡ noted 8 stack.old.items seen }
{
    let k = place_of(stack.as_slice(), seen);
    if k < stack.len() {
        let items = stack.as_mut_slice();
        items[k].weight += seen.weight;
    } else if stack.len() < 8 {
        stack.push(seen);
    }
}

// Adds a neighbour's vector of a list where that refers to what is looked for.
fn add_vector(
    wanted: Wanted,
    block: &Block,
    list: usize,
    weight: u32,
    stack: &mut ArrayVec<CandidateMV, 9>,
) -> bool
    requires list { list < 2 }
    requires few { length stack.old.items ≤ 8 }
    requires light { heaviest stack.old.items + weight < 2 ^ 32 }
    ensures items { stack.new.items ≡ fold (noted 8) stack.old.items (vector_of wanted record { block = block.now; weight = weight; is_above = true } list) }
    ensures found { result ≡ nat_lt 0 (length (vector_of wanted record { block = block.now; weight = weight; is_above = true } list)) }
{
    if block.ref_frames[list].number() != wanted.first.number() {
        return false;
    }
    note(
        stack,
        CandidateMV {
            this_mv: block.mv[list],
            comp_mv: MotionVector { row: 0, col: 0 },
            weight,
        },
    );
    true
}

// Adds what a neighbour gives. Whether it gives something.
pub(crate) fn add_ref_mv_candidate(
    wanted: Wanted,
    block: &Block,
    weight: u32,
    stack: &mut ArrayVec<CandidateMV, 9>,
) -> bool
    requires few { length stack.old.items ≤ 8 }
    requires light { heaviest stack.old.items + 2 * weight < 2 ^ 32 }
    ensures items { stack.new.items ≡ took wanted stack.old.items record { block = block.now; weight = weight; is_above = true } }
    ensures found { result ≡ gives wanted record { block = block.now; weight = weight; is_above = true } }
{
    if !block.is_inter() {
        return false;
    }
    if wanted.is_compound {
        return add_pair(wanted, block, weight, stack);
    }
    let first = add_vector(wanted, block, 0, weight, stack);
    let second = add_vector(wanted, block, 1, weight, stack);
    first || second
}

// Adds a neighbour's pair of vectors where both references are those that are looked for.
fn add_pair(
    wanted: Wanted,
    block: &Block,
    weight: u32,
    stack: &mut ArrayVec<CandidateMV, 9>,
) -> bool
    requires few { length stack.old.items ≤ 8 }
    requires light { heaviest stack.old.items + weight < 2 ^ 32 }
    ensures items { stack.new.items ≡ fold (noted 8) stack.old.items (pair_of wanted record { block = block.now; weight = weight; is_above = true }) }
    ensures found { result ≡ nat_lt 0 (length (pair_of wanted record { block = block.now; weight = weight; is_above = true })) }
{
    if block.ref_frames[0].number() != wanted.first.number() {
        return false;
    }
    if block.ref_frames[1].number() != wanted.second.number() {
        return false;
    }
    note(
        stack,
        CandidateMV {
            this_mv: block.mv[0],
            comp_mv: block.mv[1],
            weight,
        },
    );
    true
}

// Raises the weights of what near neighbours gave.
pub(crate) fn add_offset(stack: &mut ArrayVec<CandidateMV, 9>)
    requires few { length stack.old.items ≤ 8 }
    requires light { heaviest stack.old.items + 640 < 2 ^ 32 }
    ensures { stack.new.items ≡ map nearer stack.old.items }
{
    raise_all(stack.as_mut_slice());
}

fn raise_all(stack: &mut [CandidateMV])
    requires few { length stack.old ≤ 8 }
    requires light { heaviest stack.old + 640 < 2 ^ 32 }
    ensures { stack.new ≡ map nearer stack.old }
{
    for k in 0..stack.len() {
        raise(&mut stack[k]);
    }
}

fn raise(candidate: &mut CandidateMV)
    requires { candidate.old.weight + 640 < 2 ^ 32 }
    ensures { candidate.new ≡ nearer candidate.old }
{
    candidate.weight += REF_CAT_LEVEL;
}
