// The order of candidates.
ghost use Rattle.std.specs.Prelude.{◌≡◌, ◌+◌, ◌<◌, ◌≤◌, ◌^◌, length, map, All};
ghost use Rattle.av1_mvref.specs.Noted.{heaviest};
ghost use Rattle.av1_mvref.specs.Candidates.{by_weight};
ghost use Rattle.av1_mvref.specs.Sorted.{ranks_from, candidate_at};

use crate::candidate::CandidateMV;
use arrayvec::ArrayVec;

// What each candidate's weight lacks, and its place.
fn ranks(stack: &[CandidateMV]) -> ArrayVec<(u32, usize), 9>
    requires { length stack.now ≤ 9 }
    ensures { result.items ≡ ranks_from 0 stack.now }
{
    let mut ranks = ArrayVec::new();
    for k in 0..stack.len() {
        ranks.push((u32::MAX - stack[k].weight, k));
    }
    ranks
}

// The candidates by their ranks.
fn ranked(stack: &[CandidateMV], ranks: &[(u32, usize)]) -> ArrayVec<CandidateMV, 9>
    requires few { length ranks.now ≤ 9 }
    requires places { All (λ r. r.1 < length stack.now) ranks.now }
    ensures { result.items ≡ map (candidate_at stack.now) ranks.now }
{
    let mut list = ArrayVec::new();
    for k in 0..ranks.len() {
        list.push(stack[ranks[k].1]);
    }
    list
}

// Orders candidates by falling weight, equal ones as they were.
pub(crate) fn sort_by_weight(stack: &mut ArrayVec<CandidateMV, 9>)
    requires few { length stack.old.items ≤ 9 }
    requires light { heaviest stack.old.items < 2 ^ 32 }
    ensures { stack.new.items ≡ by_weight stack.old.items }
{
    let mut ranks = ranks(stack.as_slice());
    ranks.as_mut_slice().sort_unstable();
    let list = ranked(stack.as_slice(), ranks.as_slice());
    *stack = list;
}
