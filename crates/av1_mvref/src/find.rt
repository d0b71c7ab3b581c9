// The candidates of a block.
ghost use Rattle.std.specs.Prelude.{◌≡◌, ◌/◌, ◌%◌, ◌≤◌, [], IsTrue, slice_index_or};
ghost use Rattle.av1_geometry.specs.RefType.{reference_number};
ghost use Rattle.av1_geometry.specs.declared.ref_type.RefType.TheVariants.{NONE_FRAME};
ghost use Rattle.av1_blocks.specs.Grid.{IsInside};
ghost use Rattle.av1_blocks.specs.Sound.{IsReady};
ghost use Rattle.av1_mvref.specs.Neighbours.{near_neighbours, far_neighbours};
ghost use Rattle.av1_mvref.specs.Candidates.{context_of};
ghost use Rattle.av1_mvref.specs.Conditions.{IsAligned, IsReference, AreReferences};
ghost use Rattle.av1_mvref.specs.ExtraSearch.{scanned, wanted_of, candidates, found};

use crate::candidate::{CandidateMV, Wanted};
use crate::clamp::clamp_list;
use crate::extra::complete;
use crate::neighbours::{Done, mode_context, scan_far, scan_near};
use crate::sort::sort_by_weight;
use crate::stack::add_offset;
use arrayvec::ArrayVec;
use av1_blocks::TileBlocks;
use av1_geometry::{BlockSize, RefType, TileBlockOffset};

// Takes what the neighbours give, and orders it. The context of the mode.
fn scan(
    blocks: &TileBlocks<'_>,
    bo: TileBlockOffset,
    bsize: BlockSize,
    has_tr: bool,
    wanted: Wanted,
    stack: &mut ArrayVec<CandidateMV, 9>,
) -> usize
    requires ready { IsReady blocks.now }
    requires inside { IsInside blocks.now bo.0 }
    requires aligned { IsAligned bo.0 bsize }
    requires empty { stack.old.items ≡ [] }
    ensures items { stack.new.items ≡ scanned wanted (near_neighbours blocks.now bo.0 bsize has_tr) (far_neighbours blocks.now bo.0 bsize) }
    ensures context { result ≡
        context_of wanted (near_neighbours blocks.now bo.0 bsize has_tr) (far_neighbours blocks.now bo.0 bsize) }
    ensures low { result % 16 ≤ 5 }
    ensures high { result / 16 ≤ 5 }
{
    let mut done = Done {
        rows: 0,
        columns: 0,
    };
    let near = scan_near(blocks, bo, bsize, has_tr, &mut done, wanted, stack);
    add_offset(stack);
    let far = scan_far(blocks, bo, bsize, &mut done, wanted, stack);
    sort_by_weight(stack);
    mode_context(near, far)
}

// Finds the candidates of a block that refers to other frames.
fn find(
    blocks: &TileBlocks<'_>,
    bo: TileBlockOffset,
    bsize: BlockSize,
    has_tr: bool,
    wanted: Wanted,
    sign_bias: &[bool; 7],
    stack: &mut ArrayVec<CandidateMV, 9>,
) -> usize
    requires ready { IsReady blocks.now }
    requires inside { IsInside blocks.now bo.0 }
    requires aligned { IsAligned bo.0 bsize }
    requires empty { stack.old.items ≡ [] }
    requires references { AreReferences wanted }
    ensures list { stack.new.items ≡ (found blocks.now bo.0 bsize wanted has_tr sign_bias.now).list }
    ensures context { result ≡ (found blocks.now bo.0 bsize wanted has_tr sign_bias.now).context }
    ensures low { result % 16 ≤ 5 }
    ensures high { result / 16 ≤ 5 }
{
    let context = scan(blocks, bo, bsize, has_tr, wanted, stack);
    complete(blocks, bo, bsize, wanted, sign_bias, stack);
    clamp_list(blocks, bo, bsize, stack);
    context
}

/// Finds the candidates for the vectors of a block, by falling weight, and the context of its mode.
///
/// The list is empty before. At most eight candidates come from the neighbours; where these give fewer than two, the
/// extra search adds others. Vectors are in units of 1/8 sample, and are clamped so that they stay near the frame.
/// A block that refers to its own frame has no candidates, and the context 0 (rav1e's `find_mvrefs` of
/// `block_unit.rs`; AV1 specification, 7.10.2).
///
/// `ref_frames` are the references of the block, the second one used in a compound call alone; `sign_bias` says of each
/// of the seven references whether it lies ahead in display order; `has_tr` says whether the block at the top right is
/// coded before this one.
pub fn find_mvrefs(
    blocks: &TileBlocks<'_>,
    bo: TileBlockOffset,
    ref_frames: [RefType; 2],
    mv_stack: &mut ArrayVec<CandidateMV, 9>,
    bsize: BlockSize,
    sign_bias: &[bool; 7],
    has_tr: bool,
    is_compound: bool,
) -> usize
    requires inside { IsInside blocks.now bo.0 }
    requires ready { IsReady blocks.now }
    requires aligned { IsAligned bo.0 bsize }
    requires empty { mv_stack.old.items ≡ [] }
    requires first { reference_number (slice_index_or ref_frames 0 NONE_FRAME) ≤ 7 }
    requires pair { IsTrue is_compound → IsReference (slice_index_or ref_frames 0 NONE_FRAME) × IsReference (slice_index_or ref_frames 1 NONE_FRAME) }
    ensures list { mv_stack.new.items ≡ (candidates blocks.now bo.0 bsize ref_frames is_compound has_tr sign_bias.now).list }
    ensures context { result ≡ (candidates blocks.now bo.0 bsize ref_frames is_compound has_tr sign_bias.now).context }
    ensures low { result % 16 ≤ 5 }
    ensures high { result / 16 ≤ 5 }
{
    let wanted = Wanted::of(ref_frames, is_compound);
    if wanted.first.number() == 0 {
        return 0;
    }
    find(blocks, bo, bsize, has_tr, wanted, sign_bias, mv_stack)
}
