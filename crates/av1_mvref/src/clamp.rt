// Vectors that stay near the frame.
ghost use Rattle.std.specs.Prelude.{◌≡◌, ◌<◌, ◌≤◌, map};
ghost use Rattle.av1_blocks.specs.Grid.{IsInside};
ghost use Rattle.av1_mvref.specs.Candidates.{kept_near, clamped_mv, clamped};

use crate::candidate::CandidateMV;
use arrayvec::ArrayVec;
use av1_blocks::TileBlocks;
use av1_geometry::{BlockSize, MotionVector, TileBlockOffset};

// A vector moves a block by less than this, in 4x4 blocks, so that a farther border keeps it as it is.
const FAR: usize = 1024;

// A part of a vector, as far as a block at a place may move along a side of the frame.
fn kept_near(place: usize, side: usize, end: usize, v: i16) -> i16
    requires inside { place < end }
    requires side { side ≤ 32 }
    ensures { result ≡ kept_near place side end v }
{
    let low = -((32 * (place.min(FAR) + side) + 128) as i32);
    let high = (32 * (end - place).min(FAR) + 128) as i32;
    let part = v as i32;
    if part < low {
        low as i16
    } else if high < part {
        high as i16
    } else {
        v
    }
}

fn clamped_mv(
    blocks: &TileBlocks<'_>,
    bo: TileBlockOffset,
    bsize: BlockSize,
    mv: MotionVector,
) -> MotionVector
    requires { IsInside blocks.now bo.0 }
    ensures { result ≡ clamped_mv blocks.now bo.0 bsize mv }
{
    let at = blocks.place_in_frame(bo).0;
    MotionVector {
        row: kept_near(at.y, bsize.height_mi(), blocks.all_rows(), mv.row),
        col: kept_near(at.x, bsize.width_mi(), blocks.all_cols(), mv.col),
    }
}

fn clamped(
    blocks: &TileBlocks<'_>,
    bo: TileBlockOffset,
    bsize: BlockSize,
    candidate: CandidateMV,
) -> CandidateMV
    requires { IsInside blocks.now bo.0 }
    ensures { result ≡ clamped blocks.now bo.0 bsize candidate }
{
    CandidateMV {
        this_mv: clamped_mv(blocks, bo, bsize, candidate.this_mv),
        comp_mv: clamped_mv(blocks, bo, bsize, candidate.comp_mv),
        weight: candidate.weight,
    }
}

// Keeps all vectors of a list near the frame.
pub(crate) fn clamp_list(
    blocks: &TileBlocks<'_>,
    bo: TileBlockOffset,
    bsize: BlockSize,
    list: &mut ArrayVec<CandidateMV, 9>,
)
    requires { IsInside blocks.now bo.0 }
    ensures { list.new.items ≡ map (clamped blocks.now bo.0 bsize) list.old.items }
{
    clamp_all(blocks, bo, bsize, list.as_mut_slice());
}

fn clamp_all(
    blocks: &TileBlocks<'_>,
    bo: TileBlockOffset,
    bsize: BlockSize,
    list: &mut [CandidateMV],
)
    requires { IsInside blocks.now bo.0 }
    ensures { list.new ≡ map (clamped blocks.now bo.0 bsize) list.old }
{
    for k in 0..list.len() {
        list[k] = clamped(blocks, bo, bsize, list[k]);
    }
}
