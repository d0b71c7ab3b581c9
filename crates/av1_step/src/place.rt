// Where the tiles of a frame lie.
ghost use Rattle.std.specs.Prelude.{◌≡◌, ◌+◌, ◌*◌, ◌^◌, ◌<◌, ◌≤◌, IfOk};
ghost use Rattle.av1_frame.specs.HeaderRules.{blocks};
ghost use Rattle.av1_frame.specs.TileRules.{tiling_of};
ghost use Rattle.av1_step.specs.Given.{tile_cols, tile_count, tile_left, tile_rows, tile_top, IsCut};
ghost use Rattle.av1_step.specs.Tile.{fresh_grid};

use av1_blocks::{FrameBlocks, TileBlocksMut};
use av1_frame::{FrameInvariants, TilingInfo};
use av1_geometry::{BlockOffset, OutOfMemory, PlaneBlockOffset};
use std::alloc::Global;

/// Where a tile lies in its frame, and the sides of both, in 4x4 blocks.
pub(crate) struct TileSides {
    pub at: PlaneBlockOffset,
    pub cols: usize,
    pub rows: usize,
    pub frame_cols: usize,
    pub frame_rows: usize,
}

impl TileSides {
    /// Those of tile number `tile` of a frame.
    pub fn of(fi: &FrameInvariants, tile: usize) -> TileSides
        requires cut { IsCut fi.now }
        requires tile { tile < tile_count fi.now }
        ensures left { result.at.0.x ≡ tile_left fi.now tile }
        ensures top { result.at.0.y ≡ tile_top fi.now tile }
        ensures cols { result.cols ≡ tile_cols fi.now tile }
        ensures rows { result.rows ≡ tile_rows fi.now tile }
        ensures frame_cols { result.frame_cols ≡ blocks fi.now.width }
        ensures frame_rows { result.frame_rows ≡ blocks fi.now.height }
        ensures columns_inside { result.at.0.x + result.cols ≤ result.frame_cols }
        ensures rows_inside { result.at.0.y + result.rows ≤ result.frame_rows }
        ensures few { result.cols * result.rows ≤ 2 ^ 22 }
        ensures number { tile < 2 ^ 20 }
    {
        let tiling = tiling_of(fi);
        let (width, height) = (16 * fi.tile_width_sb, 16 * fi.tile_height_sb);
        let left = tile % tiling.cols * width;
        let top = tile / tiling.cols * height;
        let frame_cols = 2 * fi.width.div_ceil(8);
        let frame_rows = 2 * fi.height.div_ceil(8);
        TileSides {
            at: PlaneBlockOffset(BlockOffset { x: left, y: top }),
            cols: width.min(frame_cols.saturating_sub(left)),
            rows: height.min(frame_rows.saturating_sub(top)),
            frame_cols,
            frame_rows,
        }
    }
}

// The blocks of a tile of a frame before the first is entered.
pub(crate) fn fresh_blocks(
    alloc: Global,
    fi: &FrameInvariants,
    tile: usize,
) -> Result<TileBlocksMut, OutOfMemory>
    requires cut { IsCut fi.now }
    requires tile { tile < tile_count fi.now }
    ensures blocks { IfOk result (λ g. g ≡ fresh_grid fi.now tile) }
    ensures number { tile < 2 ^ 20 }
{
    let TileSides {
        at,
        cols,
        rows,
        frame_cols,
        frame_rows,
    } = TileSides::of(fi, tile);
    let part = FrameBlocks::part(alloc, at, cols, rows, frame_cols, frame_rows)?;
    Ok(part.as_tile_blocks_mut())
}

/// How a frame is cut into tiles.
pub fn tiling_of(fi: &FrameInvariants) -> TilingInfo
    requires cut { IsCut fi.now }
    ensures value { result ≡ tiling_of fi.now }
    ensures few { (result.cols ≤ 1024) × (result.rows ≤ 1024) }
{
    TilingInfo::of(
        fi.width.div_ceil(64),
        fi.height.div_ceil(64),
        fi.tile_width_sb,
        fi.tile_height_sb,
    )
}
