// The blocks of a superblock that are kept.
ghost use Rattle.std.specs.Prelude.{◌≡◌, ◌*◌, IfOk};
ghost use Rattle.av1_blocks.specs.Grid.{IsInside};
ghost use Rattle.av1_blocks.specs.Saved.{first_block, saved_of};

use crate::block::Block;
use crate::tile_blocks::TileBlocks;
use av1_geometry::{BlockOffset, MIB_SIZE, OutOfMemory, TileBlockOffset, TileSuperBlockOffset};
use std::alloc::Global;
use std::marker::Model;

/// The blocks of a superblock, as far as they are inside a tile, with the tile's corner, columns and rows.
#[derive(Drop)]
pub struct SavedBlocks {
    pub(crate) blocks: Vec<Block>,
    pub(crate) place: TileBlockOffset,
    pub(crate) x: usize,
    pub(crate) y: usize,
    pub(crate) cols: usize,
    pub(crate) rows: usize,
}

impl Model for SavedBlocks {
    ghost use Rattle.av1_blocks.specs.Saved.{Saved, IsSaved, saved};

    ghost Value = { Saved };

    ghost view = { λ s. saved s.place.0 s.x s.y s.cols s.rows s.blocks.items };

    ghost invariant = { λ s. IsSaved (saved s.place.0 s.x s.y s.cols s.rows s.blocks.items) };
}

impl SavedBlocks {
    // The blocks of a superblock of a tile.
    pub(crate) fn of(
        alloc: Global,
        tile: &TileBlocks,
        sbo: TileSuperBlockOffset,
    ) -> Result<SavedBlocks, OutOfMemory>
        requires { IsInside tile.now (first_block sbo.0) }
        ensures { IfOk result (λ s. s ≡ saved_of sbo.0 tile.now) }
    {
        let (tile_cols, tile_rows) = (tile.cols(), tile.rows());
        let (left, top) = (MIB_SIZE * sbo.0.x, MIB_SIZE * sbo.0.y);
        let cols = (tile_cols - left).min(MIB_SIZE);
        let rows = (tile_rows - top).min(MIB_SIZE);
        let mut blocks = Vec::with_capacity(alloc, rows * cols)?;
        for k in 0..rows * cols {
            let bo = BlockOffset {
                x: left + k % cols,
                y: top + k / cols,
            };
            blocks.push(*tile.at(TileBlockOffset(bo)))?;
        }
        Ok(SavedBlocks {
            blocks,
            place: TileBlockOffset(BlockOffset { x: left, y: top }),
            x: tile.x(),
            y: tile.y(),
            cols: tile_cols,
            rows: tile_rows,
        })
    }
}
