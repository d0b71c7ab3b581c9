// New frames, and superblocks that are saved and put back.
use av1_blocks::{Block, BlockContext, FrameBlocks};
use av1_geometry::{
    BlockOffset, BlockSize, PlaneBlockOffset, PredictionMode, SuperBlockOffset, TileBlockOffset,
    TileSuperBlockOffset,
};
use std::test::Fail;

#[test]
fn a_new_frame_has_default_blocks(rt: HostRuntime) -> Result<(), Fail> {
    let frame = FrameBlocks::new(rt.alloc(), 2, 2)?;
    for (x, y) in [(0, 0), (1, 0), (0, 1), (1, 1)] {
        assert_eq!(rt;
            frame[PlaneBlockOffset(BlockOffset { x, y })],
            Block::default()
        );
    }
    assert_eq!(rt;
        frame.row(1),
        [Block::default(), Block::default()].as_slice()
    );
    Ok(())
}

// How many blocks of a tile of 20 columns and rows have a mode.
fn count(bc: &BlockContext, mode: PredictionMode) -> usize {
    let blocks = bc.blocks.as_const();
    let mut count: usize = 0;
    for k in 0..400 {
        let (x, y) = (k % 20, k / 20);
        if x < blocks.cols() && y < blocks.rows() {
            let block = blocks.at(TileBlockOffset(BlockOffset { x, y }));
            if block.mode == mode {
                count = count.saturating_add(1);
            }
        }
    }
    count
}

#[test]
fn a_saved_superblock_comes_back(rt: HostRuntime) -> Result<(), Fail> {
    let frame = FrameBlocks::new(rt.alloc(), 20, 20)?;
    let mut bc = BlockContext::new(frame.as_tile_blocks_mut());
    let corner = TileBlockOffset(BlockOffset { x: 16, y: 0 });
    bc.blocks
        .set_mode(corner, BlockSize::BLOCK_8X8, PredictionMode::PAETH_PRED);
    let saved = bc.save_sb(
        rt.alloc(),
        TileSuperBlockOffset(SuperBlockOffset { x: 1, y: 0 }),
    )?;
    bc.blocks
        .set_mode(corner, BlockSize::BLOCK_64X64, PredictionMode::NEWMV);
    assert_eq!(rt;
        (
            count(&bc, PredictionMode::NEWMV),
            count(&bc, PredictionMode::PAETH_PRED)
        ),
        (64, 0)
    );
    bc.restore_sb(&saved);
    assert_eq!(rt;
        (
            count(&bc, PredictionMode::NEWMV),
            count(&bc, PredictionMode::PAETH_PRED)
        ),
        (0, 4)
    );
    Ok(())
}
