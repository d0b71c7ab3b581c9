// A row of numbers, and the grid that it stands for.
use av1_blocks::{Block, FrameBlocks, TileBlocksMut};
use av1_geometry::{
    BlockOffset, BlockSize, MotionVector, PredictionMode, RefType, TileBlockOffset,
};
use std::alloc::{AllocError, Global};
use std::test::Fail;

// Numbers, read one after another; 0 beyond the last one.
#[derive(Drop)]
pub struct Numbers {
    numbers: Vec<usize>,
    at: usize,
}

impl Numbers {
    pub fn of(alloc: Global, text: &str) -> Result<Numbers, AllocError> {
        let mut numbers = Vec::new(alloc);
        for word in text.split(' ') {
            numbers.push(word.parse().unwrap_or(0))?;
        }
        Ok(Numbers { numbers, at: 0 })
    }

    pub fn next(&mut self) -> usize {
        if self.at < self.numbers.len() {
            let number = self.numbers[self.at];
            self.at += 1;
            number
        } else {
            0
        }
    }

    pub fn next_place(&mut self) -> TileBlockOffset {
        let x = self.next();
        let y = self.next();
        at(x, y)
    }

    pub fn next_bool(&mut self) -> bool {
        self.next() == 1
    }

    pub fn next_reference(&mut self) -> RefType {
        RefType::from_number(self.next()).unwrap_or(RefType::NONE_FRAME)
    }

    pub fn next_size(&mut self) -> BlockSize {
        BlockSize::from_number(self.next()).unwrap_or(BlockSize::BLOCK_4X4)
    }

    // A part of a vector, as so much above the least one.
    fn next_part(&mut self) -> i16 {
        self.next().min(32767) as i16 - 16384
    }

    fn next_vector(&mut self) -> MotionVector {
        let row = self.next_part();
        let col = self.next_part();
        MotionVector { row, col }
    }

    fn next_block(&mut self) -> Block {
        let mode = PredictionMode::from_number(self.next()).unwrap_or(PredictionMode::DC_PRED);
        let ref_frames = [self.next_reference(), self.next_reference()];
        let mv = [self.next_vector(), self.next_vector()];
        let bsize = self.next_size();
        Block {
            mode,
            ref_frames,
            mv,
            bsize,
            n4_w: bsize.width_mi() as u8,
            n4_h: bsize.height_mi() as u8,
            ..Block::DEFAULT
        }
    }
}

fn at(x: usize, y: usize) -> TileBlockOffset {
    TileBlockOffset(BlockOffset { x, y })
}

// The tile of a row: the frame's columns and rows, its corner, and its own columns and rows.
pub fn tile(alloc: Global, numbers: &mut Numbers) -> Result<TileBlocksMut, Fail> {
    let frame_cols = numbers.next().min(64);
    let frame_rows = numbers.next().min(64);
    let x = numbers.next().min(frame_cols);
    let y = numbers.next().min(frame_rows);
    let cols = numbers.next().min(frame_cols - x);
    let rows = numbers.next().min(frame_rows - y);
    let frame = FrameBlocks::new(alloc, frame_cols, frame_rows)?;
    Ok(TileBlocksMut::new(frame, x, y, cols, rows))
}

// Enters the blocks of a row: how many kinds there are, each kind, and the kind of each place.
pub fn fill(alloc: Global, tile: &mut TileBlocksMut, numbers: &mut Numbers) -> Result<(), Fail> {
    let mut kinds = Vec::new(alloc);
    for _ in 0..numbers.next() {
        kinds.push(numbers.next_block())?;
    }
    for y in 0..tile.rows() {
        for x in 0..tile.cols() {
            let kind = numbers.next();
            if kind < kinds.len() {
                enter(tile, at(x, y), kinds[kind]);
            }
        }
    }
    Ok(())
}

// Enters a block at one place of the tile.
pub fn enter(tile: &mut TileBlocksMut, bo: TileBlockOffset, block: Block) {
    if bo.0.x < tile.cols() && bo.0.y < tile.rows() {
        tile.set_block(bo, BlockSize::BLOCK_4X4, block);
    }
}
