// The edges of a block, along which neighbours are visited.
ghost use Rattle.std.specs.Prelude.{◌≡◌, ◌+◌, ◌*◌, ◌-◌, ◌%◌, ◌^◌, ◌<◌, ◌≤◌, min, max, nat_lt, nat_le, if◌then◌else◌};
ghost use Rattle.av1_geometry.specs.BlockSize.{width_mi, height_mi};
ghost use Rattle.av1_blocks.specs.Grid.{IsInside};
ghost use Rattle.av1_blocks.specs.Sound.{IsSound, IsReady};
ghost use Rattle.av1_mvref.specs.Neighbours.{pick, edge, half, reach, second, shown, begins, at_distance, steps, spans, lines_of, weight_of, done_by, edge_of};

use av1_blocks::{Block, TileBlocks};
use av1_geometry::{BlockOffset, BlockSize, TileBlockOffset};

// The upper edge of a block, or the left one.
#[derive(Clone, Copy)]
pub(crate) enum Direction {
    Upper,
    Left,
}

impl Direction {
    // What is for rows, or what is for columns.
    fn pick(self, upper: usize, left: usize) -> usize
        ensures { result ≡ pick self upper left }
    {
        match self {
            Direction::Upper => upper,
            Direction::Left => left,
        }
    }
}

// An edge of a block of a tile.
#[derive(Clone, Copy)]
pub(crate) struct BlockEdge {
    pub to: Direction,
    pub bo: TileBlockOffset,
    pub bsize: BlockSize,
}

// 1 for a side of one place in the second half of an 8x8 block.
fn half(side: usize, place: usize) -> usize
    ensures value { result ≡ half side place }
    ensures bound { result ≤ 1 }
{
    if side < 2 { place % 2 } else { 0 }
}

impl BlockEdge {
    fn side(self) -> usize
        ensures value { result ≡ pick self.to (width_mi self.bsize) (height_mi self.bsize) }
        ensures bound { result ≤ 32 }
    {
        self.to.pick(self.bsize.width_mi(), self.bsize.height_mi())
    }

    fn depth(self) -> usize
        ensures value { result ≡ pick self.to (height_mi self.bsize) (width_mi self.bsize) }
        ensures bound { result ≤ 32 }
    {
        self.to.pick(self.bsize.height_mi(), self.bsize.width_mi())
    }

    fn x(self) -> usize
        ensures { result ≡ pick self.to self.bo.0.x self.bo.0.y }
    {
        self.to.pick(self.bo.0.x, self.bo.0.y)
    }

    pub fn y(self) -> usize
        ensures { result ≡ pick self.to self.bo.0.y self.bo.0.x }
    {
        self.to.pick(self.bo.0.y, self.bo.0.x)
    }

    // How far from the edge neighbours are visited.
    pub fn reach(self, _blocks: &TileBlocks<'_>) -> usize
        ensures value { result ≡ reach (edge_of self _blocks.now) }
        ensures bound { result ≤ 6 }
    {
        let far = if self.depth() < 2 { 4 } else { 6 };
        (far - half(self.depth(), self.y())).min(self.y())
    }

    // The distance of the second line.
    pub fn second(self, _blocks: &TileBlocks<'_>) -> usize
        ensures value { result ≡ second (edge_of self _blocks.now) }
        ensures near { 2 ≤ result }
        ensures bound { result ≤ 3 }
    {
        3 - half(self.depth(), self.y())
    }

    // Along how many places.
    pub fn shown(self, blocks: &TileBlocks<'_>) -> usize
        requires { IsInside blocks.now self.bo.0 }
        ensures value { result ≡ shown (edge_of self blocks.now) }
        ensures bound { result ≤ 16 }
    {
        let end = self.to.pick(blocks.cols(), blocks.rows());
        self.side().min(end - self.x()).min(16)
    }

    // How many places of the line at a distance a block stands for.
    pub fn steps(self, _blocks: &TileBlocks<'_>, distance: usize, block: &Block) -> usize
        ensures value { result ≡ steps (edge_of self _blocks.now) distance block.now }
        ensures bound { result ≤ 32 }
    {
        let side = self.side();
        let long = side.min(self.side_of(_blocks, block));
        if side >= 16 {
            long.max(4)
        } else if distance > 1 {
            long.max(2)
        } else {
            long
        }
    }

    // How many places a block has along the edge.
    pub fn side_of(self, _blocks: &TileBlocks<'_>, block: &Block) -> usize
        ensures value { result ≡ pick self.to block.now.n4_w block.now.n4_h }
        ensures bound { result < 256 }
    {
        self.to.pick(block.n4_w as usize, block.n4_h as usize)
    }

    // Whether a block is as long as the edge.
    pub fn spans(self, _blocks: &TileBlocks<'_>, block: &Block) -> bool
        ensures { result ≡ spans (edge_of self _blocks.now) block.now }
    {
        let side = self.side();
        side >= 2 && side <= self.side_of(_blocks, block)
    }

    // How many lines within reach a block takes up.
    pub fn lines_of(self, blocks: &TileBlocks<'_>, distance: usize, block: &Block) -> usize
        requires { distance ≤ reach (edge_of self blocks.now) }
        ensures value { result ≡ lines_of (edge_of self blocks.now) distance block.now }
        ensures bound { result ≤ 7 }
    {
        let lines = self.reach(blocks) + 1 - distance;
        lines.min(self.to.pick(block.n4_h as usize, block.n4_w as usize))
    }

    // How many lines are done after a block at a distance.
    pub fn done_by(
        self,
        blocks: &TileBlocks<'_>,
        distance: usize,
        done: usize,
        block: &Block,
    ) -> usize
        requires near { 1 ≤ distance }
        requires far { distance ≤ reach (edge_of self blocks.now) }
        requires short { distance ≤ 6 }
        ensures { result ≡ done_by (edge_of self blocks.now) distance done block.now }
    {
        if self.spans(blocks, block) {
            self.lines_of(blocks, distance, block) + distance - 1
        } else {
            done
        }
    }

    // What a vector of a block weighs.
    pub fn weight_of(self, blocks: &TileBlocks<'_>, distance: usize, block: &Block) -> u32
        requires { distance ≤ reach (edge_of self blocks.now) }
        ensures value { result ≡ weight_of (edge_of self blocks.now) distance block.now }
        ensures bound { result ≤ 224 }
    {
        let lines = if self.spans(blocks, block) {
            self.lines_of(blocks, distance, block).max(2)
        } else {
            2
        };
        (self.steps(blocks, distance, block) * lines) as u32
    }

    // Where the line at a distance begins: beyond the first line, in the second half of an 8x8 block.
    fn first(self, distance: usize) -> usize
        ensures value { result ≡ begins (pick self.to (width_mi self.bsize) (height_mi self.bsize)) (pick self.to self.bo.0.x self.bo.0.y) distance }
        ensures bound { result ≤ 1 }
    {
        if distance > 1 {
            1 - half(self.side(), self.x())
        } else {
            0
        }
    }

    // The block at a place of the line at a distance.
    pub fn block_at<'a>(self, blocks: &'a TileBlocks<'_>, distance: usize, i: usize) -> &'a Block
        requires near { 1 ≤ distance }
        requires far { distance ≤ reach (edge_of self blocks.now) }
        requires inside { IsInside blocks.now self.bo.0 }
        requires ready { IsReady blocks.now }
        requires place { let e = edge_of self blocks.now in
            e.x + begins e.side e.x distance + i < e.end }
        ensures { result.now ≡ at_distance (edge_of self blocks.now) distance i }
    {
        // each place of the tile is a usize, as its end is
        let _end = self.to.pick(blocks.cols(), blocks.rows());
        let along = self.x() + self.first(distance) + i;
        let across = self.y() - distance;
        blocks.at(TileBlockOffset(BlockOffset {
            x: self.to.pick(along, across),
            y: self.to.pick(across, along),
        }))
    }
}
