// The steps that begin rows and blocks, part blocks and skip them.
ghost use Rattle.std.specs.Prelude.{◌≡◌, ◌^◌, ◌<◌, ◌≤◌, None};
ghost use Rattle.av1_geometry.specs.BlockSize.{width_log2, height_log2};
ghost use Rattle.av1_step.specs.Step.{is_parted_size, is_split_on, may_be_parted};
ghost use Rattle.av1_step.specs.Tile.{new_block};

use crate::tile::TileState;
use av1_blocks::Block;
use av1_ec::Writer;
use av1_geometry::{
    BlockOffset, BlockSize, OutOfMemory, PartitionType, RefType, Rule, TileBlockOffset,
};

impl<'u> TileState<'u> {
    ghost use Rattle.av1_geometry.specs.declared.block_offset.BlockOffset.{BlockOffset};
    ghost use Rattle.av1_geometry.specs.Rules.{first_broken};
    ghost use Rattle.av1_step.specs.declared.step.TileStep.TheVariants.{RowStart, Block as BlockStep, Partition, Skip};
    ghost use Rattle.av1_step.specs.State.{tile_of, log_of};
    ghost use Rattle.av1_step.specs.Step.{entered, is_coded_size, rules};
    ghost use Rattle.av1_step.specs.Writing.{Writes};

    // A row of superblocks begins.
    pub(crate) fn enter_row(&mut self)
        ensures tile { tile_of self.new ≡ entered RowStart (tile_of self.old) }
        ensures log { log_of self.new ≡ log_of self.old }
    {
        let planes = self.unit.fi.sequence.chroma_sampling.planes();
        self.cw.bc.reset_left_contexts(planes);
    }

    pub(crate) fn check_block(&self, x: usize, y: usize, size: BlockSize) -> Option<Rule>
        ensures { result ≡ first_broken (rules (BlockStep x y size) (tile_of self.now)) }
    {
        if let Some(rule) = self.outside(BlockOffset { x, y }) {
            return Some(rule);
        }
        if self.is_coded_size(size) && x % size.width_mi() == 0 && y % size.height_mi() == 0 {
            None
        } else {
            Some(Rule(61))
        }
    }

    // Whether a size has no side of 128, and its chroma has a size.
    #[tactic(auto, unfolding(crate::specs::Tile::has_chroma_size))]
    fn is_coded_size(&self, size: BlockSize) -> bool
        ensures { result ≡ is_coded_size (tile_of self.now) size }
    {
        let sampling = self.unit.fi.sequence.chroma_sampling;
        size.width_log2() <= 6
            && size.height_log2() <= 6
            && size
                .subsampled_size(sampling.xdec(), sampling.ydec())
                .is_some()
    }

    // A block becomes the current one.
    pub(crate) fn enter_block(&mut self, x: usize, y: usize, size: BlockSize)
        requires { first_broken (rules (BlockStep x y size) (tile_of self.old)) ≡ None }
        ensures tile { tile_of self.new ≡ entered (BlockStep x y size) (tile_of self.old) }
        ensures log { log_of self.new ≡ log_of self.old }
    {
        let bo = TileBlockOffset(BlockOffset { x, y });
        self.cw.bc.blocks.set_block(bo, size, new_block(size));
        self.current = Some((bo, size));
        self.uv = None;
        self.cands = None;
        self.pick = 0;
    }

    pub(crate) fn check_partition(
        &self,
        x: usize,
        y: usize,
        size: BlockSize,
        p: PartitionType,
    ) -> Option<Rule>
        ensures { result ≡ first_broken (rules (Partition x y size p) (tile_of self.now)) }
    {
        if let Some(rule) = self.outside(BlockOffset { x, y }) {
            return Some(rule);
        }
        if !(is_parted_size(size) && x % size.width_mi() == 0 && y % size.height_mi() == 0) {
            return Some(Rule(62));
        }
        if self.is_allowed(x, y, size, p) {
            None
        } else {
            Some(Rule(63))
        }
    }

    // Whether a block that keeps rule 62 may be parted so: where its second half begins outside, it has to be parted there.
    fn is_allowed(&self, x: usize, y: usize, size: BlockSize, p: PartitionType) -> bool
        requires inside { (x < (tile_of self.now).bc.blocks.cols) × (y < (tile_of self.now).bc.blocks.rows) }
        requires square { width_log2 size ≡ height_log2 size }
        ensures { result ≡ may_be_parted (tile_of self.now).bc.blocks (record { x = x; y = y }) size p }
    {
        let half = size.width_mi() / 2;
        let has_cols = x + half < self.cw.bc.blocks.cols();
        let has_rows = y + half < self.cw.bc.blocks.rows();
        let number = p.number();
        match (has_cols, has_rows) {
            (true, true) => size.width_log2() != 3 || number < 4,
            (true, false) => number == 1 || number == 3,
            (false, true) => number == 2 || number == 3,
            (false, false) => number == 3,
        }
    }

    // Codes how a block is parted.
    pub(crate) fn write_partition<W: Writer>(
        &mut self,
        w: &mut W,
        x: usize,
        y: usize,
        size: BlockSize,
        p: PartitionType,
    ) -> Result<(), OutOfMemory>
        requires rules { first_broken (rules (Partition x y size p) (tile_of self.old)) ≡ None }
        requires early { (W.position w.old).shift ≤ 2 ^ 28 }
        ensures { Writes W.Known result (Partition x y size p) w.old w.new self.old self.new }
    {
        let bo = TileBlockOffset(BlockOffset { x, y });
        self.cw.write_partition(w, bo, p, size)?;
        if is_split_on(size, p) {
            return Ok(());
        }
        if let Some(subsize) = size.subsize(p) {
            self.cw.bc.update_partition_context(bo, subsize, size);
        }
        Ok(())
    }

    // The first rule that a skip flag breaks: there is a current block.
    pub(crate) fn check_skip(&self, skip: bool) -> Option<Rule>
        ensures { result ≡ first_broken (rules (Skip skip) (tile_of self.now)) }
    {
        match self.current {
            Some(_) => None,
            None => Some(Rule(64)),
        }
    }

    // Codes the skip flag of the current block.
    pub(crate) fn write_skip<W: Writer>(&mut self, w: &mut W, skip: bool) -> Result<(), OutOfMemory>
        requires rules { first_broken (rules (Skip skip) (tile_of self.old)) ≡ None }
        requires early { (W.position w.old).shift ≤ 2 ^ 28 }
        ensures { Writes W.Known result (Skip skip) w.old w.new self.old self.new }
    {
        let (bo, size) = self.current.unwrap();
        self.cw.write_skip(w, bo, skip)?;
        self.cw.bc.blocks.set_skip(bo, size, skip);
        if skip {
            let sampling = self.unit.fi.sequence.chroma_sampling;
            self.cw
                .bc
                .reset_skip_context(bo, size, sampling.xdec(), sampling.ydec(), sampling);
        }
        Ok(())
    }
}

// What stands in the grid where a block of a size was entered.
fn new_block(size: BlockSize) -> Block
    ensures { result ≡ new_block size }
{
    Block {
        bsize: size,
        n4_w: size.width_mi() as u8,
        n4_h: size.height_mi() as u8,
        ref_frames: [RefType::INTRA_FRAME, RefType::NONE_FRAME],
        txsize: size.tx_size(),
        ..Block::DEFAULT
    }
}

// Whether a block above 8x8 is split, which leaves its edges to its parts.
fn is_split_on(size: BlockSize, p: PartitionType) -> bool
    ensures { result ≡ is_split_on size p }
{
    p.number() == 3 && size.width_log2() > 3
}

// Whether a size is a square from 8x8 to 64x64.
fn is_parted_size(size: BlockSize) -> bool
    ensures { result ≡ is_parted_size size }
{
    let side = size.width_log2();
    side == size.height_log2() && 3 <= side && side <= 6
}
