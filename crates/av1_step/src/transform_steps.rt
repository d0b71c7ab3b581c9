// The steps of the sizes of transforms.
ghost use Rattle.std.specs.Prelude.{◌≡◌, ◌&&◌, ◌^◌, ◌≤◌, OnOk, OnErr, Some, None};
ghost use Rattle.av1_blocks.specs.Block.{is_inter};
ghost use Rattle.av1_blocks.specs.Edges.{HasEdges};
ghost use Rattle.av1_cdf.specs.Context.{AreCdfs};
ghost use Rattle.av1_geometry.specs.BlockSize.{number_of};
ghost use Rattle.av1_geometry.specs.BlockTables.{max_tx_size};
ghost use Rattle.av1_syntax.specs.Calls.{Coded, Moved};
ghost use Rattle.av1_syntax.specs.TransformSizes.{is_offered, same_size, split_element, entered_split};
ghost use Rattle.av1_step.specs.Kept.{IsBlock};
ghost use Rattle.av1_step.specs.TransformSteps.{standing_at, has_tx_choice, inter_tx_size};

use crate::tile::TileState;
use av1_blocks::Block;
use av1_ec::Writer;
use av1_geometry::{BlockSize, ChromaSampling, OutOfMemory, Rule, TileBlockOffset, TxSize};
use av1_syntax::ContextWriter;

impl<'u> TileState<'u> {
    ghost use Rattle.av1_geometry.specs.Rules.{first_broken};
    ghost use Rattle.av1_step.specs.declared.step.TileStep.TheVariants.{TxNote, TxIntra, TxInter};
    ghost use Rattle.av1_step.specs.State.{tile_of, log_of};
    ghost use Rattle.av1_step.specs.Step.{entered, rules};
    ghost use Rattle.av1_step.specs.Writing.{Writes};

    // What stands in the grid at the place of the current block.
    pub(crate) fn standing_at(&self, b: (TileBlockOffset, BlockSize)) -> Block
        requires { (tile_of self.now).current ≡ Some b }
        ensures { result ≡ standing_at (tile_of self.now) b }
    {
        let (bo, _) = b;
        self.cw.bc.blocks[bo]
    }

    // The first rule that entering the current block's transforms breaks: there is a current block.
    pub(crate) fn check_tx_note(&self) -> Option<Rule>
        ensures { result ≡ first_broken (rules TxNote (tile_of self.now)) }
    {
        match self.current {
            Some(_) => None,
            None => Some(Rule(64)),
        }
    }

    // Enters the current block's transforms in the edges.
    pub(crate) fn enter_tx_note(&mut self)
        requires { first_broken (rules TxNote (tile_of self.old)) ≡ None }
        ensures tile { tile_of self.new ≡ entered TxNote (tile_of self.old) }
        ensures log { log_of self.new ≡ log_of self.old }
    {
        let (bo, size) = self.current.unwrap();
        let block = self.standing_at((bo, size));
        let skip = is_skipped_inter(&block);
        self.cw
            .bc
            .update_tx_size_context(bo, size, block.txsize, skip);
    }

    // Whether the frame leaves it to blocks of a size how large their transforms are.
    fn has_tx_choice(&self, size: BlockSize) -> bool
        ensures { result ≡ has_tx_choice (tile_of self.now) size }
    {
        self.unit.fi.tx_mode_select && size.number() >= 1
    }

    // The first rule that a size of an intra block's transforms breaks.
    pub(crate) fn check_tx_intra(&self, tx_size: TxSize) -> Option<Rule>
        ensures { result ≡ first_broken (rules (TxIntra tx_size) (tile_of self.now)) }
    {
        let Some(b) = self.current else {
            return Some(Rule(64));
        };
        if !self.is_intra(b) {
            return Some(Rule(66));
        }
        if !self.has_tx_choice(b.1) {
            return Some(Rule(76));
        }
        if is_offered(b.1, tx_size) {
            None
        } else {
            Some(Rule(76))
        }
    }

    // Codes the size of the transforms of the current block, which is an intra block.
    pub(crate) fn write_tx_intra<W: Writer>(
        &mut self,
        w: &mut W,
        tx_size: TxSize,
    ) -> Result<(), OutOfMemory>
        requires rules { first_broken (rules (TxIntra tx_size) (tile_of self.old)) ≡ None }
        requires early { (W.position w.old).shift ≤ 2 ^ 28 }
        ensures { Writes W.Known result (TxIntra tx_size) w.old w.new self.old self.new }
    {
        let (bo, size) = self.current.unwrap();
        self.cw.write_tx_size_intra(w, bo, size, tx_size)?;
        self.cw.bc.blocks.set_txsize(bo, size, tx_size);
        self.cw.bc.update_tx_size_context(bo, size, tx_size, false);
        Ok(())
    }

    // The first rule that a split of an inter block's largest transform breaks.
    pub(crate) fn check_tx_inter(&self, split: bool) -> Option<Rule>
        ensures { result ≡ first_broken (rules (TxInter split) (tile_of self.now)) }
    {
        let Some(b) = self.current else {
            return Some(Rule(64));
        };
        if self.unit.fi.intra_only {
            return Some(Rule(65));
        }
        if self.is_intra(b) {
            return Some(Rule(66));
        }
        if !self.has_tx_choice(b.1) {
            return Some(Rule(76));
        }
        if self.standing_at(b).skip {
            Some(Rule(76))
        } else {
            None
        }
    }

    // Codes whether the largest transform of the current block, which is an inter block, is split.
    pub(crate) fn write_tx_inter<W: Writer>(
        &mut self,
        w: &mut W,
        split: bool,
    ) -> Result<(), OutOfMemory>
        requires rules { first_broken (rules (TxInter split) (tile_of self.old)) ≡ None }
        requires early { (W.position w.old).shift ≤ 2 ^ 28 }
        ensures { Writes W.Known result (TxInter split) w.old w.new self.old self.new }
    {
        let (bo, size) = self.current.unwrap();
        let sampling = self.unit.fi.sequence.chroma_sampling;
        write_split(&mut self.cw, w, bo, size, split, sampling)?;
        self.cw
            .bc
            .blocks
            .set_txsize(bo, size, inter_tx_size(size, split));
        Ok(())
    }
}

// Whether a size is that of a block's largest transform, or comes of it by halving the longer side once or twice.
fn is_offered(size: BlockSize, tx_size: TxSize) -> bool
    ensures { result ≡ is_offered (max_tx_size size) tx_size }
{
    let largest = size.tx_size();
    let half = largest.sub_tx_size();
    same_size(tx_size, largest)
        || same_size(tx_size, half)
        || same_size(tx_size, half.sub_tx_size())
}

// Whether two sizes are one.
fn same_size(a: TxSize, b: TxSize) -> bool
    ensures { result ≡ same_size a b }
{
    a.number() == b.number()
}

// The size of the transforms of an inter block, whose largest transform is split or not.
fn inter_tx_size(size: BlockSize, split: bool) -> TxSize
    ensures { result ≡ inter_tx_size size split }
{
    if split {
        size.tx_size().sub_tx_size()
    } else {
        size.tx_size()
    }
}

// Whether a block is an inter block without coefficients.
fn is_skipped_inter(block: &Block) -> bool
    ensures { result ≡ (block.now.skip && is_inter block.now) }
{
    block.skip && block.is_inter()
}

// Codes whether the largest transform of an inter block is split, and enters its transforms in the edges. At a refusal the edges
// are as they were.
fn write_split<W: Writer>(
    cw: &mut ContextWriter,
    w: &mut W,
    bo: TileBlockOffset,
    size: BlockSize,
    split: bool,
    sampling: ChromaSampling,
) -> Result<(), OutOfMemory>
    requires block { IsBlock cw.old.bc.blocks.cols cw.old.bc.blocks.rows bo.0 size }
    requires few { cw.old.bc.blocks.cols ≤ 1024 }
    requires larger { 1 ≤ number_of size }
    requires edges { HasEdges cw.old.bc }
    requires cdfs { AreCdfs cw.old.fc }
    requires early { (W.position w.old).shift ≤ 2 ^ 28 }
    ensures wrote { Coded W.Known result (split_element cw.old.bc bo.0 size 0 0) split w.old w.new cw.old cw.new }
    ensures moves { Moved W.Known 65 w.old w.new cw.old cw.new }
    ensures entered { OnOk result (cw.new.bc ≡ entered_split bo.0 size (max_tx_size size) split cw.old.bc) }
    ensures refused { OnErr result (cw.new.bc ≡ cw.old.bc) }
{
    let edges = cw.bc.checkpoint(&bo, sampling);
    let largest = size.tx_size();
    match cw.write_tx_size_inter(w, bo, size, largest, split, 0, 0, 0) {
        Ok(()) => Ok(()),
        Err(e) => {
            cw.bc.rollback(&edges);
            Err(e)
        }
    }
}
