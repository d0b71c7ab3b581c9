// What the write calls move.
ghost use Rattle.std.specs.Prelude.{◌≡◌, ℕ, List, take, ◌+◌, ◌*◌, ◌^◌, ◌<◌, ◌≤◌, true, false, OnOk, OnErr, length};
ghost use Rattle.av1_cdf.specs.Context.{AreCdfs};
ghost use Rattle.av1_cdf.specs.Distribution.Distribution.{Adaptive, Fixed};
ghost use Rattle.av1_cdf.specs.Log.{stored};
ghost use Rattle.av1_cdf.specs.Slots.{slot_of};
ghost use Rattle.av1_model.specs.Cdf.{IsCdf};
ghost use Rattle.av1_model.specs.Comes.{Stores};

use av1_blocks::{BlockContext, BlockContextCheckpoint};
use av1_cdf::{CDFContext, CDFContextCheckpoint, CDFContextLog, CDFOffset};
use av1_ec::Writer;
use av1_geometry::{ChromaSampling, OutOfMemory, TileBlockOffset};
use std::alloc::Global;

/// The edges and the grid of a tile, the context of its distributions, and the log of what changed in it.
#[derive(Drop)]
pub struct ContextWriter {
    pub bc: BlockContext,
    pub fc: CDFContext,
    pub fc_log: CDFContextLog,

    /// Whether the distributions learn from the symbols that are coded.
    pub adapt: bool,

    /// Whether the class of an end of coefficients goes by the coded size of the transform, and not by the whole.
    pub eob_by_coded: bool,
}

/// A moment of a writer of syntax (rav1e, `context/mod.rs`).
#[derive(Clone, Copy)]
pub struct ContextWriterCheckpoint {
    pub fc: CDFContextCheckpoint,
    pub bc: BlockContextCheckpoint,
}

impl ContextWriter {
    ghost use Rattle.av1_blocks.specs.Edges.{taken, with_edges};
    ghost use Rattle.av1_cdf.specs.Log.{IsReached, IsWithin, undone, saves_of};
    ghost use Rattle.av1_cdf.specs.declared.log.CDFContextCheckpoint.{CDFContextCheckpoint};
    ghost use Rattle.av1_syntax.specs.Calls.{stands, coded_in, learnt_in, saves_before, Coded, Moved};
    ghost use Rattle.av1_syntax.specs.Flags.{flag};
    ghost use Rattle.av1_syntax.specs.Literals.{literal};

    /// A writer of a tile, with an empty log. Its distributions learn, and the class of an end goes by the whole size.
    pub fn new(alloc: Global, fc: CDFContext, bc: BlockContext) -> Self
        ensures fc { result.fc ≡ fc }
        ensures bc { result.bc ≡ bc }
        ensures log { stored result.fc_log ≡ 0 }
        ensures adapt { result.adapt ≡ true }
        ensures eob_by_coded { result.eob_by_coded ≡ false }
    {
        ContextWriter {
            bc,
            fc,
            fc_log: CDFContextLog::new(alloc),
            adapt: true,
            eob_by_coded: false,
        }
    }

    /// A checkpoint of now: of the context, and of the edges as far as the blocks of the superblock of a place may change them.
    pub fn checkpoint(
        &self,
        tile_bo: &TileBlockOffset,
        chroma_sampling: ChromaSampling,
    ) -> ContextWriterCheckpoint
        ensures edges { result.bc ≡ taken tile_bo.now.0 chroma_sampling self.now.bc }
        ensures reached { IsReached self.now.fc_log result.fc }
        ensures last { (c : CDFContextCheckpoint) → IsReached self.now.fc_log c → IsWithin c result.fc }
        ensures context { (context : List ℕ) → undone self.now.fc_log context result.fc ≡ context }
    {
        ContextWriterCheckpoint {
            fc: self.fc_log.checkpoint(),
            bc: self.bc.checkpoint(tile_bo, chroma_sampling),
        }
    }

    /// The context and the edges go back to a checkpoint that the log still reaches; the grid and the switches stay. Each
    /// checkpoint that reaches no further stands for the context that it stood for.
    pub fn rollback(&mut self, checkpoint: &ContextWriterCheckpoint)
        requires { IsReached self.old.fc_log checkpoint.now.fc }
        ensures context { self.new.fc ≡ undone self.old.fc_log self.old.fc checkpoint.now.fc }
        ensures edges { self.new.bc ≡ with_edges checkpoint.now.bc self.old.bc }
        ensures switches { (self.new.adapt ≡ self.old.adapt) × (self.new.eob_by_coded ≡ self.old.eob_by_coded) }
        ensures cut { saves_of self.new.fc_log ≡ saves_before self.old.fc_log checkpoint.now.fc }
        ensures reached { (c : CDFContextCheckpoint) → IsWithin c checkpoint.now.fc → IsReached self.new.fc_log c }
        ensures kept { (c : CDFContextCheckpoint) → IsWithin c checkpoint.now.fc → undone self.new.fc_log self.new.fc c ≡ undone self.old.fc_log self.old.fc c }
    {
        self.fc_log.rollback(&mut self.fc, &checkpoint.fc);
        self.bc.rollback(&checkpoint.bc);
    }

    // Codes a symbol of a distribution of the context, which learns from it where distributions learn: `symbol_with_update!` of
    // rav1e. A refusal leaves writer and context as they were.
    #[inline(always)]
    pub(crate) fn symbol<W: Writer>(
        &mut self,
        w: &mut W,
        s: u32,
        cdf: CDFOffset,
    ) -> Result<(), OutOfMemory>
        requires cdfs { AreCdfs self.old.fc }
        requires s { s < cdf.len }
        requires shift { (W.position w.old).shift + 13 ≤ 2 ^ 28 + 2 ^ 24 }
        ensures ok { OnOk result (Stores coded_in learnt_in (Adaptive (slot_of cdf)) s (stands W.Known w.old self.old) (stands W.Known w.new self.new)) }
        ensures err { OnErr result (stands W.Known w.new self.new ≡ stands W.Known w.old self.old) }
        ensures moves { Moved W.Known 13 w.old w.new self.old self.new }
        ensures rest { self.new.bc ≡ self.old.bc }
    {
        if self.adapt {
            self.learnt_symbol(w, s, cdf)
        } else {
            self.fixed_symbol(w, s, self.fc.values_of(cdf))
        }
    }

    // Codes a symbol of a distribution of the context, which learns from it.
    #[inline(always)]
    fn learnt_symbol<W: Writer>(
        &mut self,
        w: &mut W,
        s: u32,
        cdf: CDFOffset,
    ) -> Result<(), OutOfMemory>
        requires adapt { self.old.adapt ≡ true }
        requires cdfs { AreCdfs self.old.fc }
        requires s { s < cdf.len }
        requires shift { (W.position w.old).shift + 13 ≤ 2 ^ 28 + 2 ^ 24 }
        ensures ok { OnOk result (Stores coded_in learnt_in (Adaptive (slot_of cdf)) s (stands W.Known w.old self.old) (stands W.Known w.new self.new)) }
        ensures err { OnErr result (stands W.Known w.new self.new ≡ stands W.Known w.old self.old) }
        ensures moves { Moved W.Known 13 w.old w.new self.old self.new }
        ensures rest { self.new.bc ≡ self.old.bc }
    {
        w.symbol_with_update(s, cdf, &mut self.fc_log, &mut self.fc)?;
        Ok(())
    }

    // Codes a symbol of a distribution that stays as it is.
    #[inline(always)]
    pub(crate) fn fixed_symbol<W: Writer>(
        &self,
        w: &mut W,
        s: u32,
        cdf: &[u16],
    ) -> Result<(), OutOfMemory>
        requires cdfs { AreCdfs self.now.fc }
        requires cdf { IsCdf cdf.now }
        requires s { s < length cdf.now }
        requires shift { (W.position w.old).shift + 13 ≤ 2 ^ 28 + 2 ^ 24 }
        ensures ok { OnOk result (Stores coded_in learnt_in (Fixed cdf.now) s (stands W.Known w.old self.now) (stands W.Known w.new self.now)) }
        ensures err { OnErr result (stands W.Known w.new self.now ≡ stands W.Known w.old self.now) }
        ensures moves { Moved W.Known 13 w.old w.new self.now self.now }
    {
        w.symbol(s, cdf)?;
        Ok(())
    }

    // Codes a flag by a distribution of the context.
    #[inline(always)]
    pub(crate) fn flag<W: Writer>(
        &mut self,
        w: &mut W,
        on: bool,
        cdf: CDFOffset,
    ) -> Result<(), OutOfMemory>
        requires cdfs { AreCdfs self.old.fc }
        requires shift { (W.position w.old).shift + 13 ≤ 2 ^ 28 + 2 ^ 24 }
        ensures wrote { Coded W.Known result (flag (Adaptive (slot_of cdf))) on w.old w.new self.old self.new }
        ensures moves { Moved W.Known 13 w.old w.new self.old self.new }
        ensures rest { self.new.bc ≡ self.old.bc }
    {
        self.symbol(w, u32::from(on), cdf)
    }

    // Codes a number in so many bits that are as likely as not.
    pub(crate) fn literal<W: Writer>(&self, w: &mut W, bits: u8, v: u32) -> Result<(), OutOfMemory>
        requires cdfs { AreCdfs self.now.fc }
        requires bits { bits ≤ 8 }
        requires fits { v < 2 ^ bits }
        requires shift { (W.position w.old).shift + 13 * bits ≤ 2 ^ 28 + 2 ^ 24 }
        ensures wrote { Coded W.Known result (literal bits) v w.old w.new self.now self.now }
        ensures moves { Moved W.Known (13 * bits) w.old w.new self.now self.now }
    {
        w.literal(bits, v)?;
        Ok(())
    }
}
