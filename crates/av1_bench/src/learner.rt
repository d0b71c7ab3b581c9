// A context that learns from the symbols that are coded by it.
ghost use Rattle.std.specs.Prelude.{◌≡◌, ◌+◌, ◌^◌, ◌<◌, ◌≤◌};
ghost use Rattle.av1_cdf.specs.Context.{AreCdfs};
ghost use Rattle.av1_cdf.specs.Log.{IsReached, undone};

use av1_cdf::{CDFContext, CDFContextCheckpoint, CDFContextLog, CDFOffset};
use av1_ec::{Writer, WriterCheckpoint};
use av1_geometry::OutOfMemory;
use std::alloc::Global;

/// A context, and what goes back to its mark. The mark stands for the context of its moment, `undone log fc log_mark`, and
/// for the writer's position then.
#[derive(Drop)]
pub(crate) struct Learner {
    fc: CDFContext,
    log: CDFContextLog,
    // Where the log and the writer stood at the mark.
    log_mark: CDFContextCheckpoint,
    writer_mark: WriterCheckpoint,
    ghost cdfs: { AreCdfs fc },
    ghost reached: { IsReached log log_mark },
    ghost undone: { AreCdfs (undone log fc log_mark) },
}

impl Learner {
    /// One to which all symbols are equally likely, with its mark at here.
    pub(crate) fn new<W: Writer>(alloc: Global, w: &W) -> Learner
        ensures reached { W.IsReached w.now result.writer_mark }
        ensures mark { W.position_at w.now result.writer_mark ≡ W.position w.now }
    {
        let log = CDFContextLog::new(alloc);
        Learner {
            fc: CDFContext::uniform(),
            log_mark: log.checkpoint(),
            log,
            writer_mark: w.checkpoint(),
        }
    }

    /// The context.
    pub(crate) fn context(&self) -> &CDFContext {
        &self.fc
    }

    /// Codes a symbol by a CDF, which then learns from it; it takes at most 13 bits. What the mark stands for stays.
    #[inline(always)]
    pub(crate) fn code<W: Writer>(
        &mut self,
        w: &mut W,
        s: u8,
        cdf: CDFOffset,
    ) -> Result<(), OutOfMemory>
        requires s { s < cdf.len }
        requires shift { (W.position w.old).shift + 13 ≤ 2 ^ 28 + 2 ^ 24 }
        requires reached { W.IsReached w.old self.old.writer_mark }
        ensures shift { (W.position w.new).shift ≤ (W.position w.old).shift + 13 }
        ensures reached { W.IsReached w.new self.new.writer_mark }
        ensures mark { W.position_at w.new self.new.writer_mark ≡ W.position_at w.old self.old.writer_mark }
    {
        w.symbol_with_update(u32::from(s), cdf, &mut self.log, &mut self.fc)
    }

    /// Sets the mark to here. The context stays.
    pub(crate) fn set_mark<W: Writer>(&mut self, w: &W)
        ensures reached { W.IsReached w.now self.new.writer_mark }
        ensures mark { W.position_at w.now self.new.writer_mark ≡ W.position w.now }
    {
        self.log_mark = self.log.checkpoint();
        self.writer_mark = w.checkpoint();
    }

    /// Goes back to the mark, which stays.
    pub(crate) fn rollback<W: Writer>(&mut self, w: &mut W)
        requires reached { W.IsReached w.old self.old.writer_mark }
        ensures position { W.position w.new ≡ W.position_at w.old self.old.writer_mark }
        ensures reached { W.IsReached w.new self.new.writer_mark }
    {
        w.rollback(&self.writer_mark);
        self.log.rollback(&mut self.fc, &self.log_mark);
    }

    /// Forgets what was learned since when: the context stays, and can go back no further than to here. The writer's mark
    /// stays where it was.
    pub(crate) fn clear_log(&mut self)
        ensures writer_mark { self.new.writer_mark ≡ self.old.writer_mark }
    {
        self.log.clear();
        self.log_mark = self.log.checkpoint();
    }
}
