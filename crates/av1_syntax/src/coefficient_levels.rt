// The levels of a transform block: sizes from the last to the first, then signs and what sizes have above 14 from the first to
// the last.
ghost use Rattle.std.specs.Prelude.{◌≡◌, ℕ, ◌+◌, ◌-◌, ◌*◌, ◌^◌, ◌<◌, ◌≤◌, min, unsigned_abs, Bool, true, false, if◌then◌else◌};
ghost use Rattle.av1_cdf.specs.Context.{AreCdfs};
ghost use Rattle.av1_cdf.specs.Distribution.{Distribution, Even};
ghost use Rattle.av1_cdf.specs.Distribution.Distribution.{Adaptive};
ghost use Rattle.av1_cdf.specs.Slots.{slot_of};
ghost use Rattle.av1_syntax.specs.Levels.{is_negative};

use crate::context_writer::ContextWriter;
use av1_cdf::{CDFContext, CDFOffset};
use av1_ec::Writer;
use av1_geometry::OutOfMemory;

impl ContextWriter {
    ghost use Rattle.av1_syntax.specs.Calls.{Coded, Moved};
    ghost use Rattle.av1_syntax.specs.Flags.{flag};
    ghost use Rattle.av1_syntax.specs.Levels.{range_element, golomb_element, level_element, cut_level, sign_by};

    // Codes what a size has above 3, up to 15.
    pub(crate) fn write_coeff_range<W: Writer>(
        &mut self,
        w: &mut W,
        size: u32,
        cdf: CDFOffset,
    ) -> Result<(), OutOfMemory>
        requires cdfs { AreCdfs self.old.fc }
        requires size { 3 ≤ size }
        requires four { cdf.len ≡ 4 }
        requires shift { (W.position w.old).shift + 52 ≤ 2 ^ 28 + 2 ^ 24 }
        ensures wrote { Coded W.Known result (range_element (Adaptive (slot_of cdf))) (min size 15) w.old w.new self.old self.new }
        ensures moves { Moved W.Known 52 w.old w.new self.old self.new }
        ensures rest { self.new.bc ≡ self.old.bc }
    {
        let mut read = 3;
        for turn in 0..4u32 {
            let s = (size - read).min(3);
            self.symbol(w, s, cdf)?;
            if s < 3 {
                return Ok(());
            }
            read += 3;
        }
        Ok(())
    }

    // Codes what a size has above 15.
    fn write_golomb<W: Writer>(&self, w: &mut W, rest: u32) -> Result<(), OutOfMemory>
        requires cdfs { AreCdfs self.now.fc }
        requires few { rest + 1 < 2 ^ 20 }
        requires shift { (W.position w.old).shift + 819 ≤ 2 ^ 28 + 2 ^ 24 }
        ensures wrote { Coded W.Known result golomb_element rest w.old w.new self.now self.now }
        ensures moves { Moved W.Known 819 w.old w.new self.now self.now }
    {
        w.write_golomb(rest)?;
        Ok(())
    }

    // Codes a flag that is as likely as not.
    #[inline(always)]
    fn even_flag<W: Writer>(&self, w: &mut W, on: bool) -> Result<(), OutOfMemory>
        requires cdfs { AreCdfs self.now.fc }
        requires shift { (W.position w.old).shift + 13 ≤ 2 ^ 28 + 2 ^ 24 }
        ensures wrote { Coded W.Known result (flag Even) on w.old w.new self.now self.now }
        ensures moves { Moved W.Known 13 w.old w.new self.now self.now }
    {
        self.fixed_symbol(w, u32::from(on), &[16384, 0])
    }

    // Codes a sign: that of the first level by a distribution that learns.
    #[inline(always)]
    fn write_coeff_sign<W: Writer>(
        &mut self,
        w: &mut W,
        negative: bool,
        first: bool,
        cdf: CDFOffset,
    ) -> Result<(), OutOfMemory>
        requires cdfs { AreCdfs self.old.fc }
        requires shift { (W.position w.old).shift + 13 ≤ 2 ^ 28 + 2 ^ 24 }
        ensures wrote { Coded W.Known result (flag (sign_by first (slot_of cdf))) negative w.old w.new self.old self.new }
        ensures moves { Moved W.Known 13 w.old w.new self.old self.new }
        ensures rest { self.new.bc ≡ self.old.bc }
    {
        if first {
            self.flag(w, negative, cdf)
        } else {
            self.even_flag(w, negative)
        }
    }

    // Codes the sign of a level that is not 0, and what its size has above 14.
    pub(crate) fn write_coeff_level<W: Writer>(
        &mut self,
        w: &mut W,
        level: i32,
        first: bool,
        cdf: CDFOffset,
    ) -> Result<(), OutOfMemory>
        requires cdfs { AreCdfs self.old.fc }
        requires two { cdf.len ≡ 2 }
        requires small { unsigned_abs level < 2 ^ 20 }
        requires shift { (W.position w.old).shift + 832 ≤ 2 ^ 28 + 2 ^ 24 }
        ensures wrote { Coded W.Known result (level_element (sign_by first (slot_of cdf)) (cut_level level)) level w.old w.new self.old self.new }
        ensures moves { Moved W.Known 832 w.old w.new self.old self.new }
        ensures rest { self.new.bc ≡ self.old.bc }
    {
        if level == 0 {
            return Ok(());
        }
        let size = level.unsigned_abs();
        self.write_coeff_sign(w, is_negative(level), first, cdf)?;
        if size < 15 {
            return Ok(());
        }
        self.write_golomb(w, size - 15)
    }
}

// Whether a level has a sign.
fn is_negative(level: i32) -> bool
    ensures { result ≡ is_negative level }
{
    level < 0
}
