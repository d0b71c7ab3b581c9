// The index of the constrained directional enhancement filter, which rav1e writes among the parts of frame headers.
ghost use Rattle.std.specs.Prelude.{ℕ, ◌^◌, ◌<◌, ◌≤◌, ◌≡◌};
ghost use Rattle.av1_cdf.specs.Context.{AreCdfs};

use crate::context_writer::ContextWriter;
use av1_ec::Writer;
use av1_geometry::OutOfMemory;

impl ContextWriter {
    ghost use Rattle.av1_syntax.specs.Calls.{Coded, Moved};
    ghost use Rattle.av1_syntax.specs.Literals.{literal};

    /// Codes the index of the filter's strengths in a superblock, in so many bits, at most 3.
    pub fn write_cdef<W: Writer>(
        &mut self,
        w: &mut W,
        strength_index: u8,
        bits: u8,
    ) -> Result<(), OutOfMemory>
        requires bits { bits ≤ 3 }
        requires index { strength_index < 2 ^ bits }
        requires cdfs { AreCdfs self.old.fc }
        requires early { (W.position w.old).shift ≤ 2 ^ 28 }
        ensures wrote { Coded W.Known result (literal bits) strength_index w.old w.new self.old self.new }
        ensures moves { Moved W.Known 39 w.old w.new self.old self.new }
        ensures rest { self.new.bc ≡ self.old.bc }
    {
        self.literal(w, bits, u32::from(strength_index))
    }
}
