// How much a test writes.
ghost use Rattle.std.specs.Prelude.{◌^◌, ◌≤◌, OnOk};

use av1_ec::Writer;
use av1_geometry::OutOfMemory;

// No test writes more than 2^17 bits.
pub(crate) fn few_bits<W: Writer>(w: &W) -> Result<(), OutOfMemory>
    ensures { OnOk result ((W.position w.now).shift ≤ 2 ^ 17) }
{
    if w.tell() > 1 << 17 {
        return Err(OutOfMemory);
    }
    Ok(())
}
