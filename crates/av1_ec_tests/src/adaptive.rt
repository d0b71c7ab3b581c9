// Symbols that adapt their CDF, and a trial of them; the numbers are worked by hand.
ghost use Rattle.std.specs.Prelude.{OnOk};
ghost use Rattle.av1_cdf.specs.Context.{AreCdfs};
ghost use Rattle.av1_cdf.specs.Log.{KeepsUndone};
ghost use Rattle.av1_ec.specs.Checkpoint.{KeepsCheckpoints};

use crate::bits::few_bits;
use av1_cdf::{CDFContext, CDFContextLog, CDFOffset, law_of_starting};
use av1_ec::{Writer, WriterEncoder};
use av1_geometry::OutOfMemory;
use std::test::Fail;

// Codes symbol 1.
fn code<W: Writer>(
    w: &mut W,
    cdf: CDFOffset,
    log: &mut CDFContextLog,
    fc: &mut CDFContext,
) -> Result<(), OutOfMemory>
    requires cdfs { AreCdfs fc.old }
    ensures undone { OnOk result (KeepsUndone log.old log.new fc.old fc.new) }
    ensures kept { KeepsCheckpoints W.stored W.IsReached W.position_at w.old w.new }
{
    few_bits(w)?;
    w.symbol_with_update(1, cdf, log, fc)
}

#[test]
fn a_trial_leaves_writer_and_context_as_they_were(rt: HostRuntime) -> Result<(), Fail> {
    let mut w = WriterEncoder::new(rt.alloc());
    let mut fc = CDFContext::uniform();
    let mut log = CDFContextLog::new(rt.alloc());
    law_of_starting();
    let mode = CDFContext::comp_mode_cdf(4);
    let (position, context) = (w.checkpoint(), log.checkpoint());
    code(&mut w, mode, &mut log, &mut fc)?;
    assert_eq!(rt; w.tell(), 2);
    assert_eq!(rt; fc.values_of(mode), [17408, 1].as_slice());
    log.rollback(&mut fc, &context);
    w.rollback(&position);
    assert_eq!(rt; w.tell(), 1);
    assert_eq!(rt; fc.values_of(mode), [16384, 0].as_slice());
    Ok(())
}
