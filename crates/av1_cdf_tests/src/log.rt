// CDFs that learn and then are what they were; the numbers are worked by hand.
ghost use Rattle.std.specs.Prelude.{◌≡◌, ◌<◌, OnOk};
ghost use Rattle.av1_cdf.specs.Context.{AreCdfs};
ghost use Rattle.av1_cdf.specs.Log.{KeepsUndone};

use av1_cdf::{CDFContext, CDFContextLog, CDFOffset, law_of_learning, law_of_starting};
use av1_ec::update_cdf;
use av1_geometry::OutOfMemory;
use std::test::Fail;

// Saves a CDF, and lets it learn symbol 1.
fn learn(
    context: &mut CDFContext,
    log: &mut CDFContextLog,
    cdf: CDFOffset,
) -> Result<(), OutOfMemory>
    requires cdfs { AreCdfs context.old }
    ensures cdfs { OnOk result (AreCdfs context.new) }
    ensures undone { OnOk result (KeepsUndone log.old log.new context.old context.new) }
{
    law_of_learning();
    log.ready(1)?;
    update_cdf(context.push(log, cdf), 1);
    Ok(())
}

// Two CDFs learn, and all 5528 numbers are what they were.
fn learn_in_vain(
    context: &mut CDFContext,
    log: &mut CDFContextLog,
    cdf: CDFOffset,
    other: CDFOffset,
) -> Result<(), OutOfMemory>
    requires cdfs { AreCdfs context.old }
    ensures { OnOk result (context.new ≡ context.old) }
{
    let start = log.checkpoint();
    learn(context, log, cdf)?;
    learn(context, log, other)?;
    log.rollback(context, &start);
    Ok(())
}

// Trials within trials, one of which is given up from within another.
fn learn_in_trials(
    context: &mut CDFContext,
    log: &mut CDFContextLog,
    cdf: CDFOffset,
    other: CDFOffset,
) -> Result<(), OutOfMemory>
    requires cdfs { AreCdfs context.old }
    ensures { OnOk result (context.new ≡ context.old) }
{
    let first = log.checkpoint();
    learn(context, log, cdf)?;
    let second = log.checkpoint();
    learn(context, log, cdf)?;
    learn(context, log, other)?;
    log.rollback(context, &second);
    log.rollback(context, &first);
    Ok(())
}

// The first number of each CDF of two symbols whose window reaches over the next ones, and of a long one.
fn firsts(context: &CDFContext) -> [u16; 4] {
    let first = |cdf| context.values_of(cdf).first().copied().unwrap_or(0);
    [
        first(CDFContext::comp_mode_cdf(4)),
        first(CDFContext::comp_ref_cdf(0, 0)),
        first(CDFContext::comp_ref_cdf(0, 1)),
        first(CDFContext::partition_cdf(11)),
    ]
}

#[test]
fn a_log_goes_back_to_what_the_context_was(rt: HostRuntime) -> Result<(), Fail> {
    let mut context = CDFContext::uniform();
    let mut log = CDFContextLog::new(rt.alloc());
    law_of_starting();
    let mode = CDFContext::comp_mode_cdf(4);
    let next = CDFContext::comp_ref_cdf(0, 0);
    assert_eq!(rt; firsts(&context), [16384, 16384, 16384, 29492]);
    learn_in_vain(&mut context, &mut log, mode, next)?;
    assert_eq!(rt; firsts(&context), [16384, 16384, 16384, 29492]);
    let start = log.checkpoint();
    learn(&mut context, &mut log, next)?;
    assert_eq!(rt; firsts(&context), [16384, 17408, 16384, 29492]);
    log.rollback(&mut context, &start);
    assert_eq!(rt; firsts(&context), [16384, 16384, 16384, 29492]);
    Ok(())
}

#[test]
fn checkpoints_stand_within_one_another(rt: HostRuntime) -> Result<(), Fail> {
    let mut context = CDFContext::uniform();
    let mut log = CDFContextLog::new(rt.alloc());
    law_of_starting();
    let mode = CDFContext::comp_mode_cdf(4);
    learn(&mut context, &mut log, mode)?;
    learn_in_trials(&mut context, &mut log, mode, CDFContext::partition_cdf(11))?;
    assert_eq!(rt; firsts(&context), [17408, 16384, 16384, 29492]);
    log.clear();
    Ok(())
}
