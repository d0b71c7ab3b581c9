// Symbols of two that are alike, trials of them, and what they cost; the rows are worked by hand.
ghost use Rattle.std.specs.Prelude.{◌<◌, ◌≡◌, OnOk};
ghost use Rattle.av1_ec.specs.Checkpoint.{KeepsCheckpoints};

use crate::bits::few_bits;
use av1_ec::{StorageBackend, Writer, WriterBase, WriterEncoder, cdf_to_pdf, update_cdf};
use av1_geometry::OutOfMemory;
use std::alloc::Global;
use std::test::Fail;

// Codes a symbol of two that are alike.
fn code<W: Writer>(w: &mut W, s: u32) -> Result<(), OutOfMemory>
    requires { s < 2 }
    ensures kept { KeepsCheckpoints W.stored W.IsReached W.position_at w.old w.new }
{
    few_bits(w)?;
    w.symbol(s, &[16384, 0])
}

// What a symbol costs by `tell`; the trial leaves no trace.
fn cost<W: Writer>(w: &mut W, s: u32) -> Result<u32, OutOfMemory>
    requires { s < 2 }
    ensures same { OnOk result (W.position w.new ≡ W.position w.old) }
{
    let before = w.tell();
    let checkpoint = w.checkpoint();
    code(w, s)?;
    let after = w.tell();
    w.rollback(&checkpoint);
    Ok(after.wrapping_sub(before))
}

// Trials within trials, one of which is given up from within another.
fn try_nested<W: Writer>(w: &mut W) -> Result<(), OutOfMemory>
    ensures same { OnOk result (W.position w.new ≡ W.position w.old) }
{
    let first = w.checkpoint();
    code(w, 0)?;
    let second = w.checkpoint();
    code(w, 1)?;
    let third = w.checkpoint();
    code(w, 0)?;
    w.rollback(&third);
    code(w, 1)?;
    w.rollback(&second);
    w.rollback(&first);
    Ok(())
}

// An encoder of these symbols.
fn coded(alloc: Global, symbols: &[u32]) -> Result<WriterBase<WriterEncoder>, OutOfMemory> {
    let mut w = WriterEncoder::new(alloc);
    for s in symbols {
        code(&mut w, s % 2)?;
    }
    Ok(w)
}

#[test]
fn a_distribution_learns(rt: HostRuntime) {
    for (symbol, count, learnt) in [(0, 0, [15360, 1]), (1, 0, [17408, 1]), (0, 32, [16128, 32])] {
        let mut cdf = [16384, count];
        update_cdf(&mut cdf, symbol);
        assert_eq!(rt; cdf, learnt);
    }
}

#[test]
fn the_later_symbol_is_the_upper_part(rt: HostRuntime) -> Result<(), Fail> {
    for (symbols, bits, byte) in [
        ([].as_slice(), 1, 0x80),
        ([1].as_slice(), 2, 0xc0),
        ([0].as_slice(), 3, 0x20),
        ([1, 0].as_slice(), 3, 0xa0),
    ] {
        let w = coded(rt.alloc(), symbols)?;
        assert_eq!(rt; w.tell(), bits);
        assert_eq!(rt; w.done()?.as_slice(), [byte].as_slice());
    }
    Ok(())
}

#[test]
fn stores_succeed_after_ready(rt: HostRuntime) -> Result<(), Fail> {
    let mut w = WriterEncoder::new(rt.alloc());
    w.ready(2)?;
    w.store(32768, 0, 16).unwrap();
    w.store(1, 0, 1).unwrap();
    assert_eq!(rt; w.tally().bits, 14);
    Ok(())
}

#[test]
fn trials_leave_no_bit(rt: HostRuntime) -> Result<(), Fail> {
    let mut w = coded(rt.alloc(), &[1])?;
    try_nested(&mut w)?;
    assert_eq!(rt; cost(&mut w, 0)?, 1);
    assert_eq!(rt; w.tell(), 2);
    assert_eq!(rt; w.done()?.as_slice(), [0xc0].as_slice());
    Ok(())
}

#[test]
fn costs_are_in_eighths(rt: HostRuntime) -> Result<(), Fail> {
    let mut w = coded(rt.alloc(), &[1])?;
    assert_eq!(rt; (w.tell(), w.tell_frac()), (2, 16));
    assert_eq!(rt; w.symbol_bits(0, &[16384, 0]), 8);
    assert_eq!(rt; w.symbol_bits(1, &[7296, 3819, 1716, 0]), 26);
    Writer::add_bits_frac(&mut w, 300);
    assert_eq!(rt; (w.tell(), w.tell_frac(), w.stream_bits()), (3, 324, 0));
    Ok(())
}

#[test]
fn codes_are_counted_in_eighths(rt: HostRuntime) {
    let w = WriterEncoder::new(rt.alloc());
    assert_eq!(rt; w.count_quniform(5, 3), 24);
    assert_eq!(rt; w.count_subexp(100, 2, 50), 80);
    assert_eq!(rt; w.count_unsigned_subexp_with_ref(3, 20, 1, 7), 40);
    assert_eq!(rt; w.count_signed_subexp_with_ref(-3, -10, 11, 2, 4), 48);
    assert_eq!(rt; cdf_to_pdf(&[7296, 3819, 1716, 0]), [398, 55, 33, 26]);
}
