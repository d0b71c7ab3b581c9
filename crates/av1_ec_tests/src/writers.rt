// A recorder and a counter beside an encoder; the numbers are an independent program's.
ghost use Rattle.std.specs.Prelude.{◌<◌};
ghost use Rattle.av1_ec.specs.Checkpoint.{KeepsCheckpoints};

use crate::bits::few_bits;
use av1_ec::{
    StorageBackend, Writer, WriterCounter, WriterEncoder, WriterRecorder, law_of_recorders,
};
use av1_geometry::OutOfMemory;
use std::test::Fail;

// Codes a symbol of four.
fn code<W: Writer>(w: &mut W, s: u32) -> Result<(), OutOfMemory>
    requires { s < 4 }
    ensures kept { KeepsCheckpoints W.stored W.IsReached W.position_at w.old w.new }
{
    few_bits(w)?;
    w.symbol(s, &[7296, 3819, 1716, 0])
}

// Codes a few symbols.
fn code_list<W: Writer>(w: &mut W) -> Result<(), OutOfMemory> {
    code(w, 0)?;
    code(w, 3)?;
    code(w, 1)?;
    code(w, 2)?;
    code(w, 0)
}

// A trial that is given up, and the list.
fn code_after_trial<W: Writer>(w: &mut W) -> Result<(), OutOfMemory> {
    let checkpoint = w.checkpoint();
    code(w, 1)?;
    code(w, 3)?;
    w.rollback(&checkpoint);
    code_list(w)
}

#[test]
fn a_replayed_symbol_is_the_encoders(rt: HostRuntime) -> Result<(), Fail> {
    let mut w = WriterRecorder::new(rt.alloc());
    w.ready(1)?;
    w.symbol(0, &[16384, 0])?;
    assert_eq!(rt; w.tell(), 3);
    let mut dest = WriterEncoder::new(rt.alloc());
    w.replay_into(&mut dest)?;
    assert_eq!(rt; w.tell(), 1);
    assert_eq!(rt; dest.done()?.as_slice(), [0x20].as_slice());
    Ok(())
}

// What a writer tells after both.
fn told<W: Writer>(w: &mut W) -> Result<(u32, u32), OutOfMemory> {
    code_after_trial(w)?;
    Ok((w.tell(), w.tell_frac()))
}

#[test]
fn a_counter_tells_the_same(rt: HostRuntime) -> Result<(), Fail> {
    let mut counter = WriterCounter::new();
    counter.ready(1000)?;
    assert_eq!(rt; told(&mut counter)?, (14, 106));
    assert_eq!(rt; counter.stream_bits(), 13);
    Ok(())
}

#[test]
fn a_recorder_tells_the_same_and_is_replayed(rt: HostRuntime) -> Result<(), Fail> {
    let mut recorder = WriterRecorder::new(rt.alloc());
    assert_eq!(rt; told(&mut recorder)?, (14, 106));
    assert_eq!(rt; recorder.stream_bits(), 13);
    let mut dest = WriterEncoder::new(rt.alloc());
    law_of_recorders(&recorder);
    recorder.replay_into(&mut dest)?;
    assert_eq!(rt; recorder.tell_frac(), 8);
    assert_eq!(rt; dest.done()?.as_slice(), [0xc5, 0xa4].as_slice());
    Ok(())
}

#[test]
fn an_encoder_tells_the_same(rt: HostRuntime) -> Result<(), Fail> {
    let mut encoder = WriterEncoder::new(rt.alloc());
    assert_eq!(rt; told(&mut encoder)?, (14, 106));
    assert_eq!(rt; encoder.stream_bits(), 8);
    assert_eq!(rt; encoder.done()?.as_slice(), [0xc5, 0xa4].as_slice());
    Ok(())
}
