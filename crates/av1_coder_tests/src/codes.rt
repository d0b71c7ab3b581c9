// Symbols and codes on an encoder, read back by a plain reader. The bytes and the costs are those of rav1e's own coder.
ghost use Rattle.std.specs.Prelude.{◌+◌, ◌^◌, ◌<◌, ◌≤◌, max, pos, ◌-ℤ◌, ◌≤ℤ◌, ◌<ℤ◌, OnOk};

use crate::symbol_reader::SymbolReader;
use av1_ec::{Writer, WriterEncoder, law_of_lengths};
use av1_geometry::OutOfMemory;
use std::test::Fail;

/// The distribution of rav1e's tests.
const CDF: [u16; 4] = [7296, 3819, 1716, 0];

// No test writes more than 2^17 bits.
fn few_bits<W: Writer>(w: &W) -> Result<(), OutOfMemory>
    ensures { OnOk result ((W.position w.now).shift ≤ 2 ^ 17) }
{
    if w.tell() > 1 << 17 {
        return Err(OutOfMemory);
    }
    Ok(())
}

fn symbol<W: Writer>(w: &mut W, s: u32) -> Result<(), Fail> {
    if s > 3 {
        return Err("no symbol of four".into());
    }
    few_bits(w)?;
    Ok(w.symbol(s, &CDF)?)
}

fn bool<W: Writer>(w: &mut W, val: bool, f: u16) -> Result<(), Fail> {
    if f == 0 || f > 32767 {
        return Err("no odds of a bool".into());
    }
    few_bits(w)?;
    Ok(w.bool(val, f)?)
}

fn literal<W: Writer>(w: &mut W, bits: u8, s: u32) -> Result<(), OutOfMemory>
    requires bits { bits ≤ 32 }
    requires fits { s < 2 ^ bits }
{
    few_bits(w)?;
    law_of_lengths();
    w.literal(bits, s)
}

fn golomb<W: Writer>(w: &mut W, level: u32) -> Result<(), OutOfMemory>
    requires { level + 1 < 2 ^ 32 }
{
    few_bits(w)?;
    law_of_lengths();
    w.write_golomb(level)
}

fn quniform<W: Writer>(w: &mut W, n: u32, v: u32) -> Result<(), OutOfMemory>
    requires value { v < max n 1 }
    requires few { n ≤ 2 ^ 24 }
{
    few_bits(w)?;
    law_of_lengths();
    w.write_quniform(n, v)
}

fn subexp<W: Writer>(w: &mut W, n: u32, k: u8, v: u32) -> Result<(), OutOfMemory>
    requires value { v < n }
    requires few { n ≤ 2 ^ 24 }
    requires width { k ≤ 16 }
{
    few_bits(w)?;
    law_of_lengths();
    w.write_subexp(n, k, v)
}

fn unsigned_subexp<W: Writer>(w: &mut W, v: u32, mx: u32, k: u8, r: u32) -> Result<(), OutOfMemory>
    requires value { v < mx }
    requires reference { r < mx }
    requires few { mx ≤ 2 ^ 24 }
    requires width { k ≤ 16 }
{
    few_bits(w)?;
    law_of_lengths();
    w.write_unsigned_subexp_with_ref(v, mx, k, r)
}

fn signed_subexp<W: Writer>(
    w: &mut W,
    v: i32,
    low: i32,
    high: i32,
    k: u8,
    r: i32,
) -> Result<(), OutOfMemory>
    requires value_from { low ≤ℤ v }
    requires value_to { v <ℤ high }
    requires reference_from { low ≤ℤ r }
    requires reference_to { r <ℤ high }
    requires few { (high -ℤ low) ≤ℤ pos (2 ^ 24) }
    requires width { k ≤ 16 }
{
    few_bits(w)?;
    law_of_lengths();
    w.write_signed_subexp_with_ref(v, low, high, k, r)
}

#[test]
fn bools_are_read_back(rt: HostRuntime) -> Result<(), Fail> {
    const BOOLS: [(u16, bool); 6] = [
        (1, false),
        (2, true),
        (3, false),
        (1, true),
        (2, true),
        (3, false),
    ];
    let mut w = WriterEncoder::new(rt.alloc());
    for (f, val) in BOOLS {
        bool(&mut w, val, f)?;
    }
    assert_eq!(rt; (w.tell(), w.tell_frac()), (43, 337));
    let bytes = w.done()?;
    assert_eq!(rt;
        bytes.as_slice(),
        [0xff, 0xf7, 0xff, 0xdf, 0xff, 0xa0].as_slice()
    );
    let mut r = SymbolReader::new(&bytes);
    for (f, val) in BOOLS {
        assert_eq!(rt; r.bool(f), val);
    }
    Ok(())
}

#[test]
fn symbols_are_read_back(rt: HostRuntime) -> Result<(), Fail> {
    const SYMBOLS: [u32; 9] = [0, 0, 0, 1, 1, 1, 2, 2, 2];
    let mut w = WriterEncoder::new(rt.alloc());
    for s in SYMBOLS {
        symbol(&mut w, s)?;
    }
    assert_eq!(rt; (w.tell(), w.tell_frac()), (24, 189));
    let bytes = w.done()?;
    assert_eq!(rt; bytes.as_slice(), [0x68, 0xf0, 0xc3].as_slice());
    let mut r = SymbolReader::new(&bytes);
    for s in SYMBOLS {
        assert_eq!(rt; r.symbol(&CDF), s);
    }
    Ok(())
}

#[test]
fn symbols_and_bools_are_read_back(rt: HostRuntime) -> Result<(), Fail> {
    const PAIRS: [(u32, bool, u16); 5] = [
        (0, true, 2),
        (0, true, 2),
        (0, true, 2),
        (1, true, 1),
        (1, false, 2),
    ];
    const SYMBOLS: [u32; 4] = [1, 2, 2, 2];
    let mut w = WriterEncoder::new(rt.alloc());
    for (s, val, f) in PAIRS {
        symbol(&mut w, s)?;
        bool(&mut w, val, f)?;
    }
    for s in SYMBOLS {
        symbol(&mut w, s)?;
    }
    assert_eq!(rt; (w.tell(), w.tell_frac()), (79, 627));
    let bytes = w.done()?;
    let want = [0xc6, 0xe7, 0x1b, 0x9c, 0x6e, 0x78, 0x9b, 0xfb, 0xe3, 0x42];
    assert_eq!(rt; bytes.as_slice(), want.as_slice());
    let mut r = SymbolReader::new(&bytes);
    for (s, val, f) in PAIRS {
        assert_eq!(rt; (r.symbol(&CDF), r.bool(f)), (s, val));
    }
    for s in SYMBOLS {
        assert_eq!(rt; r.symbol(&CDF), s);
    }
    Ok(())
}

#[test]
fn codes_are_read_back(rt: HostRuntime) -> Result<(), Fail> {
    let mut w = WriterEncoder::new(rt.alloc());
    literal(&mut w, 5, 19)?;
    golomb(&mut w, 11)?;
    quniform(&mut w, 5, 3)?;
    subexp(&mut w, 100, 2, 50)?;
    unsigned_subexp(&mut w, 3, 20, 1, 7)?;
    signed_subexp(&mut w, -3, -10, 11, 2, 4)?;
    assert_eq!(rt; (w.tell(), w.tell_frac()), (37, 296));
    let bytes = w.done()?;
    assert_eq!(rt; bytes.as_slice(), [0x98, 0xc7, 0x76, 0x4e, 0x18].as_slice());
    let mut r = SymbolReader::new(&bytes);
    assert_eq!(rt; r.literal(5), 19);
    assert_eq!(rt; r.golomb(), 11);
    assert_eq!(rt; r.quniform(5), 3);
    assert_eq!(rt; r.subexp(100, 2), 50);
    assert_eq!(rt; r.unsigned_subexp_with_ref(20, 1, 7), 3);
    assert_eq!(rt; r.signed_subexp_with_ref(-10, 11, 2, 4), -3);
    Ok(())
}

// A symbol of four, a bool and its odds, by a number at random.
fn drawn(x: u32) -> (u32, bool, u16) {
    ((x >> 8) % 4, x >> 10 & 1 == 1, 1 + (x >> 16) as u16 % 32767)
}

fn next(x: u32) -> u32 {
    x.wrapping_mul(1664525).wrapping_add(1013904223)
}

#[test]
fn two_thousand_symbols_are_read_back(rt: HostRuntime) -> Result<(), Fail> {
    let mut w = WriterEncoder::new(rt.alloc());
    let mut x = 7;
    for _ in 0..1000 {
        x = next(x);
        let (s, val, f) = drawn(x);
        symbol(&mut w, s)?;
        bool(&mut w, val, f)?;
    }
    let bytes = w.done()?;
    let mut r = SymbolReader::new(&bytes);
    let mut x = 7;
    for _ in 0..1000 {
        x = next(x);
        let (s, val, f) = drawn(x);
        assert_eq!(rt; (r.symbol(&CDF), r.bool(f)), (s, val));
    }
    Ok(())
}
