// The encoder beside a plain one, which has the low end as a list of bits; the numbers are an independent program's.
use av1_ec::{StorageBackend, Writer, WriterBase, WriterEncoder};
use av1_geometry::OutOfMemory;
use std::alloc::Global;
use std::process::Abort;
use std::test::Fail;

// The low end of an interval as a list of bits, the highest first, and its width. It knows no window and no entry.
#[derive(Drop)]
struct Plain {
    low: Vec<u8>,
    width: u32,
}

impl Plain {
    // The interval from 0 to 1, whose low end has 15 bits.
    fn new(alloc: Global) -> Result<Self, OutOfMemory> {
        Ok(Plain {
            low: vec![in alloc; 0u8; 15]?,
            width: 32768,
        })
    }

    fn add(&mut self, mut n: u32) {
        for bit in self.low.iter_mut().rev() {
            if n == 0 {
                break;
            }
            let sum = u32::from(*bit).min(1) + n % 2;
            *bit = (sum % 2) as u8;
            n = n / 2 + sum / 2;
        }
    }

    // The part of a token, in units that are halved until its width has 16 bits.
    fn store(&mut self, rt: &impl Abort, fl: u32, fh: u32, nms: u32) -> Result<(), OutOfMemory> {
        assert!(rt; self.width < 65536 && fl <= 32768 && fh < 32768 && 1 <= nms && nms <= 16);
        let below = |f: u32, n: u32| self.width / 256 * (f / 64) / 2 + 4 * n;
        let top = if fl == 32768 {
            self.width
        } else {
            below(fl, nms)
        };
        let bottom = below(fh, nms - 1);
        assert!(rt; bottom < top && top <= self.width);
        self.add(self.width - top);
        self.width = top - bottom;
        for _ in 0..16 {
            if self.width < 32768 {
                self.width *= 2;
                self.low.push(0)?;
            }
        }
        Ok(())
    }

    // The low end rounded up to 14 zero bits, with a one before them; without these zeros, and in whole bytes.
    fn bytes(&mut self, alloc: Global, rt: &impl Abort) -> Result<Vec<u8>, OutOfMemory> {
        self.add((1 << 14) - 1);
        assert!(rt; self.low.len() >= 15);
        let n = self.low.len() - 14;
        self.low.truncate(n);
        self.low[n - 1] = 1;
        let mut bytes = Vec::new(alloc);
        for bits in self.low.chunks(8) {
            let mut byte = 0u8;
            for i in 0..8 {
                byte = byte << 1 | bits.get(i).copied().unwrap_or(0);
            }
            bytes.push(byte)?;
        }
        Ok(bytes)
    }
}

// A token is stored both ways.
fn store_both(
    rt: &impl Abort,
    plain: &mut Plain,
    w: &mut WriterBase<WriterEncoder>,
    fl: u16,
    fh: u16,
    nms: u16,
) -> Result<(), OutOfMemory> {
    assert!(rt; fl <= 32768 && fh < 32768 && fh / 64 <= fl / 64 && 1 <= nms && nms <= 16);
    assert!(rt; w.tell() < 1 << 20);
    plain.store(rt, u32::from(fl), u32::from(fh), u32::from(nms))?;
    w.store(fl, fh, nms)
}

fn next(x: u32) -> u32 {
    x.wrapping_mul(1664525).wrapping_add(1013904223)
}

// The upper halves, in place of the lower ones, that bring the low end of this test to just below a number of few bits.
const UPPER: u64 = 0x67d36fe5616709d6;

// The token of one half of an interval.
fn half(upper: bool) -> (u16, u16, u16) {
    if upper {
        (16384, 0, 1)
    } else {
        (32768, 16384, 2)
    }
}

// Tokens that bring the low end to just below a number of few bits.
fn store_many(
    rt: &impl Abort,
    plain: &mut Plain,
    w: &mut WriterBase<WriterEncoder>,
) -> Result<(), OutOfMemory> {
    let mut x = 3;
    for _ in 0..1936 {
        let y = next(x);
        x = next(y);
        let (a, b) = ((y >> 17) as u16, (x >> 17) as u16);
        let fl = if y >> 8 & 3 == 0 { 32768 } else { a.max(b) };
        store_both(rt, plain, w, fl, a.min(b), 1 + (x >> 8 & 15) as u16)?;
    }
    for i in 0..63u32 {
        let (fl, fh, nms) = half(UPPER >> i & 1 == 1);
        store_both(rt, plain, w, fl, fh, nms)?;
    }
    Ok(())
}

// The bytes of these tokens and of 16 more, all for the lower half or all for the upper one.
fn many(rt: &impl Abort, alloc: Global, upper: bool) -> Result<Vec<u8>, Fail> {
    let mut plain = Plain::new(alloc)?;
    let mut w = WriterEncoder::new(alloc);
    store_many(rt, &mut plain, &mut w)?;
    let (fl, fh, nms) = half(upper);
    for _ in 0..16 {
        store_both(rt, &mut plain, &mut w, fl, fh, nms)?;
    }
    let bytes = w.done()?;
    assert_eq!(rt; bytes, plain.bytes(alloc, rt)?);
    Ok(bytes)
}

#[test]
fn a_carry_runs_through_seven_bytes(rt: HostRuntime) -> Result<(), Fail> {
    for (upper, end) in [
        (false, [0xbf, 255, 255, 255, 255, 255, 255, 255]),
        (true, [0xc0, 0, 0, 0, 0, 0, 0, 0]),
    ] {
        let bytes = many(&rt, rt.alloc(), upper)?;
        assert_eq!(rt; bytes.get(444..452), Some(end.as_slice()));
    }
    Ok(())
}
