// Bits are joined with those of a byte that is not whole yet, and go out as whole bytes.
ghost use Rattle.std.specs.Prelude.{◌≡◌, ◌+◌, ◌^◌, ◌<◌, ◌≤◌, [], ◌∷◌, ◌++◌, OnOk, OnErr, length, vec_len, vec_capacity};
ghost use Rattle.av1_model.specs.Bits.{bits_of, signed_bits_of, bits_of_bytes, byte_aligned, IsByteAligned};

use av1_geometry::OutOfMemory;
use std::alloc::Global;
use std::marker::Model;

/// Writes bits, the highest first, into bytes. Contracts see the list of its bits.
#[derive(Drop)]
pub struct BitWriter {
    bytes: Vec<u8>,
    // the bits after the last whole byte, as a number of `pending` bits
    last: u8,
    pending: u32,
}

impl Model for BitWriter {
    ghost use Rattle.std.specs.Prelude.{◌++◌, ◌<◌, ◌^◌, Bool, List};
    ghost use Rattle.av1_model.specs.Bits.{bits_of, bits_of_bytes};

    ghost Value = { List Bool };

    ghost view = { λ w. bits_of_bytes w.bytes.items ++ bits_of w.pending w.last };

    ghost invariant = { λ w. (w.pending < 8) × (w.last < 2 ^ w.pending) };
}

impl BitWriter {
    /// A writer without bits.
    pub fn new(alloc: Global) -> Self
        ensures { result ≡ [] }
    {
        BitWriter {
            bytes: Vec::new(alloc),
            last: 0,
            pending: 0,
        }
    }

    /// Writes the number `v` in `n` bits.
    pub fn write_var(&mut self, n: u32, v: u64) -> Result<(), OutOfMemory>
        requires bits { n ≤ 64 }
        requires fits { v < 2 ^ n }
        ensures ok { OnOk result (self.new ≡ self.old ++ bits_of n v) }
        ensures err { OnErr result (self.new ≡ self.old) }
    {
        let count = (self.pending + n) / 8;
        let rest = (self.pending + n) % 8;
        let joined = ((self.last as u128) << n) + v as u128;
        let whole = (joined >> rest).to_be_bytes();
        self.bytes.extend_from_slice(&whole[16 - count as usize..])?;
        self.last = (joined % (1 << rest)) as u8;
        self.pending = rest;
        Ok(())
    }

    /// Writes the number `v` in `N` bits.
    pub fn write<const N: u32>(&mut self, v: u64) -> Result<(), OutOfMemory>
        requires bits { N ≤ 64 }
        requires fits { v < 2 ^ N }
        ensures ok { OnOk result (self.new ≡ self.old ++ bits_of N v) }
        ensures err { OnErr result (self.new ≡ self.old) }
    {
        self.write_var(N, v)
    }

    /// Writes the `n` lowest bits of `v` in two's complement.
    pub fn write_signed_var(&mut self, n: u32, v: i64) -> Result<(), OutOfMemory>
        requires some { 1 ≤ n }
        requires bits { n ≤ 64 }
        ensures ok { OnOk result (self.new ≡ self.old ++ signed_bits_of n v) }
        ensures err { OnErr result (self.new ≡ self.old) }
    {
        let mask = u64::MAX >> (64 - n);
        self.write_var(n, v.cast_unsigned() & mask)
    }

    /// Writes the `N` lowest bits of `v` in two's complement.
    pub fn write_signed<const N: u32>(&mut self, v: i64) -> Result<(), OutOfMemory>
        requires some { 1 ≤ N }
        requires bits { N ≤ 64 }
        ensures ok { OnOk result (self.new ≡ self.old ++ signed_bits_of N v) }
        ensures err { OnErr result (self.new ≡ self.old) }
    {
        self.write_signed_var(N, v)
    }

    /// Writes one bit.
    pub fn write_bit(&mut self, bit: bool) -> Result<(), OutOfMemory>
        ensures ok { OnOk result (self.new ≡ self.old ++ bit ∷ []) }
        ensures err { OnErr result (self.new ≡ self.old) }
    {
        self.write_var(1, u64::from(bit))
    }

    /// Writes zero bits up to a whole byte.
    pub fn byte_align(&mut self) -> Result<(), OutOfMemory>
        ensures ok { OnOk result (self.new ≡ byte_aligned self.old) }
        ensures err { OnErr result (self.new ≡ self.old) }
    {
        self.write_var((8 - self.pending) % 8, 0)
    }

    /// Writes whole bytes.
    pub fn write_bytes(&mut self, bytes: &[u8]) -> Result<(), OutOfMemory>
        ensures ok { OnOk result (self.new ≡ self.old ++ bits_of_bytes bytes.now) }
        ensures err { OnErr result (self.new ≡ self.old) }
    {
        if self.pending == 0 {
            return Ok(self.bytes.extend_from_slice(bytes)?);
        }
        self.bytes.reserve(bytes.len())?;
        self.last = append_behind(&mut self.bytes, self.last, self.pending, bytes);
        Ok(())
    }

    /// The bytes of the bits.
    pub fn bytes(self) -> Vec<u8>
        requires { IsByteAligned self }
        ensures { bits_of_bytes result.items ≡ self }
    {
        self.bytes
    }
}

// Appends bytes that don't begin at a whole byte, and gives what stands behind the last whole byte.
fn append_behind(bytes: &mut Vec<u8>, last: u8, pending: u32, more: &[u8]) -> u8
    requires begun { pending < 8 }
    requires last { last < 2 ^ pending }
    requires room { vec_len bytes.old + length more.now ≤ vec_capacity bytes.old }
    ensures bits { bits_of_bytes bytes.new.items ++ bits_of pending result ≡ bits_of_bytes bytes.old.items ++ bits_of pending last ++ bits_of_bytes more.now }
    ensures last { result < 2 ^ pending }
{
    let mut last = last;
    for byte in more {
        let joined = (u16::from(last) << 8) + u16::from(*byte);
        if bytes.push((joined >> pending) as u8).is_err() {
            unreachable!();
        }
        last = (joined % (1 << pending)) as u8;
    }
    last
}
