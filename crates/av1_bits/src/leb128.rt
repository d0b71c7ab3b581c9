// Numbers as whole bytes: LEB128, and the lowest byte first.
ghost use Rattle.std.specs.Prelude.{◌≡◌, ◌*◌, ◌^◌, ◌<◌, ◌≤◌, ◌++◌, Bool, List, OnOk, OnErr};
ghost use Rattle.std.specs.Int.{bytes_low_first};
ghost use Rattle.av1_model.specs.Bits.{bits_of_bytes};
ghost use Rattle.av1_model.specs.Codes.{leb128};

use crate::BitWriter;
use av1_geometry::OutOfMemory;

/// Writes LEB128 among bits.
pub trait ULEB128Writer {
    /// The bits that were written.
    ghost bits: { Self → List Bool };

    /// Writes a number as LEB128, in as few bytes as it takes: leb128() of the AV1 specification.
    fn write_uleb128(&mut self, payload: u64) -> Result<(), OutOfMemory>
        requires { payload < 2 ^ 32 }
        ensures ok { OnOk result (bits self.new ≡ bits self.old ++ bits_of_bytes (leb128 payload)) }
        ensures err { OnErr result (bits self.new ≡ bits self.old) };
}

/// Writes numbers with the lowest byte first, among bits.
pub trait LEWriter {
    /// The bits that were written.
    ghost bits: { Self → List Bool };

    /// Writes a number in so many bytes, the lowest first: le(n) of the AV1 specification.
    fn write_le(&mut self, bytes: u32, payload: u64) -> Result<(), OutOfMemory>
        requires some { 1 ≤ bytes }
        requires few { bytes ≤ 8 }
        requires fits { payload < 2 ^ (8 * bytes) }
        ensures ok { OnOk result (bits self.new ≡ bits self.old ++ bits_of_bytes (bytes_low_first 0 bytes payload)) }
        ensures err { OnErr result (bits self.new ≡ bits self.old) };
}

impl ULEB128Writer for BitWriter {
    ghost bits = { λ w. w };

    fn write_uleb128(&mut self, payload: u64) -> Result<(), OutOfMemory> {
        let mut coded = [0; 5];
        let mut count = 0;
        let mut value = payload;
        while value >= 128 {
            coded[count] = (128 + value % 128) as u8;
            count += 1;
            value /= 128;
        }
        coded[count] = value as u8;
        self.write_bytes(&coded[..count + 1])
    }
}

impl LEWriter for BitWriter {
    ghost bits = { λ w. w };

    fn write_le(&mut self, bytes: u32, payload: u64) -> Result<(), OutOfMemory> {
        self.write_bytes(&payload.to_le_bytes()[..bytes as usize])
    }
}
