// The AV1 specification's symbol decoder (sections 8.2.2 and 8.2.6) and the codes that it reads, on plain numbers. It
// shares no code and no definition with the encoder.
ghost use Rattle.std.specs.Prelude.{◌≡◌, ◌+◌, ◌*◌, ◌%◌, ◌^◌, ◌<◌, ◌≤◌};

/// A reader of symbols and codes.
#[derive(Drop)]
pub struct SymbolReader<'a> {
    bytes: &'a [u8],
    taken: usize,
    value: u64,
    range: u64,
}

impl<'a> SymbolReader<'a> {
    /// A reader of these bytes that has read nothing.
    pub fn new(bytes: &'a [u8]) -> Self {
        let mut reader = SymbolReader {
            bytes,
            taken: 0,
            value: 0,
            range: 32768,
        };
        reader.value = 0x7fff ^ reader.next_bits(15);
        reader
    }

    // The next bits as a number, with zero bits after the bytes' end.
    fn next_bits(&mut self, count: u32) -> u64 {
        let mut number = 0u64;
        for _ in 0..count {
            let byte = self.bytes.get(self.taken / 8).copied().unwrap_or(0);
            let bit = byte >> (7 - self.taken % 8) & 1;
            number = number.wrapping_mul(2).wrapping_add(u64::from(bit));
            self.taken = self.taken.wrapping_add(1);
        }
        number
    }

    /// A symbol by a distribution as rav1e keeps it: 32768 minus each entry of the specification's, and the count.
    pub fn symbol(&mut self, cdf: &[u16]) -> u32 {
        let mut symbol = 0u32;
        let mut after = cdf.len() as u64;
        let mut end = self.range;
        let mut from = self.range;
        for f in cdf {
            after = after.wrapping_sub(1);
            let f = if after == 0 { 0 } else { u64::from(*f) };
            end = from;
            from = ((self.range >> 8).wrapping_mul(f >> 6) >> 1).wrapping_add(after.wrapping_mul(
                4,
            ));
            if self.value >= from {
                break;
            }
            symbol = symbol.wrapping_add(1);
        }
        self.range = end.wrapping_sub(from);
        self.value = self.value.wrapping_sub(from);
        let bits = self.range.leading_zeros().wrapping_sub(48) % 16;
        self.range <<= bits;
        self.value = self.next_bits(bits) ^ (self.value.wrapping_add(1) << bits).wrapping_sub(1);
        symbol
    }

    /// A bool that is true `f` times in 32768.
    pub fn bool(&mut self, f: u16) -> bool {
        self.symbol(&[f, 0]) == 1
    }

    /// `L(bits)` of the specification.
    pub fn literal(&mut self, bits: u32) -> u32 {
        let mut number = 0u32;
        for _ in 0..bits {
            number = number
                .wrapping_mul(2)
                .wrapping_add(u32::from(self.bool(16384)));
        }
        number
    }

    /// `golomb_length_bit` up to the first that is set, and as many bits `golomb_data_bit` as were not.
    pub fn golomb(&mut self) -> u32 {
        let mut zeros = 0u32;
        for _ in 0..32 {
            if self.literal(1) == 1 {
                break;
            }
            zeros = zeros.wrapping_add(1);
        }
        let high = 1u32.wrapping_shl(zeros);
        high.wrapping_add(self.literal(zeros)).wrapping_sub(1)
    }

    /// `NS(n)` of the specification.
    pub fn quniform(&mut self, n: u32) -> u32 {
        let w = 32u32.wrapping_sub(n.leading_zeros());
        let m = 1u32.wrapping_shl(w).wrapping_sub(n);
        let v = self.literal(w.wrapping_sub(1));
        if v < m {
            return v;
        }
        v.wrapping_mul(2)
            .wrapping_sub(m)
            .wrapping_add(self.literal(1))
    }

    /// `decode_subexp_bool` of the specification.
    pub fn subexp(&mut self, n: u32, k: u32) -> u32 {
        let mut mk = 0u32;
        for i in 0..32u32 {
            let width = k.wrapping_add(i.saturating_sub(1));
            let a = 1u32.wrapping_shl(width);
            if n <= mk.wrapping_add(a.wrapping_mul(3)) {
                return mk.wrapping_add(self.quniform(n.wrapping_sub(mk)));
            }
            if self.literal(1) == 0 {
                return mk.wrapping_add(self.literal(width));
            }
            mk = mk.wrapping_add(a);
        }
        mk
    }

    /// `decode_unsigned_subexp_with_ref_bool` of the specification.
    pub fn unsigned_subexp_with_ref(&mut self, mx: u32, k: u32, r: u32) -> u32 {
        let v = self.subexp(mx, k);
        if r.wrapping_mul(2) <= mx {
            inverse_recenter(r, v)
        } else {
            let last = mx.wrapping_sub(1);
            last.wrapping_sub(inverse_recenter(last.wrapping_sub(r), v))
        }
    }

    /// `decode_signed_subexp_with_ref_bool` of the specification.
    pub fn signed_subexp_with_ref(&mut self, low: i32, high: i32, k: u32, r: i32) -> i32 {
        let mx = high.wrapping_sub(low).unsigned_abs();
        let from = r.wrapping_sub(low).unsigned_abs();
        low.wrapping_add_unsigned(self.unsigned_subexp_with_ref(mx, k, from))
    }
}

// The value at distance `v` from `r`, above and below in turn, and past twice `r` by itself: `inverse_recenter` of the
// specification.
fn inverse_recenter(r: u32, v: u32) -> u32
    ensures far { r < 2 ^ 31 → 2 * r < v → result ≡ v }
    ensures below { r < 2 ^ 31 → v ≤ 2 * r → v % 2 ≡ 1 → 2 * result + v + 1 ≡ 2 * r }
    ensures above { r < 2 ^ 31 → v ≤ 2 * r → v % 2 ≡ 0 → 2 * result ≡ 2 * r + v }
{
    if v > r.wrapping_mul(2) {
        v
    } else if v % 2 == 1 {
        r.wrapping_sub(v.wrapping_add(1) / 2)
    } else {
        r.wrapping_add(v / 2)
    }
}
