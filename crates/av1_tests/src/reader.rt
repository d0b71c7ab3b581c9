// A plain reader of a tile of `Block` and `Skip` steps. It keeps the whole low end of the interval as one number, so it
// serves tiles of at most 100 bits. It shares no code with the encoder.
ghost use Rattle.std.specs.Prelude.{◌≡◌, ◌+◌, ◌%◌, ◌^◌};

use av1_geometry::BlockSize;
use av1_unit::TileStep;

/// The side of a frame in 4x4 blocks, at most.
const SIDE: usize = 16;

/// A reader of a tile's flags.
#[derive(Drop)]
pub struct PlainReader<'a> {
    bytes: &'a [u8],
    low: u128,
    range: u128,
    shift: u32,
    cdfs: [[u16; 2]; 3],
    skips: [[bool; SIDE]; SIDE],
    current: (usize, usize, BlockSize),
}

impl<'a> PlainReader<'a> {
    /// A reader of these bytes that has read nothing: its interval is all from 0 to 1.
    pub fn new(bytes: &'a [u8]) -> Self
        ensures low { result.low ≡ 0 }
        ensures range { result.range ≡ 32768 }
        ensures shift { result.shift ≡ 0 }
    {
        PlainReader {
            bytes,
            low: 0,
            range: 32768,
            shift: 0,
            cdfs: [[16384, 0]; 3],
            skips: [[false; SIDE]; SIDE],
            current: (0, 0, BlockSize::BLOCK_4X4),
        }
    }

    /// The answer of a step's question: of `Skip` the flag that the bytes tell; of another kind it reads nothing.
    pub fn answer(&mut self, step: &TileStep) -> Option<bool> {
        match step {
            TileStep::Block { x, y, size } => {
                self.current = (*x, *y, *size);
                self.set_skip(false);
                None
            }
            TileStep::Skip { .. } => {
                let flag = self.flag(self.context())?;
                self.set_skip(flag);
                Some(flag)
            }
            _ => None,
        }
    }

    /// How many bits were read.
    pub fn bits(&self) -> u32
        ensures { result ≡ (self.now.shift + 1) % 2 ^ 32 }
    {
        self.shift.wrapping_add(1)
    }

    // How many of the blocks above and to the left are skipped.
    fn context(&self) -> usize {
        let (x, y, _) = self.current;
        let above = y > 0 && self.skipped(x, y.wrapping_sub(1));
        let left = x > 0 && self.skipped(x.wrapping_sub(1), y);
        usize::from(above) + usize::from(left)
    }

    fn skipped(&self, x: usize, y: usize) -> bool {
        y < SIDE && x < SIDE && self.skips[y][x]
    }

    fn set_skip(&mut self, flag: bool) {
        let (x, y, size) = self.current;
        for row in 0..SIDE {
            for col in 0..SIDE {
                let down = row.wrapping_sub(y);
                let along = col.wrapping_sub(x);
                if down < size.height_mi() && along < size.width_mi() {
                    self.skips[row][col] = flag;
                }
            }
        }
    }

    // The number made of the first `15 + shift` bits, with zero bits after the bytes' end.
    fn at_hand(&self) -> u128 {
        let mut number = 0u128;
        for n in 0..self.shift.wrapping_add(15) {
            let byte = self.bytes.get((n / 8) as usize).copied().unwrap_or(0);
            let bit = byte >> (7 - n % 8) & 1;
            number = number.wrapping_mul(2).wrapping_add(u128::from(bit));
        }
        number
    }

    // A symbol of two by the distribution of a context, which then adapts.
    fn flag(&mut self, context: usize) -> Option<bool> {
        let [first, count] = *self.cdfs.get(context)?;
        // the part of symbol 1 lies above the other
        let bound = (self.range >> 8)
            .wrapping_mul(u128::from(first >> 6))
            .wrapping_div(2)
            .wrapping_add(4);
        let place = self.at_hand().checked_sub(self.low)?;
        if place >= self.range {
            return None;
        }
        let cut = self.range.checked_sub(bound)?;
        let flag = place >= cut;
        if flag {
            self.low = self.low.wrapping_add(cut);
            self.range = bound;
        } else {
            self.range = cut;
        }
        // 15 doublings bring each range that is not 0 to 32768
        for _ in 0..15 {
            if self.range < 32768 {
                self.range = self.range.wrapping_mul(2);
                self.low = self.low.wrapping_mul(2);
                self.shift = self.shift.wrapping_add(1);
            }
        }
        let rate = 4u32.wrapping_add(u32::from(count >> 4));
        let next = if flag {
            first.wrapping_add(32768u16.wrapping_sub(first).wrapping_shr(rate))
        } else {
            first.wrapping_sub(first.wrapping_shr(rate))
        };
        if context < 3 {
            self.cdfs[context] = [next, count.wrapping_add(1).min(32)];
        }
        Some(flag)
    }
}
