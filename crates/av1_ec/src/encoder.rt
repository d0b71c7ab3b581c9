// The encoder: entries of a byte and a carry, and a window of the low end.
ghost use Rattle.std.specs.Prelude.{◌≡◌, ◌+◌, ◌-◌, ◌/◌, IfOk, length, vec_len, vec_capacity};
ghost use Rattle.av1_model.specs.Interval.{whole, final_bytes};
ghost use Rattle.av1_model.specs.Position.{encoder_at, interval_of};
ghost use Rattle.av1_ec.specs.Encoder.{weight_of, encoder_position, IsEncoding};
ghost use Rattle.av1_ec.specs.Checkpoint.{IsBeginning, beginning_position};
ghost use Rattle.av1_ec.specs.EncoderLaw.{position_valid};
ghost use Rattle.av1_ec.specs.Rate.{tell_at};

use crate::known::Known;
use crate::precarry::{make_room, push_end, sum_carries};
use crate::storage::{Storage, StorageBackend, Tally, WriterCheckpoint};
use crate::writer_base::{WriterBase, count_of, lr_compute};
use av1_geometry::OutOfMemory;
use std::alloc::Global;

/// The storage of an encoder, which writes the bytes.
#[derive(Drop)]
pub struct WriterEncoder {
    // Bytes that may still have a carry, each at most 511.
    precarry: Vec<u16>,
    // The window of the interval's low end, below the entries.
    low: u32,
}

impl Storage for WriterEncoder {
    ghost GoesWith = { λ s range count. IsEncoding s.precarry.items s.low range (weight_of count) };
}

impl WriterEncoder {
    /// An encoder that has coded nothing. It takes no memory yet.
    pub fn new(alloc: Global) -> WriterBase<WriterEncoder>
        ensures { ⟦<WriterBase<WriterEncoder> as Known>⟧.position result ≡ encoder_at whole }
    {
        WriterBase {
            rng: 32768,
            cnt: -9,
            fake_bits_frac: 0,
            s: WriterEncoder {
                precarry: Vec::new(alloc),
                low: 0,
            },
        }
    }
}

impl WriterBase<WriterEncoder> {
    /// The bytes of all that was coded: the least odd multiple of 2^14 in the interval, in units of its range, with zero
    /// bits that fill the last byte. What follows the bytes has to be zero bits too, or the point may leave the interval.
    /// Where no fake bits were added, they are as many bits as `tell` says, in whole bytes.
    pub fn done(self) -> Result<Vec<u8>, OutOfMemory>
        ensures bytes { IfOk result (λ v. v.items ≡ final_bytes (interval_of (⟦<WriterBase<WriterEncoder> as Known>⟧.position self))) }
        ensures told { let p = ⟦<WriterBase<WriterEncoder> as Known>⟧.position self in IfOk result (λ v. p.fake ≡ 0 → length v.items ≡ (tell_at p + 7) / 8) }
    {
        let weight = self.weight();
        let WriterBase {
            rng: _,
            cnt: _,
            fake_bits_frac: _,
            s,
        } = self;
        let WriterEncoder { mut precarry, low } = s;
        push_end(&mut precarry, low, weight)?;
        sum_carries(*precarry.allocator(), &precarry)
    }
}

impl Known for WriterBase<WriterEncoder> {
    ghost position = { λ w. encoder_position w.s.precarry.items w.s.low w.rng w.cnt w.fake_bits_frac };

    ghost spare = { λ w. (vec_capacity w.s.precarry - vec_len w.s.precarry) / 2 };

    ghost stored = { λ w. length w.s.precarry.items };

    ghost IsReached = { λ w c. IsBeginning w.s.precarry.items c };

    ghost position_at = { λ w c. beginning_position w.s.precarry.items w.fake_bits_frac c };
}

impl StorageBackend for WriterBase<WriterEncoder> {
    #[inline(always)]
    fn store(&mut self, fl: u16, fh: u16, nms: u16) -> Result<(), OutOfMemory> {
        let (above, width) = lr_compute(self.rng, fl, fh, nms);
        let mut weight = self.weight();
        let mut low = self.s.low + above;
        let d = width.leading_zeros();
        make_room(&mut self.s.precarry, &mut low, &mut weight, d)?;
        self.s.low = low << d;
        self.rng = width << d;
        self.cnt = count_of(weight + d);
        Ok(())
    }

    #[inline]
    fn ready(&mut self, tokens: usize) -> Result<(), OutOfMemory> {
        self.s.precarry.reserve(tokens.saturating_mul(2))?;
        Ok(())
    }

    #[inline(always)]
    fn tally(&self) -> Tally {
        Tally {
            rng: self.rng,
            bits: (8 * self.s.precarry.len() + (self.cnt + 9) as usize) as u32,
            fake_bits_frac: self.fake_bits_frac,
        }
    }

    #[inline(always)]
    fn checkpoint(&self) -> WriterCheckpoint {
        WriterCheckpoint {
            stream_size: self.s.precarry.len(),
            backend_var: self.s.low,
            rng: self.rng,
            cnt: self.cnt,
        }
    }

    #[inline(always)]
    fn rollback(&mut self, checkpoint: &WriterCheckpoint) {
        self.s.precarry.truncate(checkpoint.stream_size);
        self.s.low = checkpoint.backend_var;
        self.rng = checkpoint.rng;
        self.cnt = checkpoint.cnt;
    }

    #[inline]
    fn stream_bits(&self) -> usize {
        8 * self.s.precarry.len()
    }

    #[inline]
    fn add_bits_frac(&mut self, bits_frac: u32) {
        self.fake_bits_frac += bits_frac;
    }

    ghost valid = { λ w. position_valid w.s.precarry.items w.s.low w.rng w.cnt w.fake_bits_frac w.window w.fake };
}
