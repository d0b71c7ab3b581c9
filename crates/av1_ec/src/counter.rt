// The counter: the range and how many bits were shifted out, as an encoder's, and nothing else.
ghost use Rattle.std.specs.Prelude.{◌≡◌, ◌^◌};
ghost use Rattle.av1_ec.specs.Counter.{counter_position, IsCount, IsCounted};
ghost use Rattle.av1_ec.specs.CounterLaw.{count_valid};

use crate::known::Known;
use crate::storage::{Storage, StorageBackend, Tally, WriterCheckpoint};
use crate::writer_base::{WriterBase, lr_compute};
use av1_geometry::OutOfMemory;

/// The storage of a counter, which tells what symbols would take and takes no memory.
#[derive(Drop)]
pub struct WriterCounter {
    // How many bits were shifted out.
    bits: u32,
}

impl Storage for WriterCounter {
    ghost GoesWith = { λ s range count. IsCount range s.bits };
}

impl WriterCounter {
    /// A counter that has counted nothing.
    pub fn new() -> WriterBase<WriterCounter>
        ensures { ⟦<WriterBase<WriterCounter> as Known>⟧.position result ≡ counter_position 32768 0 0 }
    {
        WriterBase {
            rng: 32768,
            cnt: -9,
            fake_bits_frac: 0,
            s: WriterCounter { bits: 0 },
        }
    }
}

impl Known for WriterBase<WriterCounter> {
    ghost position = { λ w. counter_position w.rng w.s.bits w.fake_bits_frac };

    ghost spare = { λ w. 2 ^ 64 };

    ghost stored = { λ w. w.s.bits };

    ghost IsReached = { λ w c. IsCounted w.s.bits c };

    ghost position_at = { λ w c. counter_position c.rng c.stream_size w.fake_bits_frac };
}

impl StorageBackend for WriterBase<WriterCounter> {
    #[inline(always)]
    fn store(&mut self, fl: u16, fh: u16, nms: u16) -> Result<(), OutOfMemory> {
        let (_, width) = lr_compute(self.rng, fl, fh, nms);
        let d = width.leading_zeros();
        self.s.bits += d;
        self.rng = width << d;
        Ok(())
    }

    #[inline]
    fn ready(&mut self, _tokens: usize) -> Result<(), OutOfMemory> {
        Ok(())
    }

    #[inline(always)]
    fn tally(&self) -> Tally {
        Tally {
            rng: self.rng,
            bits: self.s.bits,
            fake_bits_frac: self.fake_bits_frac,
        }
    }

    #[inline(always)]
    fn checkpoint(&self) -> WriterCheckpoint {
        WriterCheckpoint {
            stream_size: self.s.bits as usize,
            backend_var: 0,
            rng: self.rng,
            cnt: self.cnt,
        }
    }

    #[inline(always)]
    fn rollback(&mut self, checkpoint: &WriterCheckpoint) {
        self.s.bits = checkpoint.stream_size as u32;
        self.rng = checkpoint.rng;
    }

    #[inline]
    fn stream_bits(&self) -> usize {
        self.s.bits as usize
    }

    #[inline]
    fn add_bits_frac(&mut self, bits_frac: u32) {
        self.fake_bits_frac += bits_frac;
    }

    ghost valid = { λ w. count_valid w.rng w.s.bits w.fake_bits_frac w.window w.fake };
}
