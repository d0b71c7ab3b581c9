// What differs from one writer to another.
ghost use Rattle.std.specs.Prelude.{◌≡◌, ℕ, ℤ, ◌+◌, ◌^◌, ◌≤◌, [], ◌∷◌, IsOk, OnOk};
ghost use Rattle.av1_model.specs.Interval.{IsToken};
ghost use Rattle.av1_ec.specs.Checkpoint.{reach};
ghost use Rattle.av1_ec.specs.Storing.{HasBits, Keeps, KeepsPositionsUpTo, KeepsReached, KeepsReachedUpTo, StoresAll};
ghost use Rattle.av1_ec.specs.Writing.{IsPosition, stream_bits_at, with_fake};

use crate::known::Known;
use av1_geometry::OutOfMemory;

/// What a writer keeps beside its range, its count and its fake bits: this crate's three kinds, each with its calls in an impl of
/// `StorageBackend` for the `WriterBase` over it.
pub trait Storage {
    /// Which range and count go with what is stored.
    ghost GoesWith: { Self → ℕ → ℤ → Type 0 };
}

/// How far a writer has come.
#[derive(Clone, Copy)]
pub struct Tally {
    /// The width of its interval, from 32768 to 65535.
    pub rng: u16,
    /// How many bits were shifted out.
    pub bits: u32,
    /// The fake bits of `add_bits_frac`, in 256ths of a bit.
    pub fake_bits_frac: u32,
}

/// A moment of a writer, to which `rollback` goes back. It stands for a position as long as the writer has what was stored
/// then.
#[derive(Clone, Copy, Debug)]
pub struct WriterCheckpoint {
    // How much was stored: an encoder's entries.
    pub(crate) stream_size: usize,
    // What the storage keeps beside: an encoder's window.
    pub(crate) backend_var: u32,
    // The width of the interval.
    pub(crate) rng: u16,
    // How many bits the window held.
    pub(crate) cnt: i16,
}

/// A writer by its storage, as rav1e's `StorageBackend` of `src/ec.rs`: an encoder, a recorder or a counter.
pub trait StorageBackend: Known {
    ghost use Rattle.av1_ec.specs.declared.storage.WriterCheckpoint.{WriterCheckpoint};

    /// Stores the token of a symbol, whose part of 32768 goes from `fl` (32768 for the first symbol) down to `fh`, and
    /// which is followed by `nms` - 1 symbols. A refusal leaves the position as it was.
    fn store(&mut self, fl: u16, fh: u16, nms: u16) -> Result<(), OutOfMemory>
        requires token { IsToken record { fl = fl; fh = fh; nms = nms } }
        requires shift { HasBits Self.Known self.old (record { fl = fl; fh = fh; nms = nms } ∷ []) }
        ensures { StoresAll Self.Known 1 (record { fl = fl; fh = fh; nms = nms } ∷ []) result self.old self.new };

    /// Makes room for this many tokens, so that as many stores cannot fail. Where the room is there it does not fail. The
    /// position stays, also on a refusal.
    fn ready(&mut self, tokens: usize) -> Result<(), OutOfMemory>
        ensures same { Self.position self.new ≡ Self.position self.old }
        ensures ready { OnOk result (tokens ≤ Self.spare self.new) }
        ensures room { tokens ≤ Self.spare self.old → IsOk result }
        ensures spare { Self.spare self.old ≤ Self.spare self.new }
        ensures kept { Keeps Self.Known self.old self.new };

    /// How far the writer has come.
    fn tally(&self) -> Tally
        ensures rng { result.rng ≡ (Self.position self.now).range }
        ensures bits { result.bits ≡ (Self.position self.now).shift }
        ensures fake { result.fake_bits_frac ≡ (Self.position self.now).fake };

    /// A checkpoint of now.
    fn checkpoint(&self) -> WriterCheckpoint
        ensures reached { Self.IsReached self.now result }
        ensures reach { reach result ≡ Self.stored self.now }
        ensures position { Self.position_at self.now result ≡ Self.position self.now };

    /// Goes back to a checkpoint, except that the fake bits stay. Each checkpoint before it, which reaches no further, stands
    /// for what it stood for.
    fn rollback(&mut self, checkpoint: &WriterCheckpoint)
        requires { Self.IsReached self.old checkpoint.now }
        ensures position { Self.position self.new ≡ Self.position_at self.old checkpoint.now }
        ensures fake { (Self.position self.new).fake ≡ (Self.position self.old).fake }
        ensures spare { Self.spare self.old ≤ Self.spare self.new }
        ensures stored { Self.stored self.new ≡ reach checkpoint.now }
        ensures reached { KeepsReachedUpTo Self.Known (reach checkpoint.now) self.old self.new }
        ensures kept { KeepsPositionsUpTo Self.Known (reach checkpoint.now) self.old self.new };

    /// How many bits are in the stored stream: an encoder's whole bytes, all bits of another writer.
    fn stream_bits(&self) -> usize
        ensures { result ≡ stream_bits_at (Self.position self.now) };

    /// Adds fake bits, in 256ths of a bit, which `rollback` leaves. What a checkpoint stands for has them too.
    fn add_bits_frac(&mut self, bits_frac: u32)
        requires { (Self.position self.old).fake + bits_frac ≤ 2 ^ 28 }
        ensures position { Self.position self.new ≡ with_fake (Self.position self.old) bits_frac }
        ensures spare { Self.spare self.new ≡ Self.spare self.old }
        ensures stored { Self.stored self.new ≡ Self.stored self.old }
        ensures reached { KeepsReached Self.Known self.old self.new }
        ensures kept { (c : WriterCheckpoint) → Self.position_at self.new c ≡ with_fake (Self.position_at self.old c) bits_frac };

    /// Every writer's interval is valid.
    ghost valid: { (w : Self) → IsPosition (Self.position w) };
}
