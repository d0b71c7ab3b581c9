// The recorder: the tokens in order, and the range and how many bits were shifted out, as an encoder's.
ghost use Rattle.std.specs.Prelude.{◌≡◌, ◌+◌, ◌-◌, ◌<◌, ◌≤◌, ◌++◌, ◌∷◌, [], IsOk, OnOk, OnErr, length, take, vec_len, vec_capacity};
ghost use Rattle.av1_ec.specs.Recorder.{IsRecorded, IsRecording, recorder_position, token_in, tokens_in};
ghost use Rattle.av1_model.specs.Interval.{IsToken};
ghost use Rattle.av1_ec.specs.Checkpoint.{KeepsCheckpoints};
ghost use Rattle.av1_model.specs.Position.{advance, advance_all};
ghost use Rattle.av1_ec.specs.RecorderLaw.{recording_valid};
ghost use Rattle.av1_ec.specs.Storing.{HasBits, IsClearedIf, Keeps, StoresInTurn, tokens_of};
ghost use Rattle.av1_ec.specs.Writing.{HasFewBits};
ghost use Rattle.av1_ec.specs.declared.recorder.Recorded.{Recorded};

use crate::known::Known;
use crate::storage::{Storage, StorageBackend, Tally, WriterCheckpoint};
use crate::writer_base::{WriterBase, lr_compute};
use av1_geometry::OutOfMemory;
use std::alloc::Global;

// A token: a symbol's part of 32768, from `fl` down to `fh`, and how many symbols it and the later ones are.
#[derive(Clone, Copy)]
struct Recorded {
    fl: u16,
    fh: u16,
    nms: u16,
}

// Appends a token.
#[inline]
fn keep(storage: &mut Vec<Recorded>, fl: u16, fh: u16, nms: u16) -> Result<(), OutOfMemory>
    ensures ok { let token : Recorded = record { fl = fl; fh = fh; nms = nms } in OnOk result (storage.new.items ≡ storage.old.items ++ token ∷ []) }
    ensures err { OnErr result (storage.new.items ≡ storage.old.items) }
    ensures room { vec_len storage.old < vec_capacity storage.old → IsOk result }
    ensures len { vec_len storage.new ≤ vec_len storage.old + 1 }
    ensures capacity { vec_capacity storage.old ≤ vec_capacity storage.new }
{
    if storage.len() == storage.capacity() {
        return keep_in_more_memory(storage, fl, fh, nms);
    }
    storage.push_reserved(Recorded { fl, fh, nms });
    Ok(())
}

// Rare, so that it stays out of the way of what is often.
#[cold]
#[inline(never)]
fn keep_in_more_memory(
    storage: &mut Vec<Recorded>,
    fl: u16,
    fh: u16,
    nms: u16,
) -> Result<(), OutOfMemory>
    ensures ok { let token : Recorded = record { fl = fl; fh = fh; nms = nms } in OnOk result (storage.new.items ≡ storage.old.items ++ token ∷ []) }
    ensures err { OnErr result (storage.new.items ≡ storage.old.items) }
    ensures len { vec_len storage.new ≤ vec_len storage.old + 1 }
    ensures capacity { vec_capacity storage.old ≤ vec_capacity storage.new }
{
    storage.push(Recorded { fl, fh, nms })?;
    Ok(())
}

/// The storage of a recorder, which keeps the tokens for another writer.
#[derive(Drop)]
pub struct WriterRecorder {
    // The tokens, in order.
    storage: Vec<Recorded>,
    // How many bits were shifted out.
    bits: u32,
}

impl Storage for WriterRecorder {
    ghost GoesWith = { λ s range count. IsRecording (tokens_in s.storage.items) range s.bits };
}

impl WriterRecorder {
    /// A recorder that has no tokens. It takes no memory yet.
    pub fn new(alloc: Global) -> WriterBase<WriterRecorder>
        ensures { ⟦<WriterBase<WriterRecorder> as Known>⟧.position result ≡ recorder_position [] 32768 0 0 }
    {
        WriterBase {
            rng: 32768,
            cnt: -9,
            fake_bits_frac: 0,
            s: WriterRecorder {
                storage: Vec::new(alloc),
                bits: 0,
            },
        }
    }
}

// Stores a token into a writer of any kind.
fn store_into(dest: &mut dyn StorageBackend, token: &Recorded) -> Result<(), OutOfMemory>
    requires token { IsToken (token_in token.now) }
    requires shift { HasFewBits (advance (position dest.old) (token_in token.now)) }
    ensures ok { OnOk result (position dest.new ≡ advance (position dest.old) (token_in token.now)) }
    ensures err { OnErr result (position dest.new ≡ position dest.old) }
    ensures room { 0 < spare dest.old → IsOk result }
    ensures lowered { spare dest.old ≤ spare dest.new + 1 }
    ensures kept { KeepsCheckpoints stored IsReached position_at dest.old dest.new }
{
    dest.store(token.fl, token.fh, token.nms)
}

impl WriterBase<WriterRecorder> {
    /// Stores the tokens into another writer, in order, and leaves the recorder as a new one, but with its fake bits. A
    /// refusal leaves the recorder whole, and has stored a beginning of the tokens.
    pub fn replay(&mut self, dest: &mut dyn StorageBackend) -> Result<(), OutOfMemory>
        requires { HasFewBits (advance_all (position dest.old) (tokens_of ⟦<WriterBase<WriterRecorder> as Known>⟧ self.old)) }
        ensures stored { let ts = tokens_of ⟦<WriterBase<WriterRecorder> as Known>⟧ self.old in StoresInTurn position spare ts result dest.old dest.new }
        ensures kept { KeepsCheckpoints stored IsReached position_at dest.old dest.new }
        ensures cleared { IsClearedIf ⟦<WriterBase<WriterRecorder> as Known>⟧ result self.old self.new }
        ensures whole { OnErr result (self.new ≡ self.old) }
    {
        for token in &self.s.storage {
            store_into(dest, token)?;
        }
        self.begin_anew();
        Ok(())
    }

    /// `replay` into a writer whose kind is known, so that each of its calls is direct.
    pub fn replay_into<D: StorageBackend>(&mut self, dest: &mut D) -> Result<(), OutOfMemory>
        requires { HasBits D.Known dest.old (tokens_of ⟦<WriterBase<WriterRecorder> as Known>⟧ self.old) }
        ensures stored { let ts = tokens_of ⟦<WriterBase<WriterRecorder> as Known>⟧ self.old in StoresInTurn D.position D.spare ts result dest.old dest.new }
        ensures kept { Keeps D.Known dest.old dest.new }
        ensures cleared { IsClearedIf ⟦<WriterBase<WriterRecorder> as Known>⟧ result self.old self.new }
        ensures whole { OnErr result (self.new ≡ self.old) }
    {
        for recorded in &self.s.storage {
            dest.store(recorded.fl, recorded.fh, recorded.nms)?;
        }
        self.begin_anew();
        Ok(())
    }

    // Leaves it as a new one, but with its fake bits.
    fn begin_anew(&mut self)
        ensures { let position = ⟦<WriterBase<WriterRecorder> as Known>⟧.position in position self.new ≡ recorder_position [] 32768 0 (position self.old).fake }
    {
        self.s.storage.clear();
        self.s.bits = 0;
        self.rng = 32768;
    }
}

impl Known for WriterBase<WriterRecorder> {
    ghost position = { λ w. recorder_position (tokens_in w.s.storage.items) w.rng w.s.bits w.fake_bits_frac };

    ghost spare = { λ w. vec_capacity w.s.storage - vec_len w.s.storage };

    ghost stored = { λ w. length w.s.storage.items };

    ghost IsReached = { λ w c. IsRecorded (tokens_in w.s.storage.items) c };

    ghost position_at = { λ w c. recorder_position (take c.stream_size (tokens_in w.s.storage.items)) c.rng c.backend_var w.fake_bits_frac };
}

impl StorageBackend for WriterBase<WriterRecorder> {
    #[inline(always)]
    fn store(&mut self, fl: u16, fh: u16, nms: u16) -> Result<(), OutOfMemory> {
        let (_, width) = lr_compute(self.rng, fl, fh, nms);
        let d = width.leading_zeros();
        keep(&mut self.s.storage, fl, fh, nms)?;
        self.s.bits += d;
        self.rng = width << d;
        Ok(())
    }

    #[inline]
    fn ready(&mut self, tokens: usize) -> Result<(), OutOfMemory> {
        self.s.storage.reserve(tokens)?;
        Ok(())
    }

    #[inline(always)]
    fn tally(&self) -> Tally {
        Tally {
            rng: self.rng,
            bits: self.s.bits,
            fake_bits_frac: self.fake_bits_frac,
        }
    }

    #[inline(always)]
    fn checkpoint(&self) -> WriterCheckpoint {
        WriterCheckpoint {
            stream_size: self.s.storage.len(),
            backend_var: self.s.bits,
            rng: self.rng,
            cnt: self.cnt,
        }
    }

    #[inline(always)]
    fn rollback(&mut self, checkpoint: &WriterCheckpoint) {
        self.s.storage.truncate(checkpoint.stream_size);
        self.s.bits = checkpoint.backend_var;
        self.rng = checkpoint.rng;
    }

    #[inline]
    fn stream_bits(&self) -> usize {
        self.s.bits as usize
    }

    #[inline]
    fn add_bits_frac(&mut self, bits_frac: u32) {
        self.fake_bits_frac += bits_frac;
    }

    ghost valid = { λ w. recording_valid (tokens_in w.s.storage.items) w.rng w.s.bits w.fake_bits_frac w.window w.fake };
}
