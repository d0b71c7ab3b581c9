// A sink in memory, which fails at chosen calls.
ghost use Rattle.std.specs.Prelude.{◌≡◌, ◌⊎◌, ◌↔◌, ◌-◌, ◌<◌, ◌≤◌, [], ◌++◌, length, take, Some, IfOk, OnOk, OnErr, IsErr, Contains};
ghost use Rattle.av1_bits.specs.Outside.{Rose, appended, next_count};
ghost use Rattle.av1_bits.specs.Memory.{MemSinkState, moved};

use crate::{Failed, Sink};
use av1_geometry::OutOfMemory;
use std::alloc::Global;
use std::marker::Model;

/// Holds what it was sent, up to `room` bytes. Its calls of `send` are numbered from 1, and the
/// number stays at the last value of a `u64`.
#[derive(Drop)]
pub struct MemSink {
    held: Vec<u8>,
    room: usize,
    one_byte: bool,
    fails: Vec<u64>,
    calls: u64,
    faults: u64,
}

impl Model for MemSink {
    ghost use Rattle.std.specs.Prelude.{◌≤◌, vec_capacity, length};
    ghost use Rattle.av1_bits.specs.Memory.{MemSinkState};

    ghost Value = { MemSinkState };

    ghost view = { λ s. record { held = s.held.items; room = s.room; one_byte = s.one_byte; fails = s.fails.items; calls = s.calls; faults = s.faults } };

    ghost invariant = { λ s. (length s.held.items ≤ s.room) × (s.room ≤ vec_capacity s.held) };
}

impl MemSink {
    /// A sink that holds nothing. Each call takes one byte at most where `one_byte` is true, and
    /// fails where its number is in `fails` or `room` bytes are held.
    pub fn new(
        alloc: Global,
        room: usize,
        one_byte: bool,
        fails: Vec<u64>,
    ) -> Result<MemSink, OutOfMemory>
        ensures { IfOk result (λ s. s ≡ record { held = []; room = room; one_byte = one_byte; fails = fails.items; calls = 0; faults = 0 }) }
    {
        let held = Vec::with_capacity(alloc, room)?;
        Ok(MemSink {
            held,
            room,
            one_byte,
            fails,
            calls: 0,
            faults: 0,
        })
    }

    /// The bytes that it holds.
    pub fn bytes(&self) -> &[u8]
        ensures { result.now ≡ self.now.held }
    {
        &self.held
    }
}

impl Sink for MemSink {
    ghost sent = { λ s. Some s.held };

    ghost faults = { λ s. s.faults };

    fn send(&mut self, piece: &[u8]) -> Result<usize, Failed>
        ensures taken { IfOk result (λ n. n ≤ length piece.now) }
        ensures some { IfOk result (λ n. 0 < length piece.now → 0 < n) }
        ensures held { IfOk result (λ n. Some self.new.held ≡ appended (Some self.old.held) (take n piece.now)) }
        ensures none_taken { OnErr result (Some self.new.held ≡ Some self.old.held) }
        ensures count { OnOk result (self.new.faults ≡ self.old.faults) }
        ensures fault { OnErr result (Rose self.old.faults self.new.faults) }
        ensures empty { length piece.now ≡ 0 → result ≡ Ok 0 }

        // It fails exactly at a chosen call or where the room is used up, and takes as much as it may.
        ensures fails { IsErr result ↔ (0 < length piece.now) × (Contains self.old.fails (next_count self.old.calls) ⊎ (self.old.room ≤ length self.old.held)) }
        ensures number { IfOk result (λ n. n ≡ moved self.old.one_byte (length piece.now) (self.old.room - length self.old.held)) }
        ensures after { IfOk result (λ n. self.new ≡ record self.old { held = self.old.held ++ take n piece.now; calls = next_count self.old.calls }) }
        ensures after_fault { OnErr result (self.new ≡ record self.old { calls = next_count self.old.calls; faults = next_count self.old.faults }) }
    {
        self.calls = self.calls.saturating_add(1);
        if piece.is_empty() {
            return Ok(0);
        }
        let room = self.room - self.held.len();
        if room == 0 || self.fails.contains(&self.calls) {
            self.faults = self.faults.saturating_add(1);
            return Err(Failed);
        }
        let n = piece.len().min(if self.one_byte { 1 } else { room });
        match self.held.extend_from_slice(&piece[..n]) {
            Ok(()) => Ok(n),
            Err(_) => unreachable!(),
        }
    }
}
