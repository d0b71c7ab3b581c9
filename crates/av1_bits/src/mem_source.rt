// A source in memory, which fails at chosen calls.
ghost use Rattle.std.specs.Prelude.{◌≡◌, ◌↔◌, ℕ, ◌<◌, ◌≤◌, [], List, length, drop, Some, None, IfOk, OnOk, OnErr, IsErr, Contains};
ghost use Rattle.av1_bits.specs.Outside.{Rose, Moves, next_count};
ghost use Rattle.av1_bits.specs.Memory.{MemSourceState, moved};

use crate::{Failed, Source};
use std::marker::Model;

/// Gives the bytes that it was made of. Its calls of `read` are numbered from 1, and the number stays
/// at the last value of a `u64`.
#[derive(Drop)]
pub struct MemSource {
    bytes: Vec<u8>,
    next: usize,
    one_byte: bool,
    fails: Vec<u64>,
    calls: u64,
    faults: u64,
}

impl Model for MemSource {
    ghost use Rattle.std.specs.Prelude.{◌≤◌, length, drop};
    ghost use Rattle.av1_bits.specs.Memory.{MemSourceState};

    ghost Value = { MemSourceState };

    ghost view = { λ s. record { left = drop s.next s.bytes.items; one_byte = s.one_byte; fails = s.fails.items; calls = s.calls; faults = s.faults } };

    ghost invariant = { λ s. s.next ≤ length s.bytes.items };
}

impl MemSource {
    /// A source of these bytes. Each call moves one byte at most where `one_byte` is true, and fails
    /// where its number is in `fails`.
    pub fn new(bytes: Vec<u8>, one_byte: bool, fails: Vec<u64>) -> MemSource
        ensures { result ≡ record { left = bytes.items; one_byte = one_byte; fails = fails.items; calls = 0; faults = 0 } }
    {
        MemSource {
            bytes,
            next: 0,
            one_byte,
            fails,
            calls: 0,
            faults: 0,
        }
    }
}

impl Source for MemSource {
    ghost left = { λ s. Some s.left };

    ghost faults = { λ s. s.faults };

    fn read(&mut self, buf: &mut [u8]) -> Result<usize, Failed>
        ensures fits { IfOk result (λ n. n ≤ length buf.old) }
        ensures moved { IfOk result (λ n. (bytes : List ℕ) → Some self.old.left ≡ Some bytes → Moves n bytes buf.new (Some self.new.left)) }
        ensures end { IfOk result (λ n. (bytes : List ℕ) → Some self.old.left ≡ Some bytes → 0 < length buf.old → (n ≡ 0) ↔ (bytes ≡ [])) }
        ensures untold { Some self.old.left ≡ None → Some self.new.left ≡ None }
        ensures none_taken { OnErr result (Some self.new.left ≡ Some self.old.left) }
        ensures count { OnOk result (self.new.faults ≡ self.old.faults) }
        ensures fault { OnErr result (Rose self.old.faults self.new.faults) }

        // It fails exactly at a chosen call, and moves as much as it may.
        ensures fails { IsErr result ↔ Contains self.old.fails (next_count self.old.calls) }
        ensures number { IfOk result (λ n. n ≡ moved self.old.one_byte (length buf.old) (length self.old.left)) }
        ensures after { IfOk result (λ n. self.new ≡ record self.old { left = drop n self.old.left; calls = next_count self.old.calls }) }
        ensures after_fault { OnErr result (self.new ≡ record self.old { calls = next_count self.old.calls; faults = next_count self.old.faults }) }
    {
        self.calls = self.calls.saturating_add(1);
        if self.fails.contains(&self.calls) {
            self.faults = self.faults.saturating_add(1);
            return Err(Failed);
        }
        let left = self.bytes.len() - self.next;
        let n = buf
            .len()
            .min(if self.one_byte { left.min(1) } else { left });
        buf[..n].copy_from_slice(&self.bytes[self.next..self.next + n]);
        self.next += n;
        Ok(n)
    }
}
