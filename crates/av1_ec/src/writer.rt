// The calls that are the same for every storage.
ghost use Rattle.std.specs.Prelude.{◌≡◌, ◌+◌, ◌*◌, ◌^◌, ◌<◌, ◌≤◌, [], ◌∷◌, length, nat_eq, max, pos, ◌-ℤ◌, ◌≤ℤ◌, ◌<ℤ◌};
ghost use Rattle.av1_cdf.specs.Context.{contents};
ghost use Rattle.av1_cdf.specs.Slots.{slot_of};
ghost use Rattle.av1_codes.specs.Codes.{golomb, refsubexp_between};
ghost use Rattle.av1_ec.specs.Flat.{bool_token, flat_tokens};
ghost use Rattle.av1_model.specs.Bits.{bits_of};
ghost use Rattle.av1_model.specs.Codes.{quniform, subexp, refsubexp};
ghost use Rattle.av1_model.specs.Cdf.{IsCdf, token_of};
ghost use Rattle.av1_model.specs.Eighths.{eighths};
ghost use Rattle.av1_model.specs.Interval.{narrow};
ghost use Rattle.av1_model.specs.Position.{interval_of};
ghost use Rattle.av1_ec.specs.Checkpoint.{reach};
ghost use Rattle.av1_ec.specs.Storing.{HasBits, KeepsPositionsUpTo, KeepsReached, KeepsReachedUpTo, Learns, StoresAll};
ghost use Rattle.av1_ec.specs.declared.storage.WriterCheckpoint.{WriterCheckpoint};
ghost use Rattle.av1_ec.specs.Rate.{tell_at, tell_frac_at};
ghost use Rattle.av1_ec.specs.Writing.{IsPosition, with_fake};
ghost use Rattle.std.proofs.Common.{rules};

use crate::adaptive::store_and_adapt;
use crate::flat::store_word;
use crate::frac::{log_eighths, symbol_eighths};
use crate::known::Known;
use crate::storage::{Storage, StorageBackend, WriterCheckpoint};
use crate::symbol::store_symbol;
use crate::writer_base::WriterBase;
use av1_cdf::{CDFContext, CDFContextLog, CDFOffset};
use av1_codes::{Word, golomb_word, quniform_word, refsubexp_word, signed_word, subexp_word};
use av1_geometry::OutOfMemory;

/// A writer of symbols, as rav1e's `Writer` of `src/ec.rs`.
pub trait Writer: Known {
    /// Codes symbol `s` by a CDF of as many symbols as it has numbers, of which the last is the count. The CDF stays as
    /// it is. A refusal leaves the position as it was.
    fn symbol(&mut self, s: u32, cdf: &[u16]) -> Result<(), OutOfMemory>
        requires cdf { IsCdf cdf.now }
        requires s { s < length cdf.now }
        requires shift { HasBits Self.Known self.old (token_of cdf.now s ∷ []) }
        ensures { StoresAll Self.Known 1 (token_of cdf.now s ∷ []) result self.old self.new };

    /// Codes symbol `s` by a CDF of a context, which then learns from it, and saves in the log what the CDF was. The other
    /// CDFs stay. A refusal leaves the position, the context and the log's saves as they were.
    fn symbol_with_update(
        &mut self,
        s: u32,
        cdf: CDFOffset,
        log: &mut CDFContextLog,
        fc: &mut CDFContext,
    ) -> Result<(), OutOfMemory>
        requires cdf { IsCdf (contents fc.old (slot_of cdf)) }
        requires s { s < cdf.len }
        requires shift { HasBits Self.Known self.old (token_of (contents fc.old (slot_of cdf)) s ∷ []) }
        ensures { Learns Self.Known (slot_of cdf) s result self.old self.new log.old log.new fc.old fc.new };

    /// Codes a bool that is true `f` times in 32768. A refusal leaves the position as it was.
    fn bool(&mut self, val: bool, f: u16) -> Result<(), OutOfMemory>
        requires some { 0 < f }
        requires not_all { f < 32768 }
        requires shift { HasBits Self.Known self.old (bool_token f val ∷ []) }
        ensures { StoresAll Self.Known 1 (bool_token f val ∷ []) result self.old self.new };

    /// Codes a bit that is as likely as not, 0 or 1. A refusal leaves the position as it was.
    fn bit(&mut self, bit: u16) -> Result<(), OutOfMemory>
        requires bit { bit ≤ 1 }
        requires shift { HasBits Self.Known self.old (bool_token 16384 (nat_eq bit 1) ∷ []) }
        ensures { StoresAll Self.Known 1 (bool_token 16384 (nat_eq bit 1) ∷ []) result self.old self.new };

    /// Codes the `bits` lowest bits of `s`, at most 32, the highest first, all or none.
    fn literal(&mut self, bits: u8, s: u32) -> Result<(), OutOfMemory>
        requires bits { bits ≤ 32 }
        requires fits { s < 2 ^ bits }
        requires shift { HasBits Self.Known self.old (flat_tokens (bits_of bits s)) }
        ensures { StoresAll Self.Known bits (flat_tokens (bits_of bits s)) result self.old self.new };

    /// Codes `level` in the Exp-Golomb code, all or none.
    fn write_golomb(&mut self, level: u32) -> Result<(), OutOfMemory>
        requires level { level + 1 < 2 ^ 32 }
        requires shift { HasBits Self.Known self.old (flat_tokens (golomb level)) }
        ensures { StoresAll Self.Known (length (golomb level)) (flat_tokens (golomb level)) result self.old self.new };

    /// Codes `v`, one of `n` values, in the quasi-uniform code, all or none: NS(n) of the AV1 specification.
    fn write_quniform(&mut self, n: u32, v: u32) -> Result<(), OutOfMemory>
        requires value { v < max n 1 }
        requires few { n ≤ 2 ^ 24 }
        requires shift { HasBits Self.Known self.old (flat_tokens (quniform n v)) }
        ensures { StoresAll Self.Known (length (quniform n v)) (flat_tokens (quniform n v)) result self.old self.new };

    /// Codes `v`, one of `n` values, in the subexponential code with first width `k`, all or none.
    fn write_subexp(&mut self, n: u32, k: u8, v: u32) -> Result<(), OutOfMemory>
        requires value { v < n }
        requires few { n ≤ 2 ^ 24 }
        requires width { k ≤ 16 }
        requires shift { HasBits Self.Known self.old (flat_tokens (subexp n k v)) }
        ensures { StoresAll Self.Known (length (subexp n k v)) (flat_tokens (subexp n k v)) result self.old self.new };

    /// Codes `v`, one of `mx` values, by its distance from `r` in the subexponential code, all or none.
    fn write_unsigned_subexp_with_ref(
        &mut self,
        v: u32,
        mx: u32,
        k: u8,
        r: u32,
    ) -> Result<(), OutOfMemory>
        requires value { v < mx }
        requires reference { r < mx }
        requires few { mx ≤ 2 ^ 24 }
        requires width { k ≤ 16 }
        requires shift { HasBits Self.Known self.old (flat_tokens (refsubexp mx k r v)) }
        ensures { StoresAll Self.Known (length (refsubexp mx k r v)) (flat_tokens (refsubexp mx k r v)) result self.old self.new };

    /// Codes `v`, a number from `low` on and below `high`, by its distance from `r` in the subexponential code, all or none.
    fn write_signed_subexp_with_ref(
        &mut self,
        v: i32,
        low: i32,
        high: i32,
        k: u8,
        r: i32,
    ) -> Result<(), OutOfMemory>
        requires value_from { low ≤ℤ v }
        requires value_to { v <ℤ high }
        requires reference_from { low ≤ℤ r }
        requires reference_to { r <ℤ high }
        requires few { (high -ℤ low) ≤ℤ pos (2 ^ 24) }
        requires width { k ≤ 16 }
        requires shift { HasBits Self.Known self.old (flat_tokens (refsubexp_between low high k r v)) }
        ensures { StoresAll Self.Known (length (refsubexp_between low high k r v)) (flat_tokens (refsubexp_between low high k r v)) result self.old self.new };

    /// What `write_quniform` takes, in eighths of a bit.
    fn count_quniform(&self, n: u32, v: u32) -> u32
        requires value { v < max n 1 }
        requires few { n ≤ 2 ^ 24 }
        ensures { result ≡ 8 * length (quniform n v) };

    /// What `write_subexp` takes, in eighths of a bit.
    fn count_subexp(&self, n: u32, k: u8, v: u32) -> u32
        requires value { v < n }
        requires few { n ≤ 2 ^ 24 }
        requires width { k ≤ 16 }
        ensures { result ≡ 8 * length (subexp n k v) };

    /// What `write_unsigned_subexp_with_ref` takes, in eighths of a bit.
    fn count_unsigned_subexp_with_ref(&self, v: u32, mx: u32, k: u8, r: u32) -> u32
        requires value { v < mx }
        requires reference { r < mx }
        requires few { mx ≤ 2 ^ 24 }
        requires width { k ≤ 16 }
        ensures { result ≡ 8 * length (refsubexp mx k r v) };

    /// What `write_signed_subexp_with_ref` takes, in eighths of a bit.
    fn count_signed_subexp_with_ref(&self, v: i32, low: i32, high: i32, k: u8, r: i32) -> u32
        requires value_from { low ≤ℤ v }
        requires value_to { v <ℤ high }
        requires reference_from { low ≤ℤ r }
        requires reference_to { r <ℤ high }
        requires few { (high -ℤ low) ≤ℤ pos (2 ^ 24) }
        requires width { k ≤ 16 }
        ensures { result ≡ 8 * length (refsubexp_between low high k r v) };

    /// How many bits the symbols take so far: those that were shifted out, one more, and the whole fake bits. It is at
    /// most 2^28 + 2^24 + 2^20 + 1.
    fn tell(&self) -> u32
        ensures { result ≡ tell_at (Self.position self.now) };

    /// A checkpoint of now.
    fn checkpoint(&self) -> WriterCheckpoint
        ensures reached { Self.IsReached self.now result }
        ensures reach { reach result ≡ Self.stored self.now }
        ensures position { Self.position_at self.now result ≡ Self.position self.now };

    /// Goes back to a checkpoint, except that the fake bits stay. Each checkpoint before it, which reaches no further, stands
    /// for what it stood for.
    fn rollback(&mut self, checkpoint: &WriterCheckpoint)
        requires { Self.IsReached self.old checkpoint.now }
        ensures position { Self.position self.new ≡ Self.position_at self.old checkpoint.now }
        ensures fake { (Self.position self.new).fake ≡ (Self.position self.old).fake }
        ensures spare { Self.spare self.old ≤ Self.spare self.new }
        ensures stored { Self.stored self.new ≡ reach checkpoint.now }
        ensures reached { KeepsReachedUpTo Self.Known (reach checkpoint.now) self.old self.new }
        ensures kept { KeepsPositionsUpTo Self.Known (reach checkpoint.now) self.old self.new };

    /// How many eighths of a bit the symbols take so far. The fake bits are counted twice, as in rav1e: each whole one as eight
    /// eighths, and each of their 256ths once more as one.
    fn tell_frac(&self) -> u32
        ensures { result ≡ tell_frac_at (Self.position self.now) };

    /// How many eighths of a bit symbol `s` would take here, by a CDF of as many symbols as it has numbers.
    fn symbol_bits(&self, s: u32, cdf: &[u16]) -> u32
        requires cdf { IsCdf cdf.now }
        requires s { s < length cdf.now }
        ensures { let i = interval_of (Self.position self.now) in eighths i + result ≡ eighths (narrow i (token_of cdf.now s)) };

    /// Adds fake bits, in 256ths of a bit, which `rollback` leaves. What a checkpoint stands for has them too.
    fn add_bits_frac(&mut self, bits_frac: u32)
        requires { (Self.position self.old).fake + bits_frac ≤ 2 ^ 28 }
        ensures position { Self.position self.new ≡ with_fake (Self.position self.old) bits_frac }
        ensures spare { Self.spare self.new ≡ Self.spare self.old }
        ensures stored { Self.stored self.new ≡ Self.stored self.old }
        ensures reached { KeepsReached Self.Known self.old self.new }
        ensures kept { (c : WriterCheckpoint) → Self.position_at self.new c ≡ with_fake (Self.position_at self.old c) bits_frac };

    /// Every writer's interval is valid.
    ghost valid: { (w : Self) → IsPosition (Self.position w) };
}

impl<S: Storage> Writer for WriterBase<S>
where
    WriterBase<S>: StorageBackend,
{
    #[inline(always)]
    fn symbol(&mut self, s: u32, cdf: &[u16]) -> Result<(), OutOfMemory> {
        store_symbol(self, s, cdf)
    }

    #[inline(always)]
    fn symbol_with_update(
        &mut self,
        s: u32,
        cdf: CDFOffset,
        log: &mut CDFContextLog,
        fc: &mut CDFContext,
    ) -> Result<(), OutOfMemory> {
        store_and_adapt(self, s, cdf, log, fc)
    }

    #[inline(always)]
    fn bool(&mut self, val: bool, f: u16) -> Result<(), OutOfMemory> {
        self.symbol(if val { 1 } else { 0 }, &[f, 0])
    }

    #[inline(always)]
    fn bit(&mut self, bit: u16) -> Result<(), OutOfMemory> {
        self.bool(bit == 1, 16384)
    }

    fn literal(&mut self, bits: u8, s: u32) -> Result<(), OutOfMemory> {
        let word = Word {
            len: bits as u32,
            number: s as u64,
        };
        store_word(self, word)
    }

    fn write_golomb(&mut self, level: u32) -> Result<(), OutOfMemory> {
        store_word(self, golomb_word(level))
    }

    fn write_quniform(&mut self, n: u32, v: u32) -> Result<(), OutOfMemory> {
        store_word(self, quniform_word(n, v))
    }

    fn write_subexp(&mut self, n: u32, k: u8, v: u32) -> Result<(), OutOfMemory> {
        store_word(self, subexp_word(n, k, v))
    }

    fn write_unsigned_subexp_with_ref(
        &mut self,
        v: u32,
        mx: u32,
        k: u8,
        r: u32,
    ) -> Result<(), OutOfMemory> {
        store_word(self, refsubexp_word(mx, k, r, v))
    }

    fn write_signed_subexp_with_ref(
        &mut self,
        v: i32,
        low: i32,
        high: i32,
        k: u8,
        r: i32,
    ) -> Result<(), OutOfMemory> {
        store_word(self, signed_word(low, high, k, r, v))
    }

    fn count_quniform(&self, n: u32, v: u32) -> u32 {
        quniform_word(n, v).eighths()
    }

    fn count_subexp(&self, n: u32, k: u8, v: u32) -> u32 {
        subexp_word(n, k, v).eighths()
    }

    fn count_unsigned_subexp_with_ref(&self, v: u32, mx: u32, k: u8, r: u32) -> u32 {
        refsubexp_word(mx, k, r, v).eighths()
    }

    fn count_signed_subexp_with_ref(&self, v: i32, low: i32, high: i32, k: u8, r: i32) -> u32 {
        signed_word(low, high, k, r, v).eighths()
    }

    #[inline(always)]
    fn tell(&self) -> u32 {
        let tally = self.tally();
        tally.bits + 1 + (tally.fake_bits_frac >> 8)
    }

    #[inline]
    fn tell_frac(&self) -> u32 {
        let tally = self.tally();
        8 * self.tell() - log_eighths(u32::from(tally.rng)) + tally.fake_bits_frac
    }

    #[inline]
    fn symbol_bits(&self, s: u32, cdf: &[u16]) -> u32 {
        symbol_eighths(self.tally().rng, s, cdf)
    }

    #[inline]
    fn add_bits_frac(&mut self, bits_frac: u32) {
        StorageBackend::add_bits_frac(self, bits_frac)
    }

    #[inline(always)]
    fn checkpoint(&self) -> WriterCheckpoint {
        StorageBackend::checkpoint(self)
    }

    #[inline(always)]
    fn rollback(&mut self, checkpoint: &WriterCheckpoint) {
        StorageBackend::rollback(self, checkpoint)
    }

    ghost valid = { Prim.search rules };
}
