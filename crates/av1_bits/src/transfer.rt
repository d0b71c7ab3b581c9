// Sending everything, and reading to the end.
ghost use Rattle.std.specs.Prelude.{◌≡◌, ℕ, ◌+◌, ◌<◌, ◌≤◌, List, [], length, take, Some, IfOk, OnOk, OnErr, IsErrOf};
ghost use Rattle.av1_bits.specs.declared.transfer.ReadError.TheVariants.{Fault, OutOfMemory};
ghost use Rattle.av1_bits.specs.Outside.{Rose, Takes, appended};

use crate::{Failed, Sink, Source};
use std::alloc::{AllocError, Global};

/// How many bytes a read asks for.
pub const PIECE: usize = 8192;

/// Why a source was not read to its end.
#[derive(Clone, Copy, Debug, PartialEq, Eq)]
pub enum ReadError {
    /// A read failed.
    Fault,
    /// There are more bytes than are allowed.
    TooLarge,
    /// There was not enough memory.
    OutOfMemory,
}

impl From<Failed> for ReadError {
    ghost from_gives = { λ _ e. e ≡ Fault };

    fn from(_: Failed) -> Self {
        ReadError::Fault
    }
}

impl From<AllocError> for ReadError {
    ghost from_gives = { λ _ e. e ≡ OutOfMemory };

    fn from(_: AllocError) -> Self {
        ReadError::OutOfMemory
    }
}

/// Sends all the bytes, piece by piece. The first `Failed` ends it, and then a front of them was taken.
pub fn send_all<S: Sink>(out: &mut S, bytes: &[u8]) -> Result<(), Failed>
    ensures held { OnOk result (S.sent out.new ≡ appended (S.sent out.old) bytes.now) }
    ensures count { OnOk result (S.faults out.new ≡ S.faults out.old) }
    ensures front { OnErr result ((k : ℕ) × (k < length bytes.now) × (S.sent out.new ≡ appended (S.sent out.old) (take k bytes.now))) }
    ensures fault { OnErr result (Rose (S.faults out.old) (S.faults out.new)) }
{
    let mut done = 0;
    while done < bytes.len() {
        done += out.send(&bytes[done..])?;
    }
    Ok(())
}

/// Reads to the end, piece by piece, and gives the bytes, of which `most` are allowed. It stops at the
/// first `Failed`, and as soon as more bytes than `most` were taken.
pub fn read_at_most<R: Source>(
    alloc: Global,
    source: &mut R,
    most: usize,
) -> Result<Vec<u8>, ReadError>
    // What it gives is all that was left, and nothing is left.
    ensures all { IfOk result (λ v. (bytes : List ℕ) → R.left source.old ≡ Some bytes → (v.items ≡ bytes) × (R.left source.new ≡ Some [])) }
    ensures allowed { IfOk result (λ v. length v.items ≤ most) }

    // It is too large exactly where more than `most` bytes were taken.
    ensures too_large { IsErrOf result ReadError.TooLarge → (k : ℕ) × (most < k) × (k ≤ most + PIECE) × Takes k (R.left source.old) (R.left source.new) }
    ensures no_larger { ¬ IsErrOf result ReadError.TooLarge → (k : ℕ) × (k ≤ most) × Takes k (R.left source.old) (R.left source.new) }

    // It is a fault exactly where the count rose.
    ensures fault { IsErrOf result ReadError.Fault → Rose (R.faults source.old) (R.faults source.new) }
    ensures count { ¬ IsErrOf result ReadError.Fault → R.faults source.new ≡ R.faults source.old }
{
    let mut bytes = Vec::new(alloc);
    let mut piece = [0; PIECE];
    loop {
        let n = source.read(&mut piece)?;
        if n == 0 {
            return Ok(bytes);
        }
        if n > most - bytes.len() {
            return Err(ReadError::TooLarge);
        }
        bytes.extend_from_slice(&piece[..n])?;
    }
}
