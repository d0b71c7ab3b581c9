// Why a unit isn't written.
use av1_geometry::{OutOfMemory, Rule};
use std::alloc::{AllocError, AllocFailed};
use thiserror::Error;

/// A place in a unit.
#[derive(Clone, Copy, Debug, PartialEq, Eq)]
pub enum Place {
    /// The tables that distributions start from.
    Tables,

    /// The scans of coefficients.
    Scans,

    /// The sequence.
    Sequence,

    /// The frame.
    Frame,

    /// A metadata OBU, numbered from 0.
    Metadata { index: usize },

    /// The scripts of the tiles.
    Scripts,

    /// An item of a tile's script, both numbered from 0.
    Item { tile: u32, item: usize },

    /// An OBU of the unit, numbered from 0.
    Obu { index: usize },
}

/// Why a unit isn't written.
#[derive(Clone, Copy, Debug, PartialEq, Eq, Error)]
pub enum UnitError {
    /// The place breaks the rule, and nothing before it is wrong. Nothing is sent.
    #[error("refused")]
    Refused { place: Place, rule: Rule },

    /// A trial ends that has not begun, has not ended where the script ends (the place after the last item), or has an
    /// item in another superblock, a row that begins or a filter of loop restoration. Nothing is sent.
    #[error("bad script")]
    BadScript { tile: u32, item: usize },

    /// A step would begin here after more than 2^28 bits, and nothing before it is wrong. Nothing is sent.
    #[error("too long")]
    TooLong { place: Place },

    /// The sink's count of faults rose in this call. A beginning of the bytes was sent.
    #[error("sink fault")]
    SinkFault,

    /// There was not enough memory. Nothing is sent.
    #[error("out of memory")]
    OutOfMemory,
}

impl From<OutOfMemory> for UnitError {
    ghost use Rattle.std.specs.Prelude.{◌≡◌};
    ghost use Rattle.av1_tile.specs.declared.error.UnitError.TheVariants.{OutOfMemory as MemoryError};

    ghost from_gives = { λ _ e. e ≡ MemoryError };

    fn from(_: OutOfMemory) -> Self {
        UnitError::OutOfMemory
    }
}
