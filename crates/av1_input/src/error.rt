// Why a text gives no unit.
use av1_geometry::OutOfMemory;
use std::alloc::{AllocError, AllocFailed, Global};

/// Why a text, or a JSON value, gives nothing.
#[derive(Debug, Drop)]
pub enum ShapeError {
    /// The text is no JSON.
    BadText,

    /// The first place that does not fit, as a JSON pointer from the value that was read.
    BadShape(String),

    /// There was not enough memory.
    OutOfMemory,
}

impl From<OutOfMemory> for ShapeError {
    ghost use Rattle.std.specs.Prelude.{◌≡◌};
    ghost use Rattle.av1_input.specs.declared.error.ShapeError.TheVariants.{OutOfMemory as MemoryError};

    ghost from_gives = { λ _ e. e ≡ MemoryError };

    fn from(_: OutOfMemory) -> Self {
        ShapeError::OutOfMemory
    }
}

impl From<AllocError> for ShapeError {
    ghost use Rattle.std.specs.Prelude.{◌≡◌};
    ghost use Rattle.av1_input.specs.declared.error.ShapeError.TheVariants.{OutOfMemory as MemoryError};

    ghost from_gives = { λ _ e. e ≡ MemoryError };

    fn from(_: AllocError) -> Self {
        ShapeError::OutOfMemory
    }
}

impl<T: Drop> From<AllocFailed<T>> for ShapeError {
    ghost use Rattle.std.specs.Prelude.{◌≡◌};
    ghost use Rattle.av1_input.specs.declared.error.ShapeError.TheVariants.{OutOfMemory as MemoryError};

    ghost from_gives = { λ _ e. e ≡ MemoryError };

    fn from(_: AllocFailed<T>) -> Self {
        ShapeError::OutOfMemory
    }
}
