// The unit that a JSON text stands for, and the one that a number makes.
ghost use Rattle.std.specs.Prelude.{◌≡◌, ◌<◌, IfOk, IfErr};
ghost use Rattle.av1_unit.specs.Plain.{plain};
ghost use Rattle.av1_program.specs.Cause.{IsCause};
ghost use Rattle.av1_program.specs.Shape.{Fits, made_unit, plain_with, shape};

use av1_geometry::OutOfMemory;
use av1_input::ShapeError;
use av1_make::make_unit;
use av1_unit::{Unit, Via};
use std::alloc::Global;

/// The unit that a JSON text stands for, as `docs/UNIT_FORMAT.md` describes it, and how it is to be coded.
pub fn read_unit(alloc: Global, text: &[u8]) -> Result<(Unit, Via), ShapeError>
    ensures fits { IfOk result (λ found. shape text.now ≡ Fits (plain_with found)) }
    ensures refused { IfErr result (λ e. IsCause e (shape text.now)) }
{
    av1_input::read_unit(alloc, text)
}

/// The unit that a number makes.
pub fn made_unit(alloc: Global, n: u32) -> Result<Unit, OutOfMemory>
    requires { n < 1000000 }
    ensures { IfOk result (λ unit. plain unit ≡ made_unit n) }
{
    make_unit(alloc, n)
}
