// A unit to its bytes, and to a sink.
ghost use Rattle.std.specs.Prelude.{◌≡◌, ◌⊎◌, ◌<◌, length, None, Some, IfOk, IfErr, OnOk, IsErrOf};
ghost use Rattle.av1_bits.specs.Outside.{Rose};
ghost use Rattle.av1_tile.specs.declared.error.UnitError.TheVariants.{OutOfMemory as MemoryError, SinkFault};
ghost use Rattle.av1_step.specs.Given.{given_of};
ghost use Rattle.av1_tile.specs.TileBytes.{script_of, tile_report};
ghost use Rattle.av1_unit.specs.Coded.{numbered, report_of, tiles_of, told_of};
ghost use Rattle.av1_unit.specs.Findings.{first_refusal};
ghost use Rattle.av1_unit.specs.HeaderReading.{HeadersAreRead};
ghost use Rattle.av1_unit.specs.Headline.{IsSent, IsSentInPart, IsWritten};
ghost use Rattle.av1_unit.specs.Tiles.{bytes_of};
ghost use Rattle.av1_unit.specs.Plain.{plain};

use crate::Report;
use crate::check::check_unit;
use crate::framing::frame_unit;
use crate::lengths::check_lengths;
use crate::tiles::{code_tiles, count_tiles};
use av1_bits::{Failed, Sink, send_all};
use av1_tile::{TileReport, Unit, UnitError, Via};
use std::alloc::Global;

/// The bytes of a unit and its report, after all checks.
///
/// `Refused`, `BadScript` and `TooLong` come exactly where the first thing that is wrong with the unit is that rule at that
/// place, that item of a script, a step that would begin after too many bits, or an OBU with a payload of 2^32 bytes or more, unless
/// memory runs out before. It never answers `SinkFault`. Bytes and report are those of the unit, whichever way they are made.
pub fn unit_bytes(alloc: Global, unit: &Unit, via: Via) -> Result<(Vec<u8>, Report), UnitError>
    ensures written { IfOk result (λ r. IsWritten (plain unit.now) r.0.items r.1) }
    ensures tiles { IfOk result (λ r. r.1.tiles ≡ told_of (given_of unit.now) (numbered (plain unit.now))) }
    ensures bytes { IfOk result (λ r. r.0.items ≡ bytes_of (plain unit.now)) }
    ensures report { IfOk result (λ r. r.1 ≡ report_of (plain unit.now)) }
    ensures headers { OnOk result (HeadersAreRead (given_of unit.now) (tiles_of (given_of unit.now) (numbered (plain unit.now)))) }
    ensures refused { IfErr result (λ e. (e ≡ MemoryError) ⊎ (first_refusal (plain unit.now) ≡ Some e)) }
    ensures no_fault { ¬ IsErrOf result UnitError.SinkFault }
{
    check_unit(unit)?;
    let coded = code_tiles(alloc, unit, via)?;
    check_lengths(alloc, unit, coded.told())?;
    let bytes = frame_unit(alloc, unit, coded.tiles(), coded.told())?;
    Ok((bytes, coded.into_report()))
}

/// Makes a unit's bytes as `unit_bytes` does, and then sends them.
///
/// Nothing is sent before all checks have passed and all memory was taken. After `SinkFault`, which comes only where the
/// sink's count of faults rose in this call, a front of the bytes was sent.
pub fn write_unit<S: Sink>(
    alloc: Global,
    out: &mut S,
    unit: &Unit,
    via: Via,
) -> Result<Report, UnitError>
    ensures sent { IfOk result (λ report. IsSent S.Sink out.old out.new (plain unit.now) report) }
    ensures tiles { IfOk result (λ report. report.tiles ≡ told_of (given_of unit.now) (numbered (plain unit.now))) }
    ensures headers { OnOk result (HeadersAreRead (given_of unit.now) (tiles_of (given_of unit.now) (numbered (plain unit.now)))) }
    ensures refused { IfErr result (λ e. (e ≡ MemoryError) ⊎ (e ≡ SinkFault) ⊎ (first_refusal (plain unit.now) ≡ Some e)) }
    ensures unsent { IfErr result (λ e. (e ≡ SinkFault)
        ⊎ ((S.sent out.new ≡ S.sent out.old) × (S.faults out.new ≡ S.faults out.old))) }
    ensures fault { IsErrOf result UnitError.SinkFault → Rose (S.faults out.old) (S.faults out.new) }
    ensures front { IsErrOf result UnitError.SinkFault → IsSentInPart S.Sink out.old out.new (plain unit.now) }
{
    let (bytes, report) = unit_bytes(alloc, unit, via)?;
    match send_all(out, &bytes) {
        Ok(()) => Ok(report),
        Err(Failed) => Err(UnitError::SinkFault),
    }
}

/// What `write_unit` reports of a tile, which is numbered from 0, told by a counter.
///
/// It checks the unit as `write_unit` does and has its errors, but never answers `SinkFault`. It makes no bytes of tiles.
pub fn count_tile(alloc: Global, unit: &Unit, tile: usize) -> Result<TileReport, UnitError>
    requires tile { tile < length unit.now.scripts.items }
    ensures counted { IfOk result (λ r. r ≡ tile_report (given_of unit.now) tile (script_of unit.now tile)) }
    ensures valid { OnOk result (first_refusal (plain unit.now) ≡ None) }
    ensures refused { IfErr result (λ e. (e ≡ MemoryError) ⊎ (first_refusal (plain unit.now) ≡ Some e)) }
    ensures no_fault { ¬ IsErrOf result UnitError.SinkFault }
{
    check_unit(unit)?;
    let tiles = count_tiles(alloc, unit)?;
    check_lengths(alloc, unit, &tiles)?;
    Ok(tiles[tile])
}
