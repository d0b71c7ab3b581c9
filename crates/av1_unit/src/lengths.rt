// How long tiles and the payloads of OBUs are.
ghost use Rattle.std.specs.Prelude.{◌≡◌, ◌^◌, ◌<◌, ◌≤◌, List, ℕ, length, map, sum, IfOk};
ghost use Rattle.av1_step.specs.Given.{given_of};
ghost use Rattle.av1_unit.specs.Checked.{IsChecked};
ghost use Rattle.av1_unit.specs.Findings.{Finds, FindsInRoom, length_wrong, lengths_wrong};
ghost use Rattle.av1_unit.specs.Framing.{bytes_for, frame_payload, greatest, obus, sequence_obus, size_bytes, size_of, tile_group};
ghost use Rattle.av1_unit.specs.Lengths.{bytes_told, count_of, obus_before_frame, HasLengths};
ghost use Rattle.av1_unit.specs.Plain.{plain};

use crate::framing::{frame_header, is_key, sequence_payload};
use av1_geometry::OutOfMemory;
use av1_tile::{Place, TileReport, Unit, UnitError};
use std::alloc::Global;

/// Fails where the payload of an OBU has 2^32 bytes or more, with the first such OBU. Of the tiles it knows what is told of them.
pub(crate) fn check_lengths(
    alloc: Global,
    unit: &Unit,
    tiles: &[TileReport],
) -> Result<(), UnitError>
    requires checked { IsChecked (plain unit.now) }
    requires few { length tiles.now ≤ 2 ^ 20 }
    ensures { (ts : List (List ℕ)) → HasLengths ts tiles.now → FindsInRoom result (lengths_wrong 0 (obus (given_of unit.now) ts)) }
{
    check_sequence_length(alloc, unit)?;
    let len = frame_len(alloc, unit, tiles)?;
    check_length(obus_before_frame(unit), len)
}

// The sequence header, where there is one.
fn check_sequence_length(alloc: Global, unit: &Unit) -> Result<(), UnitError>
    requires { IsChecked (plain unit.now) }
    ensures { FindsInRoom result (lengths_wrong (count_of unit.now.delimiter) (sequence_obus (given_of unit.now))) }
{
    if is_key(unit) {
        let payload = sequence_payload(alloc, unit)?;
        check_length(usize::from(unit.delimiter), payload.len())
    } else {
        Ok(())
    }
}

// The payload of an OBU.
fn check_length(index: usize, len: usize) -> Result<(), UnitError>
    ensures { Finds result (length_wrong index len) }
{
    if len < 1 << 32 {
        Ok(())
    } else {
        let place = Place::Obu { index };
        Err(UnitError::TooLong { place })
    }
}

// How many OBUs come before the frame.
fn obus_before_frame(unit: &Unit) -> usize
    ensures { result ≡ obus_before_frame (given_of unit.now) }
{
    usize::from(unit.delimiter) + usize::from(is_key(unit)) + unit.metadata.len()
}

// How many bytes the payload of the frame has.
fn frame_len(alloc: Global, unit: &Unit, tiles: &[TileReport]) -> Result<usize, OutOfMemory>
    requires checked { IsChecked (plain unit.now) }
    requires few { length tiles.now ≤ 2 ^ 20 }
    ensures { IfOk result (λ len. (ts : List (List ℕ)) → HasLengths ts tiles.now → len ≡ length (frame_payload (given_of unit.now) ts)) }
{
    let bytes = size_bytes(tiles);
    let header = frame_header(alloc, unit, bytes)?;
    Ok(header.len() + group_len(bytes, tiles))
}

// How many bytes a tile group has, whose sizes have so many bytes.
fn group_len(bytes: u32, tiles: &[TileReport]) -> usize
    requires bytes { bytes ≤ 4 }
    requires few { length tiles.now ≤ 2 ^ 20 }
    ensures value { (ts : List (List ℕ)) → HasLengths ts tiles.now → result ≡ length (tile_group bytes ts) }
    ensures few { result < 2 ^ 60 }
{
    let sizes = tiles.len().saturating_sub(1) * bytes as usize;
    usize::from(tiles.len() > 1) + sizes + bytes_of(tiles)
}

// How many bytes tiles have together.
fn bytes_of(tiles: &[TileReport]) -> usize
    requires { length tiles.now ≤ 2 ^ 20 }
    ensures value { result ≡ sum (map bytes_told tiles.now) }
    ensures few { result ≤ 2 ^ 52 }
{
    let mut len = 0;
    for tile in tiles {
        len += tile.bytes as usize;
    }
    len
}

/// How many bytes the size of each of these tiles has.
pub(crate) fn size_bytes(tiles: &[TileReport]) -> u32
    ensures value { result ≡ size_bytes (map bytes_told tiles.now) }
    ensures some { 1 ≤ result }
    ensures few { result ≤ 4 }
{
    let said = tiles.len().saturating_sub(1);
    bytes_for(greatest_size(&tiles[..said]))
}

// The greatest size that is said of these tiles.
fn greatest_size(tiles: &[TileReport]) -> u32
    ensures { result ≡ greatest (map size_of (map bytes_told tiles.now)) }
{
    let mut size = 0;
    for tile in tiles {
        size = size.max(tile.bytes.saturating_sub(1));
    }
    size
}

// The least of 1 to 4 bytes that hold a number.
fn bytes_for(n: u32) -> u32
    ensures value { result ≡ bytes_for n }
    ensures some { 1 ≤ result }
    ensures few { result ≤ 4 }
{
    if n < 1 << 8 {
        1
    } else if n < 1 << 16 {
        2
    } else if n < 1 << 24 {
        3
    } else {
        4
    }
}
