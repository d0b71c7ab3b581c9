// The OBUs of a unit (AV1 specification 5.3).
ghost use Rattle.std.specs.Prelude.{◌≡◌, ◌*◌, ◌-◌, ◌^◌, ◌<◌, ◌≤◌, ◌++◌, [], ◌∷◌, true, All, None, length, take, if◌then◌else◌, IfOk, OnOk};
ghost use Rattle.std.specs.Int.{bytes_low_first};
ghost use Rattle.std.specs.List.{flat_map};
ghost use Rattle.av1_frame.specs.FrameKind.{is_key};
ghost use Rattle.av1_frame.specs.MetadataRules.{metadata_rules};
ghost use Rattle.av1_header.specs.FrameHeader.{header_of};
ghost use Rattle.av1_header.specs.RowReading.{ReadsBack};
ghost use Rattle.av1_geometry.specs.Rules.{first_broken};
ghost use Rattle.av1_model.specs.Bits.{IsByteAligned};
ghost use Rattle.av1_model.specs.WholeBytes.{to_bytes};
ghost use Rattle.av1_step.specs.Given.{given_of};
ghost use Rattle.av1_unit.specs.Checked.{IsChecked};
ghost use Rattle.av1_unit.specs.Findings.{lengths_wrong};
ghost use Rattle.av1_unit.specs.Framing.{bytes_of_obus, delimiter_obus, frame_header, frame_payload, frame_with, framed, lengths_of, message_obu};
ghost use Rattle.av1_unit.specs.Framing.{message_obus, obu_head, obus, sequence_obus, sequence_payload, size_bytes, sized, tile_group, with_payload};
ghost use Rattle.av1_unit.specs.HeaderReading.{HeadersAreRead, IsFrameRead, IsMessageRead, IsSequenceRead};
ghost use Rattle.av1_unit.specs.Lengths.{HasLengths, IsMessage, SizesFit};
ghost use Rattle.av1_unit.specs.Plain.{plain};

use crate::lengths::size_bytes;
use crate::tiles::Tiles;
use av1_bits::{BitWriter, LEWriter, ULEB128Writer};
use av1_geometry::{FrameType, OutOfMemory};
use av1_header::{FrameState, Metadata, ObuMetaType, ObuType, Sequence, UncompressedHeader};
use av1_tile::{TileReport, Unit};
use std::alloc::Global;

/// The bytes of a unit whose tiles are these, of which this is told.
pub(crate) fn frame_unit(
    alloc: Global,
    unit: &Unit,
    tiles: &Tiles,
    told: &[TileReport],
) -> Result<Vec<u8>, OutOfMemory>
    requires checked { IsChecked (plain unit.now) }
    requires some { 1 ≤ length tiles.now }
    requires told { HasLengths tiles.now told.now }
    requires short { lengths_wrong 0 (obus (given_of unit.now) tiles.now) ≡ None }
    ensures framed { IfOk result (λ v. v.items ≡ framed (given_of unit.now) tiles.now) }
    ensures headers { OnOk result (HeadersAreRead (given_of unit.now) tiles.now) }
{
    let mut bytes = Vec::new(alloc);
    push_delimiter(alloc, &mut bytes, unit)?;
    push_sequence(alloc, &mut bytes, unit)?;
    push_messages(alloc, &mut bytes, unit)?;
    let frame = frame_payload(alloc, unit, tiles, size_bytes(told))?;
    push_obu(alloc, &mut bytes, ObuType::OBU_FRAME, &frame)?;
    Ok(bytes)
}

// The temporal delimiter, where one is asked for.
fn push_delimiter(alloc: Global, bytes: &mut Vec<u8>, unit: &Unit) -> Result<(), OutOfMemory>
    ensures { OnOk result (bytes.new.items ≡ bytes.old.items ++ bytes_of_obus (delimiter_obus (given_of unit.now))) }
{
    if unit.delimiter {
        push_obu(alloc, bytes, ObuType::OBU_TEMPORAL_DELIMITER, &[])
    } else {
        Ok(())
    }
}

// The sequence header, on a key frame.
fn push_sequence(alloc: Global, bytes: &mut Vec<u8>, unit: &Unit) -> Result<(), OutOfMemory>
    requires checked { IsChecked (plain unit.now) }
    requires short { is_key unit.now.fi.frame_type ≡ true → length (sequence_payload (given_of unit.now)) < 2 ^ 32 }
    ensures grown { OnOk result (bytes.new.items ≡ bytes.old.items ++ bytes_of_obus (sequence_obus (given_of unit.now))) }
    ensures header { OnOk result (is_key unit.now.fi.frame_type ≡ true → IsSequenceRead (given_of unit.now)) }
{
    if is_key(unit) {
        let payload = sequence_payload(alloc, unit)?;
        push_obu(alloc, bytes, ObuType::OBU_SEQUENCE_HEADER, &payload)
    } else {
        Ok(())
    }
}

/// Whether the frame is a key frame.
pub(crate) fn is_key(unit: &Unit) -> bool
    ensures { result ≡ is_key unit.now.fi.frame_type }
{
    match unit.fi.frame_type {
        FrameType::KEY => true,
        FrameType::INTER | FrameType::INTRA_ONLY | FrameType::SWITCH => false,
    }
}

// The metadata OBUs in order.
fn push_messages(alloc: Global, bytes: &mut Vec<u8>, unit: &Unit) -> Result<(), OutOfMemory>
    requires { IsChecked (plain unit.now) }
    ensures grown { OnOk result (bytes.new.items ≡ bytes.old.items ++ bytes_of_obus (message_obus (given_of unit.now))) }
    ensures headers { OnOk result (All (IsMessageRead unit.now.fi.sequence) unit.now.metadata.items) }
{
    for metadata in &unit.metadata {
        let message = message(alloc, metadata, &unit.fi.sequence)?;
        bytes.extend_from_slice(&message)?;
    }
    Ok(())
}

// A metadata OBU.
fn message(alloc: Global, metadata: &Metadata, seq: &Sequence) -> Result<Vec<u8>, OutOfMemory>
    requires { first_broken (metadata_rules metadata.now seq.now) ≡ None }
    ensures is { IfOk result (λ v. v.items ≡ (message_obu seq.now metadata.now).bytes) }
    ensures header { OnOk result (IsMessageRead seq.now metadata.now) }
{
    let mut bits = BitWriter::new(alloc);
    write_message(&mut bits, metadata, seq)?;
    Ok(whole_bytes(bits))
}

// The same, as bits.
fn write_message(
    bits: &mut BitWriter,
    metadata: &Metadata,
    seq: &Sequence,
) -> Result<(), OutOfMemory>
    requires none { bits.old ≡ [] }
    requires rules { first_broken (metadata_rules metadata.now seq.now) ≡ None }
    ensures is { OnOk result (IsMessage bits.new (message_obu seq.now metadata.now)) }
    ensures header { OnOk result (IsMessageRead seq.now metadata.now) }
{
    match metadata {
        Metadata::Cll => bits.write_sequence_metadata_obu(ObuMetaType::OBU_META_HDR_CLL, seq),
        Metadata::Mdcv => bits.write_sequence_metadata_obu(ObuMetaType::OBU_META_HDR_MDCV, seq),
        Metadata::T35(t35) => bits.write_t35_metadata_obu(t35),
    }
}

// Appends an OBU: its header, the length of its payload and the payload.
fn push_obu(
    alloc: Global,
    bytes: &mut Vec<u8>,
    obu_type: ObuType,
    payload: &[u8],
) -> Result<(), OutOfMemory>
    requires { length payload.now < 2 ^ 32 }
    ensures { OnOk result (bytes.new.items ≡ bytes.old.items ++ (with_payload obu_type payload.now).bytes) }
{
    let head = obu_head(alloc, obu_type, payload.len())?;
    bytes.extend_from_slice(&head)?;
    bytes.extend_from_slice(payload)?;
    Ok(())
}

// What stands before the payload of an OBU.
fn obu_head(alloc: Global, obu_type: ObuType, len: usize) -> Result<Vec<u8>, OutOfMemory>
    requires { len < 2 ^ 32 }
    ensures { IfOk result (λ v. v.items ≡ obu_head obu_type len) }
{
    let mut bits = BitWriter::new(alloc);
    bits.write_obu_header(obu_type, 0)?;
    bits.write_uleb128(len as u64)?;
    Ok(whole_bytes(bits))
}

// The bytes of bits that are whole bytes.
fn whole_bytes(bits: BitWriter) -> Vec<u8>
    requires { IsByteAligned bits }
    ensures { result.items ≡ to_bytes bits }
{
    bits.bytes()
}

/// The payload of the sequence header, with its trailing bits.
pub(crate) fn sequence_payload(alloc: Global, unit: &Unit) -> Result<Vec<u8>, OutOfMemory>
    requires { IsChecked (plain unit.now) }
    ensures is { IfOk result (λ v. v.items ≡ sequence_payload (given_of unit.now)) }
    ensures header { OnOk result (IsSequenceRead (given_of unit.now)) }
{
    let mut bits = BitWriter::new(alloc);
    bits.write_sequence_header_obu(&unit.fi)?;
    bits.write_bit(true)?;
    bits.byte_align()?;
    Ok(whole_bytes(bits))
}

/// The frame header, where the size of a tile has so many bytes.
pub(crate) fn frame_header(alloc: Global, unit: &Unit, width: u32) -> Result<Vec<u8>, OutOfMemory>
    requires checked { IsChecked (plain unit.now) }
    requires width { (1 ≤ width) × (width ≤ 4) }
    ensures is { IfOk result (λ v. v.items ≡ frame_header (given_of unit.now) width) }
    ensures back { OnOk result (ReadsBack (header_of unit.now.fi) (frame_with (given_of unit.now) width)) }
{
    let mut bits = BitWriter::new(alloc);
    let mut fs = unit.fs;
    fs.max_tile_size_bytes = width;
    bits.write_frame_header_obu(&unit.fi, &fs, &unit.refs)?;
    Ok(whole_bytes(bits))
}

// The payload of the frame: its header, and the tiles.
fn frame_payload(
    alloc: Global,
    unit: &Unit,
    tiles: &Tiles,
    width: u32,
) -> Result<Vec<u8>, OutOfMemory>
    requires checked { IsChecked (plain unit.now) }
    requires some { 1 ≤ length tiles.now }
    requires width { width ≡ size_bytes (lengths_of tiles.now) }
    requires short { length (frame_payload (given_of unit.now) tiles.now) < 2 ^ 32 }
    ensures is { IfOk result (λ v. v.items ≡ frame_payload (given_of unit.now) tiles.now) }
    ensures header { OnOk result (IsFrameRead (given_of unit.now) tiles.now) }
{
    let mut bytes = frame_header(alloc, unit, width)?;
    push_tiles(alloc, &mut bytes, width, tiles)?;
    Ok(bytes)
}

// Appends a tile group, whose sizes have so many bytes.
fn push_tiles(
    alloc: Global,
    bytes: &mut Vec<u8>,
    width: u32,
    tiles: &Tiles,
) -> Result<(), OutOfMemory>
    requires some { 1 ≤ length tiles.now }
    requires fits { SizesFit width tiles.now }
    ensures { OnOk result (bytes.new.items ≡ bytes.old.items ++ tile_group width tiles.now) }
{
    let last = tiles.len() - 1;
    push_flag(bytes, last > 0)?;
    push_sized_tiles(alloc, bytes, width, tiles, last)?;
    bytes.extend_from_slice(tiles.tile(last))?;
    Ok(())
}

// Appends, in front of several tiles, the bit that says that all are there, filled up to a byte
// (`tile_start_and_end_present_flag`, AV1 specification 5.11.1).
fn push_flag(bytes: &mut Vec<u8>, several: bool) -> Result<(), OutOfMemory>
    ensures { OnOk result (bytes.new.items ≡ bytes.old.items ++ (if several then 0 ∷ [] else [])) }
{
    if several {
        bytes.push(0)?;
    }
    Ok(())
}

// Appends the first so many tiles, each behind its size.
fn push_sized_tiles(
    alloc: Global,
    bytes: &mut Vec<u8>,
    width: u32,
    tiles: &Tiles,
    count: usize,
) -> Result<(), OutOfMemory>
    requires count { count ≡ length tiles.now - 1 }
    requires fits { SizesFit width tiles.now }
    ensures { OnOk result (bytes.new.items ≡ bytes.old.items ++ flat_map (sized width) (take count tiles.now)) }
{
    for number in 0..count {
        let tile = tiles.tile(number);
        push_size(alloc, bytes, width, tile.len().saturating_sub(1))?;
        bytes.extend_from_slice(tile)?;
    }
    Ok(())
}

// Appends the size of a tile, the lowest byte first.
fn push_size(alloc: Global, bytes: &mut Vec<u8>, width: u32, size: usize) -> Result<(), OutOfMemory>
    requires width { (1 ≤ width) × (width ≤ 4) }
    requires fits { size < 2 ^ (8 * width) }
    ensures { OnOk result (bytes.new.items ≡ bytes.old.items ++ bytes_low_first 0 width size) }
{
    let mut bits = BitWriter::new(alloc);
    bits.write_le(width, size as u64)?;
    bytes.extend_from_slice(&whole_bytes(bits))?;
    Ok(())
}
