// OBU headers and metadata.
ghost use Rattle.std.specs.Prelude.{◌≡◌, ◌+◌, ◌-◌, ◌^◌, ◌<◌, ◌≤◌};
ghost use Rattle.std.specs.Prelude.{◌==◌, length, slice_index_or, unwrap_or, IsSome, if◌then◌else◌};
ghost use Rattle.av1_frame.specs.Obu.{obu_type_number, obu_meta_type_number};
ghost use Rattle.av1_header.specs.Rows.{Wrote, each};
ghost use Rattle.av1_header.specs.Metadata.{obu_header, content_light, primary, primaries, mastering_display, sequence_metadata};
ghost use Rattle.av1_header.specs.Metadata.{t35_metadata, t35_front, message_bytes, payload_byte, no_light, no_display, point};

use crate::rows::{fixed, leb128, number_or};
use av1_bits::BitWriter;
use av1_frame::{
    ChromaticityPoint, ContentLight, MasteringDisplay, ObuMetaType, ObuType, Sequence, T35,
};

fn number_of_type(kind: ObuType) -> u32
    ensures value { result ≡ obu_type_number kind }
    ensures fits { result < 2 ^ 4 }
{
    u32::from(kind.number())
}

pub(crate) fn write_header(bits: &mut BitWriter, refused: &mut bool, kind: ObuType)
    ensures { Wrote obu_header kind 0 refused.old refused.new bits.old bits.new }
{
    fixed(bits, refused, true, 1, 0);
    number_or(bits, refused, true, 0, 4, number_of_type(kind));
    fixed(bits, refused, true, 1, 0);
    fixed(bits, refused, true, 1, 1);
    fixed(bits, refused, true, 1, 0);
}

fn write_light(bits: &mut BitWriter, refused: &mut bool, light: &ContentLight, there: bool) -> u32
    ensures { Wrote (content_light there) light.now result refused.old refused.new bits.old bits.new }
{
    let most = u32::from(light.max_content_light_level);
    let average = u32::from(light.max_frame_average_light_level);
    number_or(bits, refused, there, 0, 16, most);
    number_or(bits, refused, there, 0, 16, average)
}

fn write_primary(bits: &mut BitWriter, refused: &mut bool, point: &ChromaticityPoint, there: bool)
    ensures { Wrote (primary there) point.now tt refused.old refused.new bits.old bits.new }
{
    number_or(bits, refused, there, 0, 16, u32::from(point.x));
    number_or(bits, refused, there, 0, 16, u32::from(point.y));
}

fn write_primaries(
    bits: &mut BitWriter,
    refused: &mut bool,
    display: &MasteringDisplay,
    there: bool,
)
    ensures { Wrote (primaries there) display.now tt refused.old refused.new bits.old bits.new }
{
    for i in 0..3 {
        write_primary(bits, refused, &display.primaries[i], there);
    }
}

fn write_display(
    bits: &mut BitWriter,
    refused: &mut bool,
    display: &MasteringDisplay,
    there: bool,
) -> u32
    ensures { Wrote (mastering_display there) display.now result refused.old refused.new bits.old bits.new }
{
    write_primaries(bits, refused, display, there);
    number_or(
        bits,
        refused,
        there,
        0,
        16,
        u32::from(display.white_point.x),
    );
    number_or(
        bits,
        refused,
        there,
        0,
        16,
        u32::from(display.white_point.y),
    );
    number_or(bits, refused, there, 0, 32, display.max_luminance);
    number_or(bits, refused, there, 0, 32, display.min_luminance)
}

fn light_of(seq: &Sequence) -> ContentLight
    ensures { result ≡ unwrap_or seq.now.content_light no_light }
{
    seq.content_light.unwrap_or(ContentLight {
        max_content_light_level: 0,
        max_frame_average_light_level: 0,
    })
}

fn display_of(seq: &Sequence) -> MasteringDisplay
    ensures { result ≡ unwrap_or seq.now.mastering_display no_display }
{
    let none = ChromaticityPoint { x: 0, y: 0 };
    seq.mastering_display.unwrap_or(MasteringDisplay {
        primaries: [none; 3],
        white_point: none,
        max_luminance: 0,
        min_luminance: 0,
    })
}

fn size_of_message(kind: ObuMetaType) -> u32
    ensures { result ≡ message_bytes (obu_meta_type_number kind) + 2 }
{
    if kind.number() == 1 { 6 } else { 26 }
}

fn number_of_kind(kind: ObuMetaType) -> u32
    ensures { result ≡ obu_meta_type_number kind }
{
    u32::from(kind.number())
}

pub(crate) fn write_message(
    bits: &mut BitWriter,
    refused: &mut bool,
    kind: ObuMetaType,
    seq: &Sequence,
)
    ensures { Wrote sequence_metadata (record { kind = kind; sequence = seq.now }) 0 refused.old refused.new bits.old bits.new }
{
    write_header(bits, refused, ObuType::OBU_METADATA);
    leb128(bits, refused, size_of_message(kind));
    let number = leb128(bits, refused, number_of_kind(kind));
    write_light(bits, refused, &light_of(seq), number == 1);
    write_display(bits, refused, &display_of(seq), number == 2);
    fixed(bits, refused, true, 1, 1);
}

fn payload(t35: &T35) -> &[u8]
    ensures { result.now ≡ t35.now.payload }
{
    t35.payload.as_slice()
}

fn country(t35: &T35) -> u32
    ensures value { result ≡ t35.now.country_code }
    ensures fits { result < 2 ^ 8 }
{
    u32::from(t35.country_code)
}

fn extension(t35: &T35) -> u32
    ensures value { result ≡ t35.now.country_code_extension_byte }
    ensures fits { result < 2 ^ 8 }
{
    u32::from(t35.country_code_extension_byte)
}

fn size_of_t35(t35: &T35) -> u32
    requires { length t35.now.payload ≤ 65535 }
    ensures { result ≡ length t35.now.payload + t35_front t35.now.country_code }
{
    t35.payload.len() as u32 + if t35.country_code == 255 { 4 } else { 3 }
}

// How many bytes of an OBU of this size are payload.
fn bytes_of_payload(size: u32, country: u32) -> u32
    ensures { result ≡ size - t35_front country }
{
    size.saturating_sub(if country == 255 { 4 } else { 3 })
}

fn write_byte(bits: &mut BitWriter, refused: &mut bool, payload: &[u8], i: usize)
    requires { i < length payload.now }
    ensures { Wrote (payload_byte i) payload.now tt refused.old refused.new bits.old bits.new }
{
    number_or(bits, refused, true, 0, 8, u32::from(payload[i]));
}

fn write_payload(bits: &mut BitWriter, refused: &mut bool, payload: &[u8], count: u32)
    requires { count ≡ length payload.now }
    ensures { Wrote (each count 0 payload_byte) payload.now tt refused.old refused.new bits.old bits.new }
{
    for i in 0..count as usize {
        write_byte(bits, refused, payload, i);
    }
}

fn write_sized_payload(
    bits: &mut BitWriter,
    refused: &mut bool,
    payload: &[u8],
    size: u32,
    country: u32,
)
    requires { size ≡ length payload.now + t35_front country }
    ensures { Wrote (each (size - t35_front country) 0 payload_byte) payload.now tt refused.old refused.new bits.old bits.new }
{
    write_payload(bits, refused, payload, bytes_of_payload(size, country));
}

pub(crate) fn write_t35(bits: &mut BitWriter, refused: &mut bool, t35: &T35)
    requires { length t35.now.payload ≤ 65535 }
    ensures { Wrote t35_metadata t35.now 0 refused.old refused.new bits.old bits.new }
{
    write_header(bits, refused, ObuType::OBU_METADATA);
    let size = leb128(bits, refused, size_of_t35(t35));
    leb128(bits, refused, 4);
    let country = number_or(bits, refused, true, 0, 8, country(t35));
    number_or(bits, refused, country == 255, 0, 8, extension(t35));
    write_sized_payload(bits, refused, payload(t35), size, country);
    fixed(bits, refused, true, 1, 1);
}
