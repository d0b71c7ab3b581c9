// How samples are stored.
ghost use Rattle.std.specs.Prelude.{◌≡◌, ◌<◌, ◌^◌, ◌==◌, ◌&&◌};
ghost use Rattle.av1_geometry.specs.ChromaSampling.{planes_of, xdec_of, ydec_of, pixel_range_number};
ghost use Rattle.av1_header.specs.Color.{color_config, bit_depth, description, subsampling, description_of, is_srgb};
ghost use Rattle.av1_header.specs.Rows.{Wrote};

use crate::rows::{fixed, flag_or, number_or};
use crate::values::Color;
use av1_bits::BitWriter;
use av1_frame::{ColorDescription, Sequence};

fn write_bit_depth(bits: &mut BitWriter, refused: &mut bool, seq: &Sequence, profile: u32) -> bool
    ensures { Wrote (bit_depth profile) seq.now result refused.old refused.new bits.old bits.new }
{
    let high = flag_or(bits, refused, true, false, seq.bit_depth > 8);
    flag_or(
        bits,
        refused,
        (profile == 2) & high,
        false,
        seq.bit_depth == 12,
    )
}

// What is said of the colours, or that nothing is said.
fn description(seq: &Sequence) -> ColorDescription
    ensures { result ≡ description_of seq.now }
{
    seq.color_description.unwrap_or(ColorDescription {
        color_primaries: 2,
        transfer_characteristics: 2,
        matrix_coefficients: 2,
    })
}

fn color_primaries(seq: &Sequence) -> u32
    ensures value { result ≡ (description_of seq.now).color_primaries }
    ensures fits { result < 2 ^ 8 }
{
    u32::from(description(seq).color_primaries)
}

fn transfer_characteristics(seq: &Sequence) -> u32
    ensures value { result ≡ (description_of seq.now).transfer_characteristics }
    ensures fits { result < 2 ^ 8 }
{
    u32::from(description(seq).transfer_characteristics)
}

fn matrix_coefficients(seq: &Sequence) -> u32
    ensures value { result ≡ (description_of seq.now).matrix_coefficients }
    ensures fits { result < 2 ^ 8 }
{
    u32::from(description(seq).matrix_coefficients)
}

// Whether the colours are those of sRGB.
fn is_srgb(described: bool, primaries: u32, transfer: u32, matrix: u32) -> bool
    ensures { result ≡ (described && is_srgb primaries transfer matrix) }
{
    described && primaries == 1 && transfer == 13 && matrix == 0
}

pub(crate) fn profile_of(seq: &Sequence) -> u32
    ensures { result ≡ seq.now.profile }
{
    u32::from(seq.profile)
}

pub(crate) fn is_monochrome(seq: &Sequence) -> bool
    ensures { result ≡ (planes_of seq.now.chroma_sampling == 1) }
{
    seq.chroma_sampling.planes() == 1
}

fn is_full_range(seq: &Sequence) -> bool
    ensures { result ≡ (pixel_range_number seq.now.pixel_range == 1) }
{
    seq.pixel_range.number() == 1
}

pub(crate) fn halves_width(seq: &Sequence) -> bool
    ensures { result ≡ (xdec_of seq.now.chroma_sampling == 1) }
{
    seq.chroma_sampling.xdec() == 1
}

pub(crate) fn halves_height(seq: &Sequence) -> bool
    ensures { result ≡ (ydec_of seq.now.chroma_sampling == 1) }
{
    seq.chroma_sampling.ydec() == 1
}

fn write_description(bits: &mut BitWriter, refused: &mut bool, seq: &Sequence) -> bool
    ensures { Wrote description seq.now result refused.old refused.new bits.old bits.new }
{
    let described = flag_or(bits, refused, true, false, seq.color_description.is_some());
    let primaries = number_or(bits, refused, described, 0, 8, color_primaries(seq));
    let transfer = number_or(
        bits,
        refused,
        described,
        0,
        8,
        transfer_characteristics(seq),
    );
    let matrix = number_or(bits, refused, described, 0, 8, matrix_coefficients(seq));
    is_srgb(described, primaries, transfer, matrix)
}

fn write_subsampling(
    bits: &mut BitWriter,
    refused: &mut bool,
    seq: &Sequence,
    profile: u32,
    twelve: bool,
    srgb: bool,
) -> Color
    requires position { seq.now.chroma_sample_position < 2 ^ 2 }
    ensures { Wrote (subsampling profile twelve srgb) seq.now result refused.old refused.new bits.old bits.new }
{
    let free = !srgb & (profile == 2) & twelve;
    let xdec = flag_or(
        bits,
        refused,
        free,
        !srgb & (profile != 1),
        halves_width(seq),
    );
    let ydec = flag_or(
        bits,
        refused,
        free & xdec,
        !srgb & (profile == 0),
        halves_height(seq),
    );
    number_or(
        bits,
        refused,
        xdec & ydec,
        0,
        2,
        u32::from(seq.chroma_sample_position),
    );
    fixed(bits, refused, true, 1, 1);
    Color {
        monochrome: false,
        xdec,
        ydec,
    }
}

pub(crate) fn write_color(
    bits: &mut BitWriter,
    refused: &mut bool,
    seq: &Sequence,
    profile: u32,
) -> Color
    requires position { seq.now.chroma_sample_position < 2 ^ 2 }
    ensures { Wrote (color_config profile) seq.now result refused.old refused.new bits.old bits.new }
{
    let twelve = write_bit_depth(bits, refused, seq, profile);
    let mono = flag_or(bits, refused, profile != 1, false, is_monochrome(seq));
    let srgb = write_description(bits, refused, seq);
    flag_or(bits, refused, mono | !srgb, false, is_full_range(seq));
    if mono {
        Color {
            monochrome: true,
            xdec: false,
            ydec: false,
        }
    } else {
        write_subsampling(bits, refused, seq, profile, twelve, srgb)
    }
}
