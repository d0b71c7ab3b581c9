// A sequence from a JSON value.
ghost use Rattle.std.specs.Prelude.{◌≡◌};
ghost use Rattle.av1_input.specs.Sequence.{rational, colours, colours_of, light, light_of, point};
ghost use Rattle.av1_input.specs.Sequence.{point_of, mastering, sequence, header_rows, tool_rows, force_rows, colour_rows};
ghost use Rattle.av1_input.specs.Taking.{Pours};

use crate::error::ShapeError;
use crate::from_json::FromJson;
use crate::members::Members;
use av1_frame::{
    ChromaticityPoint, ColorDescription, ContentLight, MasteringDisplay, Rational, Sequence,
};
use serde_json::Value;
use std::alloc::Global;

impl FromJson for Rational {
    ghost kind = { rational };

    fn none(_alloc: Global) -> Self {
        Rational { num: 0, den: 0 }
    }

    fn from_json(alloc: Global, value: Value) -> Result<Self, ShapeError> {
        let mut members = Members::of(alloc, value);
        let rational = Rational {
            num: members.optional("num"),
            den: members.optional("den"),
        };
        members.finish(rational)
    }
}

impl FromJson for ColorDescription {
    ghost kind = { colours };

    fn none(_alloc: Global) -> Self {
        described([0; 3])
    }

    #[tactic(auto, unfolding(crate::specs::Kinds::fit_as))]
    fn from_json(alloc: Global, value: Value) -> Result<Self, ShapeError> {
        match FromJson::from_json(alloc, value) {
            Ok(numbers) => Ok(described(numbers)),
            Err(error) => Err(error),
        }
    }
}

fn described(numbers: [u8; 3]) -> ColorDescription
    ensures { result ≡ colours_of numbers }
{
    ColorDescription {
        color_primaries: numbers[0],
        transfer_characteristics: numbers[1],
        matrix_coefficients: numbers[2],
    }
}

impl FromJson for ContentLight {
    ghost kind = { light };

    fn none(_alloc: Global) -> Self {
        light([0; 2])
    }

    #[tactic(auto, unfolding(crate::specs::Kinds::fit_as))]
    fn from_json(alloc: Global, value: Value) -> Result<Self, ShapeError> {
        match FromJson::from_json(alloc, value) {
            Ok(numbers) => Ok(light(numbers)),
            Err(error) => Err(error),
        }
    }
}

fn light(numbers: [u16; 2]) -> ContentLight
    ensures { result ≡ light_of numbers }
{
    ContentLight {
        max_content_light_level: numbers[0],
        max_frame_average_light_level: numbers[1],
    }
}

impl FromJson for ChromaticityPoint {
    ghost kind = { point };

    fn none(_alloc: Global) -> Self {
        point([0; 2])
    }

    #[tactic(auto, unfolding(crate::specs::Kinds::fit_as))]
    fn from_json(alloc: Global, value: Value) -> Result<Self, ShapeError> {
        match FromJson::from_json(alloc, value) {
            Ok(numbers) => Ok(point(numbers)),
            Err(error) => Err(error),
        }
    }
}

fn point(numbers: [u16; 2]) -> ChromaticityPoint
    ensures { result ≡ point_of numbers }
{
    ChromaticityPoint {
        x: numbers[0],
        y: numbers[1],
    }
}

impl FromJson for MasteringDisplay {
    ghost kind = { mastering };

    fn none(_alloc: Global) -> Self {
        MasteringDisplay {
            primaries: [point([0; 2]); 3],
            white_point: point([0; 2]),
            max_luminance: 0,
            min_luminance: 0,
        }
    }

    fn from_json(alloc: Global, value: Value) -> Result<Self, ShapeError> {
        let mut members = Members::of(alloc, value);
        let display = MasteringDisplay {
            primaries: members.optional("primaries"),
            white_point: members.optional("white_point"),
            max_luminance: members.optional("max_luminance"),
            min_luminance: members.optional("min_luminance"),
        };
        members.finish(display)
    }
}

impl FromJson for Sequence {
    ghost kind = { sequence };

    fn none(_alloc: Global) -> Self {
        Sequence::default()
    }

    fn from_json(alloc: Global, value: Value) -> Result<Self, ShapeError> {
        let mut members = Members::of(alloc, value);
        let seq = with_header(&mut members, Sequence::default());
        let seq = with_tool(&mut members, seq);
        let seq = with_force(&mut members, seq);
        let seq = with_colour(&mut members, seq);
        members.finish(seq)
    }
}

// What the whole sequence is.
fn with_header(members: &mut Members, seq: Sequence) -> Sequence
    ensures { Pours header_rows members.old members.new seq result }
{
    Sequence {
        profile: members.optional("profile"),
        still_picture: members.or("still_picture", true),
        reduced_still_picture_hdr: members.or("reduced_still_picture_hdr", true),
        level_idx: members.optional("level_idx"),
        timing_info_present: members.optional("timing_info_present"),
        time_base: members.optional("time_base"),
        ..seq
    }
}

// Tools that blocks may use.
fn with_tool(members: &mut Members, seq: Sequence) -> Sequence
    ensures { Pours tool_rows members.old members.new seq result }
{
    Sequence {
        use_128x128_superblock: members.optional("use_128x128_superblock"),
        enable_filter_intra: members.optional("enable_filter_intra"),
        enable_intra_edge_filter: members.optional("enable_intra_edge_filter"),
        enable_interintra_compound: members.optional("enable_interintra_compound"),
        enable_masked_compound: members.optional("enable_masked_compound"),
        enable_warped_motion: members.optional("enable_warped_motion"),
        enable_dual_filter: members.optional("enable_dual_filter"),
        enable_order_hint: members.optional("enable_order_hint"),
        enable_jnt_comp: members.optional("enable_jnt_comp"),
        enable_ref_frame_mvs: members.optional("enable_ref_frame_mvs"),
        ..seq
    }
}

// What frames are left to say, and the filters.
fn with_force(members: &mut Members, seq: Sequence) -> Sequence
    ensures { Pours force_rows members.old members.new seq result }
{
    Sequence {
        force_screen_content_tools: members.or("force_screen_content_tools", 2),
        force_integer_mv: members.or("force_integer_mv", 2),
        order_hint_bits_minus_1: members.optional("order_hint_bits_minus_1"),
        enable_superres: members.optional("enable_superres"),
        enable_cdef: members.optional("enable_cdef"),
        enable_restoration: members.optional("enable_restoration"),
        frame_id_numbers_present_flag: members.optional("frame_id_numbers_present_flag"),
        decoder_model_info_present_flag: members.optional("decoder_model_info_present_flag"),
        film_grain_params_present: members.optional("film_grain_params_present"),
        ..seq
    }
}

// Samples and what they stand for.
fn with_colour(members: &mut Members, seq: Sequence) -> Sequence
    ensures { Pours colour_rows members.old members.new seq result }
{
    Sequence {
        bit_depth: members.or("bit_depth", 8),
        chroma_sampling: members.optional("chroma_sampling"),
        chroma_sample_position: members.optional("chroma_sample_position"),
        pixel_range: members.optional("pixel_range"),
        color_description: members.optional("color_description"),
        content_light: members.optional("content_light"),
        mastering_display: members.optional("mastering_display"),
        ..seq
    }
}
