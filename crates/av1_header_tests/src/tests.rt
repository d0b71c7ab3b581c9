// Each row through the public calls, and worked values of single calls.
ghost use Rattle.std.specs.Prelude.{◌≡◌, ◌<◌, ◌≤◌, None};
ghost use Rattle.std.specs.Option.{IsSome};
ghost use Rattle.av1_frame.specs.FrameRules.{frame_rules};
ghost use Rattle.av1_frame.specs.SequenceRules.{sequence_rules};
ghost use Rattle.av1_geometry.specs.Rules.{first_broken};

use crate::headers::{film_grain, frame, references, sequence, state};
use crate::rows::ROWS;
use av1_bits::BitWriter;
use av1_header::{
    ChromaticityPoint, ContentLight, DeblockState, FrameInvariants, FrameState, MasteringDisplay,
    ObuMetaType, ObuType, Refs, Sequence, T35, UncompressedHeader, check_frame, check_sequence,
    law_of_rules,
};
use std::alloc::Global;
use std::test::Fail;

// Whether the bits, which are whole bytes, are these bytes.
fn is_written(alloc: Global, mut bits: BitWriter, text: &str) -> Result<bool, Fail> {
    bits.byte_align()?;
    Ok(hex::encode(alloc, &bits.bytes())?.as_str() == text)
}

// Whether both headers of a frame that keeps its rules are these bytes.
fn has_bytes(
    alloc: Global,
    fi: &FrameInvariants,
    fs: &FrameState,
    refs: &Refs,
    texts: (&str, &str),
) -> Result<bool, Fail>
    requires sequence { first_broken (sequence_rules fi.now.sequence) ≡ None }
    requires frame { first_broken (frame_rules fi.now fs.now refs.now) ≡ None }
    requires some { 1 ≤ fs.now.max_tile_size_bytes }
    requires few { fs.now.max_tile_size_bytes ≤ 4 }
    requires index { fi.now.frame_to_show_map_idx < 8 }
{
    law_of_rules();
    let mut bits = BitWriter::new(alloc);
    bits.write_sequence_header_obu(fi)?;
    bits.write_bit(true)?;
    let same = is_written(alloc, bits, texts.0)?;
    let mut bits = BitWriter::new(alloc);
    bits.write_frame_header_obu(fi, fs, refs)?;
    Ok(is_written(alloc, bits, texts.1)? && same)
}

// Whether a frame keeps its rules and both of its headers are these bytes.
fn has_headers(
    alloc: Global,
    fi: &FrameInvariants,
    fs: &FrameState,
    refs: &Refs,
    texts: (&str, &str),
) -> Result<bool, Fail> {
    if let Some(_) = check_sequence(&fi.sequence) {
        return Ok(false);
    }
    if let Some(_) = check_frame(fi, fs, refs) {
        return Ok(false);
    }
    if fs.max_tile_size_bytes < 1 || fs.max_tile_size_bytes > 4 {
        return Ok(false);
    }
    if fi.frame_to_show_map_idx > 7 {
        return Ok(false);
    }
    has_bytes(alloc, fi, fs, refs, texts)
}

fn row_is_written(alloc: Global, row: &str) -> Result<bool, Fail> {
    let mut parts = row.split('|');
    let mut words = parts.next().unwrap_or("").split_whitespace();
    let texts = (parts.next().unwrap_or(""), parts.next().unwrap_or(""));
    let mut fi = frame(sequence(&mut words), &mut words);
    let fs = state(&mut words);
    let refs = references(&mut words);
    fi.enable_segmentation = fs.segmentation.enabled;
    fi.film_grain = film_grain(&mut words);
    has_headers(alloc, &fi, &fs, &refs, texts)
}

#[test]
fn headers_have_their_bytes(rt: HostRuntime) -> Result<(), Fail> {
    for row in ROWS.lines() {
        assert!(rt; row_is_written(rt.alloc(), row)?, "{row}");
    }
    Ok(())
}

fn lit() -> Sequence
    ensures light { IsSome result.content_light }
    ensures display { IsSome result.mastering_display }
{
    let mut seq = Sequence::default();
    seq.content_light = Some(ContentLight {
        max_content_light_level: 1000,
        max_frame_average_light_level: 400,
    });
    seq.mastering_display = Some(MasteringDisplay {
        primaries: [point(1, 2), point(3, 4), point(5, 6)],
        white_point: point(0x1234, 0xabcd),
        max_luminance: 0x89ab_cdef,
        min_luminance: 7,
    });
    seq
}

fn point(x: u16, y: u16) -> ChromaticityPoint {
    ChromaticityPoint { x, y }
}

#[test]
fn light_and_display_have_their_bytes(rt: HostRuntime) -> Result<(), Fail> {
    let alloc = rt.alloc();
    let mut bits = BitWriter::new(alloc);
    let seq = lit();
    bits.write_sequence_metadata_obu(ObuMetaType::OBU_META_HDR_CLL, &seq)?;
    assert!(rt; is_written(alloc, bits, "2a060103e8019080")?);
    let mut bits = BitWriter::new(alloc);
    bits.write_sequence_metadata_obu(ObuMetaType::OBU_META_HDR_MDCV, &seq)?;
    let display = "2a1a020001000200030004000500061234abcd89abcdef0000000780";
    assert!(rt; is_written(alloc, bits, display)?);
    Ok(())
}

#[test]
fn messages_have_their_bytes(rt: HostRuntime) -> Result<(), Fail> {
    let alloc = rt.alloc();
    for (country, payload, text) in [
        (181, b"\x01\x02".as_slice(), "2a0504b5010280"),
        (255, b"".as_slice(), "2a0404ff0780"),
    ] {
        let t35 = T35 {
            country_code: country,
            country_code_extension_byte: 7,
            payload: payload.to_vec(alloc)?,
        };
        let mut bits = BitWriter::new(alloc);
        if t35.payload.len() <= 65535 {
            bits.write_t35_metadata_obu(&t35)?;
        }
        assert!(rt; is_written(alloc, bits, text)?);
    }
    Ok(())
}

#[test]
fn single_calls_have_their_bits(rt: HostRuntime) -> Result<(), Fail> {
    let alloc = rt.alloc();
    let mut bits = BitWriter::new(alloc);
    bits.write_delta_q(-1)?;
    bits.write_obu_header(ObuType::OBU_FRAME, 0)?;
    assert!(rt; is_written(alloc, bits, "ff32")?);
    Ok(())
}

// Levels of blocks are said where the quantizer has deltas, and with intra block copy without the flag.
#[test]
fn block_deltas_have_their_bits(rt: HostRuntime) -> Result<(), Fail> {
    let alloc = rt.alloc();
    for (present, intrabc, text) in [(true, false, "d0"), (true, true, "a0"), (false, false, "")] {
        let mut fi = FrameInvariants::new(Sequence::default(), 8, 8);
        fi.delta_q_present = present;
        fi.allow_intrabc = intrabc;
        let mut filter = DeblockState::default();
        filter.block_deltas_enabled = true;
        filter.block_delta_shift = 2;
        filter.block_delta_multi = true;
        let mut bits = BitWriter::new(alloc);
        bits.write_deblock_filter_a(&fi, &filter)?;
        assert!(rt; is_written(alloc, bits, text)?);
    }
    Ok(())
}

#[test]
fn an_existing_frame_is_shown_by_its_number(rt: HostRuntime) -> Result<(), Fail> {
    let alloc = rt.alloc();
    let mut fi = FrameInvariants::new(Sequence::default(), 8, 8);
    fi.sequence.reduced_still_picture_hdr = false;
    fi.show_existing_frame = true;
    fi.frame_to_show_map_idx = 5;
    let mut bits = BitWriter::new(alloc);
    bits.write_frame_header_obu(&fi, &FrameState::default(), &[None; 8])?;
    assert!(rt; is_written(alloc, bits, "d8")?);
    Ok(())
}
