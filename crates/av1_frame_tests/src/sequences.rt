// A sequence from the words of a row, and what the row says nothing of from its default.
use crate::words::{at, byte, flag, long, side, value, word};
use av1_frame::{ColorDescription, ContentLight, MasteringDisplay, Rational, Sequence};
use av1_geometry::{ChromaSampling, PixelRange};

fn color_description(row: &str) -> Option<ColorDescription> {
    let list = value(row, "colors")?;
    Some(ColorDescription {
        color_primaries: u8::try_from(at(list, 0, 0)).unwrap_or(0),
        transfer_characteristics: u8::try_from(at(list, 1, 0)).unwrap_or(0),
        matrix_coefficients: u8::try_from(at(list, 2, 0)).unwrap_or(0),
    })
}

pub fn sequence(row: &str) -> Sequence {
    let mut seq = Sequence::default();
    seq.profile = byte(row, "profile", 0);
    seq.still_picture = flag(row, "still_picture", true);
    seq.reduced_still_picture_hdr = flag(row, "reduced", true);
    seq.level_idx = byte(row, "level_idx", 0);
    seq.timing_info_present = flag(row, "timing", false);
    seq.time_base = Rational {
        num: long(row, "num", 0),
        den: long(row, "den", 0),
    };
    tools(&mut seq, row);
    forces(&mut seq, row);
    samples(&mut seq, row);
    seq
}

fn tools(seq: &mut Sequence, row: &str) {
    seq.use_128x128_superblock = flag(row, "use_128x128", false);
    seq.enable_interintra_compound = flag(row, "interintra", false);
    seq.enable_masked_compound = flag(row, "masked", false);
    seq.enable_warped_motion = flag(row, "warped", false);
    seq.enable_dual_filter = flag(row, "dual_filter", false);
    seq.enable_order_hint = flag(row, "enable_order_hint", false);
    seq.enable_jnt_comp = flag(row, "jnt_comp", false);
    seq.enable_ref_frame_mvs = flag(row, "ref_frame_mvs", false);
    seq.enable_superres = flag(row, "superres", false);
    seq.enable_cdef = flag(row, "cdef", false);
    seq.enable_restoration = flag(row, "restoration", false);
}

fn forces(seq: &mut Sequence, row: &str) {
    seq.force_screen_content_tools = word(row, "force_tools", 2);
    seq.force_integer_mv = word(row, "force_integer", 2);
    seq.order_hint_bits_minus_1 = word(row, "hint_bits_minus_1", 0);
    seq.frame_id_numbers_present_flag = flag(row, "frame_ids", false);
    seq.decoder_model_info_present_flag = flag(row, "decoder_model", false);
}

fn samples(seq: &mut Sequence, row: &str) {
    seq.film_grain_params_present = flag(row, "film_grain", false);
    seq.bit_depth = byte(row, "depth", 8);
    seq.chroma_sampling = ChromaSampling::from_number(side(row, "sampling", 0)).unwrap_or(
        ChromaSampling::Cs420,
    );
    seq.chroma_sample_position = byte(row, "position", 0);
    seq.pixel_range = if flag(row, "full", false) {
        PixelRange::Full
    } else {
        PixelRange::Limited
    };
    seq.color_description = color_description(row);
    if flag(row, "light", false) {
        seq.content_light = Some(ContentLight::default());
    }
    if flag(row, "display", false) {
        seq.mastering_display = Some(MasteringDisplay::default());
    }
}
