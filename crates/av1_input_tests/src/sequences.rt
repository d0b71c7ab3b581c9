// What a sequence says.
use crate::told::Told;
use av1_frame::{MasteringDisplay, Sequence};
use std::test::Fail;

pub fn sequence(told: &mut Told, seq: &Sequence) -> Result<(), Fail> {
    flags(told, seq)?;
    numbers(told, seq)?;
    colours(told, seq)?;
    match &seq.mastering_display {
        Some(display) => mastering(told, display),
        None => Ok(()),
    }
}

fn flags(told: &mut Told, seq: &Sequence) -> Result<(), Fail> {
    let first = [
        seq.still_picture,
        seq.reduced_still_picture_hdr,
        seq.timing_info_present,
        seq.use_128x128_superblock,
        seq.enable_filter_intra,
        seq.enable_intra_edge_filter,
        seq.enable_interintra_compound,
        seq.enable_masked_compound,
        seq.enable_warped_motion,
        seq.enable_dual_filter,
    ];
    let second = [
        seq.enable_order_hint,
        seq.enable_jnt_comp,
        seq.enable_ref_frame_mvs,
        seq.enable_superres,
        seq.enable_cdef,
        seq.enable_restoration,
        seq.frame_id_numbers_present_flag,
        seq.decoder_model_info_present_flag,
        seq.film_grain_params_present,
    ];
    told.line("seq flags", &first)?;
    told.line("seq flags", &second)
}

fn numbers(told: &mut Told, seq: &Sequence) -> Result<(), Fail> {
    let bytes = [
        seq.profile,
        seq.level_idx,
        seq.bit_depth,
        seq.chroma_sample_position,
    ];
    let words = [
        seq.force_screen_content_tools,
        seq.force_integer_mv,
        seq.order_hint_bits_minus_1,
    ];
    told.line("seq bytes", &bytes)?;
    told.line("seq numbers", &words)?;
    told.line("time base", &[seq.time_base.num, seq.time_base.den])
}

fn colours(told: &mut Told, seq: &Sequence) -> Result<(), Fail> {
    let enums = [seq.chroma_sampling.number(), seq.pixel_range.number()];
    told.line("seq enums", &enums)?;
    if let Some(c) = seq.color_description {
        let numbers = [
            c.color_primaries,
            c.transfer_characteristics,
            c.matrix_coefficients,
        ];
        told.line("colours", &numbers)?;
    }
    if let Some(l) = seq.content_light {
        told.line(
            "light",
            &[l.max_content_light_level, l.max_frame_average_light_level],
        )?;
    }
    Ok(())
}

fn mastering(told: &mut Told, display: &MasteringDisplay) -> Result<(), Fail> {
    let [r, g, b] = display.primaries;
    told.line("primaries", &[r.x, r.y, g.x, g.y, b.x, b.y])?;
    told.line("white", &[display.white_point.x, display.white_point.y])?;
    told.line("luminance", &[display.max_luminance, display.min_luminance])
}
