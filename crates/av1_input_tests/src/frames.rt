// What a frame says, but for its state.
use crate::told::Told;
use av1_frame::{FilmGrain, FrameInvariants};
use std::test::Fail;

pub fn frame(told: &mut Told, fi: &FrameInvariants) -> Result<(), Fail> {
    enums(told, fi)?;
    flags(told, fi)?;
    numbers(told, fi)?;
    lists(told, fi)?;
    match &fi.film_grain {
        Some(grain) => film_grain(told, grain),
        None => Ok(()),
    }
}

fn enums(told: &mut Told, fi: &FrameInvariants) -> Result<(), Fail> {
    let sides = [
        fi.width,
        fi.height,
        fi.tile_width_sb,
        fi.tile_height_sb,
        fi.render_width,
        fi.render_height,
    ];
    told.line("sides", &sides)?;
    let kinds = [fi.frame_type.number(), fi.reference_mode.number()];
    told.line("frame enums", &kinds)?;
    for mode in fi.globalmv_transformation_type {
        told.values(&[mode.number()])?;
    }
    Ok(())
}

fn flags(told: &mut Told, fi: &FrameInvariants) -> Result<(), Fail> {
    let first = [
        fi.show_frame,
        fi.showable_frame,
        fi.show_existing_frame,
        fi.error_resilient,
        fi.intra_only,
        fi.disable_cdf_update,
        fi.frame_size_override_flag,
        fi.render_and_frame_size_different,
        fi.allow_intrabc,
        fi.allow_high_precision_mv,
    ];
    let second = [
        fi.is_filter_switchable,
        fi.is_motion_mode_switchable,
        fi.use_ref_frame_mvs,
        fi.disable_frame_end_update_cdf,
        fi.delta_q_present,
        fi.tx_mode_select,
        fi.skip_mode_allowed,
        fi.allow_warped_motion,
        fi.use_reduced_tx_set,
        fi.large_scale_tile,
        fi.enable_segmentation,
    ];
    told.line("frame flags", &first)?;
    told.line("frame flags", &second)
}

fn numbers(told: &mut Told, fi: &FrameInvariants) -> Result<(), Fail> {
    let words = [
        fi.frame_to_show_map_idx,
        fi.allow_screen_content_tools,
        fi.force_integer_mv,
        fi.order_hint,
        fi.primary_ref_frame,
        fi.refresh_frame_flags,
        fi.default_filter,
    ];
    told.line("frame numbers", &words)?;
    told.line(
        "frame bytes",
        &[fi.base_q_idx, fi.cdef_damping, fi.cdef_bits],
    )?;
    told.line("ref frames", &fi.ref_frames)?;
    told.line("sign bias", &fi.ref_frame_sign_bias)
}

fn lists(told: &mut Told, fi: &FrameInvariants) -> Result<(), Fail> {
    told.line("dc", &fi.dc_delta_q)?;
    told.line("ac", &fi.ac_delta_q)?;
    told.line("y strengths", &fi.cdef_y_strengths)?;
    told.line("uv strengths", &fi.cdef_uv_strengths)
}

fn film_grain(told: &mut Told, grain: &FilmGrain) -> Result<(), Fail> {
    points(told, "scaling_points_y", &grain.scaling_points_y)?;
    points(told, "scaling_points_cb", &grain.scaling_points_cb)?;
    points(told, "scaling_points_cr", &grain.scaling_points_cr)?;
    coefficients(told, grain)?;
    grain_numbers(told, grain)
}

fn points(told: &mut Told, name: &str, points: &[[u8; 2]]) -> Result<(), Fail> {
    told.line::<u8>(name, &[])?;
    for point in points {
        told.values(point)?;
    }
    Ok(())
}

fn coefficients(told: &mut Told, grain: &FilmGrain) -> Result<(), Fail> {
    told.line("ar_coeffs_y", &grain.ar_coeffs_y)?;
    told.line("ar_coeffs_cb", &grain.ar_coeffs_cb)?;
    told.line("ar_coeffs_cr", &grain.ar_coeffs_cr)
}

fn grain_numbers(told: &mut Told, grain: &FilmGrain) -> Result<(), Fail> {
    let bytes = [
        grain.scaling_shift,
        grain.ar_coeff_lag,
        grain.ar_coeff_shift,
        grain.cb_mult,
        grain.cb_luma_mult,
        grain.cr_mult,
        grain.cr_luma_mult,
        grain.grain_scale_shift,
    ];
    told.line("grain bytes", &bytes)?;
    told.line(
        "grain numbers",
        &[grain.cb_offset, grain.cr_offset, grain.random_seed],
    )?;
    told.line(
        "grain flags",
        &[grain.overlap_flag, grain.chroma_scaling_from_luma],
    )
}
