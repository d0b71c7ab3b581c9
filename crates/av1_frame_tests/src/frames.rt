// A frame from the words of a row, and what the row says nothing of from its default.
use crate::sequences::sequence;
use crate::words::{at, byte, bytes, flag, short, side, signed_bytes, value, word};
use arrayvec::ArrayVec;
use av1_frame::{FilmGrain, FrameInvariants};
use av1_geometry::{FrameType, GlobalMVMode, ReferenceMode};

pub fn frame(row: &str) -> FrameInvariants {
    let (width, height) = (side(row, "width", 64), side(row, "height", 64));
    let mut fi = FrameInvariants::new(sequence(row), width, height);
    fi.tile_width_sb = side(row, "tile_width", fi.tile_width_sb);
    fi.tile_height_sb = side(row, "tile_height", fi.tile_height_sb);
    fi.film_grain = film_grain(row);
    kind(&mut fi, row);
    references(&mut fi, row);
    coding(&mut fi, row);
    motion(&mut fi, row);
    fi
}

fn kind(fi: &mut FrameInvariants, row: &str) {
    fi.frame_type = FrameType::from_number(side(row, "type", 0)).unwrap_or(FrameType::KEY);
    fi.show_frame = flag(row, "show", true);
    fi.showable_frame = flag(row, "showable", false);
    fi.show_existing_frame = flag(row, "show_existing", false);
    fi.error_resilient = flag(row, "error_resilient", false);
    fi.intra_only = flag(row, "intra_only", true);
    fi.disable_cdf_update = flag(row, "disable_cdf_update", false);
    fi.allow_screen_content_tools = word(row, "tools", 0);
    fi.force_integer_mv = word(row, "integer", 1);
    fi.allow_intrabc = flag(row, "intrabc", false);
    fi.large_scale_tile = flag(row, "large_scale", false);
}

fn references(fi: &mut FrameInvariants, row: &str) {
    fi.frame_size_override_flag = flag(row, "override", false);
    fi.order_hint = word(row, "order_hint", 0);
    fi.primary_ref_frame = word(row, "primary", 7);
    fi.refresh_frame_flags = word(row, "refresh", 255);
    fi.render_and_frame_size_different = flag(row, "differ", false);
    fi.render_width = side(row, "render_width", fi.width);
    fi.render_height = side(row, "render_height", fi.height);
    fi.ref_frames = bytes(row, "ref_frames");
    fi.default_filter = word(row, "default_filter", 0);
    fi.disable_frame_end_update_cdf = flag(row, "frame_end", true);
}

fn coding(fi: &mut FrameInvariants, row: &str) {
    fi.base_q_idx = byte(row, "base_q_idx", 100);
    fi.dc_delta_q = signed_bytes(row, "dc_delta_q");
    fi.ac_delta_q = signed_bytes(row, "ac_delta_q");
    fi.delta_q_present = flag(row, "delta_q", false);
    fi.cdef_damping = byte(row, "damping", 3);
    fi.cdef_bits = byte(row, "cdef_bits", 0);
    fi.cdef_y_strengths = bytes(row, "y_strengths");
    fi.cdef_uv_strengths = bytes(row, "uv_strengths");
    fi.enable_segmentation = flag(row, "segmentation", false);
}

fn motion(fi: &mut FrameInvariants, row: &str) {
    fi.reference_mode = ReferenceMode::from_number(side(row, "mode", 0)).unwrap_or(
        ReferenceMode::SINGLE,
    );
    let modes = value(row, "motion").unwrap_or("");
    for i in 0..7 {
        let number = usize::try_from(at(modes, i, 0)).unwrap_or(0);
        fi.globalmv_transformation_type[i] = GlobalMVMode::from_number(number).unwrap_or(
            GlobalMVMode::IDENTITY,
        );
    }
}

fn points<const N: usize>(count: i128) -> ArrayVec<[u8; 2], N> {
    let mut points = ArrayVec::new();
    for _ in 0..usize::try_from(count).unwrap_or(0) {
        let _ = points.try_push([0, 0]);
    }
    points
}

fn coefficients<const N: usize>(count: i128) -> ArrayVec<i8, N> {
    let mut coefficients = ArrayVec::new();
    for _ in 0..usize::try_from(count).unwrap_or(0) {
        let _ = coefficients.try_push(0);
    }
    coefficients
}

// Film grain by its numbers of points and of coefficients, of Y, Cb and Cr, and by its other numbers.
fn film_grain(row: &str) -> Option<FilmGrain> {
    let counts = value(row, "points")?;
    let lengths = value(row, "coefficients").unwrap_or("");
    let mut grain = FilmGrain::default();
    grain.scaling_points_y = points(at(counts, 0, 0));
    grain.scaling_points_cb = points(at(counts, 1, 0));
    grain.scaling_points_cr = points(at(counts, 2, 0));
    grain.ar_coeffs_y = coefficients(at(lengths, 0, 0));
    grain.ar_coeffs_cb = coefficients(at(lengths, 1, 0));
    grain.ar_coeffs_cr = coefficients(at(lengths, 2, 0));
    grain_numbers(&mut grain, row);
    Some(grain)
}

fn grain_numbers(grain: &mut FilmGrain, row: &str) {
    grain.scaling_shift = byte(row, "scaling_shift", 8);
    grain.ar_coeff_lag = byte(row, "lag", 0);
    grain.ar_coeff_shift = byte(row, "ar_shift", 6);
    grain.grain_scale_shift = byte(row, "grain_shift", 0);
    grain.cb_offset = short(row, "cb_offset", 0);
    grain.cr_offset = short(row, "cr_offset", 0);
    grain.chroma_scaling_from_luma = flag(row, "from_luma", false);
}
