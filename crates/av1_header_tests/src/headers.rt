// Sequences and frames as rows of numbers.
use crate::numbers::{byte, bytes, flag, number, short, side, signed_byte, signed_bytes, word};
use arrayvec::ArrayVec;
use av1_geometry::{ChromaSampling, FrameType, GlobalMVMode, PixelRange, ReferenceMode};
use av1_header::{
    ColorDescription, DeblockState, FilmGrain, FrameInvariants, FrameState, Rational, RefState,
    Refs, RestorationPlaneConfig, RestorationState, SegmentationState, Sequence,
};
use std::str::SplitWhitespace;

fn description(words: &mut SplitWhitespace<'_>) -> Option<ColorDescription> {
    let there = flag(words);
    let description = ColorDescription {
        color_primaries: byte(words),
        transfer_characteristics: byte(words),
        matrix_coefficients: byte(words),
    };
    if there { Some(description) } else { None }
}

fn time_base(words: &mut SplitWhitespace<'_>) -> Rational {
    Rational {
        num: u64::from(word(words)),
        den: u64::from(word(words)),
    }
}

pub fn sequence(words: &mut SplitWhitespace<'_>) -> Sequence {
    let mut seq = Sequence::default();
    seq.profile = byte(words);
    seq.still_picture = flag(words);
    seq.reduced_still_picture_hdr = flag(words);
    seq.level_idx = byte(words);
    seq.timing_info_present = flag(words);
    seq.time_base = time_base(words);
    tools(&mut seq, words);
    samples(&mut seq, words);
    seq
}

fn tools(seq: &mut Sequence, words: &mut SplitWhitespace<'_>) {
    seq.use_128x128_superblock = flag(words);
    seq.enable_filter_intra = flag(words);
    seq.enable_intra_edge_filter = flag(words);
    seq.enable_interintra_compound = flag(words);
    seq.enable_masked_compound = flag(words);
    seq.enable_warped_motion = flag(words);
    seq.enable_dual_filter = flag(words);
    seq.enable_order_hint = flag(words);
    seq.enable_jnt_comp = flag(words);
    seq.enable_ref_frame_mvs = flag(words);
}

fn samples(seq: &mut Sequence, words: &mut SplitWhitespace<'_>) {
    seq.force_screen_content_tools = word(words);
    seq.force_integer_mv = word(words);
    seq.order_hint_bits_minus_1 = word(words);
    seq.enable_superres = flag(words);
    seq.enable_cdef = flag(words);
    seq.enable_restoration = flag(words);
    seq.film_grain_params_present = flag(words);
    seq.bit_depth = byte(words);
    seq.chroma_sampling = ChromaSampling::from_number(side(words)).unwrap_or(ChromaSampling::Cs400);
    seq.chroma_sample_position = byte(words);
    seq.pixel_range = PixelRange::from_number(side(words)).unwrap_or(PixelRange::Limited);
    seq.color_description = description(words);
}

pub fn frame(sequence: Sequence, words: &mut SplitWhitespace<'_>) -> FrameInvariants {
    let (width, height) = (side(words), side(words));
    let mut fi = FrameInvariants::new(sequence, width, height);
    kind(&mut fi, words);
    modes(&mut fi, words);
    lists(&mut fi, words);
    fi
}

fn kind(fi: &mut FrameInvariants, words: &mut SplitWhitespace<'_>) {
    fi.tile_width_sb = side(words);
    fi.tile_height_sb = side(words);
    fi.frame_type = FrameType::from_number(side(words)).unwrap_or(FrameType::KEY);
    fi.intra_only = matches!(fi.frame_type, FrameType::KEY | FrameType::INTRA_ONLY);
    fi.show_frame = flag(words);
    fi.showable_frame = flag(words);
    fi.show_existing_frame = flag(words);
    fi.frame_to_show_map_idx = word(words);
    fi.error_resilient = flag(words);
    fi.disable_cdf_update = flag(words);
    fi.allow_screen_content_tools = word(words);
    fi.force_integer_mv = word(words);
    fi.frame_size_override_flag = flag(words);
}

fn modes(fi: &mut FrameInvariants, words: &mut SplitWhitespace<'_>) {
    fi.order_hint = word(words);
    fi.primary_ref_frame = word(words);
    fi.refresh_frame_flags = word(words);
    fi.render_and_frame_size_different = flag(words);
    fi.render_width = side(words);
    fi.render_height = side(words);
    fi.allow_high_precision_mv = flag(words);
    fi.is_filter_switchable = flag(words);
    fi.default_filter = word(words);
    fi.is_motion_mode_switchable = flag(words);
    fi.use_ref_frame_mvs = flag(words);
    fi.disable_frame_end_update_cdf = flag(words);
}

fn motion(words: &mut SplitWhitespace<'_>) -> [GlobalMVMode; 7] {
    let mut all = [GlobalMVMode::IDENTITY; 7];
    for each in all.iter_mut() {
        *each = GlobalMVMode::from_number(side(words)).unwrap_or(GlobalMVMode::IDENTITY);
    }
    all
}

fn lists(fi: &mut FrameInvariants, words: &mut SplitWhitespace<'_>) {
    fi.base_q_idx = byte(words);
    fi.cdef_damping = byte(words);
    fi.cdef_bits = byte(words);
    fi.tx_mode_select = flag(words);
    fi.reference_mode = ReferenceMode::from_number(side(words)).unwrap_or(ReferenceMode::SINGLE);
    fi.skip_mode_allowed = flag(words);
    fi.allow_warped_motion = flag(words);
    fi.use_reduced_tx_set = flag(words);
    fi.ref_frames = bytes(words);
    fi.dc_delta_q = signed_bytes(words);
    fi.ac_delta_q = signed_bytes(words);
    fi.cdef_y_strengths = bytes(words);
    fi.cdef_uv_strengths = bytes(words);
    fi.globalmv_transformation_type = motion(words);
}

pub fn state(words: &mut SplitWhitespace<'_>) -> FrameState {
    let mut fs = FrameState::default();
    fs.context_update_tile_id = side(words);
    fs.max_tile_size_bytes = word(words);
    fs.segmentation.enabled = flag(words);
    fs.segmentation.update_map = flag(words);
    fs.segmentation.update_data = flag(words);
    fs.deblock = deblock(words);
    fs.restoration = restoration(words);
    features(&mut fs.segmentation, words);
    fs
}

fn deblock(words: &mut SplitWhitespace<'_>) -> DeblockState {
    let mut filter = DeblockState::default();
    filter.sharpness = byte(words);
    filter.deltas_enabled = flag(words);
    filter.delta_updates_enabled = flag(words);
    filter.levels = bytes(words);
    filter.ref_deltas = signed_bytes(words);
    filter.mode_deltas = signed_bytes(words);
    filter
}

fn restoration(words: &mut SplitWhitespace<'_>) -> RestorationState {
    let types = bytes::<3>(words);
    let [luma, cb, cr] = types;
    RestorationState {
        planes: [plane(luma, words), plane(cb, words), plane(cr, words)],
    }
}

fn plane(lrf_type: u8, words: &mut SplitWhitespace<'_>) -> RestorationPlaneConfig {
    RestorationPlaneConfig {
        lrf_type,
        unit_size: side(words),
    }
}

// The features that segments have, and the last segment that has one.
fn features(segmentation: &mut SegmentationState, words: &mut SplitWhitespace<'_>) {
    for _ in 0..byte(words) {
        let (i, j) = (side(words).min(7), side(words).min(7));
        segmentation.features[i][j] = true;
        segmentation.values[i][j] = i16::try_from(number(words)).unwrap_or(0);
        segmentation.last_active_segid = i as u8;
    }
}

pub fn references(words: &mut SplitWhitespace<'_>) -> Refs {
    let mut refs: Refs = [None; 8];
    for _ in 0..byte(words) {
        let place = side(words).min(7);
        refs[place] = Some(reference(words));
    }
    refs
}

fn reference(words: &mut SplitWhitespace<'_>) -> RefState {
    RefState {
        order_hint: word(words),
        width: side(words),
        height: side(words),
        render_width: side(words),
        render_height: side(words),
        ref_deltas: signed_bytes(words),
        mode_deltas: signed_bytes(words),
    }
}

pub fn film_grain(words: &mut SplitWhitespace<'_>) -> Option<FilmGrain> {
    if !flag(words) {
        return None;
    }
    let mut grain = FilmGrain::default();
    grain.random_seed = short(words);
    grain.scaling_shift = byte(words);
    grain.ar_coeff_lag = byte(words);
    grain.ar_coeff_shift = byte(words);
    grain.grain_scale_shift = byte(words);
    multipliers(&mut grain, words);
    grain.overlap_flag = flag(words);
    grain.chroma_scaling_from_luma = flag(words);
    points(&mut grain.scaling_points_y, words);
    points(&mut grain.scaling_points_cb, words);
    points(&mut grain.scaling_points_cr, words);
    coefficients(&mut grain.ar_coeffs_y, words);
    coefficients(&mut grain.ar_coeffs_cb, words);
    coefficients(&mut grain.ar_coeffs_cr, words);
    Some(grain)
}

fn multipliers(grain: &mut FilmGrain, words: &mut SplitWhitespace<'_>) {
    grain.cb_mult = byte(words);
    grain.cb_luma_mult = byte(words);
    grain.cb_offset = short(words);
    grain.cr_mult = byte(words);
    grain.cr_luma_mult = byte(words);
    grain.cr_offset = short(words);
}

fn points<const N: usize>(list: &mut ArrayVec<[u8; 2], N>, words: &mut SplitWhitespace<'_>) {
    for _ in 0..byte(words) {
        let _ = list.try_push(bytes(words));
    }
}

fn coefficients<const N: usize>(list: &mut ArrayVec<i8, N>, words: &mut SplitWhitespace<'_>) {
    for _ in 0..byte(words) {
        let _ = list.try_push(signed_byte(words));
    }
}
