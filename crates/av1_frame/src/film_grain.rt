// The parameters of film grain.
use arrayvec::ArrayVec;
use std::marker::Model;

/// The parameters of film grain (`film_grain_params()`, AV1 specification 5.9.30). Contracts see each list as a plain one.
#[derive(Default, Drop)]
pub struct FilmGrain {
    /// Pairs of a value and its scaling.
    pub scaling_points_y: ArrayVec<[u8; 2], 14>,
    pub scaling_points_cb: ArrayVec<[u8; 2], 10>,
    pub scaling_points_cr: ArrayVec<[u8; 2], 10>,

    /// 8 to 11.
    pub scaling_shift: u8,

    /// 0 to 3.
    pub ar_coeff_lag: u8,
    pub ar_coeffs_y: ArrayVec<i8, 24>,
    pub ar_coeffs_cb: ArrayVec<i8, 25>,
    pub ar_coeffs_cr: ArrayVec<i8, 25>,

    /// 6 to 9.
    pub ar_coeff_shift: u8,
    pub cb_mult: u8,
    pub cb_luma_mult: u8,

    /// Below 512.
    pub cb_offset: u16,
    pub cr_mult: u8,
    pub cr_luma_mult: u8,

    /// Below 512.
    pub cr_offset: u16,
    pub overlap_flag: bool,
    pub chroma_scaling_from_luma: bool,

    /// 0 to 3.
    pub grain_scale_shift: u8,
    pub random_seed: u16,
}

impl Model for FilmGrain {
    ghost use Rattle.av1_frame.specs.Grain.{Grain};

    ghost Value = { Grain };

    ghost use Rattle.av1_frame.specs.GrainView.{grain_of};

    ghost view = { grain_of };
}
