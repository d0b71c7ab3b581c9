// Film grain from a JSON value.
ghost use Rattle.av1_input.specs.FilmGrain.{grain};

use crate::error::ShapeError;
use crate::from_json::FromJson;
use crate::members::Members;
use arrayvec::ArrayVec;
use av1_frame::FilmGrain;
use serde_json::Value;
use std::alloc::Global;

impl FromJson for FilmGrain {
    ghost kind = { grain };

    fn none(_alloc: Global) -> Self {
        FilmGrain {
            scaling_points_y: ArrayVec::new(),
            scaling_points_cb: ArrayVec::new(),
            scaling_points_cr: ArrayVec::new(),
            scaling_shift: 0,
            ar_coeff_lag: 0,
            ar_coeffs_y: ArrayVec::new(),
            ar_coeffs_cb: ArrayVec::new(),
            ar_coeffs_cr: ArrayVec::new(),
            ar_coeff_shift: 0,
            cb_mult: 0,
            cb_luma_mult: 0,
            cb_offset: 0,
            cr_mult: 0,
            cr_luma_mult: 0,
            cr_offset: 0,
            overlap_flag: false,
            chroma_scaling_from_luma: false,
            grain_scale_shift: 0,
            random_seed: 0,
        }
    }

    fn from_json(alloc: Global, value: Value) -> Result<Self, ShapeError> {
        let mut members = Members::of(alloc, value);
        let grain = FilmGrain {
            scaling_points_y: members.required("scaling_points_y"),
            scaling_points_cb: members.required("scaling_points_cb"),
            scaling_points_cr: members.required("scaling_points_cr"),
            scaling_shift: members.required("scaling_shift"),
            ar_coeff_lag: members.required("ar_coeff_lag"),
            ar_coeffs_y: members.required("ar_coeffs_y"),
            ar_coeffs_cb: members.required("ar_coeffs_cb"),
            ar_coeffs_cr: members.required("ar_coeffs_cr"),
            ar_coeff_shift: members.required("ar_coeff_shift"),
            cb_mult: members.required("cb_mult"),
            cb_luma_mult: members.required("cb_luma_mult"),
            cb_offset: members.required("cb_offset"),
            cr_mult: members.required("cr_mult"),
            cr_luma_mult: members.required("cr_luma_mult"),
            cr_offset: members.required("cr_offset"),
            overlap_flag: members.required("overlap_flag"),
            chroma_scaling_from_luma: members.required("chroma_scaling_from_luma"),
            grain_scale_shift: members.required("grain_scale_shift"),
            random_seed: members.required("random_seed"),
        };
        members.finish(grain)
    }
}
