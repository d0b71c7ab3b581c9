// The fields of the context by name.
ghost use Rattle.std.specs.Prelude.{◌≡◌, ◌≤◌, All, IfOk, map, option_map};
ghost use Rattle.av1_cdf.specs.FieldMap.{entries_of, field_map, name_at, of_run};
ghost use Rattle.av1_cdf.specs.Runs.{end_of};

use crate::cdf_context::{CDFContext, NUMBERS};
use crate::layout::{
    ANGLE_DELTA_CDF, CFL_ALPHA_CDF, CFL_SIGN_CDF, COEFF_BASE_CDF, COEFF_BASE_EOB_CDF, COEFF_BR_CDF,
    COMP_BWD_REF_CDF, COMP_MODE_CDF, COMP_REF_CDF, COMP_REF_TYPE_CDF, COMPOUND_MODE_CDF,
    DC_SIGN_CDF, DEBLOCK_DELTA_CDF, DEBLOCK_DELTA_MULTI_CDF, DRL_CDFS, EOB_EXTRA_CDF,
    EOB_FLAG_CDF16, EOB_FLAG_CDF32, EOB_FLAG_CDF64, EOB_FLAG_CDF128, EOB_FLAG_CDF256,
    EOB_FLAG_CDF512, EOB_FLAG_CDF1024, FILTER_INTRA_CDFS, INTER_TX_1_CDF, INTER_TX_2_CDF,
    INTER_TX_3_CDF, INTRA_INTER_CDFS, INTRA_TX_1_CDF, INTRA_TX_2_CDF, JOINTS_CDF, KF_Y_CDF,
    LRF_SGRPROJ_CDF, LRF_SWITCHABLE_CDF, LRF_WIENER_CDF, NEWMV_CDF, PALETTE_UV_MODE_CDFS,
    PALETTE_Y_MODE_CDFS, PARTITION_CDF, PARTITION_W8_CDF, PARTITION_W128_CDF, REFMV_CDF,
    SINGLE_REF_CDFS, SKIP_CDFS, SPATIAL_SEGMENTATION_CDFS, TX_SIZE_8X8_CDF, TX_SIZE_CDF,
    TXB_SKIP_CDF, TXFM_PARTITION_CDF, UV_MODE_CDF, UV_MODE_CFL_CDF, Y_MODE_CDF, ZEROMV_CDF,
};
use crate::run::Run;
use av1_geometry::OutOfMemory;
use std::alloc::Global;
use std::marker::Model;

// The fields up to the vectors.
static FIELDS: [(&'static str, Run); 52] = [
    ("comp_bwd_ref_cdf", COMP_BWD_REF_CDF),
    ("comp_mode_cdf", COMP_MODE_CDF),
    ("comp_ref_cdf", COMP_REF_CDF),
    ("comp_ref_type_cdf", COMP_REF_TYPE_CDF),
    ("dc_sign_cdf", DC_SIGN_CDF),
    ("drl_cdfs", DRL_CDFS),
    ("eob_extra_cdf", EOB_EXTRA_CDF),
    ("filter_intra_cdfs", FILTER_INTRA_CDFS),
    ("intra_inter_cdfs", INTRA_INTER_CDFS),
    ("lrf_sgrproj_cdf", LRF_SGRPROJ_CDF),
    ("lrf_wiener_cdf", LRF_WIENER_CDF),
    ("newmv_cdf", NEWMV_CDF),
    ("palette_uv_mode_cdfs", PALETTE_UV_MODE_CDFS),
    ("palette_y_mode_cdfs", PALETTE_Y_MODE_CDFS),
    ("refmv_cdf", REFMV_CDF),
    ("single_ref_cdfs", SINGLE_REF_CDFS),
    ("skip_cdfs", SKIP_CDFS),
    ("txb_skip_cdf", TXB_SKIP_CDF),
    ("txfm_partition_cdf", TXFM_PARTITION_CDF),
    ("zeromv_cdf", ZEROMV_CDF),
    ("tx_size_8x8_cdf", TX_SIZE_8X8_CDF),
    ("inter_tx_3_cdf", INTER_TX_3_CDF),
    ("coeff_base_eob_cdf", COEFF_BASE_EOB_CDF),
    ("lrf_switchable_cdf", LRF_SWITCHABLE_CDF),
    ("tx_size_cdf", TX_SIZE_CDF),
    ("coeff_base_cdf", COEFF_BASE_CDF),
    ("coeff_br_cdf", COEFF_BR_CDF),
    ("deblock_delta_cdf", DEBLOCK_DELTA_CDF),
    ("deblock_delta_multi_cdf", DEBLOCK_DELTA_MULTI_CDF),
    ("partition_w8_cdf", PARTITION_W8_CDF),
    ("eob_flag_cdf16", EOB_FLAG_CDF16),
    ("intra_tx_2_cdf", INTRA_TX_2_CDF),
    ("eob_flag_cdf32", EOB_FLAG_CDF32),
    ("angle_delta_cdf", ANGLE_DELTA_CDF),
    ("eob_flag_cdf64", EOB_FLAG_CDF64),
    ("intra_tx_1_cdf", INTRA_TX_1_CDF),
    ("cfl_sign_cdf", CFL_SIGN_CDF),
    ("compound_mode_cdf", COMPOUND_MODE_CDF),
    ("eob_flag_cdf128", EOB_FLAG_CDF128),
    ("spatial_segmentation_cdfs", SPATIAL_SEGMENTATION_CDFS),
    ("partition_w128_cdf", PARTITION_W128_CDF),
    ("eob_flag_cdf256", EOB_FLAG_CDF256),
    ("eob_flag_cdf512", EOB_FLAG_CDF512),
    ("partition_cdf", PARTITION_CDF),
    ("eob_flag_cdf1024", EOB_FLAG_CDF1024),
    ("inter_tx_2_cdf", INTER_TX_2_CDF),
    ("kf_y_cdf", KF_Y_CDF),
    ("y_mode_cdf", Y_MODE_CDF),
    ("uv_mode_cdf", UV_MODE_CDF),
    ("uv_mode_cfl_cdf", UV_MODE_CFL_CDF),
    ("cfl_alpha_cdf", CFL_ALPHA_CDF),
    ("inter_tx_1_cdf", INTER_TX_1_CDF),
];

// The entries of fields, with room for one more.
fn entries(
    alloc: Global,
    fields: &[(&'static str, Run)],
) -> Result<Vec<(&'static str, usize, usize)>, OutOfMemory>
    requires { All (λ field. end_of field.1 ≤ 5528) fields.now }
    ensures { IfOk result (λ v. entries_of v.items ≡ map of_run fields.now) }
{
    let mut map = Vec::with_capacity(alloc, fields.len() + 1)?;
    for (name, run) in fields {
        map.push((*name, run.place, run.end()))?;
    }
    Ok(map)
}

impl CDFContext {
    /// Name, first place and place past the end of each field, by rising places.
    pub fn build_map(&self, alloc: Global) -> Result<Vec<(&'static str, usize, usize)>, OutOfMemory>
        ensures { IfOk result (λ v. entries_of v.items ≡ field_map) }
    {
        let mut map = entries(alloc, &FIELDS)?;
        map.push(("nmv_context", JOINTS_CDF.place, NUMBERS))?;
        Ok(map)
    }
}

/// The fields of a context by name.
#[derive(Drop)]
pub struct FieldMap {
    pub map: Vec<(&'static str, usize, usize)>,
}

impl Model for FieldMap {
    ghost use Rattle.std.specs.Prelude.{List};
    ghost use Rattle.av1_cdf.specs.FieldMap.{Entry, entries_of};

    ghost Value = { List Entry };

    ghost view = { λ m. entries_of m.map.items };
}

impl FieldMap {
    /// The name of the first field that has a place.
    pub fn lookup(&self, place: usize) -> Option<&'static str>
        ensures { option_map (λ name. name.now) result ≡ name_at place self.now }
    {
        for (name, start, end) in &self.map {
            if *start <= place && place < *end {
                return Some(*name);
            }
        }
        None
    }
}
