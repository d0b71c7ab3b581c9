// The state of a frame's filters and segments from a JSON value.
ghost use Rattle.av1_input.specs.FrameState.{segmentation, deblock, plane, restoration, state_rows};
ghost use Rattle.av1_input.specs.Taking.{Pours};

use crate::error::ShapeError;
use crate::from_json::FromJson;
use crate::members::Members;
use av1_frame::{
    DeblockState, FrameState, RestorationPlaneConfig, RestorationState, SegmentationState,
};
use serde_json::Value;
use std::alloc::Global;

impl FromJson for SegmentationState {
    ghost kind = { segmentation };

    fn none(_alloc: Global) -> Self {
        SegmentationState::default()
    }

    fn from_json(alloc: Global, value: Value) -> Result<Self, ShapeError> {
        let mut members = Members::of(alloc, value);
        let segmentation = SegmentationState {
            enabled: members.optional("enabled"),
            update_map: members.optional("update_map"),
            update_data: members.optional("update_data"),
            features: members.optional("features"),
            values: members.optional("values"),
            last_active_segid: members.optional("last_active_segid"),
        };
        members.finish(segmentation)
    }
}

impl FromJson for DeblockState {
    ghost kind = { deblock };

    fn none(_alloc: Global) -> Self {
        DeblockState::default()
    }

    fn from_json(alloc: Global, value: Value) -> Result<Self, ShapeError> {
        let mut members = Members::of(alloc, value);
        let deblock = DeblockState {
            levels: members.optional("levels"),
            sharpness: members.optional("sharpness"),
            deltas_enabled: members.optional("deltas_enabled"),
            delta_updates_enabled: members.optional("delta_updates_enabled"),
            ref_deltas: members.optional("ref_deltas"),
            mode_deltas: members.optional("mode_deltas"),
            block_deltas_enabled: members.optional("block_deltas_enabled"),
            block_delta_shift: members.optional("block_delta_shift"),
            block_delta_multi: members.optional("block_delta_multi"),
        };
        members.finish(deblock)
    }
}

impl FromJson for RestorationPlaneConfig {
    ghost kind = { plane };

    fn none(_alloc: Global) -> Self {
        RestorationPlaneConfig::default()
    }

    fn from_json(alloc: Global, value: Value) -> Result<Self, ShapeError> {
        let mut members = Members::of(alloc, value);
        let plane = RestorationPlaneConfig {
            lrf_type: members.optional("lrf_type"),
            unit_size: members.or("unit_size", 64),
        };
        members.finish(plane)
    }
}

impl FromJson for RestorationState {
    ghost kind = { restoration };

    fn none(_alloc: Global) -> Self {
        RestorationState::default()
    }

    #[tactic(auto, unfolding(crate::specs::Kinds::fit_as))]
    fn from_json(alloc: Global, value: Value) -> Result<Self, ShapeError> {
        match FromJson::from_json(alloc, value) {
            Ok(planes) => Ok(RestorationState { planes }),
            Err(error) => Err(error),
        }
    }
}

/// A frame's state by the members that are left of the frame.
pub fn with_state(members: &mut Members, fs: FrameState) -> FrameState
    ensures { Pours state_rows members.old members.new fs result }
{
    FrameState {
        context_update_tile_id: members.optional("context_update_tile_id"),
        segmentation: members.optional("segmentation"),
        deblock: members.optional("deblock"),
        restoration: members.optional("restoration"),
        ..fs
    }
}
