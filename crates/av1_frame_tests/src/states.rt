// The state of a frame and its references from the words of a row.
use crate::words::{at, byte, bytes, flag, side, signed_bytes, value};
use av1_frame::{FrameState, RefState, Refs, RestorationState, SegmentationState};

pub fn state(row: &str) -> FrameState {
    let mut fs = FrameState::default();
    fs.context_update_tile_id = side(row, "tile", 0);
    fs.segmentation = segmentation(row);
    fs.deblock.levels = bytes(row, "levels");
    fs.deblock.sharpness = byte(row, "sharpness", 0);
    fs.deblock.ref_deltas = signed_bytes(row, "ref_deltas");
    fs.deblock.mode_deltas = signed_bytes(row, "mode_deltas");
    fs.deblock.block_delta_shift = byte(row, "shift", 0);
    fs.restoration = restoration(row);
    fs
}

// `feature=i,j,v,i,j,v,..`: segment i has feature j with value v.
fn segmentation(row: &str) -> SegmentationState {
    let mut state = SegmentationState::default();
    state.enabled = flag(row, "segments", false);
    state.update_map = flag(row, "update_map", false);
    state.update_data = flag(row, "update_data", false);
    state.last_active_segid = byte(row, "last", 0);
    let features = value(row, "feature").unwrap_or("");
    for k in 0..3 {
        let segment = usize::try_from(at(features, 3 * k, 8)).unwrap_or(8);
        let feature = usize::try_from(at(features, 3 * k + 1, 8)).unwrap_or(8);
        if segment < 8 && feature < 8 {
            state.features[segment][feature] = true;
            state.values[segment][feature] = i16::try_from(at(features, 3 * k + 2, 0)).unwrap_or(0);
        }
    }
    state
}

fn restoration(row: &str) -> RestorationState {
    let types: [u8; 3] = bytes(row, "types");
    let units = value(row, "units").unwrap_or("64,64,64");
    let mut state = RestorationState::default();
    for plane in 0..3 {
        state.planes[plane].lrf_type = types[plane];
        state.planes[plane].unit_size = usize::try_from(at(units, plane, 0)).unwrap_or(0);
    }
    state
}

/// The references: `refs=1,-1,5` has the first with order hint 1, no second, and the third with order hint 5.
pub fn references(row: &str) -> Refs {
    let list = value(row, "refs").unwrap_or("");
    let mut refs: Refs = [None; 8];
    for i in 0..8 {
        if let Ok(order_hint) = u32::try_from(at(list, i, -1)) {
            refs[i] = Some(RefState {
                order_hint,
                width: 64,
                height: 64,
                render_width: 64,
                render_height: 64,
                ref_deltas: [0; 8],
                mode_deltas: [0; 2],
            });
        }
    }
    refs
}
