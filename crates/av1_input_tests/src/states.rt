// What the state of a frame says, and references.
use crate::told::Told;
use av1_frame::{DeblockState, FrameState, RefState, Refs, RestorationState, SegmentationState};
use std::test::Fail;

pub fn state(told: &mut Told, fs: &FrameState) -> Result<(), Fail> {
    told.line("tile", &[fs.context_update_tile_id])?;
    segmentation(told, &fs.segmentation)?;
    deblock(told, &fs.deblock)?;
    restoration(told, &fs.restoration)
}

fn segmentation(told: &mut Told, state: &SegmentationState) -> Result<(), Fail> {
    told.line(
        "segment flags",
        &[state.enabled, state.update_map, state.update_data],
    )?;
    for i in 0..8 {
        told.line("features", &state.features[i])?;
        told.line("values", &state.values[i])?;
    }
    told.line("last", &[state.last_active_segid])
}

fn deblock(told: &mut Told, state: &DeblockState) -> Result<(), Fail> {
    let flags = [
        state.deltas_enabled,
        state.delta_updates_enabled,
        state.block_deltas_enabled,
        state.block_delta_multi,
    ];
    told.line("levels", &state.levels)?;
    told.line("deblock bytes", &[state.sharpness, state.block_delta_shift])?;
    told.line("deblock flags", &flags)?;
    deltas(told, &state.ref_deltas, &state.mode_deltas)
}

fn deltas(told: &mut Told, refs: &[i8; 8], modes: &[i8; 2]) -> Result<(), Fail> {
    told.line("ref deltas", refs)?;
    told.line("mode deltas", modes)
}

fn restoration(told: &mut Told, state: &RestorationState) -> Result<(), Fail> {
    let [y, u, v] = state.planes;
    told.line("restoration", &[y.lrf_type, u.lrf_type, v.lrf_type])?;
    told.line("unit sizes", &[y.unit_size, u.unit_size, v.unit_size])
}

pub fn references(told: &mut Told, refs: &Refs) -> Result<(), Fail> {
    for i in 0..8 {
        if let Some(state) = refs[i] {
            reference(told, i, &state)?;
        }
    }
    Ok(())
}

fn reference(told: &mut Told, place: usize, state: &RefState) -> Result<(), Fail> {
    let sides = [
        place,
        state.width,
        state.height,
        state.render_width,
        state.render_height,
    ];
    told.line("ref", &sides)?;
    told.line("hint", &[state.order_hint])?;
    deltas(told, &state.ref_deltas, &state.mode_deltas)
}
