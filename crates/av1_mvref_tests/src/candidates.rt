// What the calls answer of each row.
use crate::ready::{is_aligned, is_ready};
use crate::row::{Numbers, enter, fill, tile};
use crate::rows::ROWS;
use arrayvec::ArrayVec;
use av1_blocks::{Block, TileBlocks, TileBlocksMut};
use av1_geometry::TileBlockOffset;
use av1_mvref::{
    CandidateMV, find_mvrefs, get_comp_mode_ctx, get_comp_ref_type_ctx, get_pred_ctx_brf_or_arf2,
    get_pred_ctx_brfarf2_or_arf, get_pred_ctx_last_or_last2, get_pred_ctx_last3_or_gold,
    get_pred_ctx_ll2_or_l3gld, get_ref_frame_ctx_b0, ref_counts,
};
use std::alloc::Global;
use std::test::Fail;

// The context of the mode, and each candidate: its vectors and its weight.
fn candidates(
    alloc: Global,
    blocks: &TileBlocks<'_>,
    bo: TileBlockOffset,
    numbers: &mut Numbers,
) -> Result<String, Fail> {
    let bsize = numbers.next_size();
    let ref_frames = [numbers.next_reference(), numbers.next_reference()];
    let mut sign_bias = [false; 7];
    for k in 0..7 {
        sign_bias[k] = numbers.next_bool();
    }
    let has_tr = numbers.next_bool();
    let is_compound = numbers.next_bool();
    let (first, second) = (ref_frames[0].number(), ref_frames[1].number());
    let is_pair = 1 <= first && 1 <= second && second <= 7;
    let inside = bo.0.x < blocks.cols() && bo.0.y < blocks.rows();
    if !inside
        || !is_ready(blocks)
        || !is_aligned(bo, bsize)
        || first > 7
        || is_compound && !is_pair
    {
        return Err(Fail::new("not a row that the call takes"));
    }
    let mut list = ArrayVec::new();
    let context = find_mvrefs(
        blocks,
        bo,
        ref_frames,
        &mut list,
        bsize,
        &sign_bias,
        has_tr,
        is_compound,
    );
    text_of(alloc, context, list.as_slice())
}

fn text_of(alloc: Global, context: usize, list: &[CandidateMV]) -> Result<String, Fail> {
    let mut text = format!(in alloc; "{context}")?;
    for c in list.iter() {
        let (this, comp, weight) = (c.this_mv, c.comp_mv, c.weight);
        let (a, b, d, e) = (this.row, this.col, comp.row, comp.col);
        text = format!(in alloc; "{text},{a} {b} {d} {e} {weight}")?;
    }
    Ok(text)
}

// How often the neighbours refer to each frame, and the contexts of references.
fn contexts(alloc: Global, blocks: &TileBlocks<'_>, bo: TileBlockOffset) -> Result<String, Fail> {
    let inside = bo.0.x < blocks.cols() && bo.0.y < blocks.rows();
    if !inside || !is_ready(blocks) {
        return Err(Fail::new("not a row that the calls take"));
    }
    let all = [
        get_ref_frame_ctx_b0(blocks, bo),
        get_pred_ctx_brfarf2_or_arf(blocks, bo),
        get_pred_ctx_ll2_or_l3gld(blocks, bo),
        get_pred_ctx_last_or_last2(blocks, bo),
        get_pred_ctx_last3_or_gold(blocks, bo),
        get_pred_ctx_brf_or_arf2(blocks, bo),
        get_comp_mode_ctx(blocks, bo),
        get_comp_ref_type_ctx(blocks, bo),
    ];
    let mut text = String::new(alloc);
    for context in all.iter() {
        text = format!(in alloc; "{text} {context}")?;
    }
    Ok(text)
}

// What a row's grid gives, as text.
fn answer(alloc: Global, given: &str) -> Result<String, Fail> {
    let mut numbers = Numbers::of(alloc, given)?;
    let mut tile = tile(alloc, &mut numbers)?;
    fill(alloc, &mut tile, &mut numbers)?;
    let bo = numbers.next_place();
    let list = candidates(alloc, &tile.as_const(), bo, &mut numbers)?;
    let counts = stored_counts(&mut tile, bo);
    let [a, b, c, d, e, f, g] = counts;
    let contexts = contexts(alloc, &tile.as_const(), bo)?;
    Ok(format!(in alloc; "{list};{a} {b} {c} {d} {e} {f} {g}{contexts}")?)
}

// How often the neighbours refer to each frame, entered in the block.
fn stored_counts(tile: &mut TileBlocksMut, bo: TileBlockOffset) -> [u8; 7] {
    if !(bo.0.x < tile.cols() && bo.0.y < tile.rows()) {
        return [0; 7];
    }
    let block = *tile.at(bo);
    let counts = ref_counts(&tile.as_const(), bo);
    let neighbors_ref_counts = counts;
    enter(
        tile,
        bo,
        Block {
            neighbors_ref_counts,
            ..block
        },
    );
    counts
}

#[test]
fn candidates_and_contexts_are_those_of_rav1e(rt: HostRuntime) -> Result<(), Fail> {
    for row in ROWS.lines() {
        let (given, want) = row.split_once(';').unwrap_or((row, ""));
        assert_eq!(rt; answer(rt.alloc(), given)?.as_str(), want, "{row}");
    }
    Ok(())
}
