// Each row through the public calls.
ghost use Rattle.std.specs.Prelude.{◌≤◌, ◌↔◌, IsTrue};

use crate::frames::frame;
use crate::rows::{FRAMES, SEQUENCES, TILINGS};
use crate::sequences::sequence;
use crate::states::{references, state};
use av1_frame::{Metadata, T35, TilingInfo, check_frame, check_metadata, check_sequence};
use av1_geometry::Rule;
use std::alloc::Global;
use std::test::Fail;

fn number_of(rule: Option<Rule>) -> u16 {
    match rule {
        Some(rule) => rule.0,
        None => 0,
    }
}

// The number at the head of a row.
fn wanted(row: &str) -> u16 {
    row.split(' ')
        .next()
        .unwrap_or("")
        .parse::<u16>()
        .unwrap_or(999)
}

#[test]
fn sequences_break_the_rules_of_their_rows(rt: HostRuntime) -> Result<(), Fail> {
    for row in SEQUENCES.lines() {
        assert_eq!(rt;
            number_of(check_sequence(&sequence(row))),
            wanted(row),
            "{row}"
        );
    }
    Ok(())
}

fn frame_answer(row: &str) -> u16 {
    let fi = frame(row);
    number_of(check_frame(&fi, &state(row), &references(row)))
}

#[test]
fn frames_break_the_rules_of_their_rows(rt: HostRuntime) -> Result<(), Fail> {
    for row in FRAMES.lines() {
        assert_eq!(rt; frame_answer(row), wanted(row), "{row}");
    }
    Ok(())
}

fn message(alloc: Global, len: usize) -> Result<Metadata, Fail> {
    Ok(Metadata::T35(T35 {
        country_code: 181,
        country_code_extension_byte: 0,
        payload: vec![in alloc; 7; len]?,
    }))
}

#[test]
fn metadata_is_in_the_sequence(rt: HostRuntime) -> Result<(), Fail> {
    for (row, light, display) in [("", 50, 50), ("light=1", 0, 50), ("display=1", 50, 0)] {
        let seq = sequence(row);
        assert_eq!(rt; number_of(check_metadata(&Metadata::Cll, &seq)), light);
        assert_eq!(rt; number_of(check_metadata(&Metadata::Mdcv, &seq)), display);
    }
    Ok(())
}

#[test]
fn a_message_is_short(rt: HostRuntime) -> Result<(), Fail> {
    let seq = sequence("");
    for (len, want) in [(0, 0), (65535, 0), (65536, 50)] {
        let message = message(rt.alloc(), len)?;
        assert_eq!(rt; number_of(check_metadata(&message, &seq)), want);
    }
    Ok(())
}

// The numbers of a row, 0 where there is none.
fn numbers(row: &str) -> [usize; 15] {
    let mut words = row.split(' ');
    let mut all = [0; 15];
    for each in all.iter_mut() {
        *each = words.next().unwrap_or("").parse::<usize>().unwrap_or(0);
    }
    all
}

fn is_side(side: usize) -> bool
    ensures { IsTrue result ↔ ((1 ≤ side) × (side ≤ 1024)) }
{
    1 <= side && side <= 1024
}

// Whether the tiling of the first four numbers of a row is its other numbers.
fn row_is_tiled(row: &[usize; 15]) -> bool {
    let [width, height, tile_width, tile_height, ..] = *row;
    if !is_side(width) || !is_side(height) || !is_side(tile_width) || !is_side(tile_height) {
        return false;
    }
    let t = TilingInfo::of(width, height, tile_width, tile_height);
    let told = [
        t.cols,
        t.rows,
        t.tile_cols_log2,
        t.tile_rows_log2,
        t.min_tile_cols_log2,
        t.max_tile_cols_log2,
        t.max_tile_rows_log2,
        t.min_tiles_log2,
        t.min_tile_rows_log2,
        usize::from(t.is_uniform()),
        t.max_tile_height_sb(),
    ];
    told.iter().eq(row[4..].iter())
}

#[test]
fn tilings_have_the_numbers_of_their_rows(rt: HostRuntime) -> Result<(), Fail> {
    for row in TILINGS.lines() {
        assert!(rt; row_is_tiled(&numbers(row)), "{row}");
    }
    Ok(())
}
