// The tiles of a frame.
ghost use Rattle.std.specs.Prelude.{◌≡◌, ◌+◌, ◌-◌, ◌<◌, ◌≤◌, max, min, true, false};
ghost use Rattle.std.specs.Int.{div_ceil};
ghost use Rattle.av1_frame.specs.Tiling.{is_uniform};
ghost use Rattle.av1_header.specs.Rows.{Wrote, WroteNumber, ns};
ghost use Rattle.av1_header.specs.Tiles.{TilingFits, HasSmallLogs, TilesFit, tiles_with, logs_of};
ghost use Rattle.av1_header.specs.Tiles.{increments, even_tiles, spans, said_tiles, tile_logs, tile_info};

use crate::rows::{flag_or, number_or, quniform};
use av1_bits::BitWriter;
use av1_frame::{FrameState, TilingInfo, tile_log2};

/// How many spans of superblocks there are, and the widest.
#[derive(Clone, Copy)]
pub struct Spans {
    pub count: usize,
    pub widest: usize,
}

/// The logarithms of the numbers of columns and of rows of tiles.
#[derive(Clone, Copy)]
pub struct TileLogs {
    pub cols: usize,
    pub rows: usize,
}

/// What the rows of tiles tell.
#[derive(Clone, Copy)]
pub struct TileValues {
    pub logs: TileLogs,

    /// How many bytes the size of a tile has.
    pub size_bytes: u32,
}

fn write_increments(
    bits: &mut BitWriter,
    refused: &mut bool,
    least: usize,
    most: usize,
    goal: usize,
) -> usize
    requires { goal ≤ most }
    ensures wrote { Wrote (increments (most - least) least) goal result refused.old refused.new bits.old bits.new }
    ensures reached { result ≡ max least goal }
{
    let mut k = least;
    while k < most {
        let more = flag_or(bits, refused, true, false, k < goal);
        if !more {
            return k;
        }
        k += 1;
    }
    k
}

fn write_even(bits: &mut BitWriter, refused: &mut bool, info: &TilingInfo) -> TileLogs
    requires fits { TilingFits info.now }
    requires even { is_uniform info.now ≡ true }
    ensures wrote { Wrote (even_tiles info.now.sb_width info.now.sb_height) info.now result refused.old refused.new bits.old bits.new }
    ensures logs { result ≡ logs_of info.now }
{
    let (least, most) = (info.min_tile_cols_log2, info.max_tile_cols_log2);
    let cols = write_increments(bits, refused, least, most, info.tile_cols_log2);
    let least = info.min_tiles_log2.saturating_sub(cols);
    let most = info.max_tile_rows_log2;
    let rows = write_increments(bits, refused, least, most, info.tile_rows_log2);
    TileLogs { cols, rows }
}

// A span of superblocks, which is coded as one less, where so many are left.
fn write_span(
    bits: &mut BitWriter,
    refused: &mut bool,
    most: usize,
    side: usize,
    left: usize,
) -> usize
    requires some { (1 ≤ side) × (1 ≤ left) }
    requires fits { (side ≤ most) × (left ≤ 1024) }
    ensures wrote { WroteNumber true 0 (ns (min most left)) (min side left - 1) result refused.old refused.new bits.old bits.new }
    ensures value { result ≡ min side left - 1 }
{
    let span = quniform(
        bits,
        refused,
        most.min(left) as u16,
        side.min(left) as u16 - 1,
    );
    usize::from(span)
}

fn write_spans(
    bits: &mut BitWriter,
    refused: &mut bool,
    most: usize,
    side: usize,
    total: usize,
) -> Spans
    requires side { (1 ≤ side) × (side ≤ most) × (side ≤ total) }
    requires total { total ≤ 1024 }
    ensures wrote { Wrote (spans total most total 0 0) side result refused.old refused.new bits.old bits.new }
    ensures widest { result.widest ≡ side }
    ensures count { result.count ≡ div_ceil total side }
    ensures few { result.count ≤ 1024 }
{
    let mut left = total;
    let mut count: usize = 0;
    let mut widest: usize = 0;
    while left > 0 {
        let span = write_span(bits, refused, most, side, left);
        left -= span + 1;
        count += 1;
        widest = widest.max(span + 1);
    }
    Spans { count, widest }
}

fn write_said(bits: &mut BitWriter, refused: &mut bool, info: &TilingInfo) -> TileLogs
    requires fits { TilingFits info.now }
    requires small { HasSmallLogs info.now }
    requires said { is_uniform info.now ≡ false }
    ensures wrote { Wrote (said_tiles info.now.sb_width info.now.sb_height) info.now result refused.old refused.new bits.old bits.new }
    ensures logs { result ≡ logs_of info.now }
{
    let across = write_spans(bits, refused, 64, info.tile_width_sb, info.sb_width);
    let most = info.max_tile_height_sb();
    let down = write_spans(bits, refused, most, info.tile_height_sb, info.sb_height);
    TileLogs {
        cols: tile_log2(1, across.count),
        rows: tile_log2(1, down.count),
    }
}

fn write_logs(bits: &mut BitWriter, refused: &mut bool, info: &TilingInfo, even: bool) -> TileLogs
    requires fits { TilingFits info.now }
    requires small { HasSmallLogs info.now }
    requires even { even ≡ is_uniform info.now }
    ensures wrote { Wrote (tile_logs even info.now.sb_width info.now.sb_height) info.now result refused.old refused.new bits.old bits.new }
    ensures logs { result ≡ logs_of info.now }
{
    if even {
        write_even(bits, refused, info)
    } else {
        write_said(bits, refused, info)
    }
}

pub(crate) fn write_tile_info(
    bits: &mut BitWriter,
    refused: &mut bool,
    info: &TilingInfo,
    state: &FrameState,
) -> TileValues
    requires fits { TilesFit (tiles_with info.now state.now) }
    requires small { HasSmallLogs info.now }
    ensures { Wrote (tile_info info.now.sb_width info.now.sb_height) (tiles_with info.now state.now) result refused.old refused.new bits.old bits.new }
{
    let even = flag_or(bits, refused, true, false, info.is_uniform());
    let logs = write_logs(bits, refused, info, even);
    let n = (logs.cols + logs.rows) as u32;
    let many = logs.cols + logs.rows > 0;
    number_or(
        bits,
        refused,
        many,
        0,
        n,
        state.context_update_tile_id as u32,
    );
    let less = number_or(bits, refused, many, 0, 2, state.max_tile_size_bytes - 1);
    TileValues {
        logs,
        size_bytes: less + 1,
    }
}
