// How superblocks are parted, and the trials of them.
ghost use Rattle.std.specs.Prelude.{◌≡◌, ℕ, ◌+◌, ◌*◌, ◌-◌, ◌^◌, ◌<◌, ◌≤◌, OnOk, IsTrue};
ghost use Rattle.av1_make.specs.Draws.{Makes};
ghost use Rattle.av1_make.specs.Tree.{Chooses, begun, is_inside, leaf, node, square, superblock, superblocks, trial};

use crate::blocks::add_block;
use crate::draws::Maker;
use av1_geometry::{BlockOffset, BlockSize, OutOfMemory, PartitionType, TileBlockOffset};
use av1_tile::{Item, TileStep};
use std::alloc::Global;

/// The columns and rows of a tile, in 4x4 luma blocks.
#[derive(Clone, Copy)]
pub struct Area {
    pub cols: usize,
    pub rows: usize,
}

fn is_inside(area: Area, x: usize, y: usize) -> bool
    ensures { result ≡ is_inside area x y }
{
    x < area.cols && y < area.rows
}

fn square(level: usize) -> BlockSize
    ensures { result ≡ square level }
{
    match level {
        0 => BlockSize::BLOCK_8X8,
        1 => BlockSize::BLOCK_16X16,
        2 => BlockSize::BLOCK_32X32,
        _ => BlockSize::BLOCK_64X64,
    }
}

// A node that is not parted.
fn add_leaf(
    alloc: Global,
    maker: &mut Maker,
    level: usize,
    x: usize,
    y: usize,
) -> Result<(), OutOfMemory>
    ensures { OnOk result (Makes (leaf level x y) maker.old maker.new) }
{
    let size = square(level);
    maker.add_step(TileStep::Partition {
        x,
        y,
        size,
        answer: PartitionType::PARTITION_NONE,
    })?;
    add_block(alloc, maker, x, y, size)
}

fn half(level: usize) -> usize
    requires { level ≤ 3 }
    ensures value { result ≡ 2 ^ level }
    ensures most { result ≤ 8 }
{
    match level {
        0 => 1,
        1 => 2,
        2 => 4,
        _ => 8,
    }
}

// Whether a node stays whole, whose halves begin inside or not.
fn stays_whole(maker: &mut Maker, fits: bool) -> bool
    ensures { Chooses fits result maker.old maker.new }
{
    fits && maker.draw() % 2 == 0
}

// The node of a level at a place.
fn add_node(
    alloc: Global,
    maker: &mut Maker,
    area: Area,
    level: usize,
    x: usize,
    y: usize,
) -> Result<(), OutOfMemory>
    requires level { level ≤ 3 }
    requires cols { area.cols ≤ 2 ^ 20 }
    requires rows { area.rows ≤ 2 ^ 20 }
    ensures { OnOk result (Makes (node area level x y) maker.old maker.new) }
{
    if !is_inside(area, x, y) {
        return Ok(());
    }
    if level == 0 {
        return add_leaf(alloc, maker, 0, x, y);
    }
    let half = half(level);
    if stays_whole(maker, is_inside(area, x + half, y + half)) {
        return add_leaf(alloc, maker, level, x, y);
    }
    maker.add_step(TileStep::Partition {
        x,
        y,
        size: square(level),
        answer: PartitionType::PARTITION_SPLIT,
    })?;
    add_node(alloc, maker, area, level - 1, x, y)?;
    add_node(alloc, maker, area, level - 1, x + half, y)?;
    add_node(alloc, maker, area, level - 1, x, y + half)?;
    add_node(alloc, maker, area, level - 1, x + half, y + half)
}

// A superblock in a trial with this end.
fn add_trial(
    alloc: Global,
    maker: &mut Maker,
    area: Area,
    x: usize,
    y: usize,
    end: Item,
) -> Result<(), OutOfMemory>
    requires cols { area.cols ≤ 2 ^ 20 }
    requires rows { area.rows ≤ 2 ^ 20 }
    ensures { OnOk result (Makes (trial area x y end) maker.old maker.new) }
{
    maker.add(Item::Begin(TileBlockOffset(BlockOffset { x, y })))?;
    add_node(alloc, maker, area, 3, x, y)?;
    maker.add(end)
}

// The first superblock of a row begins the row.
fn begin_row(maker: &mut Maker, x: usize) -> Result<(), OutOfMemory>
    ensures { OnOk result (Makes (begun x) maker.old maker.new) }
{
    if x == 0 {
        maker.add_step(TileStep::RowStart)?;
    }
    Ok(())
}

// A superblock is tried twice, and the second trial is kept.
fn add_superblock(
    alloc: Global,
    maker: &mut Maker,
    area: Area,
    x: usize,
    y: usize,
) -> Result<(), OutOfMemory>
    requires cols { area.cols ≤ 2 ^ 20 }
    requires rows { area.rows ≤ 2 ^ 20 }
    ensures { OnOk result (Makes (superblock area x y) maker.old maker.new) }
{
    begin_row(maker, x)?;
    add_trial(alloc, maker, area, x, y, Item::Abandon)?;
    add_trial(alloc, maker, area, x, y, Item::Keep)
}

/// Adds so many superblocks in raster order, where a row has `across` of them.
pub fn add_superblocks(
    alloc: Global,
    maker: &mut Maker,
    area: Area,
    across: usize,
    count: usize,
) -> Result<(), OutOfMemory>
    requires cols { area.cols ≤ 2 ^ 20 }
    requires rows { area.rows ≤ 2 ^ 20 }
    requires across { 0 < across }
    requires count { count ≤ 2 ^ 20 }
    ensures { OnOk result (Makes (superblocks area across count) maker.old maker.new) }
{
    for k in 0..count {
        add_superblock(alloc, maker, area, 16 * (k % across), 16 * (k / across))?;
    }
    Ok(())
}
