// The items of a block, by what is drawn.
ghost use Rattle.std.specs.Prelude.{◌≡◌, ◌<◌, ◌≤◌, IfOk, OnOk, IsTrue};
ghost use Rattle.av1_geometry.specs.PredictionMode.{prediction_mode_number};
ghost use Rattle.av1_step.specs.AngleSteps.{is_directional};
ghost use Rattle.av1_make.specs.Blocks.{angle_of, block, chroma_size, chroma_type, coefficients, first_levels};
ghost use Rattle.av1_make.specs.Blocks.{level_among, level_of, mode_of, mode_step, predicted, transform, transforms, turned};
ghost use Rattle.av1_make.specs.Draws.{Makes, after, drawn};

use crate::draws::Maker;
use av1_geometry::{
    BlockSize, OutOfMemory, PredictionMode, TxType, av1_get_coded_tx_size, get_tx_set,
    uv_intra_mode_to_tx_type_context,
};
use av1_tile::{Levels, TileStep};
use std::alloc::Global;

#[tactic(auto, unfolding(crate::specs::Blocks::mode_of))]
fn mode_of(number: u32) -> PredictionMode
    ensures value { result ≡ mode_of number }
    ensures intra { prediction_mode_number result < 13 }
{
    PredictionMode::from_number((number % 13) as usize).unwrap_or(PredictionMode::DC_PRED)
}

fn mode_step(chroma: bool, mode: PredictionMode) -> TileStep
    ensures { result ≡ mode_step chroma mode }
{
    if chroma {
        TileStep::UvMode { answer: mode }
    } else {
        TileStep::IntraModeKf { answer: mode }
    }
}

fn is_directional(mode: PredictionMode) -> bool
    ensures { result ≡ is_directional mode }
{
    let number = mode.number();
    1 <= number && number <= 8
}

fn turn_step(chroma: bool, number: u32) -> TileStep
    ensures { result ≡ TileStep.AngleDelta chroma (angle_of number) }
{
    TileStep::AngleDelta {
        chroma,
        answer: (number % 7) as i8 - 3,
    }
}

// A mode with a direction is turned.
fn add_turn(maker: &mut Maker, chroma: bool, mode: PredictionMode) -> Result<(), OutOfMemory>
    ensures { OnOk result (Makes (turned chroma mode) maker.old maker.new) }
{
    if is_directional(mode) {
        let number = maker.draw();
        maker.add_step(turn_step(chroma, number))?;
    }
    Ok(())
}

// A mode of luma or of chroma, and how far it is turned.
fn add_mode(maker: &mut Maker, chroma: bool, mode: PredictionMode) -> Result<(), OutOfMemory>
    ensures { OnOk result (Makes (predicted chroma mode) maker.old maker.new) }
{
    maker.add_step(mode_step(chroma, mode))?;
    add_turn(maker, chroma, mode)
}

// A level of the so many in a list, of which the last isn't 0.
fn level_among(count: usize, k: usize, number: u32) -> i32
    requires { k < count }
    ensures { result ≡ level_among count k (level_of number) }
{
    let level = (number % 31) as i32 - 15;
    if level == 0 && k + 1 == count {
        1
    } else {
        level
    }
}

// So many levels, by the numbers that are drawn for them.
fn draw_levels(alloc: Global, maker: &mut Maker, count: usize) -> Result<Vec<i32>, OutOfMemory>
    ensures levels { IfOk result (λ levels. levels.items ≡ first_levels count count (λ k. drawn (after k maker.old.state))) }
    ensures state { OnOk result (maker.new.state ≡ after count maker.old.state) }
    ensures items { maker.new.items ≡ maker.old.items }
{
    let mut levels = Vec::new(alloc);
    for k in 0..count {
        levels.push(level_among(count, k, maker.draw()))?;
    }
    Ok(levels)
}

// A transform block with up to three levels.
fn add_transform(
    alloc: Global,
    maker: &mut Maker,
    plane: usize,
    x: usize,
    y: usize,
    tx_type: TxType,
) -> Result<(), OutOfMemory>
    ensures { OnOk result (Makes (transform plane x y tx_type) maker.old maker.new) }
{
    let count = (maker.draw() % 4) as usize;
    let levels = draw_levels(alloc, maker, count)?;
    maker.add_step(TileStep::Coeffs {
        plane,
        x,
        y,
        tx_type,
        answer: Levels { levels },
    })
}

// The type that a chroma mode implies, where transforms of a block of this size have it in chroma, whose sides are halved.
#[tactic(auto, unfolding(crate::specs::Blocks::chroma_type))]
fn chroma_type(size: BlockSize, mode: PredictionMode) -> TxType
    requires { prediction_mode_number mode < 13 }
    ensures { result ≡ chroma_type size mode }
{
    let halved = size.subsampled_size(1, 1).unwrap_or(size);
    let tx_type = uv_intra_mode_to_tx_type_context(mode);
    if get_tx_set(av1_get_coded_tx_size(halved.tx_size()), false, false).uses(tx_type) {
        tx_type
    } else {
        TxType::DCT_DCT
    }
}

// A transform block in each plane.
fn add_coefficients(
    alloc: Global,
    maker: &mut Maker,
    x: usize,
    y: usize,
    chroma: TxType,
) -> Result<(), OutOfMemory>
    ensures { OnOk result (Makes (coefficients x y chroma) maker.old maker.new) }
{
    add_transform(alloc, maker, 0, x, y, TxType::DCT_DCT)?;
    add_transform(alloc, maker, 1, x, y, chroma)?;
    add_transform(alloc, maker, 2, x, y, chroma)
}

// What follows the modes of a block.
fn add_transforms(
    alloc: Global,
    maker: &mut Maker,
    x: usize,
    y: usize,
    size: BlockSize,
    skip: bool,
    chroma: PredictionMode,
) -> Result<(), OutOfMemory>
    requires { prediction_mode_number chroma < 13 }
    ensures { OnOk result (Makes (transforms x y size skip chroma) maker.old maker.new) }
{
    maker.add_step(TileStep::TxNote)?;
    if skip {
        Ok(())
    } else {
        add_coefficients(alloc, maker, x, y, chroma_type(size, chroma))
    }
}

/// Adds a block: whether it is skipped, its modes, and its transforms.
pub fn add_block(
    alloc: Global,
    maker: &mut Maker,
    x: usize,
    y: usize,
    size: BlockSize,
) -> Result<(), OutOfMemory>
    ensures { OnOk result (Makes (block x y size) maker.old maker.new) }
{
    maker.add_step(TileStep::Block { x, y, size })?;
    let skip = maker.draw() % 4 == 0;
    maker.add_step(TileStep::Skip { answer: skip })?;
    let luma = mode_of(maker.draw());
    add_mode(maker, false, luma)?;
    let chroma = mode_of(maker.draw());
    add_mode(maker, true, chroma)?;
    add_transforms(alloc, maker, x, y, size, skip, chroma)
}
