// What a unit says.
ghost use Rattle.std.specs.Prelude.{List};

use crate::step::TileStep;
use av1_cdf::Tables;
use av1_coef::Scans;
use av1_frame::{FrameInvariants, FrameState, Metadata, Refs};
use av1_geometry::TileBlockOffset;
use std::marker::Model;

/// One temporal unit: a frame, what its headers say, and what is coded in its tiles.
#[derive(Drop)]
pub struct Unit {
    /// What the distributions start from: four sets of 5528 numbers, for quantizers up to 20, 60, 120 and 255.
    pub tables: Tables,

    /// The orders of coefficients: for each of the 19 sizes of transforms, one for each class of types.
    pub scans: Scans,

    /// The sequence and the frame.
    pub fi: FrameInvariants,

    /// The state of the frame's filters and segments.
    pub fs: FrameState,

    /// What is kept of the eight reference frames.
    pub refs: Refs,

    /// The metadata, in order.
    pub metadata: Vec<Metadata>,

    /// Whether a temporal delimiter comes first.
    pub delimiter: bool,

    /// Whether the class of an end of coefficients goes by the coded size of the transform, as in the AV1 specification, and not
    /// by the whole, as in rav1e.
    pub eob_by_coded: bool,

    /// What is coded in each tile, in raster order.
    pub scripts: Vec<TileScript>,
}

/// The items of a tile, in coding order.
#[derive(Drop)]
pub struct TileScript {
    pub items: Vec<Item>,
}

impl Model for TileScript {
    ghost use Rattle.std.specs.Prelude.{List};
    ghost use Rattle.av1_step.specs.declared.unit.Item.{Item};

    ghost Value = { List Item };

    ghost view = { λ s. s.items.items };
}

/// One item of a script.
#[derive(Drop)]
pub enum Item {
    /// Something is coded, or becomes the current block.
    Step(TileStep),

    /// A trial begins at this place. What follows is tried, up to the item that ends the trial.
    Begin(TileBlockOffset),

    /// The innermost trial ends, and what was tried stays.
    Keep,

    /// The innermost trial ends, and what was tried is undone.
    Abandon,
}
