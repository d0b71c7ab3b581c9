// What is told of a unit that was written.
use av1_tile::{TileReport, TrialCost};
use std::marker::Model;

/// What each tile and each trial cost.
#[derive(Debug, Drop)]
pub struct Report {
    /// The tiles, in raster order.
    pub tiles: Vec<TileReport>,

    /// The trials of each tile in the order of their beginnings, tile by tile.
    pub trials: Vec<TrialCost>,
}

impl Model for Report {
    ghost use Rattle.av1_unit.specs.Report.{ReportLists};

    ghost Value = { ReportLists };

    ghost view = { λ r. record { tiles = r.tiles.items; trials = r.trials.items } };
}
