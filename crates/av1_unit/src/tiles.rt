// The tiles of a unit, coded one after another, or only counted.
ghost use Rattle.std.specs.Prelude.{◌≡◌, ◌^◌, ◌<◌, ◌++◌, [], ◌∷◌, length, slice_index_or, IfOk, OnOk};
ghost use Rattle.av1_step.specs.Given.{given_of};
ghost use Rattle.av1_tile.specs.TileBytes.{script_of, tile_report, wrong_in};
ghost use Rattle.av1_unit.specs.Checked.{IsChecked};
ghost use Rattle.av1_unit.specs.Coded.{numbered, told_of};
ghost use Rattle.av1_unit.specs.Findings.{FindsInRoom, scripts_wrong};
ghost use Rattle.av1_unit.specs.Tiles.{coded_of};
ghost use Rattle.av1_unit.specs.Plain.{plain};

use crate::Report;
use av1_ec::{Writer, WriterCounter};
use av1_geometry::OutOfMemory;
use av1_tile::{CodedTile, TileReport, Unit, UnitError, Via, code_by, code_tile};
use std::alloc::Global;
use std::marker::Model;

/// The bytes of tiles, in raster order.
#[derive(Drop)]
pub(crate) struct Tiles {
    tiles: Vec<Vec<u8>>,
}

impl Model for Tiles {
    ghost use Rattle.std.specs.Prelude.{ℕ, List, map};

    ghost Value = { List (List ℕ) };

    ghost view = { λ t. map (λ v. v.items) t.tiles.items };
}

impl Tiles {
    fn new(alloc: Global) -> Tiles
        ensures { result ≡ [] }
    {
        Tiles {
            tiles: Vec::new(alloc),
        }
    }

    fn push(&mut self, tile: Vec<u8>) -> Result<(), OutOfMemory>
        ensures { OnOk result (self.new ≡ self.old ++ tile.items ∷ []) }
    {
        self.tiles.push(tile)?;
        Ok(())
    }

    /// How many tiles there are.
    pub fn len(&self) -> usize
        ensures { result ≡ length self.now }
    {
        self.tiles.len()
    }

    /// The tile of this number.
    pub fn tile(&self, number: usize) -> &[u8]
        requires { number < length self.now }
        ensures { result.now ≡ slice_index_or self.now number [] }
    {
        &self.tiles[number]
    }
}

/// The tiles of a unit, and what is told of them.
#[derive(Drop)]
pub(crate) struct CodedTiles {
    tiles: Tiles,
    report: Report,
}

impl CodedTiles {
    fn new(alloc: Global) -> CodedTiles
        ensures { result ≡ record { tiles = []; report = record { tiles = []; trials = [] } } }
    {
        CodedTiles {
            tiles: Tiles::new(alloc),
            report: Report {
                tiles: Vec::new(alloc),
                trials: Vec::new(alloc),
            },
        }
    }

    // One tile more.
    fn push(&mut self, tile: CodedTile) -> Result<(), OutOfMemory>
        requires short { length tile.bytes.items < 2 ^ 32 }
        ensures tiles { OnOk result (self.new.tiles ≡ self.old.tiles ++ tile.bytes.items ∷ []) }
        ensures told { OnOk result (self.new.report.tiles ≡ self.old.report.tiles ++ record { bytes = length tile.bytes.items; bits = tile.bits } ∷ []) }
        ensures trials { OnOk result (self.new.report.trials ≡ self.old.report.trials ++ tile.trials.items) }
    {
        let bytes = tile.bytes.len() as u32;
        let bits = tile.bits;
        self.report.tiles.push(TileReport { bytes, bits })?;
        self.report.trials.extend_from_slice(&tile.trials)?;
        self.tiles.push(tile.bytes)
    }

    /// The bytes of the tiles.
    pub fn tiles(&self) -> &Tiles
        ensures { result.now ≡ self.now.tiles }
    {
        &self.tiles
    }

    /// What is told of the tiles.
    pub fn told(&self) -> &[TileReport]
        ensures { result.now ≡ self.now.report.tiles }
    {
        &self.report.tiles
    }

    /// The report of the unit.
    pub fn into_report(self) -> Report
        ensures { result ≡ self.report }
    {
        self.report
    }
}

/// Codes the scripts of a unit, one for each tile.
pub(crate) fn code_tiles(alloc: Global, unit: &Unit, via: Via) -> Result<CodedTiles, UnitError>
    requires { IsChecked (plain unit.now) }
    ensures coded { IfOk result (λ c. c ≡ coded_of (given_of unit.now) (numbered (plain unit.now))) }
    ensures found { FindsInRoom result (scripts_wrong (given_of unit.now) (numbered (plain unit.now))) }
{
    let mut coded = CodedTiles::new(alloc);
    for tile in 0..unit.scripts.len() {
        let one = code_tile(alloc, unit, tile, via)?;
        coded.push(one)?;
    }
    Ok(coded)
}

/// What is told of the tiles of a unit, by a counter: it makes no bytes.
pub(crate) fn count_tiles(alloc: Global, unit: &Unit) -> Result<Vec<TileReport>, UnitError>
    requires { IsChecked (plain unit.now) }
    ensures counted { IfOk result (λ v. v.items ≡ told_of (given_of unit.now) (numbered (plain unit.now))) }
    ensures found { FindsInRoom result (scripts_wrong (given_of unit.now) (numbered (plain unit.now))) }
{
    let mut told = Vec::new(alloc);
    for tile in 0..unit.scripts.len() {
        let one = count_one(alloc, unit, tile)?;
        add(&mut told, one)?;
    }
    Ok(told)
}

fn add(told: &mut Vec<TileReport>, tile: TileReport) -> Result<(), OutOfMemory>
    ensures { OnOk result (told.new.items ≡ told.old.items ++ tile ∷ []) }
{
    told.push(tile)?;
    Ok(())
}

// What is told of a tile, by a counter.
fn count_one(alloc: Global, unit: &Unit, tile: usize) -> Result<TileReport, UnitError>
    requires checked { IsChecked (plain unit.now) }
    requires tile { tile < length unit.now.scripts.items }
    ensures counted { IfOk result (λ r. r ≡ tile_report (given_of unit.now) tile (script_of unit.now tile)) }
    ensures found { FindsInRoom result (wrong_in (given_of unit.now) tile (script_of unit.now tile)) }
{
    let (counter, _) = code_by(alloc, unit, tile, WriterCounter::new())?;
    let bits = counter.tell();
    let bytes = bits.div_ceil(8);
    Ok(TileReport { bytes, bits })
}
