// What a unit says.
use crate::frames::frame;
use crate::items::one_item;
use crate::sequences::sequence;
use crate::states::{references, state};
use crate::told::Told;
use av1_cdf::Tables;
use av1_coef::{Scan, Scans};
use av1_frame::{Metadata, T35};
use av1_tile::{TileScript, Unit, Via};
use std::alloc::Global;
use std::test::Fail;

pub fn unit(alloc: Global, unit: &Unit, via: Via) -> Result<String, Fail> {
    let mut told = Told::new(alloc);
    tables(&mut told, &unit.tables)?;
    scans(&mut told, &unit.scans)?;
    headers(&mut told, unit)?;
    metadata(&mut told, &unit.metadata)?;
    ways(&mut told, unit, via)?;
    scripts(&mut told, &unit.scripts)?;
    Ok(told.text())
}

// How long each set is, and the numbers of those that are short.
fn tables(told: &mut Told, tables: &Tables) -> Result<(), Fail> {
    told.line::<u16>("tables", &[])?;
    for set in &tables.sets {
        told.values(&[set.len()])?;
    }
    for set in &tables.sets {
        if set.len() < 10 {
            told.line("set", set.as_slice())?;
        }
    }
    Ok(())
}

// How long each scan is, and the positions of those that are short.
fn scans(told: &mut Told, scans: &Scans) -> Result<(), Fail> {
    told.line("scans", &[scans.scans.len()])?;
    for of_size in &scans.scans {
        for scan in of_size {
            told.values(&[scan.positions.len()])?;
        }
    }
    for of_size in &scans.scans {
        short_scans(told, of_size)?;
    }
    Ok(())
}

fn short_scans(told: &mut Told, scans: &[Scan]) -> Result<(), Fail> {
    for scan in scans {
        if !scan.positions.is_empty() && scan.positions.len() < 17 {
            told.line("scan", scan.positions.as_slice())?;
        }
    }
    Ok(())
}

fn headers(told: &mut Told, unit: &Unit) -> Result<(), Fail> {
    sequence(told, &unit.fi.sequence)?;
    frame(told, &unit.fi)?;
    state(told, &unit.fs)?;
    references(told, &unit.refs)
}

fn metadata(told: &mut Told, all: &[Metadata]) -> Result<(), Fail> {
    for one in all {
        match one {
            Metadata::Cll => told.line("metadata", &["cll"])?,
            Metadata::Mdcv => told.line("metadata", &["mdcv"])?,
            Metadata::T35(m) => message(told, m)?,
        }
    }
    Ok(())
}

fn message(told: &mut Told, m: &T35) -> Result<(), Fail> {
    told.line("message", &[m.country_code, m.country_code_extension_byte])?;
    told.values(m.payload.as_slice())
}

fn ways(told: &mut Told, unit: &Unit, via: Via) -> Result<(), Fail> {
    told.line("delimiter", &[unit.delimiter])?;
    told.line("eob_by_coded", &[unit.eob_by_coded])?;
    match via {
        Via::Direct => told.line("via", &["direct"]),
        Via::Recorded => told.line("via", &["recorded"]),
    }
}

fn scripts(told: &mut Told, scripts: &[TileScript]) -> Result<(), Fail> {
    for script in scripts {
        told.line::<u16>("script", &[])?;
        for item in &script.items {
            one_item(told, item)?;
        }
    }
    Ok(())
}
