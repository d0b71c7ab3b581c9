// What the items of scripts say.
use crate::told::Told;
use av1_syntax::RestorationFilter;
use av1_tile::{Item, TileScript, TileStep};
use std::alloc::Global;
use std::test::Fail;

/// The items of all scripts.
pub fn items(alloc: Global, scripts: &[TileScript]) -> Result<String, Fail> {
    let mut told = Told::new(alloc);
    for script in scripts {
        for item in &script.items {
            one_item(&mut told, item)?;
        }
    }
    Ok(told.text())
}

pub fn one_item(told: &mut Told, item: &Item) -> Result<(), Fail> {
    match item {
        Item::Step(step) => one_step(told, step),
        Item::Begin(place) => told.line("Begin", &[place.0.x, place.0.y]),
        Item::Keep => told.line::<u16>("Keep", &[]),
        Item::Abandon => told.line::<u16>("Abandon", &[]),
    }
}

fn one_step(told: &mut Told, step: &TileStep) -> Result<(), Fail> {
    match step {
        TileStep::RowStart => told.line::<u16>("RowStart", &[]),
        TileStep::Block { x, y, size } => told.line("Block", &[*x, *y, size.number()]),
        TileStep::Partition { x, y, size, answer } => {
            told.line("Partition", &[*x, *y, size.number(), answer.number()])
        }
        TileStep::Skip { answer } => told.line("Skip", &[*answer]),
        TileStep::Segment { answer } => told.line("Segment", &[*answer]),
        TileStep::Cdef { answer } => told.line("Cdef", &[*answer]),
        TileStep::DeltaLf { answer } => told.line("DeltaLf", answer),
        TileStep::IntraModeKf { answer } => told.line("IntraModeKf", &[answer.number()]),
        TileStep::IntraMode { answer } => told.line("IntraMode", &[answer.number()]),
        TileStep::UvMode { answer } => told.line("UvMode", &[answer.number()]),
        TileStep::AngleDelta { chroma, answer } => {
            told.line("AngleDelta", &[*chroma])?;
            told.values(&[*answer])
        }
        TileStep::CflAlphas { answer } => told.line("CflAlphas", &[answer.0, answer.1]),
        TileStep::FilterIntra { answer } => told.line("FilterIntra", &[*answer]),
        TileStep::Palette { answer } => told.line("Palette", &[*answer]),
        TileStep::IsInter { answer } => told.line("IsInter", &[*answer]),
        TileStep::RefFrames { answer } => {
            told.line("RefFrames", &[answer.0.number(), answer.1.number()])
        }
        TileStep::MvRefs { has_tr } => told.line("MvRefs", &[*has_tr]),
        TileStep::InterMode { answer } => told.line("InterMode", &[answer.number()]),
        TileStep::CompoundMode { answer } => told.line("CompoundMode", &[answer.number()]),
        TileStep::Drl { index, answer } => {
            told.line("Drl", &[*index])?;
            told.values(&[*answer])
        }
        TileStep::Mv { list, answer } => {
            told.line("Mv", &[*list])?;
            told.values(&[answer.row, answer.col])
        }
        TileStep::TxNote => told.line::<u16>("TxNote", &[]),
        TileStep::TxIntra { answer } => told.line("TxIntra", &[answer.number()]),
        TileStep::TxInter { answer } => told.line("TxInter", &[*answer]),
        TileStep::Coeffs {
            plane,
            x,
            y,
            tx_type,
            answer,
        } => {
            told.line("Coeffs", &[*plane, *x, *y, tx_type.number()])?;
            told.values(answer.levels.as_slice())
        }
        TileStep::Lrf { plane, answer } => {
            told.line("Lrf", &[*plane])?;
            filter(told, answer)
        }
    }
}

fn filter(told: &mut Told, filter: &RestorationFilter) -> Result<(), Fail> {
    match filter {
        RestorationFilter::None => told.values(&["none"]),
        RestorationFilter::Wiener { coeffs } => {
            told.values(&["wiener"])?;
            told.values(&coeffs[0])?;
            told.values(&coeffs[1])
        }
        RestorationFilter::Sgrproj { set, xqd } => {
            told.values(&["set"])?;
            told.values(&[*set])?;
            told.values(&["xqd"])?;
            told.values(xqd)
        }
    }
}
