// Worked units on an 8x8 frame, and larger ones.
use crate::reader::PlainReader;
use crate::state::first_state;
use av1_bits::MemSink;
use av1_cdf::Tables;
use av1_coef::{Scans, diagonal};
use av1_ec::{Writer, WriterCounter, WriterEncoder};
use av1_geometry::{BlockOffset, BlockSize, ChromaSampling, OutOfMemory, Rule, TileBlockOffset};
use av1_unit::{
    ContentLight, FrameInvariants, FrameState, Item, Metadata, Place, Report, Sequence, StepFault,
    TileReport, TileScript, TileState, TileStep, Unit, UnitError, Via, check_step, count_tile,
    law_of_steps, unit_bytes, write_unit,
};
use av1_uses::cost_of_skip;
use std::alloc::{AllocError, Global};
use std::process::Abort;
use std::test::Fail;

/// The bytes before the tile of an 8x8 frame with a tile of one byte.
const HEAD: [u8; 16] = [
    0x12, 0x00, 0x0a, 0x05, 0x18, 0x08, 0xbf, 0x01, 0x10, 0x32, 0x06, 0x16, 0x40, 0x00, 0x00, 0x00,
];

fn block(x: usize, y: usize, size: BlockSize) -> Item {
    Item::Step(TileStep::Block { x, y, size })
}

fn skip(answer: bool) -> Item {
    Item::Step(TileStep::Skip { answer })
}

fn begin(x: usize, y: usize) -> Item {
    Item::Begin(TileBlockOffset(BlockOffset { x, y }))
}

// A still picture without chroma, in one tile.
fn unit(alloc: Global, side: usize, items: Vec<Item>) -> Result<Unit, Fail> {
    let mut unit = grey(alloc, side, side)?;
    unit.scripts.push(TileScript { items })?;
    Ok(unit)
}

// Scans that break no rule.
fn scans(alloc: Global) -> Result<Scans, Fail> {
    Ok(diagonal(alloc)?)
}

// The same of any sides, without scripts.
fn grey(alloc: Global, width: usize, height: usize) -> Result<Unit, Fail> {
    let mut sequence = Sequence::default();
    sequence.chroma_sampling = ChromaSampling::Cs400;
    Ok(Unit {
        tables: Tables::uniform(alloc)?,
        scans: scans(alloc)?,
        fi: FrameInvariants::new(sequence, width, height),
        fs: FrameState::default(),
        refs: [None; 8],
        metadata: Vec::new(alloc),
        delimiter: true,
        eob_by_coded: false,
        scripts: Vec::new(alloc),
    })
}

// So many scripts without items.
fn add_scripts(alloc: Global, unit: &mut Unit, count: usize) -> Result<(), Fail> {
    for _ in 0..count {
        let items = Vec::new(alloc);
        unit.scripts.push(TileScript { items })?;
    }
    Ok(())
}

fn written(alloc: Global, unit: &Unit) -> Result<(Vec<u8>, Report), UnitError> {
    unit_bytes(alloc, unit, Via::Direct)
}

fn sent(alloc: Global, out: &mut MemSink, unit: &Unit) -> Result<Report, UnitError> {
    write_unit(alloc, out, unit, Via::Direct)
}

// The steps that are not given up, by the lengths of what stood before each trial.
fn surviving(alloc: Global, items: &[Item]) -> Result<Vec<&TileStep>, AllocError> {
    let mut steps = Vec::new(alloc);
    let mut before = Vec::new(alloc);
    for item in items.iter() {
        match item {
            Item::Step(step) => steps.push(step)?,
            Item::Begin(_) => before.push(steps.len())?,
            Item::Keep => {
                before.pop();
            }
            Item::Abandon => steps.truncate(before.pop().unwrap_or(0)),
        }
    }
    Ok(steps)
}

// A plain reader takes each surviving flag back from the tile at the end of the bytes, and reads as many bits as are told.
fn reads_back(
    rt: &impl Abort,
    alloc: Global,
    unit: &Unit,
    bytes: &[u8],
    told: &TileReport,
) -> Result<(), Fail> {
    let Some(tile) = bytes.get(bytes.len().saturating_sub(told.bytes as usize)..) else {
        return Err("a short unit".into());
    };
    let mut reader = PlainReader::new(tile);
    let Some(script) = unit.scripts.first() else {
        return Err("no script".into());
    };
    for step in surviving(alloc, &script.items)?.iter() {
        let want = match step {
            TileStep::Skip { answer } => Some(*answer),
            _ => None,
        };
        assert_eq!(rt; reader.answer(step), want);
    }
    assert_eq!(rt; reader.bits(), told.bits);
    Ok(())
}

#[test]
fn trials_may_lie_ten_thousand_deep(rt: HostRuntime) -> Result<(), Fail> {
    const DEPTH: usize = 10_000;
    let alloc = rt.alloc();
    let mut items = Vec::new(alloc);
    for _ in 0..DEPTH {
        items.push(begin(0, 0))?;
    }
    for _ in 0..DEPTH {
        items.push(Item::Keep)?;
    }
    let unit = unit(alloc, 8, items)?;
    let Ok((_, report)) = written(alloc, &unit) else {
        return Err("not written".into());
    };
    assert_eq!(rt; report.trials.len(), DEPTH);
    let mut begun = 0usize;
    for trial in report.trials.iter() {
        assert_eq!(rt; (trial.item, trial.eighths, trial.kept), (begun, 0, true));
        begun = begun.wrapping_add(1);
    }
    Ok(())
}

// Writes a step in which no fault is found, and tells whether it did.
fn step<W: Writer>(tile: &mut TileState, w: &mut W, step: &TileStep) -> Result<bool, OutOfMemory> {
    if let Some(_) = check_step(tile, w.tell(), step) {
        return Ok(false);
    }
    law_of_steps();
    tile.write_step(w, step)?;
    Ok(true)
}

#[test]
fn steps_are_checked_one_by_one(rt: HostRuntime) -> Result<(), Fail> {
    let alloc = rt.alloc();
    let unit = unit(alloc, 8, Vec::new(alloc))?;
    let tile = first_state(alloc, &unit)?;
    let block = TileStep::Block {
        x: 0,
        y: 0,
        size: BlockSize::BLOCK_8X8,
    };
    let skip = TileStep::Skip { answer: true };
    let too_long = Some(StepFault::TooLong);
    let broken = Some(StepFault::Broken(Rule(64)));
    for (bits, step, want) in [
        (268_435_457, &block, too_long),
        (268_435_456, &block, None),
        (1, &skip, broken),
    ] {
        assert_eq!(rt; check_step(&tile, bits, step), want);
    }
    Ok(())
}

#[test]
fn steps_are_written_one_by_one(rt: HostRuntime) -> Result<(), Fail> {
    let alloc = rt.alloc();
    let unit = unit(alloc, 8, Vec::new(alloc))?;
    let mut tile = first_state(alloc, &unit)?;
    let mut counter = WriterCounter::new();
    let block = TileStep::Block {
        x: 0,
        y: 0,
        size: BlockSize::BLOCK_8X8,
    };
    let skip = TileStep::Skip { answer: true };
    for each in [&block, &skip] {
        assert!(rt; step(&mut tile, &mut counter, each)?);
    }
    assert_eq!(rt; counter.tell(), 2);
    Ok(())
}

#[test]
fn a_flag_is_tried_and_leaves_no_trace(rt: HostRuntime) -> Result<(), Fail> {
    let alloc = rt.alloc();
    let unit = unit(alloc, 8, Vec::new(alloc))?;
    let mut tile = first_state(alloc, &unit)?;
    let mut w = WriterEncoder::new(alloc);
    let block = TileStep::Block {
        x: 0,
        y: 0,
        size: BlockSize::BLOCK_8X8,
    };
    assert!(rt; step(&mut tile, &mut w, &block)?);
    assert_eq!(rt; cost_of_skip(alloc, &mut tile, &mut w, false)?, Some(9));
    let skip = TileStep::Skip { answer: true };
    assert!(rt; step(&mut tile, &mut w, &skip)?);
    assert_eq!(rt; w.done()?.as_slice(), [0xc0].as_slice());
    Ok(())
}

// What is told of the first tile.
fn counted(alloc: Global, unit: &Unit) -> Result<Result<TileReport, UnitError>, Fail> {
    if unit.scripts.len() == 0 {
        return Err("no script".into());
    }
    Ok(count_tile(alloc, unit, 0))
}

// What is told of the tile of a row's items, or the error.
fn count_of(alloc: Global, row: &str) -> Result<String, Fail> {
    let unit = unit(alloc, 8, items(alloc, row)?)?;
    match counted(alloc, &unit)? {
        Ok(told) => Ok(format!(in alloc; "{} {}", told.bytes, told.bits)?),
        Err(error) => Ok(format!(in alloc; "{error:?}")?),
    }
}

#[test]
fn a_tile_is_counted(rt: HostRuntime) -> Result<(), Fail> {
    for (row, want) in [
        ("block 0 0 3,skip 0", "1 3"),
        (
            "skip 1",
            "Refused { place: Item { tile: 0, item: 0 }, rule: Rule(64) }",
        ),
    ] {
        assert_eq!(rt; count_of(rt.alloc(), row)?.as_str(), want);
    }
    Ok(())
}

#[test]
fn a_script_may_be_long(rt: HostRuntime) -> Result<(), Fail> {
    const FLAGS: usize = 100_000;
    let alloc = rt.alloc();
    let mut items = vec![in alloc; block(0, 0, BlockSize::BLOCK_8X8)]?;
    for n in 0..FLAGS {
        items.push(skip(n % 3 == 0))?;
    }
    let unit = unit(alloc, 8, items)?;
    let Ok((_, report)) = written(alloc, &unit) else {
        return Err("not written".into());
    };
    let Ok(told) = counted(alloc, &unit)? else {
        return Err("not counted".into());
    };
    assert_eq!(rt; report.tiles.as_slice(), [told].as_slice());
    Ok(())
}

// The bytes of a unit in hex digits, and its tiles; or the error.
fn told(alloc: Global, unit: &Unit) -> Result<String, Fail> {
    match written(alloc, unit) {
        Ok((bytes, report)) => {
            let mut text = hex::encode(alloc, &bytes)?;
            for tile in report.tiles.iter() {
                text = format!(in alloc; "{text} {} {}", tile.bytes, tile.bits)?;
            }
            Ok(text)
        }
        Err(error) => Ok(format!(in alloc; "{error:?}")?),
    }
}

#[test]
fn sides_of_64_are_written_in_six_bits(rt: HostRuntime) -> Result<(), Fail> {
    let unit = unit(rt.alloc(), 64, Vec::new(rt.alloc()))?;
    // the temporal delimiter, and the sequence header behind its OBU's header and length
    assert!(rt; told(rt.alloc(), &unit)?.starts_with("12000a0618157ffc044032"));
    Ok(())
}

// A still picture of two superblocks, each of which is a tile.
fn two_tiles(alloc: Global, scripts: usize) -> Result<Unit, Fail> {
    let mut unit = grey(alloc, 128, 64)?;
    unit.fi.tile_width_sb = 1;
    add_scripts(alloc, &mut unit, scripts)?;
    Ok(unit)
}

// A row is what a unit without items is, and what is told of it: two tiles are led by their sizes, metadata come before the frame,
// and a frame may learn nothing and have no delimiter. Tables are looked at first, scans behind them, and then the frame.
const UNITS: &str = "two scripts;12000a0618197ffe02203209186400000000008080 1 1 1 1
one script;Refused { place: Scripts, rule: Rule(55) }
no delimiter;0a051808bf01103206164000000080 1 1
no light;Refused { place: Metadata { index: 0 }, rule: Rule(50) }
light;12000a051808bf01102a060103e80190803206164000000080 1 1
no update;12000a051808bf01103206964000000080 1 1
short tables;Refused { place: Tables, rule: Rule(1) }
few scans;Refused { place: Scans, rule: Rule(4) }";

// Changes an empty unit to that of a row.
fn change(unit: &mut Unit, row: &str) -> Result<(), Fail> {
    match row {
        "no delimiter" => unit.delimiter = false,
        "no light" => unit.metadata.push(Metadata::Cll)?,
        "light" => {
            unit.metadata.push(Metadata::Cll)?;
            unit.fi.sequence.content_light = Some(ContentLight {
                max_content_light_level: 1000,
                max_frame_average_light_level: 400,
            });
        }
        "no update" => unit.fi.disable_cdf_update = true,
        "short tables" => {
            if let Some(set) = unit.tables.sets.last_mut() {
                set.truncate(5527);
            }
        }
        "few scans" => unit.scans.scans.truncate(18),
        _ => {}
    }
    Ok(())
}

// The unit of a row: a frame of 8x8, two tiles, or no frame that is valid, so that what is told comes before it.
fn unit_of(alloc: Global, row: &str) -> Result<Unit, Fail> {
    match row {
        "two scripts" => two_tiles(alloc, 2),
        "one script" => two_tiles(alloc, 1),
        "short tables" | "few scans" => unit(alloc, 0, Vec::new(alloc)),
        _ => unit(alloc, 8, Vec::new(alloc)),
    }
}

fn told_of(alloc: Global, row: &str) -> Result<String, Fail> {
    let mut unit = unit_of(alloc, row)?;
    change(&mut unit, row)?;
    told(alloc, &unit)
}

#[test]
fn units_without_items_are_told(rt: HostRuntime) -> Result<(), Fail> {
    for row in UNITS.lines() {
        let (name, want) = row.split_once(';').unwrap_or((row, ""));
        assert_eq!(rt; told_of(rt.alloc(), name)?.as_str(), want, "{row}");
    }
    Ok(())
}

#[test]
fn there_may_be_64_by_64_tiles(rt: HostRuntime) -> Result<(), Fail> {
    const TILES: usize = 4096;
    let alloc = rt.alloc();
    let mut unit = grey(alloc, 4096, 4096)?;
    unit.fi.tile_width_sb = 1;
    unit.fi.tile_height_sb = 1;
    add_scripts(alloc, &mut unit, TILES)?;
    let Ok((bytes, report)) = written(alloc, &unit) else {
        return Err("not written".into());
    };
    assert_eq!(rt; report.tiles.len(), TILES);
    // the last tiles, each with a size of 0 in one byte but for the last
    assert!(rt; bytes.ends_with(&[0x00, 0x80, 0x00, 0x80, 0x80]));
    Ok(())
}

// An 8x8 frame with no items, whose sets have this number at a place of the sets from one on.
fn tabled(alloc: Global, from: usize, place: usize, number: u16) -> Result<Unit, Fail> {
    let mut unit = unit(alloc, 8, Vec::new(alloc))?;
    for set in unit.tables.sets.iter_mut().skip(from) {
        if let Some(old) = set.get_mut(place) {
            *old = number;
        }
    }
    Ok(unit)
}

// Which rule of the tables an empty 8x8 frame with this number at a place of the sets from one on breaks first.
fn broken_table(alloc: Global, from: usize, place: usize, number: u16) -> Result<u16, Fail> {
    let unit = tabled(alloc, from, place, number)?;
    match written(alloc, &unit) {
        Err(
            UnitError::Refused {
                place: Place::Tables,
                rule,
            },
        ) => Ok(rule.0),
        Err(_) => Err("another error".into()),
        Ok(_) => Ok(0),
    }
}

#[test]
fn tables_are_looked_at_first(rt: HostRuntime) -> Result<(), Fail> {
    let alloc = rt.alloc();
    for (from, place, number, rule) in [
        // a number of `skip_cdfs`, padding, and a count
        (0, 410, 32768, 2),
        (0, 5404, 1, 2),
        (0, 411, 33, 2),
        (0, 411, 32, 0),
        (3, 410, 16000, 3),
        // a number of `dc_sign_cdf`
        (3, 50, 16000, 0),
    ] {
        assert_eq!(rt; broken_table(alloc, from, place, number)?, rule);
    }
    Ok(())
}

#[test]
fn a_plain_reader_takes_each_flag_back(rt: HostRuntime) -> Result<(), Fail> {
    let alloc = rt.alloc();
    for flags in 0u8..64 {
        let mut items = Vec::new(alloc);
        for (n, (x, y)) in [(0, 0), (1, 0), (0, 1), (1, 1), (0, 0), (1, 0)]
            .iter()
            .enumerate()
        {
            items.push(block(*x, *y, BlockSize::BLOCK_4X4))?;
            items.push(skip(flags >> n & 1 == 1))?;
        }
        let unit = unit(alloc, 8, items)?;
        let Ok((bytes, report)) = written(alloc, &unit) else {
            return Err("not written".into());
        };
        let Some(told) = report.tiles.first() else {
            return Err("no tile".into());
        };
        reads_back(&rt, alloc, &unit, &bytes, told)?;
    }
    Ok(())
}

#[test]
fn a_sink_that_fails_holds_a_beginning(rt: HostRuntime) -> Result<(), Fail> {
    let alloc = rt.alloc();
    let unit = unit(alloc, 8, Vec::new(alloc))?;
    let mut out = MemSink::new(alloc, 100, true, vec![in alloc; 3]?)?;
    match sent(alloc, &mut out, &unit) {
        Ok(_) => return Err("sent".into()),
        Err(error) => assert_eq!(rt; error, UnitError::SinkFault),
    }
    assert_eq!(rt; out.bytes(), [0x12, 0x00].as_slice());

    let mut out = MemSink::new(alloc, 100, true, vec![in alloc]?)?;
    match sent(alloc, &mut out, &unit) {
        Ok(report) => assert_eq!(rt; report.tiles.len(), 1),
        Err(_) => return Err("not sent".into()),
    }
    assert_eq!(rt; out.bytes().len(), 17);
    Ok(())
}

#[test]
fn errors_have_their_texts(rt: HostRuntime) -> Result<(), Fail> {
    let alloc = rt.alloc();
    let refused = UnitError::Refused {
        place: Place::Frame,
        rule: Rule(20),
    };
    for (error, text) in [
        (refused, "refused"),
        (UnitError::BadScript { tile: 0, item: 1 }, "bad script"),
        (
            UnitError::TooLong {
                place: Place::Frame,
            },
            "too long",
        ),
        (UnitError::SinkFault, "sink fault"),
        (UnitError::OutOfMemory, "out of memory"),
    ] {
        assert_eq!(rt; error.to_string(alloc)?.as_str(), text);
    }
    Ok(())
}

// A row is the side of the frame, its items, and what is answered: the tile, with its bits and the trials' costs, or the error.
const ROWS: &str = "8;;80 1
8;block 0 0 3,skip 1;c0 2
8;block 0 0 3,skip 0;20 3
8;block 0 0 0,skip 1,block 1 0 0,skip 0;a0 3
8;block 0 0 3,begin 0 0,skip 0,abandon,skip 1;c0 2 9-
8;block 0 0 3,begin 0 0,skip 1,skip 1,skip 1,abandon;80 1 22-
8;block 0 0 3,begin 0 0,skip 0,keep;20 3 9+
8;begin 0 0,keep,keep;BadScript { tile: 0, item: 2 }
8;abandon;BadScript { tile: 0, item: 0 }
8;begin 0 0;BadScript { tile: 0, item: 1 }
128;begin 0 0,block 16 0 3;BadScript { tile: 0, item: 1 }
128;begin 0 0,begin 16 0;BadScript { tile: 0, item: 1 }
128;block 16 0 3,begin 0 0,skip 1;BadScript { tile: 0, item: 2 }
8;skip 1;Refused { place: Item { tile: 0, item: 0 }, rule: Rule(64) }
8;block 0 0 3,block 9 0 3;Refused { place: Item { tile: 0, item: 1 }, rule: Rule(60) }
8;block 0 0 3,skip 0,block 0 2 0;Refused { place: Item { tile: 0, item: 2 }, rule: Rule(60) }
8;block 1 0 3;Refused { place: Item { tile: 0, item: 0 }, rule: Rule(61) }
8;block 0 0 15;Refused { place: Item { tile: 0, item: 0 }, rule: Rule(61) }
0;skip 1;Refused { place: Frame, rule: Rule(20) }
65537;;Refused { place: Frame, rule: Rule(20) }
16384;;Refused { place: Frame, rule: Rule(20) }
4160;;Refused { place: Frame, rule: Rule(34) }";

fn number(word: Option<&str>) -> Result<usize, Fail> {
    let Some(word) = word else {
        return Err("no number".into());
    };
    Ok(word.parse::<usize>()?)
}

fn item(text: &str) -> Result<Item, Fail> {
    let mut words = text.split_whitespace();
    match words.next().unwrap_or("") {
        "block" => {
            let (x, y) = (number(words.next())?, number(words.next())?);
            match BlockSize::from_number(number(words.next())?) {
                Some(size) => Ok(Item::Step(TileStep::Block { x, y, size })),
                None => Err("no size".into()),
            }
        }
        "skip" => Ok(Item::Step(TileStep::Skip {
            answer: number(words.next())? == 1,
        })),
        "begin" => {
            let (x, y) = (number(words.next())?, number(words.next())?);
            Ok(Item::Begin(TileBlockOffset(BlockOffset { x, y })))
        }
        "keep" => Ok(Item::Keep),
        _ => Ok(Item::Abandon),
    }
}

fn items(alloc: Global, text: &str) -> Result<Vec<Item>, Fail> {
    let mut all = Vec::new(alloc);
    for part in text.split(',') {
        if part != "" {
            all.push(item(part)?)?;
        }
    }
    Ok(all)
}

// What a unit of these items in a square frame is answered with.
fn answer(
    rt: &impl Abort,
    alloc: Global,
    side: usize,
    items: Vec<Item>,
    via: Via,
) -> Result<String, Fail> {
    let unit = unit(alloc, side, items)?;
    match unit_bytes(alloc, &unit, via) {
        Ok((bytes, report)) => {
            assert!(rt; bytes.starts_with(&HEAD));
            if let Some(told) = report.tiles.first() {
                reads_back(rt, alloc, &unit, &bytes, told)?;
            }
            let tile = bytes.last().copied().unwrap_or(0);
            let bits = report.tiles.first().map(|told| told.bits).unwrap_or(0);
            let mut text = format!(in alloc; "{tile:02x} {bits}")?;
            for trial in report.trials.iter() {
                let sign = if trial.kept { "+" } else { "-" };
                text = format!(in alloc; "{text} {}{sign}", trial.eighths)?;
            }
            Ok(text)
        }
        Err(error) => Ok(format!(in alloc; "{error:?}")?),
    }
}

#[test]
fn rows_are_answered(rt: HostRuntime) -> Result<(), Fail> {
    let alloc = rt.alloc();
    for row in ROWS.lines() {
        let mut parts = row.split(';');
        let side = number(parts.next())?;
        let script = parts.next().unwrap_or("");
        let want = parts.next().unwrap_or("");
        for via in [Via::Direct, Via::Recorded] {
            let items = items(alloc, script)?;
            assert_eq!(rt;
                answer(&rt, alloc, side, items, via)?.as_str(),
                want,
                "{row}"
            );
        }
    }
    Ok(())
}
