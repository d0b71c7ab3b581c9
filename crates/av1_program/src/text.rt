// The text that tells a unit's bytes and its report.
ghost use Rattle.std.specs.Prelude.{◌≡◌, ◌++◌, ◌+◌, ◌*◌, ◌^◌, ◌<◌, if◌then◌else◌, IfOk, OnOk, string_bytes};
ghost use Rattle.av1_program.specs.Text.{abandoned_cost, kept_cost, made_line, tile_line, trial_end, trial_line};
ghost use Rattle.av1_program.specs.Text.{tile_lines, trial_lines, trials_line, report_text, summary, unit_text, weighted};

use av1_geometry::OutOfMemory;
use av1_unit::{Report, TileReport, TrialCost};
use std::alloc::Global;

#[tactic(auto, unfolding(crate::specs::Text::tile_line))]
fn add_tile(text: &mut String, number: usize, tile: &TileReport) -> Result<(), OutOfMemory>
    ensures { OnOk result (string_bytes text.new ≡ string_bytes text.old ++ tile_line number tile.now) }
{
    writeln!(text, "tile {number} {} {}", tile.bytes, tile.bits)?;
    Ok(())
}

#[tactic(auto, unfolding(crate::specs::Text::trial_end))]
fn trial_end(kept: bool) -> &'static str
    ensures { result.now ≡ trial_end kept }
{
    if kept { "kept" } else { "abandoned" }
}

#[tactic(auto, unfolding(crate::specs::Text::trial_line))]
fn add_trial(text: &mut String, trial: &TrialCost) -> Result<(), OutOfMemory>
    ensures { OnOk result (string_bytes text.new ≡ string_bytes text.old ++ trial_line trial.now) }
{
    let end = trial_end(trial.kept);
    writeln!(
        text,
        "trial {} {} {} {end}",
        trial.tile, trial.item, trial.eighths
    )?;
    Ok(())
}

fn add_tiles(text: &mut String, tiles: &[TileReport]) -> Result<(), OutOfMemory>
    ensures { OnOk result (string_bytes text.new ≡ string_bytes text.old ++ tile_lines tiles.now) }
{
    for (number, tile) in tiles.iter().enumerate() {
        add_tile(text, number, tile)?;
    }
    Ok(())
}

fn add_trials(text: &mut String, trials: &[TrialCost]) -> Result<(), OutOfMemory>
    ensures { OnOk result (string_bytes text.new ≡ string_bytes text.old ++ trial_lines trials.now) }
{
    for trial in trials {
        add_trial(text, trial)?;
    }
    Ok(())
}

/// A line `tile N BYTES BITS` for each tile, and a line `trial TILE ITEM EIGHTHS kept` or `.. abandoned` for each trial.
pub fn report_text(alloc: Global, report: &Report) -> Result<String, OutOfMemory>
    ensures { IfOk result (λ text. string_bytes text ≡ report_text report.now) }
{
    let mut text = String::new(alloc);
    add_tiles(&mut text, &report.tiles)?;
    add_trials(&mut text, &report.trials)?;
    Ok(text)
}

/// The bytes in lower-case hex digits on a line, a line `tile N BYTES BITS` for each tile, and a line
/// `trial TILE ITEM EIGHTHS kept` or `.. abandoned` for each trial.
pub fn unit_text(alloc: Global, bytes: &[u8], report: &Report) -> Result<String, OutOfMemory>
    ensures { IfOk result (λ text. string_bytes text ≡ unit_text bytes.now report.now) }
{
    let mut text = hex::encode(alloc, bytes)?;
    text.push('\n')?;
    add_tiles(&mut text, &report.tiles)?;
    add_trials(&mut text, &report.trials)?;
    Ok(text)
}

// A byte times its place from 1 on.
fn weight(place: usize, byte: u8) -> u128
    ensures value { result ≡ (place + 1) * byte }
    ensures most { result < 2 ^ 80 }
{
    (place as u128 + 1) * byte as u128
}

// Each byte times its place from 1 on, all together, of which 16 bits are told.
fn weighted(bytes: &[u8]) -> u32
    ensures { result ≡ weighted bytes.now }
{
    let mut sum = 0;
    for (place, byte) in bytes.iter().enumerate() {
        sum = (sum + weight(place, *byte)) % 65536;
    }
    sum as u32
}

// What a trial cost, if it was kept.
fn kept_eighths(trial: &TrialCost) -> u32
    ensures { result ≡ (if trial.now.kept then trial.now.eighths else 0) }
{
    if trial.kept { trial.eighths } else { 0 }
}

// What the kept trials cost together.
fn kept_cost(trials: &[TrialCost]) -> u128
    ensures { result ≡ kept_cost trials.now }
{
    let mut sum = 0;
    for trial in trials {
        sum += kept_eighths(trial) as u128;
    }
    sum
}

// What a trial cost, if it was given up.
fn abandoned_eighths(trial: &TrialCost) -> u32
    ensures { result ≡ (if trial.now.kept then 0 else trial.now.eighths) }
{
    if trial.kept { 0 } else { trial.eighths }
}

// What those cost together that were given up.
fn abandoned_cost(trials: &[TrialCost]) -> u128
    ensures { result ≡ abandoned_cost trials.now }
{
    let mut sum = 0;
    for trial in trials {
        sum += abandoned_eighths(trial) as u128;
    }
    sum
}

#[tactic(auto, unfolding(crate::specs::Text::made_line))]
fn made_line(alloc: Global, n: u32, bytes: &[u8]) -> Result<String, OutOfMemory>
    ensures { IfOk result (λ text. string_bytes text ≡ made_line n bytes.now) }
{
    let (count, sum) = (bytes.len(), weighted(bytes));
    Ok(format!(in alloc; "make {n} {count} {sum}\n")?)
}

#[tactic(auto, unfolding(crate::specs::Text::trials_line))]
fn add_costs(text: &mut String, trials: &[TrialCost]) -> Result<(), OutOfMemory>
    ensures { OnOk result (string_bytes text.new ≡ string_bytes text.old ++ trials_line trials.now) }
{
    let (count, kept, abandoned) = (trials.len(), kept_cost(trials), abandoned_cost(trials));
    writeln!(text, "trials {count} {kept} {abandoned}")?;
    Ok(())
}

/// A line `make N BYTES SUM` with the sum of each byte times its place from 1 on, modulo 65536, a line `tile N BYTES BITS` for each
/// tile, and a line `trials COUNT KEPT ABANDONED` with the eighths of all kept trials and of those that were given up.
pub fn summary(alloc: Global, n: u32, bytes: &[u8], report: &Report) -> Result<String, OutOfMemory>
    ensures { IfOk result (λ text. string_bytes text ≡ summary n bytes.now report.now) }
{
    let mut text = made_line(alloc, n, bytes)?;
    add_tiles(&mut text, &report.tiles)?;
    add_costs(&mut text, &report.trials)?;
    Ok(text)
}
