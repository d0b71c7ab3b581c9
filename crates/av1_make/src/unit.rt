// The unit that a number makes.
ghost use Rattle.std.specs.Prelude.{◌≡◌, ◌+◌, ◌*◌, ◌<◌, ◌≤◌, ◌^◌, [], ◌∷◌, IfOk};
ghost use Rattle.av1_step.specs.Given.{given_of};
ghost use Rattle.av1_make.specs.Unit.{made_given, made_height, made_script, made_width};

use crate::draws::Maker;
use crate::tree::{Area, add_superblocks};
use av1_cdf::Tables;
use av1_coef::diagonal;
use av1_frame::{FrameInvariants, FrameState, Sequence};
use av1_geometry::OutOfMemory;
use av1_tile::{Item, TileScript, Unit};
use std::alloc::Global;

fn made_width(n: u32) -> usize
    requires { n < 1000000 }
    ensures value { result ≡ made_width n }
    ensures least { 1 ≤ result }
    ensures most { result ≤ 1000 }
{
    (n as usize / 1000).max(1)
}

fn made_height(n: u32) -> usize
    ensures value { result ≡ made_height n }
    ensures least { 1 ≤ result }
    ensures most { result ≤ 1000 }
{
    (n as usize % 1000).max(1)
}

// All superblocks of the frame, by draws from the number.
#[tactic(auto, unfolding(crate::specs::Unit::made_script))]
fn made_items(alloc: Global, n: u32) -> Result<Vec<Item>, OutOfMemory>
    requires { n < 1000000 }
    ensures { IfOk result (λ items. items.items ≡ made_script n) }
{
    let (width, height) = (made_width(n), made_height(n));
    let area = Area {
        cols: 2 * width.div_ceil(8),
        rows: 2 * height.div_ceil(8),
    };
    let (across, down) = (width.div_ceil(64), height.div_ceil(64));
    let mut maker = Maker::new(alloc, n);
    add_superblocks(alloc, &mut maker, area, across, across * down)?;
    Ok(maker.items)
}

/// The unit that a number below 1,000,000 makes: a key frame in 4:2:0, n / 1000 samples wide and n modulo 1000 high, but at least 1, in one
/// tile. Each superblock is tried twice, with partitions, modes and coefficients that are drawn from the number on, and the second trial
/// is kept. All else of the unit is as where nothing is said of it.
#[tactic(auto, unfolding(crate::specs::Unit::made_given))]
pub fn make_unit(alloc: Global, n: u32) -> Result<Unit, OutOfMemory>
    requires { n < 1000000 }
    ensures given { IfOk result (λ unit. given_of unit ≡ made_given n) }
    ensures scripts { IfOk result (λ unit. unit.scripts.items ≡ made_script n ∷ []) }
{
    let mut scripts = Vec::new(alloc);
    scripts.push(TileScript {
        items: made_items(alloc, n)?,
    })?;
    Ok(Unit {
        tables: Tables::uniform(alloc)?,
        scans: diagonal(alloc)?,
        fi: FrameInvariants::new(Sequence::default(), made_width(n), made_height(n)),
        fs: FrameState::default(),
        refs: [None; 8],
        metadata: Vec::new(alloc),
        delimiter: true,
        eob_by_coded: false,
        scripts,
    })
}
