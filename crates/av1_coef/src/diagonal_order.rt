// The diagonal order of every size, which keeps what a context of any class reads for later.
ghost use Rattle.std.specs.Prelude.{◌≡◌, ◌*◌, ◌<◌, ◌≤◌, IfOk, IsTrue};
ghost use Rattle.av1_geometry.specs.declared.tx_size.TxSize.{TxSize};
ghost use Rattle.av1_geometry.specs.declared.tx_type.TxClass.{TxClass};
ghost use Rattle.av1_coef.specs.Contexts.{coded_width, coded_height};
ghost use Rattle.av1_coef.specs.Diagonal.{IsDiagonal, AreDiagonal, diagonal_scans};
ghost use Rattle.av1_coef.specs.Scans.{AreScans, of_each, scan_of};

use crate::scans::{Scan, Scans, TX_SIZES};
use av1_geometry::{OutOfMemory, TxSize, av1_get_coded_tx_size};
use std::alloc::Global;

// The positions of a block by rising column and row together, then by rising column.
fn diagonal_positions(alloc: Global, w: usize, h: usize) -> Result<Vec<u16>, OutOfMemory>
    requires width { w ≤ 32 }
    requires height { h ≤ 32 }
    requires some { 0 < h }
    ensures { IfOk result (λ v. IsDiagonal w h v.items) }
{
    let mut positions = Vec::with_capacity(alloc, w * h)?;
    for line in 0..w + h - 1 {
        for col in 0..w {
            if col <= line && line - col < h {
                positions.push((col * h + (line - col)) as u16)?;
            }
        }
    }
    Ok(positions)
}

// The same scan for each class of a size.
fn diagonal_of_size(alloc: Global, tx_size: TxSize) -> Result<Vec<Scan>, OutOfMemory>
    ensures { IfOk result (λ v. AreDiagonal tx_size v.items) }
{
    let coded = av1_get_coded_tx_size(tx_size);
    let mut scans = Vec::with_capacity(alloc, 3)?;
    while scans.len() < 3 {
        let positions = diagonal_positions(alloc, coded.width(), coded.height())?;
        scans.push(Scan { positions })?;
    }
    Ok(scans)
}

/// For each size and class its positions by rising column and row together, then by rising column.
pub fn diagonal(alloc: Global) -> Result<Scans, OutOfMemory>
    ensures value { IfOk result (λ s. s ≡ diagonal_scans) }
    ensures each { IfOk result (λ s. IsTrue (of_each s)) }
    ensures diagonal { IfOk result (λ s. (size : TxSize) (class : TxClass) → IsDiagonal (coded_width size) (coded_height size) (scan_of s size class)) }
    ensures passes { IfOk result (λ s. AreScans s) }
{
    let mut scans = Vec::with_capacity(alloc, TxSize::TX_SIZES_ALL)?;
    for tx_size in &TX_SIZES {
        scans.push(diagonal_of_size(alloc, *tx_size)?)?;
    }
    Ok(Scans { scans })
}
