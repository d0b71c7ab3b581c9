// A symbol by a CDF of a context, which learns from it.
ghost use Rattle.std.specs.Prelude.{◌<◌, [], ◌∷◌};
ghost use Rattle.av1_cdf.specs.Context.{contents};
ghost use Rattle.av1_cdf.specs.Slots.{slot_of};
ghost use Rattle.av1_model.specs.Cdf.{IsCdf, token_of};
ghost use Rattle.av1_ec.specs.Storing.{HasBits, Learns};

use crate::cdf::update_cdf;
use crate::storage::StorageBackend;
use crate::symbol::store_symbol;
use av1_cdf::{CDFContext, CDFContextLog, CDFOffset};
use av1_geometry::OutOfMemory;

// Stores symbol `s`, and lets its CDF learn from it.
#[inline(always)]
pub(crate) fn store_and_adapt<W: StorageBackend>(
    w: &mut W,
    s: u32,
    cdf: CDFOffset,
    log: &mut CDFContextLog,
    fc: &mut CDFContext,
) -> Result<(), OutOfMemory>
    requires cdf { IsCdf (contents fc.old (slot_of cdf)) }
    requires s { s < cdf.len }
    requires shift { HasBits W.Known w.old (token_of (contents fc.old (slot_of cdf)) s ∷ []) }
    ensures { Learns W.Known (slot_of cdf) s result w.old w.new log.old log.new fc.old fc.new }
{
    log.ready_for(cdf)?;
    store_symbol(w, s, fc.values_of(cdf))?;
    update_cdf(fc.push(log, cdf), s);
    Ok(())
}
