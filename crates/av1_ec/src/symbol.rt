// A symbol by a distribution.
ghost use Rattle.std.specs.Prelude.{◌<◌, [], ◌∷◌, length};
ghost use Rattle.av1_model.specs.Cdf.{IsCdf, token_of};
ghost use Rattle.av1_ec.specs.Storing.{HasBits, StoresAll};

use crate::storage::StorageBackend;
use crate::writer_base::{first_token, later_token};
use av1_geometry::OutOfMemory;

// Stores symbol `s`. The first symbol has a store of its own, so that neither store has to find out which one it is.
#[inline(always)]
pub(crate) fn store_symbol<W: StorageBackend>(
    w: &mut W,
    s: u32,
    cdf: &[u16],
) -> Result<(), OutOfMemory>
    requires cdf { IsCdf cdf.now }
    requires s { s < length cdf.now }
    requires shift { HasBits W.Known w.old (token_of cdf.now s ∷ []) }
    ensures { StoresAll W.Known 1 (token_of cdf.now s ∷ []) result w.old w.new }
{
    if s == 0 {
        let (fl, fh, nms) = first_token(cdf);
        w.store(fl, fh, nms)
    } else {
        let (fl, fh, nms) = later_token(s as usize, cdf);
        w.store(fl, fh, nms)
    }
}
