// Filters of loop restoration, where all symbols are equally likely at first.
ghost use Rattle.std.specs.Prelude.{◌≡◌, ◌≤◌, true};
ghost use Rattle.av1_syntax.specs.Restoration.{plane_at, starting, IsFilterOf, IsCounted};

use crate::fresh::{ends, fresh};
use av1_ec::WriterEncoder;
use av1_geometry::{RESTORE_SGRPROJ, RESTORE_SWITCHABLE};
use av1_syntax::{RestorationFilter, RestorationPlane, TileRestorationState, law_of_restoration};
use std::test::Fail;

// A tile whose planes have filters of a type.
fn tile(lrf_type: u8) -> TileRestorationState
    ensures { plane_at result 0 ≡ starting lrf_type }
{
    TileRestorationState {
        planes: [RestorationPlane::new(lrf_type); 3],
    }
}

// A self-guided filter that has no second pass.
fn set_14() -> RestorationFilter
    ensures coded { IsFilterOf 3 true result }
    ensures counted { IsCounted result }
{
    RestorationFilter::Sgrproj {
        set: 14,
        xqd: [-32, 95],
    }
}

#[test]
fn no_filter(rt: HostRuntime) -> Result<(), Fail> {
    law_of_restoration();
    let mut cw = fresh(rt.alloc(), 2, 2)?;
    let mut w = WriterEncoder::new(rt.alloc());
    let mut rs = tile(RESTORE_SGRPROJ);
    cw.write_lrf(&mut w, &mut rs, 0, RestorationFilter::None)?;
    ends(w, 3, &[0x20])
}

#[test]
fn a_self_guided_filter(rt: HostRuntime) -> Result<(), Fail> {
    law_of_restoration();
    let mut cw = fresh(rt.alloc(), 2, 2)?;
    let mut w = WriterEncoder::new(rt.alloc());
    let mut rs = tile(RESTORE_SGRPROJ);
    cw.write_lrf(&mut w, &mut rs, 0, set_14())?;
    assert_eq!(rt; rs.planes[0].sgrproj_ref, [-32, 95]);
    ends(w, 11, &[0xf0, 0x20])
}

#[test]
fn what_filters_take(rt: HostRuntime) -> Result<(), Fail> {
    law_of_restoration();
    let cw = fresh(rt.alloc(), 2, 2)?;
    let w = WriterEncoder::new(rt.alloc());
    let rs = tile(RESTORE_SWITCHABLE);
    assert_eq!(rt; cw.count_lrf_switchable(&w, &rs, set_14(), 0), 85);
    assert_eq!(rt;
        cw.count_lrf_switchable(&w, &rs, RestorationFilter::None, 0),
        13
    );
    Ok(())
}
