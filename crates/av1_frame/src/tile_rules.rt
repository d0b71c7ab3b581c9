// The rules of a frame's tiles.
ghost use Rattle.std.specs.Prelude.{◌≡◌, ◌≤◌, IsTrue};
ghost use Rattle.av1_geometry.specs.Rules.{first_broken};
ghost use Rattle.av1_frame.specs.TileRules.{tile_rules, tile_sides_fit, tiling_fits, superblocks};

use crate::frame::FrameInvariants;
use crate::state::FrameState;
use crate::tiling::TilingInfo;
use av1_geometry::Rule;

/// The most superblocks along the width of a tile.
const MAX_TILE_WIDTH_SB: usize = 64;
/// The most columns of tiles, and the most rows.
const MAX_TILE_COUNT: usize = 64;

// The first of the rules 34 and 35 that is broken.
#[tactic(auto, unfolding(crate::specs::TileRules::tile_rules))]
pub(crate) fn broken_tile_rule(fi: &FrameInvariants, fs: &FrameState) -> Option<Rule>
    requires width { (1 ≤ fi.now.width) × (fi.now.width ≤ 65536) }
    requires height { (1 ≤ fi.now.height) × (fi.now.height ≤ 65536) }
    ensures { result ≡ first_broken (tile_rules fi.now fs.now) }
{
    if !tile_sides_fit(fi) {
        return Some(Rule(34));
    }
    let tiling = TilingInfo::of(
        superblocks(fi.width),
        superblocks(fi.height),
        fi.tile_width_sb,
        fi.tile_height_sb,
    );
    if !tiling_fits(&tiling) {
        return Some(Rule(34));
    }
    if fs.context_update_tile_id >= tiling.cols * tiling.rows {
        return Some(Rule(35));
    }
    None
}

// How many superblocks a side has.
fn superblocks(side: usize) -> usize
    requires { (1 ≤ side) × (side ≤ 65536) }
    ensures value { result ≡ superblocks side }
    ensures some { 1 ≤ result }
    ensures few { result ≤ 1024 }
{
    side.div_ceil(64)
}

fn tile_sides_fit(fi: &FrameInvariants) -> bool
    requires width { (1 ≤ fi.now.width) × (fi.now.width ≤ 65536) }
    requires height { (1 ≤ fi.now.height) × (fi.now.height ≤ 65536) }
    ensures value { result ≡ tile_sides_fit fi.now }
    ensures width { IsTrue result → (1 ≤ fi.now.tile_width_sb) × (fi.now.tile_width_sb ≤ 1024) }
    ensures height { IsTrue result → (1 ≤ fi.now.tile_height_sb) × (fi.now.tile_height_sb ≤ 1024) }
{
    1 <= fi.tile_width_sb
        && fi.tile_width_sb <= superblocks(fi.width)
        && 1 <= fi.tile_height_sb
        && fi.tile_height_sb <= superblocks(fi.height)
        && fi.tile_width_sb <= MAX_TILE_WIDTH_SB
}

#[tactic(auto, unfolding(crate::specs::TileRules::tiling_fits))]
fn tiling_fits(t: &TilingInfo) -> bool
    requires width { (t.now.sb_width ≤ 1024) × (1 ≤ t.now.tile_width_sb) }
    requires height { t.now.sb_height ≤ 1024 }
    requires cols { t.now.tile_cols_log2 ≤ 20 }
    requires rows { t.now.tile_rows_log2 ≤ 20 }
    requires fewest { t.now.min_tiles_log2 ≤ 20 }
    ensures value { result ≡ tiling_fits t.now }
{
    t.cols <= MAX_TILE_COUNT
        && t.rows <= MAX_TILE_COUNT
        && if t.is_uniform() {
            t.min_tile_rows_log2 <= t.tile_rows_log2
        } else {
            t.tile_height_sb <= t.max_tile_height_sb()
        }
}
