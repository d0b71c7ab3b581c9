// How a frame is cut into tiles.
ghost use Rattle.std.specs.Prelude.{◌≡◌, ◌-◌, ◌*◌, ◌^◌, ◌<◌, ◌≤◌};
ghost use Rattle.av1_frame.specs.Tiling.{least_log2, tiling, is_uniform, tallest_tile};

/// The tiles of a frame, and how many a header may say (`tile_info()`, AV1 specification 5.9.15).
///
/// Sides count superblocks of 64x64.
#[derive(Clone, Copy)]
pub struct TilingInfo {
    /// The frame's width.
    pub sb_width: usize,

    /// The frame's height.
    pub sb_height: usize,

    /// The width of a tile, the last of a row aside.
    pub tile_width_sb: usize,

    /// The height of a tile, the last of a column aside.
    pub tile_height_sb: usize,

    /// The number of columns of tiles.
    pub cols: usize,

    /// The number of rows of tiles.
    pub rows: usize,

    /// The logarithm of the number of columns, rounded up.
    pub tile_cols_log2: usize,

    /// The logarithm of the number of rows, rounded up.
    pub tile_rows_log2: usize,

    /// The least logarithm of columns at which no tile is wider than 64 superblocks.
    pub min_tile_cols_log2: usize,

    /// The logarithm of the most columns.
    pub max_tile_cols_log2: usize,

    /// The logarithm of the most rows.
    pub max_tile_rows_log2: usize,

    /// The least logarithm of tiles at which none has more than 2304 superblocks.
    pub min_tiles_log2: usize,

    /// The least logarithm of rows beside these columns.
    pub min_tile_rows_log2: usize,
}

/// The widest tile.
const MAX_TILE_WIDTH_SB: usize = 64;
/// The most superblocks of a tile.
const MAX_TILE_AREA_SB: usize = 2304;
/// The most columns of tiles, and the most rows.
const MAX_TILE_COUNT: usize = 64;

impl TilingInfo {
    /// The tiling of a frame into tiles of these sides. All sides are 1 to 1024.
    #[tactic(auto, unfolding(crate::specs::Tiling::tiling))]
    pub fn of(
        sb_width: usize,
        sb_height: usize,
        tile_width_sb: usize,
        tile_height_sb: usize,
    ) -> TilingInfo
        requires width { (1 ≤ sb_width) × (sb_width ≤ 1024) }
        requires height { (1 ≤ sb_height) × (sb_height ≤ 1024) }
        requires tile_width { (1 ≤ tile_width_sb) × (tile_width_sb ≤ 1024) }
        requires tile_height { (1 ≤ tile_height_sb) × (tile_height_sb ≤ 1024) }
        ensures value { result ≡ tiling sb_width sb_height tile_width_sb tile_height_sb }
        ensures width { (result.sb_width ≡ sb_width) × (result.tile_width_sb ≡ tile_width_sb) }
        ensures height { (result.sb_height ≡ sb_height) × (result.tile_height_sb ≡ tile_height_sb) }
        ensures cols { (result.cols ≤ 1024) × (result.tile_cols_log2 ≤ 20) }
        ensures rows { (result.rows ≤ 1024) × (result.tile_rows_log2 ≤ 20) }
        ensures fewest { result.min_tiles_log2 ≤ 20 }
    {
        let cols = sb_width.div_ceil(tile_width_sb);
        let rows = sb_height.div_ceil(tile_height_sb);
        let tile_cols_log2 = tile_log2(1, cols);
        let min_tile_cols_log2 = tile_log2(MAX_TILE_WIDTH_SB, sb_width);
        let min_tiles_log2 = min_tile_cols_log2.max(tile_log2(
            MAX_TILE_AREA_SB,
            sb_width * sb_height,
        ));
        TilingInfo {
            sb_width,
            sb_height,
            tile_width_sb,
            tile_height_sb,
            cols,
            rows,
            tile_cols_log2,
            tile_rows_log2: tile_log2(1, rows),
            min_tile_cols_log2,
            max_tile_cols_log2: tile_log2(1, sb_width.min(MAX_TILE_COUNT)),
            max_tile_rows_log2: tile_log2(1, sb_height.min(MAX_TILE_COUNT)),
            min_tiles_log2,
            min_tile_rows_log2: min_tiles_log2.saturating_sub(tile_cols_log2),
        }
    }

    /// Whether tiles are spaced evenly, so that a header says their numbers and not their sides (`uniform_tile_spacing_flag`).
    #[tactic(auto, unfolding(crate::specs::Tiling::is_uniform))]
    pub fn is_uniform(&self) -> bool
        requires cols { self.now.tile_cols_log2 ≤ 20 }
        requires rows { self.now.tile_rows_log2 ≤ 20 }
        ensures { result ≡ is_uniform self.now }
    {
        self.tile_width_sb == self.sb_width.div_ceil(1 << self.tile_cols_log2)
            && self.tile_height_sb == self.sb_height.div_ceil(1 << self.tile_rows_log2)
    }

    /// How tall a tile may be where tiles are not spaced evenly (`maxTileHeightSb`).
    #[tactic(auto, unfolding(crate::specs::Tiling::tallest_tile))]
    pub fn max_tile_height_sb(&self) -> usize
        requires width { self.now.sb_width ≤ 1024 }
        requires height { self.now.sb_height ≤ 1024 }
        requires tile_width { 1 ≤ self.now.tile_width_sb }
        requires fewest { self.now.min_tiles_log2 ≤ 20 }
        ensures value { result ≡ tallest_tile self.now }
        ensures some { 1 ≤ result }
    {
        let area = self.sb_width * self.sb_height;
        let most = if self.min_tiles_log2 == 0 {
            area
        } else {
            area >> (self.min_tiles_log2 + 1)
        };
        (most / self.tile_width_sb).max(1)
    }
}

/// The least `k` with `size << k` at least `target` (`tile_log2`, AV1 specification 5.9.16).
#[tactic(auto, unfolding(crate::specs::Tiling::least_log2))]
pub fn tile_log2(size: usize, target: usize) -> usize
    requires size { 1 ≤ size }
    requires target { target ≤ 2 ^ 20 }
    ensures value { result ≡ least_log2 size target }
    ensures reached { target ≤ size * 2 ^ result }
    ensures least { 1 ≤ result → size * 2 ^ (result - 1) < target }
    ensures bound { result ≤ 20 }
{
    let mut k = 0;
    let mut doubled = size;
    while doubled < target {
        doubled *= 2;
        k += 1;
    }
    k
}
