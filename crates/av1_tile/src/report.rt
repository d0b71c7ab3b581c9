// What is told of a tile.

/// A tile's length.
#[derive(Clone, Copy, Debug, PartialEq, Eq)]
pub struct TileReport {
    /// How many bytes the tile has.
    pub bytes: u32,

    /// How many bits its symbols need, rounded up: the bytes hold these, and zeros.
    pub bits: u32,
}

/// What a trial cost.
#[derive(Clone, Copy, Debug, PartialEq, Eq)]
pub struct TrialCost {
    /// The number of the tile.
    pub tile: u32,

    /// The place of the trial's beginning in the script.
    pub item: usize,

    /// How much the tile grew from the beginning to the end of the trial, in eighths of a bit.
    pub eighths: u32,

    /// Whether the trial was kept.
    pub kept: bool,
}
