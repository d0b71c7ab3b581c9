// A candidate for a motion vector.
ghost use Rattle.std.specs.Prelude.{◌≡◌};
ghost use Rattle.av1_mvref.specs.Candidates.{same, same_mv};
ghost use Rattle.av1_mvref.specs.ExtraSearch.{wanted_of};

use av1_geometry::{MotionVector, RefType};

/// A vector, or a pair of vectors, that the neighbours of a block suggest, in units of 1/8 sample (rav1e's
/// `CandidateMV`).
#[derive(Clone, Copy, Debug, Default, PartialEq, Eq)]
pub struct CandidateMV {
    pub this_mv: MotionVector,
    /// The second vector of a pair; zero where one vector is looked for.
    pub comp_mv: MotionVector,
    /// How much of the block's surroundings suggests it, and 640 more where a near neighbour does.
    pub weight: u32,
}

// What is looked for: vectors of one reference, or pairs of vectors of two.
#[derive(Clone, Copy)]
pub(crate) struct Wanted {
    pub first: RefType,
    pub second: RefType,
    pub is_compound: bool,
}

impl Wanted {
    // What a block of these references looks for.
    pub(crate) fn of(ref_frames: [RefType; 2], is_compound: bool) -> Wanted
        ensures { result ≡ wanted_of ref_frames is_compound }
    {
        Wanted {
            first: ref_frames[0],
            second: ref_frames[1],
            is_compound,
        }
    }
}

impl CandidateMV {
    // Whether the vectors are the same.
    pub(crate) fn is_same(self, other: CandidateMV) -> bool
        ensures { result ≡ same self other }
    {
        self.this_mv.row == other.this_mv.row
            && self.this_mv.col == other.this_mv.col
            && self.comp_mv.row == other.comp_mv.row
            && self.comp_mv.col == other.comp_mv.col
    }

    // Whether its first vector is this one.
    pub(crate) fn has_vector(self, mv: MotionVector) -> bool
        ensures { result ≡ same_mv self.this_mv mv }
    {
        self.this_mv.row == mv.row && self.this_mv.col == mv.col
    }
}
