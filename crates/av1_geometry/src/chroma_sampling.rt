// The planes of a frame.
ghost use Rattle.std.specs.Prelude.{◌≡◌, ◌<◌, ◌↔◌, IsTrue, IsSome, IfSome};
ghost use Rattle.av1_geometry.specs.ChromaSampling.{chroma_sampling_number, chroma_sampling_of, xdec_of};
ghost use Rattle.av1_geometry.specs.ChromaSampling.{ydec_of, planes_of, pixel_range_number, pixel_range_of};

/// How chroma is sampled against luma.
#[derive(Clone, Copy, Debug, PartialEq, Eq)]
pub enum ChromaSampling {
    Cs420,
    Cs422,
    Cs444,
    Cs400,
}

/// All values by their numbers.
const ALL_SAMPLINGS: [ChromaSampling; 4] = [
    ChromaSampling::Cs420,
    ChromaSampling::Cs422,
    ChromaSampling::Cs444,
    ChromaSampling::Cs400,
];

impl ChromaSampling {
    /// The place of the value in the order of the enum.
    pub fn number(self) -> usize
        ensures value { result ≡ chroma_sampling_number self }
        ensures bound { result < 4 }
    {
        self as usize
    }

    /// The value whose number this is.
    #[tactic(auto, using(crate::proofs::Numbers::chroma_sampling_numbered))]
    pub fn from_number(number: usize) -> Option<ChromaSampling>
        ensures listed { result ≡ chroma_sampling_of number }
        ensures found { IsSome result ↔ (number < 4) }
        ensures value { IfSome result (λ value. chroma_sampling_number value ≡ number) }
    {
        if number < 4 {
            Some(ALL_SAMPLINGS[number])
        } else {
            None
        }
    }

    /// The halvings of the width of a chroma plane against luma.
    pub fn xdec(self) -> usize
        ensures { result ≡ xdec_of self }
    {
        match self {
            ChromaSampling::Cs420 | ChromaSampling::Cs422 => 1,
            ChromaSampling::Cs444 | ChromaSampling::Cs400 => 0,
        }
    }

    /// The halvings of the height of a chroma plane against luma.
    pub fn ydec(self) -> usize
        ensures { result ≡ ydec_of self }
    {
        match self {
            ChromaSampling::Cs420 => 1,
            ChromaSampling::Cs422 | ChromaSampling::Cs444 | ChromaSampling::Cs400 => 0,
        }
    }

    /// The number of planes.
    pub fn planes(self) -> usize
        ensures { result ≡ planes_of self }
    {
        match self {
            ChromaSampling::Cs400 => 1,
            ChromaSampling::Cs420 | ChromaSampling::Cs422 | ChromaSampling::Cs444 => 3,
        }
    }
}

/// Whether samples use the whole range of their numbers.
#[derive(Clone, Copy, Debug, PartialEq, Eq)]
pub enum PixelRange {
    Limited,
    Full,
}

/// All values by their numbers.
const ALL_PIXEL_RANGES: [PixelRange; 2] = [PixelRange::Limited, PixelRange::Full];

impl PixelRange {
    /// The place of the value in the order of the enum.
    pub fn number(self) -> usize
        ensures value { result ≡ pixel_range_number self }
        ensures bound { result < 2 }
    {
        self as usize
    }

    /// The value whose number this is.
    #[tactic(auto, using(crate::proofs::Numbers::pixel_range_numbered))]
    pub fn from_number(number: usize) -> Option<PixelRange>
        ensures listed { result ≡ pixel_range_of number }
        ensures found { IsSome result ↔ (number < 2) }
        ensures value { IfSome result (λ value. pixel_range_number value ≡ number) }
    {
        if number < 2 {
            Some(ALL_PIXEL_RANGES[number])
        } else {
            None
        }
    }
}
