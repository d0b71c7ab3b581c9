// Kinds of frames, of references and of global motion.
ghost use Rattle.std.specs.Prelude.{◌≡◌, ◌<◌, ◌↔◌, IsSome, IfSome};
ghost use Rattle.av1_geometry.specs.FrameType.{frame_type_number, frame_type_of, reference_mode_number};
ghost use Rattle.av1_geometry.specs.FrameType.{reference_mode_of, global_mv_mode_number, global_mv_mode_of};

/// The kind of a frame.
#[derive(Clone, Copy, Debug, PartialEq, Eq)]
pub enum FrameType {
    KEY,
    INTER,
    INTRA_ONLY,
    SWITCH,
}

/// All values by their numbers.
const ALL_FRAME_TYPES: [FrameType; 4] = [
    FrameType::KEY,
    FrameType::INTER,
    FrameType::INTRA_ONLY,
    FrameType::SWITCH,
];

impl FrameType {
    /// The place of the value in the order of the enum.
    pub fn number(self) -> usize
        ensures value { result ≡ frame_type_number self }
        ensures bound { result < 4 }
    {
        self as usize
    }

    /// The value whose number this is.
    #[tactic(auto, using(crate::proofs::Numbers::frame_type_numbered))]
    pub fn from_number(number: usize) -> Option<FrameType>
        ensures listed { result ≡ frame_type_of number }
        ensures found { IsSome result ↔ (number < 4) }
        ensures value { IfSome result (λ value. frame_type_number value ≡ number) }
    {
        if number < 4 {
            Some(ALL_FRAME_TYPES[number])
        } else {
            None
        }
    }
}

/// Whether the blocks of a frame have one reference, two, or choose.
#[derive(Clone, Copy, Debug, PartialEq, Eq)]
pub enum ReferenceMode {
    SINGLE,
    COMPOUND,
    SELECT,
}

/// All values by their numbers.
const ALL_REFERENCE_MODES: [ReferenceMode; 3] = [
    ReferenceMode::SINGLE,
    ReferenceMode::COMPOUND,
    ReferenceMode::SELECT,
];

impl ReferenceMode {
    /// The place of the value in the order of the enum.
    pub fn number(self) -> usize
        ensures value { result ≡ reference_mode_number self }
        ensures bound { result < 3 }
    {
        self as usize
    }

    /// The value whose number this is.
    #[tactic(auto, using(crate::proofs::Numbers::reference_mode_numbered))]
    pub fn from_number(number: usize) -> Option<ReferenceMode>
        ensures listed { result ≡ reference_mode_of number }
        ensures found { IsSome result ↔ (number < 3) }
        ensures value { IfSome result (λ value. reference_mode_number value ≡ number) }
    {
        if number < 3 {
            Some(ALL_REFERENCE_MODES[number])
        } else {
            None
        }
    }
}

/// The kind of motion of a whole frame.
#[derive(Clone, Copy, Debug, PartialEq, Eq)]
pub enum GlobalMVMode {
    IDENTITY,
    TRANSLATION,
    ROTZOOM,
    AFFINE,
}

/// All values by their numbers.
const ALL_GLOBAL_MV_MODES: [GlobalMVMode; 4] = [
    GlobalMVMode::IDENTITY,
    GlobalMVMode::TRANSLATION,
    GlobalMVMode::ROTZOOM,
    GlobalMVMode::AFFINE,
];

impl GlobalMVMode {
    /// The place of the value in the order of the enum.
    pub fn number(self) -> usize
        ensures value { result ≡ global_mv_mode_number self }
        ensures bound { result < 4 }
    {
        self as usize
    }

    /// The value whose number this is.
    #[tactic(auto, using(crate::proofs::Numbers::global_mv_mode_numbered))]
    pub fn from_number(number: usize) -> Option<GlobalMVMode>
        ensures listed { result ≡ global_mv_mode_of number }
        ensures found { IsSome result ↔ (number < 4) }
        ensures value { IfSome result (λ value. global_mv_mode_number value ≡ number) }
    {
        if number < 4 {
            Some(ALL_GLOBAL_MV_MODES[number])
        } else {
            None
        }
    }
}
