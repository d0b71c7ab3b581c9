// What a block refers to.
ghost use Rattle.std.specs.Prelude.{◌≡◌, ◌<◌, ◌≤◌, ◌+◌, ◌↔◌, IsTrue, IsSome, IfSome};
ghost use Rattle.av1_geometry.specs.RefType.{reference_number, reference_of};

/// What a block refers to: its own frame, one of seven references, or nothing.
#[derive(Clone, Copy, Debug, PartialEq, Eq)]
pub enum RefType {
    INTRA_FRAME,
    LAST_FRAME,
    LAST2_FRAME,
    LAST3_FRAME,
    GOLDEN_FRAME,
    BWDREF_FRAME,
    ALTREF2_FRAME,
    ALTREF_FRAME,
    NONE_FRAME,
}

/// All values by their numbers.
const ALL_REFERENCES: [RefType; 9] = [
    RefType::INTRA_FRAME,
    RefType::LAST_FRAME,
    RefType::LAST2_FRAME,
    RefType::LAST3_FRAME,
    RefType::GOLDEN_FRAME,
    RefType::BWDREF_FRAME,
    RefType::ALTREF2_FRAME,
    RefType::ALTREF_FRAME,
    RefType::NONE_FRAME,
];

impl RefType {
    /// The place of the value in the order of the enum.
    pub fn number(self) -> usize
        ensures value { result ≡ reference_number self }
        ensures bound { result < 9 }
    {
        self as usize
    }

    /// The value whose number this is.
    #[tactic(auto, using(crate::proofs::Numbers::reference_numbered))]
    pub fn from_number(number: usize) -> Option<RefType>
        ensures listed { result ≡ reference_of number }
        ensures found { IsSome result ↔ (number < 9) }
        ensures value { IfSome result (λ value. reference_number value ≡ number) }
    {
        if number < 9 {
            Some(ALL_REFERENCES[number])
        } else {
            None
        }
    }

    /// Whether the reference lies ahead in display order, or is none.
    pub fn is_bwd_ref(self) -> bool
        ensures { IsTrue result ↔ (5 ≤ reference_number self) }
    {
        self.number() >= 5
    }

    /// The place among the seven references of a frame.
    pub fn to_index(self) -> usize
        requires first { 1 ≤ reference_number self }
        requires last { reference_number self ≤ 7 }
        ensures value { result + 1 ≡ reference_number self }
        ensures bound { result < 7 }
    {
        self.number() - 1
    }
}
