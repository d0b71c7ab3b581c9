// The types of a transform and the sets of types of which one is coded.
ghost use Rattle.std.specs.Prelude.{◌≡◌, ◌<◌, ◌↔◌, IsSome, IfSome};
ghost use Rattle.av1_geometry.specs.TxType.{tx_type_number, tx_type_of, tx_set_number};

/// The type of a transform: the vertical one-dimensional transform, then the horizontal one (AV1 specification, "Transform type semantics").
#[derive(Clone, Copy, Debug, PartialEq, Eq)]
pub enum TxType {
    DCT_DCT,
    ADST_DCT,
    DCT_ADST,
    ADST_ADST,
    FLIPADST_DCT,
    DCT_FLIPADST,
    FLIPADST_FLIPADST,
    ADST_FLIPADST,
    FLIPADST_ADST,
    IDTX,
    V_DCT,
    H_DCT,
    V_ADST,
    H_ADST,
    V_FLIPADST,
    H_FLIPADST,
}

/// All values by their numbers.
pub(crate) const ALL_TX_TYPES: [TxType; 16] = [
    TxType::DCT_DCT,
    TxType::ADST_DCT,
    TxType::DCT_ADST,
    TxType::ADST_ADST,
    TxType::FLIPADST_DCT,
    TxType::DCT_FLIPADST,
    TxType::FLIPADST_FLIPADST,
    TxType::ADST_FLIPADST,
    TxType::FLIPADST_ADST,
    TxType::IDTX,
    TxType::V_DCT,
    TxType::H_DCT,
    TxType::V_ADST,
    TxType::H_ADST,
    TxType::V_FLIPADST,
    TxType::H_FLIPADST,
];

impl TxType {
    /// The place of the value in the order of the enum.
    pub fn number(self) -> usize
        ensures value { result ≡ tx_type_number self }
        ensures bound { result < 16 }
    {
        self as usize
    }

    /// The value whose number this is.
    #[tactic(auto, using(crate::proofs::Numbers::tx_type_numbered))]
    pub fn from_number(number: usize) -> Option<TxType>
        ensures listed { result ≡ tx_type_of number }
        ensures found { IsSome result ↔ (number < 16) }
        ensures value { IfSome result (λ value. tx_type_number value ≡ number) }
    {
        if number < 16 {
            Some(ALL_TX_TYPES[number])
        } else {
            None
        }
    }
}

/// The set of types of which one is coded.
#[derive(Clone, Copy, Debug, PartialEq, Eq)]
pub enum TxSet {
    /// DCT alone.
    TX_SET_DCTONLY,
    /// Inter: DCT and identity.
    TX_SET_INTER_3,
    /// Intra: the identity, and DCT and ADST in both directions.
    TX_SET_INTRA_2,
    /// Intra: those of `TX_SET_INTRA_2` and the one-dimensional DCT.
    TX_SET_INTRA_1,
    /// Inter: all but the one-dimensional ADST.
    TX_SET_INTER_2,
    /// Inter: all sixteen.
    TX_SET_INTER_1,
}

impl TxSet {
    /// The place of the set in the order of the enum, by which the tables of sets are read.
    pub fn number(self) -> usize
        ensures value { result ≡ tx_set_number self }
        ensures bound { result < 6 }
    {
        self as usize
    }
}

/// Along which sides of a block a transform is a cosine or sine transform.
#[derive(Clone, Copy, Debug, PartialEq, Eq)]
pub enum TxClass {
    TX_CLASS_2D,
    TX_CLASS_HORIZ,
    TX_CLASS_VERT,
}
