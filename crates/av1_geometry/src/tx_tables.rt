// Which types a transform may have, and the tables of sets of types.
ghost use Rattle.std.specs.Prelude.{◌≡◌, ◌≢◌, ◌≤◌, ◌<◌, ◌-◌, ◌↔◌, IsTrue, min, max, length, pos};
ghost use Rattle.av1_geometry.specs.TxSize.{tx_width_log2, tx_height_log2};
ghost use Rattle.av1_geometry.specs.TxTables.{coded_types, uses, index_in, class_of, half_size, coded_size, tx_set, index_of_set};
ghost use Rattle.av1_geometry.specs.TxTables.{SetsHaveTheirCodedTypes, SizesOfSets, IndicesAreOneToOne, ClassesAreByName, SplitsHalveTheLongerSide, IndexTable};

use crate::constants::{TX_SETS, TX_TYPES};
use crate::tx_size::TxSize;
use crate::tx_size::TxSize::*;
use crate::tx_type::TxClass::*;
use crate::tx_type::{TxClass, TxSet, TxType};

/// The number of types in each set.
pub static num_tx_set: [usize; TX_SETS] = [1, 2, 5, 7, 12, 16];

/// 1 for each type that a set has, by set and type.
pub static av1_tx_used: [[usize; TX_TYPES]; TX_SETS] = [
    [1, 0, 0, 0, 0, 0, 0, 0, 0, 0, 0, 0, 0, 0, 0, 0],
    [1, 0, 0, 0, 0, 0, 0, 0, 0, 1, 0, 0, 0, 0, 0, 0],
    [1, 1, 1, 1, 0, 0, 0, 0, 0, 1, 0, 0, 0, 0, 0, 0],
    [1, 1, 1, 1, 0, 0, 0, 0, 0, 1, 1, 1, 0, 0, 0, 0],
    [1, 1, 1, 1, 1, 1, 1, 1, 1, 1, 1, 1, 0, 0, 0, 0],
    [1, 1, 1, 1, 1, 1, 1, 1, 1, 1, 1, 1, 1, 1, 1, 1],
];

/// The symbol of each type in a set, by set and type; 0 where the set does not have the type.
pub static av1_tx_ind: [[usize; TX_TYPES]; TX_SETS] = [
    [0, 0, 0, 0, 0, 0, 0, 0, 0, 0, 0, 0, 0, 0, 0, 0],
    [1, 0, 0, 0, 0, 0, 0, 0, 0, 0, 0, 0, 0, 0, 0, 0],
    [1, 3, 4, 2, 0, 0, 0, 0, 0, 0, 0, 0, 0, 0, 0, 0],
    [1, 5, 6, 4, 0, 0, 0, 0, 0, 0, 2, 3, 0, 0, 0, 0],
    [3, 4, 5, 8, 6, 7, 9, 10, 11, 0, 1, 2, 0, 0, 0, 0],
    [7, 8, 9, 12, 10, 11, 13, 14, 15, 0, 1, 2, 3, 4, 5, 6],
];

/// The size of the parts that a transform is split into.
pub static sub_tx_size_map: [TxSize; TxSize::TX_SIZES_ALL] = [
    TX_4X4, TX_4X4, TX_8X8, TX_16X16, TX_32X32, TX_4X4, TX_4X4, TX_8X8, TX_8X8, TX_16X16, TX_16X16,
    TX_32X32, TX_32X32, TX_4X8, TX_8X4, TX_8X16, TX_16X8, TX_16X32, TX_32X16,
];

/// The class of each type.
pub static tx_type_to_class: [TxClass; TX_TYPES] = [
    TX_CLASS_2D,
    TX_CLASS_2D,
    TX_CLASS_2D,
    TX_CLASS_2D,
    TX_CLASS_2D,
    TX_CLASS_2D,
    TX_CLASS_2D,
    TX_CLASS_2D,
    TX_CLASS_2D,
    TX_CLASS_2D,
    TX_CLASS_VERT,
    TX_CLASS_HORIZ,
    TX_CLASS_VERT,
    TX_CLASS_HORIZ,
    TX_CLASS_VERT,
    TX_CLASS_HORIZ,
];

impl TxSet {
    /// Whether the set has the type.
    #[tactic(auto, using(crate::proofs::TxTables::used_in_set))]
    pub fn uses(self, tx_type: TxType) -> bool
        ensures { result ≡ uses self tx_type }
    {
        av1_tx_used[self.number()][tx_type.number()] != 0
    }

    /// The symbol of a type of the set.
    pub fn index_of(self, tx_type: TxType) -> usize
        ensures { result ≡ index_in self tx_type }
    {
        av1_tx_ind[self.number()][tx_type.number()]
    }

    /// The number of types.
    #[tactic(auto, using(crate::proofs::TxTables::size_of_set))]
    pub fn size(self) -> usize
        ensures { result ≡ length (coded_types self) }
    {
        num_tx_set[self.number()]
    }
}

impl TxType {
    /// Along which sides the transform is a cosine or sine transform.
    #[tactic(auto, using(crate::proofs::TxTables::class_of_type))]
    pub fn class(self) -> TxClass
        ensures { result ≡ class_of self }
    {
        tx_type_to_class[self.number()]
    }
}

impl TxSize {
    /// The size of the parts that a transform is split into: the longer side is halved, both of a square, and neither below 4.
    #[tactic(auto, using(crate::proofs::TxTables::half_of_size))]
    pub fn sub_tx_size(self) -> TxSize
        ensures { result ≡ half_size self }
    {
        sub_tx_size_map[self.number()]
    }
}

/// The set of types of which a transform's is coded (AV1 specification, "Get transform set function").
pub fn get_tx_set(tx_size: TxSize, is_inter: bool, use_reduced_set: bool) -> TxSet
    ensures { result ≡ tx_set tx_size is_inter use_reduced_set }
{
    let shorter = tx_size.width_log2().min(tx_size.height_log2());
    let longer = tx_size.width_log2().max(tx_size.height_log2());
    if longer > 5 {
        return TxSet::TX_SET_DCTONLY;
    }
    if is_inter {
        if use_reduced_set || longer == 5 {
            TxSet::TX_SET_INTER_3
        } else if shorter == 4 {
            TxSet::TX_SET_INTER_2
        } else {
            TxSet::TX_SET_INTER_1
        }
    } else if longer == 5 {
        TxSet::TX_SET_DCTONLY
    } else if use_reduced_set || shorter == 4 {
        TxSet::TX_SET_INTRA_2
    } else {
        TxSet::TX_SET_INTRA_1
    }
}

/// The place of a transform's set among the intra or the inter sets that have CDFs; 0 where no type is coded.
pub fn get_tx_set_index(tx_size: TxSize, is_inter: bool, use_reduced_set: bool) -> i8
    ensures { result ≡ pos (index_of_set (tx_set tx_size is_inter use_reduced_set)) }
{
    match get_tx_set(tx_size, is_inter, use_reduced_set) {
        TxSet::TX_SET_DCTONLY => 0,
        TxSet::TX_SET_INTRA_1 | TxSet::TX_SET_INTER_1 => 1,
        TxSet::TX_SET_INTRA_2 | TxSet::TX_SET_INTER_2 => 2,
        TxSet::TX_SET_INTER_3 => 3,
    }
}

/// The size of which coefficients are coded: sides of 64 count as 32.
pub fn av1_get_coded_tx_size(tx_size: TxSize) -> TxSize
    ensures value { result ≡ coded_size tx_size }
    ensures width { tx_width_log2 result ≡ min (tx_width_log2 tx_size) 5 }
    ensures height { tx_height_log2 result ≡ min (tx_height_log2 tx_size) 5 }
{
    match tx_size {
        TX_64X64 | TX_64X32 | TX_32X64 => TX_32X32,
        TX_16X64 => TX_16X32,
        TX_64X16 => TX_32X16,
        other => other,
    }
}

/// The rules of the tables above, each over the whole table.
pub fn law_tx_tables()
    ensures used { SetsHaveTheirCodedTypes }
    ensures sizes { SizesOfSets }
    ensures indices { IndexTable }
    ensures one_to_one { IndicesAreOneToOne }
    ensures classes { ClassesAreByName }
    ensures splits { SplitsHalveTheLongerSide }
{}
