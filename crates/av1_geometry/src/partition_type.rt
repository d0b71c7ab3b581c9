// How a block is parted.
ghost use Rattle.std.specs.Prelude.{◌≡◌, ◌<◌, ◌≤◌, ◌↔◌, IsSome, IfSome};
ghost use Rattle.av1_geometry.specs.PartitionType.{partition_number, partition_of, width_halvings, height_halvings};

/// How a block is parted (AV1 specification, "Partition semantics").
#[derive(Clone, Copy, Debug, PartialEq, Eq)]
pub enum PartitionType {
    PARTITION_NONE,
    PARTITION_HORZ,
    PARTITION_VERT,
    PARTITION_SPLIT,
    PARTITION_HORZ_A,
    PARTITION_HORZ_B,
    PARTITION_VERT_A,
    PARTITION_VERT_B,
    PARTITION_HORZ_4,
    PARTITION_VERT_4,
}

/// All values by their numbers.
const ALL_PARTITIONS: [PartitionType; 10] = [
    PartitionType::PARTITION_NONE,
    PartitionType::PARTITION_HORZ,
    PartitionType::PARTITION_VERT,
    PartitionType::PARTITION_SPLIT,
    PartitionType::PARTITION_HORZ_A,
    PartitionType::PARTITION_HORZ_B,
    PartitionType::PARTITION_VERT_A,
    PartitionType::PARTITION_VERT_B,
    PartitionType::PARTITION_HORZ_4,
    PartitionType::PARTITION_VERT_4,
];

impl PartitionType {
    /// The place of the value in the order of the enum.
    pub fn number(self) -> usize
        ensures value { result ≡ partition_number self }
        ensures bound { result < 10 }
    {
        self as usize
    }

    /// The value whose number this is.
    #[tactic(auto, using(crate::proofs::Numbers::partition_numbered))]
    pub fn from_number(number: usize) -> Option<PartitionType>
        ensures listed { result ≡ partition_of number }
        ensures found { IsSome result ↔ (number < 10) }
        ensures value { IfSome result (λ value. partition_number value ≡ number) }
    {
        if number < 10 {
            Some(ALL_PARTITIONS[number])
        } else {
            None
        }
    }

    /// How often the width of the first part is halved.
    pub fn width_halvings(self) -> usize
        ensures value { result ≡ width_halvings self }
        ensures most { result ≤ 2 }
    {
        match self {
            PartitionType::PARTITION_NONE
            | PartitionType::PARTITION_HORZ
            | PartitionType::PARTITION_HORZ_A
            | PartitionType::PARTITION_HORZ_B
            | PartitionType::PARTITION_HORZ_4 => 0,
            PartitionType::PARTITION_VERT
            | PartitionType::PARTITION_SPLIT
            | PartitionType::PARTITION_VERT_A
            | PartitionType::PARTITION_VERT_B => 1,
            PartitionType::PARTITION_VERT_4 => 2,
        }
    }

    /// How often the height of the first part is halved.
    pub fn height_halvings(self) -> usize
        ensures value { result ≡ height_halvings self }
        ensures most { result ≤ 2 }
    {
        match self {
            PartitionType::PARTITION_NONE
            | PartitionType::PARTITION_VERT
            | PartitionType::PARTITION_VERT_A
            | PartitionType::PARTITION_VERT_B
            | PartitionType::PARTITION_VERT_4 => 0,
            PartitionType::PARTITION_HORZ
            | PartitionType::PARTITION_SPLIT
            | PartitionType::PARTITION_HORZ_A
            | PartitionType::PARTITION_HORZ_B => 1,
            PartitionType::PARTITION_HORZ_4 => 2,
        }
    }
}
