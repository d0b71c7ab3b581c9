// Values of AV1's enums from a JSON value, which is their number.
ghost use Rattle.std.specs.Prelude.{◌≡◌};
ghost use Rattle.av1_geometry.specs.ChromaSampling.{chroma_sampling_of, pixel_range_of};
ghost use Rattle.av1_geometry.specs.FrameType.{frame_type_of, reference_mode_of, global_mv_mode_of};
ghost use Rattle.av1_geometry.specs.BlockSize.{size_of};
ghost use Rattle.av1_geometry.specs.PartitionType.{partition_of};
ghost use Rattle.av1_geometry.specs.PredictionMode.{prediction_mode_of};
ghost use Rattle.av1_geometry.specs.RefType.{reference_of};
ghost use Rattle.av1_geometry.specs.TxSize.{tx_size_of};
ghost use Rattle.av1_geometry.specs.TxType.{tx_type_of};
ghost use Rattle.av1_input.specs.Kinds.{choice};

use crate::error::ShapeError;
use crate::from_json::FromJson;
use crate::numbers::usize_of;
use crate::path::or_unfit;
use av1_geometry::{
    BlockSize, ChromaSampling, FrameType, GlobalMVMode, PartitionType, PixelRange, PredictionMode,
    RefType, ReferenceMode, TxSize, TxType,
};
use serde_json::Value;
use std::alloc::Global;

impl FromJson for ChromaSampling {
    ghost use Rattle.av1_geometry.specs.declared.chroma_sampling.ChromaSampling.TheVariants.{Cs420 as First};

    ghost kind = { choice chroma_sampling_of First };

    fn none(_alloc: Global) -> Self {
        ChromaSampling::Cs420
    }

    #[tactic(auto, unfolding(crate::specs::Kinds::fit_choice))]
    fn from_json(alloc: Global, value: Value) -> Result<Self, ShapeError> {
        match usize_of(&value) {
            Some(number) => or_unfit(alloc, ChromaSampling::from_number(number)),
            None => Err(ShapeError::BadShape(String::new(alloc))),
        }
    }
}

impl FromJson for PixelRange {
    ghost use Rattle.av1_geometry.specs.declared.chroma_sampling.PixelRange.TheVariants.{Limited as First};

    ghost kind = { choice pixel_range_of First };

    fn none(_alloc: Global) -> Self {
        PixelRange::Limited
    }

    #[tactic(auto, unfolding(crate::specs::Kinds::fit_choice))]
    fn from_json(alloc: Global, value: Value) -> Result<Self, ShapeError> {
        match usize_of(&value) {
            Some(number) => or_unfit(alloc, PixelRange::from_number(number)),
            None => Err(ShapeError::BadShape(String::new(alloc))),
        }
    }
}

impl FromJson for FrameType {
    ghost use Rattle.av1_geometry.specs.declared.frame_type.FrameType.TheVariants.{KEY as First};

    ghost kind = { choice frame_type_of First };

    fn none(_alloc: Global) -> Self {
        FrameType::KEY
    }

    #[tactic(auto, unfolding(crate::specs::Kinds::fit_choice))]
    fn from_json(alloc: Global, value: Value) -> Result<Self, ShapeError> {
        match usize_of(&value) {
            Some(number) => or_unfit(alloc, FrameType::from_number(number)),
            None => Err(ShapeError::BadShape(String::new(alloc))),
        }
    }
}

impl FromJson for ReferenceMode {
    ghost use Rattle.av1_geometry.specs.declared.frame_type.ReferenceMode.TheVariants.{SINGLE as First};

    ghost kind = { choice reference_mode_of First };

    fn none(_alloc: Global) -> Self {
        ReferenceMode::SINGLE
    }

    #[tactic(auto, unfolding(crate::specs::Kinds::fit_choice))]
    fn from_json(alloc: Global, value: Value) -> Result<Self, ShapeError> {
        match usize_of(&value) {
            Some(number) => or_unfit(alloc, ReferenceMode::from_number(number)),
            None => Err(ShapeError::BadShape(String::new(alloc))),
        }
    }
}

impl FromJson for GlobalMVMode {
    ghost use Rattle.av1_geometry.specs.declared.frame_type.GlobalMVMode.TheVariants.{IDENTITY as First};

    ghost kind = { choice global_mv_mode_of First };

    fn none(_alloc: Global) -> Self {
        GlobalMVMode::IDENTITY
    }

    #[tactic(auto, unfolding(crate::specs::Kinds::fit_choice))]
    fn from_json(alloc: Global, value: Value) -> Result<Self, ShapeError> {
        match usize_of(&value) {
            Some(number) => or_unfit(alloc, GlobalMVMode::from_number(number)),
            None => Err(ShapeError::BadShape(String::new(alloc))),
        }
    }
}

impl FromJson for BlockSize {
    ghost use Rattle.av1_geometry.specs.declared.block_size.BlockSize.TheVariants.{BLOCK_4X4 as First};

    ghost kind = { choice size_of First };

    fn none(_alloc: Global) -> Self {
        BlockSize::BLOCK_4X4
    }

    #[tactic(auto, unfolding(crate::specs::Kinds::fit_choice))]
    fn from_json(alloc: Global, value: Value) -> Result<Self, ShapeError> {
        match usize_of(&value) {
            Some(number) => or_unfit(alloc, BlockSize::from_number(number)),
            None => Err(ShapeError::BadShape(String::new(alloc))),
        }
    }
}

impl FromJson for PartitionType {
    ghost use Rattle.av1_geometry.specs.declared.partition_type.PartitionType.TheVariants.{PARTITION_NONE as First};

    ghost kind = { choice partition_of First };

    fn none(_alloc: Global) -> Self {
        PartitionType::PARTITION_NONE
    }

    #[tactic(auto, unfolding(crate::specs::Kinds::fit_choice))]
    fn from_json(alloc: Global, value: Value) -> Result<Self, ShapeError> {
        match usize_of(&value) {
            Some(number) => or_unfit(alloc, PartitionType::from_number(number)),
            None => Err(ShapeError::BadShape(String::new(alloc))),
        }
    }
}

impl FromJson for PredictionMode {
    ghost use Rattle.av1_geometry.specs.declared.prediction_mode.PredictionMode.TheVariants.{DC_PRED as First};

    ghost kind = { choice prediction_mode_of First };

    fn none(_alloc: Global) -> Self {
        PredictionMode::DC_PRED
    }

    #[tactic(auto, unfolding(crate::specs::Kinds::fit_choice))]
    fn from_json(alloc: Global, value: Value) -> Result<Self, ShapeError> {
        match usize_of(&value) {
            Some(number) => or_unfit(alloc, PredictionMode::from_number(number)),
            None => Err(ShapeError::BadShape(String::new(alloc))),
        }
    }
}

impl FromJson for RefType {
    ghost use Rattle.av1_geometry.specs.declared.ref_type.RefType.TheVariants.{INTRA_FRAME as First};

    ghost kind = { choice reference_of First };

    fn none(_alloc: Global) -> Self {
        RefType::INTRA_FRAME
    }

    #[tactic(auto, unfolding(crate::specs::Kinds::fit_choice))]
    fn from_json(alloc: Global, value: Value) -> Result<Self, ShapeError> {
        match usize_of(&value) {
            Some(number) => or_unfit(alloc, RefType::from_number(number)),
            None => Err(ShapeError::BadShape(String::new(alloc))),
        }
    }
}

impl FromJson for TxSize {
    ghost use Rattle.av1_geometry.specs.declared.tx_size.TxSize.TheVariants.{TX_4X4 as First};

    ghost kind = { choice tx_size_of First };

    fn none(_alloc: Global) -> Self {
        TxSize::TX_4X4
    }

    #[tactic(auto, unfolding(crate::specs::Kinds::fit_choice))]
    fn from_json(alloc: Global, value: Value) -> Result<Self, ShapeError> {
        match usize_of(&value) {
            Some(number) => or_unfit(alloc, TxSize::from_number(number)),
            None => Err(ShapeError::BadShape(String::new(alloc))),
        }
    }
}

impl FromJson for TxType {
    ghost use Rattle.av1_geometry.specs.declared.tx_type.TxType.TheVariants.{DCT_DCT as First};

    ghost kind = { choice tx_type_of First };

    fn none(_alloc: Global) -> Self {
        TxType::DCT_DCT
    }

    #[tactic(auto, unfolding(crate::specs::Kinds::fit_choice))]
    fn from_json(alloc: Global, value: Value) -> Result<Self, ShapeError> {
        match usize_of(&value) {
            Some(number) => or_unfit(alloc, TxType::from_number(number)),
            None => Err(ShapeError::BadShape(String::new(alloc))),
        }
    }
}
