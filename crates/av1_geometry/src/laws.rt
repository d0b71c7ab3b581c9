// Laws of numbers and orders that hold over all values of a type.
ghost use Rattle.std.specs.Prelude.{◌≡◌, ◌≤◌, ◌↔◌, IsTrue};
ghost use Rattle.std.specs.Ordering.{partial_le};
ghost use Rattle.av1_geometry.specs.BlockSize.{number_of, size_of, width_log2, height_log2};
ghost use Rattle.av1_geometry.specs.TxSize.{tx_number, tx_size_of, tx_width_log2, tx_height_log2};
ghost use Rattle.av1_geometry.specs.TxType.{tx_type_number, tx_type_of};
ghost use Rattle.av1_geometry.specs.PredictionMode.{prediction_mode_number, prediction_mode_of};
ghost use Rattle.av1_geometry.specs.PartitionType.{partition_number, partition_of};
ghost use Rattle.av1_geometry.specs.RefType.{reference_number, reference_of};
ghost use Rattle.av1_geometry.specs.FrameType.{frame_type_number, frame_type_of, reference_mode_number};
ghost use Rattle.av1_geometry.specs.FrameType.{reference_mode_of, global_mv_mode_number, global_mv_mode_of};
ghost use Rattle.av1_geometry.specs.ChromaSampling.{chroma_sampling_number, chroma_sampling_of, pixel_range_number, pixel_range_of};

use crate::block_size::BlockSize;
use crate::chroma_sampling::{ChromaSampling, PixelRange};
use crate::frame_type::{FrameType, GlobalMVMode, ReferenceMode};
use crate::partition_type::PartitionType;
use crate::prediction_mode::PredictionMode;
use crate::ref_type::RefType;
use crate::tx_size::TxSize;
use crate::tx_type::TxType;

/// Each value is the one with its number.
pub fn law_numbers()
    ensures block_sizes { (x : BlockSize) → size_of (number_of x) ≡ Some x }
    ensures tx_sizes { (x : TxSize) → tx_size_of (tx_number x) ≡ Some x }
    ensures tx_types { (x : TxType) → tx_type_of (tx_type_number x) ≡ Some x }
    ensures modes { (x : PredictionMode) → prediction_mode_of (prediction_mode_number x) ≡ Some x }
    ensures partitions { (x : PartitionType) → partition_of (partition_number x) ≡ Some x }
    ensures references { (x : RefType) → reference_of (reference_number x) ≡ Some x }
    ensures frame_types { (x : FrameType) → frame_type_of (frame_type_number x) ≡ Some x }
    ensures reference_modes { (x : ReferenceMode) → reference_mode_of (reference_mode_number x) ≡ Some x }
    ensures global_mv_modes { (x : GlobalMVMode) → global_mv_mode_of (global_mv_mode_number x) ≡ Some x }
    ensures samplings { (x : ChromaSampling) → chroma_sampling_of (chroma_sampling_number x) ≡ Some x }
    ensures pixel_ranges { (x : PixelRange) → pixel_range_of (pixel_range_number x) ≡ Some x }
{}

/// One size is at most another where neither of its sides is longer.
pub fn law_orders()
    ensures block_sizes { (s t : BlockSize) → IsTrue (partial_le ⟦<BlockSize as PartialOrd>⟧.partial_cmp s t) ↔
        ((width_log2 s ≤ width_log2 t) × (height_log2 s ≤ height_log2 t)) }
    ensures tx_sizes { (s t : TxSize) → IsTrue (partial_le ⟦<TxSize as PartialOrd>⟧.partial_cmp s t) ↔
        ((tx_width_log2 s ≤ tx_width_log2 t) × (tx_height_log2 s ≤ tx_height_log2 t)) }
{}
