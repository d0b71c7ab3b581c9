// Laws of the elements. Each function is a theorem: it takes nothing and does nothing. That an element reads its values says:
// the symbols of each value lead a reader to it, no other symbols lead to a value, each symbol is one of a distribution of
// the context, and there are at most so many.
ghost use Rattle.std.specs.Prelude.{◌≡◌, ℕ, ◌+◌, ◌^◌, ◌<◌, ◌≤◌, List, Bool, IsTrue, false, ℤ, pos, negsuc, ◌≤ℤ◌};
ghost use Rattle.av1_blocks.specs.Grid.{Grid, IsInside, block_at, over};
ghost use Rattle.av1_blocks.specs.declared.block.Block.{Block};
ghost use Rattle.av1_blocks.specs.declared.block_context.BlockContext.{BlockContext};
ghost use Rattle.av1_cdf.specs.Context.{AreCdfs};
ghost use Rattle.av1_cdf.specs.Distribution.{HasSymbols};
ghost use Rattle.av1_geometry.specs.Cfl.{magnitude};
ghost use Rattle.av1_geometry.specs.BlockSize.{number_of, width_log2, height_log2};
ghost use Rattle.av1_geometry.specs.PredictionMode.{prediction_mode_number};
ghost use Rattle.av1_geometry.specs.BlockTables.{max_tx_size};
ghost use Rattle.av1_geometry.specs.TxTables.{uses, tx_set};
ghost use Rattle.av1_geometry.specs.declared.block_offset.BlockOffset.{BlockOffset};
ghost use Rattle.av1_geometry.specs.declared.block_size.BlockSize.{BlockSize};
ghost use Rattle.av1_geometry.specs.declared.partition_type.PartitionType.{PartitionType};
ghost use Rattle.av1_geometry.specs.declared.frame_type.ReferenceMode.{ReferenceMode};
ghost use Rattle.av1_geometry.specs.declared.motion_vector.MotionVector.{MotionVector};
ghost use Rattle.av1_geometry.specs.declared.motion_vector.MvSubpelPrecision.{MvSubpelPrecision};
ghost use Rattle.av1_geometry.specs.declared.prediction_mode.PredictionMode.{PredictionMode};
ghost use Rattle.av1_geometry.specs.declared.tx_size.TxSize.{TxSize};
ghost use Rattle.av1_model.specs.Element.{Reads};
ghost use Rattle.av1_mvref.specs.References.{counts};
ghost use Rattle.av1_syntax.specs.Deltas.{delta_count, deltas_element, AreDeltas};
ghost use Rattle.av1_syntax.specs.Factors.{factors_element, AreFactors};
ghost use Rattle.av1_syntax.specs.Flags.{skip_element, filter_intra_element};
ghost use Rattle.av1_syntax.specs.IntraModes.{intra_mode_kf_element, intra_mode_element, uv_modes, uv_mode_element, angle_delta_element};
ghost use Rattle.av1_syntax.specs.Literals.{literal};
ghost use Rattle.av1_syntax.specs.InterModes.{is_inter_element, drl_mode_element, inter_mode_element};
ghost use Rattle.av1_syntax.specs.InterModes.{compound_mode_element, is_among, inter_modes, compound_modes, new_context, ref_context};
ghost use Rattle.av1_syntax.specs.Palette.{palette_element};
ghost use Rattle.av1_syntax.specs.Partition.{partition_element, has_cols, has_rows, IsParted, is_allowed};
ghost use Rattle.av1_syntax.specs.RefFrames.{ref_frames_element, may_be_pair, AreRefFrames, LiesIn, with_counts};
ghost use Rattle.av1_syntax.specs.Segments.{interleaved, deinterleaved, segment_element, IsSegment};
ghost use Rattle.av1_syntax.specs.TransformSizes.{halved, is_offered, tx_size_element, part_element, split_element};
ghost use Rattle.av1_syntax.specs.TransformTypes.{tx_type_element};
ghost use Rattle.av1_syntax.specs.Vectors.{component_element, coded_component, vector_element, difference, IsComponent, IsDifference};
ghost use Rattle.av1_syntax.specs.Restoration.{lrf_element, starting, renewed, HasReferences, IsFilterOf};
ghost use Rattle.av1_syntax.specs.declared.restoration.RestorationFilter.{RestorationFilter};
ghost use Rattle.av1_syntax.specs.declared.restoration.RestorationPlane.{RestorationPlane};

/// Flags have both values.
pub fn law_of_flags()
    ensures skip { (g : Grid) (bo : BlockOffset) → Reads HasSymbols (skip_element g bo) (λ on. Unit {0}) 1 }
    ensures filter_intra { (size : BlockSize) → Reads HasSymbols (filter_intra_element size) (λ on. Unit {0}) 1 }
{}

/// A block has the partitions that are allowed where it stands.
pub fn law_of_partitions()
    ensures { (fc : List ℕ) (bc : BlockContext) (bo : BlockOffset) (size : BlockSize) → AreCdfs fc → IsParted bc.blocks bo size →
        Reads HasSymbols (partition_element fc bc bo size) (λ p. IsTrue (is_allowed (has_cols bc.blocks bo size) (has_rows bc.blocks bo size) size p)) 1 }
{}

/// There are 13 luma modes, one chroma mode more where chroma may be predicted from luma, seven angles, and no palette.
pub fn law_of_intra_modes()
    ensures kf { (g : Grid) (bo : BlockOffset) → Reads HasSymbols (intra_mode_kf_element g bo) (λ m. prediction_mode_number m < 13) 1 }
    ensures luma { (size : BlockSize) → Reads HasSymbols (intra_mode_element size) (λ m. prediction_mode_number m < 13) 1 }
    ensures chroma { (luma : PredictionMode) (size : BlockSize) → prediction_mode_number luma < 13 →
        Reads HasSymbols (uv_mode_element luma size) (λ m. prediction_mode_number m < uv_modes size) 1 }
    ensures angle { (m : PredictionMode) → 1 ≤ prediction_mode_number m → prediction_mode_number m ≤ 8 →
        Reads HasSymbols (angle_delta_element m) (λ a. (negsuc 2 ≤ℤ a) × (a ≤ℤ pos 3)) 1 }
    ensures palette { (luma chroma : Bool) (size : BlockSize) → 3 ≤ number_of size → width_log2 size ≤ 6 → height_log2 size ≤ 6 →
        Reads HasSymbols (palette_element luma chroma size) (λ on. on ≡ false) 2 }
{}

/// The factors of chroma from luma are those from -16 to 16, of which one is not zero.
pub fn law_of_factors()
    ensures { Reads HasSymbols factors_element AreFactors 3 }
{}

/// For each prediction the numbers of the values from 0 on are these values in another order, and so a block has the segments
/// up to the last one that is used, and the predicted one where it is skipped.
pub fn law_of_segments()
    ensures below { (n r x : ℕ) → x < n → r < n → interleaved n r x < n }
    ensures back { (n r x : ℕ) → x < n → r < n → deinterleaved n r (interleaved n r x) ≡ x }
    ensures forth { (n r s : ℕ) → s < n → r < n → (deinterleaved n r s < n) × (interleaved n r (deinterleaved n r s) ≡ s) }
    ensures segment { (g : Grid) (bo : BlockOffset) (skip : Bool) (last : ℕ) → last ≤ 7 →
        Reads HasSymbols (segment_element g bo skip last) (IsSegment g bo skip last) 1 }
{}

/// A number of so many bits is below their power of two.
pub fn law_of_literals()
    ensures { (bits : ℕ) → Reads HasSymbols (literal bits) (λ v. v < 2 ^ bits) bits }
{}

/// A block has one delta, or one for each direction of luma and each plane of chroma, of which the codes reach to a size of
/// 512; the others are zero.
pub fn law_of_deltas()
    ensures { (multi : Bool) (planes : ℕ) → planes ≤ 3 →
        Reads HasSymbols (deltas_element multi planes) (AreDeltas 512 (delta_count multi planes)) 52 }
{}

/// A transform has the types of its set. The transforms of an intra block have the largest size, or one that is at most twice
/// halved. The largest one of an inter block is split or not, and none of its parts is.
pub fn law_of_transforms()
    ensures types { (tx : TxSize) (mode : PredictionMode) (inter reduced : Bool) → (inter ≡ false → prediction_mode_number mode < 13) →
        Reads HasSymbols (tx_type_element tx mode inter reduced) (λ t. IsTrue (uses (tx_set tx inter reduced) t)) 1 }
    ensures sizes { (bc : BlockContext) (bo : BlockOffset) (size : BlockSize) → 1 ≤ number_of size →
        Reads HasSymbols (tx_size_element bc bo size) (λ t. IsTrue (is_offered (max_tx_size size) t)) 1 }
    ensures splits { (bc : BlockContext) (bo : BlockOffset) (size : BlockSize) (tbx tby : ℕ) → 1 ≤ number_of size → width_log2 size ≤ 6 →
        height_log2 size ≤ 6 → Reads HasSymbols (split_element bc bo size tbx tby) (λ on. Unit {0}) 5 }
    ensures parts { (bc : BlockContext) (bo : BlockOffset) (size : BlockSize) (tbx tby : ℕ) → 1 ≤ number_of size →
        Reads HasSymbols (part_element bc bo size (halved 1 (max_tx_size size)) tbx tby) (λ on. on ≡ false) 1 }
{}

/// A block is predicted from other frames or not, and takes a later candidate or not; it has one of the four modes of one
/// vector, or one of the eight of two.
pub fn law_of_inter_modes()
    ensures inter { (g : Grid) (bo : BlockOffset) → Reads HasSymbols (is_inter_element g bo) (λ on. Unit {0}) 1 }
    ensures drl { (ctx : ℕ) → ctx ≤ 2 → Reads HasSymbols (drl_mode_element ctx) (λ on. Unit {0}) 1 }
    ensures mode { (ctx : ℕ) → new_context ctx ≤ 5 → ref_context ctx ≤ 5 → Reads HasSymbols (inter_mode_element ctx) (λ m. IsTrue (is_among inter_modes m)) 3 }
    ensures compound { (ctx : ℕ) → Reads HasSymbols (compound_mode_element ctx) (λ m. IsTrue (is_among compound_modes m)) 1 }
{}

/// A block has one of seven references alone, or one behind and one ahead where it may have two.
pub fn law_of_ref_frames()
    ensures { (g : Grid) (bo : BlockOffset) (mode : ReferenceMode) →
        Reads HasSymbols (ref_frames_element g bo mode) (AreRefFrames (may_be_pair mode (block_at g bo.x bo.y))) 6 }
{}

/// A block that is entered has what was entered, and its neighbours stay: so the counts that `fill_neighbours_ref_counts` notes
/// are those that `write_ref_frames` asks for, also after modes, references and vectors are entered over the block.
pub fn law_of_counts()
    ensures entered { (g : Grid) (bo : BlockOffset) (size : BlockSize) (f : Block → Block) → LiesIn g → IsInside g bo →
        block_at (over bo size f g) bo.x bo.y ≡ f (block_at g bo.x bo.y) }
    ensures kept { (g : Grid) (bo : BlockOffset) (size : BlockSize) (f : Block → Block) → LiesIn g → IsInside g bo →
        counts (over bo size f g) bo ≡ counts g bo }
    ensures noted { (bo : BlockOffset) (bc : BlockContext) → LiesIn bc.blocks → IsInside bc.blocks bo →
        let g = (with_counts bo bc).blocks in (block_at g bo.x bo.y).neighbors_ref_counts ≡ counts g bo }
{}

/// A component of a vector is a multiple of the precision's unit that is not zero, and a vector differs from its reference
/// vector by such components or none; each path leads to one vector. A component that is a multiple of the unit is coded as it
/// is.
pub fn law_of_vectors()
    ensures component { (axis : ℕ) (p : MvSubpelPrecision) → axis < 2 →
        Reads HasSymbols (component_element axis p) (λ v. (1 ≤ magnitude v) × IsComponent p v) 14 }
    ensures coded { (p : MvSubpelPrecision) (v : ℤ) → 1 ≤ magnitude v → IsComponent p v → coded_component p v ≡ v }
    ensures vector { (ref : MotionVector) (p : MvSubpelPrecision) → Reads HasSymbols (vector_element ref p) (λ mv. IsDifference p (difference mv ref)) 29 }
{}

/// A plane has no filter, or one of the kinds of its type: a Wiener filter with taps in their ranges, where the first one of
/// chroma is zero, or a self-guided filter with weights in their ranges, of which one that has no pass is 0 or 95. The
/// references of a plane are in their ranges as a tile begins, and stay so.
pub fn law_of_restoration()
    ensures filters { (plane : RestorationPlane) (luma : Bool) → plane.lrf_type ≤ 3 → HasReferences plane →
        Reads HasSymbols (lrf_element plane luma) (IsFilterOf plane.lrf_type luma) 295 }
    ensures starting { (lrf_type : ℕ) → HasReferences (starting lrf_type) }
    ensures renewed { (plane : RestorationPlane) (luma : Bool) (filter : RestorationFilter) → HasReferences plane →
        IsFilterOf plane.lrf_type luma filter → HasReferences (renewed luma filter plane) }
{}
