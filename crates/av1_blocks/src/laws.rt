// What going back undoes.
ghost use Rattle.std.specs.Prelude.{◌≡◌, ℕ, ◌+◌, ◌-◌, ◌/◌, ◌^◌, ◌<◌, ◌≤◌, Bool};
ghost use Rattle.av1_geometry.specs.declared.block_offset.BlockOffset.{BlockOffset};
ghost use Rattle.av1_geometry.specs.declared.block_size.BlockSize.{BlockSize};
ghost use Rattle.av1_geometry.specs.declared.chroma_sampling.ChromaSampling.{ChromaSampling};
ghost use Rattle.av1_geometry.specs.declared.superblock_offset.SuperBlockOffset.{SuperBlockOffset};
ghost use Rattle.av1_geometry.specs.declared.tx_size.TxSize.{TxSize};
ghost use Rattle.av1_geometry.specs.BlockSize.{width_mi, height_mi};
ghost use Rattle.av1_geometry.specs.ChromaSampling.{xdec_of, planes_of};
ghost use Rattle.av1_geometry.specs.TxSize.{tx_width_log2};
ghost use Rattle.av1_blocks.specs.declared.block.Block.{Block};
ghost use Rattle.av1_blocks.specs.declared.block_context.BlockContext.{BlockContext};
ghost use Rattle.av1_blocks.specs.declared.checkpoint.BlockContextCheckpoint.{BlockContextCheckpoint};
ghost use Rattle.av1_blocks.specs.Edges.{HasEdges, halvings, taken, with_coefficients, with_left_reset, with_partition, with_skip_reset, with_tx_sides};
ghost use Rattle.av1_blocks.specs.GoingBack.{IsWithin, gone_back};
ghost use Rattle.av1_blocks.specs.Grid.{over};
ghost use Rattle.av1_blocks.specs.Places.{sb_column};
ghost use Rattle.av1_blocks.specs.Saved.{Saved, saved_of};

/// A superblock goes back by `rollback` of a checkpoint and `restore_sb` of saved blocks. At once this changes nothing, and
/// after a call inside the superblock nothing is left of what the call changed: of partitions, of transforms' sides, of
/// coefficients, of a row's beginning, of `cdef_coded`, of blocks. So after any number of such calls grid and edges are those
/// of the checkpoint.
pub fn law_of_going_back()
    ensures start { (bo : BlockOffset) (cs : ChromaSampling) (sbo : SuperBlockOffset) (bc : BlockContext) →
        HasEdges bc → gone_back (taken bo cs bc) (saved_of sbo bc.blocks) bc ≡ bc }
    ensures partition { (c : BlockContextCheckpoint) (s : Saved) (bo : BlockOffset) (subsize size : BlockSize) (bc : BlockContext) →
        IsWithin (sb_column c.x) bo.x (width_mi size) → gone_back c s (with_partition bo subsize size bc) ≡ gone_back c s bc }
    ensures tx_sides { (c : BlockContextCheckpoint) (s : Saved) (bo : BlockOffset) (size : BlockSize) (width height : ℕ) (bc : BlockContext) →
        IsWithin (sb_column c.x) bo.x (width_mi size) → gone_back c s (with_tx_sides bo size width height bc) ≡ gone_back c s bc }
    ensures skip_reset { (c : BlockContextCheckpoint) (s : Saved) (planes ydec : ℕ) (bo : BlockOffset) (size : BlockSize) (bc : BlockContext) →
        planes ≤ planes_of c.chroma_sampling → IsWithin (sb_column c.x) bo.x (width_mi size) →
        gone_back c s (with_skip_reset planes (xdec_of c.chroma_sampling) ydec bo size bc) ≡ gone_back c s bc }
    ensures coefficients { (c : BlockContextCheckpoint) (s : Saved) (plane ydec v : ℕ) (bo : BlockOffset) (tx : TxSize) (bc : BlockContext) →
        let xdec = halvings (xdec_of c.chroma_sampling) plane in
        plane < planes_of c.chroma_sampling → sb_column c.x / 2 ^ xdec ≤ bo.x / 2 ^ xdec →
        bo.x / 2 ^ xdec + 2 ^ (tx_width_log2 tx - 2) ≤ sb_column c.x / 2 ^ xdec + 16 →
        gone_back c s (with_coefficients plane bo tx xdec ydec v bc) ≡ gone_back c s bc }
    ensures left_reset { (c : BlockContextCheckpoint) (s : Saved) (planes : ℕ) (bc : BlockContext) →
        gone_back c s (with_left_reset planes bc) ≡ gone_back c s bc }
    ensures cdef_coded { (c : BlockContextCheckpoint) (s : Saved) (coded : Bool) (bc : BlockContext) →
        gone_back c s (record bc { cdef_coded = coded }) ≡ gone_back c s bc }
    ensures blocks { (c : BlockContextCheckpoint) (s : Saved) (bo : BlockOffset) (size : BlockSize) (f : Block → Block) (bc : BlockContext) →
        IsWithin s.place.x bo.x (width_mi size) → IsWithin s.place.y bo.y (height_mi size) →
        gone_back c s (record bc { blocks = over bo size f bc.blocks }) ≡ gone_back c s bc }
{}
