// Types and sizes of transforms, where all symbols are equally likely at first. Where rav1e codes that a block is inter, the
// rows code that it is skipped, by the same numbers.
use av1_ec::WriterEncoder;
use av1_geometry::{BlockOffset, BlockSize, PredictionMode, TileBlockOffset, TxSize, TxType};
use av1_syntax_tests::fresh::{CORNER, ends, fresh};
use std::test::Fail;

#[test]
fn a_type_by_its_set(rt: HostRuntime) -> Result<(), Fail> {
    let mut cw = fresh(rt.alloc(), 4, 4)?;
    let dc = PredictionMode::DC_PRED;
    let mut w = WriterEncoder::new(rt.alloc());
    cw.write_tx_type(&mut w, TxSize::TX_8X8, TxType::DCT_DCT, dc, false, false)?;
    ends(w, 4, &[0x30])?;
    let mut w = WriterEncoder::new(rt.alloc());
    cw.write_tx_type(&mut w, TxSize::TX_16X16, TxType::V_DCT, dc, true, false)?;
    ends(w, 5, &[0x18])
}

#[test]
fn a_type_of_reduced_sets(rt: HostRuntime) -> Result<(), Fail> {
    let mut cw = fresh(rt.alloc(), 4, 4)?;
    let dc = PredictionMode::DC_PRED;
    let mut w = WriterEncoder::new(rt.alloc());
    cw.write_tx_type(&mut w, TxSize::TX_8X8, TxType::IDTX, dc, true, true)?;
    ends(w, 3, &[0x20])?;
    let mut w = WriterEncoder::new(rt.alloc());
    cw.write_tx_type(&mut w, TxSize::TX_4X4, TxType::ADST_DCT, dc, false, true)?;
    ends(w, 4, &[0xb0])
}

#[test]
fn no_type_where_there_is_one(rt: HostRuntime) -> Result<(), Fail> {
    let mut cw = fresh(rt.alloc(), 4, 4)?;
    let mut w = WriterEncoder::new(rt.alloc());
    let dc = PredictionMode::DC_PRED;
    cw.write_tx_type(&mut w, TxSize::TX_64X16, TxType::DCT_DCT, dc, true, false)?;
    ends(w, 1, &[0x80])
}

#[test]
fn a_size_beside_a_smaller_one(rt: HostRuntime) -> Result<(), Fail> {
    let mut cw = fresh(rt.alloc(), 4, 2)?;
    let mut w = WriterEncoder::new(rt.alloc());
    let size = BlockSize::BLOCK_8X8;
    cw.write_tx_size_intra(&mut w, CORNER, size, TxSize::TX_4X4)?;
    cw.bc
        .update_tx_size_context(CORNER, size, TxSize::TX_4X4, false);
    let right = TileBlockOffset(BlockOffset { x: 2, y: 0 });
    cw.write_tx_size_intra(&mut w, right, size, TxSize::TX_8X8)?;
    ends(w, 4, &[0x90])
}

#[test]
fn a_size_beside_the_largest(rt: HostRuntime) -> Result<(), Fail> {
    let mut cw = fresh(rt.alloc(), 4, 2)?;
    let mut w = WriterEncoder::new(rt.alloc());
    let size = BlockSize::BLOCK_8X8;
    cw.write_tx_size_intra(&mut w, CORNER, size, TxSize::TX_8X8)?;
    cw.bc
        .update_tx_size_context(CORNER, size, TxSize::TX_8X8, false);
    let right = TileBlockOffset(BlockOffset { x: 2, y: 0 });
    cw.write_tx_size_intra(&mut w, right, size, TxSize::TX_4X4)?;
    ends(w, 4, &[0x50])
}

#[test]
fn a_split_at_the_last_column(rt: HostRuntime) -> Result<(), Fail> {
    let mut cw = fresh(rt.alloc(), 2, 4)?;
    let mut w = WriterEncoder::new(rt.alloc());
    let size = BlockSize::BLOCK_16X16;
    cw.bc
        .blocks
        .set_mode(CORNER, size, PredictionMode::NEARESTMV);
    cw.write_skip(&mut w, CORNER, true)?;
    cw.write_tx_size_inter(&mut w, CORNER, size, TxSize::TX_16X16, true, 0, 0, 0)?;
    ends(w, 5, &[0xc8])
}

#[test]
fn a_whole_transform_beside_a_split_one(rt: HostRuntime) -> Result<(), Fail> {
    let mut cw = fresh(rt.alloc(), 8, 4)?;
    let mut w = WriterEncoder::new(rt.alloc());
    let size = BlockSize::BLOCK_16X16;
    cw.bc
        .blocks
        .set_mode(CORNER, size, PredictionMode::NEARESTMV);
    cw.write_skip(&mut w, CORNER, true)?;
    cw.write_tx_size_inter(&mut w, CORNER, size, TxSize::TX_16X16, true, 0, 0, 0)?;
    let right = TileBlockOffset(BlockOffset { x: 4, y: 0 });
    cw.write_skip(&mut w, right, true)?;
    cw.write_tx_size_inter(&mut w, right, size, TxSize::TX_16X16, false, 0, 0, 0)?;
    ends(w, 9, &[0xc3, 0x80])
}
