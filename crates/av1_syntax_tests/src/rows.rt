// Single write calls on a fresh encoder, where all symbols are equally likely.
use crate::fresh::{CORNER, ends, fresh};
use av1_ec::{Writer, WriterEncoder};
use av1_geometry::{BlockSize, CFLParams, CFLSign, ChromaSampling, PartitionType, PredictionMode};
use av1_syntax::ContextWriter;
use std::test::Fail;

#[test]
fn a_skip_flag(rt: HostRuntime) -> Result<(), Fail> {
    let mut cw = fresh(rt.alloc(), 4, 4)?;
    let mut w = WriterEncoder::new(rt.alloc());
    cw.write_skip(&mut w, CORNER, true)?;
    ends(w, 2, &[0xc0])
}

#[test]
fn a_block_that_is_not_parted(rt: HostRuntime) -> Result<(), Fail> {
    let mut cw = fresh(rt.alloc(), 2, 2)?;
    let mut w = WriterEncoder::new(rt.alloc());
    let none = PartitionType::PARTITION_NONE;
    cw.write_partition(&mut w, CORNER, none, BlockSize::BLOCK_8X8)?;
    ends(w, 4, &[0x10])
}

#[test]
fn a_split_at_the_last_row(rt: HostRuntime) -> Result<(), Fail> {
    let mut cw = fresh(rt.alloc(), 4, 2)?;
    let mut w = WriterEncoder::new(rt.alloc());
    let split = PartitionType::PARTITION_SPLIT;
    cw.write_partition(&mut w, CORNER, split, BlockSize::BLOCK_16X16)?;
    ends(w, 2, &[0xc0])
}

#[test]
fn a_split_in_the_last_corner(rt: HostRuntime) -> Result<(), Fail> {
    let mut cw = fresh(rt.alloc(), 2, 2)?;
    let mut w = WriterEncoder::new(rt.alloc());
    let split = PartitionType::PARTITION_SPLIT;
    cw.write_partition(&mut w, CORNER, split, BlockSize::BLOCK_64X64)?;
    ends(w, 1, &[0x80])
}

#[test]
fn luma_modes(rt: HostRuntime) -> Result<(), Fail> {
    let mut cw = fresh(rt.alloc(), 4, 4)?;
    let mut w = WriterEncoder::new(rt.alloc());
    cw.write_intra_mode_kf(&mut w, CORNER, PredictionMode::H_PRED)?;
    ends(w, 5, &[0x28])?;
    let mut w = WriterEncoder::new(rt.alloc());
    let mode = PredictionMode::D135_PRED;
    cw.write_intra_mode(&mut w, BlockSize::BLOCK_16X8, mode)?;
    ends(w, 5, &[0x58])
}

#[test]
fn a_chroma_mode_by_its_luma_mode(rt: HostRuntime) -> Result<(), Fail> {
    let mut cw = fresh(rt.alloc(), 4, 4)?;
    let luma = PredictionMode::V_PRED;
    let mut w = WriterEncoder::new(rt.alloc());
    let cfl = PredictionMode::UV_CFL_PRED;
    cw.write_intra_uv_mode(&mut w, cfl, luma, BlockSize::BLOCK_32X32)?;
    ends(w, 5, &[0xf8])?;
    let mut w = WriterEncoder::new(rt.alloc());
    let diagonal = PredictionMode::D45_PRED;
    cw.write_intra_uv_mode(&mut w, diagonal, luma, BlockSize::BLOCK_64X64)?;
    ends(w, 5, &[0x48])
}

#[test]
fn angles(rt: HostRuntime) -> Result<(), Fail> {
    let mut cw = fresh(rt.alloc(), 4, 4)?;
    let mut w = WriterEncoder::new(rt.alloc());
    cw.write_angle_delta(&mut w, -3, PredictionMode::D67_PRED)?;
    ends(w, 4, &[0x10])?;
    let mut w = WriterEncoder::new(rt.alloc());
    cw.write_angle_delta(&mut w, 2, PredictionMode::V_PRED)?;
    ends(w, 4, &[0xd0])
}

#[test]
fn filter_intra_and_no_palettes(rt: HostRuntime) -> Result<(), Fail> {
    let mut cw = fresh(rt.alloc(), 4, 4)?;
    let mut w = WriterEncoder::new(rt.alloc());
    cw.write_use_filter_intra(&mut w, true, BlockSize::BLOCK_8X8)?;
    ends(w, 2, &[0xc0])?;
    let mut w = WriterEncoder::new(rt.alloc());
    let dc = PredictionMode::DC_PRED;
    let size = BlockSize::BLOCK_16X16;
    let sampling = ChromaSampling::Cs420;
    cw.write_use_palette_mode(&mut w, false, size, CORNER, dc, dc, 1, 1, sampling)?;
    ends(w, 3, &[0x20])
}

#[test]
fn factors_of_both_signs(rt: HostRuntime) -> Result<(), Fail> {
    let mut cw = fresh(rt.alloc(), 4, 4)?;
    let mut w = WriterEncoder::new(rt.alloc());
    let cfl = CFLParams {
        sign: [CFLSign::CFL_SIGN_POS, CFLSign::CFL_SIGN_NEG],
        scale: [3, 2],
    };
    cw.write_cfl_alphas(&mut w, cfl)?;
    ends(w, 12, &[0xc4, 0x10])
}

#[test]
fn a_segment_of_a_skipped_block(rt: HostRuntime) -> Result<(), Fail> {
    let mut cw = fresh(rt.alloc(), 4, 4)?;
    let mut w = WriterEncoder::new(rt.alloc());
    cw.write_segmentation(&mut w, CORNER, BlockSize::BLOCK_8X8, true, 7)?;
    ends(w, 1, &[0x80])
}

#[test]
fn an_index_of_the_filter(rt: HostRuntime) -> Result<(), Fail> {
    let mut cw = fresh(rt.alloc(), 4, 4)?;
    let mut w = WriterEncoder::new(rt.alloc());
    cw.write_cdef(&mut w, 5, 3)?;
    ends(w, 4, &[0xb0])
}

#[test]
fn numbers_around_a_prediction(rt: HostRuntime) -> Result<(), Fail> {
    for (x, s) in [(3, 0), (4, 1), (2, 2), (5, 3), (1, 4), (6, 5), (0, 6)] {
        if x < 7 {
            assert_eq!(rt; ContextWriter::neg_interleave(x, 3, 7), s, "{x}");
        }
    }
    Ok(())
}
