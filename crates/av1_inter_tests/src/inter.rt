// Single calls of inter blocks on a fresh encoder, where all symbols are equally likely, and some in a row, so that what one
// learns shows in the next.
ghost use Rattle.std.specs.Prelude.{◌≤◌};
ghost use Rattle.av1_geometry.specs.MotionVector.{IsValid};
ghost use Rattle.av1_syntax.specs.Vectors.{difference, IsDifference};

use av1_ec::{Writer, WriterEncoder};
use av1_geometry::{MotionVector, MvSubpelPrecision, PredictionMode};
use av1_syntax_tests::fresh::{CORNER, ends, fresh};
use std::alloc::Global;
use std::process::Abort;
use std::test::Fail;

fn precision_of(n: usize) -> MvSubpelPrecision {
    match n {
        0 => MvSubpelPrecision::MV_SUBPEL_NONE,
        1 => MvSubpelPrecision::MV_SUBPEL_LOW_PRECISION,
        _ => MvSubpelPrecision::MV_SUBPEL_HIGH_PRECISION,
    }
}

// The bits and the bytes of a vector against another.
fn vector(
    alloc: Global,
    mv: MotionVector,
    ref_mv: MotionVector,
    precision: MvSubpelPrecision,
    bits: u32,
    bytes: &[u8],
) -> Result<(), Fail>
    requires valid { IsValid mv }
    requires difference { IsDifference precision (difference mv ref_mv) }
{
    let mut cw = fresh(alloc, 2, 2)?;
    let mut w = WriterEncoder::new(alloc);
    cw.write_mv(&mut w, mv, ref_mv, precision)?;
    ends(w, bits, bytes)
}

#[test]
fn a_vector_of_one_sample(rt: HostRuntime) -> Result<(), Fail> {
    let mv = MotionVector { row: 0, col: 8 };
    let zero = MotionVector { row: 0, col: 0 };
    let whole = MvSubpelPrecision::MV_SUBPEL_NONE;
    vector(rt.alloc(), mv, zero, whole, 9, &[0x40, 0x80])
}

#[test]
fn a_vector_of_both_signs(rt: HostRuntime) -> Result<(), Fail> {
    let mv = MotionVector { row: -16, col: 24 };
    let ref_mv = MotionVector { row: 8, col: -8 };
    let whole = MvSubpelPrecision::MV_SUBPEL_NONE;
    vector(rt.alloc(), mv, ref_mv, whole, 14, &[0xe3, 0x04])
}

#[test]
fn a_vector_of_eighths(rt: HostRuntime) -> Result<(), Fail> {
    let mv = MotionVector { row: -1, col: 3 };
    let ref_mv = MotionVector { row: 4, col: -9 };
    let eighths = MvSubpelPrecision::MV_SUBPEL_HIGH_PRECISION;
    vector(rt.alloc(), mv, ref_mv, eighths, 20, &[0xe0, 0xba, 0x70])
}

// The number that bytes write after a 1.
fn number_of(bytes: &[u8]) -> u64 {
    let mut n = 1_u64;
    for b in bytes {
        n = n.wrapping_mul(256).wrapping_add(u64::from(*b));
    }
    n
}

// The bits of a component, and its bytes after a 1.
fn component(
    rt: &impl Abort,
    alloc: Global,
    comp: i32,
    axis: usize,
    precision: MvSubpelPrecision,
    bits: u32,
    number: u64,
) -> Result<(), Fail> {
    if comp == 0 || comp < -16384 || comp > 16384 || axis > 1 {
        return Ok(());
    }
    let mut cw = fresh(alloc, 2, 2)?;
    let mut w = WriterEncoder::new(alloc);
    cw.encode_mv_component(&mut w, comp, axis, precision)?;
    assert_eq!(rt; w.tell(), bits, "{comp}");
    let written = w.done()?;
    assert_eq!(rt; number_of(written.as_slice()), number, "{comp}");
    Ok(())
}

#[test]
fn components(rt: HostRuntime) -> Result<(), Fail> {
    for (comp, axis, precision, bits, number) in [
        (1, 0, 0, 7, 0x102),
        (1, 0, 2, 10, 0x1_0040),
        (-3, 1, 1, 9, 0x1_8180),
        (16384, 0, 0, 16, 0x1_7ff7),
        (-16384, 1, 2, 19, 0x1ff_ffe0),
        (15, 0, 2, 10, 0x1_0ac0),
        (16, 1, 2, 10, 0x1_0bc0),
        (17, 0, 1, 9, 0x1_0c80),
        (-8192, 1, 1, 17, 0x1f4_7b80),
        (8193, 0, 2, 19, 0x174_81a0),
        (100, 1, 0, 9, 0x1_2580),
    ] {
        component(
            &rt,
            rt.alloc(),
            comp,
            axis,
            precision_of(precision),
            bits,
            number,
        )?;
    }
    Ok(())
}

#[test]
fn components_in_a_row(rt: HostRuntime) -> Result<(), Fail> {
    let mut cw = fresh(rt.alloc(), 2, 2)?;
    let mut w = WriterEncoder::new(rt.alloc());
    cw.encode_mv_component(&mut w, 1, 0, precision_of(0))?;
    cw.encode_mv_component(&mut w, -3, 1, precision_of(1))?;
    cw.encode_mv_component(&mut w, 15, 0, precision_of(2))?;
    cw.encode_mv_component(&mut w, -100, 1, precision_of(2))?;
    cw.encode_mv_component(&mut w, 1000, 0, precision_of(2))?;
    ends(w, 46, &[0x03, 0x11, 0xb1, 0x68, 0x8e, 0x1c])
}

#[test]
fn modes_in_a_row(rt: HostRuntime) -> Result<(), Fail> {
    let mut cw = fresh(rt.alloc(), 2, 2)?;
    let mut w = WriterEncoder::new(rt.alloc());
    cw.write_inter_mode(&mut w, PredictionMode::NEWMV, 0)?;
    cw.write_inter_mode(&mut w, PredictionMode::GLOBALMV, 0x0d)?;
    cw.write_inter_mode(&mut w, PredictionMode::NEARESTMV, 0x55)?;
    cw.write_inter_mode(&mut w, PredictionMode::NEAR0MV, 0x23)?;
    cw.write_inter_mode(&mut w, PredictionMode::NEARESTMV, 0x5d)?;
    ends(w, 13, &[0x5b, 0xc8])
}

#[test]
fn compound_modes_in_a_row(rt: HostRuntime) -> Result<(), Fail> {
    let mut cw = fresh(rt.alloc(), 2, 2)?;
    let mut w = WriterEncoder::new(rt.alloc());
    cw.write_compound_mode(&mut w, PredictionMode::NEAREST_NEARESTMV, 0)?;
    cw.write_compound_mode(&mut w, PredictionMode::NEW_NEWMV, 0x13)?;
    cw.write_compound_mode(&mut w, PredictionMode::NEAR_NEW0MV, 0x24)?;
    cw.write_compound_mode(&mut w, PredictionMode::NEAREST_NEARESTMV, 0)?;
    cw.write_compound_mode(&mut w, PredictionMode::NEW_NEWMV, 0x55)?;
    ends(w, 16, &[0x1d, 0xdd])
}

#[test]
fn an_inter_block_and_a_later_candidate(rt: HostRuntime) -> Result<(), Fail> {
    let mut cw = fresh(rt.alloc(), 2, 2)?;
    let mut w = WriterEncoder::new(rt.alloc());
    cw.write_is_inter(&mut w, CORNER, true)?;
    ends(w, 2, &[0xc0])?;
    let mut w = WriterEncoder::new(rt.alloc());
    cw.write_drl_mode(&mut w, true, 2)?;
    ends(w, 2, &[0xc0])
}
