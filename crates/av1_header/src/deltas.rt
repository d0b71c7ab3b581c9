// The quantizer and the deblocking filter of a frame.
ghost use Rattle.std.specs.Prelude.{◌≡◌, ℕ, ◌+◌, ◌-◌, ◌^◌, ◌<◌, ◌≤◌, ◌==◌, ◌&&◌, not, unsigned_abs, slice_index_or};
ghost use Rattle.av1_header.specs.Deltas.{QuantizerFits, DeblockFits, PrimaryFits, going_on, delta, same, read_delta_q};
ghost use Rattle.av1_header.specs.Deltas.{chroma_differs, quantization_params, delta_lf_params, changed_delta, levels};
ghost use Rattle.av1_header.specs.Deltas.{ref_deltas, mode_deltas, loop_filter_params, deltas_of, primary_reference, deltas_before};
ghost use Rattle.av1_header.specs.Rows.{InBits, Wrote};

use crate::rows::{fixed, flag_or, number_or, signed_if};
use av1_bits::BitWriter;
use av1_frame::{DeblockState, FrameInvariants, RefState, Refs};

/// The deltas of the deblocking filter by reference frame and by mode.
#[derive(Clone, Copy)]
pub struct Deltas {
    pub ref_deltas: [i8; 8],
    pub mode_deltas: [i8; 2],
}

fn wide(z: i8) -> i16
    ensures { result ≡ z }
{
    i16::from(z)
}

// Whether a delta is not 0.
fn is_some(z: i8) -> bool
    ensures { result ≡ not (unsigned_abs z == 0) }
{
    z.unsigned_abs() != 0
}

fn same(a: i8, b: i8) -> bool
    ensures { result ≡ same a b }
{
    (i16::from(a) - i16::from(b)).unsigned_abs() == 0
}

pub(crate) fn write_delta(bits: &mut BitWriter, refused: &mut bool, z: i8, there: bool)
    requires { InBits 7 z }
    ensures { Wrote (read_delta_q there) z tt refused.old refused.new bits.old bits.new }
{
    let coded = flag_or(bits, refused, there, false, is_some(z));
    signed_if(bits, refused, coded, 7, wide(z));
}

fn chroma_differs(fi: &FrameInvariants) -> bool
    ensures { result ≡ chroma_differs fi.now }
{
    !same(dc_delta(fi, 1), dc_delta(fi, 2)) || !same(ac_delta(fi, 1), ac_delta(fi, 2))
}

fn dc_delta(fi: &FrameInvariants, i: usize) -> i8
    requires { i < 3 }
    ensures { result ≡ delta fi.now.dc_delta_q i }
{
    fi.dc_delta_q[i]
}

fn ac_delta(fi: &FrameInvariants, i: usize) -> i8
    requires { i < 3 }
    ensures { result ≡ delta fi.now.ac_delta_q i }
{
    fi.ac_delta_q[i]
}

pub(crate) fn write_quantizer(
    bits: &mut BitWriter,
    refused: &mut bool,
    fi: &FrameInvariants,
    monochrome: bool,
)
    requires { QuantizerFits fi.now }
    ensures { Wrote (quantization_params monochrome) fi.now 0 refused.old refused.new bits.old bits.new }
{
    number_or(bits, refused, true, 0, 8, u32::from(fi.base_q_idx));
    write_delta(bits, refused, dc_delta(fi, 0), true);
    let differs = flag_or(bits, refused, !monochrome, false, chroma_differs(fi));
    write_delta(bits, refused, dc_delta(fi, 1), !monochrome);
    write_delta(bits, refused, ac_delta(fi, 1), !monochrome);
    write_delta(bits, refused, dc_delta(fi, 2), differs);
    write_delta(bits, refused, ac_delta(fi, 2), differs);
    fixed(bits, refused, true, 1, 0);
}

pub(crate) fn write_block_deltas(
    bits: &mut BitWriter,
    refused: &mut bool,
    deblock: &DeblockState,
    delta_q_present: bool,
    intrabc: bool,
    uncoded: bool,
)
    requires { deblock.now.block_delta_shift < 2 ^ 2 }
    ensures { Wrote (delta_lf_params delta_q_present intrabc uncoded) deblock.now tt refused.old refused.new bits.old bits.new }
{
    let present = flag_or(
        bits,
        refused,
        delta_q_present & !intrabc,
        delta_q_present & uncoded,
        deblock.block_deltas_enabled,
    );
    number_or(
        bits,
        refused,
        present,
        0,
        2,
        u32::from(deblock.block_delta_shift),
    );
    flag_or(bits, refused, present, false, deblock.block_delta_multi);
}

fn write_changed(bits: &mut BitWriter, refused: &mut bool, before: i8, now: i8, there: bool)
    requires { InBits 7 now }
    ensures { Wrote (changed_delta there) (record { before = before; now = now }) tt refused.old refused.new bits.old bits.new }
{
    let update = flag_or(bits, refused, there, false, !same(now, before));
    signed_if(bits, refused, update, 7, wide(now));
}

fn write_levels(bits: &mut BitWriter, refused: &mut bool, deblock: &DeblockState, monochrome: bool)
    requires { (i : ℕ) → i < 4 → slice_index_or deblock.now.levels i 0 < 2 ^ 6 }
    ensures { Wrote (levels monochrome) deblock.now tt refused.old refused.new bits.old bits.new }
{
    let y_v = number_or(bits, refused, true, 0, 6, u32::from(deblock.levels[0]));
    let y_h = number_or(bits, refused, true, 0, 6, u32::from(deblock.levels[1]));
    let chroma = !monochrome & ((y_v > 0) | (y_h > 0));
    number_or(bits, refused, chroma, 0, 6, u32::from(deblock.levels[2]));
    number_or(bits, refused, chroma, 0, 6, u32::from(deblock.levels[3]));
}

fn write_ref_deltas(
    bits: &mut BitWriter,
    refused: &mut bool,
    deblock: &DeblockState,
    before: &Deltas,
    there: bool,
)
    requires { DeblockFits deblock.now }
    ensures { Wrote (ref_deltas there) (going_on deblock.now before.now) tt refused.old refused.new bits.old bits.new }
{
    for i in 0..8 {
        write_changed(
            bits,
            refused,
            before.ref_deltas[i],
            deblock.ref_deltas[i],
            there,
        );
    }
}

fn write_mode_deltas(
    bits: &mut BitWriter,
    refused: &mut bool,
    deblock: &DeblockState,
    before: &Deltas,
    there: bool,
)
    requires { DeblockFits deblock.now }
    ensures { Wrote (mode_deltas there) (going_on deblock.now before.now) tt refused.old refused.new bits.old bits.new }
{
    for i in 0..2 {
        write_changed(
            bits,
            refused,
            before.mode_deltas[i],
            deblock.mode_deltas[i],
            there,
        );
    }
}

pub(crate) fn write_loop_filter(
    bits: &mut BitWriter,
    refused: &mut bool,
    deblock: &DeblockState,
    before: &Deltas,
    monochrome: bool,
)
    requires { DeblockFits deblock.now }
    ensures { Wrote (loop_filter_params monochrome) (going_on deblock.now before.now) tt refused.old refused.new bits.old bits.new }
{
    write_levels(bits, refused, deblock, monochrome);
    number_or(bits, refused, true, 0, 3, u32::from(deblock.sharpness));
    let enabled = flag_or(bits, refused, true, false, deblock.deltas_enabled);
    let update = flag_or(bits, refused, enabled, false, deblock.delta_updates_enabled);
    write_ref_deltas(bits, refused, deblock, before, update);
    write_mode_deltas(bits, refused, deblock, before, update);
}

fn deltas_of(reference: Option<RefState>) -> Deltas
    ensures { result ≡ deltas_of reference }
{
    match reference {
        Some(r) => {
            let ref_deltas = r.ref_deltas;
            let mode_deltas = r.mode_deltas;
            Deltas {
                ref_deltas,
                mode_deltas,
            }
        }
        None => Deltas {
            ref_deltas: [1, 0, 0, 0, 0, -1, -1, -1],
            mode_deltas: [0, 0],
        },
    }
}

fn primary_reference(fi: &FrameInvariants, refs: &Refs) -> Option<RefState>
    requires { PrimaryFits fi.now }
    ensures { result ≡ primary_reference fi.now refs.now }
{
    if fi.primary_ref_frame < 7 {
        refs[fi.ref_frames[fi.primary_ref_frame as usize] as usize]
    } else {
        None
    }
}

pub(crate) fn deltas_before(fi: &FrameInvariants, refs: &Refs) -> Deltas
    requires { PrimaryFits fi.now }
    ensures { result ≡ deltas_before fi.now refs.now }
{
    deltas_of(primary_reference(fi, refs))
}
