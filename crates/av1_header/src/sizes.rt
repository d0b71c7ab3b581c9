// The sides of frames.
ghost use Rattle.std.specs.Prelude.{◌≡◌, ℕ, ◌-◌, ◌^◌, ◌<◌, ◌≤◌, slice_index_or};
ghost use Rattle.av1_header.specs.Rows.{Wrote};
ghost use Rattle.av1_header.specs.SequenceHeader.{SidesFit};
ghost use Rattle.av1_header.specs.Sizes.{BitsHold, with_refs, RenderFits, frame_size, render_size, found_ref};
ghost use Rattle.av1_header.specs.Sizes.{searched, sizes, has_sides_of, reference_has_sides, max_size_of};

use crate::rows::{flag_or, number_or};
use crate::sequence_header::{bit_length, less_one};
use crate::values::MaxSize;
use av1_bits::BitWriter;
use av1_frame::{FrameInvariants, RefState, Refs};

pub(crate) fn max_size(fi: &FrameInvariants) -> MaxSize
    requires { SidesFit fi.now }
    ensures value { result ≡ max_size_of fi.now }
    ensures bits { BitsHold result fi.now }
{
    MaxSize {
        width_bits: bit_length(less_one(fi.width)),
        height_bits: bit_length(less_one(fi.height)),
        width: fi.width as u32,
        height: fi.height as u32,
    }
}

pub(crate) fn write_own_size(
    bits: &mut BitWriter,
    refused: &mut bool,
    fi: &FrameInvariants,
    own: bool,
    size: &MaxSize,
) -> u32
    requires sides { SidesFit fi.now }
    requires bits { BitsHold size.now fi.now }
    ensures { Wrote (frame_size own size.now) fi.now result refused.old refused.new bits.old bits.new }
{
    number_or(bits, refused, own, 0, size.width_bits, less_one(fi.width));
    number_or(bits, refused, own, 0, size.height_bits, less_one(fi.height))
}

pub(crate) fn write_shown_size(
    bits: &mut BitWriter,
    refused: &mut bool,
    fi: &FrameInvariants,
    there: bool,
) -> u32
    requires { RenderFits fi.now }
    ensures { Wrote (render_size there) fi.now result refused.old refused.new bits.old bits.new }
{
    let differs = flag_or(
        bits,
        refused,
        there,
        false,
        fi.render_and_frame_size_different,
    );
    number_or(bits, refused, differs, 0, 16, less_one(fi.render_width));
    number_or(bits, refused, differs, 0, 16, less_one(fi.render_height))
}

fn has_sides(fi: &FrameInvariants, reference: Option<RefState>) -> bool
    ensures { result ≡ has_sides_of fi.now reference }
{
    match reference {
        Some(r) => {
            r.width == fi.width
                && r.height == fi.height
                && r.render_width == fi.render_width
                && r.render_height == fi.render_height
        }
        None => false,
    }
}

fn reference_has_sides(fi: &FrameInvariants, refs: &Refs, i: usize) -> bool
    requires place { i < 7 }
    requires fits { slice_index_or fi.now.ref_frames i 0 < 8 }
    ensures { result ≡ reference_has_sides i (with_refs fi.now refs.now) }
{
    has_sides(fi, refs[fi.ref_frames[i] as usize])
}

fn write_found(
    bits: &mut BitWriter,
    refused: &mut bool,
    fi: &FrameInvariants,
    refs: &Refs,
    n: usize,
) -> bool
    requires few { n ≤ 7 }
    requires fits { (i : ℕ) → i < n → slice_index_or fi.now.ref_frames i 0 < 8 }
    ensures { Wrote (found_ref n 0) (with_refs fi.now refs.now) result refused.old refused.new bits.old bits.new }
{
    for i in 0..n {
        let found = flag_or(bits, refused, true, false, reference_has_sides(fi, refs, i));
        if found {
            return true;
        }
    }
    false
}

pub(crate) fn write_sizes(
    bits: &mut BitWriter,
    refused: &mut bool,
    fi: &FrameInvariants,
    refs: &Refs,
    n: usize,
    own: bool,
    size: &MaxSize,
) -> u32
    requires few { n ≤ 7 }
    requires places { (i : ℕ) → i < n → slice_index_or fi.now.ref_frames i 0 < 8 }
    requires sides { SidesFit fi.now }
    requires render { RenderFits fi.now }
    requires bits { BitsHold size.now fi.now }
    ensures { Wrote (sizes n own size.now) (with_refs fi.now refs.now) result refused.old refused.new bits.old bits.new }
{
    let found = write_found(bits, refused, fi, refs, n);
    write_own_size(bits, refused, fi, own & !found, size);
    write_shown_size(bits, refused, fi, !found)
}

fn searched(there: bool) -> usize
    ensures value { result ≡ searched there }
    ensures few { result ≤ 7 }
{
    if there { 7 } else { 0 }
}

pub(crate) fn write_searched_sizes(
    bits: &mut BitWriter,
    refused: &mut bool,
    fi: &FrameInvariants,
    refs: &Refs,
    there: bool,
    own: bool,
    size: &MaxSize,
) -> u32
    requires places { (i : ℕ) → i < 7 → slice_index_or fi.now.ref_frames i 0 < 2 ^ 3 }
    requires sides { SidesFit fi.now }
    requires render { RenderFits fi.now }
    requires bits { BitsHold size.now fi.now }
    ensures { Wrote (sizes (searched there) own size.now) (with_refs fi.now refs.now) result refused.old refused.new bits.old bits.new }
{
    write_sizes(bits, refused, fi, refs, searched(there), own, size)
}
