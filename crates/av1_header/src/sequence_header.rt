// What holds of a whole sequence of frames.
ghost use Rattle.std.specs.Prelude.{◌≡◌, ◌+◌, ◌-◌, ◌^◌, ◌<◌, ◌≤◌, ◌==◌, if◌then◌else◌};
ghost use Rattle.av1_header.specs.Rows.{Wrote};
ghost use Rattle.av1_header.specs.SequenceHeader.{SidesFit, ToolsFit, SequenceFits, bit_length, max_frame_size, profile, timing};
ghost use Rattle.av1_header.specs.SequenceHeader.{operating_point, intra_tools, inter_tools, forces_of, forces, filters, tools, sequence_header};

use crate::color::write_color;
use crate::rows::{fixed, flag_or, number_or};
use crate::values::{Filters, Forces, InterTools, MaxSize, Profile, SequenceValues, Tools};
use av1_bits::BitWriter;
use av1_frame::{FrameInvariants, Sequence};

// How many binary digits a number has, at least 1.
#[tactic(auto, unfolding(crate::specs::SequenceHeader::bit_length))]
pub(crate) fn bit_length(n: u32) -> u32
    ensures value { result ≡ bit_length n }
    ensures holds { n < 2 ^ result }
    ensures least { 1 ≤ result }
    ensures most { n < 65536 → result ≤ 16 }
{
    (32 - n.leading_zeros()).max(1)
}

// A side that is coded as one less.
pub(crate) fn less_one(side: usize) -> u32
    requires some { 1 ≤ side }
    requires few { side ≤ 65536 }
    ensures { result ≡ side - 1 }
{
    side as u32 - 1
}

// The bits of a side less one, which are coded as one less.
fn side_bits(side: usize) -> u32
    requires some { 1 ≤ side }
    requires few { side ≤ 65536 }
    ensures value { result ≡ bit_length (side - 1) - 1 }
    ensures few { result < 2 ^ 4 }
    ensures holds { side - 1 < 2 ^ (result + 1) }
{
    bit_length(less_one(side)) - 1
}

pub(crate) fn write_max_size(
    bits: &mut BitWriter,
    refused: &mut bool,
    fi: &FrameInvariants,
) -> MaxSize
    requires { SidesFit fi.now }
    ensures { Wrote max_frame_size fi.now result refused.old refused.new bits.old bits.new }
{
    let w = number_or(bits, refused, true, 0, 4, side_bits(fi.width));
    let h = number_or(bits, refused, true, 0, 4, side_bits(fi.height));
    let width = number_or(bits, refused, true, 0, w + 1, less_one(fi.width));
    let height = number_or(bits, refused, true, 0, h + 1, less_one(fi.height));
    MaxSize {
        width_bits: w + 1,
        height_bits: h + 1,
        width: width + 1,
        height: height + 1,
    }
}

fn write_profile(bits: &mut BitWriter, refused: &mut bool, seq: &Sequence) -> Profile
    requires { seq.now.profile < 2 ^ 3 }
    ensures { Wrote profile seq.now result refused.old refused.new bits.old bits.new }
{
    let profile = number_or(bits, refused, true, 0, 3, u32::from(seq.profile));
    flag_or(bits, refused, true, false, seq.still_picture);
    let reduced = flag_or(bits, refused, true, false, seq.reduced_still_picture_hdr);
    Profile { profile, reduced }
}

fn write_timing(bits: &mut BitWriter, refused: &mut bool, seq: &Sequence, reduced: bool)
    requires num { seq.now.time_base.num < 2 ^ 32 }
    requires den { seq.now.time_base.den < 2 ^ 32 }
    ensures { Wrote (timing reduced) seq.now 0 refused.old refused.new bits.old bits.new }
{
    let present = flag_or(bits, refused, !reduced, false, seq.timing_info_present);
    number_or(bits, refused, present, 0, 32, seq.time_base.num as u32);
    number_or(bits, refused, present, 0, 32, seq.time_base.den as u32);
    fixed(bits, refused, present, 1, 1);
    fixed(bits, refused, present, 1, 1);
    fixed(bits, refused, present, 1, 0);
}

fn write_operating_point(bits: &mut BitWriter, refused: &mut bool, seq: &Sequence, reduced: bool)
    requires { seq.now.level_idx < 2 ^ 5 }
    ensures { Wrote (operating_point reduced) seq.now 0 refused.old refused.new bits.old bits.new }
{
    fixed(bits, refused, !reduced, 1, 0);
    fixed(bits, refused, !reduced, 5, 0);
    fixed(bits, refused, !reduced, 12, 0);
    let level = number_or(bits, refused, true, 0, 5, u32::from(seq.level_idx));
    fixed(bits, refused, !reduced & (level > 7), 1, 0);
}

fn write_intra_tools(
    bits: &mut BitWriter,
    refused: &mut bool,
    seq: &Sequence,
    reduced: bool,
) -> bool
    ensures { Wrote (intra_tools reduced) seq.now result refused.old refused.new bits.old bits.new }
{
    fixed(bits, refused, !reduced, 1, 0);
    flag_or(bits, refused, true, false, seq.use_128x128_superblock);
    flag_or(bits, refused, true, false, seq.enable_filter_intra);
    flag_or(bits, refused, true, false, seq.enable_intra_edge_filter)
}

fn write_inter_tools(
    bits: &mut BitWriter,
    refused: &mut bool,
    seq: &Sequence,
    reduced: bool,
) -> InterTools
    ensures { Wrote (inter_tools reduced) seq.now result refused.old refused.new bits.old bits.new }
{
    let some = !reduced;
    flag_or(bits, refused, some, false, seq.enable_interintra_compound);
    flag_or(bits, refused, some, false, seq.enable_masked_compound);
    let warped_motion = flag_or(bits, refused, some, false, seq.enable_warped_motion);
    flag_or(bits, refused, some, false, seq.enable_dual_filter);
    let order_hint = flag_or(bits, refused, some, false, seq.enable_order_hint);
    flag_or(bits, refused, order_hint, false, seq.enable_jnt_comp);
    let ref_frame_mvs = flag_or(bits, refused, order_hint, false, seq.enable_ref_frame_mvs);
    InterTools {
        warped_motion,
        order_hint,
        ref_frame_mvs,
    }
}

// What the rows of forces tell, where an order hint has one bit more than `n`, or there is none.
fn told_forces(screen: u32, integer: u32, hints: bool, n: u32) -> Forces
    requires { n < 2 ^ 3 }
    ensures { result ≡ forces_of screen integer hints n }
{
    Forces {
        screen_content_tools: screen,
        integer_mv: integer,
        order_hint_bits: if hints { n + 1 } else { 0 },
    }
}

fn write_forces(
    bits: &mut BitWriter,
    refused: &mut bool,
    seq: &Sequence,
    reduced: bool,
    hints: bool,
) -> Forces
    requires screen { seq.now.force_screen_content_tools ≤ 2 }
    requires integer { seq.now.force_integer_mv ≤ 2 }
    requires hint_bits { seq.now.order_hint_bits_minus_1 < 2 ^ 3 }
    ensures { Wrote (forces reduced hints) seq.now result refused.old refused.new bits.old bits.new }
{
    let some = !reduced;
    let choose = flag_or(
        bits,
        refused,
        some,
        false,
        seq.force_screen_content_tools == 2,
    );
    let screen = number_or(
        bits,
        refused,
        some & !choose,
        2,
        1,
        seq.force_screen_content_tools,
    );
    let more = some & (screen != 0);
    let choose = flag_or(bits, refused, more, false, seq.force_integer_mv == 2);
    let integer = number_or(bits, refused, more & !choose, 2, 1, seq.force_integer_mv);
    let n = number_or(bits, refused, hints, 0, 3, seq.order_hint_bits_minus_1);
    told_forces(screen, integer, hints, n)
}

fn write_filters(bits: &mut BitWriter, refused: &mut bool, seq: &Sequence) -> Filters
    ensures { Wrote filters seq.now result refused.old refused.new bits.old bits.new }
{
    flag_or(bits, refused, true, false, seq.enable_superres);
    let cdef = flag_or(bits, refused, true, false, seq.enable_cdef);
    let restoration = flag_or(bits, refused, true, false, seq.enable_restoration);
    Filters { cdef, restoration }
}

pub(crate) fn write_tools(
    bits: &mut BitWriter,
    refused: &mut bool,
    fi: &FrameInvariants,
    reduced: bool,
) -> Tools
    requires { ToolsFit fi.now }
    ensures { Wrote (tools reduced) fi.now result refused.old refused.new bits.old bits.new }
{
    let size = write_max_size(bits, refused, fi);
    write_intra_tools(bits, refused, &fi.sequence, reduced);
    let inter = write_inter_tools(bits, refused, &fi.sequence, reduced);
    let forces = write_forces(bits, refused, &fi.sequence, reduced, inter.order_hint);
    let filters = write_filters(bits, refused, &fi.sequence);
    Tools {
        size,
        inter,
        forces,
        filters,
    }
}

pub(crate) fn write_sequence(
    bits: &mut BitWriter,
    refused: &mut bool,
    fi: &FrameInvariants,
) -> SequenceValues
    requires { SequenceFits fi.now }
    ensures { Wrote sequence_header fi.now result refused.old refused.new bits.old bits.new }
{
    let head = write_profile(bits, refused, &fi.sequence);
    write_timing(bits, refused, &fi.sequence, head.reduced);
    write_operating_point(bits, refused, &fi.sequence, head.reduced);
    let tools = write_tools(bits, refused, fi, head.reduced);
    let color = write_color(bits, refused, &fi.sequence, head.profile);
    let film_grain = flag_or(
        bits,
        refused,
        true,
        false,
        fi.sequence.film_grain_params_present,
    );
    SequenceValues {
        reduced: head.reduced,
        tools,
        color,
        film_grain,
    }
}
