// Motion vectors, by how they differ from a reference vector, which rav1e codes in `block_unit.rs` and `context/mod.rs`.
ghost use Rattle.std.specs.Prelude.{◌≡◌, ℕ, ◌+◌, ◌*◌, ◌/◌, ◌^◌, ◌<◌, ◌≤◌, not, pos, if◌then◌else◌};
ghost use Rattle.std.specs.Ordering.{int_eq};
ghost use Rattle.av1_cdf.specs.Context.{AreCdfs};
ghost use Rattle.av1_cdf.specs.Slots.{slot_of};
ghost use Rattle.av1_geometry.specs.Cfl.{magnitude};
ghost use Rattle.av1_geometry.specs.MotionVector.{IsValid, joint_of, is_vertical, class_base};
ghost use Rattle.av1_syntax.specs.Vectors.{has_quarters, has_eighths, span, quarters_slot, eighth_slot, with_ones, is_negative};
ghost use Rattle.av1_syntax.specs.Vectors.{coded_from, coded_component, IsComponent, joint_number, difference, IsDifference};

use crate::context_writer::ContextWriter;
use av1_cdf::{CDFContext, CDFOffset};
use av1_ec::Writer;
use av1_geometry::{
    MotionVector, MvJointType, MvSubpelPrecision, OutOfMemory, av1_get_mv_joint, get_mv_class,
    mv_joint_horizontal, mv_joint_vertical,
};

impl ContextWriter {
    ghost use Rattle.av1_syntax.specs.Calls.{Coded, Moved};
    ghost use Rattle.av1_syntax.specs.Vectors.{digit, digit_where, bits_from, whole_element, fraction_at, offset_element, size_element};
    ghost use Rattle.av1_syntax.specs.Vectors.{component_element, component_where, components_element, difference_element, vector_element};

    /// Codes a vector by how it differs from a reference vector, in units of 1/8 sample: which components differ, and then the
    /// rows and the columns (`read_mv` of the AV1 specification). Without fractions the differences are whole samples, at low
    /// precision quarters.
    pub fn write_mv<W: Writer>(
        &mut self,
        w: &mut W,
        mv: MotionVector,
        ref_mv: MotionVector,
        mv_precision: MvSubpelPrecision,
    ) -> Result<(), OutOfMemory>
        requires valid { IsValid mv }
        requires difference { IsDifference mv_precision (difference mv ref_mv) }
        requires cdfs { AreCdfs self.old.fc }
        requires early { (W.position w.old).shift ≤ 2 ^ 28 }
        ensures wrote { Coded W.Known result (vector_element ref_mv mv_precision) mv w.old w.new self.old self.new }
        ensures moves { Moved W.Known 377 w.old w.new self.old self.new }
        ensures rest { self.new.bc ≡ self.old.bc }
    {
        self.write_difference(w, difference(mv, ref_mv), mv_precision)
    }

    // Codes a difference of two vectors.
    fn write_difference<W: Writer>(
        &mut self,
        w: &mut W,
        diff: MotionVector,
        precision: MvSubpelPrecision,
    ) -> Result<(), OutOfMemory>
        requires difference { IsDifference precision diff }
        requires cdfs { AreCdfs self.old.fc }
        requires early { (W.position w.old).shift ≤ 2 ^ 28 }
        ensures wrote { Coded W.Known result (difference_element precision) diff w.old w.new self.old self.new }
        ensures moves { Moved W.Known 377 w.old w.new self.old self.new }
        ensures rest { self.new.bc ≡ self.old.bc }
    {
        let joint = av1_get_mv_joint(diff);
        self.symbol(w, joint_number(joint), CDFContext::joints_cdf())?;
        self.write_components(w, diff, joint, precision)
    }

    // Codes the components of a difference that are not zero.
    fn write_components<W: Writer>(
        &mut self,
        w: &mut W,
        diff: MotionVector,
        joint: MvJointType,
        precision: MvSubpelPrecision,
    ) -> Result<(), OutOfMemory>
        requires difference { IsDifference precision diff }
        requires joint { joint ≡ joint_of diff }
        requires cdfs { AreCdfs self.old.fc }
        requires shift { (W.position w.old).shift + 364 ≤ 2 ^ 28 + 2 ^ 24 }
        ensures wrote { Coded W.Known result (components_element precision joint) diff w.old w.new self.old self.new }
        ensures moves { Moved W.Known 364 w.old w.new self.old self.new }
        ensures rest { self.new.bc ≡ self.old.bc }
    {
        self.write_component(w, mv_joint_vertical(joint), diff.row, 0, precision)?;
        self.write_component(w, mv_joint_horizontal(joint), diff.col, 1, precision)
    }

    // Codes a component, unless it is zero.
    fn write_component<W: Writer>(
        &mut self,
        w: &mut W,
        there: bool,
        comp: i16,
        axis: usize,
        precision: MvSubpelPrecision,
    ) -> Result<(), OutOfMemory>
        requires there { there ≡ not (int_eq comp (pos 0)) }
        requires axis { axis < 2 }
        requires component { IsComponent precision comp }
        requires cdfs { AreCdfs self.old.fc }
        requires shift { (W.position w.old).shift + 182 ≤ 2 ^ 28 + 2 ^ 24 }
        ensures wrote { Coded W.Known result (component_where there axis precision) comp w.old w.new self.old self.new }
        ensures moves { Moved W.Known 182 w.old w.new self.old self.new }
        ensures rest { self.new.bc ≡ self.old.bc }
    {
        if there {
            let (negative, z) = sign_and_size(i32::from(comp));
            return self.code_component(w, negative, z, axis, precision);
        }
        Ok(())
    }

    /// Codes a component of a vector that is not zero, from -16384 to 16384 in units of 1/8 sample: its sign, the class of its
    /// size, and what the size has above the base of the class. Sizes count from 0, and the bits that a precision does not
    /// code are read as ones: so a size that is no multiple of the precision's unit stands for the next one (`read_mv_component`
    /// of the AV1 specification). `axis` is 0 for rows and 1 for columns.
    pub fn encode_mv_component<W: Writer>(
        &mut self,
        w: &mut W,
        comp: i32,
        axis: usize,
        precision: MvSubpelPrecision,
    ) -> Result<(), OutOfMemory>
        requires some { 1 ≤ magnitude comp }
        requires size { magnitude comp ≤ 16384 }
        requires axis { axis < 2 }
        requires cdfs { AreCdfs self.old.fc }
        requires early { (W.position w.old).shift ≤ 2 ^ 28 }
        ensures wrote { Coded W.Known result (component_element axis precision) (coded_component precision comp) w.old w.new self.old self.new }
        ensures moves { Moved W.Known 182 w.old w.new self.old self.new }
        ensures rest { self.new.bc ≡ self.old.bc }
    {
        let (negative, z) = sign_and_size(comp);
        self.code_component(w, negative, z, axis, precision)
    }

    // Codes a component by its sign and its size, which counts from 0.
    fn code_component<W: Writer>(
        &mut self,
        w: &mut W,
        negative: bool,
        z: u32,
        axis: usize,
        precision: MvSubpelPrecision,
    ) -> Result<(), OutOfMemory>
        requires size { z < 16384 }
        requires axis { axis < 2 }
        requires cdfs { AreCdfs self.old.fc }
        requires shift { (W.position w.old).shift + 182 ≤ 2 ^ 28 + 2 ^ 24 }
        ensures wrote { Coded W.Known result (component_element axis precision) (coded_from precision negative z) w.old w.new self.old self.new }
        ensures moves { Moved W.Known 182 w.old w.new self.old self.new }
        ensures rest { self.new.bc ≡ self.old.bc }
    {
        self.flag(w, negative, CDFContext::sign_cdf(axis))?;
        self.write_mv_size(w, z, axis, precision)
    }

    // Codes a size, counted from 0: its class, and what it has above the base of the class.
    fn write_mv_size<W: Writer>(
        &mut self,
        w: &mut W,
        z: u32,
        axis: usize,
        precision: MvSubpelPrecision,
    ) -> Result<(), OutOfMemory>
        requires size { z < 16384 }
        requires axis { axis < 2 }
        requires cdfs { AreCdfs self.old.fc }
        requires shift { (W.position w.old).shift + 169 ≤ 2 ^ 28 + 2 ^ 24 }
        ensures wrote { Coded W.Known result (size_element axis precision) (with_ones precision z) w.old w.new self.old self.new }
        ensures moves { Moved W.Known 169 w.old w.new self.old self.new }
        ensures rest { self.new.bc ≡ self.old.bc }
    {
        let (mv_class, offset) = get_mv_class(z);
        self.digit(w, mv_class as u32, CDFContext::classes_cdf(axis))?;
        self.write_mv_offset(w, offset, axis, precision, mv_class)
    }

    // Codes what a size has above the base of its class.
    fn write_mv_offset<W: Writer>(
        &mut self,
        w: &mut W,
        offset: u32,
        axis: usize,
        precision: MvSubpelPrecision,
        mv_class: usize,
    ) -> Result<(), OutOfMemory>
        requires class { mv_class ≤ 10 }
        requires offset { offset < 8 * span mv_class }
        requires axis { axis < 2 }
        requires cdfs { AreCdfs self.old.fc }
        requires shift { (W.position w.old).shift + 156 ≤ 2 ^ 28 + 2 ^ 24 }
        ensures wrote { Coded W.Known result (offset_element axis precision mv_class) (with_ones precision offset) w.old w.new self.old self.new }
        ensures moves { Moved W.Known 156 w.old w.new self.old self.new }
        ensures rest { self.new.bc ≡ self.old.bc }
    {
        self.write_mv_whole(w, offset / 8, axis, mv_class)?;
        self.write_mv_fraction(w, offset, axis, precision, mv_class)
    }

    // Codes the whole samples of a size above the base of its class.
    fn write_mv_whole<W: Writer>(
        &mut self,
        w: &mut W,
        d: u32,
        axis: usize,
        mv_class: usize,
    ) -> Result<(), OutOfMemory>
        requires class { mv_class ≤ 10 }
        requires few { d < span mv_class }
        requires axis { axis < 2 }
        requires cdfs { AreCdfs self.old.fc }
        requires shift { (W.position w.old).shift + 130 ≤ 2 ^ 28 + 2 ^ 24 }
        ensures wrote { Coded W.Known result (whole_element axis mv_class) d w.old w.new self.old self.new }
        ensures moves { Moved W.Known 130 w.old w.new self.old self.new }
        ensures rest { self.new.bc ≡ self.old.bc }
    {
        if mv_class == 0 {
            return self.digit(w, d, CDFContext::class0_cdf(axis));
        }
        self.write_mv_bits(w, d, axis, mv_class)
    }

    // Codes so many bits, the lowest first.
    fn write_mv_bits<W: Writer>(
        &mut self,
        w: &mut W,
        d: u32,
        axis: usize,
        bits: usize,
    ) -> Result<(), OutOfMemory>
        requires bits { bits ≤ 10 }
        requires few { d < 2 ^ bits }
        requires axis { axis < 2 }
        requires cdfs { AreCdfs self.old.fc }
        requires shift { (W.position w.old).shift + 130 ≤ 2 ^ 28 + 2 ^ 24 }
        ensures wrote { Coded W.Known result (bits_from axis bits 0 0) d w.old w.new self.old self.new }
        ensures moves { Moved W.Known 130 w.old w.new self.old self.new }
        ensures rest { self.new.bc ≡ self.old.bc }
    {
        for i in 0..bits {
            self.digit(w, (d >> i) % 2, CDFContext::bits_cdf(axis, i))?;
        }
        Ok(())
    }

    // Codes the quarters of a sample and the eighth, each where the precision has it.
    fn write_mv_fraction<W: Writer>(
        &mut self,
        w: &mut W,
        offset: u32,
        axis: usize,
        precision: MvSubpelPrecision,
        mv_class: usize,
    ) -> Result<(), OutOfMemory>
        requires class { mv_class ≤ 10 }
        requires offset { offset < 8 * span mv_class }
        requires axis { axis < 2 }
        requires cdfs { AreCdfs self.old.fc }
        requires shift { (W.position w.old).shift + 26 ≤ 2 ^ 28 + 2 ^ 24 }
        ensures wrote { Coded W.Known result (fraction_at axis precision mv_class offset) (with_ones precision offset) w.old w.new self.old self.new }
        ensures moves { Moved W.Known 26 w.old w.new self.old self.new }
        ensures rest { self.new.bc ≡ self.old.bc }
    {
        let quarters = quarters_slot(axis, mv_class, offset / 8);
        self.digit_where(w, has_quarters(precision), offset / 2 % 4, quarters)?;
        let eighth = eighth_slot(axis, mv_class);
        self.digit_where(w, has_eighths(precision), offset % 2, eighth)
    }

    // Codes a number where it is asked; else it is known.
    fn digit_where<W: Writer>(
        &mut self,
        w: &mut W,
        asked: bool,
        s: u32,
        cdf: CDFOffset,
    ) -> Result<(), OutOfMemory>
        requires s { s < cdf.len }
        requires cdfs { AreCdfs self.old.fc }
        requires shift { (W.position w.old).shift + 13 ≤ 2 ^ 28 + 2 ^ 24 }
        ensures wrote { (default : ℕ) →
            Coded W.Known result (digit_where asked (slot_of cdf) default) (if asked then s else default) w.old w.new self.old self.new }
        ensures moves { Moved W.Known 13 w.old w.new self.old self.new }
        ensures rest { self.new.bc ≡ self.old.bc }
    {
        if asked {
            return self.digit(w, s, cdf);
        }
        Ok(())
    }

    // Codes a number by a distribution of the context.
    fn digit<W: Writer>(&mut self, w: &mut W, s: u32, cdf: CDFOffset) -> Result<(), OutOfMemory>
        requires s { s < cdf.len }
        requires cdfs { AreCdfs self.old.fc }
        requires shift { (W.position w.old).shift + 13 ≤ 2 ^ 28 + 2 ^ 24 }
        ensures wrote { Coded W.Known result (digit (slot_of cdf)) s w.old w.new self.old self.new }
        ensures moves { Moved W.Known 13 w.old w.new self.old self.new }
        ensures rest { self.new.bc ≡ self.old.bc }
    {
        self.symbol(w, s, cdf)
    }
}

// How a vector differs from a reference vector.
fn difference(mv: MotionVector, ref_mv: MotionVector) -> MotionVector
    requires rows { magnitude (difference mv ref_mv).row ≤ 16384 }
    requires columns { magnitude (difference mv ref_mv).col ≤ 16384 }
    ensures { result ≡ difference mv ref_mv }
{
    MotionVector {
        row: mv.row - ref_mv.row,
        col: mv.col - ref_mv.col,
    }
}

// The sign of a component, and its size, counted from 0.
fn sign_and_size(comp: i32) -> (bool, u32)
    requires some { 1 ≤ magnitude comp }
    ensures sign { result.0 ≡ is_negative comp }
    ensures size { result.1 + 1 ≡ magnitude comp }
{
    (comp < 0, comp.unsigned_abs() - 1)
}

// The distribution of the quarters of a size.
fn quarters_slot(axis: usize, mv_class: usize, d: u32) -> CDFOffset
    requires axis { axis < 2 }
    requires whole { mv_class ≡ 0 → d < 2 }
    ensures is { slot_of result ≡ quarters_slot axis mv_class d }
    ensures len { result.len ≡ 4 }
{
    if mv_class == 0 {
        CDFContext::class0_fp_cdf(axis, d as usize)
    } else {
        CDFContext::fp_cdf(axis)
    }
}

// The distribution of the eighth of a size.
fn eighth_slot(axis: usize, mv_class: usize) -> CDFOffset
    requires { axis < 2 }
    ensures is { slot_of result ≡ eighth_slot axis mv_class }
    ensures len { result.len ≡ 2 }
{
    if mv_class == 0 {
        CDFContext::class0_hp_cdf(axis)
    } else {
        CDFContext::hp_cdf(axis)
    }
}

// Whether quarters of a sample are coded.
fn has_quarters(precision: MvSubpelPrecision) -> bool
    ensures { result ≡ has_quarters precision }
{
    !matches!(precision, MvSubpelPrecision::MV_SUBPEL_NONE)
}

// Whether eighths are coded.
fn has_eighths(precision: MvSubpelPrecision) -> bool
    ensures { result ≡ has_eighths precision }
{
    matches!(precision, MvSubpelPrecision::MV_SUBPEL_HIGH_PRECISION)
}

// The symbol of a joint.
fn joint_number(joint: MvJointType) -> u32
    ensures value { result ≡ joint_number joint }
    ensures few { result < 4 }
{
    joint as u32
}
