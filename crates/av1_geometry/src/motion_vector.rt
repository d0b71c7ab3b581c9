// Motion vectors and how their parts are coded.
ghost use Rattle.std.specs.Prelude.{◌≡◌, ◌≢◌, ℕ, ◌+◌, ◌*◌, ◌^◌, ◌<◌, ◌≤◌, ◌↔◌, IsTrue, pos, ◌<ℤ◌};
ghost use Rattle.av1_geometry.specs.MotionVector.{joint_of, is_vertical, is_horizontal, class_base, IsValid};

use crate::constants::{MV_LOW, MV_UPP};

/// A displacement in units of 1/8 sample.
#[derive(Clone, Copy, Debug, Default, PartialEq, Eq)]
pub struct MotionVector {
    pub row: i16,
    pub col: i16,
}

impl MotionVector {
    /// Whether both parts lie between `MV_LOW` and `MV_UPP`.
    pub fn is_valid(self) -> bool
        ensures { IsTrue result ↔ IsValid self }
    {
        let row = self.row as i32;
        let col = self.col as i32;
        MV_LOW < row && row < MV_UPP && MV_LOW < col && col < MV_UPP
    }
}

/// Which parts of a vector are not zero.
#[derive(Clone, Copy, Debug, PartialEq, Eq)]
pub enum MvJointType {
    MV_JOINT_ZERO,
    MV_JOINT_HNZVZ,
    MV_JOINT_HZVNZ,
    MV_JOINT_HNZVNZ,
}

/// How finely vectors are coded: in whole samples, quarters or eighths.
#[derive(Clone, Copy, Debug, PartialEq, Eq, PartialOrd)]
pub enum MvSubpelPrecision {
    MV_SUBPEL_NONE = -1,
    MV_SUBPEL_LOW_PRECISION,
    MV_SUBPEL_HIGH_PRECISION,
}

/// Which parts of a vector are not zero.
pub fn av1_get_mv_joint(mv: MotionVector) -> MvJointType
    ensures { result ≡ joint_of mv }
{
    match (mv.row, mv.col) {
        (0, 0) => MvJointType::MV_JOINT_ZERO,
        (0, _) => MvJointType::MV_JOINT_HNZVZ,
        (_, 0) => MvJointType::MV_JOINT_HZVNZ,
        (_, _) => MvJointType::MV_JOINT_HNZVNZ,
    }
}

/// Whether the row of the vector is not zero.
pub fn mv_joint_vertical(joint_type: MvJointType) -> bool
    ensures { result ≡ is_vertical joint_type }
{
    matches!(
        joint_type,
        MvJointType::MV_JOINT_HZVNZ | MvJointType::MV_JOINT_HNZVNZ
    )
}

/// Whether the column of the vector is not zero.
pub fn mv_joint_horizontal(joint_type: MvJointType) -> bool
    ensures { result ≡ is_horizontal joint_type }
{
    matches!(
        joint_type,
        MvJointType::MV_JOINT_HNZVZ | MvJointType::MV_JOINT_HNZVNZ
    )
}

/// The least size of a class, counted from 0.
pub fn mv_class_base(mv_class: usize) -> u32
    requires { mv_class ≤ 10 }
    ensures value { result ≡ class_base mv_class }
    ensures bound { result ≤ 8192 }
{
    if mv_class != 0 { 8 << mv_class } else { 0 }
}

/// The whole part of the logarithm to base 2, and 0 of 0.
pub fn log_in_base_2(n: u32) -> u8
    ensures zero { n ≡ 0 → result ≡ 0 }
    ensures at_most { 0 < n → 2 ^ result ≤ n }
    ensures above { n < 2 * 2 ^ result }
    ensures bound { result < 32 }
{
    if n == 0 { 0 } else { n.ilog2() as u8 }
}

// The greatest class whose base a size reaches, counted from 0.
fn class_of(z: u32) -> usize
    ensures bound { result ≤ 10 }
    ensures reached { class_base result ≤ z }
    ensures greatest { (c : ℕ) → c ≤ 10 → class_base c ≤ z → c ≤ result }
{
    if z >= 8192 {
        return 10;
    }
    log_in_base_2(z >> 3) as usize
}

/// The class of a size that is counted from 0, and the size within the class.
pub fn get_mv_class(z: u32) -> (usize, u32)
    ensures bound { result.0 ≤ 10 }
    ensures rest { class_base result.0 + result.1 ≡ z }
    ensures greatest { (c : ℕ) → c ≤ 10 → class_base c ≤ z → c ≤ result.0 }
{
    let mv_class = class_of(z);
    (mv_class, z - mv_class_base(mv_class))
}

/// The joint of a vector tells which of its parts are not zero.
pub fn law_mv_joint()
    ensures vertical { (mv : MotionVector) → IsTrue (is_vertical (joint_of mv)) ↔ (mv.row ≢ pos 0) }
    ensures horizontal { (mv : MotionVector) → IsTrue (is_horizontal (joint_of mv)) ↔ (mv.col ≢ pos 0) }
{}
