// Vectors towards another reference.
ghost use Rattle.std.specs.Prelude.{◌≡◌, ◌≤◌, ◌≤ℤ◌, negsuc, neg_ℤ};
ghost use Rattle.av1_geometry.specs.RefType.{reference_number};
ghost use Rattle.av1_geometry.specs.MotionVector.{IsValid};
ghost use Rattle.av1_mvref.specs.ExtraSearch.{turned, same_side, is_frame};

use av1_geometry::{MotionVector, RefType};

// Whether a reference is another frame.
pub(crate) fn is_frame(reference: RefType) -> bool
    ensures { result ≡ is_frame reference }
{
    reference.number() > 0 && reference.number() < 8
}

// Whether the second frame lies on the same side in time as the first.
fn same_side(sign_bias: &[bool; 7], first: RefType, second: RefType) -> bool
    requires first { 1 ≤ reference_number first }
    requires first_known { reference_number first ≤ 7 }
    requires second { 1 ≤ reference_number second }
    requires second_known { reference_number second ≤ 7 }
    ensures { result ≡ same_side sign_bias.now first second }
{
    sign_bias[first.to_index()] == sign_bias[second.to_index()]
}

// A vector of one reference towards another: turned round where that lies on the other side in time.
pub(crate) fn turned(
    sign_bias: &[bool; 7],
    from: RefType,
    to: RefType,
    mv: MotionVector,
) -> MotionVector
    requires first { 1 ≤ reference_number from }
    requires first_known { reference_number from ≤ 7 }
    requires second { 1 ≤ reference_number to }
    requires second_known { reference_number to ≤ 7 }
    requires valid { IsValid mv }
    ensures { result ≡ turned sign_bias.now to record { ref = from; mv = mv } }
{
    if same_side(sign_bias, from, to) {
        mv
    } else {
        MotionVector {
            row: negated(mv.row),
            col: negated(mv.col),
        }
    }
}

fn negated(part: i16) -> i16
    requires { negsuc 32766 ≤ℤ part }
    ensures { result ≡ neg_ℤ part }
{
    -part
}
