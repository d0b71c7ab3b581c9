// The codes of one of several values.
ghost use Rattle.std.specs.Prelude.{◌^◌, ◌≤◌, IfSome};
ghost use Rattle.av1_ec.specs.Checkpoint.{KeepsCheckpoints};
ghost use Rattle.av1_script.specs.Allowed.{IsCode};

use crate::args::{between, signed, up_to};
use av1_ec::{Writer, law_of_lengths};
use av1_geometry::OutOfMemory;

/// The most values of a code.
const MOST_VALUES: u32 = 1 << 24;

/// The greatest first width of a subexponential code.
const MOST_WIDTH: u32 = 16;

/// A value, with the code that it is coded in, by the names that the writers' calls give their arguments.
#[derive(Clone, Copy)]
pub enum Code {
    Quniform {
        n: u32,
        v: u32,
    },
    Subexp {
        n: u32,
        k: u8,
        v: u32,
    },
    UnsignedSubexp {
        v: u32,
        mx: u32,
        k: u8,
        r: u32,
    },
    SignedSubexp {
        v: i32,
        low: i32,
        high: i32,
        k: u8,
        r: i32,
    },
}

/// The code that a line of this name and these numbers asks for.
pub fn read_code(name: &str, numbers: &[i64]) -> Option<Code>
    ensures { IfSome result IsCode }
{
    match name {
        "quniform" => quniform(numbers),
        "subexp" => subexp(numbers),
        "unsigned_subexp" => unsigned_subexp(numbers),
        "signed_subexp" => signed_subexp(numbers),
        _ => None,
    }
}

fn quniform(numbers: &[i64]) -> Option<Code>
    ensures { IfSome result IsCode }
{
    let &[n, v] = numbers else {
        return None;
    };
    let n = up_to(MOST_VALUES, n)?;
    let v = up_to(n.max(1) - 1, v)?;
    Some(Code::Quniform { n, v })
}

fn subexp(numbers: &[i64]) -> Option<Code>
    ensures { IfSome result IsCode }
{
    let &[n, k, v] = numbers else {
        return None;
    };
    let n = up_to(MOST_VALUES, n)?;
    let k = up_to(MOST_WIDTH, k)? as u8;
    let v = up_to(n.checked_sub(1)?, v)?;
    Some(Code::Subexp { n, k, v })
}

fn unsigned_subexp(numbers: &[i64]) -> Option<Code>
    ensures { IfSome result IsCode }
{
    let &[v, mx, k, r] = numbers else {
        return None;
    };
    let mx = up_to(MOST_VALUES, mx)?;
    let greatest = mx.checked_sub(1)?;
    let v = up_to(greatest, v)?;
    let k = up_to(MOST_WIDTH, k)? as u8;
    let r = up_to(greatest, r)?;
    Some(Code::UnsignedSubexp { v, mx, k, r })
}

fn signed_subexp(numbers: &[i64]) -> Option<Code>
    ensures { IfSome result IsCode }
{
    let &[v, low, high, k, r] = numbers else {
        return None;
    };
    let low = signed(low)?;
    let high = signed(high)?;
    if i64::from(high) - i64::from(low) > i64::from(MOST_VALUES) {
        return None;
    }
    let v = between(low, high, v)?;
    let k = up_to(MOST_WIDTH, k)? as u8;
    let r = between(low, high, r)?;
    Some(Code::SignedSubexp { v, low, high, k, r })
}

/// Codes the value.
pub fn write_code<W: Writer>(w: &mut W, code: Code) -> Result<(), OutOfMemory>
    requires few { (W.position w.old).shift ≤ 2 ^ 28 }
    requires allowed { IsCode code }
    ensures kept { KeepsCheckpoints W.stored W.IsReached W.position_at w.old w.new }
{
    law_of_lengths();
    match code {
        Code::Quniform { n, v } => w.write_quniform(n, v),
        Code::Subexp { n, k, v } => w.write_subexp(n, k, v),
        Code::UnsignedSubexp { v, mx, k, r } => w.write_unsigned_subexp_with_ref(v, mx, k, r),
        Code::SignedSubexp { v, low, high, k, r } => w.write_signed_subexp_with_ref(
            v, low, high, k, r,
        ),
    }
}

/// What `write_code` would take, in eighths of a bit.
pub fn count_code<W: Writer>(w: &W, code: Code) -> u32
    requires { IsCode code }
{
    match code {
        Code::Quniform { n, v } => w.count_quniform(n, v),
        Code::Subexp { n, k, v } => w.count_subexp(n, k, v),
        Code::UnsignedSubexp { v, mx, k, r } => w.count_unsigned_subexp_with_ref(v, mx, k, r),
        Code::SignedSubexp { v, low, high, k, r } => w.count_signed_subexp_with_ref(
            v, low, high, k, r,
        ),
    }
}
