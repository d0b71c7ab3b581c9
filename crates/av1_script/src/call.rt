// The calls that code something.
ghost use Rattle.std.specs.Prelude.{◌^◌, ◌≤◌, IfOk, IfSome};
ghost use Rattle.av1_ec.specs.Checkpoint.{KeepsCheckpoints};
ghost use Rattle.av1_script.specs.Allowed.{IsCall};

use crate::args::{symbol, up_to};
use crate::code::{Code, read_code, write_code};
use av1_ec::{Writer, law_of_lengths};
use av1_geometry::OutOfMemory;
use std::alloc::Global;

/// A call of a writer, by the names that it gives its arguments.
#[derive(Drop)]
pub enum Call {
    Symbol { s: u32, cdf: Vec<u16> },
    Bool { val: bool, f: u16 },
    Bit { bit: u16 },
    Literal { bits: u8, s: u32 },
    Golomb { level: u32 },
    OfCode(Code),
}

/// The call that a line of this name and these numbers asks for.
pub fn read_call(alloc: Global, name: &str, numbers: &[i64]) -> Result<Option<Call>, OutOfMemory>
    ensures { IfOk result (λ read. IfSome read IsCall) }
{
    Ok(match name {
        "symbol" => symbol(alloc, numbers)?.map(|(s, cdf)| Call::Symbol { s, cdf }),
        "bool" => bool(numbers),
        "bit" => bit(numbers),
        "literal" => literal(numbers),
        "golomb" => golomb(numbers),
        _ => read_code(name, numbers).map(Call::OfCode),
    })
}

fn bool(numbers: &[i64]) -> Option<Call>
    ensures { IfSome result IsCall }
{
    let &[val, f] = numbers else {
        return None;
    };
    let val = up_to(1, val)? == 1;
    let f = up_to(32767, f)? as u16;
    if f == 0 {
        return None;
    }
    Some(Call::Bool { val, f })
}

fn bit(numbers: &[i64]) -> Option<Call>
    ensures { IfSome result IsCall }
{
    let &[bit] = numbers else {
        return None;
    };
    let bit = up_to(1, bit)? as u16;
    Some(Call::Bit { bit })
}

fn literal(numbers: &[i64]) -> Option<Call>
    ensures { IfSome result IsCall }
{
    let &[bits, s] = numbers else {
        return None;
    };
    let bits = up_to(32, bits)? as u8;
    let s = up_to(((1u64 << bits) - 1) as u32, s)?;
    Some(Call::Literal { bits, s })
}

fn golomb(numbers: &[i64]) -> Option<Call>
    ensures { IfSome result IsCall }
{
    let &[level] = numbers else {
        return None;
    };
    let level = up_to(u32::MAX - 1, level)?;
    Some(Call::Golomb { level })
}

/// Codes what the call says.
pub fn store<W: Writer>(w: &mut W, call: &Call) -> Result<(), OutOfMemory>
    requires few { (W.position w.old).shift ≤ 2 ^ 28 }
    requires allowed { IsCall call.now }
    ensures kept { KeepsCheckpoints W.stored W.IsReached W.position_at w.old w.new }
{
    law_of_lengths();
    match call {
        Call::Symbol { s, cdf } => w.symbol(*s, cdf),
        Call::Bool { val, f } => w.bool(*val, *f),
        Call::Bit { bit } => w.bit(*bit),
        Call::Literal { bits, s } => w.literal(*bits, *s),
        Call::Golomb { level } => w.write_golomb(*level),
        Call::OfCode(code) => write_code(w, *code),
    }
}
