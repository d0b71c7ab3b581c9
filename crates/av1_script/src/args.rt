// The numbers of a line, as what a call takes.
ghost use Rattle.std.specs.Prelude.{◌≤◌, FitsSigned, IsTrue, IfOk, IfSome};
ghost use Rattle.std.specs.Int.{w32};
ghost use Rattle.av1_model.specs.Cdf.{IsCdf};
ghost use Rattle.av1_script.specs.Allowed.{IsBetween, IsSymbol};

use av1_geometry::OutOfMemory;
use std::alloc::Global;

/// The number, where it is from 0 to `most`.
pub fn up_to(most: u32, number: i64) -> Option<u32>
    ensures { IfSome result (λ n. n ≤ most) }
{
    u32::try_from(number).ok().filter(|n| *n <= most)
}

/// The number, where it is a signed one of 32 bits.
pub fn signed(number: i64) -> Option<i32>
    ensures { IfSome result (λ z. FitsSigned w32 z) }
{
    i32::try_from(number).ok()
}

/// The number, where it is from `low` on and below `high`.
pub fn between(low: i32, high: i32, number: i64) -> Option<i32>
    ensures { IfSome result (λ z. IsBetween low high z) }
{
    signed(number).filter(|z| low <= *z && *z < high)
}

/// Whether numbers are a CDF.
pub fn is_cdf(numbers: &[u16]) -> bool
    ensures { IsTrue result → IsCdf numbers.now }
{
    let len = numbers.len();
    if len < 2 || len > 16 || numbers[len - 1] > 32 {
        return false;
    }
    let mut least = 32767;
    for i in 0..len - 1 {
        if numbers[i] > least {
            return false;
        }
        least = numbers[i];
    }
    true
}

// The numbers, where each is one of 16 bits.
fn u16s(alloc: Global, numbers: &[i64]) -> Result<Option<Vec<u16>>, OutOfMemory> {
    let mut all = Vec::new(alloc);
    for number in numbers {
        let Ok(number) = u16::try_from(*number) else {
            return Ok(None);
        };
        all.push(number)?;
    }
    Ok(Some(all))
}

/// The CDF that the numbers are, and none where they are no CDF.
pub fn cdf(alloc: Global, numbers: &[i64]) -> Result<Option<Vec<u16>>, OutOfMemory>
    ensures { IfOk result (λ read. IfSome read (λ all. IsCdf all.items)) }
{
    let Some(all) = u16s(alloc, numbers)? else {
        return Ok(None);
    };
    if !is_cdf(&all) {
        return Ok(None);
    }
    Ok(Some(all))
}

/// The symbol and the CDF that the numbers are, and none where they are no such.
pub fn symbol(alloc: Global, numbers: &[i64]) -> Result<Option<(u32, Vec<u16>)>, OutOfMemory>
    ensures { IfOk result (λ read. IfSome read (λ x. IsSymbol x.0 x.1.items)) }
{
    let Some((s, numbers)) = numbers.split_first() else {
        return Ok(None);
    };
    let Some(cdf) = cdf(alloc, numbers)? else {
        return Ok(None);
    };
    let s = up_to(cdf.len() as u32 - 1, *s);
    Ok(s.map(|s| (s, cdf)))
}
