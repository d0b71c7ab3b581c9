// The symbols that are coded, and sums over bytes.
ghost use Rattle.std.specs.Prelude.{◌≡◌, ℕ, ◌+◌, ◌%◌, ◌<◌, IfOk, length, slice_index};

use crate::round::ROUND;
use av1_geometry::OutOfMemory;
use std::alloc::Global;

// The generator of Numerical Recipes.
#[derive(Drop)]
struct Lcg(u32);

impl Lcg {
    fn draw(&mut self) -> u32 {
        self.0 = self.0.wrapping_mul(1664525).wrapping_add(1013904223);
        self.0 >> 16
    }
}

/// As many symbols, the sizes from 2 to 16 in turn; each is the lesser of two draws.
pub(crate) fn draw_symbols(alloc: Global, n: usize, seed: u32) -> Result<Vec<u8>, OutOfMemory>
    ensures { IfOk result (λ v. (length v.items ≡ n) × ((k : ℕ) → k < n → slice_index v.items k < k % 15 + 2)) }
{
    let mut lcg = Lcg(seed);
    let mut symbols = Vec::new(alloc);
    for i in 0..n {
        let size = (i % ROUND + 2) as u32;
        let x = lcg.draw() % size;
        let y = lcg.draw() % size;
        symbols.push(x.min(y) as u8)?;
    }
    Ok(symbols)
}

/// FNV-1a of 32 bits.
pub(crate) fn fnv(bytes: &[u8]) -> u32 {
    let mut h = 2166136261u32;
    for b in bytes {
        h = (h ^ u32::from(*b)).wrapping_mul(16777619);
    }
    h
}

// What a number at a place adds to a sum: itself times its place, from 1 on, modulo 65536.
fn weighted(place: usize, number: u16) -> u16 {
    ((place % 65536) as u16)
        .wrapping_add(1)
        .wrapping_mul(number)
}

/// The sum of each byte times its place, from 1 on, modulo 65536.
pub(crate) fn sum(bytes: &[u8]) -> u16 {
    let mut sum = 0u16;
    for (i, b) in bytes.iter().enumerate() {
        sum = sum.wrapping_add(weighted(i, u16::from(*b)));
    }
    sum
}

/// The same of numbers of which the first stands at this place.
pub(crate) fn sum_from(place: usize, numbers: &[u16]) -> u16 {
    let mut sum = 0u16;
    for (i, number) in numbers.iter().enumerate() {
        sum = sum.wrapping_add(weighted(place.wrapping_add(i), *number));
    }
    sum
}
