// Coefficients as levels, which are their sizes up to 127, with room for the places that contexts read.
ghost use Rattle.std.specs.Prelude.{◌≡◌, ℕ, ◌+◌, ◌<◌, ◌≤◌, min, length, slice_index, unsigned_abs};
ghost use Rattle.av1_coef.specs.Padded.{level_after, column_after, coeff_size, sizes_of, IsPadded, IsRoom};

use crate::coefficient::Coefficient;

// The level of a coefficient.
fn level_of<T: Coefficient>(coeff: T) -> u8
    ensures { result ≡ min (unsigned_abs (T.value coeff)) 127 }
{
    coeff.to_i32().unsigned_abs().min(127) as u8
}

// Writes the levels of `rows` coefficients from place `from` on to the places from `at` on.
fn init_column<T: Coefficient>(coeffs: &[T], from: usize, levels: &mut [u8], at: usize, rows: usize)
    requires coeffs { from + rows ≤ length coeffs.now }
    requires levels { at + rows ≤ length levels.old }
    ensures { (p : ℕ) → slice_index levels.new p ≡ column_after (sizes_of T.value coeffs.now) levels.old from at rows p }
{
    for r in 0..rows {
        levels[at + r] = level_of(coeffs[from + r]);
    }
}

/// Writes the levels of coefficients, which lie in columns of `height`, into columns of `levels_stride` levels, as far as both
/// have whole columns and the columns have rows. All other levels stay.
pub fn txb_init_levels<T: Coefficient>(
    coeffs: &[T],
    height: usize,
    levels: &mut [u8],
    levels_stride: usize,
)
    requires height { 0 < height }
    requires stride { 0 < levels_stride }
    ensures levels { (p : ℕ) → p < length levels.old →
        slice_index levels.new p ≡ level_after height (sizes_of T.value coeffs.now) levels_stride levels.old p }

    // over zeros, in columns with four places of padding, they are the padded levels of a block
    ensures padded { (w : ℕ) → IsRoom w height levels_stride (length coeffs.now) levels.old →
        IsPadded w height (coeff_size T.value coeffs.now) levels.new }
{
    let columns = (coeffs.len() / height).min(levels.len() / levels_stride);
    let rows = height.min(levels_stride);
    for c in 0..columns {
        init_column(coeffs, c * height, levels, c * levels_stride, rows);
    }
}
