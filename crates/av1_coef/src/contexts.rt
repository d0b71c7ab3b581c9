// The contexts of levels, from padded levels.
ghost use Rattle.std.specs.Prelude.{◌≡◌, ℕ, ◌+◌, ◌*◌, ◌/◌, ◌%◌, ◌^◌, ◌<◌, ◌≤◌, ◌++◌, length, slice_index, drop, min};
ghost use Rattle.av1_geometry.specs.declared.tx_size.TxSize.{TxSize};
ghost use Rattle.av1_geometry.specs.CoefficientTables.{nz_offset, nz_offset_1d};
ghost use Rattle.av1_coef.specs.Causal.{AreCausal, IsCausal};
ghost use Rattle.av1_coef.specs.Contexts.{base_steps, is_corner, is_low, last_context, near_sum, place_offset};
ghost use Rattle.av1_coef.specs.Contexts.{range_context, range_magnitude, range_offset};
ghost use Rattle.av1_coef.specs.Contexts.{coded_area, coded_height, coded_height_log2, coded_width};
ghost use Rattle.av1_coef.specs.Padded.{level_in, padded_context, padded_contexts};

use crate::ends::get_txb_bhl;
use av1_geometry::TxClass::{TX_CLASS_2D, TX_CLASS_HORIZ, TX_CLASS_VERT};
use av1_geometry::{
    TX_PAD_HOR, TxClass, TxSize, av1_get_coded_tx_size, av1_nz_map_ctx_offset, nz_map_ctx_offset_1d,
};

/// The sum of the levels near the first place, each up to 3. `levels` begins at that place, in columns of 2^`bhl` rows and
/// four places of padding.
pub fn get_nz_mag(levels: &[u8], bhl: usize, tx_class: TxClass) -> usize
    requires bhl { bhl ≤ 5 }
    requires room { 4 * (2 ^ bhl + 4) < length levels.now }
    ensures value { result ≡ near_sum 3 (level_in (2 ^ bhl) levels.now) 0 0 (base_steps tx_class) }
    ensures most { result ≤ 15 }
{
    let stride = (1 << bhl) + TX_PAD_HOR;
    let near = levels[1].min(3) + levels[stride].min(3);
    let far = match tx_class {
        TX_CLASS_2D => levels[stride + 1].min(3) + levels[2].min(3) + levels[2 * stride].min(3),
        TX_CLASS_HORIZ => levels[2 * stride].min(3)
            + levels[3 * stride].min(3)
            + levels[4 * stride].min(3),
        TX_CLASS_VERT => levels[2].min(3) + levels[3].min(3) + levels[4].min(3),
    };
    usize::from(near + far)
}

// What the levels near the first place have in its range context.
fn get_br_mag(levels: &[u8], bhl: usize, tx_class: TxClass) -> usize
    requires bhl { bhl ≤ 5 }
    requires room { 2 * (2 ^ bhl + 4) < length levels.now }
    ensures { result ≡ range_magnitude tx_class (level_in (2 ^ bhl) levels.now) 0 0 }
{
    let stride = (1 << bhl) + TX_PAD_HOR;
    let third = match tx_class {
        TX_CLASS_2D => levels[stride + 1],
        TX_CLASS_HORIZ => levels[2 * stride],
        TX_CLASS_VERT => levels[2],
    };
    let sum = usize::from(levels[1]) + usize::from(levels[stride]) + usize::from(third);
    ((sum + 1) >> 1).min(6)
}

// Whether a place is among the low frequencies, which have range contexts of their own.
fn is_low(tx_class: TxClass, col: usize, row: usize) -> bool
    ensures { result ≡ is_low tx_class col row }
{
    match tx_class {
        TX_CLASS_2D => row < 2 && col < 2,
        TX_CLASS_HORIZ => col == 0,
        TX_CLASS_VERT => row == 0,
    }
}

// The row of a position in columns of 2^`bhl` rows.
#[tactic(auto, using(crate::proofs::NearPlace::rows))]
fn row_of(coeff_idx: usize, bhl: usize) -> usize
    requires { bhl ≤ 5 }
    ensures value { result ≡ coeff_idx % 2 ^ bhl }
    ensures few { result < 32 }
{
    coeff_idx % (1 << bhl)
}

// The part that the place itself has in its range context.
fn get_br_offset(tx_class: TxClass, col: usize, row: usize) -> usize
    requires col { col < 32 }
    requires row { row < 32 }
    ensures value { result ≡ range_offset tx_class col row }
    ensures most { result ≤ 14 }
{
    if col + row == 0 {
        0
    } else if is_low(tx_class, col, row) {
        7
    } else {
        14
    }
}

// Whether a place is the first of a two-dimensional transform.
fn is_corner(tx_class: TxClass, col: usize, row: usize) -> bool
    ensures { result ≡ is_corner tx_class col row }
{
    match tx_class {
        TX_CLASS_2D => col == 0 && row == 0,
        TX_CLASS_HORIZ | TX_CLASS_VERT => false,
    }
}

// The part that the place itself has in the base context of a two-dimensional transform.
fn get_nz_offset_2d(tx_size: TxSize, col: usize, row: usize) -> usize
    ensures value { result ≡ nz_offset tx_size (min row 4) (min col 4) }
    ensures most { result ≤ 21 }
{
    let offset = av1_nz_map_ctx_offset[tx_size.number()][row.min(4)][col.min(4)];
    usize::from(offset.unsigned_abs())
}

// The same along a one-dimensional transform.
fn get_nz_offset_1d(place: usize) -> usize
    requires { place < 32 }
    ensures value { result ≡ nz_offset_1d place }
    ensures most { result ≤ 36 }
{
    nz_map_ctx_offset_1d[place]
}

// The part that the place itself has in its base context.
fn get_nz_offset(tx_size: TxSize, tx_class: TxClass, col: usize, row: usize) -> usize
    requires col { col < 32 }
    requires row { row < 32 }
    ensures value { result ≡ place_offset tx_class tx_size col row }
    ensures most { result ≤ 36 }
{
    match tx_class {
        TX_CLASS_2D => get_nz_offset_2d(tx_size, col, row),
        TX_CLASS_HORIZ => get_nz_offset_1d(col),
        TX_CLASS_VERT => get_nz_offset_1d(row),
    }
}

// The base context of the last coefficient.
fn get_eob_ctx(area: usize, scan_idx: usize) -> usize
    ensures value { result ≡ last_context area scan_idx }
    ensures most { result ≤ 3 }
{
    if scan_idx == 0 {
        0
    } else if scan_idx <= area / 8 {
        1
    } else if scan_idx <= area / 4 {
        2
    } else {
        3
    }
}

// The context of coeff_base at a position, or of coeff_base_eob where it is the last, at place `scan_idx` of the scan of an area.
fn get_nz_map_ctx(
    levels: &[u8],
    coeff_idx: usize,
    bhl: usize,
    area: usize,
    scan_idx: usize,
    is_eob: bool,
    tx_size: TxSize,
    tx_class: TxClass,
) -> usize
    requires bhl { bhl ≤ 5 }
    requires place { coeff_idx < 32 * 2 ^ bhl }
    requires room { (coeff_idx / 2 ^ bhl + 5) * (2 ^ bhl + 4) ≤ length levels.now }
    ensures value { result ≡ padded_context is_eob area scan_idx tx_class tx_size (2 ^ bhl) levels.now coeff_idx }
    ensures most { result ≤ 40 }
{
    if is_eob {
        return get_eob_ctx(area, scan_idx);
    }
    let col = coeff_idx >> bhl;
    let row = row_of(coeff_idx, bhl);
    if is_corner(tx_class, col, row) {
        return 0;
    }
    let mag = get_nz_mag(&levels[coeff_idx + col * TX_PAD_HOR..], bhl, tx_class);
    ((mag + 1) >> 1).min(4) + get_nz_offset(tx_size, tx_class, col, row)
}

/// Writes the contexts of coeff_base_eob and coeff_base of the first `eob` positions of `scan` into the first `eob` of `contexts`.
/// `levels` has the padded levels of the transform's coded size.
pub fn get_nz_map_contexts(
    levels: &mut [u8],
    scan: &[u16],
    eob: u16,
    tx_size: TxSize,
    tx_class: TxClass,
    contexts: &mut [i8],
)
    requires room { (coded_width tx_size + 4) * (coded_height tx_size + 4) ≤ length levels.old }
    requires scan { eob ≤ length scan.now }
    requires contexts { eob ≤ length contexts.old }
    requires places { (i : ℕ) → i < eob → slice_index scan.now i < coded_area tx_size }
    ensures levels { levels.new ≡ levels.old }
    ensures contexts { contexts.new ≡ padded_contexts tx_class tx_size levels.old scan.now eob ++ drop eob contexts.old }

    // for a scan that keeps its rules they know the levels at later positions alone, up to 15
    ensures causal { AreCausal tx_size tx_class levels.old scan.now eob contexts.new }
{
    let bhl = get_txb_bhl(tx_size);
    let area = av1_get_coded_tx_size(tx_size).area();
    let n = usize::from(eob);
    for i in 0..n {
        let coeff_idx = usize::from(scan[i]);
        contexts[i] = get_nz_map_ctx(
            levels,
            coeff_idx,
            bhl,
            area,
            i,
            i + 1 == n,
            tx_size,
            tx_class,
        ) as i8;
    }
}

/// The context of coeff_br at a position. `levels` has the padded levels of columns of 2^`bhl` rows, up to that of the position
/// and four more.
pub fn get_br_ctx(levels: &[u8], coeff_idx: usize, bhl: usize, tx_class: TxClass) -> usize
    requires bhl { bhl ≤ 5 }
    requires place { coeff_idx < 32 * 2 ^ bhl }
    requires room { (coeff_idx / 2 ^ bhl + 5) * (2 ^ bhl + 4) ≤ length levels.now }
    ensures value { result ≡ range_context tx_class (level_in (2 ^ bhl) levels.now) (coeff_idx / 2 ^ bhl) (coeff_idx % 2 ^ bhl) }
    ensures most { result ≤ 20 }

    // in a scan that keeps its rules it knows the levels at later positions alone, up to 15
    ensures causal { (size : TxSize) → bhl ≡ coded_height_log2 size → IsCausal size tx_class levels.now coeff_idx result }
{
    let col = coeff_idx >> bhl;
    let row = row_of(coeff_idx, bhl);
    let mag = get_br_mag(&levels[coeff_idx + col * TX_PAD_HOR..], bhl, tx_class);
    mag + get_br_offset(tx_class, col, row)
}
