// Contexts from the AV1 specification's text ("CDF selection process"): nothing is padded, and levels are cut where they are read.
ghost use Rattle.std.specs.Prelude.{◌<◌};

use av1_geometry::TxClass::{TX_CLASS_2D, TX_CLASS_HORIZ, TX_CLASS_VERT};
use av1_geometry::{TxClass, TxSize, av1_get_coded_tx_size};

// Sizes of coefficients by position, in w columns of h rows.
#[derive(Clone, Copy)]
pub struct Block<'a> {
    pub sizes: &'a [u32],
    pub w: usize,
    pub h: usize,
}

// The sum of the sizes at these steps, each up to `most`; there is none outside.
fn sum(block: &Block, c: usize, r: usize, steps: &[(usize, usize)], most: u32) -> u32 {
    let mut sum = 0u32;
    for (columns, rows) in steps {
        let c = c.wrapping_add(*columns);
        let r = r.wrapping_add(*rows);
        if c < block.w && r < block.h {
            let place = c.wrapping_mul(block.h).wrapping_add(r);
            let size = block.sizes.get(place).copied().unwrap_or(0);
            sum = sum.wrapping_add(size.min(most));
        }
    }
    sum
}

// Coeff_Base_Ctx_Offset, as rav1e's comment has its rule.
fn base_offset(tx_size: TxSize, c: usize, r: usize) -> u32 {
    let (w, h) = (tx_size.width(), tx_size.height());
    let both = c.wrapping_add(r);
    if both == 0 {
        0
    } else if w < h && r < 2 {
        11
    } else if w > h && c < 2 {
        16
    } else if w == h && both < 2 {
        1
    } else if both < 4 {
        6
    } else {
        21
    }
}

/// The context of coeff_base at a column and a row.
pub fn base_context(tx_size: TxSize, tx_class: TxClass, block: &Block, c: usize, r: usize) -> u32 {
    let steps = match tx_class {
        TX_CLASS_2D => [(0, 1), (1, 0), (1, 1), (0, 2), (2, 0)],
        TX_CLASS_HORIZ => [(0, 1), (1, 0), (2, 0), (3, 0), (4, 0)],
        TX_CLASS_VERT => [(0, 1), (1, 0), (0, 2), (0, 3), (0, 4)],
    };
    let ctx = (sum(block, c, r, &steps, 3).wrapping_add(1) / 2).min(4);
    match tx_class {
        TX_CLASS_2D => {
            if c == 0 && r == 0 {
                0
            } else {
                ctx.wrapping_add(base_offset(tx_size, c, r))
            }
        }
        TX_CLASS_HORIZ => ctx.wrapping_add([26, 31, 36][c.min(2)]),
        TX_CLASS_VERT => ctx.wrapping_add([26, 31, 36][r.min(2)]),
    }
}

/// The context of coeff_base_eob at place i of the scan.
pub fn last_context(tx_size: TxSize, i: usize) -> u32 {
    let area = av1_get_coded_tx_size(tx_size).area();
    if i == 0 {
        0
    } else if i <= area / 8 {
        1
    } else if i <= area / 4 {
        2
    } else {
        3
    }
}

/// The context of coeff_br at a column and a row.
pub fn range_context(tx_class: TxClass, block: &Block, c: usize, r: usize) -> u32 {
    let (third, low) = match tx_class {
        TX_CLASS_2D => ((1, 1), r < 2 && c < 2),
        TX_CLASS_HORIZ => ((2, 0), c == 0),
        TX_CLASS_VERT => ((0, 2), r == 0),
    };
    let mag = (sum(block, c, r, &[(0, 1), (1, 0), third], 15).wrapping_add(1) / 2).min(6);
    if c == 0 && r == 0 {
        mag
    } else if low {
        mag.wrapping_add(7)
    } else {
        mag.wrapping_add(14)
    }
}
