// The end of a block, and what a transform's size alone gives.
ghost use Rattle.std.specs.Prelude.{◌≡◌, ◌+◌, ◌-◌, ◌^◌, ◌<◌, ◌≤◌};
ghost use Rattle.av1_geometry.specs.CoefficientTables.{eob_class, group_start, offset_bits};
ghost use Rattle.av1_coef.specs.Contexts.{coded_height_log2, size_context};

use av1_geometry::{
    TxSize, av1_get_coded_tx_size, eob_to_pos_large, eob_to_pos_small, k_eob_group_start,
};

// The class of an end below 33.
fn small_class(eob: u16) -> u8
    requires { eob < 33 }
    ensures { result ≡ eob_class eob }
{
    eob_to_pos_small[usize::from(eob)]
}

// The class of an end from 33 on.
fn large_class(eob: u16) -> u8
    requires some { 33 ≤ eob }
    requires most { eob ≤ 1024 }
    ensures { result ≡ eob_class eob }
{
    eob_to_pos_large[usize::from((eob - 1) >> 5).min(16)]
}

// The class of an end.
fn class_of(eob: u16) -> u8
    requires some { 1 ≤ eob }
    requires most { eob ≤ 1024 }
    ensures value { result ≡ eob_class eob }
    ensures least { 1 ≤ result }
    ensures highest { result ≤ 11 }
    ensures from { group_start result ≤ eob }
    ensures few { eob - group_start result < 2 ^ offset_bits result }
{
    if eob < 33 {
        small_class(eob)
    } else {
        large_class(eob)
    }
}

// The least end of a class.
fn start_of(class: u8) -> u16
    requires { class < 12 }
    ensures { result ≡ group_start class }
{
    k_eob_group_start[usize::from(class)]
}

/// The class of the end of a block, which is its number of coefficients up to the last, and the number of the end in its class:
/// eobPt and eobExtra of the AV1 specification's "Coefficients syntax".
pub fn get_eob_pos_token(eob: u16) -> (u32, u32)
    requires some { 1 ≤ eob }
    requires most { eob ≤ 1024 }
    ensures class { result.0 ≡ eob_class eob }
    ensures least { 1 ≤ result.0 }
    ensures highest { result.0 ≤ 11 }
    ensures extra { group_start result.0 + result.1 ≡ eob }
    ensures few { result.1 < 2 ^ offset_bits result.0 }
{
    let class = class_of(eob);
    let extra = eob - start_of(class);
    (u32::from(class), u32::from(extra))
}

/// The context of a transform's size in the distributions of coefficients: txSzCtx of the AV1 specification.
pub fn get_txsize_entropy_ctx(tx_size: TxSize) -> usize
    ensures value { result ≡ size_context tx_size }
    ensures most { result ≤ 4 }
{
    (tx_size.sqr().number() + tx_size.sqr_up().number() + 1) >> 1
}

/// The logarithm of the number of rows whose coefficients are coded.
pub fn get_txb_bhl(tx_size: TxSize) -> usize
    ensures value { result ≡ coded_height_log2 tx_size }
    ensures least { 2 ≤ result }
    ensures most { result ≤ 5 }
{
    av1_get_coded_tx_size(tx_size).height_log2()
}
