// Orders of the coefficients of a transform, and their rules.
ghost use Rattle.std.specs.Prelude.{◌≡◌, ℕ, ◌+◌, ◌*◌, ◌/◌, ◌%◌, ◌<◌, ◌≤◌, slice_index_or, length, IsTrue};
ghost use Rattle.std.specs.Prelude.{true, false, ◌&&◌, ◌||◌, nat_eq, nat_lt, if◌then◌else◌};
ghost use Rattle.std.specs.List.{list_all};
ghost use Rattle.av1_geometry.specs.Rules.{first_broken};
ghost use Rattle.av1_coef.specs.Contexts.{base_steps};
ghost use Rattle.av1_coef.specs.Scans.{all_scans, class_number, classes, of_each, scan_of, scans_rules};
ghost use Rattle.av1_coef.specs.Scans.{is_ordered, is_permutation, is_whole, keeps_order, scan_rules, steps_later};

use av1_geometry::TxClass::{TX_CLASS_2D, TX_CLASS_HORIZ, TX_CLASS_VERT};
use av1_geometry::TxSize::*;
use av1_geometry::{MAX_CODED_TX_SQUARE, Rule, TxClass, TxSize, av1_get_coded_tx_size};
use std::marker::Model;

/// The positions of a transform's coefficients in the order in which they are numbered: position c * h + r is that of column c
/// and row r, where h rows are coded.
#[derive(Drop)]
pub struct Scan {
    pub positions: Vec<u16>,
}

impl Model for Scan {
    ghost use Rattle.std.specs.Prelude.{ℕ, List};

    ghost Value = { List ℕ };

    ghost view = { λ s. s.positions.items };
}

/// For each size by its number, the scan of each class: two-dimensional, horizontal, vertical.
#[derive(Drop)]
pub struct Scans {
    pub scans: Vec<Vec<Scan>>,
}

impl Model for Scans {
    ghost use Rattle.std.specs.Prelude.{ℕ, List, map};

    ghost Value = { List (List (List ℕ)) };

    ghost view = { λ s. map (λ v. v.items) s.scans.items };
}

/// The sizes by their numbers.
pub(crate) const TX_SIZES: [TxSize; TxSize::TX_SIZES_ALL] = [
    TX_4X4, TX_8X8, TX_16X16, TX_32X32, TX_64X64, TX_4X8, TX_8X4, TX_8X16, TX_16X8, TX_16X32,
    TX_32X16, TX_32X64, TX_64X32, TX_4X16, TX_16X4, TX_8X32, TX_32X8, TX_16X64, TX_64X16,
];

// The place of a class in the scans of a size.
fn class_number(tx_class: TxClass) -> usize
    ensures value { result ≡ class_number tx_class }
    ensures few { result < 3 }
{
    match tx_class {
        TX_CLASS_2D => 0,
        TX_CLASS_HORIZ => 1,
        TX_CLASS_VERT => 2,
    }
}

impl Scans {
    /// The scan of a size and a class.
    pub fn scan(&self, tx_size: TxSize, tx_class: TxClass) -> &Scan
        requires { IsTrue (of_each self.now) }
        ensures { result.now ≡ scan_of self.now tx_size tx_class }
    {
        let of_size = self.scans[tx_size.number()].as_slice();
        &of_size[class_number(tx_class)]
    }

    // The positions of a size and a class.
    fn positions(&self, tx_size: TxSize, tx_class: TxClass) -> &[u16]
        requires { IsTrue (of_each self.now) }
        ensures { result.now ≡ scan_of self.now tx_size tx_class }
    {
        let scan = self.scan(tx_size, tx_class);
        &scan.positions
    }
}

// Notes a position, where it is one of a block.
fn mark(seen: &mut [bool; MAX_CODED_TX_SQUARE], p: usize)
    ensures { (q : ℕ) → q < 1024 → slice_index_or seen.new q false ≡ (nat_eq p q || slice_index_or seen.old q false) }
{
    if p < MAX_CODED_TX_SQUARE {
        seen[p] = true;
    }
}

// Whether a scan has each position below an area once, and no other.
fn is_permutation(scan: &[u16], area: usize) -> bool
    requires { area ≤ 1024 }
    ensures { result ≡ is_permutation area scan.now }
{
    let mut seen = [false; MAX_CODED_TX_SQUARE];
    let mut left = scan.len();
    while left > 0 {
        left -= 1;
        let p = usize::from(scan[left]);
        if p >= area || seen[p] {
            return false;
        }
        mark(&mut seen, p);
    }
    for p in 0..area {
        if !seen[p] {
            return false;
        }
    }
    true
}

// Whether a place is outside a block, or was seen.
fn is_later(seen: &[bool; MAX_CODED_TX_SQUARE], w: usize, h: usize, c: usize, r: usize) -> bool
    requires { w * h ≤ 1024 }
    ensures { result ≡ (if nat_lt c w && nat_lt r h then slice_index_or seen.now (c * h + r) false else true) }
{
    !(c < w && r < h) || seen[c * h + r]
}

// Whether the places that the contexts of a position read were seen.
fn steps_seen(
    seen: &[bool; MAX_CODED_TX_SQUARE],
    w: usize,
    h: usize,
    p: usize,
    tx_class: TxClass,
) -> bool
    requires area { w * h ≤ 1024 }
    requires some { 0 < h }
    requires place { p < 65536 }
    ensures { result ≡ steps_later w h (λ q. slice_index_or seen.now q false) p (base_steps tx_class) }
{
    let c = p / h;
    let r = p % h;
    let near = is_later(seen, w, h, c, r + 1) && is_later(seen, w, h, c + 1, r);
    near && match tx_class {
        TX_CLASS_2D => {
            is_later(seen, w, h, c + 1, r + 1)
                && is_later(seen, w, h, c, r + 2)
                && is_later(seen, w, h, c + 2, r)
        }
        TX_CLASS_HORIZ => {
            is_later(seen, w, h, c + 2, r)
                && is_later(seen, w, h, c + 3, r)
                && is_later(seen, w, h, c + 4, r)
        }
        TX_CLASS_VERT => {
            is_later(seen, w, h, c, r + 2)
                && is_later(seen, w, h, c, r + 3)
                && is_later(seen, w, h, c, r + 4)
        }
    }
}

// Whether what the contexts of each position read comes later.
fn keeps_order(scan: &[u16], w: usize, h: usize, tx_class: TxClass) -> bool
    requires area { w * h ≤ 1024 }
    requires some { 0 < h }
    ensures { result ≡ keeps_order w h (base_steps tx_class) scan.now }
{
    let mut seen = [false; MAX_CODED_TX_SQUARE];
    let mut left = scan.len();
    while left > 0 {
        left -= 1;
        let p = usize::from(scan[left]);
        if !steps_seen(&seen, w, h, p, tx_class) {
            return false;
        }
        mark(&mut seen, p);
    }
    true
}

// Whether a scan has each position of a size's coded coefficients once.
fn is_whole(scan: &[u16], tx_size: TxSize, tx_class: TxClass) -> bool
    ensures { result ≡ is_whole tx_size tx_class scan.now }
{
    is_permutation(scan, av1_get_coded_tx_size(tx_size).area())
}

// Whether a scan of a size and a class has later what contexts read.
fn is_ordered(scan: &[u16], tx_size: TxSize, tx_class: TxClass) -> bool
    ensures { result ≡ is_ordered tx_size tx_class scan.now }
{
    let coded = av1_get_coded_tx_size(tx_size);
    keeps_order(scan, coded.width(), coded.height(), tx_class)
}

/// The broken rule of the lowest number: the scan has each position of the size's coded coefficients once (4), and what a
/// context of the class reads comes later (5).
pub fn check_scan(scan: &[u16], tx_size: TxSize, tx_class: TxClass) -> Option<Rule>
    ensures { result ≡ first_broken (scan_rules tx_size tx_class scan.now) }
{
    if !is_whole(scan, tx_size, tx_class) {
        Some(Rule(4))
    } else if !is_ordered(scan, tx_size, tx_class) {
        Some(Rule(5))
    } else {
        None
    }
}

// Whether there is a scan for each class in each list.
fn all_three(scans: &[Vec<Scan>]) -> bool
    ensures { result ≡ list_all (λ v. nat_eq (length v.items) 3) scans.now }
{
    scans.iter().all(|of_size| of_size.as_slice().len() == 3)
}

// Whether there is a list for each size, of a scan for each class.
fn of_each(scans: &Scans) -> bool
    ensures { result ≡ of_each scans.now }
{
    let lists = scans.scans.as_slice();
    lists.len() == TxSize::TX_SIZES_ALL && all_three(lists)
}

// Whether the three scans of a size are whole.
fn size_is_whole(scans: &Scans, tx_size: TxSize) -> bool
    requires { IsTrue (of_each scans.now) }
    ensures { result ≡ list_all (λ class. is_whole tx_size class (scan_of scans.now tx_size class)) classes }
{
    is_whole(scans.positions(tx_size, TX_CLASS_2D), tx_size, TX_CLASS_2D)
        && is_whole(
            scans.positions(tx_size, TX_CLASS_HORIZ),
            tx_size,
            TX_CLASS_HORIZ,
        )
        && is_whole(
            scans.positions(tx_size, TX_CLASS_VERT),
            tx_size,
            TX_CLASS_VERT,
        )
}

// Whether the three scans of a size are in order.
fn size_is_ordered(scans: &Scans, tx_size: TxSize) -> bool
    requires { IsTrue (of_each scans.now) }
    ensures { result ≡ list_all (λ class. is_ordered tx_size class (scan_of scans.now tx_size class)) classes }
{
    is_ordered(scans.positions(tx_size, TX_CLASS_2D), tx_size, TX_CLASS_2D)
        && is_ordered(
            scans.positions(tx_size, TX_CLASS_HORIZ),
            tx_size,
            TX_CLASS_HORIZ,
        )
        && is_ordered(
            scans.positions(tx_size, TX_CLASS_VERT),
            tx_size,
            TX_CLASS_VERT,
        )
}

fn all_whole(scans: &Scans) -> bool
    requires { IsTrue (of_each scans.now) }
    ensures { result ≡ all_scans is_whole scans.now }
{
    for tx_size in &TX_SIZES {
        if !size_is_whole(scans, *tx_size) {
            return false;
        }
    }
    true
}

fn all_ordered(scans: &Scans) -> bool
    requires { IsTrue (of_each scans.now) }
    ensures { result ≡ all_scans is_ordered scans.now }
{
    for tx_size in &TX_SIZES {
        if !size_is_ordered(scans, *tx_size) {
            return false;
        }
    }
    true
}

/// The broken rule of the lowest number: there are three scans for each of the 19 sizes, each with every position of its coded
/// size once (4), and what a context reads comes later in each (5).
pub fn check_scans(scans: &Scans) -> Option<Rule>
    ensures { result ≡ first_broken (scans_rules scans.now) }
{
    if !of_each(scans) {
        return Some(Rule(4));
    }
    if !all_whole(scans) {
        Some(Rule(4))
    } else if !all_ordered(scans) {
        Some(Rule(5))
    } else {
        None
    }
}
