// The tables of numbers that contexts are made of, one for each range of quantizers, and their rules.
ghost use Rattle.std.specs.Prelude.{◌≡◌, None, ◌≤◌, ◌<◌, ◌+◌, ◌&&◌, ◌||◌, true, nat_eq, [], ◌∷◌, length, IfOk};
ghost use Rattle.std.specs.List.{All, list_any};
ghost use Rattle.av1_cdf.specs.Runs.{end_of, is_in};
ghost use Rattle.av1_cdf.specs.Slots.{cell_of};
ghost use Rattle.av1_cdf.specs.Tables.{table_rules, set_at, set_number, number_fits, valid_set, is_coefficient, same_at, sets_agree, uniform_sets};
ghost use Rattle.av1_geometry.specs.Rules.{first_broken};

use crate::cdf_context::{CDFContext, NUMBERS};
use crate::layout::{
    COEFF_BASE_CDF, COEFF_BASE_EOB_CDF, COEFF_BR_CDF, DC_SIGN_CDF, EOB_EXTRA_CDF, EOB_FLAG_CDF16,
    EOB_FLAG_CDF32, EOB_FLAG_CDF64, EOB_FLAG_CDF128, EOB_FLAG_CDF256, EOB_FLAG_CDF512,
    EOB_FLAG_CDF1024, TXB_SKIP_CDF,
};
use crate::run::{Cell, Run, cell_with, run_with};
use av1_geometry::{OutOfMemory, Rule};
use std::alloc::Global;
use std::marker::Model;

/// The numbers of contexts, as four lists for the quantizers up to 20, 60, 120 and 255.
#[derive(Debug, Drop)]
pub struct Tables {
    pub sets: Vec<Vec<u16>>,
}

impl Model for Tables {
    ghost use Rattle.std.specs.Prelude.{ℕ, List, map};

    ghost Value = { List (List ℕ) };

    ghost view = { λ t. map (λ v. v.items) t.sets.items };
}

impl Tables {
    /// Four sets of the numbers of `CDFContext::uniform`.
    pub fn uniform(alloc: Global) -> Result<Tables, OutOfMemory>
        ensures { IfOk result (λ t. t ≡ uniform_sets) }
    {
        let fc = CDFContext::uniform();
        let sets = vec![in alloc;
            fc.to_vec(alloc)?,
            fc.to_vec(alloc)?,
            fc.to_vec(alloc)?,
            fc.to_vec(alloc)?,
        ]?;
        Ok(Tables { sets })
    }

    /// The set for a quantizer.
    pub(crate) fn set(&self, quantizer: u8) -> &[u16]
        requires { first_broken (table_rules self.now) ≡ None }
        ensures is { result.now ≡ set_at self.now (set_number quantizer) }
        ensures len { length result.now ≡ 5528 }
    {
        let number = match quantizer {
            0..=20 => 0,
            21..=60 => 1,
            61..=120 => 2,
            _ => 3,
        };
        &self.sets[number]
    }
}

// The fields that differ by quantizer.
static COEFFICIENTS: [Run; 13] = [
    TXB_SKIP_CDF,
    DC_SIGN_CDF,
    EOB_EXTRA_CDF,
    EOB_FLAG_CDF16,
    EOB_FLAG_CDF32,
    EOB_FLAG_CDF64,
    EOB_FLAG_CDF128,
    EOB_FLAG_CDF256,
    EOB_FLAG_CDF512,
    EOB_FLAG_CDF1024,
    COEFF_BASE_EOB_CDF,
    COEFF_BASE_CDF,
    COEFF_BR_CDF,
];

/// The broken rule of the lowest number: there are four sets of 5528 numbers (1), every CDF falls from below 32768
/// and ends with a count of at most 32, and padding is 0 (2), and the sets agree outside the fields of coefficients (3).
pub fn check_tables(tables: &Tables) -> Option<Rule>
    ensures { result ≡ first_broken (table_rules tables.now) }
{
    if tables.sets.len() != 4 {
        return Some(Rule(1));
    }
    check_sets(
        &tables.sets[0],
        &tables.sets[1],
        &tables.sets[2],
        &tables.sets[3],
    )
}

fn check_sets(a: &[u16], b: &[u16], c: &[u16], d: &[u16]) -> Option<Rule>
    ensures { result ≡ first_broken (table_rules (a.now ∷ b.now ∷ c.now ∷ d.now ∷ [])) }
{
    if !(a.len() == NUMBERS && b.len() == NUMBERS && c.len() == NUMBERS && d.len() == NUMBERS) {
        Some(Rule(1))
    } else if !(is_valid(a) && is_valid(b) && is_valid(c) && is_valid(d)) {
        Some(Rule(2))
    } else if !agree(a, b, c, d) {
        Some(Rule(3))
    } else {
        None
    }
}

fn is_valid(set: &[u16]) -> bool
    requires { length set.now ≡ 5528 }
    ensures { result ≡ valid_set set.now }
{
    let mut run = 0;
    let mut cell = Cell { place: 0, len: 0 };
    for k in 0..NUMBERS {
        run = run_with(run, k);
        cell = cell_with(run, cell, k);
        if !number_fits(set, k, cell) {
            return false;
        }
    }
    true
}

fn number_fits(set: &[u16], k: usize, cell: Cell) -> bool
    requires set { length set.now ≡ 5528 }
    requires k { k < 5528 }
    requires cell { cell ≡ cell_of k }
    requires from { cell.place ≤ k }
    requires within { cell.place + cell.len ≤ 5528 }
    ensures { result ≡ number_fits set.now k }
{
    let number = set[k];
    if cell.len < 2 {
        number == 0
    } else if cell.ends_with(k) {
        number <= 32
    } else {
        number < 32768 && (k == cell.place || number <= set[k - 1])
    }
}

fn agree(a: &[u16], b: &[u16], c: &[u16], d: &[u16]) -> bool
    requires a { length a.now ≡ 5528 }
    requires b { length b.now ≡ 5528 }
    requires c { length c.now ≡ 5528 }
    requires d { length d.now ≡ 5528 }
    ensures { result ≡ sets_agree (a.now ∷ b.now ∷ c.now ∷ d.now ∷ []) }
{
    for k in 0..NUMBERS {
        if !agree_at(a, b, c, d, k) {
            return false;
        }
    }
    true
}

fn agree_at(a: &[u16], b: &[u16], c: &[u16], d: &[u16], k: usize) -> bool
    requires a { k < length a.now }
    requires b { k < length b.now }
    requires c { k < length c.now }
    requires d { k < length d.now }
    ensures { result ≡ (is_coefficient k || same_at (a.now ∷ b.now ∷ c.now ∷ d.now ∷ []) k) }
{
    same_at(a[k], b[k], c[k], d[k]) || is_coefficient(k)
}

#[tactic(auto, using(std::proofs::lemmas::Bool::Decides::nat_tests))]
fn same_at(a: u16, b: u16, c: u16, d: u16) -> bool
    ensures { result ≡ (nat_eq a a && (nat_eq b a && (nat_eq c a && (nat_eq d a && true)))) }
{
    b == a && c == a && d == a
}

fn is_within(runs: &[Run], k: usize) -> bool
    requires { All (λ run. end_of run ≤ 5528) runs.now }
    ensures { result ≡ list_any (is_in k) runs.now }
{
    runs.iter().any(|run| run.has_place(k))
}

#[tactic(auto, unfolding(crate::specs::Tables::is_coefficient, crate::specs::Layout::layout))]
fn is_coefficient(k: usize) -> bool
    ensures { result ≡ is_coefficient k }
{
    is_within(&COEFFICIENTS, k)
}
