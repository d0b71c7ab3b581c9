// Lists of a kind.
ghost use Rattle.std.specs.Prelude.{◌≡◌, ◌≤◌, length, OnOk, IfOk, IfErr};
ghost use Rattle.serde_json.specs.View.{view, items_view};
ghost use Rattle.av1_input.specs.Fitted.{Fits};
ghost use Rattle.av1_input.specs.Kinds.{each, exactly, up_to, fit_any, items_of};
ghost use Rattle.av1_input.specs.Why.{Answers, IsWhy};

use crate::error::ShapeError;
use crate::from_json::FromJson;
use arrayvec::ArrayVec;
use serde_json::Value;
use std::alloc::Global;

/// The items of a list.
pub(crate) fn list_items(alloc: Global, value: Value) -> Result<Vec<Value>, ShapeError>
    ensures ok { IfOk result (λ v. items_of (view value) ≡ Fits (items_view v.items)) }
    ensures err { IfErr result (λ e. IsWhy e (items_of (view value))) }
{
    match value {
        Value::Array(items) => Ok(items),
        _other => Err(ShapeError::BadShape(String::new(alloc))),
    }
}

// Each item is let go as soon as it was read.
fn read_into<T: FromJson + Copy>(
    alloc: Global,
    items: Vec<Value>,
    places: &mut [T],
) -> Result<(), ShapeError>
    requires { length items.items ≡ length places.old }
    ensures ok { OnOk result (each 0 T.kind.fit (items_view items.items) ≡ Fits places.new) }
    ensures err { IfErr result (λ e. IsWhy e (each 0 T.kind.fit (items_view items.items))) }
{
    let mut items = items;
    for i in 0..places.len() {
        match T::from_json(alloc, items[i].take()) {
            Ok(x) => places[i] = x,
            Err(error) => return Err(error.in_item(alloc, i)),
        }
    }
    Ok(())
}

fn read_array<T: FromJson + Copy, const N: usize>(
    alloc: Global,
    items: Vec<Value>,
) -> Result<[T; N], ShapeError>
    requires { length items.items ≡ N }
    ensures { Answers result (each 0 T.kind.fit (items_view items.items)) }
{
    let mut array = [T::none(alloc); N];
    match read_into(alloc, items, &mut array) {
        Ok(()) => Ok(array),
        Err(error) => Err(error),
    }
}

impl<T: FromJson + Copy, const N: usize> FromJson for [T; N] {
    ghost kind = { exactly N T.kind };

    fn none(alloc: Global) -> Self {
        [T::none(alloc); N]
    }

    #[tactic(auto, using(crate::proofs::Lists::right_len, crate::proofs::Lists::wrong_len, crate::proofs::Lists::no_list))]
    fn from_json(alloc: Global, value: Value) -> Result<Self, ShapeError> {
        match list_items(alloc, value) {
            Ok(items) => {
                if items.len() == N {
                    read_array(alloc, items)
                } else {
                    Err(ShapeError::BadShape(String::new(alloc)))
                }
            }
            Err(error) => Err(error),
        }
    }
}

// Each item is let go as soon as it was read.
fn read_bounded<T: FromJson + Default, const N: usize>(
    alloc: Global,
    items: Vec<Value>,
) -> Result<ArrayVec<T, N>, ShapeError>
    requires { length items.items ≤ N }
    ensures ok { IfOk result (λ v. each 0 T.kind.fit (items_view items.items) ≡ Fits v.items) }
    ensures err { IfErr result (λ e. IsWhy e (each 0 T.kind.fit (items_view items.items))) }
{
    let mut items = items;
    let mut list = ArrayVec::new();
    for i in 0..items.len() {
        match T::from_json(alloc, items[i].take()) {
            Ok(x) => list.push(x),
            Err(error) => return Err(error.in_item(alloc, i)),
        }
    }
    Ok(list)
}

impl<T: FromJson + Default, const N: usize> FromJson for ArrayVec<T, N> {
    ghost kind = { up_to N T.kind };

    fn none(_alloc: Global) -> Self {
        ArrayVec::new()
    }

    #[tactic(auto, using(crate::proofs::Lists::few_items, crate::proofs::Lists::many_items, crate::proofs::Lists::no_items))]
    fn from_json(alloc: Global, value: Value) -> Result<Self, ShapeError> {
        match list_items(alloc, value) {
            Ok(items) => {
                if items.len() <= N {
                    read_bounded(alloc, items)
                } else {
                    Err(ShapeError::BadShape(String::new(alloc)))
                }
            }
            Err(error) => Err(error),
        }
    }
}

// Each item is let go as soon as it was read.
fn read_each<T: FromJson>(alloc: Global, items: Vec<Value>) -> Result<Vec<T>, ShapeError>
    ensures ok { IfOk result (λ v. each 0 T.kind.fit (items_view items.items) ≡ Fits v.items) }
    ensures err { IfErr result (λ e. IsWhy e (each 0 T.kind.fit (items_view items.items))) }
{
    let mut items = items;
    let mut list = Vec::with_capacity(alloc, items.len())?;
    for i in 0..items.len() {
        match T::from_json(alloc, items[i].take()) {
            Ok(x) => list.push(x)?,
            Err(error) => return Err(error.in_item(alloc, i)),
        }
    }
    Ok(list)
}

/// A list of any length.
#[tactic(auto, using(crate::proofs::Lists::any_items, crate::proofs::Lists::any_none))]
pub(crate) fn read_list<T: FromJson>(alloc: Global, value: Value) -> Result<Vec<T>, ShapeError>
    ensures ok { IfOk result (λ v. fit_any T.kind.fit (view value) ≡ Fits v.items) }
    ensures err { IfErr result (λ e. IsWhy e (fit_any T.kind.fit (view value))) }
{
    match list_items(alloc, value) {
        Ok(items) => read_each(alloc, items),
        Err(error) => Err(error),
    }
}

/// A list of this length.
#[tactic(auto, using(crate::proofs::Lists::right_len, crate::proofs::Lists::wrong_len, crate::proofs::Lists::no_list))]
pub(crate) fn read_exactly<T: FromJson>(
    alloc: Global,
    value: Value,
    len: usize,
) -> Result<Vec<T>, ShapeError>
    ensures ok { IfOk result (λ v. (exactly len T.kind).fit (view value) ≡ Fits v.items) }
    ensures err { IfErr result (λ e. IsWhy e ((exactly len T.kind).fit (view value))) }
{
    match list_items(alloc, value) {
        Ok(items) => {
            if items.len() == len {
                read_each(alloc, items)
            } else {
                Err(ShapeError::BadShape(String::new(alloc)))
            }
        }
        Err(error) => Err(error),
    }
}
