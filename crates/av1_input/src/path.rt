// The path of a place that does not fit, made from the inside out.
ghost use Rattle.std.specs.Prelude.{◌≡◌, ◌++◌, IfOk, OnOk, Option, codes, decimal, string_bytes};
ghost use Rattle.std.specs.List.{flat_map};
ghost use Rattle.std.specs.Str.{chars};
ghost use Rattle.av1_input.specs.Fitted.{Unfit, escaped, name_step, index_step, or_unfit};
ghost use Rattle.av1_input.specs.Why.{Answers, IsUnder, IsWhy};

use crate::error::ShapeError;
use std::alloc::{AllocError, Global};

fn push_escaped(text: &mut String, c: char) -> Result<(), AllocError>
    ensures { OnOk result (string_bytes text.new ≡ string_bytes text.old ++ escaped c) }
{
    match c {
        '~' => text.push_str("~0"),
        '/' => text.push_str("~1"),
        _ => text.push(c),
    }
}

fn escaped(alloc: Global, name: &str) -> Result<String, AllocError>
    ensures { IfOk result (λ text. string_bytes text ≡ flat_map escaped (chars name.now)) }
{
    let mut text = String::new(alloc);
    for c in name.chars() {
        push_escaped(&mut text, c)?;
    }
    Ok(text)
}

#[tactic(auto, unfolding(crate::specs::Fitted::name_step))]
fn under_name(alloc: Global, name: &str, path: &str) -> Result<String, AllocError>
    ensures { IfOk result (λ text. string_bytes text ≡ name_step name.now ++ path.now) }
{
    let name = escaped(alloc, name)?;
    Ok(format!(in alloc; "/{name}{path}")?)
}

#[tactic(auto, unfolding(crate::specs::Fitted::index_step))]
fn under_index(alloc: Global, index: usize, path: &str) -> Result<String, AllocError>
    ensures { IfOk result (λ text. string_bytes text ≡ index_step index ++ path.now) }
{
    Ok(format!(in alloc; "/{index}{path}")?)
}

impl ShapeError {
    /// The error of a member's value, seen from its object.
    pub(crate) fn in_member(self, alloc: Global, name: &str) -> ShapeError
        ensures { IsUnder (name_step name.now) self result }
    {
        match self {
            ShapeError::BadShape(path) => match under_name(alloc, name, &path) {
                Ok(path) => ShapeError::BadShape(path),
                Err(_) => ShapeError::OutOfMemory,
            },
            ShapeError::BadText => ShapeError::BadText,
            ShapeError::OutOfMemory => ShapeError::OutOfMemory,
        }
    }

    /// The error of an item, seen from its list.
    pub(crate) fn in_item(self, alloc: Global, index: usize) -> ShapeError
        ensures { IsUnder (index_step index) self result }
    {
        match self {
            ShapeError::BadShape(path) => match under_index(alloc, index, &path) {
                Ok(path) => ShapeError::BadShape(path),
                Err(_) => ShapeError::OutOfMemory,
            },
            ShapeError::BadText => ShapeError::BadText,
            ShapeError::OutOfMemory => ShapeError::OutOfMemory,
        }
    }
}

/// What was found, or the error that this place does not fit.
pub(crate) fn or_unfit<T: Drop>(alloc: Global, found: Option<T>) -> Result<T, ShapeError>
    ensures { Answers result (or_unfit found) }
{
    match found {
        Some(x) => Ok(x),
        None => Err(ShapeError::BadShape(String::new(alloc))),
    }
}
