// The members of an object, taken out one by one.
ghost use Rattle.std.specs.Prelude.{◌≡◌, [], is_some, option_map, Some, None, IfOk, IfErr, string_bytes};
ghost use Rattle.std.specs.Option.{option_map_or};
ghost use Rattle.serde_json.specs.Find.{get_member};
ghost use Rattle.serde_json.specs.View.{view, members_view};
ghost use Rattle.av1_input.specs.Fitted.{Fits, Unfit, name_step, within};
ghost use Rattle.av1_input.specs.Kinds.{list, text};
ghost use Rattle.av1_input.specs.Rows.{closed, no_stranger, without};
ghost use Rattle.av1_input.specs.Taking.{Begins, Takes, Finishes, left_of};
ghost use Rattle.av1_input.specs.Why.{Answers, IsWhy, IsUnfitAt};

use crate::error::ShapeError;
use crate::from_json::FromJson;
use crate::list::read_list;
use serde_json::{Map, Value};
use std::alloc::Global;

/// What is left of an object's members, and the first error.
#[derive(Drop)]
pub struct Members {
    alloc: Global,
    left: Map<String, Value>,
    error: Option<ShapeError>,
}

impl Members {
    /// All members of an object.
    pub fn of(alloc: Global, value: Value) -> Members
        ensures { Begins (view value) result }
    {
        match value {
            Value::Object(left) => Members {
                alloc,
                left,
                error: None,
            },
            _ => Members {
                alloc,
                left: Map::new(alloc),
                error: Some(ShapeError::BadShape(String::new(alloc))),
            },
        }
    }

    fn note(&mut self, error: ShapeError)
        ensures left { self.new.left ≡ self.old.left }
        ensures kept { (e : ShapeError) → self.old.error ≡ Some e → self.new.error ≡ Some e }
        ensures noted { self.old.error ≡ None → self.new.error ≡ Some error }
    {
        if self.error.is_none() {
            self.error = Some(error);
        }
    }

    fn take(&mut self, name: &str) -> Option<Value>
        ensures found { option_map view result ≡ get_member name.now (left_of self.old) }
        ensures left { left_of self.new ≡ without name.now (left_of self.old) }
        ensures error { self.new.error ≡ self.old.error }
    {
        self.left.remove(name)
    }

    /// Whether a member of this name is left.
    pub fn has(&self, name: &str) -> bool
        ensures { result ≡ is_some (get_member name.now (left_of self.now)) }
    {
        self.left.contains_key(name)
    }

    /// The member of this name, or `default` where there is none.
    #[tactic(auto, unfolding(crate::specs::Rows::fit_member))]
    pub fn or<T: FromJson>(&mut self, name: &str, default: T) -> T
        ensures { Takes name.now T.kind (Fits default) self.old self.new result }
    {
        let Some(value) = self.take(name) else {
            return default;
        };
        match read_member(self.alloc, name, value) {
            Ok(x) => x,
            Err(error) => {
                self.note(error);
                default
            }
        }
    }

    /// The member of this name, or where there is none the default of its kind.
    pub fn optional<T: FromJson>(&mut self, name: &str) -> T
        ensures { Takes name.now T.kind (Fits T.kind.none) self.old self.new result }
    {
        let none = T::none(self.alloc);
        self.or(name, none)
    }

    /// The member of this name, which must be there.
    #[tactic(auto, unfolding(crate::specs::Rows::fit_member))]
    pub fn required<T: FromJson>(&mut self, name: &str) -> T
        ensures { Takes name.now T.kind (Unfit []) self.old self.new result }
    {
        let Some(value) = self.take(name) else {
            self.note(missing(self.alloc, name));
            return T::none(self.alloc);
        };
        match read_member(self.alloc, name, value) {
            Ok(x) => x,
            Err(error) => {
                self.note(error);
                T::none(self.alloc)
            }
        }
    }

    /// The list of this name, or an empty one where there is none.
    #[tactic(auto, unfolding(crate::specs::Rows::fit_member))]
    pub fn list<T: FromJson>(&mut self, name: &str) -> Vec<T>
        ensures { Takes name.now (list T.kind) (Fits []) self.old self.new result.items }
    {
        let Some(value) = self.take(name) else {
            return Vec::new(self.alloc);
        };
        match read_list_member(self.alloc, name, value) {
            Ok(items) => items,
            Err(error) => {
                self.note(error);
                Vec::new(self.alloc)
            }
        }
    }

    /// The list of this name, which must be there.
    #[tactic(auto, unfolding(crate::specs::Rows::fit_member))]
    pub fn required_list<T: FromJson>(&mut self, name: &str) -> Vec<T>
        ensures { Takes name.now (list T.kind) (Unfit []) self.old self.new result.items }
    {
        let Some(value) = self.take(name) else {
            self.note(missing(self.alloc, name));
            return Vec::new(self.alloc);
        };
        match read_list_member(self.alloc, name, value) {
            Ok(items) => items,
            Err(error) => {
                self.note(error);
                Vec::new(self.alloc)
            }
        }
    }

    /// The text of this name, which must be there.
    #[tactic(auto, unfolding(crate::specs::Rows::fit_member))]
    pub fn required_text(&mut self, name: &str) -> String
        ensures { Takes name.now text (Unfit []) self.old self.new (string_bytes result) }
    {
        let Some(value) = self.take(name) else {
            self.note(missing(self.alloc, name));
            return String::new(self.alloc);
        };
        match read_text_member(self.alloc, name, value) {
            Ok(text) => text,
            Err(error) => {
                self.note(error);
                String::new(self.alloc)
            }
        }
    }

    /// What was made of the members, where each fits and none is left.
    pub fn finish<T: Drop>(self, made: T) -> Result<T, ShapeError>
        ensures { Finishes (closed (λ x. x) made (left_of self)) self result }
    {
        let Members { alloc, left, error } = self;
        match error {
            Some(error) => Err(error),
            None => match first_name(&left) {
                None => Ok(made),
                Some(name) => Err(missing(alloc, name)),
            },
        }
    }

    /// The member of this name, which was read, does not fit.
    pub fn refuse<T: Drop>(self, name: &str) -> Result<T, ShapeError>
        ensures { Finishes (Unfit (name_step name.now)) self result }
    {
        let Members {
            alloc,
            left: _,
            error,
        } = self;
        match error {
            Some(error) => Err(error),
            None => Err(missing(alloc, name)),
        }
    }
}

fn read_member<T: FromJson>(alloc: Global, name: &str, value: Value) -> Result<T, ShapeError>
    ensures { Answers result (within (name_step name.now) (T.kind.fit (view value))) }
{
    match T::from_json(alloc, value) {
        Ok(x) => Ok(x),
        Err(error) => Err(error.in_member(alloc, name)),
    }
}

fn read_list_member<T: FromJson>(
    alloc: Global,
    name: &str,
    value: Value,
) -> Result<Vec<T>, ShapeError>
    ensures ok { IfOk result (λ v. within (name_step name.now) ((list T.kind).fit (view value)) ≡ Fits v.items) }
    ensures err { IfErr result (λ e. IsWhy e (within (name_step name.now) ((list T.kind).fit (view value)))) }
{
    match read_list(alloc, value) {
        Ok(items) => Ok(items),
        Err(error) => Err(error.in_member(alloc, name)),
    }
}

#[tactic(auto, unfolding(crate::specs::Kinds::fit_text))]
fn read_text_member(alloc: Global, name: &str, value: Value) -> Result<String, ShapeError>
    ensures ok { IfOk result (λ t. within (name_step name.now) (text.fit (view value)) ≡ Fits (string_bytes t)) }
    ensures err { IfErr result (λ e. IsWhy e (within (name_step name.now) (text.fit (view value)))) }
{
    match value {
        Value::String(text) => Ok(text),
        _ => Err(missing(alloc, name)),
    }
}

// The error that there is nothing of this name, or nothing that fits.
fn missing(alloc: Global, name: &str) -> ShapeError
    ensures { IsUnfitAt (name_step name.now) result }
{
    ShapeError::BadShape(String::new(alloc)).in_member(alloc, name)
}

fn first_name(left: &Map<String, Value>) -> Option<&str>
    ensures { no_stranger (members_view left.now.entries) ≡ option_map_or (λ name. Unfit (name_step name.now)) result (Fits tt) }
{
    for (name, _) in left.iter() {
        return Some(name.as_str());
    }
    None
}
