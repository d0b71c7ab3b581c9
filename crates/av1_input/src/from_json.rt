// A value of a type from a JSON value.
ghost use Rattle.std.specs.Prelude.{◌≡◌, ℕ, ℤ, Option, option_and_then};
ghost use Rattle.serde_json.specs.View.{view};
ghost use Rattle.av1_input.specs.Kinds.{Kind, whole, signed, truth, nullable, small, small_signed, integer_of};
ghost use Rattle.av1_input.specs.Why.{Answers};

use crate::error::ShapeError;
use crate::path::or_unfit;
use serde_json::Value;
use std::alloc::Global;

/// A type of which a JSON value may be one.
pub trait FromJson: Sized + Drop {
    /// What stands where nothing is said, and what a JSON value stands for.
    ghost kind: { Kind Self };

    /// What stands where nothing is said. It takes no memory.
    fn none(alloc: Global) -> Self
        ensures { result ≡ kind.none };

    /// What the JSON value stands for, or the path of the first place that does not fit. The value is let go.
    fn from_json(alloc: Global, value: Value) -> Result<Self, ShapeError>
        ensures { Answers result (kind.fit (view value)) };
}

#[tactic(auto, unfolding(crate::specs::Kinds::fit_nullable))]
impl<T: FromJson> FromJson for Option<T> {
    ghost kind = { nullable T.kind };

    fn none(_alloc: Global) -> Self {
        None
    }

    fn from_json(alloc: Global, value: Value) -> Result<Self, ShapeError> {
        match value {
            Value::Null => Ok(None),
            _ => match T::from_json(alloc, value) {
                Ok(x) => Ok(Some(x)),
                Err(error) => Err(error),
            },
        }
    }
}

impl FromJson for bool {
    ghost kind = { truth };

    fn none(_alloc: Global) -> Self {
        false
    }

    #[tactic(auto, unfolding(crate::specs::Kinds::fit_truth))]
    fn from_json(alloc: Global, value: Value) -> Result<Self, ShapeError> {
        or_unfit(alloc, value.as_bool())
    }
}
