// The filter of a restoration unit from a JSON value.
ghost use Rattle.std.specs.Prelude.{[]};
ghost use Rattle.serde_json.specs.View.{view};
ghost use Rattle.av1_input.specs.Filter.{filter, filter_by, guided, guided_rows, no_guided, wiener_rows};
ghost use Rattle.av1_input.specs.Rows.{closed, fit_then, then_of};
ghost use Rattle.av1_input.specs.Taking.{Finishes, left_of};
ghost use Rattle.av1_input.specs.Why.{Answers};
ghost use Rattle.av1_syntax.specs.declared.restoration.RestorationFilter.TheVariants.{Wiener};

use crate::error::ShapeError;
use crate::from_json::FromJson;
use crate::members::Members;
use av1_syntax::RestorationFilter;
use serde_json::Value;
use std::alloc::Global;

impl FromJson for RestorationFilter {
    ghost kind = { filter };

    fn none(_alloc: Global) -> Self {
        RestorationFilter::None
    }

    #[tactic(auto, unfolding(crate::specs::Filter::fit_filter))]
    fn from_json(alloc: Global, value: Value) -> Result<Self, ShapeError> {
        match value {
            Value::Null => Ok(RestorationFilter::None),
            _ => filter_of(alloc, value),
        }
    }
}

fn filter_of(alloc: Global, value: Value) -> Result<RestorationFilter, ShapeError>
    ensures { Answers result (fit_then [] filter_by tt (view value)) }
{
    let members = Members::of(alloc, value);
    filter_by(members)
}

// By what its object has.
fn filter_by(members: Members) -> Result<RestorationFilter, ShapeError>
    ensures { Finishes (filter_by tt (left_of members)) members result }
{
    if members.has("wiener") {
        wiener(members)
    } else {
        guided(members)
    }
}

fn wiener(mut members: Members) -> Result<RestorationFilter, ShapeError>
    ensures { Finishes (then_of wiener_rows (closed Wiener) [] (left_of members)) members result }
{
    let coeffs = members.required("wiener");
    members.finish(RestorationFilter::Wiener { coeffs })
}

fn guided(mut members: Members) -> Result<RestorationFilter, ShapeError>
    ensures { Finishes (then_of guided_rows (closed guided) no_guided (left_of members)) members result }
{
    let filter = RestorationFilter::Sgrproj {
        set: members.required("set"),
        xqd: members.required("xqd"),
    };
    members.finish(filter)
}
