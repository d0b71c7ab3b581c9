// A reference frame from a JSON value.
ghost use Rattle.av1_input.specs.Refs.{ref_state};

use crate::error::ShapeError;
use crate::from_json::FromJson;
use crate::members::Members;
use av1_frame::RefState;
use serde_json::Value;
use std::alloc::Global;

impl FromJson for RefState {
    ghost kind = { ref_state };

    fn none(_alloc: Global) -> Self {
        RefState {
            order_hint: 0,
            width: 0,
            height: 0,
            render_width: 0,
            render_height: 0,
            ref_deltas: [0; 8],
            mode_deltas: [0; 2],
        }
    }

    fn from_json(alloc: Global, value: Value) -> Result<Self, ShapeError> {
        let mut members = Members::of(alloc, value);
        let state = RefState {
            order_hint: members.optional("order_hint"),
            width: members.required("width"),
            height: members.required("height"),
            render_width: members.required("render_width"),
            render_height: members.required("render_height"),
            ref_deltas: members.optional("ref_deltas"),
            mode_deltas: members.optional("mode_deltas"),
        };
        members.finish(state)
    }
}
