// A metadata OBU from a JSON value.
ghost use Rattle.std.specs.Prelude.{◌≡◌};
ghost use Rattle.av1_input.specs.Metadata.{message, metadata, metadata_named};

use crate::error::ShapeError;
use crate::from_json::FromJson;
use crate::members::Members;
use crate::path::or_unfit;
use av1_frame::{Metadata, T35};
use serde_json::Value;
use std::alloc::Global;

impl FromJson for T35 {
    ghost kind = { message };

    fn none(alloc: Global) -> Self {
        T35 {
            country_code: 0,
            country_code_extension_byte: 0,
            payload: Vec::new(alloc),
        }
    }

    fn from_json(alloc: Global, value: Value) -> Result<Self, ShapeError> {
        let mut members = Members::of(alloc, value);
        let message = T35 {
            country_code: members.optional("country_code"),
            country_code_extension_byte: members.optional("country_code_extension_byte"),
            payload: members.list("payload"),
        };
        members.finish(message)
    }
}

fn metadata_named(name: &str) -> Option<Metadata>
    ensures { result ≡ metadata_named name.now }
{
    match name {
        "cll" => Some(Metadata::Cll),
        "mdcv" => Some(Metadata::Mdcv),
        _ => None,
    }
}

impl FromJson for Metadata {
    ghost kind = { metadata };

    fn none(_alloc: Global) -> Self {
        Metadata::Cll
    }

    #[tactic(auto, unfolding(crate::specs::Metadata::fit_metadata))]
    fn from_json(alloc: Global, value: Value) -> Result<Self, ShapeError> {
        match value {
            Value::String(name) => or_unfit(alloc, metadata_named(name.as_str())),
            _ => match T35::from_json(alloc, value) {
                Ok(message) => Ok(Metadata::T35(message)),
                Err(error) => Err(error),
            },
        }
    }
}
