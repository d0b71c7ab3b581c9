// Whole numbers from a JSON value.
ghost use Rattle.std.specs.Prelude.{◌≡◌, option_and_then};
ghost use Rattle.serde_json.specs.View.{view};
ghost use Rattle.av1_input.specs.Kinds.{whole, signed, small, small_signed, integer_of};

use crate::error::ShapeError;
use crate::from_json::FromJson;
use crate::path::or_unfit;
use serde_json::Value;
use std::alloc::Global;

fn u8_of(value: &Value) -> Option<u8>
    ensures { result ≡ option_and_then (small 8) (integer_of (view value.now)) }
{
    u8::try_from(value.as_i64()?).ok()
}

impl FromJson for u8 {
    ghost kind = { whole 8 };

    fn none(_alloc: Global) -> Self {
        0
    }

    #[tactic(auto, unfolding(crate::specs::Kinds::fit_whole))]
    fn from_json(alloc: Global, value: Value) -> Result<Self, ShapeError> {
        or_unfit(alloc, u8_of(&value))
    }
}

fn u16_of(value: &Value) -> Option<u16>
    ensures { result ≡ option_and_then (small 16) (integer_of (view value.now)) }
{
    u16::try_from(value.as_i64()?).ok()
}

impl FromJson for u16 {
    ghost kind = { whole 16 };

    fn none(_alloc: Global) -> Self {
        0
    }

    #[tactic(auto, unfolding(crate::specs::Kinds::fit_whole))]
    fn from_json(alloc: Global, value: Value) -> Result<Self, ShapeError> {
        or_unfit(alloc, u16_of(&value))
    }
}

fn u32_of(value: &Value) -> Option<u32>
    ensures { result ≡ option_and_then (small 32) (integer_of (view value.now)) }
{
    u32::try_from(value.as_i64()?).ok()
}

impl FromJson for u32 {
    ghost kind = { whole 32 };

    fn none(_alloc: Global) -> Self {
        0
    }

    #[tactic(auto, unfolding(crate::specs::Kinds::fit_whole))]
    fn from_json(alloc: Global, value: Value) -> Result<Self, ShapeError> {
        or_unfit(alloc, u32_of(&value))
    }
}

fn u64_of(value: &Value) -> Option<u64>
    ensures { result ≡ option_and_then (small 64) (integer_of (view value.now)) }
{
    u64::try_from(value.as_i64()?).ok()
}

impl FromJson for u64 {
    ghost kind = { whole 64 };

    fn none(_alloc: Global) -> Self {
        0
    }

    #[tactic(auto, unfolding(crate::specs::Kinds::fit_whole))]
    fn from_json(alloc: Global, value: Value) -> Result<Self, ShapeError> {
        or_unfit(alloc, u64_of(&value))
    }
}

pub(crate) fn usize_of(value: &Value) -> Option<usize>
    ensures { result ≡ option_and_then (small 64) (integer_of (view value.now)) }
{
    usize::try_from(value.as_i64()?).ok()
}

impl FromJson for usize {
    ghost kind = { whole 64 };

    fn none(_alloc: Global) -> Self {
        0
    }

    #[tactic(auto, unfolding(crate::specs::Kinds::fit_whole))]
    fn from_json(alloc: Global, value: Value) -> Result<Self, ShapeError> {
        or_unfit(alloc, usize_of(&value))
    }
}

fn i8_of(value: &Value) -> Option<i8>
    ensures { result ≡ option_and_then (small_signed 8) (integer_of (view value.now)) }
{
    i8::try_from(value.as_i64()?).ok()
}

impl FromJson for i8 {
    ghost kind = { signed 8 };

    fn none(_alloc: Global) -> Self {
        0
    }

    #[tactic(auto, unfolding(crate::specs::Kinds::fit_signed))]
    fn from_json(alloc: Global, value: Value) -> Result<Self, ShapeError> {
        or_unfit(alloc, i8_of(&value))
    }
}

fn i16_of(value: &Value) -> Option<i16>
    ensures { result ≡ option_and_then (small_signed 16) (integer_of (view value.now)) }
{
    i16::try_from(value.as_i64()?).ok()
}

impl FromJson for i16 {
    ghost kind = { signed 16 };

    fn none(_alloc: Global) -> Self {
        0
    }

    #[tactic(auto, unfolding(crate::specs::Kinds::fit_signed))]
    fn from_json(alloc: Global, value: Value) -> Result<Self, ShapeError> {
        or_unfit(alloc, i16_of(&value))
    }
}

fn i32_of(value: &Value) -> Option<i32>
    ensures { result ≡ option_and_then (small_signed 32) (integer_of (view value.now)) }
{
    i32::try_from(value.as_i64()?).ok()
}

impl FromJson for i32 {
    ghost kind = { signed 32 };

    fn none(_alloc: Global) -> Self {
        0
    }

    #[tactic(auto, unfolding(crate::specs::Kinds::fit_signed))]
    fn from_json(alloc: Global, value: Value) -> Result<Self, ShapeError> {
        or_unfit(alloc, i32_of(&value))
    }
}
