// Each row through `read_unit`.
use crate::item_rows::ITEMS;
use crate::items::items;
use crate::path_rows::PATHS;
use crate::unit_rows::UNITS;
use crate::units::unit;
use av1_input::{ShapeError, read_unit};
use std::alloc::Global;
use std::test::Fail;

fn answer(alloc: Global, text: &str) -> Result<String, Fail> {
    match read_unit(alloc, text.as_bytes()) {
        Ok(_found) => Ok(String::from_str(alloc, "fits")?),
        Err(error) => answer_of(alloc, error),
    }
}

fn answer_of(alloc: Global, error: ShapeError) -> Result<String, Fail> {
    match error {
        ShapeError::BadText => Ok(String::from_str(alloc, "bad text")?),
        ShapeError::BadShape(path) => Ok(format!(in alloc; "at {path}")?),
        ShapeError::OutOfMemory => Ok(String::from_str(alloc, "out of memory")?),
    }
}

#[test]
fn the_first_unfit_place_is_told(rt: HostRuntime) -> Result<(), Fail> {
    let alloc = rt.alloc();
    for row in PATHS.split("\n\n") {
        let (want, text) = row.split_once('\n').unwrap_or(("", ""));
        assert_eq!(rt; answer(alloc, text)?.as_str(), want, "{text}");
    }
    Ok(())
}

fn told(alloc: Global, text: &str) -> Result<String, Fail> {
    match read_unit(alloc, text.as_bytes()) {
        Ok((found, via)) => unit(alloc, &found, via),
        Err(_) => Ok(String::new(alloc)),
    }
}

#[test]
fn each_member_has_its_value(rt: HostRuntime) -> Result<(), Fail> {
    let alloc = rt.alloc();
    for row in UNITS.split("\n\n") {
        let (text, want) = row.split_once('\n').unwrap_or(("", ""));
        assert_eq!(rt; told(alloc, text)?.as_str(), want);
    }
    Ok(())
}

fn item_told(alloc: Global, item: &str) -> Result<String, Fail> {
    let before = r#"{"frame":{"width":8,"height":8},"tiles":[["#;
    let after = "]]}";
    let text = format!(in alloc; "{before}{item}{after}")?;
    match read_unit(alloc, text.as_bytes()) {
        Ok((found, _via)) => items(alloc, &found.scripts),
        Err(error) => answer_of(alloc, error),
    }
}

#[test]
fn each_kind_of_item_is_read(rt: HostRuntime) -> Result<(), Fail> {
    let alloc = rt.alloc();
    for row in ITEMS.split("\n\n") {
        let (want, item) = row.split_once('\n').unwrap_or(("", ""));
        assert_eq!(rt; item_told(alloc, item)?.as_str(), want, "{item}");
    }
    Ok(())
}
