ghost use Rattle.std.specs.Prelude.{◌≡◌, All, IfOk, IfSome, OnOk, Some, map, true};
ghost use Rattle.serde_json.specs.Data.{string};
ghost use Rattle.serde_json.specs.View.{view, items_view};
ghost use Rattle.mx_base.specs.Names.{is_path, IsPath};
ghost use Rattle.mx_meta.specs.Json.{each_in, field_in, paths_in, rising_paths_in, text_in};
ghost use Rattle.mx_meta.specs.Rising.{is_rising, bytes_below};

use crate::fields::items_field;
use crate::rising::is_rising;
use mx_base::{NameError, Path};
use mx_lists::Listed;
use serde_json::Value;
use std::alloc::{AllocError, Global};

/// The values of paths.
pub fn path_values(alloc: Global, paths: &[Path]) -> Result<Vec<Value>, AllocError>
    ensures value { IfOk result (λ vs. map view vs.items ≡ map string paths.now) }
    ensures names { OnOk result (All IsPath paths.now) }
{
    let mut values = Vec::new(alloc);
    for path in paths {
        values.push(path_value(alloc, path)?)?;
    }
    Ok(values)
}

fn path_value(alloc: Global, path: &Path) -> Result<Value, AllocError>
    ensures value { IfOk result (λ v. view v ≡ string path.now) }
    ensures names { IsPath path.now }
{
    Ok(Value::String(String::from_str(alloc, path.as_str())?))
}

/// The paths that a field is.
#[tactic(auto, unfolding(crate::specs::Json::paths_in))]
pub fn paths_field(
    alloc: Global,
    value: &Value,
    name: &str,
) -> Result<Option<Listed<Path>>, AllocError>
    ensures { IfOk result (λ paths. paths ≡ field_in paths_in name.now (view value.now)) }
{
    match items_field(value, name) {
        Some(items) => each_path(alloc, items),
        None => Ok(None),
    }
}

/// The paths in the order of their bytes that a field is.
#[tactic(auto, unfolding(crate::specs::Json::rising_paths_in))]
pub fn rising_paths_field(
    alloc: Global,
    value: &Value,
    name: &str,
) -> Result<Option<Listed<Path>>, AllocError>
    ensures value { IfOk result (λ paths. paths ≡ field_in rising_paths_in name.now (view value.now)) }
    ensures rising { IfOk result (λ paths. IfSome paths (λ paths. is_rising bytes_below paths ≡ true)) }
{
    match paths_field(alloc, value, name)? {
        Some(paths) => {
            if is_rising(paths.as_slice()) {
                Ok(Some(paths))
            } else {
                Ok(None)
            }
        }
        None => Ok(None),
    }
}

fn each_path(alloc: Global, items: &[Value]) -> Result<Option<Listed<Path>>, AllocError>
    ensures { IfOk result (λ paths. paths ≡ each_in (text_in is_path) (items_view items.now)) }
{
    let mut paths = Listed::new(alloc);
    for item in items {
        match path_in(alloc, item)? {
            Some(path) => paths.push(path)?,
            None => return Ok(None),
        }
    }
    Ok(Some(paths))
}

/// The path that a field is.
pub fn path_field(alloc: Global, value: &Value, name: &str) -> Result<Option<Path>, AllocError>
    ensures { IfOk result (λ path. path ≡ field_in (text_in is_path) name.now (view value.now)) }
{
    match value.get(name) {
        Some(value) => path_in(alloc, value),
        None => Ok(None),
    }
}

fn path_in(alloc: Global, value: &Value) -> Result<Option<Path>, AllocError>
    ensures { IfOk result (λ path. path ≡ text_in is_path (view value.now)) }
{
    let Some(text) = value.as_str() else {
        return Ok(None);
    };
    match Path::parse(alloc, text) {
        Ok(path) => Ok(Some(path)),
        Err(NameError::BadName) => Ok(None),
        Err(NameError::NoMemory) => Err(AllocError),
    }
}
