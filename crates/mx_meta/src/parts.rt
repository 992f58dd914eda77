ghost use Rattle.std.specs.Prelude.{◌≡◌, IfOk, IfSome, map, true};
ghost use Rattle.serde_json.specs.Data.{string};
ghost use Rattle.serde_json.specs.View.{view, items_view};
ghost use Rattle.mx_base.specs.Parts.{part_name};
ghost use Rattle.mx_meta.specs.Json.{each_in, field_in, part_in, parts_in};
ghost use Rattle.mx_meta.specs.Rising.{is_rising, part_below};

use crate::fields::items_field;
use crate::names::part;
use crate::rising::is_rising;
use mx_base::Part;
use mx_lists::Listed;
use serde_json::Value;
use std::alloc::{AllocError, Global};

/// The values of index partitions.
pub fn part_values(alloc: Global, parts: &[Part]) -> Result<Vec<Value>, AllocError>
    ensures { IfOk result (λ vs. map view vs.items ≡ map (λ part. string (part_name part)) parts.now) }
{
    let mut values = Vec::new(alloc);
    for part in parts {
        values.push(part_value(alloc, *part)?)?;
    }
    Ok(values)
}

fn part_value(alloc: Global, part: Part) -> Result<Value, AllocError>
    ensures { IfOk result (λ v. view v ≡ string (part_name part)) }
{
    Ok(Value::String(String::from_str(alloc, part.name())?))
}

/// The index partitions in their order that a field is.
#[tactic(auto, unfolding(crate::specs::Json::parts_in))]
pub fn parts_field(
    alloc: Global,
    value: &Value,
    name: &str,
) -> Result<Option<Listed<Part>>, AllocError>
    ensures value { IfOk result (λ parts. parts ≡ field_in parts_in name.now (view value.now)) }
    ensures rising { IfOk result (λ parts. IfSome parts (λ parts. is_rising part_below parts ≡ true)) }
{
    let Some(items) = items_field(value, name) else {
        return Ok(None);
    };
    match each_part(alloc, items)? {
        Some(parts) => {
            if is_rising(parts.as_slice()) {
                Ok(Some(parts))
            } else {
                Ok(None)
            }
        }
        None => Ok(None),
    }
}

fn each_part(alloc: Global, items: &[Value]) -> Result<Option<Listed<Part>>, AllocError>
    ensures { IfOk result (λ parts. parts ≡ each_in part_in (items_view items.now)) }
{
    let mut parts = Listed::new(alloc);
    for item in items {
        match part(item) {
            Some(part) => parts.push(part)?,
            None => return Ok(None),
        }
    }
    Ok(Some(parts))
}
