ghost use Rattle.std.specs.Prelude.{◌≡◌, IfOk, OnOk, IsSome, Some, None, [], map, option_map, true};
ghost use Rattle.std.specs.List.Sorted.{IsStrictlySortedBy};
ghost use Rattle.std.specs.Ordering.{nat_cmp};
ghost use Rattle.std.specs.Cmp.Lexicographic.{slice_cmp};
ghost use Rattle.serde_json.specs.Find.{as_object};
ghost use Rattle.serde_json.specs.View.{view, members_view};
ghost use Rattle.mx_meta.specs.Fields.{with_fields, object_of, IfBad, IsFault};
ghost use Rattle.mx_meta.specs.Json.{names_of};
ghost use Rattle.mx_meta.specs.Rising.{is_rising, bytes_below};
ghost use Rattle.mx_meta.specs.Walk.{fields_shown, first_bad};

use crate::MetaError;
use mx_lists::Text;
use serde_json::{Map, Value};
use std::alloc::Global;
use std::cmp::Ordering;

/// A field that an object is to have, and whether what stands there reads as its kind.
#[derive(Drop)]
pub struct Field<'a> {
    pub name: &'a str,
    pub reads: bool,
}

/// The object that bytes spell.
pub fn read_object(alloc: Global, bytes: &[u8]) -> Result<Value, MetaError>
    ensures ok { IfOk result (λ v. object_of bytes.now ≡ Some (view v)) }
    ensures object { IfOk result (λ v. IsSome (as_object (view v))) }
    ensures bad { IfBad result (λ field. field ≡ []) }
    ensures only { IfBad result (λ _. object_of bytes.now ≡ None) }
{
    match Value::from_slice(alloc, bytes) {
        Ok(value) => {
            if value.is_object() {
                Ok(value)
            } else {
                Err(no_object(alloc))
            }
        }
        Err(error) if error.is_memory() => Err(MetaError::NoMemory),
        Err(_) => Err(no_object(alloc)),
    }
}

fn no_object(alloc: Global) -> MetaError
    ensures { result ≡ MetaError.BadMeta [] }
{
    MetaError::BadMeta {
        field: Text::new(alloc),
    }
}

/// Whether an object has exactly these fields, which rise, and each of them reads.
pub fn check_fields(alloc: Global, object: &Value, fields: &[Field<'_>]) -> Result<(), MetaError>
    requires object { IsSome (as_object (view object.now)) }
    requires rising { is_rising bytes_below (map (λ f. f.name) (fields_shown fields.now)) ≡ true }
    ensures ok { OnOk result (with_fields (fields_shown fields.now) (view object.now) ≡ Some (view object.now)) }
    ensures bad { IfBad result (IsFault (fields_shown fields.now) (view object.now)) }
    ensures only { IfBad result (λ _. with_fields (fields_shown fields.now) (view object.now) ≡ None) }
{
    let members = object.as_object().unwrap();
    match first_bad(members, fields) {
        None => Ok(()),
        Some(name) => Err(MetaError::BadMeta {
            field: Text::from_str(alloc, name)?,
        }),
    }
}

// Names and members both rise, so the first place where they part is the least bad name.
fn first_bad<'a>(members: &'a Map<String, Value>, fields: &'a [Field<'a>]) -> Option<&'a str>
    ensures first { option_map (λ name. name.now) result
        ≡ first_bad (fields_shown fields.now) (members_view members.now.entries) }
    ensures sorted { IsStrictlySortedBy (slice_cmp nat_cmp) (names_of (members_view members.now.entries)) }
{
    let mut left = fields;
    for (name, _) in members.iter() {
        let [first, more @ ..] = left else {
            return Some(name.as_str());
        };
        match first.name.cmp(name.as_str()) {
            Ordering::Equal if first.reads => left = more,
            Ordering::Greater => return Some(name.as_str()),
            _ => return Some(first.name),
        }
    }
    match left {
        [] => None,
        [first, ..] => Some(first.name),
    }
}
