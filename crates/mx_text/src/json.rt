ghost use Rattle.std.specs.Prelude.{◌≡◌, IfOk, IsErrOf, true};
ghost use Rattle.serde_json.specs.Data.{Data};
ghost use Rattle.serde_json.specs.View.{view, items_view, members_view};
ghost use Rattle.mx_text.specs.Plain.{plain, plain_items, plain_members, Spells};

use serde_json::{Map, Value};
use std::alloc::{AllocError, Global};

/// Why a line gives no value.
#[derive(Clone, Copy, Debug, PartialEq, Eq)]
pub enum TextError {
    NotJson,
    NoMemory,
}

/// A value without floats, at most 32 arrays and objects inside each other.
#[derive(Drop)]
pub struct Json {
    pub value: Value,
    pub ghost is_plain: { plain 32 (view value) ≡ true },
}

/// The value that a line is. Of a name that stands twice in an object the last value counts.
pub fn read_line(alloc: Global, bytes: &[u8]) -> Result<Json, TextError>
    ensures ok { IfOk result (λ json. Spells bytes.now (view json.value)) }
    ensures not_json { IsErrOf result TextError.NotJson → (d : Data) → ¬ Spells bytes.now d }
{
    match Value::from_slice(alloc, bytes) {
        Ok(value) => {
            if is_plain(&value, 32) {
                Ok(Json { value })
            } else {
                Err(TextError::NotJson)
            }
        }
        Err(e) => {
            if e.is_memory() {
                Err(TextError::NoMemory)
            } else {
                Err(TextError::NotJson)
            }
        }
    }
}

#[cycle(plain)]
fn is_plain(value: &Value, left: u32) -> bool
    ensures { result ≡ plain left (view value.now) }
{
    match value {
        Value::Null => true,
        Value::Bool(_) => true,
        Value::Number(number) => !number.is_f64(),
        Value::String(_) => true,
        Value::Array(items) => left > 0 && are_plain(items, left - 1),
        Value::Object(members) => left > 0 && have_plain(members, left - 1),
    }
}

#[cycle(plain)]
fn are_plain(items: &Vec<Value>, left: u32) -> bool
    ensures { result ≡ plain_items left (items_view items.now.items) }
{
    for item in items {
        if !is_plain(item, left) {
            return false;
        }
    }
    true
}

#[cycle(plain)]
fn have_plain(members: &Map<String, Value>, left: u32) -> bool
    ensures { result ≡ plain_members left (members_view members.now.entries) }
{
    for (_, member) in members.iter() {
        if !is_plain(member, left) {
            return false;
        }
    }
    true
}
