ghost use Rattle.std.specs.Prelude.{◌≡◌, is_some, map, option_and_then, option_map};
ghost use Rattle.std.specs.Str.{bytes_eq};
ghost use Rattle.std.specs.Cmp.Lexicographic.{pointwise};
ghost use Rattle.serde_json.specs.Find.{get, as_array, as_str};
ghost use Rattle.serde_json.specs.View.{view, members_view, items_view};
ghost use Rattle.mx_meta.specs.Json.{names_of, with_names, field_in, number_in, count_in};

use serde_json::{Map, Value};

/// Whether a value is an object of exactly these names, which are in byte order.
pub fn has_fields(value: &Value, names: &[&str]) -> bool
    ensures { result ≡ is_some (with_names (map (λ name. name.now) names.now) (view value.now)) }
{
    match value.as_object() {
        Some(members) => has_names(members, names),
        None => false,
    }
}

fn has_names(members: &Map<String, Value>, names: &[&str]) -> bool
    ensures { result ≡ pointwise bytes_eq (names_of (members_view members.now.entries))
        (map (λ name. name.now) names.now) }
{
    let mut left = names;
    for (name, _) in members.iter() {
        match left {
            [first, more @ ..] if name.as_str() == *first => left = more,
            _ => return false,
        }
    }
    left.is_empty()
}

/// The value, where it is an object of exactly these names, which are in byte order.
pub fn with_names<'a>(value: &'a Value, names: &[&str]) -> Option<&'a Value>
    ensures { option_map (λ v. view v.now) result ≡ with_names (map (λ name. name.now) names.now) (view value.now) }
{
    if has_fields(value, names) {
        Some(value)
    } else {
        None
    }
}

/// The text that a field is.
pub fn text_field<'a>(value: &'a Value, name: &str) -> Option<&'a str>
    ensures { option_map (λ text. text.now) result ≡ field_in as_str name.now (view value.now) }
{
    value.get(name).and_then(Value::as_str)
}

/// The number that a field is.
pub fn number_field(value: &Value, name: &str) -> Option<u64>
    ensures { result ≡ field_in number_in name.now (view value.now) }
{
    value.get(name).and_then(Value::as_u64)
}

/// The whole number below 2^63 that a field is.
#[tactic(auto, unfolding(crate::specs::Json::count_in))]
pub fn count_field(value: &Value, name: &str) -> Option<u64>
    ensures { result ≡ field_in count_in name.now (view value.now) }
{
    let number = number_field(value, name)?;
    if number < 1 << 63 { Some(number) } else { None }
}

/// The items of the array that a field is.
pub fn items_field<'a>(value: &'a Value, name: &str) -> Option<&'a [Value]>
    ensures { option_map (λ items. items_view items.now) result ≡ field_in as_array name.now (view value.now) }
{
    match value.get(name).and_then(Value::as_array) {
        Some(items) => Some(items.as_slice()),
        None => None,
    }
}
