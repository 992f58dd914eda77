ghost use Rattle.std.specs.Prelude.{◌≡◌, ◌≢◌, List, ℕ, MatchOption};
ghost use Rattle.serde_json.specs.Data.{Data, Members, string, object, no_members, member};
ghost use Rattle.serde_json.specs.View.{view, members_view};

use serde_json::Value;
use std::collections::btree_map::IntoIter;

/// The text that a value is.
pub fn text_in(value: &Value) -> Option<&str>
    ensures { MatchOption result ((s : List ℕ) → view value.now ≢ string s) (λ s. view value.now ≡ string s.now) }
{
    value.as_str()
}

/// The values of an object that has these three names and no other, in this order.
pub fn three_members(
    value: Value,
    first: &str,
    second: &str,
    third: &str,
) -> Option<(Value, Value, Value)>
    ensures { MatchOption result
        ((a b d : Data) → view value ≢ object (member first.now a (member second.now b (member third.now d no_members))))
        (λ p. view value ≡ object (member first.now (view p.0) (member second.now (view p.1) (member third.now (view p.2) no_members)))) }
{
    let Value::Object(members) = value else {
        return None;
    };
    let mut members = members.into_iter();
    let a = next_member(&mut members, first)?;
    let b = next_member(&mut members, second)?;
    let c = next_member(&mut members, third)?;
    match members.next() {
        None => Some((a, b, c)),
        Some(_) => None,
    }
}

/// The value of the next member, where it has this name.
pub fn next_member(members: &mut IntoIter<String, Value>, name: &str) -> Option<Value>
    ensures { MatchOption result
        ((d : Data) (rest : Members) → members_view members.old ≢ member name.now d rest)
        (λ v. members_view members.old ≡ member name.now (view v) (members_view members.new)) }
{
    let (found, value) = members.next()?;
    if found.as_str() == name {
        Some(value)
    } else {
        None
    }
}
