ghost use Rattle.std.specs.Prelude.{◌≡◌, ◌≢◌, ℕ, Option, Some, MatchOption, codes};
ghost use Rattle.serde_json.specs.Data.{Data, Members, member, object, string};
ghost use Rattle.serde_json.specs.Find.{get};
ghost use Rattle.serde_json.specs.View.{view, members_view};
ghost use Rattle.mx_ask.specs.Asks.{commit_object, files_object, partitions_object, IsSession, IsSessionNumber, IsMoment};

use crate::fields::{instant_in, session_in};
use crate::members::next_member;
use mx_base::Instant;
use serde_json::Value;
use std::collections::btree_map::IntoIter;

/// The list of files and the session of a commit.
pub fn commit_parts(value: Value) -> Option<(Value, u32)>
    requires { get (codes "ask") (view value) ≡ Some (string (codes "commit")) }
    ensures { MatchOption result
        ((files : Data) (session : ℕ) (rest : Members) → IsSessionNumber session → IsSession session rest
        → view value ≢ commit_object files rest)
        (λ p. IsSessionNumber p.1
        × (rest : Members) × IsSession p.1 rest × (view value ≡ commit_object (view p.0) rest)) }
{
    let mut members = members_behind_ask(value)?;
    let files = next_member(&mut members, "files")?;
    let session = session_member(&mut members)?;
    Some((files, session))
}

/// The instant, the partition and the session of a look at the files of a partition.
pub fn files_parts(value: Value) -> Option<(Option<Instant>, Value, u32)>
    requires { get (codes "ask") (view value) ≡ Some (string (codes "files")) }
    ensures { MatchOption result
        ((at : Option ℕ) (partition : Data) (session : ℕ) (rest : Members) → IsMoment at → IsSessionNumber session
        → IsSession session rest → view value ≢ files_object at partition rest)
        (λ p. IsMoment p.0 × IsSessionNumber p.2
        × (rest : Members) × IsSession p.2 rest × (view value ≡ files_object p.0 (view p.1) rest)) }
{
    let mut members = members_behind_ask(value)?;
    let (name, second) = members.next()?;
    match name.as_str() {
        "at" => {
            let at = instant_in(&second)?;
            let partition = next_member(&mut members, "partition")?;
            Some((Some(at), partition, session_member(&mut members)?))
        }
        "partition" => Some((None, second, session_member(&mut members)?)),
        _ => None,
    }
}

/// The instant and the session of a look at the partitions.
pub fn partitions_parts(value: Value) -> Option<(Option<Instant>, u32)>
    requires { get (codes "ask") (view value) ≡ Some (string (codes "partitions")) }
    ensures { MatchOption result
        ((at : Option ℕ) (session : ℕ) (rest : Members) → IsMoment at → IsSessionNumber session
        → IsSession session rest → view value ≢ partitions_object at rest)
        (λ p. IsMoment p.0 × IsSessionNumber p.1
        × (rest : Members) × IsSession p.1 rest × (view value ≡ partitions_object p.0 rest)) }
{
    let mut members = members_behind_ask(value)?;
    let Some((name, second)) = members.next() else {
        return Some((None, 1));
    };
    if name.as_str() == "at" {
        Some((Some(instant_in(&second)?), session_member(&mut members)?))
    } else {
        Some((None, last_session(name.as_str(), &second, &mut members)?))
    }
}

// The members behind `ask`, which has to be the first.
fn members_behind_ask(value: Value) -> Option<IntoIter<String, Value>>
    ensures { MatchOption result
        ((kind : Data) (rest : Members) → view value ≢ object (member (codes "ask") kind rest))
        (λ members. (kind : Data) × (view value ≡ object (member (codes "ask") kind (members_view members)))) }
{
    let Value::Object(members) = value else {
        return None;
    };
    let mut members = members.into_iter();
    next_member(&mut members, "ask")?;
    Some(members)
}

// The session, which ends an object.
fn session_member(members: &mut IntoIter<String, Value>) -> Option<u32>
    ensures { MatchOption result
        ((session : ℕ) → IsSessionNumber session → ¬ IsSession session (members_view members.old))
        (λ session. IsSession session (members_view members.old) × IsSessionNumber session) }
{
    let Some((name, value)) = members.next() else {
        return Some(1);
    };
    last_session(name.as_str(), &value, members)
}

// The session that a member tells, which ends the object.
fn last_session(name: &str, value: &Value, members: &mut IntoIter<String, Value>) -> Option<u32>
    ensures { MatchOption result
        ((session : ℕ) → IsSessionNumber session → ¬ IsSession session (member name.now (view value.now) (members_view members.old)))
        (λ session. IsSession session (member name.now (view value.now) (members_view members.old)) × IsSessionNumber session) }
{
    if name == "session" && members.next().is_none() {
        session_in(value)
    } else {
        None
    }
}
