ghost use Rattle.std.specs.Prelude.{◌≡◌, ◌↔◌, IsTrue, ℕ, ◌≤◌, max, List, Option, Some, IfSome};
ghost use Rattle.mx_store.specs.Calls.{Counts};
ghost use Rattle.mx_store.specs.declared.change.Change.TheVariants.{Put};
ghost use Rattle.mx_base.specs.Objects.{object_path};
ghost use Rattle.mx_base.specs.declared.object_name.ObjectName.TheVariants.{Config};
ghost use Rattle.mx_world.specs.Instants as instants;
ghost use Rattle.mx_world.specs.Instants.{Requests, IsDrawnBy};
ghost use Rattle.mx_world.specs.Mirror.{IsPlain};
ghost use Rattle.mx_world.specs.State as spec;
ghost use Rattle.mx_world.specs.State.{Makes, IsDone, CountsOutcome, Declines, IsLastAfter};

use crate::error::ChangeError;
use mx_base::{ActionState, Instant, ObjectName, Path};
use mx_lists::Bytes;
use mx_store::{Change, Store, StoreError};
use std::alloc::Global;

/// What became of a change that a store was asked for.
#[derive(Clone, Copy, Debug, PartialEq, Eq)]
pub enum Outcome {
    Made,
    /// A create found something, or a delete found nothing.
    Declined,
    /// It was made, or nothing was, and which is not known.
    Failed,
    NoMemory,
}

/// Asks the store for the change.
pub fn make<S: Store>(alloc: Global, store: &mut S, change: &Change) -> Outcome
    ensures makes { Makes change.now (S.journal store.old) (S.journal store.new) result }
    ensures reads { S.reads store.new ≡ S.reads store.old }
    ensures faults { CountsOutcome (S.faults store.old) (S.faults store.new) result }
{
    let made = match change {
        Change::Create { path, bytes } => store.create(alloc, path, bytes.as_slice()),
        Change::Put { path, bytes } => put(alloc, store, path, bytes),
        Change::Delete { path } => store.delete(alloc, path),
    };
    outcome_of(made)
}

fn put<S: Store>(
    alloc: Global,
    store: &mut S,
    path: &Path,
    bytes: &Bytes,
) -> Result<bool, StoreError>
    ensures makes { Makes (Put path.now bytes.now) (S.journal store.old) (S.journal store.new) (spec.outcome_of result) }
    ensures reads { S.reads store.new ≡ S.reads store.old }
    ensures faults { Counts (S.faults store.old) (S.faults store.new) result }
{
    store.put(alloc, path, bytes.as_slice())?;
    Ok(true)
}

fn outcome_of(made: Result<bool, StoreError>) -> Outcome
    ensures { result ≡ spec.outcome_of made }
{
    match made {
        Ok(true) => Outcome::Made,
        Ok(false) => Outcome::Declined,
        Err(StoreError::Failed) => Outcome::Failed,
        Err(StoreError::NoMemory) => Outcome::NoMemory,
    }
}

// A create that found something is refused; where a delete found nothing, there is nothing to do.
pub fn declined(change: Change) -> Result<(), ChangeError>
    requires plain { IsPlain change }
    ensures { Declines change result }
{
    match change {
        Change::Create { path, .. } => Err(ChangeError::Changed { path }),
        _ => Ok(()),
    }
}

/// Whether it is a create or a delete, and of another object than the config.
pub fn is_plain(change: &Change) -> bool
    ensures { IsTrue result ↔ IsPlain change.now }
{
    match change {
        Change::Create { path, .. } | Change::Delete { path } => !is_config(path),
        Change::Put { .. } => false,
    }
}

fn is_config(path: &Path) -> bool
    ensures { IsTrue result ↔ (path.now ≡ object_path Config) }
{
    ObjectName::of(path) == Some(ObjectName::Config)
}

/// Whether what a `get` found at the change's path shows that it was applied.
pub fn is_done(change: &Change, found: &Option<Bytes>) -> bool
    ensures { IsTrue result ↔ IsDone change.now found.now }
{
    match (change, found) {
        (Change::Delete { .. }, found) => found.is_none(),
        (Change::Create { bytes, .. } | Change::Put { bytes, .. }, Some(found)) => {
            found.as_slice() == bytes.as_slice()
        }
        (_, None) => false,
    }
}

/// The path whose object a change makes or takes away.
pub fn path_of(change: &Change) -> &Path
    ensures { result.now ≡ spec.path_of change.now }
{
    match change {
        Change::Create { path, .. } => path,
        Change::Put { path, .. } => path,
        Change::Delete { path } => path,
    }
}

pub fn last_after(last: Instant, change: &Change) -> Instant
    ensures after { IsLastAfter last change.now result }
    ensures rises { last ≤ result }
{
    match change {
        Change::Create { path, .. } => drawn_by(last, path),
        _ => last,
    }
}

fn drawn_by(last: Instant, path: &Path) -> Instant
    ensures after { IsDrawnBy path.now last result }
    ensures rises { last ≤ result }
{
    match requested_at(path) {
        Some(at) => later(last, at),
        None => last,
    }
}

fn later(last: Instant, at: Instant) -> Instant
    ensures { result ≡ max last at }
{
    last.max(at)
}

// The instant at which the object of a path requests an action.
fn requested_at(path: &Path) -> Option<Instant>
    ensures found { IfSome result (Requests path.now) }
    ensures only { (at : ℕ) → Requests path.now at → result ≡ Some at }
{
    let name = ObjectName::of(path)?;
    requested_in(&name)
}

fn requested_in(name: &ObjectName) -> Option<Instant>
    ensures { result ≡ instants.requested_in name.now }
{
    match *name {
        ObjectName::Timeline {
            at,
            state: ActionState::Requested,
            ..
        } => Some(at),
        _ => None,
    }
}
