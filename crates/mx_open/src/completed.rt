ghost use Rattle.std.specs.Prelude.{◌≡◌, ◌++◌, IfOk, OnOk, option_and_then};
ghost use Rattle.std.specs.Option.{option_to_list};
ghost use Rattle.mx_groups.specs.Groups.{AreCommits};
ghost use Rattle.mx_model.specs.Timeline as timeline;
ghost use Rattle.mx_store.specs.Objects.{Objects, at_path};
ghost use Rattle.mx_open.specs.Leaving.{AreNamesOf};

use crate::held::Held;
use mx_base::{Instant, Path};
use mx_lists::Listed;
use mx_meta::{CommitMeta, MetaError};
use mx_model::Action;
use std::alloc::{AllocError, Global};

/// The completed commits, each with what its object says. The objects are those that are held, and these are the paths of all
/// below `.hoodie/`.
pub(crate) fn completed_actions(
    alloc: Global,
    held: &Held,
    names: &[Path],
) -> Result<Listed<Action>, AllocError>
    ensures { (objects : Objects) → AreNamesOf objects held.now names.now → IfOk result (AreCommits objects) }
{
    let mut actions = Listed::new(alloc);
    for path in names {
        add_action(alloc, held, &mut actions, path)?;
    }
    Ok(actions)
}

fn add_action(
    alloc: Global,
    held: &Held,
    actions: &mut Listed<Action>,
    path: &Path,
) -> Result<(), AllocError>
    ensures { OnOk result (actions.new ≡ actions.old ++ option_to_list (timeline.action_at held.now path.now)) }
{
    if let Some(action) = action_at(alloc, held, path)? {
        actions.push(action)?;
    }
    Ok(())
}

// The completed commit whose object stands at the path and reads.
fn action_at(alloc: Global, held: &Held, path: &Path) -> Result<Option<Action>, AllocError>
    ensures { IfOk result (λ action. action ≡ timeline.action_at held.now path.now) }
{
    match path.commit_instant() {
        Some(at) => action_of(alloc, held, path, at),
        None => Ok(None),
    }
}

fn action_of(
    alloc: Global,
    held: &Held,
    path: &Path,
    at: Instant,
) -> Result<Option<Action>, AllocError>
    ensures { IfOk result (λ action. action ≡ option_and_then (timeline.action_of at) (at_path held.now path.now)) }
{
    match held.get(path) {
        Some(bytes) => action_in(alloc, at, bytes.as_slice()),
        None => Ok(None),
    }
}

fn action_in(alloc: Global, at: Instant, bytes: &[u8]) -> Result<Option<Action>, AllocError>
    ensures { IfOk result (λ action. action ≡ timeline.action_of at bytes.now) }
{
    match CommitMeta::read(alloc, bytes) {
        Ok(meta) => Ok(Some(Action { at, meta })),
        Err(MetaError::BadMeta { .. }) => Ok(None),
        Err(MetaError::NoMemory) => Err(AllocError),
    }
}
