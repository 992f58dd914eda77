ghost use Rattle.std.specs.Prelude.{◌≡◌, ℕ, ◌<◌, ◌≤◌, ◌-◌, All, IfOk, IfSome};
ghost use Rattle.mx_folder.specs.Pending.{ArePending, recovery_changes};
ghost use Rattle.mx_folder.specs.Folder.{IsOpenable};
ghost use Rattle.mx_open.specs.Opening.{CountsRead, IsFolderOf};
ghost use Rattle.mx_store.specs.Objects.{Objects, objects_of};
ghost use Rattle.mx_recovery.specs.Planning.{IsDeletion, IsPlanOf, Plans, IsLastOf};

use crate::deletes::{deletes_of, left_paths, standing_paths};
use crate::instants::{before, greatest_of};
use mx_base::Instant;
use mx_lists::Listed;
use mx_open::{Folder, ReadError, read_folder};
use mx_store::{Change, Store};
use mx_world::Mirror;
use std::alloc::{AllocError, Global};

/// What the opening of a folder will do: the deletes of recovery, then changes after the last instant, with the mirror.
#[derive(Drop)]
pub struct Plan {
    pub mirror: Mirror,
    pub last: Instant,
    pub changes: Listed<Change>,
}

/// Reads the folder and works out what is to be deleted. It changes nothing.
pub fn read_plan<S: Store>(alloc: Global, store: &mut S, now: Instant) -> Result<Plan, ReadError>
    requires meant { 0 < now }
    ensures plans { IfSome (S.journal store.old) (λ journal. Plans now (objects_of journal) result) }
    ensures plain { IfOk result (λ plan. All IsDeletion plan.changes) }
    ensures from { IfOk result (λ plan. now - 1 ≤ plan.last) }
    ensures journal { S.journal store.new ≡ S.journal store.old }
    ensures faults { CountsRead (S.faults store.old) (S.faults store.new) result }
{
    let folder = read_folder(alloc, store)?;
    Ok(plan_of(alloc, folder, now)?)
}

fn plan_of(alloc: Global, folder: Folder, now: Instant) -> Result<Plan, AllocError>
    requires meant { 0 < now }
    ensures plan { (objects : Objects) → IsOpenable objects → IsFolderOf objects folder → IfOk result (IsPlanOf now objects) }
    ensures plain { IfOk result (λ plan. All IsDeletion plan.changes) }
    ensures from { IfOk result (λ plan. now - 1 ≤ plan.last) }
{
    let changes = recovery_of(alloc, &folder)?;
    let last = last_of(alloc, &folder, now)?;
    let Folder {
        config,
        names,
        others: _,
        pending: _,
        commits,
    } = folder;
    let mirror = Mirror::of(alloc, config, names.as_slice(), commits.as_slice())?;
    Ok(Plan {
        mirror,
        last,
        changes,
    })
}

// The deletes of what the pending commits left.
fn recovery_of(alloc: Global, folder: &Folder) -> Result<Listed<Change>, AllocError>
    ensures deletes { (objects : Objects) → IsOpenable objects → IsFolderOf objects folder.now → IfOk result (λ changes. changes ≡ recovery_changes objects folder.now.pending) }
    ensures plain { IfOk result (All IsDeletion) }
{
    if folder.pending.as_slice().is_empty() {
        return Ok(Listed::new(alloc));
    }
    let mut standing = standing_paths(alloc, folder.names.as_slice(), folder.others.as_slice())?;
    let paths = left_paths(alloc, folder.pending.as_slice())?;
    deletes_of(alloc, &mut standing, paths.as_slice())
}

// The greatest instant in any name, and the one before now at least.
fn last_of(alloc: Global, folder: &Folder, now: Instant) -> Result<Instant, AllocError>
    requires meant { 0 < now }
    ensures { IfOk result (IsLastOf now folder.now.names folder.now.others) }
{
    let last = greatest_of(alloc, before(now), folder.names.as_slice())?;
    greatest_of(alloc, last, folder.others.as_slice())
}
