ghost use Rattle.std.specs.Prelude.{◌≡◌, ◌++◌, ◌∷◌, [], ℕ, List, All, IfOk, OnOk, ◌||◌};
ghost use Rattle.std.specs.List.{flat_map, list_any};
ghost use Rattle.std.specs.BTreeSet.{contains};
ghost use Rattle.std.specs.Ordering.{nat_cmp, eq_by_cmp};
ghost use Rattle.std.specs.Cmp.Lexicographic.{slice_cmp};
ghost use Rattle.mx_base.specs.Objects.{object_path};
ghost use Rattle.mx_folder.specs.Pending.{deletes, left_by};
ghost use Rattle.mx_world.specs.Mirror.{IsNoConfig};
ghost use Rattle.mx_store.specs.Objects.{Objects, after_all};
ghost use Rattle.mx_recovery.specs.Planning.{AreStanding, IsDeletion, stands_among};

use mx_base::{ActionState, Path};
use mx_folder::{commit_name, delta_name};
use mx_lists::Listed;
use mx_open::Pending;
use mx_store::Change;
use mx_world::is_plain;
use std::alloc::{AllocError, Global};
use std::collections::BTreeSet;

/// The paths of what the pending commits left, in the order in which they are taken away.
pub fn left_paths(alloc: Global, pendings: &[Pending]) -> Result<Listed<Path>, AllocError>
    ensures { IfOk result (λ paths. paths ≡ flat_map left_by pendings.now) }
{
    let mut paths = Listed::new(alloc);
    for left in pendings {
        add_left(alloc, &mut paths, left)?;
    }
    Ok(paths)
}

fn add_left(alloc: Global, paths: &mut Listed<Path>, left: &Pending) -> Result<(), AllocError>
    ensures { OnOk result (paths.new ≡ paths.old ++ left_by left.now) }
{
    let at = left.at;
    add_all(paths, left.logs.as_slice())?;
    paths.push(delta_name(at, true).path(alloc)?)?;
    paths.push(delta_name(at, false).path(alloc)?)?;
    add_all(paths, left.files.as_slice())?;
    paths.push(commit_name(at, ActionState::Inflight).path(alloc)?)?;
    paths.push(commit_name(at, ActionState::Requested).path(alloc)?)?;
    Ok(())
}

fn add_all(paths: &mut Listed<Path>, more: &[Path]) -> Result<(), AllocError>
    ensures { OnOk result (paths.new ≡ paths.old ++ more.now) }
{
    for path in more {
        paths.push(path.clone()?)?;
    }
    Ok(())
}

/// The paths of these names and of the others.
pub fn standing_paths(
    alloc: Global,
    names: &[Path],
    others: &[Path],
) -> Result<BTreeSet<Path>, AllocError>
    ensures { IfOk result (λ standing. (q : List ℕ) → contains (slice_cmp nat_cmp) standing q ≡ (stands_among names.now q || stands_among others.now q)) }
{
    let mut standing = BTreeSet::new(alloc);
    add_paths(&mut standing, names)?;
    add_paths(&mut standing, others)?;
    Ok(standing)
}

fn add_paths(standing: &mut BTreeSet<Path>, paths: &[Path]) -> Result<(), AllocError>
    ensures { OnOk result ((q : List ℕ) → contains (slice_cmp nat_cmp) standing.new q ≡ (contains (slice_cmp nat_cmp) standing.old q || stands_among paths.now q)) }
{
    for path in paths {
        standing.insert(path.clone()?)?;
    }
    Ok(())
}

/// The deletes of the paths in turn, of each that still stands then. The config is never deleted.
pub fn deletes_of(
    alloc: Global,
    standing: &mut BTreeSet<Path>,
    paths: &[Path],
) -> Result<Listed<Change>, AllocError>
    ensures plain { IfOk result (All IsDeletion) }
    ensures deletes { (objects : Objects) → AreStanding standing.old objects → All IsNoConfig paths.now → IfOk result (λ changes. changes ≡ deletes objects paths.now) }
{
    let mut changes = Listed::new(alloc);
    for path in paths {
        add_delete(standing, &mut changes, path)?;
    }
    Ok(changes)
}

fn add_delete(
    standing: &mut BTreeSet<Path>,
    changes: &mut Listed<Change>,
    path: &Path,
) -> Result<(), AllocError>
    ensures plain { All IsDeletion changes.old → OnOk result (All IsDeletion changes.new) }
    ensures deletes { (objects : Objects) → IsNoConfig path.now → AreStanding standing.old objects → OnOk result ((changes.new ≡ changes.old ++ deletes objects (path.now ∷ [])) × AreStanding standing.new (after_all objects (deletes objects (path.now ∷ [])))) }
{
    let change = Change::Delete {
        path: path.clone()?,
    };
    if is_plain(&change) && standing.remove(path) {
        changes.push(change)?;
    }
    Ok(())
}
