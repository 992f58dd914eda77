ghost use Rattle.std.specs.Prelude.{◌≡◌, ◌≢◌, ◌&&◌, ◌||◌, ℕ, List, IfOk, IfSome, IsTrue, OnOk, Some, filter, map, not};
ghost use Rattle.std.specs.BTreeSet.{contains};
ghost use Rattle.std.specs.FinMap as finmap;
ghost use Rattle.std.specs.List.{list_any};
ghost use Rattle.std.specs.List.Sorted.{IsStrictlySortedBy};
ghost use Rattle.std.specs.Ordering.{nat_cmp};
ghost use Rattle.mx_base.specs.Paths.{commit_instant};
ghost use Rattle.mx_base.specs.declared.object_name.ObjectName.{ObjectName};
ghost use Rattle.mx_folder.specs.Named.{is_hidden, object_at};
ghost use Rattle.mx_folder.specs.Pending.{ArePending};
ghost use Rattle.mx_folder.specs.Reading.{IsLogOf};
ghost use Rattle.mx_meta.specs.PathLists.{path_list_of};
ghost use Rattle.mx_store.specs.Objects.{Objects};
ghost use Rattle.mx_open.specs.Leaving as spec;
ghost use Rattle.mx_open.specs.Leaving.{AreLogged, AreNamesOf, PicksNext, begins, files_in, is_at, is_pending_by, leftover, logs_in};

use crate::held::Held;
use mx_base::{ActionKind, ActionState, Instant, ObjectName, Path};
use mx_folder::{Pending, commit_name};
use mx_lists::Listed;
use mx_meta::{MetaError, PathList};
use std::alloc::{AllocError, Global};
use std::collections::{BTreeMap, BTreeSet};

/// The commits that were begun and are not completed, by rising instant, with what each left. The objects are those that are
/// held, and these are the paths of all below `.hoodie/`.
pub(crate) fn pending_commits(
    alloc: Global,
    held: &Held,
    names: &[Path],
) -> Result<Listed<Pending>, AllocError>
    ensures { (objects : Objects) → AreNamesOf objects held.now names.now → IfOk result (ArePending objects) }
{
    let completed = completed_commits(alloc, names)?;
    let instants = begun_commits(alloc, names, &completed)?;
    let logs = logs_of(alloc, names, &instants)?;
    all_left(alloc, held, &instants, &logs)
}

fn completed_commits(alloc: Global, names: &[Path]) -> Result<BTreeSet<Instant>, AllocError>
    ensures { IfOk result (λ s. (q : ℕ) → contains nat_cmp s q ≡ list_any (λ path. is_at q (commit_instant path)) names.now) }
{
    let mut instants = BTreeSet::new(alloc);
    for path in names {
        note(&mut instants, path.commit_instant())?;
    }
    Ok(instants)
}

// The set with one instant more, where there is one.
fn note(instants: &mut BTreeSet<Instant>, at: Option<Instant>) -> Result<(), AllocError>
    ensures { OnOk result ((q : ℕ) → contains nat_cmp instants.new q ≡ (contains nat_cmp instants.old q || is_at q at)) }
{
    if let Some(at) = at {
        instants.insert(at)?;
    }
    Ok(())
}

// The instants of commits that are begun and not among the completed ones.
fn begun_commits(
    alloc: Global,
    names: &[Path],
    completed: &BTreeSet<Instant>,
) -> Result<BTreeSet<Instant>, AllocError>
    ensures { IfOk result (λ s. (q : ℕ) → contains nat_cmp s q ≡ list_any (is_pending_by completed.now q) names.now) }
{
    let mut instants = BTreeSet::new(alloc);
    for path in names {
        note_begun(&mut instants, completed, path)?;
    }
    Ok(instants)
}

fn note_begun(
    instants: &mut BTreeSet<Instant>,
    completed: &BTreeSet<Instant>,
    path: &Path,
) -> Result<(), AllocError>
    ensures { OnOk result ((q : ℕ) → contains nat_cmp instants.new q ≡ (contains nat_cmp instants.old q || is_pending_by completed.now q path.now)) }
{
    match pending_at(completed, path) {
        Some(at) => note(instants, Some(at)),
        None => Ok(()),
    }
}

// The instant of the commit that the path begins, where it is not completed.
fn pending_at(completed: &BTreeSet<Instant>, path: &Path) -> Option<Instant>
    ensures { (q : ℕ) → is_pending_by completed.now q path.now ≡ is_at q result }
{
    let at = begun_at(path)?;
    if completed.contains(&at) {
        return None;
    }
    Some(at)
}

// The instant of the commit that the path requests or whose files it lists.
fn begun_at(path: &Path) -> Option<Instant>
    ensures { (q : ℕ) → begins q path.now ≡ is_at q result }
{
    let name = ObjectName::of(path)?;
    begun_in(&name)
}

fn begun_in(name: &ObjectName) -> Option<Instant>
    ensures { result ≡ spec.begun_in name.now }
{
    match *name {
        ObjectName::Timeline {
            at,
            kind: ActionKind::Commit,
            state: ActionState::Requested | ActionState::Inflight,
        } => Some(at),
        _ => None,
    }
}

// The logs of these instants, in the order of their names.
fn logs_of(
    alloc: Global,
    names: &[Path],
    instants: &BTreeSet<Instant>,
) -> Result<BTreeMap<Instant, Listed<Path>>, AllocError>
    ensures { IfOk result (AreLogged instants.now names.now) }
{
    let mut logs = BTreeMap::new(alloc);
    for path in names {
        note_log(alloc, &mut logs, instants, path)?;
    }
    Ok(logs)
}

fn note_log(
    alloc: Global,
    logs: &mut BTreeMap<Instant, Listed<Path>>,
    instants: &BTreeSet<Instant>,
    path: &Path,
) -> Result<(), AllocError>
    ensures { OnOk result ((at : ℕ) → IsTrue (contains nat_cmp instants.now at) → PicksNext (IsLogOf at) path.now (logs_in logs.old at) (logs_in logs.new at)) }
{
    match log_instant(path) {
        Some(at) => note_log_at(alloc, logs, instants, path, at),
        None => Ok(()),
    }
}

fn note_log_at(
    alloc: Global,
    logs: &mut BTreeMap<Instant, Listed<Path>>,
    instants: &BTreeSet<Instant>,
    path: &Path,
    at: Instant,
) -> Result<(), AllocError>
    ensures { OnOk result ((q : ℕ) → IsTrue (contains nat_cmp instants.now q) → spec.AddsAt at path.now logs.old logs.new q) }
{
    if instants.contains(&at) {
        return add_log(alloc, logs, path, at);
    }
    Ok(())
}

fn add_log(
    alloc: Global,
    logs: &mut BTreeMap<Instant, Listed<Path>>,
    path: &Path,
    at: Instant,
) -> Result<(), AllocError>
    ensures { OnOk result ((q : ℕ) → spec.AddsAt at path.now logs.old logs.new q) }
{
    let mut paths = take_logs(alloc, logs, at);
    paths.push(path.clone()?)?;
    logs.insert(at, paths)?;
    Ok(())
}

fn take_logs(alloc: Global, logs: &mut BTreeMap<Instant, Listed<Path>>, at: Instant) -> Listed<Path>
    ensures paths { result ≡ logs_in logs.old at }
    ensures others { (q : ℕ) → q ≢ at → logs_in logs.new q ≡ logs_in logs.old q }
{
    match logs.remove(&at) {
        Some(paths) => paths,
        None => Listed::new(alloc),
    }
}

// The instant of which the path is a log.
fn log_instant(path: &Path) -> Option<Instant>
    ensures found { IfSome result (λ at. IsLogOf at path.now) }
    ensures only { (at : ℕ) → IsLogOf at path.now → result ≡ Some at }
{
    let name = ObjectName::of(path)?;
    logged_in(&name)
}

fn logged_in(name: &ObjectName) -> Option<Instant>
    ensures { result ≡ spec.logged_in name.now }
{
    match *name {
        ObjectName::Log { at, .. } => Some(at),
        _ => None,
    }
}

fn all_left(
    alloc: Global,
    held: &Held,
    instants: &BTreeSet<Instant>,
    logs: &BTreeMap<Instant, Listed<Path>>,
) -> Result<Listed<Pending>, AllocError>
    ensures left { IfOk result (λ left. left ≡ map (leftover held.now logs.now) instants.now.keys) }
    ensures rising { IfOk result (λ left. IsStrictlySortedBy nat_cmp instants.now.keys) }
{
    let mut left = Listed::new(alloc);
    for at in instants.iter() {
        left.push(left_at(alloc, held, logs, *at)?)?;
    }
    Ok(left)
}

fn left_at(
    alloc: Global,
    held: &Held,
    logs: &BTreeMap<Instant, Listed<Path>>,
    at: Instant,
) -> Result<Pending, AllocError>
    ensures { IfOk result (λ left. left ≡ leftover held.now logs.now at) }
{
    Ok(Pending {
        at,
        logs: logs_at(alloc, logs, at)?,
        files: files_at(alloc, held, at)?,
    })
}

fn logs_at(
    alloc: Global,
    logs: &BTreeMap<Instant, Listed<Path>>,
    at: Instant,
) -> Result<Listed<Path>, AllocError>
    ensures { IfOk result (λ paths. paths ≡ logs_in logs.now at) }
{
    match logs.get(&at) {
        Some(paths) => copied(alloc, paths.as_slice()),
        None => Ok(Listed::new(alloc)),
    }
}

/// A copy of the paths.
pub(crate) fn copied(alloc: Global, paths: &[Path]) -> Result<Listed<Path>, AllocError>
    ensures { IfOk result (λ copies. copies ≡ paths.now) }
{
    let mut copies = Listed::new(alloc);
    for path in paths {
        copies.push(path.clone()?)?;
    }
    Ok(copies)
}

// The paths that the list of files of the commit has.
fn files_at(alloc: Global, held: &Held, at: Instant) -> Result<Listed<Path>, AllocError>
    ensures { IfOk result (λ paths. paths ≡ spec.files_at held.now at) }
{
    let path = commit_name(at, ActionState::Inflight).path(alloc)?;
    match held.get(&path) {
        Some(bytes) => files_in(alloc, bytes.as_slice()),
        None => Ok(Listed::new(alloc)),
    }
}

fn files_in(alloc: Global, bytes: &[u8]) -> Result<Listed<Path>, AllocError>
    ensures { IfOk result (λ paths. paths ≡ files_in bytes.now) }
{
    match PathList::read(alloc, bytes) {
        Ok(list) => Ok(list.paths),
        Err(MetaError::BadMeta { .. }) => Ok(Listed::new(alloc)),
        Err(MetaError::NoMemory) => Err(AllocError),
    }
}
