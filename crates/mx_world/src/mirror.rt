ghost use Rattle.std.specs.Prelude.{◌≡◌, ◌↔◌, ◌&&◌, ◌||◌, ℕ, List, Bool, IsTrue, OnOk, OnErr, IfOk, Some, None, false, not, is_some, codes, nat_eq, ◌≢◌, ◌≤◌, ◌++◌, ◌∷◌, [], filter, nat_le};
ghost use Rattle.std.specs.BTreeSet.{contains};
ghost use Rattle.std.specs.List.{starts_with, list_any};
ghost use Rattle.std.specs.Ordering.{nat_cmp, eq_by_cmp};
ghost use Rattle.std.specs.Cmp.Lexicographic.{slice_cmp};
ghost use Rattle.std.specs.FinMap as finmap;
ghost use Rattle.mx_base.specs.Objects.{object_path};
ghost use Rattle.mx_base.specs.declared.object_name.ObjectName.TheVariants.{Config};
ghost use Rattle.mx_props.specs.Config.{config_text};
ghost use Rattle.mx_store.specs.Journal.{IsAllowed};
ghost use Rattle.mx_store.specs.Objects.{Objects, apply, at_path, paths_with};
ghost use Rattle.mx_folder.specs.Named.{is_hidden};
ghost use Rattle.std.specs.List.Sorted.{IsStrictlySortedBy};
ghost use Rattle.mx_folder.specs.Actions.{IsCompleted};
ghost use Rattle.mx_folder.specs.Completed.{completed_upto};
ghost use Rattle.mx_groups.specs.Groups.{AreCommits, CountsLive, IsNewestOf};
ghost use Rattle.mx_world.specs.Instants.{CountsInstants};
ghost use Rattle.mx_world.specs.Mirror.{IsMirrorOf, IsNewest, IsNoConfig, IsPlain, IsReadyFor, is_commit_at, is_name_at};

use crate::counting::count_instants;
use mx_base::{Instant, Path};
use mx_groups::Groups;
use mx_lists::{Listed, Text};
use mx_model::Action;
use mx_props::Props;
use mx_store::Change;
use std::alloc::{AllocError, Global};
use std::collections::BTreeSet;

/// What is known of a folder without its bytes: its config, the names of all objects below `.hoodie/`, which commits are
/// completed, and which groups each of them wrote a file of.
#[derive(Drop)]
pub struct Mirror {
    config: Props,
    names: BTreeSet<Path>,
    completed: BTreeSet<Instant>,
    groups: Groups,
}

impl Mirror {
    /// The mirror of the folder that has this config, these paths below `.hoodie/`, and these completed commits.
    pub fn of(
        alloc: Global,
        config: Props,
        paths: &[Path],
        commits: &[Action],
    ) -> Result<Mirror, AllocError>
        ensures { IfOk result (λ mirror. (objects : Objects) → at_path objects (object_path Config) ≡ Some (config_text config) → paths.now ≡ paths_with (codes ".hoodie/") objects → AreCommits objects commits.now → IsMirrorOf objects mirror) }
    {
        Ok(Mirror {
            config,
            names: all_names(alloc, paths)?,
            completed: all_commits(alloc, paths)?,
            groups: Groups::of(alloc, commits)?,
        })
    }

    /// The config.
    pub fn config(&self) -> &Props
        ensures { result.now ≡ self.now.config }
    {
        &self.config
    }

    /// Whether an object stands at the path, which is one below `.hoodie/`.
    pub fn holds(&self, path: &Path) -> bool
        ensures named { result ≡ contains (slice_cmp nat_cmp) self.now.names path.now }
        ensures stands { (objects : Objects) → IsMirrorOf objects self.now → result ≡ (is_hidden path.now && is_some (at_path objects path.now)) }
    {
        self.names.contains(path)
    }

    /// Whether the commit of the instant is completed.
    pub fn is_completed(&self, at: Instant) -> bool
        ensures { (objects : Objects) → IsMirrorOf objects self.now → IsTrue result ↔ IsCompleted objects at }
    {
        self.completed.contains(&at)
    }

    /// The completed commits at most at an instant, by rising instant.
    pub fn completed_upto(&self, alloc: Global, at: Instant) -> Result<Listed<Instant>, AllocError>
        ensures { IfOk result (λ instants. (objects : Objects) → IsMirrorOf objects self.now → instants ≡ completed_upto objects at) }
    {
        instants_upto(alloc, &self.completed, at)
    }

    /// The newest completed commit, and 0 where there is none.
    pub fn newest(&self) -> Instant
        ensures { (objects : Objects) → IsMirrorOf objects self.now → IsNewest objects result }
    {
        last_of(&self.completed)
    }

    /// The newest completed commit that wrote a file of the group, and 0 where there is none.
    pub fn newest_of(&self, group: &Text) -> Instant
        ensures { (objects : Objects) → IsMirrorOf objects self.now → IsNewestOf objects group.now result }
    {
        self.groups.newest(group)
    }

    /// The number of files that the completed commits list, 2^64 - 1 where there are more. No memory is taken.
    pub fn live(&self) -> u64
        ensures { (objects : Objects) → IsMirrorOf objects self.now → CountsLive objects result }
    {
        self.groups.live()
    }

    /// The number of instants of which an object of an action stands.
    pub fn instants(&self, alloc: Global) -> Result<u64, AllocError>
        ensures { IfOk result (λ count. (objects : Objects) → IsMirrorOf objects self.now → CountsInstants objects count) }
    {
        count_instants(alloc, &self.names)
    }

    /// Makes ready for a change: what it makes is noted here, before the store is asked, and what it takes away stays. Where
    /// memory runs out the mirror says what it said.
    pub(crate) fn begin(&mut self, alloc: Global, change: &Change) -> Result<(), AllocError>
        requires plain { IsPlain change.now }
        ensures ok { OnOk result ((objects : Objects) → IsAllowed objects change.now → IsMirrorOf objects self.old → IsReadyFor change.now objects self.new) }
        ensures err { OnErr result ((objects : Objects) → IsAllowed objects change.now → IsMirrorOf objects self.old → IsMirrorOf objects self.new) }
    {
        match change {
            Change::Create { path, bytes } => self.add(alloc, path, bytes.as_slice()),
            Change::Put { .. } => unreachable!(),
            Change::Delete { .. } => Ok(()),
        }
    }

    /// The change was made. No memory is taken.
    pub(crate) fn complete(&mut self, change: &Change)
        requires plain { IsPlain change.now }
        ensures { (objects : Objects) → IsReadyFor change.now objects self.old → IsMirrorOf (apply change.now objects) self.new }
    {
        if let Change::Delete { path } = change {
            self.remove(path);
        }
    }

    /// The change was not made. No memory is taken.
    pub(crate) fn give_up(&mut self, change: &Change)
        requires plain { IsPlain change.now }
        ensures { (objects : Objects) → IsAllowed objects change.now → IsReadyFor change.now objects self.old → IsMirrorOf objects self.new }
    {
        if let Change::Create { path, .. } = change {
            self.remove(path);
        }
    }

    /// An object of these bytes stands at the path from here on. Where memory runs out the mirror says what it said.
    fn add(&mut self, alloc: Global, path: &Path, bytes: &[u8]) -> Result<(), AllocError>
        ensures ok { OnOk result ((objects : Objects) → IsNoConfig path.now → IsMirrorOf objects self.old → IsMirrorOf (finmap.insert objects path.now bytes.now) self.new) }
        ensures err { OnErr result ((objects : Objects) → at_path objects path.now ≡ None → IsMirrorOf objects self.old → IsMirrorOf objects self.new) }
    {
        self.groups.note(alloc, path, bytes)?;
        if add_path(&mut self.completed, &mut self.names, path).is_err() {
            self.groups.forget(path);
            return Err(AllocError);
        }
        Ok(())
    }

    /// No object stands at the path from here on. No memory is taken.
    fn remove(&mut self, path: &Path)
        ensures { (objects : Objects) → IsNoConfig path.now → IsMirrorOf objects self.old → IsMirrorOf (finmap.remove objects path.now) self.new }
    {
        self.groups.forget(path);
        remove_commit(&mut self.completed, path);
        self.names.remove(path);
    }
}

// The path stands among the names, and the commit that it completes among the completed ones. Where memory runs out neither
// does.
fn add_path(
    completed: &mut BTreeSet<Instant>,
    names: &mut BTreeSet<Path>,
    path: &Path,
) -> Result<(), AllocError>
    ensures commits { OnOk result ((at : ℕ) → contains nat_cmp completed.new at ≡ (contains nat_cmp completed.old at || is_commit_at path.now at)) }
    ensures names { OnOk result ((q : List ℕ) → contains (slice_cmp nat_cmp) names.new q ≡ (contains (slice_cmp nat_cmp) names.old q || is_name_at path.now q)) }
    ensures same_commits { OnErr result ((at : ℕ) → (IsTrue (is_commit_at path.now at) → contains nat_cmp completed.old at ≡ false) → contains nat_cmp completed.new at ≡ contains nat_cmp completed.old at) }
    ensures same_names { OnErr result ((q : List ℕ) → contains (slice_cmp nat_cmp) names.new q ≡ contains (slice_cmp nat_cmp) names.old q) }
{
    add_commit(completed, path)?;
    if add_name(names, path).is_err() {
        remove_commit(completed, path);
        return Err(AllocError);
    }
    Ok(())
}

fn instants_upto(
    alloc: Global,
    completed: &BTreeSet<Instant>,
    at: Instant,
) -> Result<Listed<Instant>, AllocError>
    ensures instants { IfOk result (λ instants. instants ≡ filter (λ t. nat_le t at) completed.now.keys) }
    ensures rising { IfOk result (λ instants. IsStrictlySortedBy nat_cmp completed.now.keys) }
{
    let mut instants = Listed::new(alloc);
    for instant in completed.iter() {
        push_upto(&mut instants, *instant, at)?;
    }
    Ok(instants)
}

fn push_upto(
    instants: &mut Listed<Instant>,
    instant: Instant,
    at: Instant,
) -> Result<(), AllocError>
    ensures { OnOk result (instants.new ≡ instants.old ++ filter (λ t. nat_le t at) (instant ∷ [])) }
{
    if instant <= at {
        instants.push(instant)?;
    }
    Ok(())
}

// The greatest of the instants, 0 where there is none.
fn last_of(completed: &BTreeSet<Instant>) -> Instant
    ensures holds { result ≢ 0 → IsTrue (contains nat_cmp completed.now result) }
    ensures above { (at : ℕ) → IsTrue (contains nat_cmp completed.now at) → at ≤ result }
{
    match completed.last() {
        Some(at) => *at,
        None => no_instant(),
    }
}

fn no_instant() -> Instant
    ensures { result ≡ 0 }
{
    match Instant::new(0) {
        Some(at) => at,
        None => unreachable!(),
    }
}

fn add_commit(completed: &mut BTreeSet<Instant>, path: &Path) -> Result<(), AllocError>
    ensures ok { OnOk result ((at : ℕ) → contains nat_cmp completed.new at ≡ (contains nat_cmp completed.old at || is_commit_at path.now at)) }
    ensures err { OnErr result ((at : ℕ) → contains nat_cmp completed.new at ≡ contains nat_cmp completed.old at) }
{
    if let Some(at) = path.commit_instant() {
        completed.insert(at)?;
    }
    Ok(())
}

fn remove_commit(completed: &mut BTreeSet<Instant>, path: &Path)
    ensures { (at : ℕ) → contains nat_cmp completed.new at ≡ (not (is_commit_at path.now at) && contains nat_cmp completed.old at) }
{
    if let Some(at) = path.commit_instant() {
        completed.remove(&at);
    }
}

fn add_name(names: &mut BTreeSet<Path>, path: &Path) -> Result<(), AllocError>
    ensures ok { OnOk result ((q : List ℕ) → contains (slice_cmp nat_cmp) names.new q ≡ (contains (slice_cmp nat_cmp) names.old q || is_name_at path.now q)) }
    ensures err { OnErr result ((q : List ℕ) → contains (slice_cmp nat_cmp) names.new q ≡ contains (slice_cmp nat_cmp) names.old q) }
{
    if path.as_str().starts_with(".hoodie/") {
        names.insert(path.clone()?)?;
    }
    Ok(())
}

fn all_names(alloc: Global, paths: &[Path]) -> Result<BTreeSet<Path>, AllocError>
    ensures { IfOk result (λ names. (q : List ℕ) → contains (slice_cmp nat_cmp) names q ≡ list_any (λ path. is_name_at path q) paths.now) }
{
    let mut names = BTreeSet::new(alloc);
    for path in paths {
        add_name(&mut names, path)?;
    }
    Ok(names)
}

fn all_commits(alloc: Global, paths: &[Path]) -> Result<BTreeSet<Instant>, AllocError>
    ensures { IfOk result (λ completed. (at : ℕ) → contains nat_cmp completed at ≡ list_any (λ path. is_commit_at path at) paths.now) }
{
    let mut completed = BTreeSet::new(alloc);
    for path in paths {
        add_commit(&mut completed, path)?;
    }
    Ok(completed)
}
