ghost use Rattle.std.specs.Prelude.{◌≡◌, ◌↔◌, ◌≢◌, ◌≤◌, ◌-◌, ◌^◌, min, ℕ, [], Contains, IfOk, IsTrue, OnOk, OnErr, if◌then◌else◌, nat_eq};
ghost use Rattle.std.specs.FinMap as finmap;
ghost use Rattle.std.specs.BTreeMap as tree;
ghost use Rattle.std.specs.Ordering.{nat_cmp};
ghost use Rattle.mx_store.specs.Objects.{Objects};
ghost use Rattle.mx_groups.specs.Groups as spec;
ghost use Rattle.mx_groups.specs.Groups.{AreCommits, AreGroupsOf, CountsLive, IsNewestOf, RisesTo, groups_in, groups_of, held_at};

use crate::listing::groups_of;
use mx_base::{Instant, Path};
use mx_lists::{Listed, Same, Text};
use mx_meta::{CommitMeta, MetaError};
use mx_model::Action;
use std::alloc::{AllocError, Global};
use std::collections::BTreeMap;

/// Which groups each completed commit wrote a file of.
#[derive(Drop)]
pub struct Groups {
    commits: BTreeMap<Instant, Listed<Text>>,
}

impl Groups {
    /// No commit yet.
    pub fn new(alloc: Global) -> Groups
        ensures { (at : ℕ) → held_at result at ≡ [] }
    {
        Groups {
            commits: BTreeMap::new(alloc),
        }
    }

    /// The groups of the completed commits.
    pub fn of(alloc: Global, commits: &[Action]) -> Result<Groups, AllocError>
        ensures { IfOk result (λ groups. (objects : Objects) → AreCommits objects commits.now → AreGroupsOf objects groups) }
    {
        let mut groups = Groups::new(alloc);
        for commit in commits {
            groups.add(alloc, commit.at, &commit.meta)?;
        }
        Ok(groups)
    }

    /// An object of these bytes stands at the path from here on: where it completes a commit, that commit counts. Where memory
    /// runs out nothing is changed.
    pub fn note(&mut self, alloc: Global, path: &Path, bytes: &[u8]) -> Result<(), AllocError>
        ensures ok { OnOk result ((objects : Objects) → AreGroupsOf objects self.old → AreGroupsOf (finmap.insert objects path.now bytes.now) self.new) }
        ensures err { OnErr result ((q : ℕ) → held_at self.new q ≡ held_at self.old q) }
    {
        match path.commit_instant() {
            Some(at) => self.note_commit(alloc, at, bytes),
            None => Ok(()),
        }
    }

    /// No object stands at the path from here on. No memory is taken.
    pub fn forget(&mut self, path: &Path)
        ensures { (objects : Objects) → AreGroupsOf objects self.old → AreGroupsOf (finmap.remove objects path.now) self.new }
    {
        if let Some(at) = path.commit_instant() {
            self.remove(at);
        }
    }

    // The commit of the instant has an object of these bytes.
    fn note_commit(&mut self, alloc: Global, at: Instant, bytes: &[u8]) -> Result<(), AllocError>
        ensures ok { OnOk result ((q : ℕ) → held_at self.new q ≡ (if nat_eq q at then groups_in bytes.now else held_at self.old q)) }
        ensures err { OnErr result ((q : ℕ) → held_at self.new q ≡ held_at self.old q) }
    {
        match CommitMeta::read(alloc, bytes) {
            Ok(meta) => self.add(alloc, at, &meta),
            Err(MetaError::BadMeta { .. }) => {
                self.remove(at);
                Ok(())
            }
            Err(MetaError::NoMemory) => Err(AllocError),
        }
    }

    // The commit of the instant counts from here on. Where memory runs out nothing is changed.
    fn add(&mut self, alloc: Global, at: Instant, meta: &CommitMeta) -> Result<(), AllocError>
        ensures ok { OnOk result ((q : ℕ) → held_at self.new q ≡ (if nat_eq q at then groups_of meta.now else held_at self.old q)) }
        ensures err { OnErr result ((q : ℕ) → held_at self.new q ≡ held_at self.old q) }
    {
        let groups = groups_of(alloc, meta)?;
        self.commits.insert(at, groups)?;
        Ok(())
    }

    // The commit of the instant does not count any more. No memory is taken.
    fn remove(&mut self, at: Instant)
        ensures { (q : ℕ) → held_at self.new q ≡ (if nat_eq q at then [] else held_at self.old q) }
    {
        self.commits.remove(&at);
    }

    /// The newest completed commit that wrote a file of the group, and 0 where there is none.
    pub fn newest(&self, group: &Text) -> Instant
        ensures { (objects : Objects) → AreGroupsOf objects self.now → IsNewestOf objects group.now result }
    {
        newest_of(&self.commits, group)
    }

    /// The number of files that the completed commits list, 2^64 - 1 where there are more. No memory is taken.
    pub fn live(&self) -> u64
        ensures { (objects : Objects) → AreGroupsOf objects self.now → CountsLive objects result }
    {
        count_of(&self.commits)
    }
}

// How many groups stand under all instants.
fn count_of(commits: &BTreeMap<Instant, Listed<Text>>) -> u64
    ensures count { result ≡ min (2 ^ 64 - 1) (spec.count_in commits.now) }
    ensures rising { tree.IsOrdered nat_cmp commits.now }
{
    let mut count: u64 = 0;
    for groups in commits.values() {
        count = count.saturating_add(groups.len() as u64);
    }
    count
}

// The greatest instant under which the group stands, 0 where it stands under none.
fn newest_of(commits: &BTreeMap<Instant, Listed<Text>>, group: &Text) -> Instant
    ensures counts { result ≢ 0 → Contains (spec.listed_at commits.now result) group.now }
    ensures above { (at : ℕ) → Contains (spec.listed_at commits.now at) group.now → at ≤ result }
{
    let mut newest = no_instant();
    for (at, groups) in commits.iter() {
        newest = later(newest, *at, groups, group);
    }
    newest
}

// The greater of the two instants where the group stands among those of the second, and else the first.
fn later(newest: Instant, at: Instant, groups: &Listed<Text>, group: &Text) -> Instant
    ensures { RisesTo newest at (Contains groups.now group.now) result }
{
    if holds(groups.as_slice(), group) {
        return newest.max(at);
    }
    newest
}

fn holds(groups: &[Text], group: &Text) -> bool
    ensures { IsTrue result ↔ Contains groups.now group.now }
{
    groups.iter().any(|other| other.same(group))
}

fn no_instant() -> Instant
    ensures { result ≡ 0 }
{
    match Instant::new(0) {
        Some(at) => at,
        None => unreachable!(),
    }
}
