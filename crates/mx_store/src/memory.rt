// A store in memory, whose calls fail by their numbers.
ghost use Rattle.std.specs.Prelude.{◌≡◌, ◌==◌, ◌++◌, ◌∷◌, [], ℕ, IfOk, OnOk, OnErr, Some, is_some, if◌then◌else◌, MatchBool, IsSome, None};
ghost use Rattle.std.specs.FinMap as map;
ghost use Rattle.std.specs.Option.{option_copied};
ghost use Rattle.mx_store.specs.Objects.{apply, at_path, objects_of, paths_with};
ghost use Rattle.mx_store.specs.Journal.{IsAllowed, IsJournal};
ghost use Rattle.mx_store.specs.Calls.{Rose, range_of};
ghost use Rattle.mx_store.specs.Memory.{fate, next_call};
ghost use Rattle.mx_store.specs.declared.change.Change.TheVariants.{Create, Put, Delete};
ghost use Rattle.mx_store.specs.declared.store.StoreError.TheVariants.{Failed};

use crate::change::Change;
use crate::store::StoreError;
use mx_base::Path;
use mx_lists::{Bytes, Listed};
use std::alloc::{AllocError, Global};
use std::collections::BTreeMap;
use std::marker::Model;

/// The call of this number fails; a change is applied or not.
#[derive(Clone, Copy, Debug, Drop)]
pub struct Failure {
    pub call: u64,
    pub applied: bool,
}

/// A store in memory. It tells its journal and its reads, and fails at the calls that it was told.
#[derive(Drop)]
pub struct MemStore {
    changes: Vec<Change>,
    objects: BTreeMap<Path, Bytes>,
    reads: Vec<Path>,
    failures: Vec<Failure>,
    calls: u64,
    faults: u64,
}

impl Model for MemStore {
    ghost use Rattle.mx_store.specs.Memory.{Seen, Mirrors};
    ghost use Rattle.mx_store.specs.Journal.{IsJournal};

    ghost Value = { Seen };

    ghost view = { λ m. record { changes = m.changes.items; reads = m.reads.items; failures = m.failures.items; calls = m.calls; faults = m.faults } };

    ghost invariant = { λ m. Mirrors m.objects m.changes.items × IsJournal m.changes.items };
}

impl MemStore {
    /// A store that holds nothing, and in which no call fails.
    pub fn empty(alloc: Global) -> MemStore
        ensures changes { result.changes ≡ [] }
        ensures reads { result.reads ≡ [] }
        ensures failures { result.failures ≡ [] }
        ensures calls { result.calls ≡ 0 }
        ensures faults { result.faults ≡ 0 }
    {
        MemStore {
            changes: Vec::new(alloc),
            objects: BTreeMap::new(alloc),
            reads: Vec::new(alloc),
            failures: Vec::new(alloc),
            calls: 0,
            faults: 0,
        }
    }

    /// Lets the call of that number, counted from 0, fail; a change is then applied or not.
    pub fn fail(&mut self, call: u64, applied: bool) -> Result<(), AllocError>
        ensures changes { self.new.changes ≡ self.old.changes }
        ensures reads { self.new.reads ≡ self.old.reads }
        ensures faults { self.new.faults ≡ self.old.faults }
        ensures calls { self.new.calls ≡ self.old.calls }
        ensures ok { OnOk result (self.new.failures ≡ self.old.failures ++ record { call = call; applied = applied } ∷ []) }
        ensures err { OnErr result (self.new.failures ≡ self.old.failures) }
        // a later entry takes the place of an earlier one
        ensures fates { OnOk result ((number : ℕ) →
            fate self.new.failures number ≡ if call == number then Some applied else fate self.old.failures number) }
    {
        self.failures.push(Failure { call, applied })?;
        Ok(())
    }

    /// The changes so far.
    pub fn journal(&self) -> &[Change]
        ensures changes { result.now ≡ self.now.changes }
        ensures is_journal { IsJournal result.now }
    {
        &self.changes
    }

    /// The paths that were given to `get` and `get_range`.
    pub fn reads(&self) -> &[Path]
        ensures { result.now ≡ self.now.reads }
    {
        &self.reads
    }

    // Counts a call, and tells whether it is to fail, and whether its change is applied then.
    pub(crate) fn begin(&mut self) -> Option<bool>
        ensures fate { result ≡ fate self.old.failures self.old.calls }
        ensures calls { self.new.calls ≡ next_call self.old.calls }
        ensures changes { self.new.changes ≡ self.old.changes }
        ensures reads { self.new.reads ≡ self.old.reads }
        ensures failures { self.new.failures ≡ self.old.failures }
        ensures faults { self.new.faults ≡ self.old.faults }
    {
        let call = self.calls;
        self.calls = call.saturating_add(1);
        self.failures
            .iter()
            .rev()
            .find(|failure| failure.call == call)
            .map(|failure| failure.applied)
    }

    pub(crate) fn failed(&mut self) -> StoreError
        ensures rose { Rose self.old.faults self.new.faults }
        ensures changes { self.new.changes ≡ self.old.changes }
        ensures reads { self.new.reads ≡ self.old.reads }
        ensures calls { self.new.calls ≡ self.old.calls }
        ensures failures { self.new.failures ≡ self.old.failures }
        ensures failed { result ≡ Failed }
    {
        self.faults = self.faults.saturating_add(1);
        StoreError::Failed
    }

    pub(crate) fn holds(&self, path: &Path) -> bool
        ensures value { result ≡ is_some (at_path (objects_of self.now.changes) path.now) }
        ensures stands { MatchBool result
            (IsSome (at_path (objects_of self.now.changes) path.now))
            (at_path (objects_of self.now.changes) path.now ≡ None) }
    {
        self.objects.contains_key(path)
    }

    // Makes a change of this path and these bytes.
    fn set(&mut self, path: Path, bytes: Bytes, change: Change) -> Result<(), AllocError>
        requires sets { (objects : _) → apply change objects ≡ map.insert objects path bytes }
        requires allowed { IsAllowed (objects_of self.old.changes) change }
        ensures ok { OnOk result (self.new.changes ≡ self.old.changes ++ change ∷ []) }
        ensures err { OnErr result (self.new.changes ≡ self.old.changes) }
        ensures reads { self.new.reads ≡ self.old.reads }
        ensures failures { self.new.failures ≡ self.old.failures }
        ensures calls { self.new.calls ≡ self.old.calls }
        ensures faults { self.new.faults ≡ self.old.faults }
    {
        self.changes.reserve(1)?;
        self.objects.insert(path, bytes)?;
        self.changes.push(change)?;
        Ok(())
    }

    pub(crate) fn made(
        &mut self,
        alloc: Global,
        path: &Path,
        bytes: &[u8],
    ) -> Result<(), AllocError>
        requires { at_path (objects_of self.old.changes) path.now ≡ None }
        ensures ok { OnOk result (self.new.changes ≡ self.old.changes ++ Create path.now bytes.now ∷ []) }
        ensures err { OnErr result (self.new.changes ≡ self.old.changes) }
        ensures reads { self.new.reads ≡ self.old.reads }
        ensures failures { self.new.failures ≡ self.old.failures }
        ensures calls { self.new.calls ≡ self.old.calls }
        ensures faults { self.new.faults ≡ self.old.faults }
    {
        let change = Change::Create {
            path: path.clone()?,
            bytes: Bytes::from_slice(alloc, bytes)?,
        };
        self.set(path.clone()?, Bytes::from_slice(alloc, bytes)?, change)
    }

    pub(crate) fn placed(
        &mut self,
        alloc: Global,
        path: &Path,
        bytes: &[u8],
    ) -> Result<(), AllocError>
        ensures ok { OnOk result (self.new.changes ≡ self.old.changes ++ Put path.now bytes.now ∷ []) }
        ensures err { OnErr result (self.new.changes ≡ self.old.changes) }
        ensures reads { self.new.reads ≡ self.old.reads }
        ensures failures { self.new.failures ≡ self.old.failures }
        ensures calls { self.new.calls ≡ self.old.calls }
        ensures faults { self.new.faults ≡ self.old.faults }
    {
        let change = Change::Put {
            path: path.clone()?,
            bytes: Bytes::from_slice(alloc, bytes)?,
        };
        self.set(path.clone()?, Bytes::from_slice(alloc, bytes)?, change)
    }

    // Takes the object at the path away.
    pub(crate) fn unset(&mut self, path: Path) -> Result<(), AllocError>
        requires { IsSome (at_path (objects_of self.old.changes) path) }
        ensures ok { OnOk result (self.new.changes ≡ self.old.changes ++ Delete path ∷ []) }
        ensures err { OnErr result (self.new.changes ≡ self.old.changes) }
        ensures reads { self.new.reads ≡ self.old.reads }
        ensures failures { self.new.failures ≡ self.old.failures }
        ensures calls { self.new.calls ≡ self.old.calls }
        ensures faults { self.new.faults ≡ self.old.faults }
    {
        self.changes.reserve(1)?;
        self.objects.remove(&path);
        self.changes.push(Change::Delete { path })?;
        Ok(())
    }

    pub(crate) fn note(&mut self, path: &Path) -> Result<(), AllocError>
        ensures changes { self.new.changes ≡ self.old.changes }
        ensures faults { self.new.faults ≡ self.old.faults }
        ensures calls { self.new.calls ≡ self.old.calls }
        ensures failures { self.new.failures ≡ self.old.failures }
        ensures ok { OnOk result (self.new.reads ≡ self.old.reads ++ path.now ∷ []) }
        ensures err { OnErr result (self.new.reads ≡ self.old.reads) }
    {
        self.reads.push(path.clone()?)?;
        Ok(())
    }

    pub(crate) fn found(&self, path: &Path) -> Option<&Bytes>
        ensures { option_copied result ≡ at_path (objects_of self.now.changes) path.now }
    {
        self.objects.get(path)
    }

    pub(crate) fn listed(&self, alloc: Global, prefix: &str) -> Result<Listed<Path>, AllocError>
        ensures { IfOk result (λ paths. paths ≡ paths_with prefix.now (objects_of self.now.changes)) }
    {
        let mut paths = Listed::new(alloc);
        for path in self.objects.keys() {
            if path.as_str().as_bytes().starts_with(prefix.as_bytes()) {
                paths.push(path.clone()?)?;
            }
        }
        Ok(paths)
    }
}
