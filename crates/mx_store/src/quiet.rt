ghost use Rattle.std.specs.Prelude.{◌≡◌, true, Some, None, is_some, is_none, IfOk};
ghost use Rattle.mx_store.specs.Objects.{at_path, objects_of, paths_with};
ghost use Rattle.mx_store.specs.Calls.{Counts, Creates, Puts, Deletes, Finds, FindsRange, Reads};
ghost use Rattle.mx_store.specs.Memory.{FailsByNumber, AppliesByFate};
ghost use Rattle.mx_store.specs.declared.change.Change.TheVariants.{Create, Put, Delete};

use crate::memory::MemStore;
use crate::store::{Store, StoreError};
use mx_base::Path;
use mx_lists::{Bytes, Listed};
use std::alloc::Global;
use std::marker::Model;

/// A store in memory that tells nothing but how often it failed, as one over a disk does.
#[derive(Drop)]
pub struct QuietStore {
    inner: MemStore,
}

impl Model for QuietStore {
    ghost use Rattle.mx_store.specs.Memory.{Seen};

    ghost Value = { Seen };

    ghost view = { λ s. s.inner };
}

impl QuietStore {
    /// The store as it is, and told no more.
    pub fn over(inner: MemStore) -> QuietStore
        ensures { result ≡ inner }
    {
        QuietStore { inner }
    }
}

impl Store for QuietStore {
    ghost journal = { λ s. None };

    ghost reads = { λ s. None };

    ghost faults = { λ s. s.faults };

    fn list(&mut self, alloc: Global, prefix: &str) -> Result<Listed<Path>, StoreError>
        ensures told { IfOk result (λ paths. paths ≡ paths_with prefix.now (objects_of self.old.changes)) }
        ensures journal { self.new.changes ≡ self.old.changes }
        ensures reads { self.new.reads ≡ self.old.reads }
        ensures faults { Counts self.old.faults self.new.faults result }
        ensures number { FailsByNumber self.old self.new result }
    {
        self.inner.list(alloc, prefix)
    }

    fn get(&mut self, alloc: Global, path: &Path) -> Result<Option<Bytes>, StoreError>
        ensures told { Finds path.now (Some self.old.changes) result }
        ensures journal { self.new.changes ≡ self.old.changes }
        ensures reads { Reads path.now (Some self.old.reads) (Some self.new.reads) result }
        ensures faults { Counts self.old.faults self.new.faults result }
        ensures number { FailsByNumber self.old self.new result }
    {
        self.inner.get(alloc, path)
    }

    fn get_range(
        &mut self,
        alloc: Global,
        path: &Path,
        at: u64,
        len: u64,
    ) -> Result<Option<Bytes>, StoreError>
        ensures told { FindsRange path.now at len (Some self.old.changes) result }
        ensures journal { self.new.changes ≡ self.old.changes }
        ensures reads { Reads path.now (Some self.old.reads) (Some self.new.reads) result }
        ensures faults { Counts self.old.faults self.new.faults result }
        ensures number { FailsByNumber self.old self.new result }
    {
        self.inner.get_range(alloc, path, at, len)
    }

    fn create(&mut self, alloc: Global, path: &Path, bytes: &[u8]) -> Result<bool, StoreError>
        ensures journal { Creates path.now bytes.now (Some self.old.changes) (Some self.new.changes) result }
        ensures failed { AppliesByFate (is_none (at_path (objects_of self.old.changes) path.now)) (Create path.now bytes.now) self.old self.new result }
        ensures reads { self.new.reads ≡ self.old.reads }
        ensures faults { Counts self.old.faults self.new.faults result }
        ensures number { FailsByNumber self.old self.new result }
    {
        self.inner.create(alloc, path, bytes)
    }

    fn put(&mut self, alloc: Global, path: &Path, bytes: &[u8]) -> Result<(), StoreError>
        ensures journal { Puts path.now bytes.now (Some self.old.changes) (Some self.new.changes) result }
        ensures failed { AppliesByFate true (Put path.now bytes.now) self.old self.new result }
        ensures reads { self.new.reads ≡ self.old.reads }
        ensures faults { Counts self.old.faults self.new.faults result }
        ensures number { FailsByNumber self.old self.new result }
    {
        self.inner.put(alloc, path, bytes)
    }

    fn delete(&mut self, alloc: Global, path: &Path) -> Result<bool, StoreError>
        ensures journal { Deletes path.now (Some self.old.changes) (Some self.new.changes) result }
        ensures failed { AppliesByFate (is_some (at_path (objects_of self.old.changes) path.now)) (Delete path.now) self.old self.new result }
        ensures reads { self.new.reads ≡ self.old.reads }
        ensures faults { Counts self.old.faults self.new.faults result }
        ensures number { FailsByNumber self.old self.new result }
    {
        self.inner.delete(alloc, path)
    }
}
