// The calls of a store in memory.
ghost use Rattle.std.specs.Prelude.{◌≡◌, true, Some, is_some, is_none, IfOk};
ghost use Rattle.mx_store.specs.Objects.{at_path, objects_of, paths_with};
ghost use Rattle.mx_store.specs.Calls.{Counts, Creates, Puts, Deletes, Finds, FindsRange, Reads, range_of};
ghost use Rattle.mx_store.specs.Memory.{FailsByNumber, AppliesByFate};
ghost use Rattle.mx_store.specs.declared.change.Change.TheVariants.{Create, Put, Delete};

use crate::memory::MemStore;
use crate::store::{Store, StoreError};
use mx_base::Path;
use mx_lists::{Bytes, Listed};
use std::alloc::Global;

impl MemStore {
    // Counts a read, notes its path, and fails where it is to.
    fn begin_read(&mut self, path: &Path) -> Result<(), StoreError>
        ensures changes { self.new.changes ≡ self.old.changes }
        ensures reads { Reads path.now (Some self.old.reads) (Some self.new.reads) result }
        ensures faults { Counts self.old.faults self.new.faults result }
        ensures number { FailsByNumber self.old self.new result }
    {
        let fails = self.begin().is_some();
        self.note(path)?;
        if fails {
            return Err(self.failed());
        }
        Ok(())
    }

    fn begin_list(&mut self) -> Result<(), StoreError>
        ensures changes { self.new.changes ≡ self.old.changes }
        ensures reads { self.new.reads ≡ self.old.reads }
        ensures faults { Counts self.old.faults self.new.faults result }
        ensures number { FailsByNumber self.old self.new result }
    {
        if self.begin().is_some() {
            return Err(self.failed());
        }
        Ok(())
    }
}

impl Store for MemStore {
    ghost journal = { λ m. Some m.changes };

    ghost reads = { λ m. Some m.reads };

    ghost faults = { λ m. m.faults };

    fn list(&mut self, alloc: Global, prefix: &str) -> Result<Listed<Path>, StoreError>
        ensures told { IfOk result (λ paths. paths ≡ paths_with prefix.now (objects_of self.old.changes)) }
        ensures journal { self.new.changes ≡ self.old.changes }
        ensures reads { self.new.reads ≡ self.old.reads }
        ensures faults { Counts self.old.faults self.new.faults result }
        ensures number { FailsByNumber self.old self.new result }
    {
        self.begin_list()?;
        Ok(self.listed(alloc, prefix)?)
    }

    fn get(&mut self, _alloc: Global, path: &Path) -> Result<Option<Bytes>, StoreError>
        ensures told { Finds path.now (Some self.old.changes) result }
        ensures journal { self.new.changes ≡ self.old.changes }
        ensures reads { Reads path.now (Some self.old.reads) (Some self.new.reads) result }
        ensures faults { Counts self.old.faults self.new.faults result }
        ensures number { FailsByNumber self.old self.new result }
    {
        self.begin_read(path)?;
        match self.found(path) {
            Some(bytes) => Ok(Some(bytes.clone()?)),
            None => Ok(None),
        }
    }

    fn get_range(
        &mut self,
        alloc: Global,
        path: &Path,
        at: u64,
        len: u64,
    ) -> Result<Option<Bytes>, StoreError>
        ensures told { FindsRange path.now at len (Some self.old.changes) result }
        ensures journal { self.new.changes ≡ self.old.changes }
        ensures reads { Reads path.now (Some self.old.reads) (Some self.new.reads) result }
        ensures faults { Counts self.old.faults self.new.faults result }
        ensures number { FailsByNumber self.old self.new result }
    {
        self.begin_read(path)?;
        match self.found(path) {
            Some(bytes) => Ok(Some(Bytes::from_slice(alloc, range(bytes.as_slice(), at, len))?)),
            None => Ok(None),
        }
    }

    fn create(&mut self, alloc: Global, path: &Path, bytes: &[u8]) -> Result<bool, StoreError>
        ensures journal { Creates path.now bytes.now (Some self.old.changes) (Some self.new.changes) result }
        ensures failed { AppliesByFate (is_none (at_path (objects_of self.old.changes) path.now)) (Create path.now bytes.now) self.old self.new result }
        ensures reads { self.new.reads ≡ self.old.reads }
        ensures faults { Counts self.old.faults self.new.faults result }
        ensures number { FailsByNumber self.old self.new result }
    {
        let stands = self.holds(path);
        let Some(applied) = self.begin() else {
            if stands {
                return Ok(false);
            }
            self.made(alloc, path, bytes)?;
            return Ok(true);
        };
        if applied && !stands {
            self.made(alloc, path, bytes)?;
        }
        Err(self.failed())
    }

    fn put(&mut self, alloc: Global, path: &Path, bytes: &[u8]) -> Result<(), StoreError>
        ensures journal { Puts path.now bytes.now (Some self.old.changes) (Some self.new.changes) result }
        ensures failed { AppliesByFate true (Put path.now bytes.now) self.old self.new result }
        ensures reads { self.new.reads ≡ self.old.reads }
        ensures faults { Counts self.old.faults self.new.faults result }
        ensures number { FailsByNumber self.old self.new result }
    {
        let Some(applied) = self.begin() else {
            return Ok(self.placed(alloc, path, bytes)?);
        };
        if applied {
            self.placed(alloc, path, bytes)?;
        }
        Err(self.failed())
    }

    fn delete(&mut self, _alloc: Global, path: &Path) -> Result<bool, StoreError>
        ensures journal { Deletes path.now (Some self.old.changes) (Some self.new.changes) result }
        ensures failed { AppliesByFate (is_some (at_path (objects_of self.old.changes) path.now)) (Delete path.now) self.old self.new result }
        ensures reads { self.new.reads ≡ self.old.reads }
        ensures faults { Counts self.old.faults self.new.faults result }
        ensures number { FailsByNumber self.old self.new result }
    {
        let stands = self.holds(path);
        let Some(applied) = self.begin() else {
            if !stands {
                return Ok(false);
            }
            self.unset(path.clone()?)?;
            return Ok(true);
        };
        if applied && stands {
            self.unset(path.clone()?)?;
        }
        Err(self.failed())
    }
}

// The bytes of the range that there are.
fn range(bytes: &[u8], at: u64, len: u64) -> &[u8]
    ensures { result.now ≡ range_of at len bytes.now }
{
    let size = bytes.len() as u64;
    let start = at.min(size);
    let end = start + len.min(size - start);
    &bytes[start as usize..end as usize]
}
