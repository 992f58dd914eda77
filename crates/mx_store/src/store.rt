ghost use Rattle.std.specs.Prelude.{◌≡◌, ℕ, List, IfOk, IfSome};
ghost use Rattle.std.specs.declared.option.Option.{Option};
ghost use Rattle.mx_store.specs.declared.change.Change.{Change};
ghost use Rattle.mx_store.specs.declared.store.StoreError.TheVariants.{NoMemory};
ghost use Rattle.mx_store.specs.Objects.{objects_of, paths_with};
ghost use Rattle.mx_store.specs.Calls.{Counts, Creates, Puts, Deletes, Finds, FindsRange, Reads};

use mx_base::Path;
use mx_lists::{Bytes, Listed};
use std::alloc::{AllocError, AllocFailed, Global};

/// Why a call of a store has no answer.
#[derive(Clone, Copy, Debug, PartialEq, Eq)]
pub enum StoreError {
    Failed,
    NoMemory,
}

impl From<AllocError> for StoreError {
    ghost from_gives = { λ _ e. e ≡ NoMemory };

    fn from(_: AllocError) -> Self {
        StoreError::NoMemory
    }
}

impl<T: Drop> From<AllocFailed<T>> for StoreError {
    ghost from_gives = { λ _ e. e ≡ NoMemory };

    fn from(_: AllocFailed<T>) -> Self {
        StoreError::NoMemory
    }
}

/// Objects under paths. What a store holds is told by its journal, or not told.
pub trait Store {
    /// The changes, where they are told.
    ghost journal: { Self → Option (List Change) };

    /// The paths that were given to `get` and `get_range`, where they are told.
    ghost reads: { Self → Option (List (List ℕ)) };

    /// How often the store has failed. It never falls.
    ghost faults: { Self → ℕ };

    /// The paths that begin with the prefix, in byte order.
    fn list(&mut self, alloc: Global, prefix: &str) -> Result<Listed<Path>, StoreError>
        ensures told { IfOk result (λ paths. IfSome (journal self.old) (λ j. paths ≡ paths_with prefix.now (objects_of j))) }
        ensures journal { journal self.new ≡ journal self.old }
        ensures reads { reads self.new ≡ reads self.old }
        ensures faults { Counts (faults self.old) (faults self.new) result };

    /// The bytes at the path, None where nothing stands there.
    fn get(&mut self, alloc: Global, path: &Path) -> Result<Option<Bytes>, StoreError>
        ensures told { Finds path.now (journal self.old) result }
        ensures journal { journal self.new ≡ journal self.old }
        ensures reads { Reads path.now (reads self.old) (reads self.new) result }
        ensures faults { Counts (faults self.old) (faults self.new) result };

    /// The `len` bytes from `at` on, or all from there where the object ends before; None where nothing stands.
    fn get_range(
        &mut self,
        alloc: Global,
        path: &Path,
        at: u64,
        len: u64,
    ) -> Result<Option<Bytes>, StoreError>
        ensures told { FindsRange path.now at len (journal self.old) result }
        ensures journal { journal self.new ≡ journal self.old }
        ensures reads { Reads path.now (reads self.old) (reads self.new) result }
        ensures faults { Counts (faults self.old) (faults self.new) result };

    /// Makes the object, unless something stands there.
    fn create(&mut self, alloc: Global, path: &Path, bytes: &[u8]) -> Result<bool, StoreError>
        ensures journal { Creates path.now bytes.now (journal self.old) (journal self.new) result }
        ensures reads { reads self.new ≡ reads self.old }
        ensures faults { Counts (faults self.old) (faults self.new) result };

    /// Makes the object, or another in its place.
    fn put(&mut self, alloc: Global, path: &Path, bytes: &[u8]) -> Result<(), StoreError>
        ensures journal { Puts path.now bytes.now (journal self.old) (journal self.new) result }
        ensures reads { reads self.new ≡ reads self.old }
        ensures faults { Counts (faults self.old) (faults self.new) result };

    /// Takes the object away. It answers false where nothing stands there.
    fn delete(&mut self, alloc: Global, path: &Path) -> Result<bool, StoreError>
        ensures journal { Deletes path.now (journal self.old) (journal self.new) result }
        ensures reads { reads self.new ≡ reads self.old }
        ensures faults { Counts (faults self.old) (faults self.new) result };
}
