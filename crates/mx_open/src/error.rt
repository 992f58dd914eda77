ghost use Rattle.std.specs.Prelude.{◌≡◌};
ghost use Rattle.mx_open.specs.Init.{init_fault};
ghost use Rattle.mx_open.specs.Opening.{read_fault};
ghost use Rattle.mx_open.specs.declared.error.InitError.TheVariants.{NoMemory};
ghost use Rattle.mx_open.specs.declared.error.ReadError.TheVariants as read;

use mx_base::Path;
use mx_store::StoreError;
use std::alloc::AllocError;

/// Why no table was made.
#[derive(Debug, Drop)]
pub enum InitError {
    /// Something stands in the folder, first in byte order at this path.
    NotEmpty { path: Path },
    StoreFault,
    NoMemory,
}

impl From<AllocError> for InitError {
    ghost from_gives = { λ _ e. e ≡ NoMemory };

    fn from(_: AllocError) -> Self {
        InitError::NoMemory
    }
}

impl From<StoreError> for InitError {
    ghost from_gives = { λ fault e. e ≡ init_fault fault };

    fn from(fault: StoreError) -> Self {
        match fault {
            StoreError::Failed => InitError::StoreFault,
            StoreError::NoMemory => InitError::NoMemory,
        }
    }
}

/// Why a folder is not read.
#[derive(Debug, Drop)]
pub enum ReadError {
    /// The config is missing.
    NotATable,
    /// The config is of another version than 6.
    Version { found: u64 },
    /// The least path in byte order that shows damage.
    Damaged { path: Path },
    StoreFault,
    NoMemory,
}

impl From<AllocError> for ReadError {
    ghost from_gives = { λ _ e. e ≡ read.NoMemory };

    fn from(_: AllocError) -> Self {
        ReadError::NoMemory
    }
}

impl From<StoreError> for ReadError {
    ghost from_gives = { λ fault e. e ≡ read_fault fault };

    fn from(fault: StoreError) -> Self {
        match fault {
            StoreError::Failed => ReadError::StoreFault,
            StoreError::NoMemory => ReadError::NoMemory,
        }
    }
}
