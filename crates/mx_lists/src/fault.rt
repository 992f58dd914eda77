ghost use Rattle.std.specs.Prelude.{◌≡◌};
ghost use Rattle.mx_lists.specs.declared.fault.Fault.TheVariants as faults;

use std::alloc::{AllocError, AllocFailed};

/// A broken rule, by how many bytes are left of what is read from the start of its field on.
#[derive(Clone, Copy, Debug, Drop)]
pub enum Fault {
    NoMemory,
    Bad { left: usize },
}

impl From<AllocError> for Fault {
    ghost from_gives = { λ _ e. e ≡ faults.NoMemory };

    fn from(_e: AllocError) -> Fault {
        Fault::NoMemory
    }
}

impl<T: Drop> From<AllocFailed<T>> for Fault {
    ghost from_gives = { λ _ e. e ≡ faults.NoMemory };

    fn from(_e: AllocFailed<T>) -> Fault {
        Fault::NoMemory
    }
}
