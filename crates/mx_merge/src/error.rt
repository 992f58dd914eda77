ghost use Rattle.std.specs.Prelude.{◌≡◌};
ghost use Rattle.mx_merge.specs.declared.error.MergeError.TheVariants as errors;

use std::alloc::{AllocError, AllocFailed};

/// Why entries cannot be merged.
#[derive(Clone, Copy, Debug, PartialEq, Eq)]
pub enum MergeError {
    NoMemory,
    /// A value that is asked for is no payload: the first broken rule, at the start of its field in that value.
    BadPayload { at: usize },
}

impl From<AllocError> for MergeError {
    ghost from_gives = { λ _ e. e ≡ errors.NoMemory };

    fn from(_e: AllocError) -> MergeError {
        MergeError::NoMemory
    }
}

impl<T: Drop> From<AllocFailed<T>> for MergeError {
    ghost from_gives = { λ _ e. e ≡ errors.NoMemory };

    fn from(_e: AllocFailed<T>) -> MergeError {
        MergeError::NoMemory
    }
}
