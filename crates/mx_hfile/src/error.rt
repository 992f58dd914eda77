ghost use Rattle.std.specs.Prelude.{◌≡◌};
ghost use Rattle.mx_hfile.specs.Decoding.{IsWithin};
ghost use Rattle.mx_hfile.specs.Seen.{placed_error};
ghost use Rattle.mx_hfile.specs.declared.error.HFileError.TheVariants as errors;

use mx_lists::Fault;
use std::alloc::AllocError;

/// Why bytes are no file of entries.
#[derive(Clone, Copy, Debug, PartialEq, Eq)]
pub enum HFileError {
    NoMemory,
    /// The first broken rule, at the start of its field.
    BadHFile { at: usize },
}

impl From<AllocError> for HFileError {
    ghost from_gives = { λ _ e. e ≡ errors.NoMemory };

    fn from(_e: AllocError) -> HFileError {
        HFileError::NoMemory
    }
}

/// The fault by its place, in a part that ends there.
pub(crate) fn before(fault: Fault, end: usize) -> HFileError
    ensures place { result ≡ placed_error end fault }
    ensures within { IsWithin end result }
{
    match fault {
        Fault::NoMemory => HFileError::NoMemory,
        Fault::Bad { left } => HFileError::BadHFile {
            at: end.saturating_sub(left),
        },
    }
}
