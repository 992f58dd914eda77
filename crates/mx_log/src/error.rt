ghost use Rattle.std.specs.Prelude.{◌≡◌};
ghost use Rattle.mx_log.specs.declared.error.LogError.TheVariants as errors;

use std::alloc::AllocError;

/// Why bytes are no log.
#[derive(Clone, Copy, Debug, PartialEq, Eq)]
pub enum LogError {
    NoMemory,
    /// The first broken rule, at the start of its field in the log; one of the content has its place in the log too.
    BadLog { at: usize },
}

impl From<AllocError> for LogError {
    ghost from_gives = { λ _ e. e ≡ errors.NoMemory };

    fn from(_e: AllocError) -> LogError {
        LogError::NoMemory
    }
}
