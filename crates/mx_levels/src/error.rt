ghost use Rattle.std.specs.Prelude.{◌≡◌};
ghost use Rattle.mx_levels.specs.declared.error.LevelError.TheVariants as errors;

use std::alloc::{AllocError, AllocFailed};

/// Why bytes are no levels.
#[derive(Clone, Copy, Debug, PartialEq, Eq)]
pub enum LevelError {
    /// No run that fits begins there, or the levels are complete and nothing should stand there.
    BadRun { at: usize },
    NoMemory,
}

impl From<AllocError> for LevelError {
    ghost from_gives = { λ _ e. e ≡ errors.NoMemory };

    fn from(_e: AllocError) -> LevelError {
        LevelError::NoMemory
    }
}
