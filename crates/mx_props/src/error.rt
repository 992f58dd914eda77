ghost use Rattle.std.specs.Prelude.{◌≡◌};
ghost use Rattle.mx_props.specs.declared.error.PropsError.TheVariants.{NoMemory};

use std::alloc::AllocError;

/// Why bytes are no config.
#[derive(Clone, Copy, Debug, PartialEq, Eq)]
pub enum PropsError {
    NoMemory,
    /// The first bad line, counted from 0.
    BadProps { line: u32 },
    /// The third line gives another version than 6.
    Version { found: u32 },
}

impl From<AllocError> for PropsError {
    ghost from_gives = { λ _ e. e ≡ NoMemory };

    fn from(_: AllocError) -> Self {
        PropsError::NoMemory
    }
}
