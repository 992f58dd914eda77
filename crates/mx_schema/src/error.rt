ghost use Rattle.std.specs.Prelude.{◌≡◌};
ghost use Rattle.mx_schema.specs.declared.error.SchemaError.TheVariants.{NoMemory};

use std::alloc::AllocError;

/// Why a text is no schema.
#[derive(Clone, Copy, Debug, PartialEq, Eq)]
pub enum SchemaError {
    NoMemory,
    /// The first bad column, counted from 0.
    BadSchema { at: u32 },
}

impl From<AllocError> for SchemaError {
    ghost from_gives = { λ _ e. e ≡ NoMemory };

    fn from(_: AllocError) -> Self {
        SchemaError::NoMemory
    }
}
