ghost use Rattle.std.specs.Prelude.{◌≡◌};
ghost use Rattle.mx_meta.specs.declared.error.MetaError.TheVariants.{NoMemory};

use mx_lists::Text;
use std::alloc::AllocError;

/// Why bytes give no object of the kind that is asked for.
#[derive(Debug, Drop)]
pub enum MetaError {
    /// The least bad field in byte order, and the empty text where the bytes are no JSON object.
    BadMeta { field: Text },
    NoMemory,
}

impl From<AllocError> for MetaError {
    ghost from_gives = { λ _ e. e ≡ NoMemory };

    fn from(_: AllocError) -> Self {
        MetaError::NoMemory
    }
}
