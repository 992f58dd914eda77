ghost use Rattle.std.specs.Prelude.{◌≡◌};
ghost use Rattle.mx_world.specs.declared.error.ChangeError.TheVariants.{NoMemory};

use mx_base::Path;
use std::alloc::AllocError;

/// Why a change was not made, or may not have been.
#[derive(Debug, Drop)]
pub enum ChangeError {
    /// An earlier change of this path failed, and whether it was applied is not known.
    InDoubt { path: Path },
    /// A create found something at this path, of which the mirror does not know.
    Changed { path: Path },
    /// The store failed: the change is in doubt from here on.
    StoreFault,
    NoMemory,
}

impl From<AllocError> for ChangeError {
    ghost from_gives = { λ _ e. e ≡ NoMemory };

    fn from(_: AllocError) -> Self {
        ChangeError::NoMemory
    }
}
