ghost use Rattle.std.specs.Prelude.{◌≡◌};
ghost use Rattle.mx_thrift.specs.declared.error.Fault.TheVariants as faults;

use std::alloc::AllocError;

/// Why bytes are no struct.
#[derive(Clone, Copy, Debug, PartialEq, Eq)]
pub enum ThriftError {
    /// The bytes end in the number, the byte, the double or the byte string that begins there, or before it.
    Short { at: usize },
    /// The number that begins there has more than ten bytes or does not fit its type, or an id does not fit an i16.
    Wide { at: usize },
    /// The byte there names a type that is none.
    BadType { at: usize },
    /// The seventeenth of the structs and containers inside each other begins there.
    Deep { at: usize },
    NoMemory,
}

/// A rule that bytes can break.
#[derive(Clone, Copy, Debug)]
pub(crate) enum Rule {
    Short,
    Wide,
    BadType,
    Deep,
}

/// A broken rule, by how many bytes are left from the place on that breaks it.
#[derive(Clone, Copy, Debug)]
pub(crate) enum Fault {
    NoMemory,
    Broken { rule: Rule, left: usize },
}

impl From<AllocError> for Fault {
    ghost from_gives = { λ _ e. e ≡ faults.NoMemory };

    fn from(_e: AllocError) -> Fault {
        Fault::NoMemory
    }
}
