ghost use Rattle.std.specs.Prelude.{◌≡◌};
ghost use Rattle.mx_parquet.specs.declared.error.Failure.TheVariants as failures;
ghost use Rattle.mx_parquet.specs.declared.error.ParquetError.TheVariants as errors;
ghost use Rattle.mx_parquet.specs.Reading.{placed_failure};

use std::alloc::{AllocError, AllocFailed};

/// Why bytes are no file of rows.
#[derive(Clone, Copy, Debug, PartialEq, Eq)]
pub enum ParquetError {
    NoMemory,
    /// The first broken rule. One of a struct's fields is named by where the footer or the page header begins, one of
    /// what a page holds by where its header ends, and one of all the pages of a chunk by where that begins.
    BadParquet { at: usize },
    Unsupported { what: Feature },
}

impl From<AllocError> for ParquetError {
    ghost from_gives = { λ _ e. e ≡ errors.NoMemory };

    fn from(_e: AllocError) -> ParquetError {
        ParquetError::NoMemory
    }
}

impl<T: Drop> From<AllocFailed<T>> for ParquetError {
    ghost from_gives = { λ _ e. e ≡ errors.NoMemory };

    fn from(_e: AllocFailed<T>) -> ParquetError {
        ParquetError::NoMemory
    }
}

/// What a file may have in Parquet and not here.
#[derive(Clone, Copy, Debug, PartialEq, Eq)]
pub enum Feature {
    /// A chunk that is compressed.
    Codec,
    /// Values in another encoding than PLAIN.
    Encoding,
    /// A page that is no data page, or a dictionary.
    Page,
    /// A type that is none of the four.
    Kind,
    /// A converted type that is not the one of its type.
    Converted,
    /// A column with children, or that is repeated.
    Nested,
}

/// What is wrong with a struct that was read.
#[derive(Clone, Copy, Debug, Drop)]
pub(crate) enum Flaw {
    /// A rule is broken.
    Bad,
    Unsupported { what: Feature },
}

/// Why nothing was made of a struct.
#[derive(Clone, Copy, Debug, Drop)]
pub(crate) enum Failure {
    NoMemory,
    Flawed { flaw: Flaw },
}

impl From<AllocError> for Failure {
    ghost from_gives = { λ _ e. e ≡ failures.NoMemory };

    fn from(_e: AllocError) -> Failure {
        Failure::NoMemory
    }
}

impl<T: Drop> From<AllocFailed<T>> for Failure {
    ghost from_gives = { λ _ e. e ≡ failures.NoMemory };

    fn from(_e: AllocFailed<T>) -> Failure {
        Failure::NoMemory
    }
}

impl From<Flaw> for Failure {
    ghost from_gives = { λ flaw e. e ≡ failures.Flawed flaw };

    fn from(flaw: Flaw) -> Failure {
        Failure::Flawed { flaw }
    }
}

impl Failure {
    /// The same failure, of the struct that begins at a place.
    pub(crate) fn at(self, at: usize) -> ParquetError
        ensures { result ≡ placed_failure at self }
    {
        match self {
            Failure::NoMemory => ParquetError::NoMemory,
            Failure::Flawed { flaw: Flaw::Bad } => ParquetError::BadParquet { at },
            Failure::Flawed {
                flaw: Flaw::Unsupported { what },
            } => ParquetError::Unsupported { what },
        }
    }
}
