// Which files may be committed together.
ghost use Rattle.std.specs.Prelude.{◌≡◌, All, IfOk, List, OnOk, ℕ};
ghost use Rattle.std.specs.Result.{IfErr};
ghost use Rattle.mx_commit.specs.Made.{IsFileOf, new_files as made_files};
ghost use Rattle.mx_commit.specs.Written.{AreApartFiles, asked_group};
ghost use Rattle.mx_schema.specs.declared.column.Column.{Column};
ghost use Rattle.mx_writer.specs.Commit as spec;
ghost use Rattle.mx_writer.specs.Commit.{AreFew, HaveGoodRows, MayBeCommitted, RefusesFiles};

use crate::CommitError;
use mx_ask::{FileRows, Limit};
use mx_base::Instant;
use mx_commit::{MakeError, NewFile, first_double, new_files};
use mx_lists::Listed;
use mx_rows::{first_bad_row, first_too_many};
use mx_schema::Schema;
use mx_world::ChangeError;
use std::alloc::Global;

/// The most files of one commit.
const MOST_FILES: usize = 16;

/// Whether the rows of the files may be written.
pub(crate) fn check_files(
    alloc: Global,
    schema: &Schema,
    files: &[FileRows],
) -> Result<(), CommitError>
    ensures ok { OnOk result (HaveGoodRows schema.now files.now) }
    ensures err { (last : ℕ) → IfErr result (RefusesFiles schema.now last files.now) }
{
    check_counts(files)?;
    check_groups(files)?;
    check_rows(alloc, schema, files)
}

// Whether the files are so few, and each has so few rows, as a commit takes.
fn check_counts(files: &[FileRows]) -> Result<(), CommitError>
    ensures ok { OnOk result (AreFew files.now) }
    ensures err { (schema : List Column) (last : ℕ) → IfErr result (RefusesFiles schema last files.now) }
{
    if files.len() > MOST_FILES {
        return Err(CommitError::TooMany {
            what: Limit::Files,
            count: files.len() as u64,
        });
    }
    match first_too_many(files) {
        Some(count) => Err(CommitError::TooMany {
            what: Limit::Rows,
            count,
        }),
        None => Ok(()),
    }
}

fn check_groups(files: &[FileRows]) -> Result<(), CommitError>
    requires few { AreFew files.now }
    ensures ok { OnOk result (AreApartFiles asked_group files.now) }
    ensures err { (schema : List Column) (last : ℕ) → IfErr result (RefusesFiles schema last files.now) }
{
    match first_double(files) {
        Some(file) => Err(CommitError::DuplicateGroup {
            partition: file.partition.clone()?,
            file: file.file,
        }),
        None => Ok(()),
    }
}

fn check_rows(alloc: Global, schema: &Schema, files: &[FileRows]) -> Result<(), CommitError>
    requires few { AreFew files.now }
    requires apart { AreApartFiles asked_group files.now }
    ensures ok { OnOk result (HaveGoodRows schema.now files.now) }
    ensures err { (last : ℕ) → IfErr result (RefusesFiles schema.now last files.now) }
{
    if let Some(place) = first_bad_row(schema, files) {
        return Err(CommitError::BadRow { place });
    }
    match mx_rows::first_double(alloc, files)? {
        Some(key) => Err(CommitError::DuplicateRow { key }),
        None => Ok(()),
    }
}

/// The data files at the instant that comes next.
pub(crate) fn make_files(
    alloc: Global,
    schema: &Schema,
    last: Instant,
    files: &[FileRows],
) -> Result<Listed<NewFile>, CommitError>
    requires good { HaveGoodRows schema.now files.now }
    ensures may { OnOk result (MayBeCommitted schema.now last files.now) }
    ensures files { IfOk result (λ made. made ≡ made_files schema.now (spec.next_after last) files.now) }
    ensures held { IfOk result (λ made. All (IsFileOf schema.now) made) }
    ensures err { IfErr result (RefusesFiles schema.now last files.now) }
{
    match new_files(alloc, schema, next_after(last), files) {
        Ok(made) => Ok(made),
        Err(MakeError::TooLarge { bytes }) => Err(CommitError::TooLarge { bytes }),
        Err(MakeError::NoMemory) => Err(CommitError::Stopped {
            why: ChangeError::NoMemory,
        }),
    }
}

// The instant that comes next; where none is left, a file has the same length at the last one.
fn next_after(last: Instant) -> Instant
    ensures { result ≡ spec.next_after last }
{
    match last.next() {
        Some(at) => at,
        None => last,
    }
}
