// The data files of a commit.
ghost use Rattle.std.specs.Prelude.{◌≡◌, ◌≤◌, ◌<◌, ◌^◌, ◌-◌, min, length, All, IfOk, None, Ok, Err};
ghost use Rattle.std.specs.List.{AllByRecursion};
ghost use Rattle.mx_parquet.specs.Decoding.{Decodes};
ghost use Rattle.mx_parquet.specs.Encoding.{encoding};
ghost use Rattle.mx_parquet.specs.Fits.{FitsRow, HasTexts};
ghost use Rattle.mx_rows.specs.Checks.{FilesFit, RowsFit, first_too_many};
ghost use Rattle.mx_commit.specs.Made as spec;
ghost use Rattle.mx_commit.specs.Made.{IsFileOf, TellsSize, file_bytes};
ghost use Rattle.mx_commit.specs.Making.{TellsLength};
ghost use Rattle.mx_commit.specs.declared.making.MakeError.TheVariants.{NoMemory};

use crate::NewFile;
use mx_ask::FileRows;
use mx_base::{Instant, data_file_name};
use mx_lists::{Bytes, Listed};
use mx_parquet::{RowView, size_rows, write_rows};
use mx_rows::{Place, full_rows};
use mx_schema::Schema;
use std::alloc::{AllocError, Global};

/// The most bytes of a data file.
const MOST_BYTES: u64 = 4_194_304;

/// Why the data files of a commit were not made.
#[derive(Clone, Copy, Debug, PartialEq, Eq)]
pub enum MakeError {
    /// The first file that is too large would have so many bytes.
    TooLarge { bytes: u64 },
    NoMemory,
}

impl From<AllocError> for MakeError {
    ghost from_gives = { λ _ e. e ≡ NoMemory };

    fn from(_: AllocError) -> Self {
        MakeError::NoMemory
    }
}

/// The data files of a commit at an instant.
pub fn new_files(
    alloc: Global,
    schema: &Schema,
    at: Instant,
    files: &[FileRows],
) -> Result<Listed<NewFile>, MakeError>
    requires few { first_too_many files.now ≡ None }
    requires fit { FilesFit schema.now files.now }
    ensures files { IfOk result (λ made. made ≡ spec.new_files schema.now at files.now) }
    ensures held { IfOk result (λ made. All (IsFileOf schema.now) made) }
    ensures size { TellsSize (spec.new_files schema.now at files.now) result }
{
    let mut made = Listed::new(alloc);
    for number in 0..files.len() {
        made.push(new_file(alloc, schema, at, number as u64, &files[number])?)?;
    }
    Ok(made)
}

fn new_file(
    alloc: Global,
    schema: &Schema,
    at: Instant,
    number: u64,
    file: &FileRows,
) -> Result<NewFile, MakeError>
    requires few { length file.now.rows ≤ 16384 }
    requires fit { RowsFit schema.now file.now.rows }
    ensures file { IfOk result (λ made. made ≡ spec.new_file schema.now at number file.now) }
    ensures held { IfOk result (IsFileOf schema.now) }
    ensures size { TellsLength (length (file_bytes schema.now at number file.now)) result }
{
    let name = data_file_name(alloc, &file.file, at)?;
    let place = Place {
        at,
        number,
        partition: &file.partition,
        name: &name,
    };
    let rows = full_rows(alloc, schema, &place, file.rows.as_slice())?;
    Ok(NewFile {
        partition: file.partition.clone()?,
        file: file.file,
        rows: file.rows.len() as u64,
        bytes: bytes_of(alloc, schema, rows.as_slice())?,
    })
}

// The one file of the rows, where it is not too large.
fn bytes_of(alloc: Global, schema: &Schema, rows: &[RowView<'_>]) -> Result<Bytes, MakeError>
    requires count { length rows.now ≤ 16384 }
    requires fit { AllByRecursion (FitsRow schema.now) rows.now }
    requires texts { AllByRecursion HasTexts rows.now }
    ensures bytes { IfOk result (λ bytes. bytes ≡ encoding schema.now rows.now) }
    ensures held { IfOk result (λ bytes. Decodes bytes schema.now rows.now) }
    ensures size { TellsLength (length (encoding schema.now rows.now)) result }
{
    let bytes = size_rows(schema, rows);
    if bytes > MOST_BYTES {
        return Err(MakeError::TooLarge { bytes });
    }
    // The call tells that the schema is one.
    let _columns = schema.columns();
    Ok(Bytes::from_vec(write_rows(alloc, schema, rows, bytes)?))
}
