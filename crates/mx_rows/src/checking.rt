ghost use Rattle.std.specs.Prelude.{◌≡◌, MatchOption};
ghost use Rattle.mx_rows.specs.Checks as spec;
ghost use Rattle.mx_rows.specs.Checks.{FilesFit, IsFirstBadRow, RowsFit};
ghost use Rattle.mx_rows.specs.Found.{IsFirstBadIn};

use crate::bad_row::BadRow;
use mx_ask::FileRows;
use mx_schema::{Row, Schema};

/// The first place of the files' rows that is not what the schema asks for.
pub fn first_bad_row(schema: &Schema, files: &[FileRows]) -> Option<BadRow>
    ensures { MatchOption result (FilesFit schema.now files.now) (IsFirstBadRow schema.now files.now) }
{
    for file in 0..files.len() {
        if let Some((row, column)) = first_bad_in_file(schema, files[file].rows.as_slice()) {
            return Some(BadRow {
                file: file as u64,
                row,
                column,
            });
        }
    }
    None
}

// The first bad row of a file, and its element.
fn first_bad_in_file(schema: &Schema, rows: &[Row]) -> Option<(u64, u32)>
    ensures { MatchOption result (RowsFit schema.now rows.now) (IsFirstBadIn schema.now rows.now) }
{
    for row in 0..rows.len() {
        if let Some(column) = schema.fits(&rows[row]) {
            return Some((row as u64, column));
        }
    }
    None
}

/// The most rows of a file of a commit.
pub const MOST_ROWS: usize = 16_384;

/// How many rows the first file has that has more than it may.
pub fn first_too_many(files: &[FileRows]) -> Option<u64>
    ensures { result ≡ spec.first_too_many files.now }
{
    for file in files {
        if file.rows.len() > MOST_ROWS {
            return Some(file.rows.len() as u64);
        }
    }
    None
}
