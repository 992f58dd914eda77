ghost use Rattle.std.specs.Prelude.{◌≡◌, ◌≤◌, Ok, List, length, IfOk, IfErr};
ghost use Rattle.mx_schema.specs.declared.column.Column.{Column as AnyColumn};
ghost use Rattle.mx_schema.specs.Columns.{IsSchema};
ghost use Rattle.mx_parquet.specs.declared.row.FullRow.{FullRow as AnyRow};
ghost use Rattle.mx_parquet.specs.Columns.{columns_of};
ghost use Rattle.mx_parquet.specs.Decoding.{Decodes};
ghost use Rattle.mx_parquet.specs.Opening.{file_layout};
ghost use Rattle.mx_parquet.specs.Filling.{Refuses};
ghost use Rattle.mx_parquet.specs.Refusals.{IsRefusal, HaveNumbers};
ghost use Rattle.mx_parquet.specs.declared.error.ParquetError.TheVariants as errors;
ghost use Rattle.mx_parquet.specs.Opening as opening;
ghost use Rattle.mx_parquet.specs.Faults.{TellsFault, IsFileFault, place_of};

use crate::error::ParquetError;
use crate::layout::Layout;
use crate::opening::{footer_place, layout_in};
use crate::row::FullRow;
use crate::rows::rows_of;
use crate::schema::schema_of;
use mx_schema::{Column, Schema};
use std::alloc::Global;

/// What a file stands for.
#[derive(Debug, Drop)]
pub struct Contents {
    pub schema: Schema,
    pub rows: Vec<FullRow>,
}

/// The schema and the rows that a file stands for.
///
/// The error is the first fault in reading order: of the footer, and then row group by row group, column by column and
/// page by page. Of a fault behind a page's header the place is where the header ends; of pages with another count of
/// cells, or with a record key that is none, where the chunk begins.
pub fn read_rows(alloc: Global, file: &[u8]) -> Result<Contents, ParquetError>
    ensures ok { IfOk result (λ read. Decodes file.now read.schema read.rows.items) }
    ensures only { IfOk result (λ read. (schema : List AnyColumn) (rows : List AnyRow) → Decodes file.now schema rows → HaveNumbers rows
        → (read.schema ≡ schema) × (read.rows.items ≡ rows)) }
    ensures err { IfErr result (IsRefusal file.now) }
    ensures fault { TellsFault (IsFileFault file.now (file_layout file.now)) result }
{
    let layout = layout_in(alloc, file)?;
    contents_of(alloc, file, &layout)
}

/// What a file of a layout stands for.
fn contents_of(alloc: Global, file: &[u8], layout: &Layout) -> Result<Contents, ParquetError>
    requires { file_layout file.now ≡ Ok layout.now }
    ensures ok { IfOk result (λ read. Decodes file.now read.schema read.rows.items) }
    ensures only { IfOk result (λ read. (schema : List AnyColumn) (rows : List AnyRow) → Decodes file.now schema rows → HaveNumbers rows
        → (read.schema ≡ schema) × (read.rows.items ≡ rows)) }
    ensures err { IfErr result (IsRefusal file.now) }
    ensures fault { TellsFault (IsFileFault file.now (Ok layout.now)) result }
{
    let columns = layout.columns.as_slice();
    let schema = schema_in(alloc, file, columns)?;
    let rows = rows_of(alloc, file, columns, layout.groups.as_slice())?;
    Ok(Contents { schema, rows })
}

/// The schema of columns, which have to begin with those of Hudi.
fn schema_in(alloc: Global, file: &[u8], columns: &[Column]) -> Result<Schema, ParquetError>
    ensures ok { IfOk result (λ schema. IsSchema schema × (columns.now ≡ columns_of schema)) }
    ensures err { Refuses (λ (schema : List AnyColumn). IsSchema schema × (columns.now ≡ columns_of schema)) result }
    ensures place { TellsFault (λ e. e ≡ errors.BadParquet (place_of (opening.footer_place file.now))) result }
{
    match schema_of(alloc, columns) {
        Ok(schema) => Ok(schema),
        Err(failure) => Err(failure.at(footer_at(file))),
    }
}

/// Where the footer of a file begins, if it has one.
fn footer_at(file: &[u8]) -> usize
    ensures { result ≡ place_of (opening.footer_place file.now) }
{
    match footer_place(file) {
        Ok(at) => at,
        Err(at) => at,
    }
}
