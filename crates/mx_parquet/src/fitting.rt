ghost use Rattle.std.specs.Prelude.{◌↔◌, IsTrue, map};
ghost use Rattle.std.specs.List.{AllByRecursion, AllZip};
ghost use Rattle.mx_schema.specs.Rows.{IsKeyText};
ghost use Rattle.mx_parquet.specs.Fits.{IsCellOf, FitsRow};
ghost use Rattle.mx_parquet.specs.Seen.{seen_cell};

use crate::view::{CellView, RowView};
use mx_schema::{Column, ColumnKind, Schema};

/// Whether a file of a schema can hold each of the rows.
pub fn rows_fit(schema: &Schema, rows: &[RowView<'_>]) -> bool
    ensures { IsTrue result ↔ AllByRecursion (FitsRow schema.now) rows.now }
{
    all_fit(schema.columns(), rows)
}

fn all_fit(columns: &[Column], rows: &[RowView<'_>]) -> bool
    ensures { IsTrue result ↔ AllByRecursion (FitsRow columns.now) rows.now }
{
    for row in rows {
        if !row_fits(columns, row) {
            return false;
        }
    }
    true
}

fn row_fits(columns: &[Column], row: &RowView<'_>) -> bool
    ensures { IsTrue result ↔ FitsRow columns.now row.now }
{
    is_key(row.record_key()) && cells_fit(columns, row.cells())
}

pub(crate) fn is_key(text: &str) -> bool
    ensures { IsTrue result ↔ IsKeyText text.now }
{
    let bytes = text.as_bytes();
    !bytes.is_empty() && bytes.len() <= 255 && !bytes.contains(&0)
}

fn cells_fit(columns: &[Column], cells: &[CellView<'_>]) -> bool
    ensures { IsTrue result ↔ AllZip IsCellOf columns.now (map seen_cell cells.now) }
{
    let Some((column, other_columns)) = columns.split_first() else {
        return cells.is_empty();
    };
    let Some((cell, other_cells)) = cells.split_first() else {
        return false;
    };
    is_cell_of(column, *cell) && cells_fit(other_columns, other_cells)
}

fn is_cell_of(column: &Column, cell: CellView<'_>) -> bool
    ensures { IsTrue result ↔ IsCellOf column.now (seen_cell cell.entry) }
{
    match (column.kind, cell) {
        (_, CellView::Null) => column.nullable,
        (ColumnKind::Boolean, CellView::Flag(_))
        | (ColumnKind::Int32, CellView::Small(_))
        | (ColumnKind::Int64, CellView::Whole(_)) => true,
        (ColumnKind::Text, CellView::Text(text)) => text.len() <= 4096,
        _ => false,
    }
}
