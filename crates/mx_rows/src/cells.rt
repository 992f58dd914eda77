ghost use Rattle.std.specs.Prelude.{◌≡◌, IfOk, map};
ghost use Rattle.std.specs.List.{AllByRecursion, AllZip};
ghost use Rattle.std.specs.Str.{IsUtf8};
ghost use Rattle.mx_parquet.specs.Fits.{IsEncoded};
ghost use Rattle.mx_parquet.specs.Seen.{seen_cell};
ghost use Rattle.mx_schema.specs.declared.cell.Cell.TheVariants as cells;
ghost use Rattle.mx_schema.specs.Rows.{HasNumber, IsCellOf};
ghost use Rattle.mx_schema.specs.declared.row.RowValue.TheVariants as values;
ghost use Rattle.mx_rows.specs.Filled as spec;

use mx_lists::Text;
use mx_parquet::CellView;
use mx_schema::{Column, ColumnKind, Row, RowValue};
use std::alloc::{AllocError, Global};

/// The elements of a row behind its key.
pub(crate) fn behind_key(row: &Row) -> &[RowValue]
    ensures { result.now ≡ spec.behind_key row.now }
{
    match row.as_slice() {
        [_, elements @ ..] => elements,
        [] => &[],
    }
}

/// The cells of the columns.
pub(crate) fn cells_of<'a>(
    alloc: Global,
    columns: &[Column],
    elements: &'a [RowValue],
) -> Result<Vec<CellView<'a>>, AllocError>
    requires { AllZip IsCellOf columns.now elements.now }
    ensures cells { IfOk result (λ cells. map seen_cell cells.items ≡ spec.cells_of columns.now elements.now) }
    ensures encoded { IfOk result (λ cells. AllByRecursion IsEncoded (map seen_cell cells.items)) }
{
    let mut cells = Vec::with_capacity(alloc, columns.len())?;
    for place in 0..columns.len() {
        cells.push(cell_of(&columns[place], &elements[place]))?;
    }
    Ok(cells)
}

fn cell_of<'a>(column: &Column, value: &'a RowValue) -> CellView<'a>
    requires { IsCellOf column.now value.now }
    ensures cell { seen_cell result ≡ spec.number_of column.now.kind value.now }
    ensures encoded { IsEncoded (seen_cell result) }
{
    match value {
        RowValue::Null => CellView::Null,
        RowValue::Flag(flag) => CellView::Flag(*flag),
        RowValue::Whole(number) => number_of(column.kind, *number),
        RowValue::Text(text) => text_of(text),
    }
}

// The call tells that the text is in UTF-8.
fn text_of(text: &Text) -> CellView<'_>
    ensures cell { seen_cell result ≡ cells.Text text.now }
    ensures encoded { IsUtf8 text.now }
{
    let _bytes = text.as_str().as_bytes();
    CellView::Text(text.as_str())
}

fn number_of(kind: ColumnKind, number: i64) -> CellView<'static>
    requires { HasNumber kind number }
    ensures cell { seen_cell result ≡ spec.number_of kind (values.Whole number) }
    ensures encoded { IsEncoded (seen_cell result) }
{
    match kind {
        ColumnKind::Int32 => CellView::Small(number as i32),
        _ => CellView::Whole(number),
    }
}
