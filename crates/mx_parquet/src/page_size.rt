ghost use Rattle.std.specs.Prelude.{◌≡◌, ◌-◌, ◌≤◌, ◌^◌, length, min, flat_map};
ghost use Rattle.std.specs.List.{prefix_len};
ghost use Rattle.std.specs.Bool.{beq};
ghost use Rattle.mx_parquet.specs.Columns as columns;
ghost use Rattle.mx_parquet.specs.Columns.{cells_at};
ghost use Rattle.mx_parquet.specs.Pages as pages;
ghost use Rattle.mx_parquet.specs.Pages.{level_bytes, levels, plain, truths, value_bytes, page};
ghost use Rattle.mx_parquet.specs.Seen.{seen_cell, filled};

use crate::column::ColumnView;
use crate::page::is_present;
use crate::thrift_size::groups_len;
use crate::view::{CellView, RowView};
use mx_schema::ColumnKind;

/// The length of the page of a column, which stands at a place, or 2^64 - 1 where it is greater.
pub(crate) fn page_len(column: ColumnView<'_>, rows: &[RowView<'_>], place: usize) -> u64
    ensures { result ≡ min (length (page (filled column.entry place rows.now))) (2 ^ 64 - 1) }
{
    level_part_len(column.nullable, rows, place).saturating_add(values_len(
        column.kind,
        rows,
        place,
    ))
}

fn level_part_len(nullable: bool, rows: &[RowView<'_>], place: usize) -> u64
    ensures { result ≡ min (length (level_bytes nullable (cells_at place rows.now))) (2 ^ 64 - 1) }
{
    if nullable {
        levels_len(rows, place).saturating_add(4)
    } else {
        0
    }
}

fn levels_len(rows: &[RowView<'_>], place: usize) -> u64
    ensures { result ≡ min (length (levels (cells_at place rows.now))) (2 ^ 64 - 1) }
{
    let mut len = 0_u64;
    let mut from = 0;
    while from < rows.len() {
        let (_, rest) = rows.split_at(from);
        let count = leading(rest, place, is_present(&rest[0], place));
        len = len.saturating_add(groups_len(2 * count as u64) + 1);
        from += count;
    }
    len
}

/// How many of the rows in front have a cell at a place that is not null, or how many have none.
fn leading(rows: &[RowView<'_>], place: usize, present: bool) -> usize
    ensures count { result ≡ prefix_len (λ row. beq present (pages.is_present (columns.cell_at place row))) rows.now }
    ensures within { result ≤ length rows.now }
{
    for (index, row) in rows.iter().enumerate() {
        if is_present(row, place) != present {
            return index;
        }
    }
    rows.len()
}

fn values_len(kind: ColumnKind, rows: &[RowView<'_>], place: usize) -> u64
    ensures { result ≡ min (length (value_bytes kind (cells_at place rows.now))) (2 ^ 64 - 1) }
{
    match kind {
        ColumnKind::Boolean => truth_count(rows, place).div_ceil(8) as u64,
        ColumnKind::Int32 | ColumnKind::Int64 | ColumnKind::Text => cells_len(rows, place),
    }
}

fn truth_count(rows: &[RowView<'_>], place: usize) -> usize
    ensures { result ≡ length (flat_map truths (cells_at place rows.now)) }
{
    let mut count = 0;
    for row in rows {
        count += truth_len(row.cell_at(place));
    }
    count
}

fn truth_len(cell: CellView<'_>) -> usize
    ensures value { result ≡ length (truths (seen_cell cell.entry)) }
    ensures bound { result ≤ 1 }
{
    match cell {
        CellView::Flag(_) => 1,
        CellView::Null | CellView::Small(_) | CellView::Whole(_) | CellView::Text(_) => 0,
    }
}

fn cells_len(rows: &[RowView<'_>], place: usize) -> u64
    ensures { result ≡ min (length (flat_map plain (cells_at place rows.now))) (2 ^ 64 - 1) }
{
    let mut len = 0_u64;
    for row in rows {
        len = len.saturating_add(cell_len(row.cell_at(place)));
    }
    len
}

#[tactic(auto, unfolding(crate::specs::Pages::number))]
fn cell_len(cell: CellView<'_>) -> u64
    ensures { result ≡ min (length (plain (seen_cell cell.entry))) (2 ^ 64 - 1) }
{
    match cell {
        CellView::Null | CellView::Flag(_) => 0,
        CellView::Small(_) => 4,
        CellView::Whole(_) => 8,
        CellView::Text(text) => 4 + text.len() as u64,
    }
}
