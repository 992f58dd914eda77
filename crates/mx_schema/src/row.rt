ghost use Rattle.std.specs.Prelude.{◌≡◌, ◌≤◌, ◌↔◌, IsTrue, IfSome, MatchOption, length, map};
ghost use Rattle.mx_schema.specs.Rows as rows;
ghost use Rattle.mx_schema.specs.Rows.{IsKey, IsCellOf, CellOf, asked, FitsAll, IsFirstBad};

use crate::column::{Column, ColumnKind};
use mx_lists::{Listed, Text};

/// An element of a row, as a writer gives it.
#[derive(Clone, Debug, Drop)]
pub enum RowValue {
    Null,
    Flag(bool),
    Whole(i64),
    Text(Text),
}

/// The elements of a row: its key, and the cells behind it.
pub type Row = Listed<RowValue>;

/// The first place of a row that is not what the columns ask for.
pub(crate) fn first_bad_place(columns: &[Column], row: &[RowValue]) -> Option<u32>
    requires { length columns.now ≤ 32 }
    ensures { MatchOption result (FitsAll (asked columns.now) row.now) (IsFirstBad (asked columns.now) row.now) }
{
    let Some((key, cells)) = row.split_first() else {
        return Some(0);
    };
    if !is_key(key) {
        return Some(0);
    }
    match first_bad_cell(columns, cells) {
        Some(place) => Some(place + 1),
        None => None,
    }
}

fn first_bad_cell(columns: &[Column], cells: &[RowValue]) -> Option<u32>
    requires { length columns.now ≤ 32 }
    ensures bound { IfSome result (λ place. place ≤ 32) }
    ensures first { MatchOption result (FitsAll (map CellOf columns.now) cells.now) (IsFirstBad (map CellOf columns.now) cells.now) }
{
    let mut place = 0;
    for column in columns {
        match cells.get(place as usize) {
            Some(cell) if is_cell_of(column, cell) => place += 1,
            _ => return Some(place),
        }
    }
    if cells.len() > columns.len() {
        Some(place)
    } else {
        None
    }
}

fn is_key(value: &RowValue) -> bool
    ensures { IsTrue result ↔ IsKey value.now }
{
    match value {
        RowValue::Text(text) => {
            let bytes = text.as_str().as_bytes();
            !bytes.is_empty() && bytes.len() <= 255 && !bytes.contains(&0)
        }
        _ => false,
    }
}

fn is_cell_of(column: &Column, value: &RowValue) -> bool
    ensures { IsTrue result ↔ IsCellOf column.now value.now }
{
    match (column.kind, value) {
        (_, RowValue::Null) => column.nullable,
        (ColumnKind::Boolean, RowValue::Flag(_)) | (ColumnKind::Int64, RowValue::Whole(_)) => true,
        (ColumnKind::Int32, RowValue::Whole(number)) => i32::try_from(*number).is_ok(),
        (ColumnKind::Text, RowValue::Text(text)) => text.as_str().len() <= 4096,
        _ => false,
    }
}
