ghost use Rattle.std.specs.Prelude.{◌≡◌, ◌<◌, ◌≤◌, ◌^◌, ◌++◌, length, map, flat_map, IfOk, OnOk};
ghost use Rattle.std.specs.Int.{w32, w64, cast_unsigned};
ghost use Rattle.mx_parquet.specs.Columns.{cells_at};
ghost use Rattle.mx_parquet.specs.Columns as columns;
ghost use Rattle.mx_parquet.specs.Pages as pages;
ghost use Rattle.mx_parquet.specs.Pages.{number, level_bytes, plain, truths, bit_sum, packed, value_bytes, page};
ghost use Rattle.mx_parquet.specs.Seen.{seen_cell, filled};

use crate::column::ColumnView;
use crate::view::{CellView, RowView};
use mx_levels::write_levels;
use mx_schema::ColumnKind;
use std::alloc::{AllocError, Global};

/// Writes the page of a column, which stands at a place, at the end.
pub(crate) fn put_page(
    alloc: Global,
    out: &mut Vec<u8>,
    column: ColumnView<'_>,
    rows: &[RowView<'_>],
    place: usize,
) -> Result<(), AllocError>
    requires { length (page (filled column place rows.now)) ≤ 4_194_304 }
    ensures { OnOk result (out.new.items ≡ out.old.items ++ page (filled column.entry place rows.now)) }
{
    put_levels(alloc, out, column.nullable, rows, place)?;
    put_values(alloc, out, column.kind, rows, place)
}

fn put_levels(
    alloc: Global,
    out: &mut Vec<u8>,
    nullable: bool,
    rows: &[RowView<'_>],
    place: usize,
) -> Result<(), AllocError>
    requires { length (level_bytes nullable (cells_at place rows.now)) ≤ 4_194_304 }
    ensures { OnOk result (out.new.items ≡ out.old.items ++ level_bytes nullable (cells_at place rows.now)) }
{
    if !nullable {
        return Ok(());
    }
    let present = presence(alloc, rows, place)?;
    let levels = write_levels(alloc, &present)?;
    put_u32(out, levels.len() as u32)?;
    put(out, &levels)
}

/// Of each row whether its cell at a place is not null.
fn presence(alloc: Global, rows: &[RowView<'_>], place: usize) -> Result<Vec<bool>, AllocError>
    ensures { IfOk result (λ present. present.items ≡ map pages.is_present (cells_at place rows.now)) }
{
    let mut present = Vec::new(alloc);
    for row in rows {
        present.push(is_present(row, place))?;
    }
    Ok(present)
}

/// Whether a row's cell at a place is not null.
pub(crate) fn is_present(row: &RowView<'_>, place: usize) -> bool
    ensures { result ≡ pages.is_present (columns.cell_at place row.now) }
{
    !matches!(row.cell_at(place), CellView::Null)
}

fn put_values(
    alloc: Global,
    out: &mut Vec<u8>,
    kind: ColumnKind,
    rows: &[RowView<'_>],
    place: usize,
) -> Result<(), AllocError>
    requires { length (value_bytes kind (cells_at place rows.now)) ≤ 4_194_304 }
    ensures { OnOk result (out.new.items ≡ out.old.items ++ value_bytes kind (cells_at place rows.now)) }
{
    match kind {
        ColumnKind::Boolean => put_truths(alloc, out, rows, place),
        ColumnKind::Int32 | ColumnKind::Int64 | ColumnKind::Text => put_cells(out, rows, place),
    }
}

fn put_truths(
    alloc: Global,
    out: &mut Vec<u8>,
    rows: &[RowView<'_>],
    place: usize,
) -> Result<(), AllocError>
    ensures { OnOk result (out.new.items ≡ out.old.items ++ packed (flat_map truths (cells_at place rows.now))) }
{
    let bits = truths_of(alloc, rows, place)?;
    put_bits(out, &bits)
}

/// The truth values that the rows have at a place.
fn truths_of(alloc: Global, rows: &[RowView<'_>], place: usize) -> Result<Vec<bool>, AllocError>
    ensures { IfOk result (λ bits. bits.items ≡ flat_map truths (cells_at place rows.now)) }
{
    let mut bits = Vec::new(alloc);
    for row in rows {
        push_truth(&mut bits, row.cell_at(place))?;
    }
    Ok(bits)
}

fn push_truth(bits: &mut Vec<bool>, cell: CellView<'_>) -> Result<(), AllocError>
    ensures { OnOk result (bits.new.items ≡ bits.old.items ++ truths (seen_cell cell.entry)) }
{
    match cell {
        CellView::Flag(flag) => {
            bits.push(flag)?;
            Ok(())
        }
        CellView::Null | CellView::Small(_) | CellView::Whole(_) | CellView::Text(_) => Ok(()),
    }
}

fn put_bits(out: &mut Vec<u8>, bits: &[bool]) -> Result<(), AllocError>
    ensures { OnOk result (out.new.items ≡ out.old.items ++ packed bits.now) }
{
    let mut rest = bits;
    while !rest.is_empty() {
        let (group, behind) = rest.split_at(rest.len().min(8));
        out.push(byte_of(group))?;
        rest = behind;
    }
    Ok(())
}

/// The number that at most eight bits are, the lowest first.
fn byte_of(bits: &[bool]) -> u8
    requires { length bits.now ≤ 8 }
    ensures { result ≡ bit_sum bits.now }
{
    match bits {
        [] => 0,
        [bit, rest @ ..] => u8::from(*bit) + 2 * byte_of(rest),
    }
}

fn put_cells(out: &mut Vec<u8>, rows: &[RowView<'_>], place: usize) -> Result<(), AllocError>
    requires { length (flat_map plain (cells_at place rows.now)) ≤ 4_194_304 }
    ensures { OnOk result (out.new.items ≡ out.old.items ++ flat_map plain (cells_at place rows.now)) }
{
    for row in rows {
        put_cell(out, row.cell_at(place))?;
    }
    Ok(())
}

fn put_cell(out: &mut Vec<u8>, cell: CellView<'_>) -> Result<(), AllocError>
    requires { length (plain (seen_cell cell)) ≤ 4_194_304 }
    ensures { OnOk result (out.new.items ≡ out.old.items ++ plain (seen_cell cell.entry)) }
{
    match cell {
        CellView::Small(number) => put_i32(out, number),
        CellView::Whole(number) => put_i64(out, number),
        CellView::Text(text) => put_text(out, text.as_bytes()),
        CellView::Null | CellView::Flag(_) => Ok(()),
    }
}

fn put_text(out: &mut Vec<u8>, text: &[u8]) -> Result<(), AllocError>
    requires { length text.now < 2 ^ 32 }
    ensures { OnOk result (out.new.items ≡ out.old.items ++ (number w32 (length text.now) ++ text.now)) }
{
    put_u32(out, text.len() as u32)?;
    put(out, text)
}

pub(crate) fn put(out: &mut Vec<u8>, bytes: &[u8]) -> Result<(), AllocError>
    ensures { OnOk result (out.new.items ≡ out.old.items ++ bytes.now) }
{
    out.extend_from_slice(bytes)?;
    Ok(())
}

#[tactic(auto, unfolding(crate::specs::Pages::number))]
pub(crate) fn put_u32(out: &mut Vec<u8>, n: u32) -> Result<(), AllocError>
    ensures { OnOk result (out.new.items ≡ out.old.items ++ number w32 n) }
{
    put(out, &n.to_le_bytes())
}

#[tactic(auto, unfolding(crate::specs::Pages::number))]
fn put_i32(out: &mut Vec<u8>, n: i32) -> Result<(), AllocError>
    ensures { OnOk result (out.new.items ≡ out.old.items ++ number w32 (cast_unsigned w32 n)) }
{
    put(out, &n.to_le_bytes())
}

#[tactic(auto, unfolding(crate::specs::Pages::number))]
fn put_i64(out: &mut Vec<u8>, n: i64) -> Result<(), AllocError>
    ensures { OnOk result (out.new.items ≡ out.old.items ++ number w64 (cast_unsigned w64 n)) }
{
    put(out, &n.to_le_bytes())
}
