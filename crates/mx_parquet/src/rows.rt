ghost use Rattle.std.specs.Prelude.{◌≡◌, ◌+◌, ◌-◌, ◌≤◌, ◌<◌, ◌^◌, ◌↔◌, ◌≢◌, IsTrue, List, length, map, set, replicate, IfOk, OnOk, OnErr, []};
ghost use Rattle.std.specs.List.{AllByRecursion};
ghost use Rattle.mx_schema.specs.declared.cell.Cell.TheVariants as cells;
ghost use Rattle.mx_parquet.specs.declared.row.FullRow.{FullRow as AnyRow};
ghost use Rattle.mx_parquet.specs.Chunks.{ReadsAt, fitted};
ghost use Rattle.mx_parquet.specs.Columns.{row_cells};
ghost use Rattle.mx_parquet.specs.Held.{chunk_bytes};
ghost use Rattle.mx_parquet.specs.declared.error.ParquetError.TheVariants as errors;
ghost use Rattle.mx_parquet.specs.Faults.{TellsFault, IsColumnFault, IsColumnsFault, IsGroupsFault};
ghost use Rattle.mx_parquet.specs.Filling.{with_cell, with_cells, blank, MayStand, FillColumn, HoldColumns, AreFilled, IsGroupOf, AreRowsOf, Refuses, fitted_row};

use crate::chunk::pages_of;
use crate::column::HUDI_COUNT;
use crate::error::ParquetError;
use crate::fitting::is_key;
use crate::layout::{ChunkPlace, Group};
use crate::row::FullRow;
use mx_lists::{Listed, Text};
use mx_schema::{Cell, Column};
use std::alloc::{AllocError, Global};

/// Where the column of the record key stands.
const KEY_PLACE: usize = 2;

/// The rows that row groups hold.
pub(crate) fn rows_of(
    alloc: Global,
    file: &[u8],
    columns: &[Column],
    groups: &[Group],
) -> Result<Vec<FullRow>, ParquetError>
    requires short { length file.now < 2 ^ 32 }
    requires hudi { 5 ≤ length columns.now }
    ensures ok { IfOk result (λ rows. AreRowsOf file.now columns.now groups.now rows.items) }
    ensures only { IfOk result (λ rows. (others : List AnyRow) → AreRowsOf file.now columns.now groups.now others → map fitted_row others ≡ rows.items) }
    ensures err { Refuses (AreRowsOf file.now columns.now groups.now) result }
    ensures fault { TellsFault (IsGroupsFault file.now columns.now groups.now) result }
{
    let mut rows = Vec::new(alloc);
    let mut rest = groups;
    while let Some((group, behind)) = rest.split_first() {
        rows.append(&mut group_rows(alloc, file, columns, group)?)?;
        rest = behind;
    }
    Ok(rows)
}

/// The rows of a row group. They are made once the first column is read, so that the file has a cell for each.
fn group_rows(
    alloc: Global,
    file: &[u8],
    columns: &[Column],
    group: &Group,
) -> Result<Vec<FullRow>, ParquetError>
    requires short { length file.now < 2 ^ 32 }
    requires hudi { 5 ≤ length columns.now }
    ensures ok { IfOk result (λ rows. IsGroupOf file.now columns.now group.now rows.items) }
    ensures only { IfOk result (λ rows. (others : List AnyRow) → IsGroupOf file.now columns.now group.now others → map fitted_row others ≡ rows.items) }
    ensures err { Refuses (IsGroupOf file.now columns.now group.now) result }
    ensures fault { TellsFault (IsColumnsFault file.now group.now.row_count 0 columns.now group.now.chunks) result }
{
    let Some((column, other_columns)) = columns.split_first() else {
        unreachable!();
    };
    let Some((chunk, other_chunks)) = group.chunks.as_slice().split_first() else {
        return Err(ParquetError::BadParquet { at: 0 });
    };
    let cells = column_cells(alloc, file, column, 0, group.row_count, *chunk)?;
    let mut rows = first_rows(alloc, cells)?;
    fill_columns(alloc, file, other_columns, other_chunks, 1, &mut rows)?;
    Ok(rows)
}

/// Rows with these cells under the first column, and no others.
fn first_rows(alloc: Global, cells: Listed<Cell>) -> Result<Vec<FullRow>, AllocError>
    ensures { IfOk result (λ rows. map row_cells rows.items ≡ with_cells 0 cells (replicate (length cells) blank)) }
{
    let mut rows = blank_rows(alloc, cells.len())?;
    fill(&mut rows, 0, cells)?;
    Ok(rows)
}

/// Rows without cells.
fn blank_rows(alloc: Global, count: usize) -> Result<Vec<FullRow>, AllocError>
    ensures { IfOk result (λ rows. rows.items ≡ replicate count blank) }
{
    let mut rows = Vec::new(alloc);
    for _ in 0..count {
        rows.push(blank_row(alloc)?)?;
    }
    Ok(rows)
}

fn blank_row(alloc: Global) -> Result<FullRow, AllocError>
    ensures { IfOk result (λ row. row ≡ blank) }
{
    Ok(FullRow {
        commit_time: Text::from_str(alloc, "")?,
        commit_seqno: Text::from_str(alloc, "")?,
        record_key: Text::from_str(alloc, "")?,
        partition_path: Text::from_str(alloc, "")?,
        file_name: Text::from_str(alloc, "")?,
        cells: Listed::new(alloc),
    })
}

/// Fills rows with the cells of columns, which stand from a place on.
fn fill_columns(
    alloc: Global,
    file: &[u8],
    columns: &[Column],
    chunks: &[ChunkPlace],
    place: usize,
    rows: &mut Vec<FullRow>,
) -> Result<(), ParquetError>
    requires short { length file.now < 2 ^ 32 }
    requires room { place + length columns.now < 2 ^ 64 }
    requires as_long { AllByRecursion (λ row. length row.cells ≡ place - 5) rows.old.items }
    ensures ok { OnOk result (AreFilled file.now (length rows.old.items) place columns.now chunks.now rows.old.items rows.new.items) }
    ensures err { Refuses (HoldColumns file.now (length rows.old.items) place columns.now chunks.now) result }
    ensures fault { TellsFault (IsColumnsFault file.now (length rows.old.items) place columns.now chunks.now) result }
{
    let Some((column, other_columns)) = columns.split_first() else {
        return nothing_left(chunks);
    };
    let Some((chunk, other_chunks)) = chunks.split_first() else {
        return Err(ParquetError::BadParquet { at: 0 });
    };
    let cells = column_cells(alloc, file, column, place, rows.len(), *chunk)?;
    fill(rows, place, cells)?;
    fill_columns(alloc, file, other_columns, other_chunks, place + 1, rows)
}

fn nothing_left(chunks: &[ChunkPlace]) -> Result<(), ParquetError>
    ensures ok { OnOk result (chunks.now ≡ []) }
    ensures err { OnErr result (chunks.now ≢ []) }
    ensures fault { TellsFault (λ e. e ≡ errors.BadParquet 0) result }
{
    if chunks.is_empty() {
        Ok(())
    } else {
        Err(ParquetError::BadParquet { at: 0 })
    }
}

/// The cells of a column that stands at a place, of so many rows.
fn column_cells(
    alloc: Global,
    file: &[u8],
    column: &Column,
    place: usize,
    count: usize,
    chunk: ChunkPlace,
) -> Result<Listed<Cell>, ParquetError>
    requires { length file.now < 2 ^ 32 }
    ensures found { ReadsAt (map fitted) (λ cells. cells) (FillColumn column.now place count (chunk_bytes file.now chunk)) result }
    ensures fault { TellsFault (IsColumnFault file.now count place column.now chunk) result }
{
    let end = chunk.offset.saturating_add(chunk.size).min(file.len());
    let (front, _) = file.split_at(end);
    let cells = pages_of(alloc, column, count, front, chunk.offset)?;
    if !may_stand(place, cells.as_slice()) {
        return Err(ParquetError::BadParquet { at: chunk.offset });
    }
    Ok(cells)
}

/// Whether each of the cells may stand at a place of a row.
fn may_stand(place: usize, cells: &[Cell]) -> bool
    ensures { IsTrue result ↔ AllByRecursion (MayStand place) cells.now }
{
    for cell in cells {
        if !may_be(place, cell) {
            return false;
        }
    }
    true
}

fn may_be(place: usize, cell: &Cell) -> bool
    ensures { IsTrue result ↔ MayStand place cell.now }
{
    match cell {
        Cell::Text(text) => place != KEY_PLACE || is_key(text.as_str()),
        Cell::Null | Cell::Flag(_) | Cell::Small(_) | Cell::Whole(_) => place >= HUDI_COUNT,
    }
}

/// Puts a cell into each row.
fn fill(rows: &mut Vec<FullRow>, place: usize, cells: Listed<Cell>) -> Result<(), AllocError>
    requires { length cells ≡ length rows.old.items }
    ensures { OnOk result (map row_cells rows.new.items ≡ with_cells place cells rows.old.items) }
{
    let mut cells = cells.into_vec();
    while let Some(cell) = cells.pop() {
        put_cell(&mut rows[cells.len()], place, cell)?;
    }
    Ok(())
}

fn put_cell(row: &mut FullRow, place: usize, cell: Cell) -> Result<(), AllocError>
    ensures { OnOk result (row_cells row.new ≡ with_cell place cell (row_cells row.old)) }
{
    match cell {
        Cell::Text(text) => {
            if place < HUDI_COUNT {
                put_text(row, place, text);
                Ok(())
            } else {
                row.cells.push(Cell::Text(text))
            }
        }
        other => row.cells.push(other),
    }
}

fn put_text(row: &mut FullRow, place: usize, text: Text)
    requires { place < 5 }
    ensures { row_cells row.new ≡ set (row_cells row.old) place (cells.Text text) }
{
    match place {
        0 => row.commit_time = text,
        1 => row.commit_seqno = text,
        2 => row.record_key = text,
        3 => row.partition_path = text,
        _ => row.file_name = text,
    }
}
