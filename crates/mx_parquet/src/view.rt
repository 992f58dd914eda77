ghost use Rattle.std.specs.Prelude.{◌≡◌, IfOk, map, slice_index_or};
ghost use Rattle.mx_schema.specs.declared.cell.Cell.TheVariants.{Null};
ghost use Rattle.mx_parquet.specs.Columns as columns;
ghost use Rattle.mx_parquet.specs.Seen.{seen_cell};

use crate::row::FullRow;
use mx_lists::Text;
use mx_schema::Cell;
use std::alloc::{AllocError, Global};
use std::marker::Model;

/// A cell of a row that is to be written, whose text is another's.
#[derive(Clone, Copy, Drop)]
pub enum CellView<'a> {
    Null,
    Flag(bool),
    Small(i32),
    Whole(i64),
    Text(&'a str),
}

/// A row that is to be written, whose key, partition, file name and texts are another's. Contracts see the row.
#[derive(Drop)]
pub struct RowView<'a> {
    commit_time: Text,
    commit_seqno: Text,
    record_key: &'a str,
    partition_path: &'a str,
    file_name: &'a str,
    cells: Vec<CellView<'a>>,
}

impl<'a> Model for RowView<'a> {
    ghost use Rattle.std.specs.Prelude.{map};
    ghost use Rattle.mx_parquet.specs.Seen.{seen_cell};
    ghost use Rattle.mx_parquet.specs.declared.row.FullRow.{FullRow as Row};

    ghost Value = { Row };

    ghost view = { λ v. record { commit_time = v.commit_time; commit_seqno = v.commit_seqno; record_key = v.record_key.now; partition_path = v.partition_path.now; file_name = v.file_name.now; cells = map seen_cell v.cells.items } };
}

impl<'a> RowView<'a> {
    /// The row of these texts and cells.
    pub fn new(
        commit_time: Text,
        commit_seqno: Text,
        record_key: &'a str,
        partition_path: &'a str,
        file_name: &'a str,
        cells: Vec<CellView<'a>>,
    ) -> RowView<'a>
        ensures { result ≡ record { commit_time = commit_time; commit_seqno = commit_seqno; record_key = record_key.now; partition_path = partition_path.now; file_name = file_name.now; cells = map seen_cell cells.entry.items } }
    {
        RowView {
            commit_time,
            commit_seqno,
            record_key,
            partition_path,
            file_name,
            cells,
        }
    }

    /// The instant of its commit.
    pub fn commit_time(&self) -> &str
        ensures { result.now ≡ self.now.commit_time }
    {
        self.commit_time.as_str()
    }

    /// Its number in the commit.
    pub fn commit_seqno(&self) -> &str
        ensures { result.now ≡ self.now.commit_seqno }
    {
        self.commit_seqno.as_str()
    }

    /// Its key.
    pub fn record_key(&self) -> &str
        ensures { result.now ≡ self.now.record_key }
    {
        self.record_key
    }

    /// Its partition.
    pub fn partition_path(&self) -> &str
        ensures { result.now ≡ self.now.partition_path }
    {
        self.partition_path
    }

    /// The name of its file.
    pub fn file_name(&self) -> &str
        ensures { result.now ≡ self.now.file_name }
    {
        self.file_name
    }

    /// Its cells of the schema's columns.
    pub fn cells(&self) -> &[CellView<'a>]
        ensures { map seen_cell result.now ≡ self.now.cells }
    {
        self.cells.as_slice()
    }

    /// Its cell at a place, null where it has none.
    pub(crate) fn cell_at(&self, place: usize) -> CellView<'_>
        ensures { seen_cell result ≡ columns.cell_at place self.now }
    {
        match place {
            0 => CellView::Text(self.commit_time.as_str()),
            1 => CellView::Text(self.commit_seqno.as_str()),
            2 => CellView::Text(self.record_key),
            3 => CellView::Text(self.partition_path),
            4 => CellView::Text(self.file_name),
            _ => cell_in(&self.cells, place - 5),
        }
    }
}

fn cell_in<'a>(cells: &[CellView<'a>], place: usize) -> CellView<'a>
    ensures { seen_cell result ≡ slice_index_or (map seen_cell cells.now) place Null }
{
    match cells.get(place) {
        None => CellView::Null,
        Some(cell) => *cell,
    }
}

/// A cell that is to be written.
pub fn cell_view(cell: &Cell) -> CellView<'_>
    ensures { seen_cell result ≡ cell.now }
{
    match cell {
        Cell::Null => CellView::Null,
        Cell::Flag(flag) => CellView::Flag(*flag),
        Cell::Small(number) => CellView::Small(*number),
        Cell::Whole(number) => CellView::Whole(*number),
        Cell::Text(text) => CellView::Text(text.as_str()),
    }
}

/// The rows as those that are to be written.
pub fn row_views(alloc: Global, rows: &[FullRow]) -> Result<Vec<RowView<'_>>, AllocError>
    ensures { IfOk result (λ views. views.items ≡ rows.now) }
{
    let mut views = Vec::with_capacity(alloc, rows.len())?;
    for row in rows {
        views.push(row_view(alloc, row)?)?;
    }
    Ok(views)
}

fn row_view(alloc: Global, row: &FullRow) -> Result<RowView<'_>, AllocError>
    ensures { IfOk result (λ view. view ≡ row.now) }
{
    Ok(RowView {
        commit_time: row.commit_time.clone()?,
        commit_seqno: row.commit_seqno.clone()?,
        record_key: row.record_key.as_str(),
        partition_path: row.partition_path.as_str(),
        file_name: row.file_name.as_str(),
        cells: cell_views(alloc, row.cells.as_slice())?,
    })
}

fn cell_views(alloc: Global, cells: &[Cell]) -> Result<Vec<CellView<'_>>, AllocError>
    ensures { IfOk result (λ views. map seen_cell views.items ≡ cells.now) }
{
    let mut views = Vec::with_capacity(alloc, cells.len())?;
    for cell in cells {
        views.push(cell_view(cell))?;
    }
    Ok(views)
}
