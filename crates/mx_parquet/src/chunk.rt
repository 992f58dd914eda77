ghost use Rattle.std.specs.Prelude.{◌≡◌, ◌+◌, ◌≤◌, ◌<◌, ◌^◌, length, map, take, drop, IfOk, MatchOption};
ghost use Rattle.mx_parquet.specs.declared.error.ParquetError.TheVariants as errors;
ghost use Rattle.mx_parquet.specs.Opening.{AnswersAt};
ghost use Rattle.mx_parquet.specs.Faults as faults;
ghost use Rattle.mx_parquet.specs.Faults.{TellsFault, IsPageFault, IsChunkFault};
ghost use Rattle.mx_parquet.specs.Chunks.{ReadsAt, IsHeaderIn, IsBodyIn, IsPageIn, FillPages, fitted, fitted_front};

use crate::error::{Failure, ParquetError};
use crate::header::{PageSize, size_of};
use crate::opening::thrift_error;
use crate::page_reading::page_of;
use mx_lists::Listed;
use mx_schema::{Cell, Column};
use mx_thrift::read_struct;
use std::alloc::Global;

/// The cells of a page, and the place behind it.
#[derive(Debug, Drop)]
struct PageCells {
    cells: Listed<Cell>,
    end: usize,
}

/// The cells of the pages that stand from a place on to the end, as many as a row group has rows.
pub(crate) fn pages_of(
    alloc: Global,
    column: &Column,
    row_count: usize,
    bytes: &[u8],
    offset: usize,
) -> Result<Listed<Cell>, ParquetError>
    requires { length bytes.now < 2 ^ 32 }
    ensures found { ReadsAt (map fitted) (λ cells. cells) (FillPages column.now row_count (drop offset bytes.now)) result }
    ensures fault { TellsFault (IsChunkFault column.now row_count bytes.now offset) result }
{
    let mut cells = Vec::new(alloc);
    let mut at = offset;
    while at < bytes.len() {
        let page = page_at(alloc, column, row_count - cells.len(), bytes, at)?;
        cells.append(&mut page.cells.into_vec())?;
        at = page.end;
    }
    if cells.len() != row_count {
        return Err(ParquetError::BadParquet { at: offset });
    }
    Ok(Listed::from_vec(cells))
}

/// The page at a place, which has at most so many cells.
fn page_at(
    alloc: Global,
    column: &Column,
    most: usize,
    bytes: &[u8],
    at: usize,
) -> Result<PageCells, ParquetError>
    requires short { length bytes.now < 2 ^ 32 }
    requires within { at ≤ length bytes.now }
    ensures found { ReadsAt fitted_front (λ page. (page.cells, drop page.end bytes.now)) (IsPageIn column.now most (drop at bytes.now)) result }
    ensures goes_on { IfOk result (λ page. at < page.end) }
    ensures fault { TellsFault (IsPageFault column.now most bytes.now (faults.header_at bytes.now at)) result }
{
    let (size, body) = header_at(alloc, bytes, at)?;
    body_at(alloc, column, most, size, bytes, body)
}

/// What the header of a page says that stands at a place, and the place behind it.
#[tactic(auto, unfolding(crate::specs::Faults::header_at))]
fn header_at(alloc: Global, bytes: &[u8], at: usize) -> Result<(PageSize, usize), ParquetError>
    requires { at ≤ length bytes.now }
    ensures found { ReadsAt (λ x. x) (λ x. (x.0, drop x.1 bytes.now)) (IsHeaderIn (drop at bytes.now)) result }
    ensures goes_on { IfOk result (λ x. (at < x.1) × (x.1 ≤ length bytes.now)) }
    ensures exact { AnswersAt result (faults.header_at bytes.now at) }
{
    match read_struct(alloc, bytes, at) {
        Ok((fields, end)) => match size_of(fields.as_slice()) {
            Ok(size) => Ok((size, end)),
            Err(flaw) => Err(Failure::Flawed { flaw }.at(at)),
        },
        Err(error) => Err(thrift_error(error)),
    }
}

/// The cells of a page that begins at a place behind its header.
fn body_at(
    alloc: Global,
    column: &Column,
    most: usize,
    size: PageSize,
    bytes: &[u8],
    at: usize,
) -> Result<PageCells, ParquetError>
    requires short { length bytes.now < 2 ^ 32 }
    requires within { at ≤ length bytes.now }
    ensures found { ReadsAt fitted_front (λ page. (page.cells, drop page.end bytes.now)) (IsBodyIn column.now most size (drop at bytes.now)) result }
    ensures behind { IfOk result (λ page. at ≤ page.end) }
    ensures place { TellsFault (λ e. e ≡ errors.BadParquet at) result }
{
    if size.value_count > most {
        return Err(ParquetError::BadParquet { at });
    }
    let Some(body) = bytes_at(bytes, at, size.size) else {
        return Err(ParquetError::BadParquet { at });
    };
    match page_of(alloc, column, size.value_count, body) {
        Ok(cells) => Ok(PageCells {
            cells,
            end: at + size.size,
        }),
        Err(Failure::NoMemory) => Err(ParquetError::NoMemory),
        Err(Failure::Flawed { .. }) => Err(ParquetError::BadParquet { at }),
    }
}

/// So many bytes from a place on.
fn bytes_at(bytes: &[u8], at: usize, count: usize) -> Option<&[u8]>
    requires { at ≤ length bytes.now }
    ensures { MatchOption result (length bytes.now < at + count) (λ found. (found.now ≡ take count (drop at bytes.now)) × (at + count ≤ length bytes.now)) }
{
    if count > bytes.len() - at {
        return None;
    }
    Some(&bytes[at..at + count])
}
