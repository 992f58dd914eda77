ghost use Rattle.std.specs.Prelude.{◌≡◌, ◌≤◌, ◌<◌, ◌^◌, ◌+◌, ◌-◌, nat_le, min};
ghost use Rattle.mx_parquet.specs.Shape as shape;
ghost use Rattle.mx_parquet.specs.Reading.{Gives, Answers, each_in};
ghost use Rattle.mx_parquet.specs.Footer as footers;
ghost use Rattle.mx_parquet.specs.Footer.{data_in, rows_in, layout_in};

use crate::elements::{columns_of, kind_of};
use crate::error::{Failure, Feature, Flaw};
use crate::fields::{
    as_bytes, as_struct, count_of, int_of, is, is_missing, list_of, long_of, struct_of,
};
use crate::layout::{ChunkPlace, Group, Layout};
use mx_schema::{Column, ColumnKind};
use mx_thrift::{Field, Value};
use sqlite_items::Items;
use std::alloc::Global;

/// The most rows that a file may have.
const MOST_ROWS: usize = 16_384;

/// What the footer of a file of a length says.
#[tactic(auto, unfolding(crate::specs::Footer::layout_in))]
pub(crate) fn layout_of(alloc: Global, len: usize, footer: &[Field]) -> Result<Layout, Failure>
    ensures { Answers result (layout_in len footer.now) }
{
    let _version = int_of(footer, 1)?;
    let columns = columns_of(alloc, footer)?;
    let row_count = count_of(long_of(footer, 3)?)?;
    let items = list_of(footer, 12, 4)?;
    let groups = groups_of(alloc, len, columns.as_slice(), items)?;
    if !has_rows(groups.as_slice(), row_count) {
        return Err(Failure::Flawed { flaw: Flaw::Bad });
    }
    Ok(Layout {
        columns,
        row_count,
        groups,
    })
}

/// Whether groups have so many rows, and a file may have them.
fn has_rows(groups: &[Group], row_count: usize) -> bool
    ensures { result ≡ footers.has_rows row_count groups.now }
{
    row_count <= MOST_ROWS && rows_of(groups) == row_count
}

/// How many rows groups have, or 2^64 - 1 where they have more.
fn rows_of(groups: &[Group]) -> usize
    ensures { result ≡ min (rows_in groups.now) (2 ^ 64 - 1) }
{
    let mut row_count: usize = 0;
    let mut rest = groups;
    while let Some((group, behind)) = rest.split_first() {
        row_count = row_count.saturating_add(group.row_count);
        rest = behind;
    }
    row_count
}

fn groups_of(
    alloc: Global,
    len: usize,
    columns: &[Column],
    items: &[Value],
) -> Result<Items<Group>, Failure>
    ensures { Answers result (each_in (footers.group_at len columns.now) items.now) }
{
    let mut groups = Items::new(alloc);
    let mut rest = items;
    while let Some((item, behind)) = rest.split_first() {
        groups.push(group_at(alloc, len, columns, item)?)?;
        rest = behind;
    }
    Ok(groups)
}

/// A row group.
#[tactic(auto, unfolding(crate::specs::Footer::group_at))]
fn group_at(alloc: Global, len: usize, columns: &[Column], value: &Value) -> Result<Group, Failure>
    ensures { Answers result (footers.group_at len columns.now value.now) }
{
    let group = as_struct(value)?;
    let values = list_of(group, 12, 1)?;
    let _size = long_of(group, 2)?;
    let row_count = count_of(long_of(group, 3)?)?;
    let chunks = chunks_of(alloc, len, row_count, columns, values)?;
    Ok(Group { row_count, chunks })
}

/// A chunk of each column.
fn chunks_of(
    alloc: Global,
    len: usize,
    row_count: usize,
    columns: &[Column],
    values: &[Value],
) -> Result<Items<ChunkPlace>, Failure>
    ensures { Answers result (footers.chunks_in len row_count columns.now values.now) }
{
    let mut places = Items::new(alloc);
    let mut columns = columns;
    let mut values = values;
    while let Some((column, more)) = columns.split_first() {
        let Some((value, behind)) = values.split_first() else {
            return Err(Failure::Flawed { flaw: Flaw::Bad });
        };
        places.push(chunk_at(len, row_count, column, value)?)?;
        columns = more;
        values = behind;
    }
    if !values.is_empty() {
        return Err(Failure::Flawed { flaw: Flaw::Bad });
    }
    Ok(places)
}

/// Where the chunk of a column stands.
#[tactic(auto, unfolding(crate::specs::Footer::chunk_at))]
fn chunk_at(
    len: usize,
    row_count: usize,
    column: &Column,
    value: &Value,
) -> Result<ChunkPlace, Flaw>
    ensures { result ≡ footers.chunk_at len row_count column.now value.now }
{
    let chunk = as_struct(value)?;
    let _offset = long_of(chunk, 2)?;
    data_of(len, row_count, column, struct_of(chunk, 3)?)
}

/// Where the chunk of a column stands, by its ColumnMetaData.
#[tactic(auto, unfolding(crate::specs::Footer::data_in))]
fn data_of(
    len: usize,
    row_count: usize,
    column: &Column,
    fields: &[Field],
) -> Result<ChunkPlace, Flaw>
    ensures { result ≡ data_in len row_count column.now fields.now }
{
    let _kind = typed(column.kind, int_of(fields, 1)?)?;
    let _encodings = list_of(fields, 5, 2)?;
    let path = list_of(fields, 8, 3)?;
    let _name = named(column.name.as_str().as_bytes(), path)?;
    let _codec = uncompressed(int_of(fields, 4)?)?;
    let _count = counted(row_count, long_of(fields, 5)?)?;
    let _whole = long_of(fields, 6)?;
    let size = count_of(long_of(fields, 7)?)?;
    let offset = count_of(long_of(fields, 9)?)?;
    if !is_missing(fields, 11) {
        return Err(Flaw::Unsupported {
            what: Feature::Page,
        });
    }
    placed(len, offset, size)
}

fn typed(kind: ColumnKind, code: i32) -> Result<ColumnKind, Flaw>
    ensures { result ≡ footers.typed kind code }
{
    let found = kind_of(code)?;
    if is(code, type_code(kind)) {
        Ok(found)
    } else {
        Err(Flaw::Bad)
    }
}

fn type_code(kind: ColumnKind) -> u8
    ensures { result ≡ shape.type_code kind }
{
    match kind {
        ColumnKind::Boolean => 0,
        ColumnKind::Int32 => 1,
        ColumnKind::Int64 => 2,
        ColumnKind::Text => 6,
    }
}

fn named<'a>(name: &[u8], path: &'a [Value]) -> Result<&'a [u8], Flaw>
    ensures { Gives (λ text. text.now) result (footers.named name.now path.now) }
{
    let [value] = path else {
        return Err(Flaw::Bad);
    };
    let text = as_bytes(value)?;
    if text == name {
        Ok(text)
    } else {
        Err(Flaw::Bad)
    }
}

fn uncompressed(codec: i32) -> Result<i32, Flaw>
    ensures { result ≡ footers.uncompressed codec }
{
    if is(codec, 0) {
        Ok(codec)
    } else {
        Err(Flaw::Unsupported {
            what: Feature::Codec,
        })
    }
}

pub(crate) fn counted(wanted: usize, number: i64) -> Result<usize, Flaw>
    ensures { result ≡ footers.counted wanted number }
{
    let count = count_of(number)?;
    if count == wanted {
        Ok(count)
    } else {
        Err(Flaw::Bad)
    }
}

fn placed(len: usize, offset: usize, size: usize) -> Result<ChunkPlace, Flaw>
    ensures { result ≡ footers.placed len offset size }
{
    if is_within(len, offset, size) {
        Ok(ChunkPlace { offset, size })
    } else {
        Err(Flaw::Bad)
    }
}

fn is_within(len: usize, offset: usize, size: usize) -> bool
    ensures { result ≡ nat_le (offset + size) len }
{
    size <= len && offset <= len - size
}
