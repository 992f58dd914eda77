ghost use Rattle.std.specs.Prelude.{◌≡◌, ◌≤◌, ◌<◌, ◌^◌, IfOk};
ghost use Rattle.mx_parquet.specs.Shape as shape;
ghost use Rattle.mx_parquet.specs.Seen.{seen};

use crate::column::ColumnView;
use mx_lists::Bytes;
use mx_schema::ColumnKind;
use mx_thrift::{Field, Fields, Value};
use sqlite_items::Items;
use std::alloc::{AllocError, Global};

/// A field of 32 bits.
fn int(id: u8, number: u32) -> Field
    requires { number < 2 ^ 31 }
    ensures { result ≡ shape.int id number }
{
    Field {
        id: i16::from(id),
        value: Value::Int(number as i32),
    }
}

/// A field of 64 bits.
fn long(id: u8, number: u64) -> Field
    requires { number < 2 ^ 63 }
    ensures { result ≡ shape.long id number }
{
    Field {
        id: i16::from(id),
        value: Value::Long(number as i64),
    }
}

/// A field that is a text.
fn text(alloc: Global, id: u8, text: &str) -> Result<Field, AllocError>
    ensures { IfOk result (λ f. f ≡ shape.text id text.now) }
{
    let bytes = Bytes::from_slice(alloc, text.as_bytes())?;
    Ok(Field {
        id: i16::from(id),
        value: Value::Bytes(bytes),
    })
}

/// A field that is a struct.
fn inner(id: u8, fields: Fields) -> Field
    ensures { result ≡ shape.struct id fields }
{
    Field {
        id: i16::from(id),
        value: Value::Struct(fields),
    }
}

/// A field that is a list of structs.
fn items(id: u8, items: Items<Value>) -> Field
    ensures { result ≡ shape.items id items }
{
    Field {
        id: i16::from(id),
        value: Value::List { kind: 12, items },
    }
}

fn type_code(kind: ColumnKind) -> u32
    ensures value { result ≡ shape.type_code kind }
    ensures bound { result ≤ 6 }
{
    match kind {
        ColumnKind::Boolean => 0,
        ColumnKind::Int32 => 1,
        ColumnKind::Int64 => 2,
        ColumnKind::Text => 6,
    }
}

/// The header of a page of so many values and bytes.
pub(crate) fn page_header(alloc: Global, value_count: u32, size: u32) -> Result<Fields, AllocError>
    requires value_count { value_count < 2 ^ 31 }
    requires size { size < 2 ^ 31 }
    ensures { IfOk result (λ fields. fields ≡ shape.page_header value_count size) }
{
    let page = vec![in alloc; int(1, value_count), int(2, 0), int(3, 3), int(4, 3)]?;
    let page = inner(5, Items::from_vec(page));
    Ok(Items::from_vec(vec![in alloc; int(1, 0), int(2, size), int(3, size), page]?))
}

/// The element of a column.
pub(crate) fn element(alloc: Global, column: ColumnView<'_>) -> Result<Fields, AllocError>
    ensures { IfOk result (λ fields. fields ≡ shape.element (seen column.entry)) }
{
    let kind = int(1, type_code(column.kind));
    let repetition = int(3, u32::from(column.nullable));
    let name = text(alloc, 4, column.name)?;
    match column.kind {
        ColumnKind::Text => Ok(Items::from_vec(vec![in alloc; kind, repetition, name, int(6, 0)]?)),
        ColumnKind::Boolean | ColumnKind::Int32 | ColumnKind::Int64 => {
            Ok(Items::from_vec(vec![in alloc; kind, repetition, name]?))
        }
    }
}

/// The element of the root, with so many columns below it.
pub(crate) fn root_element(alloc: Global, count: u32) -> Result<Fields, AllocError>
    requires { count < 2 ^ 31 }
    ensures { IfOk result (λ fields. fields ≡ shape.root_element count) }
{
    let name = text(alloc, 4, "table")?;
    Ok(Items::from_vec(vec![in alloc; name, int(5, count)]?))
}

/// What the footer says of a chunk.
pub(crate) fn column_chunk(
    alloc: Global,
    column: ColumnView<'_>,
    value_count: u64,
    size: u64,
    offset: u64,
) -> Result<Fields, AllocError>
    requires value_count { value_count < 2 ^ 63 }
    requires size { size < 2 ^ 63 }
    requires offset { offset < 2 ^ 63 }
    ensures { IfOk result (λ fields. fields ≡ shape.column_chunk (seen column.entry) value_count size offset) }
{
    let column_data = column_data(alloc, column, value_count, size, offset)?;
    Ok(Items::from_vec(vec![in alloc; long(2, offset), inner(3, column_data)]?))
}

fn column_data(
    alloc: Global,
    column: ColumnView<'_>,
    value_count: u64,
    size: u64,
    offset: u64,
) -> Result<Fields, AllocError>
    requires value_count { value_count < 2 ^ 63 }
    requires size { size < 2 ^ 63 }
    requires offset { offset < 2 ^ 63 }
    ensures { IfOk result (λ fields. fields ≡ shape.column_data (seen column.entry) value_count size offset) }
{
    let encodings = encodings(alloc)?;
    let path = column_path(alloc, column.name)?;
    let fields = vec![in alloc;
        int(1, type_code(column.kind)),
        encodings,
        path,
        int(4, 0),
        long(5, value_count),
        long(6, size),
        long(7, size),
        long(9, offset),
    ]?;
    Ok(Items::from_vec(fields))
}

fn encodings(alloc: Global) -> Result<Field, AllocError>
    ensures { IfOk result (λ f. f ≡ shape.encodings) }
{
    let items = Items::from_vec(vec![in alloc; Value::Int(0), Value::Int(3)]?);
    Ok(Field {
        id: 2,
        value: Value::List { kind: 5, items },
    })
}

fn column_path(alloc: Global, name: &str) -> Result<Field, AllocError>
    ensures { IfOk result (λ f. f ≡ shape.column_path name.now) }
{
    let name = Value::Bytes(Bytes::from_slice(alloc, name.as_bytes())?);
    let items = Items::from_vec(vec![in alloc; name]?);
    Ok(Field {
        id: 3,
        value: Value::List { kind: 8, items },
    })
}

/// The row group of these chunks.
pub(crate) fn row_group(
    alloc: Global,
    chunks: Items<Value>,
    size: u64,
    row_count: u64,
) -> Result<Fields, AllocError>
    requires size { size < 2 ^ 63 }
    requires row_count { row_count < 2 ^ 63 }
    ensures { IfOk result (λ fields. fields ≡ shape.row_group chunks size row_count) }
{
    Ok(Items::from_vec(vec![in alloc; items(1, chunks), long(2, size), long(3, row_count)]?))
}

/// The footer of a file with this row group.
pub(crate) fn file_data(
    alloc: Global,
    elements: Items<Value>,
    group: Fields,
    row_count: u64,
) -> Result<Fields, AllocError>
    requires { row_count < 2 ^ 63 }
    ensures { IfOk result (λ fields. fields ≡ shape.file_data elements group row_count) }
{
    let groups = Items::from_vec(vec![in alloc; Value::Struct(group)]?);
    let creator = text(alloc, 6, "mdt")?;
    let fields = vec![in alloc;
        int(1, 1),
        items(2, elements),
        long(3, row_count),
        items(4, groups),
        creator,
    ]?;
    Ok(Items::from_vec(fields))
}
