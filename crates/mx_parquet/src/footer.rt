ghost use Rattle.std.specs.Prelude.{◌≡◌, ◌≤◌, ◌<◌, ◌^◌, IfOk, length};
ghost use Rattle.mx_parquet.specs.Seen.{CanWrite};
ghost use Rattle.mx_parquet.specs.Columns.{columns_of};
ghost use Rattle.mx_parquet.specs.Shape as shape;

use crate::column::{HUDI_COUNT, column_at};
use crate::shape::{element, file_data, root_element, row_group};
use mx_schema::Column;
use mx_thrift::{Fields, Value, write_struct};
use sqlite_items::Items;
use std::alloc::{AllocError, Global};

/// The footer of a file of so many rows, whose chunks have so many bytes.
pub(crate) fn footer_of(
    alloc: Global,
    schema: &[Column],
    chunks: Items<Value>,
    size: u64,
    row_count: u64,
) -> Result<Vec<u8>, AllocError>
    requires columns { length schema.now ≤ 32 }
    requires size { size < 2 ^ 63 }
    requires row_count { row_count < 2 ^ 63 }
    requires writable { CanWrite (shape.file_data (shape.elements (columns_of schema.now)) (shape.row_group chunks size row_count) row_count) }
    ensures { IfOk result (λ bytes. bytes.items ≡ shape.struct_bytes (shape.file_data (shape.elements (columns_of schema.now)) (shape.row_group chunks size row_count) row_count)) }
{
    let group = row_group(alloc, chunks, size, row_count)?;
    let fields = file_data(alloc, elements(alloc, schema)?, group, row_count)?;
    bytes_of(alloc, &fields)
}

/// The bytes of a struct.
#[tactic(auto, unfolding(crate::specs::Seen::CanWrite, crate::specs::Shape::struct_bytes))]
pub(crate) fn bytes_of(alloc: Global, fields: &Fields) -> Result<Vec<u8>, AllocError>
    requires { CanWrite fields.now }
    ensures { IfOk result (λ bytes. bytes.items ≡ shape.struct_bytes fields.now) }
{
    write_struct(alloc, fields)
}

/// The elements of the root and of the columns.
fn elements(alloc: Global, schema: &[Column]) -> Result<Items<Value>, AllocError>
    requires { length schema.now ≤ 32 }
    ensures { IfOk result (λ items. items ≡ shape.elements (columns_of schema.now)) }
{
    let count = HUDI_COUNT + schema.len();
    let mut items = Items::new(alloc);
    items.push(Value::Struct(root_element(alloc, count as u32)?))?;
    for place in 0..count {
        let column = column_at(schema, place);
        items.push(Value::Struct(element(alloc, column)?))?;
    }
    Ok(items)
}
