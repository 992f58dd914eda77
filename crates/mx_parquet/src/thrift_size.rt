ghost use Rattle.std.specs.Prelude.{◌≡◌, ◌+◌, ◌*◌, ◌-◌, ◌≤◌, ◌^◌, pos, length, min};
ghost use Rattle.mx_avro.specs.Encoding.{groups, long_encoding};
ghost use Rattle.mx_thrift.specs.Encoding.{list_head};
ghost use Rattle.mx_parquet.specs.Shape.{struct_bytes, converted, element, root_element, column_chunk, page_header};
ghost use Rattle.mx_parquet.specs.Seen.{seen};

use crate::column::ColumnView;
use mx_schema::ColumnKind;

/// How many bytes a number has, with seven bits in each.
pub(crate) fn groups_len(number: u64) -> u64
    ensures value { result ≡ length (groups 9 number) }
    ensures bound { result ≤ 10 }
{
    let mut len = 1;
    let mut rest = number;
    while rest >= 128 {
        rest /= 128;
        len += 1;
    }
    len
}

/// How many bytes a number has as its zigzag.
pub(crate) fn long_len(number: u64) -> u64
    ensures value { result ≡ length (long_encoding (pos number)) }
    ensures bound { result ≤ 10 }
{
    groups_len(number.saturating_mul(2))
}

/// The length of what stands in front of so many items of a list.
pub(crate) fn head_len(count: u64) -> u64
    ensures value { result ≡ length (list_head 12 count) }
    ensures bound { result ≤ 11 }
{
    if count < 15 { 1 } else { 1 + groups_len(count) }
}

/// The length of the header of a page of so many values and bytes.
pub(crate) fn header_len(value_count: u64, page_len: u64) -> u64
    ensures value { result ≡ length (struct_bytes (page_header value_count page_len)) }
    ensures bound { result ≤ 44 }
{
    14 + long_len(value_count) + 2 * long_len(page_len)
}

/// The length of the root's element, with so many columns below it.
pub(crate) fn root_len(count: u64) -> u64
    ensures value { result ≡ length (struct_bytes (root_element count)) }
    ensures bound { result ≤ 20 }
{
    9 + long_len(count)
}

/// The length of a column's element, or 2^64 - 1 where it is greater.
pub(crate) fn element_len(column: ColumnView<'_>) -> u64
    ensures { result ≡ min (length (struct_bytes (element (seen column.entry)))) (2 ^ 64 - 1) }
{
    name_len(column.name).saturating_add(fixed_element_len(column.kind))
}

/// The length of an element without its name.
fn fixed_element_len(kind: ColumnKind) -> u64
    ensures value { result ≡ 6 + 2 * length (converted kind) }
    ensures bound { result ≤ 8 }
{
    match kind {
        ColumnKind::Boolean | ColumnKind::Int32 | ColumnKind::Int64 => 6,
        ColumnKind::Text => 8,
    }
}

/// The length of a name behind its length.
fn name_len(name: &str) -> u64
    ensures { result ≡ min (length (groups 9 (length name.now)) + length name.now) (2 ^ 64 - 1) }
{
    groups_len(name.len() as u64).saturating_add(name.len() as u64)
}

/// The length of what the footer says of a chunk, or 2^64 - 1 where it is greater.
pub(crate) fn column_chunk_len(
    column: ColumnView<'_>,
    value_count: u64,
    size: u64,
    offset: u64,
) -> u64
    ensures { result ≡ min (length (struct_bytes (column_chunk (seen column.entry) value_count size offset))) (2 ^ 64 - 1) }
{
    let numbers = 2 * long_len(offset) + long_len(value_count) + 2 * long_len(size);
    name_len(column.name).saturating_add(18 + numbers)
}
