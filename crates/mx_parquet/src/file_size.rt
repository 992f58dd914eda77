ghost use Rattle.std.specs.Prelude.{◌≡◌, ◌-◌, ◌≤◌, ◌^◌, length, min, flat_map};
ghost use Rattle.mx_thrift.specs.Encoding.{written_value};
ghost use Rattle.mx_parquet.specs.Columns.{columns_of, filled_columns};
ghost use Rattle.mx_parquet.specs.Shape.{struct_bytes, element};
ghost use Rattle.mx_parquet.specs.Encoding.{chunk, chunks, chunk_structs, encoding};
ghost use Rattle.mx_parquet.specs.Seen.{filled};

use crate::column::{ColumnView, HUDI_COUNT, column_at};
use crate::page_size::page_len;
use crate::thrift_size::{column_chunk_len, element_len, head_len, header_len, long_len, root_len};
use crate::view::RowView;
use mx_schema::Column;

/// The length of the file of these rows, or 2^64 - 1 where it is greater.
pub(crate) fn file_len(schema: &[Column], rows: &[RowView<'_>]) -> u64
    requires { length schema.now ≤ 32 }
    ensures { result ≡ min (length (encoding schema.now rows.now)) (2 ^ 64 - 1) }
{
    let sizes = sizes_of(schema, rows);
    let count = (HUDI_COUNT + schema.len()) as u64;
    let heads = head_len(1 + count) + root_len(count) + head_len(count);
    let numbers = 2 * long_len(rows.len() as u64) + long_len(sizes.chunks);
    sizes
        .chunks
        .saturating_add(sizes.elements)
        .saturating_add(sizes.structs)
        .saturating_add(28 + heads + numbers)
}

/// How many bytes the chunks have, the elements of the columns, and what the footer says of the chunks; or 2^64 - 1
/// where they have more.
#[derive(Clone, Copy, Drop)]
struct Sizes {
    chunks: u64,
    elements: u64,
    structs: u64,
}

fn sizes_of(schema: &[Column], rows: &[RowView<'_>]) -> Sizes
    requires { length schema.now ≤ 32 }
    ensures chunks { result.chunks ≡ min (length (chunks (filled_columns schema.now rows.now))) (2 ^ 64 - 1) }
    ensures elements { result.elements ≡ min (length (flat_map (λ column. struct_bytes (element column)) (columns_of schema.now))) (2 ^ 64 - 1) }
    ensures structs { result.structs ≡ min (length (flat_map (λ v. (written_value v).1) (chunk_structs 4 (filled_columns schema.now rows.now)))) (2 ^ 64 - 1) }
{
    let mut sizes = Sizes {
        chunks: 0,
        elements: 0,
        structs: 0,
    };
    for place in 0..HUDI_COUNT + schema.len() {
        let column = column_at(schema, place);
        let size = chunk_len(column, rows, place);
        let offset = sizes.chunks.saturating_add(4);
        let fields = column_chunk_len(column, rows.len() as u64, size, offset);
        sizes.chunks = sizes.chunks.saturating_add(size);
        sizes.elements = sizes.elements.saturating_add(element_len(column));
        sizes.structs = sizes.structs.saturating_add(fields);
    }
    sizes
}

/// The length of the chunk of a column, which stands at a place, or 2^64 - 1 where it is greater.
fn chunk_len(column: ColumnView<'_>, rows: &[RowView<'_>], place: usize) -> u64
    ensures { result ≡ min (length (chunk (filled column.entry place rows.now))) (2 ^ 64 - 1) }
{
    let page = page_len(column, rows, place);
    page.saturating_add(header_len(rows.len() as u64, page))
}
