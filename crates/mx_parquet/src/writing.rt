ghost use Rattle.std.specs.Prelude.{◌≡◌, ◌≤◌, ◌^◌, ◌-◌, ◌+◌, ◌++◌, length, min, IfOk, OnOk};
ghost use Rattle.std.specs.List.{AllByRecursion};
ghost use Rattle.mx_schema.specs.Columns.{IsSchema};
ghost use Rattle.mx_parquet.specs.Columns.{filled_columns};
ghost use Rattle.mx_parquet.specs.Encoding.{magic, chunk, chunks, chunk_structs, footer, encoding};
ghost use Rattle.mx_parquet.specs.Pages.{number};
ghost use Rattle.mx_parquet.specs.Seen.{filled};
ghost use Rattle.mx_parquet.specs.Fits.{FitsRow};
ghost use Rattle.std.specs.Int.{w32};

use crate::column::{ColumnView, HUDI_COUNT, column_at};
use crate::file_size::file_len;
use crate::footer::{bytes_of, footer_of};
use crate::page::{put, put_page, put_u32};
use crate::page_size::page_len;
use crate::shape::{column_chunk, page_header};
use crate::view::RowView;
use mx_schema::{Column, Schema};
use mx_thrift::Value;
use sqlite_items::Items;
use std::alloc::{AllocError, Global};

const MAGIC: [u8; 4] = *b"PAR1";

/// The length of the file of these rows, in bytes, or 2^64 - 1 where it is greater.
pub fn size_rows(schema: &Schema, rows: &[RowView<'_>]) -> u64
    requires { AllByRecursion (FitsRow schema.now) rows.now }
    ensures { result ≡ min (length (encoding schema.now rows.now)) (2 ^ 64 - 1) }
{
    file_len(schema.columns(), rows)
}

/// The one file of these rows, which has the size that `size_rows` says.
pub fn write_rows(
    alloc: Global,
    schema: &Schema,
    rows: &[RowView<'_>],
    size: u64,
) -> Result<Vec<u8>, AllocError>
    requires fits { AllByRecursion (FitsRow schema.now) rows.now }
    requires count { length rows.now ≤ 16_384 }
    requires size { size ≡ length (encoding schema.now rows.now) }
    requires room { size ≤ 4_194_304 }
    ensures { IfOk result (λ bytes. bytes.items ≡ encoding schema.now rows.now) }
{
    file_of(alloc, schema.columns(), rows, size as usize)
}

fn file_of(
    alloc: Global,
    schema: &[Column],
    rows: &[RowView<'_>],
    size: usize,
) -> Result<Vec<u8>, AllocError>
    requires schema { IsSchema schema.now }
    requires count { length rows.now ≤ 16_384 }
    requires room { length (encoding schema.now rows.now) ≤ 4_194_304 }
    ensures { IfOk result (λ bytes. bytes.items ≡ encoding schema.now rows.now) }
{
    let mut out = Vec::with_capacity(alloc, size)?;
    put_magic(&mut out)?;
    let structs = put_chunks(alloc, &mut out, schema, rows)?;
    put_footer(alloc, &mut out, schema, rows, structs)?;
    Ok(out)
}

#[tactic(auto, unfolding(crate::specs::Encoding::magic))]
fn put_magic(out: &mut Vec<u8>) -> Result<(), AllocError>
    ensures { OnOk result (out.new.items ≡ out.old.items ++ magic) }
{
    put(out, &MAGIC)
}

/// Writes the chunks at the end, and gives what the footer says of them.
fn put_chunks(
    alloc: Global,
    out: &mut Vec<u8>,
    schema: &[Column],
    rows: &[RowView<'_>],
) -> Result<Items<Value>, AllocError>
    requires columns { length schema.now ≤ 32 }
    requires count { length rows.now ≤ 16_384 }
    requires room { length out.old.items + length (chunks (filled_columns schema.now rows.now)) ≤ 4_194_304 }
    ensures bytes { OnOk result (out.new.items ≡ out.old.items ++ chunks (filled_columns schema.now rows.now)) }
    ensures structs { IfOk result (λ structs. structs ≡ chunk_structs (length out.old.items) (filled_columns schema.now rows.now)) }
{
    let mut structs = Items::new(alloc);
    for place in 0..HUDI_COUNT + schema.len() {
        let column = column_at(schema, place);
        let offset = len_of(out);
        put_chunk(alloc, out, column, rows, place)?;
        let size = len_of(out) - offset;
        let fields = column_chunk(alloc, column, rows.len() as u64, size, offset)?;
        structs.push(Value::Struct(fields))?;
    }
    Ok(structs)
}

/// Writes the chunk of a column, which stands at a place, at the end.
fn put_chunk(
    alloc: Global,
    out: &mut Vec<u8>,
    column: ColumnView<'_>,
    rows: &[RowView<'_>],
    place: usize,
) -> Result<(), AllocError>
    requires count { length rows.now ≤ 16_384 }
    requires room { length (chunk (filled column place rows.now)) ≤ 4_194_304 }
    ensures { OnOk result (out.new.items ≡ out.old.items ++ chunk (filled column.entry place rows.now)) }
{
    let size = page_len(column, rows, place) as u32;
    let header = page_header(alloc, rows.len() as u32, size)?;
    put(out, &bytes_of(alloc, &header)?)?;
    put_page(alloc, out, column, rows, place)
}

/// Writes the footer, its length and the magic behind the chunks.
fn put_footer(
    alloc: Global,
    out: &mut Vec<u8>,
    schema: &[Column],
    rows: &[RowView<'_>],
    structs: Items<Value>,
) -> Result<(), AllocError>
    requires schema { IsSchema schema.now }
    requires count { length rows.now ≤ 16_384 }
    requires chunks { out.old.items ≡ magic ++ chunks (filled_columns schema.now rows.now) }
    requires structs { structs ≡ chunk_structs 4 (filled_columns schema.now rows.now) }
    requires room { length out.old.items + length (footer schema.now rows.now) ≤ 4_194_304 }
    ensures { OnOk result (out.new.items ≡ out.old.items ++ (footer schema.now rows.now ++ number w32 (length (footer schema.now rows.now)) ++ magic)) }
{
    let size = len_of(out) - 4;
    let footer = footer_of(alloc, schema, structs, size, rows.len() as u64)?;
    put(out, &footer)?;
    put_u32(out, len_of(&footer) as u32)?;
    put_magic(out)?;
    Ok(())
}

fn len_of(bytes: &Vec<u8>) -> u64
    ensures { result ≡ length bytes.now.items }
{
    bytes.len() as u64
}
