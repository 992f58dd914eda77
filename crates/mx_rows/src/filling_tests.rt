ghost use Rattle.std.specs.Prelude.{IfSome};
ghost use Rattle.mx_rows.specs.Checks.{RowsFit};

use super::*;
use crate::tests::{GOOD, Given, files_of, schema_of};
use mx_ask::FileRows;
use mx_base::{Instant, Partition};
use mx_lists::Text;
use mx_parquet::{CellView, RowView};
use mx_schema::{Row, Schema};
use std::alloc::{AllocError, AllocGlobal, Global};
use std::process::Abort;
use std::test::*;

const FILE: &str = "11111111-1111-4111-8111-111111111111_0-0-0_20250101000000000.parquet";

// The rows of the only one of the files, where they fit.
fn only<'a>(schema: &Schema, files: &'a [FileRows]) -> Option<&'a [Row]>
    ensures { IfSome result (λ rows. RowsFit schema.now rows.now) }
{
    if first_bad_row(schema, files).is_some() {
        return None;
    }
    match files {
        [file] => Some(file.rows.as_slice()),
        _ => None,
    }
}

// A row with blanks between its texts and its cells.
fn told(alloc: Global, row: &RowView<'_>) -> Result<String, AllocError> {
    let time = row.commit_time();
    let seqno = row.commit_seqno();
    let key = row.record_key();
    let partition = row.partition_path();
    let name = row.file_name();
    let mut text = format!(in alloc; "{time} {seqno} {key} {partition} {name}")?;
    for cell in row.cells() {
        let cell = match *cell {
            CellView::Null => format!(in alloc; " null")?,
            CellView::Flag(flag) => format!(in alloc; " flag {flag}")?,
            CellView::Small(number) => format!(in alloc; " small {number}")?,
            CellView::Whole(number) => format!(in alloc; " whole {number}")?,
            CellView::Text(text) => format!(in alloc; " text {text}")?,
        };
        text.push_str(cell.as_str())?;
    }
    Ok(text)
}

// The rows of the file of this number.
fn filled<R: Abort + AllocGlobal>(
    rt: &R,
    schema: &str,
    number: u64,
    rows: &[&[Given<'_>]],
) -> Result<Vec<String>, AllocError> {
    let alloc = rt.alloc();
    let schema = schema_of(rt, schema);
    let files = files_of(rt, &[rows])?;
    let rows = only(&schema, files.as_slice()).expect(rt, "rows that fit");
    let partition = Partition::parse(alloc, "2024-01-01")
        .ok()
        .expect(rt, "a partition");
    let name = Text::from_str(alloc, FILE)?;
    let place = Place {
        at: Instant::new(20_250_101_000_000_000).expect(rt, "an instant"),
        number,
        partition: &partition,
        name: &name,
    };
    let mut texts = Vec::new(alloc);
    for row in &full_rows(alloc, &schema, &place, rows)? {
        texts.push(told(alloc, row)?)?;
    }
    Ok(texts)
}

// A row of the file begins and ends with these.
fn wanted(alloc: Global, front: &str, cells: &str) -> Result<String, AllocError> {
    format!(in alloc; "20250101000000000 20250101000000000_{front} 2024-01-01 {FILE} {cells}")
}

#[test]
fn a_row_of_a_file_has_the_five_columns_of_hudi_in_front(rt: HostRuntime) -> Result<(), Fail> {
    let alloc = rt.alloc();
    let b: &[Given<'_>] = &[Given::Text("b"), Given::Whole(2)];
    let full = filled(&rt, "a:int64", 0, &[GOOD, b])?;
    assert_eq!(rt; full.len(), 2);
    assert_eq!(rt; full[0], wanted(alloc, "0_0 a", "whole 1")?);
    assert_eq!(rt; full[1], wanted(alloc, "0_1 b", "whole 2")?);
    Ok(())
}

#[test]
fn the_cells_of_a_row_are_of_the_kinds_of_their_columns(rt: HostRuntime) -> Result<(), Fail> {
    let alloc = rt.alloc();
    let row: &[Given<'_>] = &[
        Given::Text("a"),
        Given::Whole(-2_147_483_648),
        Given::Text("\u{e9}"),
        Given::Flag(true),
    ];
    let nulls: &[Given<'_>] = &[
        Given::Text("b"),
        Given::Whole(7),
        Given::Null,
        Given::Flag(false),
    ];
    let full = filled(&rt, "a:int32,b:string?,c:boolean", 12, &[row, nulls])?;
    assert_eq!(rt; full.len(), 2);
    let first = wanted(alloc, "12_0 a", "small -2147483648 text \u{e9} flag true")?;
    assert_eq!(rt; full[0], first);
    let second = wanted(alloc, "12_1 b", "small 7 null flag false")?;
    assert_eq!(rt; full[1], second);
    Ok(())
}
