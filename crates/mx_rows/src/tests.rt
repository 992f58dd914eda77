use super::*;
use mx_ask::FileRows;
use mx_base::{FileId, Partition};
use mx_lists::{Listed, Text};
use mx_schema::{Row, RowValue, Schema};
use std::alloc::{AllocError, AllocGlobal, Global};
use std::process::Abort;
use std::test::*;

/// An element of a row.
#[derive(Clone, Copy)]
pub(super) enum Given<'a> {
    Null,
    Flag(bool),
    Whole(i64),
    Text(&'a str),
}

fn row_of(alloc: Global, elements: &[Given<'_>]) -> Result<Row, AllocError> {
    let mut row = Listed::new(alloc);
    for element in elements {
        row.push(match *element {
            Given::Null => RowValue::Null,
            Given::Flag(flag) => RowValue::Flag(flag),
            Given::Whole(number) => RowValue::Whole(number),
            Given::Text(text) => RowValue::Text(Text::from_str(alloc, text)?),
        })?;
    }
    Ok(row)
}

fn rows_of(alloc: Global, rows: &[&[Given<'_>]]) -> Result<Listed<Row>, AllocError> {
    let mut file = Listed::new(alloc);
    for row in rows {
        file.push(row_of(alloc, row)?)?;
    }
    Ok(file)
}

pub(super) fn files_of<R: Abort + AllocGlobal>(
    rt: &R,
    files: &[&[&[Given<'_>]]],
) -> Result<Vec<FileRows>, AllocError> {
    let mut out = Vec::new(rt.alloc());
    for file in files {
        out.push(file_with(rt, rows_of(rt.alloc(), file)?))?;
    }
    Ok(out)
}

fn file_with<R: Abort + AllocGlobal>(rt: &R, rows: Listed<Row>) -> FileRows {
    FileRows {
        file: FileId::parse("11111111-1111-4111-8111-111111111111")
            .ok()
            .expect(rt, "a file id"),
        partition: Partition::parse(rt.alloc(), "2024-01-01")
            .ok()
            .expect(rt, "a partition"),
        rows,
    }
}

pub(super) fn schema_of<R: Abort + AllocGlobal>(rt: &R, text: &str) -> Schema {
    Schema::parse(rt.alloc(), text).ok().expect(rt, "a schema")
}

// The first bad place of files of one column of 64-bit numbers.
fn place_of<R: Abort + AllocGlobal>(
    rt: &R,
    files: &[&[&[Given<'_>]]],
) -> Result<Option<BadRow>, AllocError> {
    let schema = schema_of(rt, "a:int64");
    let files = files_of(rt, files)?;
    Ok(first_bad_row(&schema, files.as_slice()))
}

pub(super) const GOOD: &[Given<'static>] = &[Given::Text("a"), Given::Whole(1)];

const AGAIN: &[Given<'static>] = &[Given::Text("a"), Given::Whole(2)];

const B: &[Given<'static>] = &[Given::Text("b"), Given::Whole(1)];

const AB: &[Given<'static>] = &[Given::Text("ab"), Given::Whole(1)];

const SHORT: &[Given<'static>] = &[Given::Text("a")];

const LONG: &[Given<'static>] = &[Given::Text("a"), Given::Whole(1), Given::Whole(2)];

const EMPTY_KEY: &[Given<'static>] = &[Given::Text(""), Given::Whole(1)];

const NO_KEY: &[Given<'static>] = &[Given::Whole(1), Given::Whole(1)];

const BAD_CELL: &[Given<'static>] = &[Given::Text("b"), Given::Text("1")];

/// The first bad place of files of one column of 64-bit numbers.
const PLACES: [(&[&[&[Given<'static>]]], Option<(u64, u64, u32)>); 7] = [
    (&[], None),
    (&[&[GOOD], &[], &[GOOD, GOOD]], None),
    (&[&[SHORT]], Some((0, 0, 1))),
    (&[&[LONG]], Some((0, 0, 2))),
    (&[&[&[]]], Some((0, 0, 0))),
    (&[&[GOOD, BAD_CELL], &[EMPTY_KEY]], Some((0, 1, 1))),
    (&[&[GOOD], &[GOOD, GOOD, NO_KEY, SHORT]], Some((1, 2, 0))),
];

/// The key of the first row that has that of an earlier one.
const DOUBLES: [(&[&[&[Given<'static>]]], Option<&str>); 7] = [
    (&[], None),
    (&[&[GOOD, AGAIN]], Some("a")),
    (&[&[GOOD], &[AGAIN]], None),
    (&[&[GOOD, B, AB]], None),
    (&[&[NO_KEY, NO_KEY, GOOD, &[]]], None),
    (&[&[GOOD, B, B, AGAIN]], Some("b")),
    (&[&[GOOD, B], &[NO_KEY, B, GOOD, B, GOOD]], Some("b")),
];

#[test]
fn the_first_bad_place_is_in_the_order_of_files_rows_and_elements(
    rt: HostRuntime,
) -> Result<(), Fail> {
    for (files, place) in PLACES {
        let wanted = place.map(|(file, row, column)| BadRow { file, row, column });
        assert_eq!(rt; place_of(&rt, files)?, wanted, "{place:?}");
    }
    Ok(())
}

// The first bad element of a row of a 32-bit number, a text that may be null and a truth value.
fn element_of<R: Abort + AllocGlobal>(
    rt: &R,
    row: [Given<'_>; 4],
) -> Result<Option<u32>, AllocError> {
    let schema = schema_of(rt, "a:int32,b:string?,c:boolean");
    let files = files_of(rt, &[&[&row]])?;
    Ok(first_bad_row(&schema, files.as_slice()).map(|bad| bad.column))
}

#[test]
fn a_row_is_bad_at_its_first_element_out_of_range(rt: HostRuntime) -> Result<(), Fail> {
    use Given::{Flag, Null, Text, Whole};
    let alloc = rt.alloc();
    let key = "k".repeat(alloc, 255)?;
    let long_key = "k".repeat(alloc, 256)?;
    let text = "t".repeat(alloc, 4096)?;
    let long_text = "t".repeat(alloc, 4097)?;
    let yes = Flag(true);
    let cases = [
        ([Text(key.as_str()), Whole(2_147_483_647), Null, yes], None),
        (
            [Text("k"), Whole(-2_147_483_648), Text(text.as_str()), yes],
            None,
        ),
        ([Text(long_key.as_str()), Whole(0), Null, yes], Some(0)),
        ([Text(""), Whole(0), Null, yes], Some(0)),
        ([Text("a\u{0}b"), Whole(0), Null, yes], Some(0)),
        ([Whole(1), Whole(0), Null, yes], Some(0)),
        ([Text("k"), Whole(2_147_483_648), Null, yes], Some(1)),
        ([Text("k"), Whole(-2_147_483_649), Null, Null], Some(1)),
        ([Text("k"), Null, Null, yes], Some(1)),
        (
            [Text("k"), Whole(0), Text(long_text.as_str()), yes],
            Some(2),
        ),
        ([Text("k"), Whole(0), Whole(1), yes], Some(2)),
        ([Text("k"), Whole(0), Text(""), Null], Some(3)),
        ([Text("k"), Whole(0), Text(""), Whole(1)], Some(3)),
    ];
    for (row, element) in cases {
        assert_eq!(rt; element_of(&rt, row)?, element, "{element:?}");
    }
    Ok(())
}

// Whether the first double of files is this key.
fn has_double<R: Abort + AllocGlobal>(
    rt: &R,
    files: &[&[&[Given<'_>]]],
    wanted: Option<&str>,
) -> Result<bool, AllocError> {
    let files = files_of(rt, files)?;
    let found = first_double(rt.alloc(), files.as_slice())?;
    Ok(match (found, wanted) {
        (Some(found), Some(wanted)) => found.as_str() == wanted,
        (None, None) => true,
        _ => false,
    })
}

#[test]
fn the_first_row_with_the_key_of_an_earlier_one_of_its_file_is_found(
    rt: HostRuntime,
) -> Result<(), Fail> {
    for (files, wanted) in DOUBLES {
        assert!(rt; has_double(&rt, files, wanted)?, "{wanted:?}");
    }
    Ok(())
}

fn empty_rows(alloc: Global, count: usize) -> Result<Listed<Row>, AllocError> {
    let mut rows = Listed::new(alloc);
    for _ in 0..count {
        rows.push(Listed::new(alloc))?;
    }
    Ok(rows)
}

// How many rows the first of two files has that has too many.
fn too_many<R: Abort + AllocGlobal>(
    rt: &R,
    first: usize,
    second: usize,
) -> Result<Option<u64>, AllocError> {
    let mut files = Vec::new(rt.alloc());
    files.push(file_with(rt, empty_rows(rt.alloc(), first)?))?;
    files.push(file_with(rt, empty_rows(rt.alloc(), second)?))?;
    Ok(first_too_many(files.as_slice()))
}

#[test]
fn a_file_has_at_most_16_384_rows(rt: HostRuntime) -> Result<(), Fail> {
    let cases = [
        (16_384, 16_384, None),
        (2, 16_385, Some(16_385)),
        (16_386, 16_385, Some(16_386)),
    ];
    for (first, second, found) in cases {
        assert_eq!(rt; too_many(&rt, first, second)?, found);
    }
    assert_eq!(rt; first_too_many(&[]), None);
    Ok(())
}
