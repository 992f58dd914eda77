use super::*;
use mx_lists::{Listed, Text};
use mx_schema::{Cell, Schema};
use std::alloc::{AllocError, AllocGlobal, Global};
use std::process::Abort;
use std::test::*;

const FILE: &str = "11111111-1111-4111-8111-111111111111_0-0-0_20250101000000000.parquet";

/// The file of one row, as `tools/check-parquet-with-thrift` makes it.
pub(super) const ONE_ROW: &[u8] =
    b"PAR1\x15\x00\x15*\x15*,\x15\x02\x15\x00\x15\x06\x15\x06\x00\x00\x11\x00\x00\
    \x0020250101000000000\x15\x00\x152\x152\
    ,\x15\x02\x15\x00\x15\x06\x15\x06\x00\x00\x15\x00\x00\x00202501010\
    00000000_0_0\x15\x00\x15\x0a\x15\x0a,\x15\x02\x15\x00\x15\
    \x06\x15\x06\x00\x00\x01\x00\x00\x00a\x15\x00\x15\x1c\x15\x1c,\x15\x02\x15\x00\x15\x06\x15\
    \x06\x00\x00\x0a\x00\x00\x002024-01-01\x15\x00\x15\x90\x01\x15\x90\
    \x01,\x15\x02\x15\x00\x15\x06\x15\x06\x00\x00D\x00\x00\x0011111111\
    -1111-4111-8111-11111111\
    1111_0-0-0_2025010100000\
    0000.parquet\x15\x00\x15\x10\x15\x10,\x15\x02\x15\x00\x15\
    \x06\x15\x06\x00\x00\x07\x00\x00\x00\x00\x00\x00\x00\x15\x02\x19|H\x05table\
    \x15\x0c\x00\x15\x0c%\x00\x18\x13_hoodie_commit_\
    time%\x00\x00\x15\x0c%\x00\x18\x14_hoodie_com\
    mit_seqno%\x00\x00\x15\x0c%\x00\x18\x12_hoodi\
    e_record_key%\x00\x00\x15\x0c%\x00\x18\x16_ho\
    odie_partition_path%\x00\x00\x15\x0c\
    %\x00\x18\x11_hoodie_file_name%\x00\x00\
    \x15\x04%\x00\x18\x01a\x00\x16\x02\x19\x1c\x19l&\x08\x1c\x15\x0c\x19%\x00\x06\x19\
    \x18\x13_hoodie_commit_time\x15\x00\x16\
    \x02\x16L\x16L&\x08\x00\x00&T\x1c\x15\x0c\x19%\x00\x06\x19\x18\x14_ho\
    odie_commit_seqno\x15\x00\x16\x02\x16T\x16\
    T&T\x00\x00&\xa8\x01\x1c\x15\x0c\x19%\x00\x06\x19\x18\x12_hoodi\
    e_record_key\x15\x00\x16\x02\x16,\x16,&\xa8\x01\x00\
    \x00&\xd4\x01\x1c\x15\x0c\x19%\x00\x06\x19\x18\x16_hoodie_pa\
    rtition_path\x15\x00\x16\x02\x16>\x16>&\xd4\x01\x00\
    \x00&\x92\x02\x1c\x15\x0c\x19%\x00\x06\x19\x18\x11_hoodie_fi\
    le_name\x15\x00\x16\x02\x16\xb6\x01\x16\xb6\x01&\x92\x02\x00\x00&\xc8\
    \x03\x1c\x15\x04\x19%\x00\x06\x19\x18\x01a\x15\x00\x16\x02\x162\x162&\xc8\x03\x00\
    \x00\x16\xf2\x03\x16\x02\x00(\x03mdt\x00\xb0\x01\x00\x00PAR1";

/// How long files of one column of 64-bit numbers are, by the keys of their rows.
const SIZES: [(&[&str], u64); 4] = [
    (&[], 540),
    (&["a"], 693),
    (&["abc"], 695),
    (&["a", "abc"], 842),
];

fn text(alloc: Global, text: &str) -> Result<Text, AllocError> {
    Text::from_str(alloc, text)
}

fn row_of(alloc: Global, key: &str, cells: Vec<Cell>) -> Result<FullRow, AllocError> {
    Ok(FullRow {
        commit_time: text(alloc, "20250101000000000")?,
        commit_seqno: text(alloc, "20250101000000000_0_0")?,
        record_key: text(alloc, key)?,
        partition_path: text(alloc, "2024-01-01")?,
        file_name: text(alloc, FILE)?,
        cells: Listed::from_vec(cells),
    })
}

// A row of one cell under each key.
fn numbers(alloc: Global, keys: &[&str]) -> Result<Vec<FullRow>, AllocError> {
    let mut rows = Vec::new(alloc);
    for key in keys {
        rows.push(row_of(alloc, key, vec![in alloc; Cell::Whole(7)]?)?)?;
    }
    Ok(rows)
}

// A row of one cell for each of the cells.
fn rows_of(alloc: Global, cells: Vec<Cell>) -> Result<Vec<FullRow>, AllocError> {
    let mut rows = Vec::new(alloc);
    for cell in cells {
        rows.push(row_of(alloc, "k", vec![in alloc; cell]?)?)?;
    }
    Ok(rows)
}

fn schema_of<R: Abort + AllocGlobal>(rt: &R, text: &str) -> Schema {
    Schema::parse(rt.alloc(), text).ok().expect(rt, "a schema")
}

fn size_of<R: Abort + AllocGlobal>(rt: &R, schema: &Schema, rows: &[FullRow]) -> Result<u64, Fail> {
    let views = row_views(rt.alloc(), rows)?;
    assert!(rt; rows_fit(schema, &views));
    Ok(size_rows(schema, &views))
}

fn written<R: Abort + AllocGlobal>(
    rt: &R,
    schema: &Schema,
    rows: &[FullRow],
) -> Result<Vec<u8>, Fail> {
    let views = row_views(rt.alloc(), rows)?;
    assert!(rt; rows_fit(schema, &views));
    assert!(rt; views.len() <= 16_384);
    let size = size_rows(schema, &views);
    assert!(rt; size <= 4_194_304);
    let out = write_rows(rt.alloc(), schema, &views, size)?;
    Ok(out)
}

#[test]
fn a_file_has_the_size_that_the_format_says(rt: HostRuntime) -> Result<(), Fail> {
    let schema = schema_of(&rt, "a:int64");
    for (keys, size) in SIZES {
        let rows = numbers(rt.alloc(), keys)?;
        assert_eq!(rt; size_of(&rt, &schema, &rows)?, size, "{keys:?}");
        let out = written(&rt, &schema, &rows)?;
        assert_eq!(rt; out.len() as u64, size, "{keys:?}");
    }
    Ok(())
}

#[test]
fn a_file_of_one_row_is_the_one_that_another_program_makes(rt: HostRuntime) -> Result<(), Fail> {
    let schema = schema_of(&rt, "a:int64");
    let rows = numbers(rt.alloc(), &["a"])?;
    let out = written(&rt, &schema, &rows)?;
    assert_eq!(rt; out.as_slice(), ONE_ROW);
    Ok(())
}

// The end of the last page, which the footer follows.
fn last_bytes<R: Abort + AllocGlobal>(rt: &R, out: &[u8], count: usize) -> Result<Vec<u8>, Fail> {
    assert!(rt; out.len() > 8);
    let tail = &out[out.len() - 8..];
    let footer = u32::from_le_bytes([tail[0], tail[1], tail[2], tail[3]]) as usize;
    assert!(rt; footer <= out.len() - 8);
    let end = out.len() - 8 - footer;
    assert!(rt; count <= end);
    Ok(Vec::from_slice(rt.alloc(), &out[end - count..end])?)
}

fn ends_with<R: Abort + AllocGlobal>(
    rt: &R,
    schema: &str,
    cells: Vec<Cell>,
    wanted: &[u8],
) -> Result<(), Fail> {
    let rows = rows_of(rt.alloc(), cells)?;
    let out = written(rt, &schema_of(rt, schema), &rows)?;
    let page = last_bytes(rt, &out, wanted.len())?;
    assert_eq!(rt; page.as_slice(), wanted, "{schema}");
    Ok(())
}

#[test]
fn numbers_and_texts_stand_one_behind_the_other(rt: HostRuntime) -> Result<(), Fail> {
    let alloc = rt.alloc();
    let small = vec![in alloc; Cell::Small(-2), Cell::Small(258)]?;
    ends_with(&rt, "a:int32", small, &[0xfe, 0xff, 0xff, 0xff, 2, 1, 0, 0])?;
    let texts = vec![in alloc;
        Cell::Text(text(alloc, "hi")?),
        Cell::Text(text(alloc, "")?),
    ]?;
    ends_with(
        &rt,
        "a:string",
        texts,
        b"\x02\x00\x00\x00hi\x00\x00\x00\x00",
    )
}

#[test]
fn a_null_has_a_level_and_no_value(rt: HostRuntime) -> Result<(), Fail> {
    let alloc = rt.alloc();
    let cells = vec![in alloc; Cell::Whole(1), Cell::Whole(-1), Cell::Null]?;
    let page = [
        4, 0, 0, 0, 0x04, 0x01, 0x02, 0x00, 1, 0, 0, 0, 0, 0, 0, 0, 0xff, 0xff, 0xff, 0xff, 0xff,
        0xff, 0xff, 0xff,
    ];
    ends_with(&rt, "a:int64?", cells, &page)
}

#[test]
fn truth_values_are_bits_the_lowest_first(rt: HostRuntime) -> Result<(), Fail> {
    let alloc = rt.alloc();
    let mut cells = Vec::new(alloc);
    for place in 0..9_u8 {
        cells.push(Cell::Flag(place == 0 || place == 3 || place == 8))?;
    }
    ends_with(&rt, "a:boolean", cells, &[0x00, 0x00, 0x09, 0x01])?;
    let cells = vec![in alloc; Cell::Null, Cell::Flag(false), Cell::Flag(true)]?;
    ends_with(
        &rt,
        "a:boolean?",
        cells,
        &[4, 0, 0, 0, 0x02, 0x00, 0x04, 0x01, 0x02],
    )
}

// A file of three rows with a cell of every kind and nulls.
pub(super) fn every_kind<R: Abort + AllocGlobal>(rt: &R) -> Result<Vec<u8>, Fail> {
    let alloc = rt.alloc();
    let hi = Cell::Text(text(alloc, "hi")?);
    let empty = Cell::Text(text(alloc, "")?);
    let cells = [
        vec![in alloc; Cell::Flag(true), Cell::Small(-2), Cell::Whole(1), hi]?,
        vec![in alloc; Cell::Null, Cell::Null, Cell::Null, Cell::Null]?,
        vec![in alloc; Cell::Flag(false), Cell::Small(258), Cell::Whole(-1), empty]?,
    ];
    let mut rows = Vec::new(alloc);
    for row in cells {
        rows.push(row_of(alloc, "k", row)?)?;
    }
    written(
        rt,
        &schema_of(rt, "f:boolean?,n:int32?,w:int64?,t:string?"),
        &rows,
    )
}

fn fits<R: Abort + AllocGlobal>(rt: &R, key: &str, cells: Vec<Cell>) -> Result<bool, Fail> {
    let alloc = rt.alloc();
    let rows = vec![in alloc; row_of(alloc, key, cells)?]?;
    let views = row_views(alloc, &rows)?;
    Ok(rows_fit(&schema_of(rt, "a:int64,s:string?"), &views))
}

fn long_text(alloc: Global, len: usize) -> Result<String, AllocError> {
    let mut text = String::new(alloc);
    for _ in 0..len {
        text.push('k')?;
    }
    Ok(text)
}

#[test]
fn a_row_fits_by_its_key(rt: HostRuntime) -> Result<(), Fail> {
    let alloc = rt.alloc();
    let most = long_text(alloc, 255)?;
    let more = long_text(alloc, 256)?;
    let cases = [
        ("k", true),
        (most.as_str(), true),
        ("", false),
        ("a\u{0}", false),
        (more.as_str(), false),
    ];
    for (key, wanted) in cases {
        let cells = vec![in alloc; Cell::Whole(1), Cell::Null]?;
        let found = fits(&rt, key, cells)?;
        assert_eq!(rt; found, wanted, "{}", key.len());
    }
    Ok(())
}

#[test]
fn a_row_fits_by_its_cells(rt: HostRuntime) -> Result<(), Fail> {
    let alloc = rt.alloc();
    let most = Cell::Text(text(alloc, long_text(alloc, 4096)?.as_str())?);
    let more = Cell::Text(text(alloc, long_text(alloc, 4097)?.as_str())?);
    let cases = [
        (vec![in alloc; Cell::Whole(1), most]?, true),
        (vec![in alloc; Cell::Whole(1), more]?, false),
        (vec![in alloc; Cell::Whole(1)]?, false),
        (
            vec![in alloc; Cell::Whole(1), Cell::Null, Cell::Null]?,
            false,
        ),
        (vec![in alloc; Cell::Null, Cell::Null]?, false),
        (vec![in alloc; Cell::Small(1), Cell::Null]?, false),
        (vec![in alloc; Cell::Whole(1), Cell::Flag(true)]?, false),
    ];
    for (cells, wanted) in cases {
        let count = cells.len();
        let found = fits(&rt, "k", cells)?;
        assert_eq!(rt; found, wanted, "{count}");
    }
    Ok(())
}
