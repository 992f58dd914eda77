use crate::error::{Feature, ParquetError};
use crate::opening_tests::{FOOTER, edited};
use crate::reading::{Contents, read_rows};
use crate::row::FullRow;
use crate::tests::{ONE_ROW, every_kind};
use mx_schema::Cell;
use std::alloc::{AllocError, AllocGlobal, Global};
use std::process::Abort;
use std::test::*;

/// A file of three columns in two row groups, of one to three pages a chunk. Levels stand as groups of eight and as
/// runs, a page has no values, and a header has fields that are passed over.
const TWO_GROUPS: &[u8] =
    b"PAR1\x15\x00\x15\x0a\x15\x0a,\x15\x02\x15\x00\x15\x06\x15\x06\x00\x00\x01\x00\x00\
    \x001\x15\x00\x15\x14\x15\x14,\x15\x04\x15\x00\x15\x06\x15\x06\x00\x00\x01\x00\x00\
    \x001\x01\x00\x00\x001\x15\x00\x15\x1e\x15\x1e,\x15\x06\x15\x00\x15\x06\x15\x06\x00\
    \x00\x01\x00\x00\x002\x01\x00\x00\x002\x01\x00\x00\x002\x15\x00\x15\x14\x15\x14,\x15\
    \x04\x15\x00\x15\x06\x15\x06\x00\x00\x01\x00\x00\x00a\x01\x00\x00\x00b\x15\x00\x15\
    \x0a\x15\x0a,\x15\x02\x15\x00\x15\x06\x15\x06\x00\x00\x01\x00\x00\x00c\x15\x00\x15\
    \x1e\x15\x1e,\x15\x06\x15\x00\x15\x06\x15\x06\x00\x00\x01\x00\x00\x00p\x01\x00\x00\
    \x00p\x01\x00\x00\x00p\x15\x00\x15\x1e\x15\x1e,\x15\x06\x15\x00\x15\x06\x15\x06\x00\
    \x00\x01\x00\x00\x00x\x01\x00\x00\x00x\x01\x00\x00\x00x\x15\x00\x15\x0e\x15\x0e\x15\
    \xf2\xc0\x01\x1c\x15\x04\x15\x00\x15\x06\x15\x06\x1c6\x02\x00\x00\x00\x02\x00\x00\
    \x00\x03\x01\x01\x15\x00\x15\x0e\x15\x0e,\x15\x02\x15\x00\x15\x06\x15\x06\x00\x00\
    \x02\x00\x00\x00\x02\x01\x00\x15\x00\x15\x08\x15\x08,\x15\x02\x15\x00\x15\x06\x15\
    \x06\x00\x00\x01\x00\x00\x00\x15\x00\x15\x08\x15\x08,\x15\x02\x15\x00\x15\x06\x15\
    \x06\x00\x00\xfe\xff\xff\xff\x15\x00\x15\x08\x15\x08,\x15\x02\x15\x00\x15\x06\x15\
    \x06\x00\x00\x02\x01\x00\x00\x15\x00\x15\x08\x15\x08,\x15\x00\x15\x00\x15\x06\x15\
    \x06\x00\x00\x00\x00\x00\x00\x15\x00\x15 \x15 ,\x15\x06\x15\x00\x15\x06\x15\x06\x00\
    \x00\x02\x00\x00\x00\x03\x05\x02\x00\x00\x00hi\x00\x00\x00\x00\x15\x00\x15\x14\x15\
    \x14,\x15\x04\x15\x00\x15\x06\x15\x06\x00\x00\x01\x00\x00\x001\x01\x00\x00\x001\x15\
    \x00\x15\x0a\x15\x0a,\x15\x02\x15\x00\x15\x06\x15\x06\x00\x00\x01\x00\x00\x002\x15\
    \x00\x15\x0a\x15\x0a,\x15\x02\x15\x00\x15\x06\x15\x06\x00\x00\x01\x00\x00\x002\x15\
    \x00\x15\x14\x15\x14,\x15\x04\x15\x00\x15\x06\x15\x06\x00\x00\x01\x00\x00\x00d\x01\
    \x00\x00\x00e\x15\x00\x15\x14\x15\x14,\x15\x04\x15\x00\x15\x06\x15\x06\x00\x00\x01\
    \x00\x00\x00p\x01\x00\x00\x00q\x15\x00\x15\x14\x15\x14,\x15\x04\x15\x00\x15\x06\x15\
    \x06\x00\x00\x01\x00\x00\x00x\x01\x00\x00\x00x\x15\x00\x15\x12\x15\x12,\x15\x04\x15\
    \x00\x15\x06\x15\x06\x00\x00\x04\x00\x00\x00\x02\x00\x02\x01\x01\x15\x00\x15\x10\x15\
    \x10,\x15\x04\x15\x00\x15\x06\x15\x06\x00\x00\xff\xff\xff\x7f\x00\x00\x00\x80\x15\
    \x00\x15\x18\x15\x18,\x15\x04\x15\x00\x15\x06\x15\x06\x00\x00\x02\x00\x00\x00\x03\
    \x01\x02\x00\x00\x00\xc3\xa4\x15\x02\x19\x9cH\x06schema\x15\x10\x00\x15\x0c%\x00\x18\
    \x13_hoodie_commit_time%\x00\x00\x15\x0c%\x00\x18\x14_hoodie_commit_seqno%\x00\x00\
    \x15\x0c%\x00\x18\x12_hoodie_record_key%\x00\x00\x15\x0c%\x00\x18\x16_hoodie_partiti\
    on_path%\x00\x00\x15\x0c%\x00\x18\x11_hoodie_file_name%\x00\x00\x15\x00%\x02\x18\x01\
    f\x00\x15\x02%\x00\x18\x01n\x00\x15\x0c%\x02\x18\x01t%\x00\x00\x16\x0a\x19,\x19\x8c&\
    \x08\x1c\x15\x0c\x19%\x00\x06\x19\x18\x13_hoodie_commit_time\x15\x00\x16\x06\x16b\
    \x16b&\x08\x00\x00&j\x1c\x15\x0c\x19%\x00\x06\x19\x18\x14_hoodie_commit_seqno\x15\
    \x00\x16\x06\x16@\x16@&j\x00\x00&\xaa\x01\x1c\x15\x0c\x19%\x00\x06\x19\x18\x12_hoodi\
    e_record_key\x15\x00\x16\x06\x16b\x16b&\xaa\x01\x00\x00&\x8c\x02\x1c\x15\x0c\x19%\
    \x00\x06\x19\x18\x16_hoodie_partition_path\x15\x00\x16\x06\x16@\x16@&\x8c\x02\x00\
    \x00&\xcc\x02\x1c\x15\x0c\x19%\x00\x06\x19\x18\x11_hoodie_file_name\x15\x00\x16\x06\
    \x16@\x16@&\xcc\x02\x00\x00&\x8c\x03\x1c\x15\x00\x19%\x00\x06\x19\x18\x01f\x15\x00\
    \x16\x06\x16p\x16p&\x8c\x03\x00\x00&\xfc\x03\x1c\x15\x02\x19%\x00\x06\x19\x18\x01n\
    \x15\x00\x16\x06\x16~\x16~&\xfc\x03\x00\x00&\xfa\x04\x1c\x15\x0c\x19%\x00\x06\x19\
    \x18\x01t\x15\x00\x16\x06\x16l\x16l&\xfa\x04\x00\x00\x16\xde\x05\x16\x06\x00\x19\x8c\
    &\xe6\x05\x1c\x15\x0c\x19%\x00\x06\x19\x18\x13_hoodie_commit_time\x15\x00\x16\x04\
    \x166\x166&\xe6\x05\x00\x00&\x9c\x06\x1c\x15\x0c\x19%\x00\x06\x19\x18\x14_hoodie_com\
    mit_seqno\x15\x00\x16\x04\x16X\x16X&\x9c\x06\x00\x00&\xf4\x06\x1c\x15\x0c\x19%\x00\
    \x06\x19\x18\x12_hoodie_record_key\x15\x00\x16\x04\x166\x166&\xf4\x06\x00\x00&\xaa\
    \x07\x1c\x15\x0c\x19%\x00\x06\x19\x18\x16_hoodie_partition_path\x15\x00\x16\x04\x166\
    \x166&\xaa\x07\x00\x00&\xe0\x07\x1c\x15\x0c\x19%\x00\x06\x19\x18\x11_hoodie_file_nam\
    e\x15\x00\x16\x04\x166\x166&\xe0\x07\x00\x00&\x96\x08\x1c\x15\x00\x19%\x00\x06\x19\
    \x18\x01f\x15\x00\x16\x04\x164\x164&\x96\x08\x00\x00&\xca\x08\x1c\x15\x02\x19%\x00\
    \x06\x19\x18\x01n\x15\x00\x16\x04\x162\x162&\xca\x08\x00\x00&\xfc\x08\x1c\x15\x0c\
    \x19%\x00\x06\x19\x18\x01t\x15\x00\x16\x04\x16:\x16:&\xfc\x08\x00\x00\x16\xd0\x03\
    \x16\x04\x00(\x07by hand\x006\x03\x00\x00PAR1";

/// The rows that it was made of.
const FIVE_ROWS: &str = "1 2 a p x|true,1,hi;1 2 b p x|null,-2,null;1 2 c p x|false,258,;\
    1 2 d p x|null,2147483647,\u{e4};1 2 e q x|true,-2147483648,null;";

fn cell_text(alloc: Global, cell: &Cell) -> Result<String, AllocError> {
    match cell {
        Cell::Null => String::from_str(alloc, "null"),
        Cell::Flag(true) => String::from_str(alloc, "true"),
        Cell::Flag(false) => String::from_str(alloc, "false"),
        Cell::Small(number) => format!(in alloc; "{number}"),
        Cell::Whole(number) => format!(in alloc; "{number}"),
        Cell::Text(text) => String::from_str(alloc, text.as_str()),
    }
}

fn put_row(alloc: Global, out: &mut String, row: &FullRow) -> Result<(), AllocError> {
    let texts = [
        &row.commit_time,
        &row.commit_seqno,
        &row.record_key,
        &row.partition_path,
    ];
    for text in texts {
        out.push_str(text.as_str())?;
        out.push(' ')?;
    }
    out.push_str(row.file_name.as_str())?;
    let mut mark = '|';
    for cell in row.cells.as_slice() {
        out.push(mark)?;
        let text = cell_text(alloc, cell)?;
        out.push_str(text.as_str())?;
        mark = ',';
    }
    out.push(';')?;
    Ok(())
}

// The rows as a text, a semicolon behind each.
fn rows_text(alloc: Global, rows: &[FullRow]) -> Result<String, AllocError> {
    let mut out = String::new(alloc);
    for row in rows {
        put_row(alloc, &mut out, row)?;
    }
    Ok(out)
}

fn contents_of<R: Abort + AllocGlobal>(rt: &R, file: &[u8]) -> Contents {
    read_rows(rt.alloc(), file).ok().expect(rt, "rows")
}

fn fault_of<R: AllocGlobal>(rt: &R, file: &[u8]) -> Option<ParquetError> {
    match read_rows(rt.alloc(), file) {
        Ok(_) => None,
        Err(error) => Some(error),
    }
}

fn reads<R: Abort + AllocGlobal>(
    rt: &R,
    file: &[u8],
    schema: &str,
    rows: &str,
) -> Result<(), Fail> {
    let read = contents_of(rt, file);
    let columns = read.schema.print(rt.alloc())?;
    assert_eq!(rt; columns.as_str(), schema);
    let text = rows_text(rt.alloc(), read.rows.as_slice())?;
    assert_eq!(rt; text.as_str(), rows);
    Ok(())
}

#[test]
fn the_file_of_one_row_is_read(rt: HostRuntime) -> Result<(), Fail> {
    let row = "20250101000000000 20250101000000000_0_0 a 2024-01-01 \
        11111111-1111-4111-8111-111111111111_0-0-0_20250101000000000.parquet|7;";
    reads(&rt, ONE_ROW, "a:int64", row)
}

#[test]
fn row_groups_and_pages_are_read_one_behind_the_other(rt: HostRuntime) -> Result<(), Fail> {
    reads(&rt, TWO_GROUPS, "f:boolean?,n:int32,t:string?", FIVE_ROWS)
}

#[test]
fn what_was_written_is_read(rt: HostRuntime) -> Result<(), Fail> {
    let row = "20250101000000000 20250101000000000_0_0 k 2024-01-01 \
        11111111-1111-4111-8111-111111111111_0-0-0_20250101000000000.parquet|";
    let wanted = format!(in rt.alloc();
        "{row}true,-2,1,hi;{row}null,null,null,null;{row}false,258,-1,;"
    )?;
    let file = every_kind(&rt)?;
    reads(
        &rt,
        &file,
        "f:boolean?,n:int32?,w:int64?,t:string?",
        wanted.as_str(),
    )
}

// How many of the first bytes of a file are read as a file, in place of all of them.
fn read_fronts<R: AllocGlobal>(rt: &R, file: &[u8]) -> usize {
    let mut count: usize = 0;
    for len in 0..file.len() {
        if fault_of(rt, &file[..len]).is_none() {
            count = count.saturating_add(1);
        }
    }
    count
}

#[test]
fn a_file_that_is_cut_short_is_refused(rt: HostRuntime) -> Result<(), Fail> {
    let file = every_kind(&rt)?;
    assert_eq!(rt; read_fronts(&rt, &file), 0);
    assert_eq!(rt; read_fronts(&rt, TWO_GROUPS), 0);
    Ok(())
}

#[test]
fn what_is_wrong_with_a_page_is_told(rt: HostRuntime) -> Result<(), Fail> {
    let page = Some(ParquetError::Unsupported {
        what: Feature::Page,
    });
    let encoding = Some(ParquetError::Unsupported {
        what: Feature::Encoding,
    });
    let cases = [
        (229, 0x04, page),
        (238, 0x02, encoding),
        (231, 0x12, Some(ParquetError::BadParquet { at: 228 })),
        (236, 0x04, Some(ParquetError::BadParquet { at: 245 })),
        (101, 0x02, Some(ParquetError::BadParquet { at: 101 })),
        (105, 0x80, Some(ParquetError::BadParquet { at: 101 })),
        (105, 0x00, Some(ParquetError::BadParquet { at: 84 })),
    ];
    for (at, byte, wanted) in cases {
        let file = edited(&rt, ONE_ROW, at, byte)?;
        let found = fault_of(&rt, &file);
        assert_eq!(rt; found, wanted, "{at}");
    }
    Ok(())
}

// The file of one row, with a footer that says 16,384 rows and as many values of each column.
fn claiming_most_rows(alloc: Global) -> Result<Vec<u8>, AllocError> {
    let mut file = Vec::from_slice(alloc, &ONE_ROW[..FOOTER])?;
    for at in FOOTER..685 {
        file.push(ONE_ROW[at])?;
        if ONE_ROW[at] == 0x16 && ONE_ROW[at + 1] == 0x02 {
            file.extend_from_slice(&[0x80, 0x80])?;
        }
    }
    file.extend_from_slice(b"\xc0\x01\x00\x00PAR1")?;
    Ok(file)
}

#[test]
fn rows_that_only_the_footer_has_are_told_at_the_first_chunk(rt: HostRuntime) -> Result<(), Fail> {
    let file = claiming_most_rows(rt.alloc())?;
    assert_eq!(rt; file.len(), 709);
    let found = fault_of(&rt, &file);
    assert_eq!(rt; found, Some(ParquetError::BadParquet { at: 4 }));
    Ok(())
}

#[test]
fn values_that_only_a_page_header_has_are_told_behind_it(rt: HostRuntime) -> Result<(), Fail> {
    let file = edited(&rt, &claiming_most_rows(rt.alloc())?, 12, 0x7e)?;
    let found = fault_of(&rt, &file);
    assert_eq!(rt; found, Some(ParquetError::BadParquet { at: 21 }));
    Ok(())
}
