ghost use Rattle.std.specs.Prelude.{◌≡◌, ◌<◌, IfOk};
ghost use Rattle.mx_commit.specs.Made as spec;
ghost use Rattle.mx_commit.specs.Written.{AreApartFiles, AreWritten, new_group};

use crate::{
    MakeError, NewFile, Written, first_double, new_files, new_files_are_apart, plan_commit,
    written_file,
};
use mx_ask::FileRows;
use mx_base::{FileId, Instant, Partition};
use mx_lists::{Listed, Text};
use mx_rows::{first_bad_row, first_too_many};
use mx_schema::{Row, RowValue, Schema};
use mx_store::Change;
use std::alloc::{AllocError, Global};
use std::test::Fail;

// A file of an ask: its id, its partition, and the keys and numbers of its rows.
type Asked = (&'static str, &'static str, &'static [(&'static str, i64)]);

const FIRST: &str = "11111111-1111-4111-8111-111111111111";

const SECOND: &str = "22222222-2222-4222-8222-222222222222";

const THIRD: &str = "33333333-3333-4333-8333-333333333333";

// The file of one row, as tools/check-parquet-with-thrift makes it.
const ONE_ROW: &[u8] =
    b"PAR1\x15\x00\x15*\x15*,\x15\x02\x15\x00\x15\x06\x15\x06\x00\x00\x11\x00\x00\
    \x0020250101000000000\x15\x00\x152\x152\
    ,\x15\x02\x15\x00\x15\x06\x15\x06\x00\x00\x15\x00\x00\x00202501010\
    00000000_0_0\x15\x00\x15\x0a\x15\x0a,\x15\x02\x15\x00\x15\
    \x06\x15\x06\x00\x00\x01\x00\x00\x00a\x15\x00\x15\x1c\x15\x1c,\x15\x02\x15\x00\x15\x06\x15\
    \x06\x00\x00\x0a\x00\x00\x002024-02-02\x15\x00\x15\x90\x01\x15\x90\
    \x01,\x15\x02\x15\x00\x15\x06\x15\x06\x00\x00D\x00\x00\x0033333333\
    -3333-4333-8333-33333333\
    3333_0-0-0_2025010100000\
    0000.parquet\x15\x00\x15\x10\x15\x10,\x15\x02\x15\x00\x15\
    \x06\x15\x06\x00\x00\x01\x00\x00\x00\x00\x00\x00\x00\x15\x02\x19|H\x05table\
    \x15\x0c\x00\x15\x0c%\x00\x18\x13_hoodie_commit_\
    time%\x00\x00\x15\x0c%\x00\x18\x14_hoodie_com\
    mit_seqno%\x00\x00\x15\x0c%\x00\x18\x12_hoodi\
    e_record_key%\x00\x00\x15\x0c%\x00\x18\x16_ho\
    odie_partition_path%\x00\x00\x15\x0c\
    %\x00\x18\x11_hoodie_file_name%\x00\x00\
    \x15\x04%\x00\x18\x01a\x00\x16\x02\x19\x1c\x19l&\x08\x1c\x15\x0c\x19%\x00\x06\x19\
    \x18\x13_hoodie_commit_time\x15\x00\x16\
    \x02\x16L\x16L&\x08\x00\x00&T\x1c\x15\x0c\x19%\x00\x06\x19\x18\x14_ho\
    odie_commit_seqno\x15\x00\x16\x02\x16T\x16\
    T&T\x00\x00&\xa8\x01\x1c\x15\x0c\x19%\x00\x06\x19\x18\x12_hoodi\
    e_record_key\x15\x00\x16\x02\x16,\x16,&\xa8\x01\x00\
    \x00&\xd4\x01\x1c\x15\x0c\x19%\x00\x06\x19\x18\x16_hoodie_pa\
    rtition_path\x15\x00\x16\x02\x16>\x16>&\xd4\x01\x00\
    \x00&\x92\x02\x1c\x15\x0c\x19%\x00\x06\x19\x18\x11_hoodie_fi\
    le_name\x15\x00\x16\x02\x16\xb6\x01\x16\xb6\x01&\x92\x02\x00\x00&\xc8\
    \x03\x1c\x15\x04\x19%\x00\x06\x19\x18\x01a\x15\x00\x16\x02\x162\x162&\xc8\x03\x00\
    \x00\x16\xf2\x03\x16\x02\x00(\x03mdt\x00\xb0\x01\x00\x00PAR1";

// The log of these files, as tools/print-index-objects prints it.
const LOG: &[u8] =
    b"#HUDI#\x00\x01\x00G\xf1\\\x0c\xc5R\x00\x00\x00\x00\x00\x00\x00\x01\xb9DATABLK*\x00\x00\x01E\x00\x0a2024-01-01\x00\x00\x00\x9a\x00\x04\x02\x04\x88\x0111111111-1111-4111-8111-111111111111_0-0-0_20250101000000000.parquet\xb8\x08\x00\x88\x0122222222-2222-4222-8222-222222222222_0-0-0_20250101000000000.parquet\x90\x0d\x00\x00\x00\x00\x00\x00\x0a2024-02-02\x00\x00\x00Q\x00\x04\x02\x02\x88\x0133333333-3333-4333-8333-333333333333_0-0-0_20250101000000000.parquet\xea\x0a\x00\x00\x00\x00\x00\x00\x12__all_partitions__\x00\x00\x00\"\x00\x02\x02\x04\x142024-01-01\x00\x00\x142024-02-02\x00\x00\x00\x00\x00\x00IDXROOT2\x00\x00\x00\x1c\x00\x00\x00\x01\x00\x00\x00\x00\x00\x00\x00\x00\x00\x00\x01Q\x00\x0a2024-01-01MDTTRAIL\x00\x00\x00\x01\x00\x00\x00\x00\x00\x00\x00\x00\x00\x00\x01Q\x00\x00\x00\x00\x00\x00\x00(\x00\x00\x00\x00\x00\x00\x00\x03\x00\x00\x00\x01\x00\x00\x00\x00\x00\x00\x00\x00\x00\x00\x00\x00\x00\x00\x00\x00\x00\x00\x00\x00";

// The changes of a commit of three files whose partitions and ids come in falling order; of the other data files only the
// beginning.
const CHANGES: [(&str, &[u8]); 9] = [
    (".hoodie/20250101000000000.commit.requested", b"{}"),
    (
        ".hoodie/20250101000000000.inflight",
        b"{\"paths\":[\"2024-02-02/33333333-3333-4333-8333-333333333333_0-0-0_20250101000000000.parquet\",\"2024-01-01/22222222-2222-4222-8222-222222222222_0-0-0_20250101000000000.parquet\",\"2024-01-01/11111111-1111-4111-8111-111111111111_0-0-0_20250101000000000.parquet\"]}",
    ),
    (
        "2024-02-02/33333333-3333-4333-8333-333333333333_0-0-0_20250101000000000.parquet",
        ONE_ROW,
    ),
    (
        "2024-01-01/22222222-2222-4222-8222-222222222222_0-0-0_20250101000000000.parquet",
        b"PAR1",
    ),
    (
        "2024-01-01/11111111-1111-4111-8111-111111111111_0-0-0_20250101000000000.parquet",
        b"PAR1",
    ),
    (
        ".hoodie/metadata/.hoodie/20250101000000000.deltacommit.inflight",
        b"{}",
    ),
    (
        ".hoodie/metadata/files/files-0000_20250101000000000.log",
        LOG,
    ),
    (
        ".hoodie/metadata/.hoodie/20250101000000000.deltacommit",
        b"{\"logs\":[\".hoodie/metadata/files/files-0000_20250101000000000.log\"]}",
    ),
    (
        ".hoodie/20250101000000000.commit",
        b"{\"partitionToWriteStats\":{\"2024-01-01\":[{\"fileId\":\"11111111-1111-4111-8111-111111111111\",\"fileSizeInBytes\":540,\"numWrites\":0,\"path\":\"2024-01-01/11111111-1111-4111-8111-111111111111_0-0-0_20250101000000000.parquet\",\"prevCommit\":\"null\"},{\"fileId\":\"22222222-2222-4222-8222-222222222222\",\"fileSizeInBytes\":840,\"numWrites\":2,\"path\":\"2024-01-01/22222222-2222-4222-8222-222222222222_0-0-0_20250101000000000.parquet\",\"prevCommit\":\"20241231000000000\"}],\"2024-02-02\":[{\"fileId\":\"33333333-3333-4333-8333-333333333333\",\"fileSizeInBytes\":693,\"numWrites\":1,\"path\":\"2024-02-02/33333333-3333-4333-8333-333333333333_0-0-0_20250101000000000.parquet\",\"prevCommit\":\"null\"}]}}",
    ),
];

// The changes of a commit without files.
const EMPTY_CHANGES: [(&str, &[u8]); 5] = [
    (".hoodie/20250101000000000.commit.requested", b"{}"),
    (".hoodie/20250101000000000.inflight", b"{\"paths\":[]}"),
    (
        ".hoodie/metadata/.hoodie/20250101000000000.deltacommit.inflight",
        b"{}",
    ),
    (
        ".hoodie/metadata/.hoodie/20250101000000000.deltacommit",
        b"{\"logs\":[]}",
    ),
    (
        ".hoodie/20250101000000000.commit",
        b"{\"partitionToWriteStats\":{}}",
    ),
];

fn instant(number: u64) -> Result<Instant, Fail> {
    match Instant::new(number) {
        Some(at) => Ok(at),
        None => Err(Fail::new("the number is an instant")),
    }
}

fn file_of(alloc: Global, asked: &Asked) -> Result<FileRows, Fail> {
    let (file, partition, rows) = *asked;
    Ok(FileRows {
        file: FileId::parse(file)?,
        partition: Partition::parse(alloc, partition)?,
        rows: rows_of(alloc, rows)?,
    })
}

fn rows_of(alloc: Global, asked: &[(&str, i64)]) -> Result<Listed<Row>, AllocError> {
    let mut rows = Listed::new(alloc);
    for &(key, number) in asked {
        let mut row = Listed::new(alloc);
        row.push(RowValue::Text(Text::from_str(alloc, key)?))?;
        row.push(RowValue::Whole(number))?;
        rows.push(row)?;
    }
    Ok(rows)
}

fn files_of(alloc: Global, asked: &[Asked]) -> Result<Vec<FileRows>, Fail> {
    let mut files = Vec::new(alloc);
    for asked in asked {
        files.push(file_of(alloc, asked)?)?;
    }
    Ok(files)
}

// The data files of files whose rows fit.
fn made_of(
    alloc: Global,
    schema: &Schema,
    at: Instant,
    files: &[FileRows],
) -> Result<Listed<NewFile>, Fail>
    ensures { IfOk result (λ made. made ≡ spec.new_files schema.now at files.now) }
{
    if first_too_many(files).is_some() || first_bad_row(schema, files).is_some() {
        return Err(Fail::new("the rows fit"));
    }
    match new_files(alloc, schema, at, files) {
        Ok(made) => Ok(made),
        Err(MakeError::TooLarge { .. }) => Err(Fail::new("the files are small")),
        Err(MakeError::NoMemory) => Err(Fail::new("there is memory")),
    }
}

// The commit that wrote the second file's group before, and none of the others.
fn before_of(file: &NewFile, before: Instant) -> Option<Instant> {
    if file.file.print().as_slice() == SECOND.as_bytes() {
        return Some(before);
    }
    None
}

// The entries of the files.
fn entries_of(
    alloc: Global,
    at: Instant,
    files: &[NewFile],
    before: Instant,
) -> Result<Vec<Written>, Fail>
    ensures { IfOk result (λ entries. AreWritten files.now at entries.items) }
{
    let mut entries = Vec::new(alloc);
    for file in files {
        entries.push(written_file(alloc, file, at, before_of(file, before))?)?;
    }
    Ok(entries)
}

// The changes of a commit of the data files of files that are apart.
fn planned(alloc: Global, files: &[FileRows]) -> Result<Vec<Change>, Fail> {
    let at = instant(20_250_101_000_000_000)?;
    let schema = Schema::parse(alloc, "a:int64")?;
    if at.number() == 0 || first_double(files).is_some() {
        return Err(Fail::new("the instant is meant, and no two files are of one group"));
    }
    planned_of(alloc, at, made_of(alloc, &schema, at, files)?)
}

fn planned_of(alloc: Global, at: Instant, made: Listed<NewFile>) -> Result<Vec<Change>, Fail>
    requires meant { 0 < at }
    requires apart { AreApartFiles new_group made }
{
    let before = instant(20_241_231_000_000_000)?;
    let entries = entries_of(alloc, at, made.as_slice(), before)?;
    Ok(plan_commit(alloc, at, made, entries.as_slice())?)
}

// Whether a change creates this at a path. Of a data file the beginning may stand for the whole.
fn is_create(change: &Change, path: &str, expected: &[u8]) -> bool {
    match change {
        Change::Create { path: found, bytes } if found.as_str() == path => {
            let front: &[u8] = b"PAR1";
            bytes.as_slice() == expected
                || (expected == front && bytes.as_slice().starts_with(front))
        }
        _ => false,
    }
}

#[test]
fn a_commit_writes_its_files_as_asked_and_its_entries_in_byte_order(
    rt: HostRuntime,
) -> Result<(), Fail> {
    let alloc = rt.alloc();
    let asked: [Asked; 3] = [
        (THIRD, "2024-02-02", &[("a", 1)]),
        (SECOND, "2024-01-01", &[("a", 1), ("b", 2)]),
        (FIRST, "2024-01-01", &[]),
    ];
    let changes = planned(alloc, files_of(alloc, &asked)?.as_slice())?;
    assert_eq!(rt; changes.len(), CHANGES.len());
    for (change, (path, bytes)) in changes.iter().zip(CHANGES) {
        assert!(rt; is_create(change, path, bytes), "{path}");
    }
    Ok(())
}

#[test]
fn a_commit_without_files_writes_no_log(rt: HostRuntime) -> Result<(), Fail> {
    let alloc = rt.alloc();
    let changes = planned(alloc, &[])?;
    assert_eq!(rt; changes.len(), EMPTY_CHANGES.len());
    for (change, (path, bytes)) in changes.iter().zip(EMPTY_CHANGES) {
        assert!(rt; is_create(change, path, bytes), "{path}");
    }
    Ok(())
}

#[test]
fn one_id_in_two_partitions_is_no_double(rt: HostRuntime) -> Result<(), Fail> {
    let alloc = rt.alloc();
    let asked: [Asked; 3] = [
        (FIRST, "2024-01-01", &[]),
        (SECOND, "2024-01-01", &[]),
        (FIRST, "2024-02-02", &[]),
    ];
    let files = files_of(alloc, &asked)?;
    assert!(rt; first_double(&files).is_none());
    Ok(())
}

#[test]
fn the_first_of_two_doubles_is_told(rt: HostRuntime) -> Result<(), Fail> {
    let alloc = rt.alloc();
    let asked: [Asked; 4] = [
        (FIRST, "2024-01-01", &[]),
        (SECOND, "2024-01-01", &[]),
        (SECOND, "2024-01-01", &[("a", 1)]),
        (FIRST, "2024-01-01", &[]),
    ];
    let files = files_of(alloc, &asked)?;
    let Some(file) = first_double(&files) else {
        return Err(Fail::new("the third file is a double"));
    };
    let id = file.file.to_text(alloc)?;
    assert_eq!(rt; id.as_str(), SECOND);
    assert_eq!(rt; file.rows.len(), 1);
    Ok(())
}

// How many bytes the first file is told to have that is too large.
fn too_large(alloc: Global, schema: &Schema, files: &[FileRows]) -> Result<Option<u64>, Fail> {
    match made_or_not(alloc, schema, files)? {
        Err(MakeError::TooLarge { bytes }) => Ok(Some(bytes)),
        Err(MakeError::NoMemory) => Err(Fail::new("there is memory")),
        Ok(_) => Ok(None),
    }
}

fn made_or_not(
    alloc: Global,
    schema: &Schema,
    files: &[FileRows],
) -> Result<Result<Listed<NewFile>, MakeError>, Fail> {
    if first_too_many(files).is_some() || first_bad_row(schema, files).is_some() {
        return Err(Fail::new("the rows fit"));
    }
    Ok(new_files(alloc, schema, instant(1)?, files))
}

// A file of so many rows with one text column: texts of 4,096 bytes, and the last one of this length.
fn large_file(alloc: Global, count: usize, last: usize) -> Result<FileRows, Fail> {
    let mut rows = Listed::new(alloc);
    for place in 0..count {
        let length = if place + 1 == count { last } else { 4096 };
        let mut row = Listed::new(alloc);
        row.push(RowValue::Text(Text::from_str(alloc, "k")?))?;
        row.push(RowValue::Text(Text::from_string("t".repeat(alloc, length)?)))?;
        rows.push(row)?;
    }
    Ok(FileRows {
        file: FileId::parse(FIRST)?,
        partition: Partition::parse(alloc, "2024-01-01")?,
        rows,
    })
}

#[test]
fn a_file_has_at_most_4_194_304_bytes(rt: HostRuntime) -> Result<(), Fail> {
    let alloc = rt.alloc();
    let schema = Schema::parse(alloc, "s:string")?;
    for (last, bytes) in [(1278, None), (1279, Some(4_194_305))] {
        let mut files = Vec::new(alloc);
        files.push(large_file(alloc, 1, 0)?)?;
        assert_eq!(rt; too_large(alloc, &schema, files.as_slice())?, None);
        files.push(large_file(alloc, 990, last)?)?;
        assert_eq!(rt; too_large(alloc, &schema, files.as_slice())?, bytes);
    }
    Ok(())
}
