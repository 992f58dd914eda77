ghost use Rattle.std.specs.Prelude.{◌≡◌, IfOk, None};

use crate::{CommitError, commit};
use mx_ask::{FileRows, Limit};
use mx_base::{FileId, Instant, Part, Partition, Path};
use mx_lists::{Listed, Text};
use mx_props::Props;
use mx_schema::{Row, RowValue, Schema};
use mx_store::{MemStore, QuietStore};
use mx_world::{ChangeError, Mirror, World};
use std::alloc::{AllocError, Global};
use std::marker::Brand;
use std::test::Fail;

pub(crate) const MOMENT: u64 = 20_250_101_000_000_000;

// The log of one file of 693 bytes, as tools/print-index-objects prints it.
const LOG: &[u8] =
    b"#HUDI#\x00\x01\x00G\xf1\\\x0c\xc5R\x00\x00\x00\x00\x00\x00\x00\x01\x02DATABLK*\x00\x00\x00\x8e\x00\x0a2024-01-01\x00\x00\x00Q\x00\x04\x02\x02\x88\x0111111111-1111-4111-8111-111111111111_0-0-0_20250101000000000.parquet\xea\x0a\x00\x00\x00\x00\x00\x00\x12__all_partitions__\x00\x00\x00\x15\x00\x02\x02\x02\x142024-01-01\x00\x00\x00\x00\x00\x00IDXROOT2\x00\x00\x00\x1c\x00\x00\x00\x01\x00\x00\x00\x00\x00\x00\x00\x00\x00\x00\x00\x9a\x00\x0a2024-01-01MDTTRAIL\x00\x00\x00\x01\x00\x00\x00\x00\x00\x00\x00\x00\x00\x00\x00\x9a\x00\x00\x00\x00\x00\x00\x00(\x00\x00\x00\x00\x00\x00\x00\x02\x00\x00\x00\x01\x00\x00\x00\x00\x00\x00\x00\x00\x00\x00\x00\x00\x00\x00\x00\x00\x00\x00\x00\x00";

// The file of one row, as tools/check-parquet-with-thrift makes it.
const ONE_ROW: &[u8] =
    b"PAR1\x15\x00\x15*\x15*,\x15\x02\x15\x00\x15\x06\x15\x06\x00\x00\x11\x00\x00\
    \x0020250101000000000\x15\x00\x152\x152\
    ,\x15\x02\x15\x00\x15\x06\x15\x06\x00\x00\x15\x00\x00\x00202501010\
    00000000_0_0\x15\x00\x15\x0a\x15\x0a,\x15\x02\x15\x00\x15\
    \x06\x15\x06\x00\x00\x01\x00\x00\x00a\x15\x00\x15\x1c\x15\x1c,\x15\x02\x15\x00\x15\x06\x15\
    \x06\x00\x00\x0a\x00\x00\x002024-01-01\x15\x00\x15\x90\x01\x15\x90\
    \x01,\x15\x02\x15\x00\x15\x06\x15\x06\x00\x00D\x00\x00\x0011111111\
    -1111-4111-8111-11111111\
    1111_0-0-0_2025010100000\
    0000.parquet\x15\x00\x15\x10\x15\x10,\x15\x02\x15\x00\x15\
    \x06\x15\x06\x00\x00\x01\x00\x00\x00\x00\x00\x00\x00\x15\x02\x19|H\x05table\
    \x15\x0c\x00\x15\x0c%\x00\x18\x13_hoodie_commit_\
    time%\x00\x00\x15\x0c%\x00\x18\x14_hoodie_com\
    mit_seqno%\x00\x00\x15\x0c%\x00\x18\x12_hoodi\
    e_record_key%\x00\x00\x15\x0c%\x00\x18\x16_ho\
    odie_partition_path%\x00\x00\x15\x0c\
    %\x00\x18\x11_hoodie_file_name%\x00\x00\
    \x15\x04%\x00\x18\x01a\x00\x16\x02\x19\x1c\x19l&\x08\x1c\x15\x0c\x19%\x00\x06\x19\
    \x18\x13_hoodie_commit_time\x15\x00\x16\
    \x02\x16L\x16L&\x08\x00\x00&T\x1c\x15\x0c\x19%\x00\x06\x19\x18\x14_ho\
    odie_commit_seqno\x15\x00\x16\x02\x16T\x16\
    T&T\x00\x00&\xa8\x01\x1c\x15\x0c\x19%\x00\x06\x19\x18\x12_hoodi\
    e_record_key\x15\x00\x16\x02\x16,\x16,&\xa8\x01\x00\
    \x00&\xd4\x01\x1c\x15\x0c\x19%\x00\x06\x19\x18\x16_hoodie_pa\
    rtition_path\x15\x00\x16\x02\x16>\x16>&\xd4\x01\x00\
    \x00&\x92\x02\x1c\x15\x0c\x19%\x00\x06\x19\x18\x11_hoodie_fi\
    le_name\x15\x00\x16\x02\x16\xb6\x01\x16\xb6\x01&\x92\x02\x00\x00&\xc8\
    \x03\x1c\x15\x04\x19%\x00\x06\x19\x18\x01a\x15\x00\x16\x02\x162\x162&\xc8\x03\x00\
    \x00\x16\xf2\x03\x16\x02\x00(\x03mdt\x00\xb0\x01\x00\x00PAR1";

// The objects of a commit of one file, in the order in which they are made.
const OBJECTS: [(&str, &[u8]); 7] = [
    (".hoodie/20250101000000000.commit.requested", b"{}"),
    (
        ".hoodie/20250101000000000.inflight",
        b"{\"paths\":[\"2024-01-01/11111111-1111-4111-8111-111111111111_0-0-0_20250101000000000.parquet\"]}",
    ),
    (
        "2024-01-01/11111111-1111-4111-8111-111111111111_0-0-0_20250101000000000.parquet",
        ONE_ROW,
    ),
    (
        ".hoodie/metadata/.hoodie/20250101000000000.deltacommit.inflight",
        b"{}",
    ),
    (
        ".hoodie/metadata/files/files-0000_20250101000000000.log",
        LOG,
    ),
    (
        ".hoodie/metadata/.hoodie/20250101000000000.deltacommit",
        b"{\"logs\":[\".hoodie/metadata/files/files-0000_20250101000000000.log\"]}",
    ),
    (
        ".hoodie/20250101000000000.commit",
        b"{\"partitionToWriteStats\":{\"2024-01-01\":[{\"fileId\":\"11111111-1111-4111-8111-111111111111\",\"fileSizeInBytes\":693,\"numWrites\":1,\"path\":\"2024-01-01/11111111-1111-4111-8111-111111111111_0-0-0_20250101000000000.parquet\",\"prevCommit\":\"null\"}]}}",
    ),
];

pub(crate) fn config(alloc: Global, schema: &str) -> Result<Props, Fail> {
    let available = Listed::from_vec(vec![in alloc; Part::Files]?);
    let Ok(schema) = Schema::parse(alloc, schema) else {
        return Err(Fail::new("the schema is one"));
    };
    match Props::new(available, None, schema) {
        Some(config) => Ok(config),
        None => Err(Fail::new("the config is one")),
    }
}

// A table of no objects whose store's call of this number fails and is not applied.
pub(crate) fn table(
    alloc: Global,
    last: u64,
    failing: u64,
) -> Result<World<QuietStore, Brand>, Fail>
    ensures { IfOk result (λ table. table.doubt ≡ None) }
{
    table_of(alloc, "a:int64", last, failing)
}

// The same of a schema.
pub(crate) fn table_of(
    alloc: Global,
    schema: &str,
    last: u64,
    failing: u64,
) -> Result<World<QuietStore, Brand>, Fail>
    ensures { IfOk result (λ table. table.doubt ≡ None) }
{
    let mut store = MemStore::empty(alloc);
    store.fail(failing, false)?;
    let mirror = Mirror::of(alloc, config(alloc, schema)?, &[], &[])?;
    match Instant::new(last) {
        Some(last) => Ok(World::over(QuietStore::over(store), mirror, last, 0)),
        None => Err(Fail::new("the last instant is one")),
    }
}

// A row of a key and a number.
fn row(alloc: Global, key: &str, number: i64) -> Result<Row, AllocError> {
    let mut row = Listed::new(alloc);
    row.push(RowValue::Text(Text::from_str(alloc, key)?))?;
    row.push(RowValue::Whole(number))?;
    Ok(row)
}

pub(crate) fn file_with(alloc: Global, id: &str, rows: Listed<Row>) -> Result<FileRows, Fail> {
    Ok(FileRows {
        file: FileId::parse(id)?,
        partition: Partition::parse(alloc, "2024-01-01")?,
        rows,
    })
}

pub(crate) fn file(alloc: Global, id: &str) -> Result<FileRows, Fail> {
    let mut rows = Listed::new(alloc);
    rows.push(row(alloc, "a", 1)?)?;
    file_with(alloc, id, rows)
}

// So many files of the partition, each of a group of its own.
pub(crate) fn files(alloc: Global, count: u32) -> Result<Vec<FileRows>, Fail> {
    let mut files = Vec::new(alloc);
    for number in 0..count {
        let id = format!(in alloc; "{number:08}-1111-4111-8111-111111111111")?;
        files.push(file(alloc, id.as_str())?)?;
    }
    Ok(files)
}

// The word of the answer to a commit.
pub(crate) fn committed(
    alloc: Global,
    table: &mut World<QuietStore, Brand>,
    files: &[FileRows],
) -> Result<&'static str, Fail>
    requires sure { table.old.doubt ≡ None }
{
    Ok(match commit(alloc, table, files) {
        Ok(_) => "committed",
        Err(
            CommitError::TooMany {
                what: Limit::Rows,
                ..
            },
        ) => "too many rows",
        Err(CommitError::TooMany { .. }) => "too many",
        Err(CommitError::DuplicateGroup { .. }) => "double",
        Err(CommitError::BadRow { .. }) => "bad row",
        Err(CommitError::DuplicateRow { .. }) => "double row",
        Err(CommitError::TooLarge { .. }) => "too large",
        Err(CommitError::InstantsUsedUp) => "used up",
        Err(
            CommitError::Stopped {
                why: ChangeError::StoreFault,
            },
        ) => "fault",
        Err(CommitError::Stopped { .. }) => "stopped",
    })
}

// Whether the bytes stand at the path.
fn stands(
    alloc: Global,
    table: &mut World<QuietStore, Brand>,
    path: &str,
    expected: &[u8],
) -> Result<bool, Fail> {
    let path = Path::parse(alloc, path)?;
    match table.read_object(alloc, &path) {
        Ok(Some(bytes)) => Ok(bytes.as_slice() == expected),
        Ok(None) => Ok(false),
        Err(_) => Err(Fail::new("the object is read")),
    }
}

fn one_file(alloc: Global) -> Result<Vec<FileRows>, Fail> {
    let mut files = Vec::new(alloc);
    files.push(file(alloc, "11111111-1111-4111-8111-111111111111")?)?;
    Ok(files)
}

#[test]
fn a_commit_of_one_file_makes_its_seven_objects(rt: HostRuntime) -> Result<(), Fail> {
    let alloc = rt.alloc();
    let mut table = table(alloc, MOMENT - 1, 100)?;
    let said = committed(alloc, &mut table, one_file(alloc)?.as_slice())?;
    assert_eq!(rt; said, "committed");
    assert_eq!(rt; table.seq(), 7);
    assert_eq!(rt; table.last().number(), MOMENT);
    for (path, bytes) in OBJECTS {
        let found = stands(alloc, &mut table, path, bytes)?;
        assert!(rt; found, "{path}");
    }
    Ok(())
}

// The word of a commit of so many files, and the number of changes.
pub(crate) fn made(alloc: Global, count: u32, last: u64) -> Result<(&'static str, u64), Fail> {
    let mut table = table(alloc, last, 100)?;
    let said = committed(alloc, &mut table, files(alloc, count)?.as_slice())?;
    Ok((said, table.seq()))
}

#[test]
fn a_commit_makes_six_changes_and_one_more_for_each_file_and_five_without(
    rt: HostRuntime,
) -> Result<(), Fail> {
    let alloc = rt.alloc();
    assert_eq!(rt; made(alloc, 0, MOMENT)?, ("committed", 5));
    assert_eq!(rt; made(alloc, 2, MOMENT)?, ("committed", 8));
    assert_eq!(rt; made(alloc, 16, MOMENT)?, ("committed", 22));
    Ok(())
}

#[test]
fn a_commit_stops_at_the_change_that_fails(rt: HostRuntime) -> Result<(), Fail> {
    let alloc = rt.alloc();
    for failing in 0..7_u64 {
        let mut table = table(alloc, MOMENT - 1, failing)?;
        let said = committed(alloc, &mut table, one_file(alloc)?.as_slice())?;
        assert_eq!(rt; said, "fault");
        assert_eq!(rt; table.seq(), failing);
        assert_eq!(rt; table.last().number(), MOMENT);
    }
    Ok(())
}

#[test]
fn no_commit_is_made_behind_the_greatest_instant(rt: HostRuntime) -> Result<(), Fail> {
    let alloc = rt.alloc();
    assert_eq!(rt; made(alloc, 1, 99_999_999_999_999_999)?, ("used up", 0));
    assert_eq!(rt; made(alloc, 17, 99_999_999_999_999_999)?, ("too many", 0));
    Ok(())
}
