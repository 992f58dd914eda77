// Folders that are read, and those that show damage.
use crate::tests::{EMPTY_BASE, begins};
use crate::{ReadError, read_folder};
use mx_base::{FileId, Path};
use mx_meta::{CommitMeta, WriteStat};
use mx_model::Action;
use mx_store::{MemStore, Store};
use std::alloc::Global;
use std::test::Fail;

// Whether the folder is not read, and this is why: the path that is damaged, or another word.
fn is_refused(alloc: Global, store: &mut MemStore, word: &str) -> bool {
    match read_folder(alloc, store) {
        Ok(_) => false,
        Err(why) => is_reason(&why, word),
    }
}

fn is_reason(why: &ReadError, word: &str) -> bool {
    match why {
        ReadError::NotATable => word == "no table",
        ReadError::Version { found } => *found == 5 && word == "version 5",
        ReadError::Damaged { path } => path.as_str() == word,
        ReadError::StoreFault => word == "fault",
        ReadError::NoMemory => word == "no memory",
    }
}

// Whether the folder is read, and these are its paths.
fn holds(alloc: Global, store: &mut MemStore, names: &[&str], others: &[&str]) -> bool {
    match read_folder(alloc, store) {
        Ok(folder) => {
            are_paths(folder.names.as_slice(), names) && are_paths(folder.others.as_slice(), others)
        }
        Err(_) => false,
    }
}

fn are_paths(paths: &[Path], expected: &[&str]) -> bool {
    if paths.len() != expected.len() {
        return false;
    }
    for (path, text) in paths.iter().zip(expected) {
        if path.as_str() != *text {
            return false;
        }
    }
    true
}

fn put(alloc: Global, store: &mut MemStore, object: (&str, &[u8])) -> Result<(), Fail> {
    let path = Path::parse(alloc, object.0)?;
    match store.put(alloc, &path, object.1) {
        Ok(()) => Ok(()),
        Err(_) => Err(Fail::new("the bytes are put")),
    }
}

fn put_all(alloc: Global, store: &mut MemStore, objects: &[(&str, &[u8])]) -> Result<(), Fail> {
    for object in objects {
        put(alloc, store, *object)?;
    }
    Ok(())
}

// A new table, and in it these objects.
fn table_with(alloc: Global, objects: &[(&str, &[u8])]) -> Result<MemStore, Fail> {
    let mut store = MemStore::empty(alloc);
    if !begins(alloc, &mut store, "made")? {
        return Err(Fail::new("a new table is made"));
    }
    put_all(alloc, &mut store, objects)?;
    Ok(store)
}

const COMMIT: (&str, &[u8]) = (
    ".hoodie/20250101000000000.commit",
    b"{\"partitionToWriteStats\":{}}",
);

const DELTA: &str = ".hoodie/metadata/.hoodie/20250101000000000.deltacommit";

const LOG: &str = ".hoodie/metadata/files/files-0000_20250101000000000.log";

const REQUESTED: &str = ".hoodie/20250101000000000.commit.requested";

const INFLIGHT: &str = ".hoodie/20250101000000000.inflight";

const NAMES_LOG: &[u8] =
    b"{\"logs\":[\".hoodie/metadata/files/files-0000_20250101000000000.log\"]}";

const OTHER_INSTANT: &[u8] =
    b"{\"paths\":[\"p/11111111-1111-4111-8111-111111111111_0-0-0_20250101000000001.parquet\"]}";

const BASE: &str = ".hoodie/metadata/files/files-0000_00000000000000000010.hfile";

// The first log without its last byte.
const CUT_LOG: &[u8] =
    b"#HUDI#\x00\x01\x00G\xf1\\\x0c\xc5R\x00\x00\x00\x00\x00\x00\x00\x01\x01DATABLK*\x00\x00\x00\x8d\x00\x0a2024-01-01\x00\x00\x00P\x00\x04\x02\x02\x88\x0111111111-1111-4111-8111-111111111111_0-0-0_20250101000000000.parquet\x0a\x00\x00\x00\x00\x00\x00\x12__all_partitions__\x00\x00\x00\x15\x00\x02\x02\x02\x142024-01-01\x00\x00\x00\x00\x00\x00IDXROOT2\x00\x00\x00\x1c\x00\x00\x00\x01\x00\x00\x00\x00\x00\x00\x00\x00\x00\x00\x00\x99\x00\x0a2024-01-01MDTTRAIL\x00\x00\x00\x01\x00\x00\x00\x00\x00\x00\x00\x00\x00\x00\x00\x99\x00\x00\x00\x00\x00\x00\x00(\x00\x00\x00\x00\x00\x00\x00\x02\x00\x00\x00\x01\x00\x00\x00\x00\x00\x00\x00\x00\x00\x00\x00\x00\x00\x00\x00\x00\x00\x00\x00";

// A base with one key twice, and one whose value is no payload.
const TWICE_BASE: &[u8] =
    b"DATABLK*\x00\x00\x00&\x00\x01p\x00\x00\x00\x0c\x00\x04\x02\x02\x02f\x0a\x00\x00\x00\x00\x00\x00\x01p\x00\x00\x00\x0c\x00\x04\x02\x02\x02f\x0a\x00\x00\x00\x00\x00IDXROOT2\x00\x00\x00\x13\x00\x00\x00\x01\x00\x00\x00\x00\x00\x00\x00\x00\x00\x00\x002\x00\x01pMDTTRAIL\x00\x00\x00\x01\x00\x00\x00\x00\x00\x00\x00\x00\x00\x00\x002\x00\x00\x00\x00\x00\x00\x00\x1f\x00\x00\x00\x00\x00\x00\x00\x02\x00\x00\x00\x01\x00\x00\x00\x00\x00\x00\x00\x00\x00\x00\x00\x00\x00\x00\x00\x00\x00\x00\x00\x00";

const NO_PAYLOAD_BASE: &[u8] =
    b"DATABLK*\x00\x00\x00\x09\x00\x01p\x00\x00\x00\x02\x00\x04IDXROOT2\x00\x00\x00\x13\x00\x00\x00\x01\x00\x00\x00\x00\x00\x00\x00\x00\x00\x00\x00\x15\x00\x01pMDTTRAIL\x00\x00\x00\x01\x00\x00\x00\x00\x00\x00\x00\x00\x00\x00\x00\x15\x00\x00\x00\x00\x00\x00\x00\x1f\x00\x00\x00\x00\x00\x00\x00\x01\x00\x00\x00\x01\x00\x00\x00\x00\x00\x00\x00\x00\x00\x00\x00\x00\x00\x00\x00\x00\x00\x00\x00\x00";

// Objects beside those of a new table, and the least path that they damage.
const DAMAGE: [(&[(&str, &[u8])], &str); 18] = [
    (&[(LOG, CUT_LOG)], LOG),
    (&[(LOG, SECOND_LOG)], LOG),
    (&[(BASE, TWICE_BASE)], BASE),
    (&[(BASE, NO_PAYLOAD_BASE)], BASE),
    (&[(".hoodie/x", b"")], ".hoodie/x"),
    (&[(REQUESTED, b"[]")], REQUESTED),
    (&[(REQUESTED, b"{\"a\":1}")], REQUESTED),
    (&[(INFLIGHT, OTHER_INSTANT)], INFLIGHT),
    (
        &[(".hoodie/20250101000000000.clean", b"{}")],
        ".hoodie/20250101000000000.clean",
    ),
    (&[COMMIT], DELTA),
    (&[COMMIT, (DELTA, NAMES_LOG)], LOG),
    (&[(DELTA, b"{}")], DELTA),
    (&[(LOG, b"{}")], LOG),
    (
        &[(LOG, b"{}"), (".hoodie/x", b"")],
        ".hoodie/metadata/files/files-0000_20250101000000000.log",
    ),
    (&[(DELTA, b"{}"), (LOG, b"{}")], DELTA),
    (
        &[(
            ".hoodie/metadata/files/files-0000_00000000000000000001.hfile",
            b"{}",
        )],
        ".hoodie/metadata/files/files-0000_00000000000000000001.hfile",
    ),
    (
        &[(
            ".hoodie/metadata/files/files-0000_00000000000000000010.hfile",
            b"{} ",
        )],
        ".hoodie/metadata/files/files-0000_00000000000000000010.hfile",
    ),
    (
        &[(".hoodie/hoodie.properties", b"hoodie.table.version=6\n")],
        ".hoodie/hoodie.properties",
    ),
];

// Whether a new table with these objects is refused for this.
fn is_damaged(alloc: Global, objects: &[(&str, &[u8])], word: &str) -> Result<bool, Fail> {
    let mut store = table_with(alloc, objects)?;
    Ok(is_refused(alloc, &mut store, word))
}

#[test]
fn the_least_path_that_shows_damage_is_told(rt: HostRuntime) -> Result<(), Fail> {
    let alloc = rt.alloc();
    for (objects, damaged) in DAMAGE {
        let told = is_damaged(alloc, objects, damaged)?;
        assert!(rt; told, "{damaged}");
    }
    Ok(())
}

// Whether a new table is damaged at its base where one byte of that is another.
fn is_damaged_with(alloc: Global, place: usize) -> Result<bool, Fail> {
    let mut bytes = Vec::from_slice(alloc, EMPTY_BASE)?;
    if let Some(byte) = bytes.get_mut(place) {
        *byte ^= 1;
    }
    is_damaged(alloc, &[(BASE, bytes.as_slice())], BASE)
}

#[test]
fn a_base_without_entries_is_damaged_by_any_other_byte(rt: HostRuntime) -> Result<(), Fail> {
    let alloc = rt.alloc();
    for place in 0..EMPTY_BASE.len() {
        let damaged = is_damaged_with(alloc, place)?;
        assert!(rt; damaged, "at {place}");
    }
    Ok(())
}

fn table_without(alloc: Global, path: &str) -> Result<MemStore, Fail> {
    let mut store = table_with(alloc, &[])?;
    let path = Path::parse(alloc, path)?;
    match store.delete(alloc, &path) {
        Ok(true) => Ok(store),
        _ => Err(Fail::new("an object is deleted")),
    }
}

#[test]
fn a_base_that_is_named_cannot_be_missing(rt: HostRuntime) -> Result<(), Fail> {
    let alloc = rt.alloc();
    let mut store = table_without(alloc, BASE)?;
    assert!(rt; is_refused(alloc, &mut store, BASE));
    Ok(())
}

#[test]
fn another_version_is_told_before_damage(rt: HostRuntime) -> Result<(), Fail> {
    let alloc = rt.alloc();
    const OBJECTS: [(&str, &[u8]); 2] = [
        (
            ".hoodie/hoodie.properties",
            b"hoodie.table.metadata.partitions=files\n\nhoodie.table.version=5\n",
        ),
        (".hoodie/x", b""),
    ];
    let told = is_damaged(alloc, &OBJECTS, "version 5")?;
    assert!(rt; told);
    Ok(())
}

#[test]
fn a_folder_without_a_config_is_no_table(rt: HostRuntime) -> Result<(), Fail> {
    let alloc = rt.alloc();
    let mut store = MemStore::empty(alloc);
    put(alloc, &mut store, (".hoodie/x", b""))?;
    assert!(rt; is_refused(alloc, &mut store, "no table"));
    Ok(())
}

#[test]
fn a_pending_commit_and_a_stray_file_are_no_damage(rt: HostRuntime) -> Result<(), Fail> {
    let alloc = rt.alloc();
    const NAMES: [&str; 5] = [
        ".hoodie/20250101000000000.commit.requested",
        ".hoodie/hoodie.properties",
        ".hoodie/metadata/.hoodie/00000000000000000010.deltacommit",
        ".hoodie/metadata/.hoodie/00000000000000000010.deltacommit.inflight",
        ".hoodie/metadata/files/files-0000_00000000000000000010.hfile",
    ];
    let mut store = table_with(alloc, &[(REQUESTED, b" { } "), ("a/b", b"x")])?;
    assert!(rt; holds(alloc, &mut store, &NAMES, &["a/b"]));
    Ok(())
}

// Whether an opening of which the call fails, counted with those of the making, is a fault.
fn fails_at(alloc: Global, call: u64) -> Result<bool, Fail> {
    let mut store = table_with(alloc, &[])?;
    store.fail(call, false)?;
    Ok(is_refused(alloc, &mut store, "fault"))
}

#[test]
fn a_read_that_fails_is_a_fault(rt: HostRuntime) -> Result<(), Fail> {
    let alloc = rt.alloc();
    for call in 5..10 {
        let fails = fails_at(alloc, call)?;
        assert!(rt; fails, "at {call}");
    }
    Ok(())
}

// The logs of two commits, each of one file of 5 bytes, as tools/print-index-objects prints them.
const FIRST_LOG: &[u8] =
    b"#HUDI#\x00\x01\x00G\xf1\\\x0c\xc5R\x00\x00\x00\x00\x00\x00\x00\x01\x01DATABLK*\x00\x00\x00\x8d\x00\x0a2024-01-01\x00\x00\x00P\x00\x04\x02\x02\x88\x0111111111-1111-4111-8111-111111111111_0-0-0_20250101000000000.parquet\x0a\x00\x00\x00\x00\x00\x00\x12__all_partitions__\x00\x00\x00\x15\x00\x02\x02\x02\x142024-01-01\x00\x00\x00\x00\x00\x00IDXROOT2\x00\x00\x00\x1c\x00\x00\x00\x01\x00\x00\x00\x00\x00\x00\x00\x00\x00\x00\x00\x99\x00\x0a2024-01-01MDTTRAIL\x00\x00\x00\x01\x00\x00\x00\x00\x00\x00\x00\x00\x00\x00\x00\x99\x00\x00\x00\x00\x00\x00\x00(\x00\x00\x00\x00\x00\x00\x00\x02\x00\x00\x00\x01\x00\x00\x00\x00\x00\x00\x00\x00\x00\x00\x00\x00\x00\x00\x00\x00\x00\x00\x00\x00";

const SECOND_LOG: &[u8] =
    b"#HUDI#\x00\x01\x00G\xf1\\\x0c\xc5R\x01\x00\x00\x00\x00\x00\x00\x01\x01DATABLK*\x00\x00\x00\x8d\x00\x0a2024-01-01\x00\x00\x00P\x00\x04\x02\x02\x88\x0122222222-2222-4222-8222-222222222222_0-0-0_20250101000000001.parquet\x0a\x00\x00\x00\x00\x00\x00\x12__all_partitions__\x00\x00\x00\x15\x00\x02\x02\x02\x142024-01-01\x00\x00\x00\x00\x00\x00IDXROOT2\x00\x00\x00\x1c\x00\x00\x00\x01\x00\x00\x00\x00\x00\x00\x00\x00\x00\x00\x00\x99\x00\x0a2024-01-01MDTTRAIL\x00\x00\x00\x01\x00\x00\x00\x00\x00\x00\x00\x00\x00\x00\x00\x99\x00\x00\x00\x00\x00\x00\x00(\x00\x00\x00\x00\x00\x00\x00\x02\x00\x00\x00\x01\x00\x00\x00\x00\x00\x00\x00\x00\x00\x00\x00\x00\x00\x00\x00\x00\x00\x00\x00\x00";

// Two commits with their logs, and the request of a third one.
const COMMITS: [(&str, &[u8]); 7] = [
    (
        ".hoodie/20250101000000000.commit",
        b"{\"partitionToWriteStats\":{\"2024-01-01\":[{\"fileId\":\"11111111-1111-4111-8111-111111111111\",\"fileSizeInBytes\":5,\"numWrites\":0,\"path\":\"2024-01-01/11111111-1111-4111-8111-111111111111_0-0-0_20250101000000000.parquet\",\"prevCommit\":\"null\"}]}}",
    ),
    (DELTA, NAMES_LOG),
    (LOG, FIRST_LOG),
    (
        ".hoodie/20250101000000001.commit",
        b"{\"partitionToWriteStats\":{\"2024-01-01\":[{\"fileId\":\"22222222-2222-4222-8222-222222222222\",\"fileSizeInBytes\":5,\"numWrites\":0,\"path\":\"2024-01-01/22222222-2222-4222-8222-222222222222_0-0-0_20250101000000001.parquet\",\"prevCommit\":\"null\"}]}}",
    ),
    (
        ".hoodie/metadata/.hoodie/20250101000000001.deltacommit",
        b"{\"logs\":[\".hoodie/metadata/files/files-0000_20250101000000001.log\"]}",
    ),
    (
        ".hoodie/metadata/files/files-0000_20250101000000001.log",
        SECOND_LOG,
    ),
    (".hoodie/20250101000000002.commit.requested", b"{}"),
];

// Whether the folder is read, and its completed commits have these instants and each a file of this group.
fn completes(alloc: Global, store: &mut MemStore, expected: &[(u64, FileId)]) -> bool {
    match read_folder(alloc, store) {
        Ok(folder) => are_commits(folder.commits.as_slice(), expected),
        Err(_) => false,
    }
}

fn are_commits(commits: &[Action], expected: &[(u64, FileId)]) -> bool {
    if commits.len() != expected.len() {
        return false;
    }
    for (commit, (number, id)) in commits.iter().zip(expected) {
        if commit.at.number() != *number || !writes_one(&commit.meta, id) {
            return false;
        }
    }
    true
}

fn writes_one(meta: &CommitMeta, id: &FileId) -> bool {
    match meta.partitions.as_slice() {
        [stats] => is_file_of(stats.stats.as_slice(), id),
        _ => false,
    }
}

fn is_file_of(stats: &[WriteStat], id: &FileId) -> bool {
    match stats {
        [stat] => stat.file_id == *id,
        _ => false,
    }
}

#[test]
fn the_completed_commits_are_told_with_their_files(rt: HostRuntime) -> Result<(), Fail> {
    let alloc = rt.alloc();
    let expected = [
        (
            20_250_101_000_000_000,
            FileId::parse("11111111-1111-4111-8111-111111111111")?,
        ),
        (
            20_250_101_000_000_001,
            FileId::parse("22222222-2222-4222-8222-222222222222")?,
        ),
    ];
    let mut store = table_with(alloc, &COMMITS)?;
    assert!(rt; completes(alloc, &mut store, &expected));
    Ok(())
}
