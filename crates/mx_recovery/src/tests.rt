ghost use Rattle.std.specs.Prelude.{◌≡◌, ◌<◌, ◌^◌, Some};

use crate::{OpenFailed, open_world};
use mx_base::{Instant, Path};
use mx_open::ReadError;
use mx_store::{Change, MemStore, Named, Store};
use std::alloc::Global;
use std::marker::Brand;
use std::test::Fail;

pub(crate) const CONFIG: &str = ".hoodie/hoodie.properties";

pub(crate) const REQUESTED: &str = ".hoodie/20250101000000000.commit.requested";

const INFLIGHT: &str = ".hoodie/20250101000000000.inflight";

const DATA: &str =
    "2024-01-01/11111111-1111-4111-8111-111111111111_0-0-0_20250101000000000.parquet";

const MARK: &str = ".hoodie/metadata/.hoodie/20250101000000000.deltacommit.inflight";

const LOG: &str = ".hoodie/metadata/files/files-0000_20250101000000000.log";

const DELTA: &str = ".hoodie/metadata/.hoodie/20250101000000000.deltacommit";

const COMPLETED: &str = ".hoodie/20250101000000000.commit";

// A base and a log without entries, and the log of one file of 5 bytes, as tools/print-index-objects prints them.
const EMPTY_BASE: &[u8] =
    b"IDXROOT2\x00\x00\x00\x04\x00\x00\x00\x00MDTTRAIL\x00\x00\x00\x01\x00\x00\x00\x00\x00\x00\x00\x00\x00\x00\x00\x00\x00\x00\x00\x00\x00\x00\x00\x10\x00\x00\x00\x00\x00\x00\x00\x00\x00\x00\x00\x00\x00\x00\x00\x00\x00\x00\x00\x00\x00\x00\x00\x00\x00\x00\x00\x00\x00\x00\x00\x00";

const NO_ENTRIES: &[u8] =
    b"#HUDI#\x00\x01\x00G\xf1\\\x0c\xc5R\x07\x00\x00\x00\x00\x00\x00\x00PIDXROOT2\x00\x00\x00\x04\x00\x00\x00\x00MDTTRAIL\x00\x00\x00\x01\x00\x00\x00\x00\x00\x00\x00\x00\x00\x00\x00\x00\x00\x00\x00\x00\x00\x00\x00\x10\x00\x00\x00\x00\x00\x00\x00\x00\x00\x00\x00\x00\x00\x00\x00\x00\x00\x00\x00\x00\x00\x00\x00\x00\x00\x00\x00\x00\x00\x00\x00\x00";

const ONE_LOG: &[u8] =
    b"#HUDI#\x00\x01\x00G\xf1\\\x0c\xc5R\x00\x00\x00\x00\x00\x00\x00\x01\x01DATABLK*\x00\x00\x00\x8d\x00\x0a2024-01-01\x00\x00\x00P\x00\x04\x02\x02\x88\x0111111111-1111-4111-8111-111111111111_0-0-0_20250101000000000.parquet\x0a\x00\x00\x00\x00\x00\x00\x12__all_partitions__\x00\x00\x00\x15\x00\x02\x02\x02\x142024-01-01\x00\x00\x00\x00\x00\x00IDXROOT2\x00\x00\x00\x1c\x00\x00\x00\x01\x00\x00\x00\x00\x00\x00\x00\x00\x00\x00\x00\x99\x00\x0a2024-01-01MDTTRAIL\x00\x00\x00\x01\x00\x00\x00\x00\x00\x00\x00\x00\x00\x00\x00\x99\x00\x00\x00\x00\x00\x00\x00(\x00\x00\x00\x00\x00\x00\x00\x02\x00\x00\x00\x01\x00\x00\x00\x00\x00\x00\x00\x00\x00\x00\x00\x00\x00\x00\x00\x00\x00\x00\x00\x00";

// The paths and bytes of a new table.
const NEW_TABLE: [(&str, &[u8]); 4] = [
    (
        ".hoodie/metadata/.hoodie/00000000000000000010.deltacommit.inflight",
        b"{}",
    ),
    (
        ".hoodie/metadata/files/files-0000_00000000000000000010.hfile",
        EMPTY_BASE,
    ),
    (
        ".hoodie/metadata/.hoodie/00000000000000000010.deltacommit",
        b"{\"bases\":[\".hoodie/metadata/files/files-0000_00000000000000000010.hfile\"],\"upto\":\"00000000000000000\"}",
    ),
    (
        CONFIG,
        b"hoodie.table.metadata.partitions=files\nhoodie.table.metadata.partitions.inflight=\nhoodie.table.version=6\nmdt.schema=a:int64\n",
    ),
];

// The objects of a commit of one file, in the order in which they are made.
const COMMIT: [(&str, &[u8]); 7] = [
    (REQUESTED, b"{}"),
    (
        INFLIGHT,
        b"{\"paths\":[\"2024-01-01/11111111-1111-4111-8111-111111111111_0-0-0_20250101000000000.parquet\"]}",
    ),
    (DATA, b"hello"),
    (MARK, b"{}"),
    (LOG, ONE_LOG),
    (
        DELTA,
        b"{\"logs\":[\".hoodie/metadata/files/files-0000_20250101000000000.log\"]}",
    ),
    (
        COMPLETED,
        b"{\"partitionToWriteStats\":{\"2024-01-01\":[{\"fileId\":\"11111111-1111-4111-8111-111111111111\",\"fileSizeInBytes\":5,\"numWrites\":0,\"path\":\"2024-01-01/11111111-1111-4111-8111-111111111111_0-0-0_20250101000000000.parquet\",\"prevCommit\":\"null\"}]}}",
    ),
];

// The paths of the commit in the order in which they are taken away: its logs, the objects of its logs, its files, its list of
// files, its request.
const DROPPED: [&str; 6] = [LOG, DELTA, MARK, DATA, INFLIGHT, REQUESTED];

pub(crate) const MOMENT: u64 = 20_250_101_000_000_000;

const NEXT_REQUESTED: &str = ".hoodie/20250101000000007.commit.requested";

const NEXT_LOG: &str = ".hoodie/metadata/files/files-0000_20250101000000007.log";

// What an opening says, and what it leaves.
#[derive(Drop)]
pub(crate) struct Seen {
    pub(crate) said: &'static str,
    pub(crate) seq: u64,
    pub(crate) last: u64,
    pub(crate) store: MemStore,
}

fn word(why: &ReadError) -> &'static str {
    match why {
        ReadError::NotATable => "no table",
        ReadError::Version { found } => version(*found),
        ReadError::Damaged { path } => damaged(path),
        ReadError::StoreFault => "fault",
        ReadError::NoMemory => "no memory",
    }
}

fn version(found: u64) -> &'static str {
    if found == 5 {
        "version 5"
    } else {
        "another version"
    }
}

fn damaged(path: &Path) -> &'static str {
    if path.as_str() == CONFIG {
        CONFIG
    } else {
        "another path"
    }
}

fn opened_as<N: Named>(alloc: Global, store: MemStore, at: Instant) -> Seen
    requires opening { N.opening ≡ Some store.changes }
    requires moment { N.moment ≡ at }
    requires meant { 0 < at }
{
    match open_world::<MemStore, N>(alloc, store, at) {
        Ok(world) => Seen {
            said: "open",
            seq: world.seq(),
            last: world.last().number(),
            store: world.into_store(),
        },
        Err(OpenFailed { store, why }) => Seen {
            said: word(&why),
            seq: 0,
            last: 0,
            store,
        },
    }
}

pub(crate) fn opened(alloc: Global, store: MemStore, now: u64) -> Seen
    requires meant { 0 < now }
    requires small { now < 10 ^ 17 }
{
    let at = match Instant::new(now) {
        Some(at) => at,
        None => unreachable!(),
    };
    opened_as::<Brand>(alloc, store, at)
}

pub(crate) fn add(
    alloc: Global,
    store: &mut MemStore,
    path: &str,
    bytes: &[u8],
) -> Result<(), Fail> {
    let path = Path::parse(alloc, path)?;
    match store.create(alloc, &path, bytes) {
        Ok(true) => Ok(()),
        _ => Err(Fail::new("an object is made")),
    }
}

fn add_all(alloc: Global, store: &mut MemStore, objects: &[(&str, &[u8])]) -> Result<(), Fail> {
    for (path, bytes) in objects {
        add(alloc, store, path, bytes)?;
    }
    Ok(())
}

fn add_front(alloc: Global, store: &mut MemStore, count: usize) -> Result<(), Fail> {
    for (path, bytes) in COMMIT.iter().take(count) {
        add(alloc, store, path, bytes)?;
    }
    Ok(())
}

// A new table with the first so many objects of the commit.
pub(crate) fn table_with(alloc: Global, count: usize) -> Result<MemStore, Fail> {
    let mut store = MemStore::empty(alloc);
    add_all(alloc, &mut store, &NEW_TABLE)?;
    add_front(alloc, &mut store, count)?;
    Ok(store)
}

// A new table with the first so many objects of the commit, and with these.
pub(crate) fn table_of(
    alloc: Global,
    count: usize,
    objects: &[(&str, &[u8])],
) -> Result<MemStore, Fail> {
    let mut store = table_with(alloc, count)?;
    add_all(alloc, &mut store, objects)?;
    Ok(store)
}

// How many paths stand of which these are a part.
fn count_of(alloc: Global, store: &mut MemStore, part: &str) -> Result<usize, Fail> {
    match store.list(alloc, "") {
        Ok(paths) => Ok(
            paths
                .as_slice()
                .iter()
                .filter(|path| path.as_str().contains(part))
                .count(),
        ),
        Err(_) => Err(Fail::new("the paths are listed")),
    }
}

// Whether the changes behind the first so many are the deletes of these paths.
fn are_deleted(store: &MemStore, made: usize, expected: &[&str]) -> bool {
    let journal = store.journal();
    if journal.len() < made {
        return false;
    }
    are_deletes(&journal[made..], expected)
}

fn are_deletes(changes: &[Change], expected: &[&str]) -> bool {
    if changes.len() != expected.len() {
        return false;
    }
    for (change, path) in changes.iter().zip(expected) {
        if !is_delete(change, path) {
            return false;
        }
    }
    true
}

fn is_delete(change: &Change, gone: &str) -> bool {
    match change {
        Change::Delete { path } => path.as_str() == gone,
        _ => false,
    }
}

// Whether the folder opens with so many changes, and so many paths of the commit stand then.
fn leaves(alloc: Global, seen: &mut Seen, changes: u64, paths: usize) -> Result<bool, Fail> {
    let left = count_of(alloc, &mut seen.store, "20250101000000000")?;
    Ok(seen.said == "open" && seen.seq == changes && left == paths)
}

// Whether a commit that stopped after so many objects is taken away by as many changes.
fn is_taken_away(alloc: Global, count: usize) -> Result<bool, Fail>
    requires within { count < 7 }
{
    let mut seen = opened(alloc, table_with(alloc, count)?, MOMENT);
    let taken = leaves(alloc, &mut seen, count as u64, 0)?;
    Ok(taken && seen.store.journal().len() == 4 + count + count)
}

#[test]
fn a_commit_that_stopped_before_its_completion_leaves_nothing(rt: HostRuntime) -> Result<(), Fail> {
    let alloc = rt.alloc();
    for count in 0..7 {
        let taken = is_taken_away(alloc, count)?;
        assert!(rt; taken, "at {count}");
    }
    Ok(())
}

#[test]
fn a_completed_commit_is_kept(rt: HostRuntime) -> Result<(), Fail> {
    let alloc = rt.alloc();
    let mut seen = opened(alloc, table_with(alloc, 7)?, MOMENT);
    let kept = leaves(alloc, &mut seen, 0, 7)?;
    assert!(rt; kept && seen.store.journal().len() == 11);
    Ok(())
}

#[test]
fn what_a_commit_left_is_deleted_in_one_order(rt: HostRuntime) -> Result<(), Fail> {
    let alloc = rt.alloc();
    let seen = opened(alloc, table_with(alloc, 6)?, MOMENT);
    assert!(rt; are_deleted(&seen.store, 10, &DROPPED));
    Ok(())
}

#[test]
fn pending_commits_go_by_rising_instant_each_with_its_own_logs(
    rt: HostRuntime,
) -> Result<(), Fail> {
    let alloc = rt.alloc();
    const NEXT: [(&str, &[u8]); 2] = [(NEXT_REQUESTED, b"{}"), (NEXT_LOG, NO_ENTRIES)];
    const GONE: [&str; 8] = [
        LOG,
        DELTA,
        MARK,
        DATA,
        INFLIGHT,
        REQUESTED,
        NEXT_LOG,
        NEXT_REQUESTED,
    ];
    let seen = opened(alloc, table_of(alloc, 6, &NEXT)?, MOMENT);
    assert!(rt; are_deleted(&seen.store, 12, &GONE));
    Ok(())
}

#[test]
fn a_list_of_files_without_a_request_is_a_pending_commit(rt: HostRuntime) -> Result<(), Fail> {
    let alloc = rt.alloc();
    const OBJECTS: [(&str, &[u8]); 2] = [
        (
            INFLIGHT,
            b"{\"paths\":[\"2024-01-01/11111111-1111-4111-8111-111111111111_0-0-0_20250101000000000.parquet\"]}",
        ),
        (DATA, b"hello"),
    ];
    let seen = opened(alloc, table_of(alloc, 0, &OBJECTS)?, MOMENT);
    assert!(rt; are_deleted(&seen.store, 6, &[DATA, INFLIGHT]));
    Ok(())
}

// A recovery of six changes, of which the one at the place fails.
fn stopped(alloc: Global, place: u64, applied: bool) -> Result<Seen, Fail>
    requires within { place < 6 }
{
    let mut store = table_with(alloc, 6)?;
    // the ten creates, then one list and nine reads
    store.fail(20 + place, applied)?;
    Ok(opened(alloc, store, MOMENT))
}

// Whether such a recovery is a fault after so many changes, and a second one makes the others.
fn is_gone_on_with(alloc: Global, place: u64, applied: bool) -> Result<bool, Fail>
    requires within { place < 6 }
{
    let first = stopped(alloc, place, applied)?;
    let made = place + u64::from(applied);
    let stops = first.said == "fault" && first.store.journal().len() as u64 == 10 + made;
    let mut second = opened(alloc, first.store, MOMENT);
    let goes_on = leaves(alloc, &mut second, 6 - made, 0)?;
    Ok(stops && goes_on)
}

#[test]
fn a_recovery_that_stopped_is_gone_on_with(rt: HostRuntime) -> Result<(), Fail> {
    let alloc = rt.alloc();
    for place in 0..6 {
        let kept = is_gone_on_with(alloc, place, false)?;
        let applied = is_gone_on_with(alloc, place, true)?;
        assert!(rt; kept && applied, "at {place}");
    }
    Ok(())
}
