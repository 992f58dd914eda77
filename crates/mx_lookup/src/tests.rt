ghost use Rattle.std.specs.Prelude.{◌≡◌, IfOk, None};

use crate::look_up;
use mx_ask::{FileSize, Question, Reply};
use mx_base::{Instant, Part, Partition, Path};
use mx_lists::{Listed, Text};
use mx_props::Props;
use mx_schema::Schema;
use mx_store::{MemStore, QuietStore, Store};
use mx_world::{Mirror, World};
use std::alloc::Global;
use std::marker::Brand;
use std::test::Fail;

const FIRST: u64 = 20_250_101_000_000_000;

// The logs of one file of 5 bytes, of files of 1 and 7 bytes in two partitions, and of one of 9 bytes in a third, as
// tools/print-index-objects prints them.
const FIRST_LOG: &[u8] =
    b"#HUDI#\x00\x01\x00G\xf1\\\x0c\xc5R\x00\x00\x00\x00\x00\x00\x00\x01\x01DATABLK*\x00\x00\x00\x8d\x00\x0a2024-01-01\x00\x00\x00P\x00\x04\x02\x02\x88\x0111111111-1111-4111-8111-111111111111_0-0-0_20250101000000000.parquet\x0a\x00\x00\x00\x00\x00\x00\x12__all_partitions__\x00\x00\x00\x15\x00\x02\x02\x02\x142024-01-01\x00\x00\x00\x00\x00\x00IDXROOT2\x00\x00\x00\x1c\x00\x00\x00\x01\x00\x00\x00\x00\x00\x00\x00\x00\x00\x00\x00\x99\x00\x0a2024-01-01MDTTRAIL\x00\x00\x00\x01\x00\x00\x00\x00\x00\x00\x00\x00\x00\x00\x00\x99\x00\x00\x00\x00\x00\x00\x00(\x00\x00\x00\x00\x00\x00\x00\x02\x00\x00\x00\x01\x00\x00\x00\x00\x00\x00\x00\x00\x00\x00\x00\x00\x00\x00\x00\x00\x00\x00\x00\x00";

const SECOND_LOG: &[u8] =
    b"#HUDI#\x00\x01\x00G\xf1\\\x0c\xc5R\x01\x00\x00\x00\x00\x00\x00\x01nDATABLK*\x00\x00\x00\xfa\x00\x0a2024-01-01\x00\x00\x00P\x00\x04\x02\x02\x88\x0122222222-2222-4222-8222-222222222222_0-0-0_20250101000000001.parquet\x02\x00\x00\x00\x00\x00\x00\x0a2024-01-02\x00\x00\x00P\x00\x04\x02\x02\x88\x0133333333-3333-4333-8333-333333333333_0-0-0_20250101000000001.parquet\x0e\x00\x00\x00\x00\x00\x00\x12__all_partitions__\x00\x00\x00\"\x00\x02\x02\x04\x142024-01-01\x00\x00\x142024-01-02\x00\x00\x00\x00\x00\x00IDXROOT2\x00\x00\x00\x1c\x00\x00\x00\x01\x00\x00\x00\x00\x00\x00\x00\x00\x00\x00\x01\x06\x00\x0a2024-01-01MDTTRAIL\x00\x00\x00\x01\x00\x00\x00\x00\x00\x00\x00\x00\x00\x00\x01\x06\x00\x00\x00\x00\x00\x00\x00(\x00\x00\x00\x00\x00\x00\x00\x03\x00\x00\x00\x01\x00\x00\x00\x00\x00\x00\x00\x00\x00\x00\x00\x00\x00\x00\x00\x00\x00\x00\x00\x00";

const THIRD_LOG: &[u8] =
    b"#HUDI#\x00\x01\x00G\xf1\\\x0c\xc5R\x02\x00\x00\x00\x00\x00\x00\x01\x01DATABLK*\x00\x00\x00\x8d\x00\x0a2024-01-03\x00\x00\x00P\x00\x04\x02\x02\x88\x0133333333-3333-4333-8333-333333333333_0-0-0_20250101000000002.parquet\x12\x00\x00\x00\x00\x00\x00\x12__all_partitions__\x00\x00\x00\x15\x00\x02\x02\x02\x142024-01-03\x00\x00\x00\x00\x00\x00IDXROOT2\x00\x00\x00\x1c\x00\x00\x00\x01\x00\x00\x00\x00\x00\x00\x00\x00\x00\x00\x00\x99\x00\x0a2024-01-03MDTTRAIL\x00\x00\x00\x01\x00\x00\x00\x00\x00\x00\x00\x00\x00\x00\x00\x99\x00\x00\x00\x00\x00\x00\x00(\x00\x00\x00\x00\x00\x00\x00\x02\x00\x00\x00\x01\x00\x00\x00\x00\x00\x00\x00\x00\x00\x00\x00\x00\x00\x00\x00\x00\x00\x00\x00\x00";

// The logs of two completed commits and of a pending one, and what completes the two.
const OBJECTS: [(&str, &[u8]); 5] = [
    (
        ".hoodie/metadata/files/files-0000_20250101000000000.log",
        FIRST_LOG,
    ),
    (".hoodie/20250101000000000.commit", b"{}"),
    (
        ".hoodie/metadata/files/files-0000_20250101000000001.log",
        SECOND_LOG,
    ),
    (".hoodie/20250101000000001.commit", b"{}"),
    (
        ".hoodie/metadata/files/files-0000_20250101000000002.log",
        THIRD_LOG,
    ),
];

fn config(alloc: Global) -> Result<Props, Fail> {
    let available = Listed::from_vec(vec![in alloc; Part::Files]?);
    let Ok(schema) = Schema::parse(alloc, "a:int64") else {
        return Err(Fail::new("the schema is one"));
    };
    match Props::new(available, None, schema) {
        Some(config) => Ok(config),
        None => Err(Fail::new("the config is one")),
    }
}

fn instant(number: u64) -> Result<Instant, Fail> {
    match Instant::new(number) {
        Some(at) => Ok(at),
        None => Err(Fail::new("the number is an instant")),
    }
}

// A table of the first so many objects, whose store's call of this number behind their creates fails.
fn table(alloc: Global, count: usize, failing: u64) -> Result<World<QuietStore, Brand>, Fail>
    ensures sure { IfOk result (λ table. table.doubt ≡ None) }
{
    let mut store = MemStore::empty(alloc);
    let mut paths = Listed::new(alloc);
    for (path, bytes) in OBJECTS.iter().take(count) {
        let path = Path::parse(alloc, path)?;
        store.create(alloc, &path, bytes)?;
        paths.push(path)?;
    }
    store.fail((count as u64).saturating_add(failing), false)?;
    let mirror = Mirror::of(alloc, config(alloc)?, paths.as_slice(), &[])?;
    Ok(World::over(QuietStore::over(store), mirror, instant(FIRST + 2)?, 0))
}

// The instant that was looked up, and the sizes that were found in the order of their names; 9 stands for a failed look-up.
fn seen_at(
    alloc: Global,
    table: &mut World<QuietStore, Brand>,
    question: &Question,
    asked: Option<Instant>,
) -> Result<(u64, u64, u64), Fail>
    requires sure { table.old.doubt ≡ None }
{
    match look_up(alloc, table, question, asked) {
        Ok(reply) => Ok(seen(&reply)),
        Err(_) => Ok((0, 9, 9)),
    }
}

fn seen(reply: &Reply) -> (u64, u64, u64) {
    match reply {
        Reply::Files { at, files } => seen_sizes(*at, files.as_slice()),
        Reply::Partitions { at, partitions } => seen_names(*at, partitions.as_slice()),
        _ => (0, 8, 8),
    }
}

fn seen_sizes(at: Instant, files: &[FileSize]) -> (u64, u64, u64) {
    match files {
        [] => (at.number(), 0, 0),
        [one] => (at.number(), one.size, 0),
        [one, other] => (at.number(), one.size, other.size),
        _ => (at.number(), 8, 8),
    }
}

// The days of partitions of January 2024.
fn seen_names(at: Instant, names: &[Text]) -> (u64, u64, u64) {
    match names {
        [] => (at.number(), 0, 0),
        [one] => (at.number(), day_of(one), 0),
        [one, other] => (at.number(), day_of(one), day_of(other)),
        _ => (at.number(), 8, 8),
    }
}

fn day_of(name: &Text) -> u64 {
    match name.as_str() {
        "2024-01-01" => 1,
        "2024-01-02" => 2,
        _ => 8,
    }
}

// A partition, or the list of all.
fn question_of(alloc: Global, partition: &str) -> Result<Question, Fail> {
    if partition.is_empty() {
        return Ok(Question::Partitions);
    }
    Ok(Question::Files {
        partition: Partition::parse(alloc, partition)?,
    })
}

fn looked_up(
    alloc: Global,
    count: usize,
    partition: &str,
    asked: Option<u64>,
    failing: u64,
) -> Result<(u64, u64, u64), Fail> {
    let asked = match asked {
        Some(number) => Some(instant(number)?),
        None => None,
    };
    let question = question_of(alloc, partition)?;
    let mut table = table(alloc, count, failing)?;
    seen_at(alloc, &mut table, &question, asked)
}

#[test]
fn a_look_up_shows_the_completed_commits_up_to_its_instant(rt: HostRuntime) -> Result<(), Fail> {
    let alloc = rt.alloc();
    const NEXT: u64 = FIRST + 1;
    // how many objects stand, the partition, the instant that is asked for, and what is found
    const CASES: [(usize, &str, Option<u64>, (u64, u64, u64)); 15] = [
        (0, "2024-01-01", None, (0, 0, 0)),
        (1, "2024-01-01", None, (0, 0, 0)),
        (2, "2024-01-01", None, (FIRST, 5, 0)),
        (3, "2024-01-01", None, (FIRST, 5, 0)),
        (5, "2024-01-01", None, (NEXT, 5, 1)),
        (5, "2024-01-01", Some(FIRST), (FIRST, 5, 0)),
        (5, "2024-01-01", Some(FIRST - 1), (FIRST - 1, 0, 0)),
        (5, "2024-01-01", Some(FIRST + 7), (FIRST + 7, 5, 1)),
        (5, "2024-01-02", None, (NEXT, 7, 0)),
        (5, "2024-01-02", Some(FIRST), (FIRST, 0, 0)),
        (5, "2024-01-03", None, (NEXT, 0, 0)),
        (0, "", None, (0, 0, 0)),
        (2, "", None, (FIRST, 1, 0)),
        (5, "", None, (NEXT, 1, 2)),
        (5, "", Some(FIRST - 1), (FIRST - 1, 0, 0)),
    ];
    for (count, partition, asked, expected) in CASES {
        let (at, one, other) = looked_up(alloc, count, partition, asked, 100)?;
        let (wanted, first, second) = expected;
        assert!(rt; at == wanted && one == first && other == second);
    }
    Ok(())
}

#[test]
fn a_look_up_fails_where_a_read_fails(rt: HostRuntime) -> Result<(), Fail> {
    let alloc = rt.alloc();
    for failing in 0..4_u64 {
        let (at, one, other) = looked_up(alloc, 5, "2024-01-01", None, failing)?;
        let fails = at == 0 && one == 9 && other == 9;
        assert!(rt; fails == (failing < 3));
    }
    Ok(())
}
