//! The paths of the objects below `.hoodie/`, and of data files.

use super::*;
use crate::object_name::ActionState::{Completed, Inflight, Requested};
use crate::object_name::MetadataActionKind::{Clean, Compaction, DeltaCommit, Indexing};
use std::alloc::Global;
use std::process::Abort;
use std::test::Fail;

const DATA_FILES: [&str; 2] = [
    "p/11111111-1111-4111-8111-111111111111_0-0-0_00000000000000001.parquet",
    "2024-01-01/11111111-1111-4111-8111-111111111111_0-0-0_20250101000000000.parquet",
];

const NO_DATA_FILES: [&str; 9] = [
    "p/11111111-1111-4111-8111-111111111111_0-0-0_00000000000000000.parquet",
    "p/11111111-1111-4111-8111-111111111111_0-0-0_0000000000000001.parquet",
    "p/11111111-1111-4111-8111-11111111111A_0-0-0_00000000000000001.parquet",
    "p/11111111-1111-4111-8111-111111111111_0-0-1_00000000000000001.parquet",
    "p/11111111-1111-4111-8111-111111111111_0-0-0_00000000000000001.avro",
    ".p/11111111-1111-4111-8111-111111111111_0-0-0_00000000000000001.parquet",
    "p/q/11111111-1111-4111-8111-111111111111_0-0-0_00000000000000001.parquet",
    "11111111-1111-4111-8111-111111111111_0-0-0_00000000000000001.parquet",
    ".hoodie/00000000000000001.commit",
];

fn stands_at(rt: &impl Abort, alloc: Global, name: &ObjectName, text: &str) -> Result<(), Fail> {
    let path = name.path(alloc)?;
    assert_eq!(rt; path.as_str(), text);
    let found = ObjectName::of(&path).expect(rt, text);
    assert!(rt; found == *name, "{text}");
    Ok(())
}

#[test]
fn the_objects_of_the_data_timeline_have_these_paths(rt: HostRuntime) -> Result<(), Fail> {
    let alloc = rt.alloc();
    let at = Instant::new(20_250_101_000_000_000).expect(&rt, "an instant");
    let cases = [
        (ActionKind::Commit, Requested, "commit.requested"),
        (ActionKind::Commit, Inflight, "inflight"),
        (ActionKind::Commit, Completed, "commit"),
        (ActionKind::Clean, Requested, "clean.requested"),
        (ActionKind::Clean, Inflight, "clean.inflight"),
        (ActionKind::Clean, Completed, "clean"),
        (ActionKind::Rollback, Requested, "rollback.requested"),
        (ActionKind::Rollback, Inflight, "rollback.inflight"),
        (ActionKind::Rollback, Completed, "rollback"),
        (ActionKind::Indexing, Requested, "indexing.requested"),
        (ActionKind::Indexing, Inflight, "indexing.inflight"),
        (ActionKind::Indexing, Completed, "indexing"),
    ];
    for (kind, state, ending) in cases {
        let text = format!(in alloc; ".hoodie/20250101000000000.{ending}")?;
        let name = ObjectName::Timeline { at, kind, state };
        stands_at(&rt, alloc, &name, text.as_str())?;
    }
    stands_at(&rt, alloc, &ObjectName::Config, ".hoodie/hoodie.properties")
}

#[test]
fn the_objects_of_the_metadata_timeline_have_these_paths(rt: HostRuntime) -> Result<(), Fail> {
    let alloc = rt.alloc();
    let cases = [
        (1, DeltaCommit, false, "1.deltacommit.inflight"),
        (1, DeltaCommit, true, "1.deltacommit"),
        (0, Indexing, false, "0010.deltacommit.inflight"),
        (0, Indexing, true, "0010.deltacommit"),
        (1, Compaction, false, "1001.compaction.inflight"),
        (1, Compaction, true, "1001.commit"),
        (1, Clean, false, "1002.clean.inflight"),
        (0, Clean, true, "0002.clean"),
    ];
    for (number, kind, completed, ending) in cases {
        let text = format!(in alloc; ".hoodie/metadata/.hoodie/0000000000000000{ending}")?;
        let at = Instant::new(number).expect(&rt, "an instant");
        let name = ObjectName::Metadata {
            at,
            kind,
            completed,
        };
        stands_at(&rt, alloc, &name, text.as_str())?;
    }
    Ok(())
}

#[test]
fn the_bases_have_these_paths(rt: HostRuntime) -> Result<(), Fail> {
    let alloc = rt.alloc();
    let at = Instant::new(1).expect(&rt, "an instant");
    let upto = Instant::new(0).expect(&rt, "an instant");
    let first = ObjectName::Base {
        part: Part::Files,
        shard: 0,
        upto,
        kind: BaseKind::Indexing,
    };
    stands_at(
        &rt,
        alloc,
        &first,
        ".hoodie/metadata/files/files-0000_00000000000000000010.hfile",
    )?;
    let base = ObjectName::Base {
        part: Part::ColumnStats,
        shard: 3,
        upto: at,
        kind: BaseKind::Compaction,
    };
    stands_at(
        &rt,
        alloc,
        &base,
        ".hoodie/metadata/column_stats/column_stats-0003_00000000000000001001.hfile",
    )
}

#[test]
fn the_logs_have_these_paths(rt: HostRuntime) -> Result<(), Fail> {
    let alloc = rt.alloc();
    let at = Instant::new(1).expect(&rt, "an instant");
    let log = ObjectName::Log {
        part: Part::BloomFilters,
        shard: 2,
        at,
    };
    stands_at(
        &rt,
        alloc,
        &log,
        ".hoodie/metadata/bloom_filters/bloom_filters-0002_00000000000000001.log",
    )?;
    let last = ObjectName::Log {
        part: Part::RecordIndex,
        shard: 9999,
        at,
    };
    stands_at(
        &rt,
        alloc,
        &last,
        ".hoodie/metadata/record_index/record_index-9999_00000000000000001.log",
    )
}

#[test]
fn other_paths_are_no_objects(rt: HostRuntime) -> Result<(), Fail> {
    let alloc = rt.alloc();
    let cases = [
        "hoodie.properties",
        ".hoodie/hoodie.propertie",
        ".hoodie/00000000000000000.commit",
        ".hoodie/2025010100000000.commit",
        ".hoodie/202501010000000000.commit",
        ".hoodie/20250101000000000.requested",
        ".hoodie/20250101000000000.commit.inflight",
        ".hoodie/20250101000000000.deltacommit",
        ".hoodie/20250101000000000001.commit",
        ".hoodie/metadata/20250101000000000.commit",
        ".hoodie/metadata/.hoodie/00000000000000000.deltacommit",
        ".hoodie/metadata/.hoodie/20250101000000000.commit",
        ".hoodie/metadata/.hoodie/20250101000000000010.commit",
        ".hoodie/metadata/files/files-0000_00000000000000000.log",
        ".hoodie/metadata/files/files-0000_20250101000000000001.log",
        ".hoodie/metadata/files/files-0000_20250101000000000.hfile",
        ".hoodie/metadata/files/files-000_20250101000000000.log",
        ".hoodie/metadata/files/files-00000_20250101000000000.log",
        ".hoodie/metadata/files/column_stats-0000_20250101000000000.log",
        ".hoodie/metadata/other/other-0000_20250101000000000.log",
        "2024-01-01/11111111-1111-4111-8111-111111111111_0-0-0_20250101000000000.parquet",
    ];
    for text in cases {
        let path = Path::parse(alloc, text).ok().expect(&rt, "a path");
        assert!(rt; ObjectName::of(&path).is_none(), "{text}");
    }
    Ok(())
}

#[test]
fn a_data_file_stands_in_its_partition(rt: HostRuntime) -> Result<(), Fail> {
    let alloc = rt.alloc();
    for text in DATA_FILES {
        let path = Path::parse(alloc, text).ok().expect(&rt, "a path");
        let found = DataFile::of(alloc, &path)?.expect(&rt, text);
        let again = Path::of_data_file(alloc, &found.partition, &found.file, found.at)?;
        assert_eq!(rt; again.as_str(), text);
    }
    Ok(())
}

#[test]
fn other_paths_are_no_data_files(rt: HostRuntime) -> Result<(), Fail> {
    let alloc = rt.alloc();
    for text in NO_DATA_FILES {
        let path = Path::parse(alloc, text).ok().expect(&rt, "a path");
        assert!(rt; DataFile::of(alloc, &path)?.is_none(), "{text}");
    }
    Ok(())
}
