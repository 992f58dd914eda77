// Objects that name logs and bases.
use super::*;
use crate::reading_tests::{Kind, is_printed_as, is_refused_for, paths_of};
use mx_base::{Instant, Path};
use mx_lists::Listed;
use std::alloc::Global;
use std::test::Fail;

const STATS_LOG: &str = ".hoodie/metadata/column_stats/column_stats-0001_20250101000000000.log";

const BLOOM_LOG: &str = ".hoodie/metadata/bloom_filters/bloom_filters-0000_20250101000000000.log";

const FIRST_BASE: &str = ".hoodie/metadata/files/files-0000_00000000000000000010.hfile";

const NEXT_BASE: &str = ".hoodie/metadata/files/files-0001_20250101000000000001.hfile";

#[test]
fn logs_and_bases_stand_by_partition_and_shard(rt: HostRuntime) -> Result<(), Fail> {
    let alloc = rt.alloc();
    let cases: [(ShardFile, &[&str], bool); 10] = [
        (ShardFile::Log, &[], true),
        (ShardFile::Log, &[STATS_LOG, BLOOM_LOG], true),
        (ShardFile::Log, &[BLOOM_LOG, STATS_LOG], false),
        (ShardFile::Log, &[STATS_LOG, STATS_LOG], false),
        (ShardFile::Log, &[FIRST_BASE], false),
        (ShardFile::Base, &[FIRST_BASE, NEXT_BASE], true),
        (ShardFile::Base, &[NEXT_BASE, FIRST_BASE], false),
        (ShardFile::Base, &[FIRST_BASE, FIRST_BASE], false),
        (ShardFile::Base, &[STATS_LOG], false),
        (ShardFile::Base, &["x"], false),
    ];
    let upto = Instant::new(7).expect(&rt, "an instant");
    for (file, texts, made) in cases {
        let paths = paths_of(alloc, texts)?;
        let again = match file {
            ShardFile::Log => delta_again(alloc, paths)?,
            ShardFile::Base => base_again(alloc, paths, upto)?,
        };
        assert_eq!(rt; again, made);
    }
    Ok(())
}

#[test]
fn objects_of_logs_and_bases_are_read_and_printed_on_the_same_line(
    rt: HostRuntime,
) -> Result<(), Fail> {
    let alloc = rt.alloc();
    let lines = [
        (Kind::Delta, "{\"logs\":[]}"),
        (
            Kind::Delta,
            "{\"logs\":[\".hoodie/metadata/files/files-0000_20250101000000000.log\",\".hoodie/metadata/record_index/record_index-0007_20250101000000000.log\"]}",
        ),
        (
            Kind::Bases,
            "{\"bases\":[\".hoodie/metadata/files/files-0000_00000000000000000010.hfile\"],\"upto\":\"00000000000000000\"}",
        ),
    ];
    for (kind, line) in lines {
        assert!(rt; is_printed_as(alloc, kind, line, line), "{line}");
    }
    Ok(())
}

#[test]
fn other_paths_of_logs_and_bases_are_bad_fields(rt: HostRuntime) -> Result<(), Fail> {
    let alloc = rt.alloc();
    let rows = [
        (
            Kind::Delta,
            "{\"logs\":[\".hoodie/metadata/files/files-0000_00000000000000000.log\"]}",
            "logs",
        ),
        (
            Kind::Delta,
            "{\"logs\":[\".hoodie/metadata/files/files-00000_20250101000000000.log\"]}",
            "logs",
        ),
        (
            Kind::Bases,
            "{\"bases\":[\".hoodie/metadata/files/files-0000_20250101000000000002.hfile\"],\"upto\":\"00000000000000000\"}",
            "bases",
        ),
        (Kind::Bases, "{\"bases\":[],\"upto\":\"1\"}", "upto"),
    ];
    for (kind, text, field) in rows {
        assert!(rt;
            is_refused_for(alloc, kind, text.as_bytes(), field),
            "{text}"
        );
    }
    Ok(())
}

// Whether an object of these logs is made, read again as it was printed.
fn delta_again(alloc: Global, logs: Listed<Path>) -> Result<bool, Fail> {
    let count = logs.len();
    let Some(meta) = DeltaMeta::new(alloc, logs)? else {
        return Ok(false);
    };
    let line = meta.print(alloc)?;
    match DeltaMeta::read(alloc, line.as_slice()) {
        Ok(again) => Ok(again.logs().len() == count),
        Err(_error) => Ok(false),
    }
}

fn base_again(alloc: Global, bases: Listed<Path>, upto: Instant) -> Result<bool, Fail> {
    let count = bases.len();
    let Some(meta) = BaseMeta::new(alloc, bases, upto)? else {
        return Ok(false);
    };
    let line = meta.print(alloc)?;
    match BaseMeta::read(alloc, line.as_slice()) {
        Ok(again) => Ok(again.bases().len() == count && again.upto() == upto),
        Err(_error) => Ok(false),
    }
}
