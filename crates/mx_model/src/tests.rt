use super::*;
use mx_ask::{FileSize, Question, Reply};
use mx_base::{FileId, Instant, Partition, Path};
use mx_lists::Listed;
use mx_meta::{CommitMeta, PartitionStats, WriteStat};
use std::alloc::{AllocError, Global};
use std::test::Fail;

const ZERO: &str = "00000000-0000-4000-8000-000000000000";

const ONE: &str = "11111111-1111-4111-8111-111111111111";

const TWO: &str = "22222222-2222-4222-8222-222222222222";

const FIRST: &str = "2024-01-01";

const SECOND: &str = "2024-01-02";

// Each file of the tests has a size of its own.
fn name_of(size: u64) -> &'static str {
    match size {
        100 => "11111111-1111-4111-8111-111111111111_0-0-0_00000000000000010.parquet",
        150 => "11111111-1111-4111-8111-111111111111_0-0-0_00000000000000020.parquet",
        200 => "22222222-2222-4222-8222-222222222222_0-0-0_00000000000000010.parquet",
        300 => "00000000-0000-4000-8000-000000000000_0-0-0_00000000000000030.parquet",
        _ => "22222222-2222-4222-8222-222222222222_0-0-0_00000000000000030.parquet",
    }
}

fn stats_of(
    alloc: Global,
    at: Instant,
    partition: &str,
    id: &str,
    size: u64,
) -> Result<PartitionStats, Fail> {
    let partition = Partition::parse(alloc, partition)?;
    let file_id = FileId::parse(id)?;
    let mut stats = Listed::new(alloc);
    stats.push(WriteStat {
        file_id,
        file_size_in_bytes: size,
        num_writes: 1,
        path: Path::of_data_file(alloc, &partition, &file_id, at)?,
        prev_commit: None,
    })?;
    Ok(PartitionStats { partition, stats })
}

fn commit_of(alloc: Global, at: u64, wrote: &[(&str, &str, u64)]) -> Result<Action, Fail> {
    let at = Instant::new(at).ok_or("no instant")?;
    let mut partitions = Listed::new(alloc);
    for (partition, id, size) in wrote {
        partitions.push(stats_of(alloc, at, partition, id, *size)?)?;
    }
    Ok(Action {
        at,
        meta: CommitMeta { partitions },
    })
}

fn are(files: &[FileSize], sizes: &[u64]) -> bool {
    files.len() == sizes.len()
        && files.iter().zip(sizes).all(|(file, size)| file.size == *size
            && file.name.as_str() == name_of(*size))
}

#[test]
fn a_partition_shows_the_files_of_the_commits_up_to_the_instant(
    rt: HostRuntime,
) -> Result<(), Fail> {
    let alloc = rt.alloc();
    let mut actions = Vec::new(alloc);
    actions.push(commit_of(alloc, 10, &[(FIRST, ONE, 100), (SECOND, TWO, 200)])?)?;
    actions.push(commit_of(alloc, 20, &[(FIRST, ONE, 150)])?)?;
    actions.push(commit_of(alloc, 30, &[(SECOND, TWO, 0), (FIRST, ZERO, 300)])?)?;
    let cases: [(u64, &str, &[u64]); 13] = [
        (0, FIRST, &[]),
        (9, SECOND, &[]),
        (10, FIRST, &[100]),
        (10, SECOND, &[200]),
        (19, FIRST, &[100]),
        (20, FIRST, &[100, 150]),
        (20, SECOND, &[200]),
        (29, FIRST, &[100, 150]),
        (30, FIRST, &[300, 100, 150]),
        (30, SECOND, &[200, 0]),
        (31, FIRST, &[300, 100, 150]),
        (99_999_999_999_999_999, SECOND, &[200, 0]),
        (30, "2024-01-03", &[]),
    ];
    for (number, partition, sizes) in cases {
        let upto = Instant::new(number).ok_or("no instant")?;
        let question = Question::Files {
            partition: Partition::parse(alloc, partition)?,
        };
        let maps = rebuild(alloc, actions.as_slice(), upto)?;
        match answer(alloc, &question, &maps, upto)? {
            Reply::Files { at, files } => {
                assert_eq!(rt; at.number(), number);
                assert!(rt; are(files.as_slice(), sizes), "{number}");
            }
            _ => return Err(Fail::from("another reply")),
        }
    }
    Ok(())
}

// How many partitions the commits up to an instant list, and whether the first one is this.
fn partitions_at(
    alloc: Global,
    actions: &[Action],
    number: u64,
    first: &str,
) -> Result<(usize, bool), Fail> {
    let upto = Instant::new(number).ok_or("no instant")?;
    let maps = rebuild(alloc, actions, upto)?;
    match answer(alloc, &Question::Partitions, &maps, upto)? {
        Reply::Partitions { partitions, .. } => {
            let names = partitions.as_slice();
            let begins = names.first().is_some_and(|name| name.as_str() == first);
            Ok((names.len(), begins))
        }
        _ => Err(Fail::from("another reply")),
    }
}

#[test]
fn the_partitions_are_those_that_the_commits_name(rt: HostRuntime) -> Result<(), Fail> {
    let alloc = rt.alloc();
    let mut actions = Vec::new(alloc);
    actions.push(commit_of(alloc, 10, &[(SECOND, TWO, 200)])?)?;
    actions.push(commit_of(alloc, 20, &[(FIRST, ONE, 150), (SECOND, ONE, 0)])?)?;
    let cases = [
        (9, FIRST, 0, false),
        (10, SECOND, 1, true),
        (20, FIRST, 2, true),
    ];
    for (number, first, count, begins) in cases {
        let (found, is_first) = partitions_at(alloc, actions.as_slice(), number, first)?;
        assert!(rt; found == count && is_first == begins, "{number}");
    }
    Ok(())
}
