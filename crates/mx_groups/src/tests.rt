use crate::Groups;
use mx_base::{FileId, Instant, Partition, Path};
use mx_lists::{Listed, Text};
use mx_meta::{CommitMeta, PartitionStats, WriteStat};
use mx_model::Action;
use std::alloc::Global;
use std::test::Fail;

const ONE: &str = "11111111-1111-4111-8111-111111111111";

const TWO: &str = "22222222-2222-4222-8222-222222222222";

fn instant(number: u64) -> Result<Instant, Fail> {
    match Instant::new(number) {
        Some(at) => Ok(at),
        None => Err(Fail::new("the number is an instant")),
    }
}

// A commit of one file of each of these groups.
fn commit_of(alloc: Global, number: u64, groups: &[(&str, &str)]) -> Result<Action, Fail> {
    let at = instant(number)?;
    let mut partitions = Listed::new(alloc);
    for (partition, id) in groups {
        partitions.push(stats_of(alloc, at, partition, id)?)?;
    }
    Ok(Action {
        at,
        meta: CommitMeta { partitions },
    })
}

fn stats_of(alloc: Global, at: Instant, partition: &str, id: &str) -> Result<PartitionStats, Fail> {
    let partition = Partition::parse(alloc, partition)?;
    let file_id = FileId::parse(id)?;
    let path = Path::of_data_file(alloc, &partition, &file_id, at)?;
    let stat = WriteStat {
        file_id,
        file_size_in_bytes: 5,
        num_writes: 0,
        path,
        prev_commit: None,
    };
    Ok(PartitionStats {
        partition,
        stats: Listed::from_vec(vec![in alloc; stat]?),
    })
}

fn three_commits(alloc: Global) -> Result<Vec<Action>, Fail> {
    Ok(vec![in alloc;
        commit_of(alloc, 30, &[("p", ONE), ("q", TWO)])?,
        commit_of(alloc, 10, &[("p", ONE), ("p", TWO)])?,
        commit_of(alloc, 20, &[])?,
    ]?)
}

fn newest(alloc: Global, groups: &Groups, group: &str) -> Result<u64, Fail> {
    let group = Text::from_str(alloc, group)?;
    Ok(groups.newest(&group).number())
}

// The newest commits of four groups.
fn newest_of_all(alloc: Global, groups: &Groups) -> Result<[u64; 4], Fail> {
    Ok([
        newest(alloc, groups, "p/11111111-1111-4111-8111-111111111111")?,
        newest(alloc, groups, "p/22222222-2222-4222-8222-222222222222")?,
        newest(alloc, groups, "q/22222222-2222-4222-8222-222222222222")?,
        newest(alloc, groups, "q/11111111-1111-4111-8111-111111111111")?,
    ])
}

fn newest_at_first(alloc: Global) -> Result<[u64; 4], Fail> {
    let commits = three_commits(alloc)?;
    let groups = Groups::of(alloc, commits.as_slice())?;
    newest_of_all(alloc, &groups)
}

fn newest_without(alloc: Global, number: u64) -> Result<[u64; 4], Fail> {
    let commits = three_commits(alloc)?;
    let mut groups = Groups::of(alloc, commits.as_slice())?;
    groups.forget(&Path::of_commit(alloc, instant(number)?)?);
    newest_of_all(alloc, &groups)
}

#[test]
fn the_newest_commit_of_a_group_is_the_last_that_wrote_a_file_of_it(
    rt: HostRuntime,
) -> Result<(), Fail> {
    let alloc = rt.alloc();
    assert!(rt; newest_at_first(alloc)? == [30, 10, 30, 0]);
    Ok(())
}

#[test]
fn a_commit_that_is_taken_out_counts_no_more(rt: HostRuntime) -> Result<(), Fail> {
    let alloc = rt.alloc();
    assert!(rt; newest_without(alloc, 30)? == [10, 10, 0, 0]);
    assert!(rt; newest_without(alloc, 10)? == [30, 0, 30, 0]);
    assert!(rt; newest_without(alloc, 20)? == [30, 10, 30, 0]);
    Ok(())
}

#[test]
fn the_files_of_all_commits_are_counted(rt: HostRuntime) -> Result<(), Fail> {
    let alloc = rt.alloc();
    let commits = three_commits(alloc)?;
    let mut groups = Groups::of(alloc, commits.as_slice())?;
    assert_eq!(rt; groups.live(), 4);
    groups.forget(&Path::of_commit(alloc, instant(20)?)?);
    assert_eq!(rt; groups.live(), 4);
    groups.forget(&Path::of_commit(alloc, instant(30)?)?);
    assert_eq!(rt; groups.live(), 2);
    groups.forget(&Path::of_commit(alloc, instant(10)?)?);
    assert_eq!(rt; groups.live(), 0);
    Ok(())
}
