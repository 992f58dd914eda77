ghost use Rattle.std.specs.Prelude.{◌≡◌, ◌++◌, ℕ, List, All, IfOk, OnOk};
ghost use Rattle.std.specs.BTreeSet.{contains};
ghost use Rattle.std.specs.Cmp.Lexicographic.{slice_cmp};
ghost use Rattle.std.specs.List.{list_any};
ghost use Rattle.std.specs.List.Sorted.{IsStrictlySortedBy};
ghost use Rattle.std.specs.Ordering.{nat_cmp};
ghost use Rattle.mx_commit.specs.Grouping as grouping;
ghost use Rattle.mx_commit.specs.Grouping.{group_stats, has_id, is_under};
ghost use Rattle.mx_commit.specs.Written.{AreOfOtherGroups, IsMetaOf};

use crate::Written;
use mx_base::Partition;
use mx_lists::{Listed, Text};
use mx_meta::{CommitMeta, PartitionStats, WriteStat};
use std::alloc::{AllocError, Global};
use std::collections::BTreeSet;

/// The object of a commit that has these entries.
pub(crate) fn meta_of(alloc: Global, written: &[Written]) -> Result<CommitMeta, AllocError>
    requires apart { AreOfOtherGroups written.now }
    ensures { IfOk result (λ meta. IsMetaOf written.now meta) }
{
    let names = partition_names(alloc, written)?;
    let ids = file_ids(alloc, written)?;
    let mut partitions = Listed::new(alloc);
    for partition in names.iter() {
        partitions.push(partition_stats(alloc, written, &ids, partition)?)?;
    }
    Ok(CommitMeta { partitions })
}

fn partition_names(alloc: Global, written: &[Written]) -> Result<BTreeSet<Partition>, AllocError>
    ensures { IfOk result (λ names. (q : List ℕ) → contains (slice_cmp nat_cmp) names q ≡ list_any (is_under q) written.now) }
{
    let mut names = BTreeSet::new(alloc);
    for entry in written {
        names.insert(entry.partition.clone()?)?;
    }
    Ok(names)
}

fn file_ids(alloc: Global, written: &[Written]) -> Result<BTreeSet<Text>, AllocError>
    ensures has { IfOk result (λ ids. (q : List ℕ) → contains (slice_cmp nat_cmp) ids q ≡ list_any (has_id q) written.now) }
    ensures rise { IfOk result (λ ids. IsStrictlySortedBy (slice_cmp nat_cmp) ids.keys) }
{
    let mut ids = BTreeSet::new(alloc);
    for entry in written {
        ids.insert(entry.stat.file_id.to_text(alloc)?)?;
    }
    Ok(ids)
}

// A partition with the entries of it that have the ids, in the order of the ids.
fn partition_stats(
    alloc: Global,
    written: &[Written],
    ids: &BTreeSet<Text>,
    partition: &Partition,
) -> Result<PartitionStats, AllocError>
    ensures { IfOk result (λ stats. stats ≡ grouping.partition_stats written.now ids.now.keys partition.now) }
{
    let mut stats = Listed::new(alloc);
    for id in ids.iter() {
        push_group(&mut stats, written, partition, id)?;
    }
    Ok(PartitionStats {
        partition: partition.clone()?,
        stats,
    })
}

fn push_group(
    stats: &mut Listed<WriteStat>,
    written: &[Written],
    partition: &Partition,
    id: &Text,
) -> Result<(), AllocError>
    ensures { OnOk result (stats.new ≡ stats.old ++ group_stats written.now partition.now id.now) }
{
    for entry in written {
        if is_of_group(entry, partition, id) {
            stats.push(copy_of(&entry.stat)?)?;
        }
    }
    Ok(())
}

fn is_of_group(entry: &Written, partition: &Partition, id: &Text) -> bool
    ensures { result ≡ grouping.is_of_group partition.now id.now entry.now }
{
    entry.partition == *partition && entry.stat.file_id.print().as_slice() == id.as_str().as_bytes()
}

fn copy_of(stat: &WriteStat) -> Result<WriteStat, AllocError>
    ensures { IfOk result (λ copy. copy ≡ stat.now) }
{
    Ok(WriteStat {
        file_id: stat.file_id,
        file_size_in_bytes: stat.file_size_in_bytes,
        num_writes: stat.num_writes,
        path: stat.path.clone()?,
        prev_commit: stat.prev_commit,
    })
}
