ghost use Rattle.std.specs.Prelude.{◌≡◌, ◌++◌, IfOk, OnOk, OnErr, map};
ghost use Rattle.mx_base.specs.Paths.{group_name};
ghost use Rattle.mx_meta.specs.declared.commit_meta.WriteStat.{WriteStat};
ghost use Rattle.mx_groups.specs.Groups.{groups_of};

use mx_base::{Partition, group_name};
use mx_lists::{Listed, Text};
use mx_meta::{CommitMeta, WriteStat};
use std::alloc::{AllocError, Global};

/// The groups whose files a commit's object lists.
pub(crate) fn groups_of(alloc: Global, meta: &CommitMeta) -> Result<Listed<Text>, AllocError>
    ensures { IfOk result (λ groups. groups ≡ groups_of meta.now) }
{
    let mut groups = Listed::new(alloc);
    for stats in meta.partitions.as_slice() {
        push_groups(alloc, &mut groups, &stats.partition, stats.stats.as_slice())?;
    }
    Ok(groups)
}

fn push_groups(
    alloc: Global,
    groups: &mut Listed<Text>,
    partition: &Partition,
    stats: &[WriteStat],
) -> Result<(), AllocError>
    ensures { OnOk result (groups.new ≡ groups.old ++ map (λ (s : WriteStat). group_name partition.now s.file_id) stats.now) }
{
    for stat in stats {
        groups.push(group_name(alloc, partition, &stat.file_id)?)?;
    }
    Ok(())
}
