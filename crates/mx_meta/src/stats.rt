ghost use Rattle.std.specs.Prelude.{◌≡◌, IfOk};
ghost use Rattle.serde_json.specs.View.{view, items_view, members_view};
ghost use Rattle.mx_meta.specs.Json.{each_in, field_in};
ghost use Rattle.mx_meta.specs.CommitText.{prev_in, stat_in, stats_in, partition_in, partitions_in, by_partition_in};

use crate::fields::{count_field, text_field, with_names};
use crate::names::{file_id_field, instant};
use crate::paths::path_field;
use crate::rising::is_rising;
use crate::{PartitionStats, WriteStat};
use mx_base::{Instant, NameError, Partition};
use mx_lists::Listed;
use serde_json::{Map, Value};
use std::alloc::{AllocError, Global};

/// The entries by partition that a field is.
#[tactic(auto, unfolding(crate::specs::CommitText::by_partition_in))]
pub fn partitions_field(
    alloc: Global,
    value: &Value,
    name: &str,
) -> Result<Option<Listed<PartitionStats>>, AllocError>
    ensures { IfOk result (λ partitions. partitions ≡ field_in by_partition_in name.now (view value.now)) }
{
    match value.get(name).and_then(Value::as_object) {
        Some(members) => each_partition(alloc, members),
        None => Ok(None),
    }
}

fn each_partition(
    alloc: Global,
    members: &Map<String, Value>,
) -> Result<Option<Listed<PartitionStats>>, AllocError>
    ensures { IfOk result (λ partitions. partitions ≡ partitions_in (members_view members.now.entries)) }
{
    let mut partitions = Listed::new(alloc);
    for (name, stats) in members.iter() {
        match partition(alloc, name.as_str(), stats)? {
            Some(written) => partitions.push(written)?,
            None => return Ok(None),
        }
    }
    Ok(Some(partitions))
}

fn partition(alloc: Global, name: &str, stats: &Value) -> Result<Option<PartitionStats>, AllocError>
    ensures { IfOk result (λ written. written ≡ partition_in name.now (view stats.now)) }
{
    let partition = match Partition::parse(alloc, name) {
        Ok(partition) => partition,
        Err(NameError::BadName) => return Ok(None),
        Err(NameError::NoMemory) => return Err(AllocError),
    };
    match stats_of(alloc, stats)? {
        Some(stats) => Ok(Some(PartitionStats { partition, stats })),
        None => Ok(None),
    }
}

#[tactic(auto, unfolding(crate::specs::CommitText::stats_in))]
fn stats_of(alloc: Global, value: &Value) -> Result<Option<Listed<WriteStat>>, AllocError>
    ensures { IfOk result (λ stats. stats ≡ stats_in (view value.now)) }
{
    let Some(items) = value.as_array() else {
        return Ok(None);
    };
    match each_stat(alloc, items.as_slice())? {
        Some(stats) => {
            if is_rising(stats.as_slice()) {
                Ok(Some(stats))
            } else {
                Ok(None)
            }
        }
        None => Ok(None),
    }
}

fn each_stat(alloc: Global, items: &[Value]) -> Result<Option<Listed<WriteStat>>, AllocError>
    ensures { IfOk result (λ stats. stats ≡ each_in stat_in (items_view items.now)) }
{
    let mut stats = Listed::new(alloc);
    for item in items {
        match stat(alloc, item)? {
            Some(stat) => stats.push(stat)?,
            None => return Ok(None),
        }
    }
    Ok(Some(stats))
}

const STAT_NAMES: [&str; 5] = [
    "fileId",
    "fileSizeInBytes",
    "numWrites",
    "path",
    "prevCommit",
];

#[tactic(auto, unfolding(crate::specs::CommitText::stat_in))]
fn stat(alloc: Global, value: &Value) -> Result<Option<WriteStat>, AllocError>
    ensures { IfOk result (λ stat. stat ≡ stat_in (view value.now)) }
{
    let Some(value) = with_names(value, &STAT_NAMES) else {
        return Ok(None);
    };
    let Some(file_id) = file_id_field(value, "fileId") else {
        return Ok(None);
    };
    let Some(file_size_in_bytes) = count_field(value, "fileSizeInBytes") else {
        return Ok(None);
    };
    let Some(num_writes) = count_field(value, "numWrites") else {
        return Ok(None);
    };
    let Some(path) = path_field(alloc, value, "path")? else {
        return Ok(None);
    };
    let Some(prev_commit) = prev_field(value, "prevCommit") else {
        return Ok(None);
    };
    Ok(Some(WriteStat {
        file_id,
        file_size_in_bytes,
        num_writes,
        path,
        prev_commit,
    }))
}

// The instant of the group's file before, or none where it has none.
#[tactic(auto, unfolding(crate::specs::CommitText::prev_in))]
fn prev_field(value: &Value, name: &str) -> Option<Option<Instant>>
    ensures { result ≡ field_in prev_in name.now (view value.now) }
{
    let text = text_field(value, name)?;
    if text == "null" {
        return Some(None);
    }
    match instant(text) {
        Some(at) => Some(Some(at)),
        None => None,
    }
}
