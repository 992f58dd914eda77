ghost use Rattle.std.specs.Prelude.{◌≡◌, ◌<◌, ◌^◌, All, IfOk, IfSome, OnOk, Some, None, map};
ghost use Rattle.serde_json.specs.View.{view, members_view};
ghost use Rattle.serde_json.specs.Written.{compact_text};
ghost use Rattle.mx_meta.specs.CommitText as text;
ghost use Rattle.mx_meta.specs.Fields.{IfBad, IsRefusedFor};
ghost use Rattle.mx_meta.specs.CommitText.{commit_meta_data, commit_meta_fields, commit_meta_of, stat_data, partitions_data, IsWellFormed, HasNames, HasNamesWithin};

use crate::MetaError;
use crate::checking::{Field, check_fields, read_object};
use crate::line::line_bytes;
use crate::stats::partitions_field;
use mx_base::{FileId, Instant, Partition, Path};
use mx_lists::{Bytes, Listed, Text};
use serde_json::{Map, Value, json};
use std::alloc::{AllocError, Global};

/// A data file that a commit wrote.
#[derive(Debug, Drop)]
pub struct WriteStat {
    pub file_id: FileId,
    pub file_size_in_bytes: u64,
    pub num_writes: u64,
    pub path: Path,
    pub prev_commit: Option<Instant>,
}

/// The data files that a commit wrote in one partition.
#[derive(Debug, Drop)]
pub struct PartitionStats {
    pub partition: Partition,
    pub stats: Listed<WriteStat>,
}

/// What a commit wrote, by partition.
#[derive(Debug, Drop)]
pub struct CommitMeta {
    pub partitions: Listed<PartitionStats>,
}

impl CommitMeta {
    /// The object on one line.
    pub fn print(&self, alloc: Global) -> Result<Bytes, AllocError>
        ensures text { IfOk result (λ bytes. bytes ≡ compact_text (commit_meta_data self.now)) }
        ensures reads { IsWellFormed self.now
            → IfOk result (λ bytes. commit_meta_of bytes ≡ Some self.now) }
    {
        let value = meta_value(alloc, self)?;
        line_bytes(alloc, &value)
    }

    /// The object that bytes spell.
    #[tactic(auto, unfolding(crate::specs::CommitText::commit_meta_of, crate::specs::CommitText::commit_meta_in))]
    pub fn read(alloc: Global, bytes: &[u8]) -> Result<CommitMeta, MetaError>
        ensures ok { IfOk result (λ meta. commit_meta_of bytes.now ≡ Some meta) }
        ensures bad { IfBad result (IsRefusedFor commit_meta_fields bytes.now) }
        ensures only { IfBad result (λ _. commit_meta_of bytes.now ≡ None) }
    {
        let object = read_object(alloc, bytes)?;
        let partitions = partitions_field(alloc, &object, "partitionToWriteStats")?;
        let fields = [Field {
            name: "partitionToWriteStats",
            reads: partitions.is_some(),
        }];
        check_fields(alloc, &object, &fields)?;
        Ok(CommitMeta {
            partitions: partitions.unwrap(),
        })
    }
}

#[tactic(auto, unfolding(crate::specs::CommitText::commit_meta_data))]
fn meta_value(alloc: Global, meta: &CommitMeta) -> Result<Value, AllocError>
    ensures value { IfOk result (λ v. view v ≡ commit_meta_data meta.now) }
    ensures names { OnOk result (All HasNamesWithin meta.now.partitions) }
{
    let members = partition_members(alloc, meta.partitions.as_slice())?;
    json!(in alloc; {"partitionToWriteStats": Value::Object(members)})
}

fn partition_members(
    alloc: Global,
    partitions: &[PartitionStats],
) -> Result<Map<String, Value>, AllocError>
    ensures value { IfOk result (λ m. members_view m.entries ≡ partitions_data partitions.now) }
    ensures names { OnOk result (All HasNamesWithin partitions.now) }
{
    let mut members = Map::new(alloc);
    for written in partitions {
        let name = String::from_str(alloc, written.partition.as_str())?;
        let stats = stat_values(alloc, written.stats.as_slice())?;
        members.insert(name, Value::Array(stats))?;
    }
    Ok(members)
}

fn stat_values(alloc: Global, stats: &[WriteStat]) -> Result<Vec<Value>, AllocError>
    ensures value { IfOk result (λ vs. map view vs.items ≡ map stat_data stats.now) }
    ensures names { OnOk result (All HasNames stats.now) }
{
    let mut values = Vec::new(alloc);
    for stat in stats {
        values.push(stat_value(alloc, stat)?)?;
    }
    Ok(values)
}

#[tactic(auto, unfolding(crate::specs::CommitText::stat_data))]
fn stat_value(alloc: Global, stat: &WriteStat) -> Result<Value, AllocError>
    ensures value { IfOk result (λ v. view v ≡ stat_data stat.now) }
    ensures names { OnOk result (HasNames stat.now) }
{
    let id = stat.file_id.to_text(alloc)?;
    let prev = prev_text(alloc, stat.prev_commit)?;
    json!(in alloc; {
        "fileId": id.as_str(),
        "fileSizeInBytes": stat.file_size_in_bytes,
        "numWrites": stat.num_writes,
        "path": stat.path.as_str(),
        "prevCommit": prev.as_str()
    })
}

fn prev_text(alloc: Global, prev: Option<Instant>) -> Result<Text, AllocError>
    ensures value { IfOk result (λ shown. shown ≡ text.prev_text prev) }
    ensures bound { OnOk result (IfSome prev (λ at. at < 10 ^ 17)) }
{
    match prev {
        Some(at) => at.to_text(alloc),
        None => Text::from_str(alloc, "null"),
    }
}
