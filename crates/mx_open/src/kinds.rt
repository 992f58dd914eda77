// What the bytes of an object are to be, wherever it stands.
ghost use Rattle.std.specs.Prelude.{◌≡◌, All, IfOk, ◌∷◌, []};
ghost use Rattle.serde_json.specs.Data.{object, no_members};
ghost use Rattle.serde_json.specs.View.{view};
ghost use Rattle.mx_base.specs.Objects.{object_path};
ghost use Rattle.mx_base.specs.Paths.{data_path};
ghost use Rattle.mx_folder.specs.Named.{first_base};
ghost use Rattle.mx_folder.specs.Reading.{IsEmptyObject, IsDataFileOf, IsLogOf, IsBaseOf, NamesItsFiles, ReadsAsCommit, ReadsAsDelta, ReadsAsFirst};
ghost use Rattle.mx_meta.specs.declared.commit_meta.WriteStat.{WriteStat};
ghost use Rattle.mx_open.specs.Deciding.{Decides, IsLogAt};

use mx_base::{ActionState, DataFile, Instant, ObjectName, Part, Partition, Path};
use mx_lists::Same;
use mx_meta::{BaseMeta, CommitMeta, DeltaMeta, MetaError, PartitionStats, PathList, WriteStat};
use serde_json::Value;
use std::alloc::{AllocError, Global};

/// Whether these are the bytes of a commit's object of this state.
pub(crate) fn reads_as_commit(
    alloc: Global,
    at: Instant,
    state: ActionState,
    bytes: &[u8],
) -> Result<bool, AllocError>
    ensures { IfOk result (λ reads. Decides reads (ReadsAsCommit at state bytes.now)) }
{
    match state {
        ActionState::Requested => is_empty_object(alloc, bytes),
        ActionState::Inflight => lists_data_files(alloc, at, bytes),
        ActionState::Completed => lists_commit(alloc, at, bytes),
    }
}

/// Whether these are the bytes of the object of a commit's logs.
pub(crate) fn reads_as_delta(
    alloc: Global,
    at: Instant,
    completed: bool,
    bytes: &[u8],
) -> Result<bool, AllocError>
    ensures { IfOk result (λ reads. Decides reads (ReadsAsDelta at completed bytes.now)) }
{
    if !completed {
        return is_empty_object(alloc, bytes);
    }
    match DeltaMeta::read(alloc, bytes) {
        Ok(meta) => Ok(are_logs_of(meta.logs(), at)),
        Err(MetaError::BadMeta { .. }) => Ok(false),
        Err(MetaError::NoMemory) => Err(AllocError),
    }
}

/// Whether these are the bytes of the object of the first base.
pub(crate) fn reads_as_first(
    alloc: Global,
    completed: bool,
    bytes: &[u8],
) -> Result<bool, AllocError>
    ensures { IfOk result (λ reads. Decides reads (ReadsAsFirst completed bytes.now)) }
{
    if !completed {
        return is_empty_object(alloc, bytes);
    }
    match BaseMeta::read(alloc, bytes) {
        Ok(meta) => is_first_meta(alloc, &meta),
        Err(MetaError::BadMeta { .. }) => Ok(false),
        Err(MetaError::NoMemory) => Err(AllocError),
    }
}

/// Whether the path is one of a base of the part.
pub(crate) fn is_base_of(path: &Path, part: Part) -> bool
    ensures { Decides result (IsBaseOf part path.now) }
{
    match ObjectName::of(path) {
        Some(ObjectName::Base { part: found, .. }) => found.same(&part),
        _ => false,
    }
}

fn is_empty_object(alloc: Global, bytes: &[u8]) -> Result<bool, AllocError>
    ensures { IfOk result (λ empty. Decides empty (IsEmptyObject bytes.now)) }
{
    match Value::from_slice(alloc, bytes) {
        Ok(value) => Ok(has_no_members(&value)),
        Err(error) if error.is_memory() => Err(AllocError),
        Err(_) => Ok(false),
    }
}

fn has_no_members(value: &Value) -> bool
    ensures { Decides result (view value.now ≡ object no_members) }
{
    match value.as_object() {
        Some(members) => members.is_empty(),
        None => false,
    }
}

fn lists_data_files(alloc: Global, at: Instant, bytes: &[u8]) -> Result<bool, AllocError>
    ensures { IfOk result (λ reads. Decides reads (ReadsAsCommit at ActionState.Inflight bytes.now)) }
{
    match PathList::read(alloc, bytes) {
        Ok(list) => are_data_files_of(alloc, list.paths.as_slice(), at),
        Err(MetaError::BadMeta { .. }) => Ok(false),
        Err(MetaError::NoMemory) => Err(AllocError),
    }
}

fn lists_commit(alloc: Global, at: Instant, bytes: &[u8]) -> Result<bool, AllocError>
    ensures { IfOk result (λ reads. Decides reads (ReadsAsCommit at ActionState.Completed bytes.now)) }
{
    match CommitMeta::read(alloc, bytes) {
        Ok(meta) => names_its_files(alloc, meta.partitions.as_slice(), at),
        Err(MetaError::BadMeta { .. }) => Ok(false),
        Err(MetaError::NoMemory) => Err(AllocError),
    }
}

fn are_data_files_of(alloc: Global, paths: &[Path], at: Instant) -> Result<bool, AllocError>
    ensures { IfOk result (λ all. Decides all (All (IsDataFileOf at) paths.now)) }
{
    for path in paths {
        if !is_data_file_of(alloc, path, at)? {
            return Ok(false);
        }
    }
    Ok(true)
}

fn is_data_file_of(alloc: Global, path: &Path, at: Instant) -> Result<bool, AllocError>
    ensures { IfOk result (λ is. Decides is (IsDataFileOf at path.now)) }
{
    match DataFile::of(alloc, path)? {
        Some(file) => Ok(file.at.number() == at.number()),
        None => Ok(false),
    }
}

fn names_its_files(
    alloc: Global,
    partitions: &[PartitionStats],
    at: Instant,
) -> Result<bool, AllocError>
    ensures { IfOk result (λ all. Decides all (NamesItsFiles at (record { partitions = partitions.now }))) }
{
    for written in partitions {
        if !are_named(alloc, &written.partition, written.stats.as_slice(), at)? {
            return Ok(false);
        }
    }
    Ok(true)
}

fn are_named(
    alloc: Global,
    partition: &Partition,
    stats: &[WriteStat],
    at: Instant,
) -> Result<bool, AllocError>
    ensures { IfOk result (λ all. Decides all (All (λ (s : WriteStat). s.path ≡ data_path partition.now s.file_id at) stats.now)) }
{
    for stat in stats {
        if !is_named(alloc, partition, stat, at)? {
            return Ok(false);
        }
    }
    Ok(true)
}

fn is_named(
    alloc: Global,
    partition: &Partition,
    stat: &WriteStat,
    at: Instant,
) -> Result<bool, AllocError>
    ensures { IfOk result (λ is. Decides is (stat.now.path ≡ data_path partition.now stat.now.file_id at)) }
{
    let path = Path::of_data_file(alloc, partition, &stat.file_id, at)?;
    Ok(stat.path.same(&path))
}

fn are_logs_of(paths: &[Path], at: Instant) -> bool
    ensures { Decides result (All (IsLogOf at) paths.now) }
{
    for path in paths {
        if !is_log_of(path, at) {
            return false;
        }
    }
    true
}

fn is_log_of(path: &Path, at: Instant) -> bool
    ensures { Decides result (IsLogOf at path.now) }
{
    match ObjectName::of(path) {
        Some(name) => is_log_name(name, at),
        None => false,
    }
}

fn is_log_name(name: ObjectName, at: Instant) -> bool
    ensures { Decides result (IsLogAt at name) }
{
    match name {
        ObjectName::Log { at: found, .. } => found.number() == at.number(),
        _ => false,
    }
}

fn is_first_meta(alloc: Global, meta: &BaseMeta) -> Result<bool, AllocError>
    ensures { IfOk result (λ first. Decides first (meta.now ≡ record { bases = object_path first_base ∷ []; upto = 0 })) }
{
    let base = crate::new_table::first_base().path(alloc)?;
    match meta.bases() {
        [path] => Ok(path.same(&base) && meta.upto().number() == 0),
        _ => Ok(false),
    }
}
