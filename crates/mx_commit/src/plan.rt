ghost use Rattle.std.specs.Prelude.{◌≡◌, ◌<◌, ◌++◌, ◌∷◌, [], All, IfOk, IsTrue, OnOk, Some, codes, map};
ghost use Rattle.serde_json.specs.Written.{compact_text};
ghost use Rattle.mx_base.specs.Objects.{object_path};
ghost use Rattle.mx_folder.specs.Slices.{log_of};
ghost use Rattle.mx_hfile.specs.Encoding.{AreEntries};
ghost use Rattle.mx_log.specs.Encoding.{log_encoding};
ghost use Rattle.mx_meta.specs.CommitText.{HasSmallCounts, IsWellFormed, commit_meta_data, commit_meta_of};
ghost use Rattle.mx_meta.specs.PathLists.{path_list_data, path_list_of};
ghost use Rattle.mx_meta.specs.ShardFiles.{delta_meta_data, delta_meta_of};
ghost use Rattle.mx_store.specs.declared.change.Change.TheVariants.{Create};
ghost use Rattle.mx_commit.specs.Changes.{IsPlanOf, added_changes, completion, data_changes, file_changes, files_planned, log_changes, logs_written};
ghost use Rattle.mx_commit.specs.Written.{AreApartFiles, AreWritten, IsNamedFile, data_file, new_group};

use crate::adding::{added_entries, log_bytes};
use crate::meta::meta_of;
use crate::{NewFile, Written};
use mx_base::{ActionState, Entry, Instant, ObjectName, Path};
use mx_folder::{commit_name, delta_name, log_name};
use mx_lists::{Bytes, Listed};
use mx_meta::{CommitMeta, DeltaMeta, PathList};
use mx_store::Change;
use std::alloc::{AllocError, Global};

/// The changes of a commit of the files at an instant, which have these entries.
pub fn plan_commit(
    alloc: Global,
    at: Instant,
    files: Listed<NewFile>,
    written: &[Written],
) -> Result<Vec<Change>, AllocError>
    requires meant { 0 < at }
    requires apart { AreApartFiles new_group files }
    requires entries { AreWritten files at written.now }
    ensures plan { IfOk result (λ changes. IsPlanOf files written.now at changes.items) }
    ensures names { OnOk result (All IsNamedFile files) }
{
    check_counts(written)?;
    let meta = meta_of(alloc, written)?;
    let entries = added_entries(alloc, at, files.as_slice())?;
    let mut logs = Vec::new(alloc);
    push_logs(alloc, &mut logs, at, files.as_slice(), entries.as_slice())?;
    let mut changes = Vec::new(alloc);
    push_files(alloc, &mut changes, at, files)?;
    changes.append(&mut logs)?;
    push_completion(alloc, &mut changes, at, &meta)?;
    Ok(changes)
}

// Nothing of a greater size fits memory.
fn check_counts(written: &[Written]) -> Result<(), AllocError>
    ensures { OnOk result (All (λ w. HasSmallCounts w.stat) written.now) }
{
    for entry in written {
        if !has_small_counts(entry) {
            return Err(AllocError);
        }
    }
    Ok(())
}

fn has_small_counts(entry: &Written) -> bool
    ensures { IsTrue result → HasSmallCounts entry.now.stat }
{
    entry.stat.file_size_in_bytes <= i64::MAX as u64 && entry.stat.num_writes <= i64::MAX as u64
}

fn push_files(
    alloc: Global,
    changes: &mut Vec<Change>,
    at: Instant,
    files: Listed<NewFile>,
) -> Result<(), AllocError>
    ensures changes { OnOk result (changes.new.items ≡ changes.old.items ++ file_changes files at) }
    ensures reads { OnOk result (path_list_of (compact_text (path_list_data (files_planned files at))) ≡ Some (files_planned files at)) }
    ensures names { OnOk result (All IsNamedFile files) }
{
    push(
        changes,
        mark(alloc, commit_name(at, ActionState::Requested))?,
    )?;
    let planned = planned_text(alloc, at, files.as_slice())?;
    push(
        changes,
        create(alloc, commit_name(at, ActionState::Inflight), planned)?,
    )?;
    push_data(alloc, changes, at, files.into_vec())
}

fn push_data(
    alloc: Global,
    changes: &mut Vec<Change>,
    at: Instant,
    files: Vec<NewFile>,
) -> Result<(), AllocError>
    ensures changes { OnOk result (changes.new.items ≡ changes.old.items ++ data_changes files.items at) }
    ensures names { OnOk result (All IsNamedFile files.items) }
{
    for file in files {
        push(changes, data_change(alloc, at, file)?)?;
    }
    Ok(())
}

fn push_logs(
    alloc: Global,
    changes: &mut Vec<Change>,
    at: Instant,
    files: &[NewFile],
    entries: &[Entry],
) -> Result<(), AllocError>
    requires meant { 0 < at }
    requires entries { AreEntries entries.now }
    ensures changes { OnOk result (changes.new.items ≡ changes.old.items ++ log_changes files.now at entries.now) }
    ensures added { OnOk result (log_of at (log_encoding at entries.now) ≡ Some entries.now) }
    ensures logs { OnOk result (delta_meta_of (compact_text (delta_meta_data (logs_written files.now at))) ≡ Some (logs_written files.now at)) }
{
    push(changes, mark(alloc, delta_name(at, false))?)?;
    let log = log_bytes(alloc, at, entries)?;
    push_added(alloc, changes, at, files, entries, log)?;
    let logs = logs_text(alloc, at, files)?;
    push(changes, create(alloc, delta_name(at, true), logs)?)
}

// A commit without files has no log.
fn push_added(
    alloc: Global,
    changes: &mut Vec<Change>,
    at: Instant,
    files: &[NewFile],
    entries: &[Entry],
    log: Bytes,
) -> Result<(), AllocError>
    requires text { log ≡ log_encoding at entries.now }
    ensures { OnOk result (changes.new.items ≡ changes.old.items ++ added_changes files.now at entries.now) }
{
    match files {
        [] => Ok(()),
        [_, ..] => push(changes, create(alloc, log_name(at), log)?),
    }
}

fn push_completion(
    alloc: Global,
    changes: &mut Vec<Change>,
    at: Instant,
    meta: &CommitMeta,
) -> Result<(), AllocError>
    ensures changes { OnOk result (changes.new.items ≡ changes.old.items ++ completion at meta.now ∷ []) }
    ensures reads { IsWellFormed meta.now → OnOk result (commit_meta_of (compact_text (commit_meta_data meta.now)) ≡ Some meta.now) }
{
    let text = meta_text(alloc, meta)?;
    push(
        changes,
        create(alloc, commit_name(at, ActionState::Completed), text)?,
    )
}

fn meta_text(alloc: Global, meta: &CommitMeta) -> Result<Bytes, AllocError>
    ensures text { IfOk result (λ bytes. bytes ≡ compact_text (commit_meta_data meta.now)) }
    ensures reads { IsWellFormed meta.now → OnOk result (commit_meta_of (compact_text (commit_meta_data meta.now)) ≡ Some meta.now) }
{
    meta.print(alloc)
}

fn push(changes: &mut Vec<Change>, change: Change) -> Result<(), AllocError>
    ensures { OnOk result (changes.new.items ≡ changes.old.items ++ change ∷ []) }
{
    changes.push(change)?;
    Ok(())
}

// An object that says nothing but that it stands.
fn mark(alloc: Global, name: ObjectName) -> Result<Change, AllocError>
    ensures { IfOk result (λ change. change ≡ Create (object_path name) (codes "{}")) }
{
    let empty: &[u8] = b"{}";
    create(alloc, name, Bytes::from_slice(alloc, empty)?)
}

fn planned_text(alloc: Global, at: Instant, files: &[NewFile]) -> Result<Bytes, AllocError>
    ensures text { IfOk result (λ bytes. bytes ≡ compact_text (path_list_data (files_planned files.now at))) }
    ensures reads { OnOk result (path_list_of (compact_text (path_list_data (files_planned files.now at))) ≡ Some (files_planned files.now at)) }
{
    let list = PathList {
        paths: planned_paths(alloc, at, files)?,
    };
    list.print(alloc)
}

fn planned_paths(alloc: Global, at: Instant, files: &[NewFile]) -> Result<Listed<Path>, AllocError>
    ensures { IfOk result (λ paths. paths ≡ map (λ file. data_file file at) files.now) }
{
    let mut paths = Listed::new(alloc);
    for file in files {
        paths.push(Path::of_data_file(alloc, &file.partition, &file.file, at)?)?;
    }
    Ok(paths)
}

fn logs_text(alloc: Global, at: Instant, files: &[NewFile]) -> Result<Bytes, AllocError>
    requires meant { 0 < at }
    ensures text { IfOk result (λ bytes. bytes ≡ compact_text (delta_meta_data (logs_written files.now at))) }
    ensures reads { OnOk result (delta_meta_of (compact_text (delta_meta_data (logs_written files.now at))) ≡ Some (logs_written files.now at)) }
{
    let logs = logs_written(alloc, at, files)?;
    logs.print(alloc)
}

fn logs_written(alloc: Global, at: Instant, files: &[NewFile]) -> Result<DeltaMeta, AllocError>
    requires meant { 0 < at }
    ensures { IfOk result (λ logs. logs ≡ logs_written files.now at) }
{
    // The call tells that the instant is one.
    let _number = at.number();
    let logs = log_paths(alloc, at, files)?;
    match DeltaMeta::new(alloc, logs)? {
        Some(meta) => Ok(meta),
        None => unreachable!(),
    }
}

fn log_paths(alloc: Global, at: Instant, files: &[NewFile]) -> Result<Listed<Path>, AllocError>
    ensures { IfOk result (λ logs. logs ≡ logs_written files.now at) }
{
    match files {
        [] => Ok(Listed::new(alloc)),
        [_, ..] => {
            let log = log_name(at).path(alloc)?;
            Ok(Listed::from_vec(vec![in alloc; log]?))
        }
    }
}

fn create(alloc: Global, name: ObjectName, bytes: Bytes) -> Result<Change, AllocError>
    ensures { IfOk result (λ change. change ≡ Create (object_path name) bytes) }
{
    let path = name.path(alloc)?;
    Ok(Change::Create { path, bytes })
}

// The file's bytes go into the change.
fn data_change(alloc: Global, at: Instant, file: NewFile) -> Result<Change, AllocError>
    ensures change { IfOk result (λ change. change ≡ Create (data_file file at) file.bytes) }
    ensures names { IsNamedFile file }
{
    // The calls tell that the file's names are such.
    let _partition = file.partition.as_str();
    let _id = file.file.print();
    let path = Path::of_data_file(alloc, &file.partition, &file.file, at)?;
    Ok(Change::Create {
        path,
        bytes: file.bytes,
    })
}
