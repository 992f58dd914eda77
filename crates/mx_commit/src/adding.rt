// What a commit adds to the index of files.
ghost use Rattle.std.specs.Prelude.{◌≡◌, ◌<◌, ◌^◌, [], All, IfOk, OnOk, Some};
ghost use Rattle.mx_files.specs.Delta.{IsDelta};
ghost use Rattle.mx_folder.specs.Slices.{log_of};
ghost use Rattle.mx_hfile.specs.Encoding.{AreEntries};
ghost use Rattle.mx_log.specs.Encoding.{log_encoding};
ghost use Rattle.mx_commit.specs.Changes.{file_added, files_added};

use crate::NewFile;
use mx_base::{Entry, FileAt, Instant};
use mx_files::delta;
use mx_hfile::MOST_BYTES;
use mx_lists::Bytes;
use mx_log::write_log;
use std::alloc::{AllocError, Global};

/// The entries of the log of a commit of the files: none where it has no file.
pub(crate) fn added_entries(
    alloc: Global,
    at: Instant,
    files: &[NewFile],
) -> Result<Vec<Entry>, AllocError>
    ensures { IfOk result (λ entries. IsDelta (files_added files.now at) [] entries.items) }
{
    let added = added_files(alloc, at, files)?;
    let mut shards = delta(alloc, added.as_slice(), &[])?;
    match shards.pop() {
        Some(shard) => Ok(shard.entries.into_vec()),
        None => Ok(Vec::new(alloc)),
    }
}

/// The log of these entries. The files of a commit are so few that it has room for them.
pub(crate) fn log_bytes(alloc: Global, at: Instant, entries: &[Entry]) -> Result<Bytes, AllocError>
    requires meant { 0 < at }
    requires entries { AreEntries entries.now }
    ensures text { IfOk result (λ bytes. bytes ≡ log_encoding at entries.now) }
    ensures reads { OnOk result (log_of at (log_encoding at entries.now) ≡ Some entries.now) }
{
    // The call tells that the instant is one.
    let _number = at.number();
    if mx_hfile::size(entries) > MOST_BYTES as u64 {
        return Err(AllocError);
    }
    Ok(Bytes::from_vec(write_log(alloc, at, entries)?))
}

fn added_files(alloc: Global, at: Instant, files: &[NewFile]) -> Result<Vec<FileAt>, AllocError>
    ensures added { IfOk result (λ added. added.items ≡ files_added files.now at) }
    ensures small { IfOk result (λ added. All (λ file. file.size < 2 ^ 63) added.items) }
{
    let mut added = Vec::new(alloc);
    for file in files {
        added.push(added_file(at, file)?)?;
    }
    Ok(added)
}

// Nothing of a greater size fits memory.
fn added_file(at: Instant, file: &NewFile) -> Result<FileAt, AllocError>
    ensures added { IfOk result (λ added. added ≡ file_added at file.now) }
    ensures small { IfOk result (λ added. added.size < 2 ^ 63) }
{
    let size = file.bytes.len() as u64;
    if size > i64::MAX as u64 {
        return Err(AllocError);
    }
    Ok(FileAt {
        partition: file.partition.clone()?,
        file: file.file,
        at,
        size,
    })
}
