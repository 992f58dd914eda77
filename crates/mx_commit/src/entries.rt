ghost use Rattle.std.specs.Prelude.{◌≡◌, ◌++◌, ◌∷◌, [], IfOk, MatchOption};
ghost use Rattle.std.specs.List.{list_any};
ghost use Rattle.mx_commit.specs.Grouping as grouping;
ghost use Rattle.mx_commit.specs.Written as spec;
ghost use Rattle.mx_commit.specs.Written.{AreApartFiles, IsFirstDouble, asked_group};

use crate::{NewFile, Written};
use mx_ask::FileRows;
use mx_base::{Instant, Path};
use mx_meta::WriteStat;
use std::alloc::{AllocError, Global};

/// The first file that is of the group of an earlier one.
pub fn first_double(files: &[FileRows]) -> Option<&FileRows>
    ensures { MatchOption result (AreApartFiles asked_group files.now) (λ file. IsFirstDouble files.now file.now) }
{
    for place in 0..files.len() {
        let file = &files[place];
        if has_group(&files[..place], file) {
            return Some(file);
        }
    }
    None
}

// Whether one of the files is of the file's group.
fn has_group(files: &[FileRows], file: &FileRows) -> bool
    ensures { result ≡ list_any (grouping.is_same_group file.now) files.now }
{
    for other in files {
        if is_same_group(file, other) {
            return true;
        }
    }
    false
}

fn is_same_group(file: &FileRows, other: &FileRows) -> bool
    ensures { result ≡ grouping.is_same_group file.now other.now }
{
    file.partition == other.partition
        && file.file.print().as_slice() == other.file.print().as_slice()
}

/// The entry of a file of a commit at an instant, where the commit `before` wrote the group's file before.
pub fn written_file(
    alloc: Global,
    file: &NewFile,
    at: Instant,
    before: Option<Instant>,
) -> Result<Written, AllocError>
    ensures { IfOk result (λ written. written ≡ spec.written_file file.now at before) }
{
    Ok(Written {
        partition: file.partition.clone()?,
        stat: WriteStat {
            file_id: file.file,
            file_size_in_bytes: file.bytes.len() as u64,
            num_writes: file.rows,
            path: Path::of_data_file(alloc, &file.partition, &file.file, at)?,
            prev_commit: before,
        },
    })
}
