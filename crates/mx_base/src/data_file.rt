ghost use Rattle.std.specs.Prelude.{◌≡◌, ◌≢◌, ℕ, List, ◌<◌, ◌^◌, ◌++◌, length, IfOk, IfSome, MatchOption, Some, codes};
ghost use Rattle.mx_base.specs.DataFiles.{IsDataFileAt};
ghost use Rattle.mx_base.specs.Digits.{instant_text};
ghost use Rattle.mx_base.specs.Names.{IsFileId};
ghost use Rattle.mx_base.specs.Paths.{data_path};
ghost use Rattle.mx_base.specs.declared.data_file.DataFile as files;

use crate::splits::split_instant;
use crate::{FileId, Instant, NameError, Partition, Path};
use std::alloc::{AllocError, Global};

/// What the path of a data file says.
#[derive(Debug, Drop)]
pub struct DataFile {
    pub partition: Partition,
    pub file: FileId,
    pub at: Instant,
}

impl DataFile {
    /// The data file that a path is of.
    pub fn of(alloc: Global, path: &Path) -> Result<Option<DataFile>, AllocError>
        ensures found { IfOk result (λ found. IfSome found (IsDataFileAt path.now)) }
        ensures only { (file : files.DataFile) → IsDataFileAt path.now file → IfOk result (λ found. found ≡ Some file) }
    {
        let Some((folder, file, number)) = split_file(path.as_str()) else {
            return Ok(None);
        };
        let Ok(file) = FileId::parse(file) else {
            return Ok(None);
        };
        match Partition::parse(alloc, folder) {
            Ok(partition) => Ok(Some(DataFile {
                partition,
                file,
                at: Instant::of_number(number),
            })),
            Err(NameError::BadName) => Ok(None),
            Err(NameError::NoMemory) => Err(AllocError),
        }
    }
}

// A partition, a file id and an instant, as far as the lengths tell them.
fn split_file(path: &str) -> Option<(&str, &str, u64)>
    ensures { MatchOption result ((partition file : List ℕ) (at : ℕ) → IsFileId file → 0 < at → at < 10 ^ 17 → path.now ≢ data_path partition file at) (λ read. (0 < read.2) × (read.2 < 10 ^ 17) × (length read.1.now ≡ 36) × (path.now ≡ data_path read.0.now read.1.now read.2)) }
{
    if path.len() < 69 {
        return None;
    }
    let Some((folder, name)) = path.split_at_checked(path.len() - 69) else {
        return None;
    };
    let Some(name) = name.strip_prefix("/") else {
        return None;
    };
    let Some((file, rest)) = name.split_at_checked(36) else {
        return None;
    };
    match instant_behind(rest) {
        Some(number) => Some((folder, file, number)),
        None => None,
    }
}

fn instant_behind(rest: &str) -> Option<u64>
    ensures { MatchOption result ((at : ℕ) → 0 < at → at < 10 ^ 17 → rest.now ≢ codes "_0-0-0_" ++ (instant_text at ++ codes ".parquet")) (λ at. (0 < at) × (at < 10 ^ 17) × (rest.now ≡ codes "_0-0-0_" ++ (instant_text at ++ codes ".parquet"))) }
{
    let Some(name) = rest.strip_prefix("_0-0-0_") else {
        return None;
    };
    let Some((number, ending)) = split_instant(name) else {
        return None;
    };
    if ending != ".parquet" {
        return None;
    }
    if number == 0 { None } else { Some(number) }
}
