ghost use Rattle.std.specs.Prelude.{◌≡◌, IfOk, IfSome, true};
ghost use Rattle.serde_json.specs.View.{view};
ghost use Rattle.mx_meta.specs.Json.{field_in};
ghost use Rattle.mx_meta.specs.Places.{stands_in_order};
ghost use Rattle.mx_meta.specs.ShardFiles.{shard_files_in};

use crate::paths::paths_field;
use crate::places::{ShardFile, stands_in_order};
use mx_base::Path;
use mx_lists::Listed;
use serde_json::Value;
use std::alloc::{AllocError, Global};

/// The paths of logs, or of bases, by partition and shard, that a field is.
#[tactic(auto, unfolding(crate::specs::ShardFiles::shard_files_in))]
pub fn shard_files_field(
    alloc: Global,
    file: ShardFile,
    value: &Value,
    name: &str,
) -> Result<Option<Listed<Path>>, AllocError>
    ensures value { IfOk result (λ paths. paths ≡ field_in (shard_files_in file) name.now (view value.now)) }
    ensures order { IfOk result (λ paths. IfSome paths (λ paths. stands_in_order file paths ≡ true)) }
{
    match paths_field(alloc, value, name)? {
        Some(paths) => {
            if stands_in_order(alloc, file, paths.as_slice())? {
                Ok(Some(paths))
            } else {
                Ok(None)
            }
        }
        None => Ok(None),
    }
}
