ghost use Rattle.std.specs.Prelude.{◌≡◌, IfOk};
ghost use Rattle.mx_base.specs.Names.{IsFileId, IsPartition};
ghost use Rattle.mx_base.specs.Paths as paths;

use crate::ascii::ascii_text;
use crate::{FileId, Instant, Partition};
use mx_lists::Text;
use std::alloc::{AllocError, Global};

/// The name of a data file in its partition.
pub fn data_file_name(alloc: Global, file: &FileId, at: Instant) -> Result<Text, AllocError>
    ensures name { IfOk result (λ name. name ≡ paths.data_file_name file.now at) }
    ensures file { IsFileId file.now }
{
    let file = file.print();
    let file = ascii_text(&file);
    let digits = at.print();
    let digits = ascii_text(&digits);
    Ok(Text::from_string(format!(in alloc; "{file}_0-0-0_{digits}.parquet")?))
}

/// The name of a group: its partition and its file id.
pub fn group_name(alloc: Global, partition: &Partition, file: &FileId) -> Result<Text, AllocError>
    ensures name { IfOk result (λ name. name ≡ paths.group_name partition.now file.now) }
    ensures partition { IsPartition partition.now }
{
    let partition = partition.as_str();
    let file = file.print();
    let file = ascii_text(&file);
    Ok(Text::from_string(format!(in alloc; "{partition}/{file}")?))
}
