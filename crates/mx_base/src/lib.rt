//! Names of a table: instants, partitions, file ids and paths, each a value exactly where its text is in the grammar.
//!
//! | call | contract |
//! |---|---|
//! | `Instant::parse`, `print` | the seventeen digits of a number, exact both ways |
//! | `Partition::parse`, `FileId::parse`, `Path::parse` | a value exactly where the text is in the grammar |
//! | `Path::of_commit`, `of_files_log`, `of_data_file` | the names of a table's objects |
//! | `Path::commit_instant` | the instant at which the path is a commit's |
//! | `ObjectName::of`, `path`, `path_has_one_name` | the one name below `.hoodie/` whose path it is |
//! | `DataFile::of` | the partition, file id and instant of a data file's path, exact both ways |
//! | `Part::parse`, `shard` | the index partitions, and where the entries of a name stand |
#![tactic(auto)]

mod ascii;
mod data_file;
mod digits;
mod endings;
mod entry;
mod file_id;
mod grammar;
mod instant;
mod named;
mod object_name;
#[cfg(test)]
mod object_tests;
mod part;
mod partition;
mod path;
mod record_key;
mod seat;
mod sharding;
mod splits;
#[cfg(test)]
mod tests;

pub use data_file::DataFile;
pub use entry::{Entry, FileAt, ShardEntries};
pub use file_id::FileId;
pub use instant::{BadName, Instant};
pub use named::{data_file_name, group_name};
pub use object_name::{
    ActionKind, ActionState, BaseKind, MetadataActionKind, ObjectName, path_has_one_name,
};
pub use part::Part;
pub use partition::Partition;
pub use path::{NameError, Path};
pub use record_key::RecordKey;
pub use seat::Seat;
pub use sharding::shard;
