use mx_base::{FileId, Partition};
use mx_lists::Bytes;

/// A data file that a commit writes.
#[derive(Debug, Drop)]
pub struct NewFile {
    pub partition: Partition,
    pub file: FileId,
    /// How many rows it has.
    pub rows: u64,
    /// Its bytes, a file of Parquet.
    pub bytes: Bytes,
}
