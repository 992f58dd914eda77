use crate::{FileId, Instant, Partition};
use mx_lists::{Bytes, Listed};

/// A key of an index partition and the payload under it.
#[derive(Clone, Debug, Drop)]
pub struct Entry {
    pub key: Bytes,
    pub value: Bytes,
}

/// The entries of one shard.
#[derive(Clone, Debug, Drop)]
pub struct ShardEntries {
    pub shard: u32,
    pub entries: Listed<Entry>,
}

/// A data file and its size.
#[derive(Clone, Debug, Drop)]
pub struct FileAt {
    pub partition: Partition,
    pub file: FileId,
    pub at: Instant,
    pub size: u64,
}
