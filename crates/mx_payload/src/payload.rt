use mx_lists::{Bytes, Listed, Text};
use mx_schema::ColumnStat;

/// A file of a partition, or that it was taken out.
#[derive(Clone, Debug, Drop)]
pub struct NameWord {
    pub name: Text,
    pub size: u64,
    pub deleted: bool,
}

/// What the index says under one key.
#[derive(Clone, Debug, Drop)]
pub enum Payload {
    Partitions(Listed<Text>),
    Files(Listed<NameWord>),
    Stats {
        file: Text,
        column: Text,
        stat: ColumnStat,
        deleted: bool,
    },
    Bloom {
        bits: Bytes,
        deleted: bool,
    },
    Location {
        partition: Text,
        file: Text,
        instant: u64,
        deleted: bool,
    },
}
