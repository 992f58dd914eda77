use mx_base::{FileId, Instant, Partition, Path};
use mx_lists::{Listed, Text};

/// A file that the table has, by the last part of its path.
#[derive(Debug, Drop)]
pub struct FileSize {
    pub name: Text,
    pub size: u64,
}

/// What there is more of than the table takes.
#[derive(Clone, Copy, Debug, PartialEq, Eq)]
pub enum Limit {
    /// Files of one commit.
    Files,
    /// Rows of one file of a commit.
    Rows,
    /// Instants of the timeline.
    Instants,
    /// Files that the table lists.
    Live,
}

/// Why an ask was refused.
#[derive(Debug, Drop)]
pub enum Refusal {
    /// The line is no ask.
    Line,
    /// The last instant is taken.
    InstantsUsedUp,
    NoMemory,
    /// A call of the store failed.
    StoreFault,
    /// Something stands at this path of which the table does not know.
    Changed { path: Path },
    /// There are more than the table takes.
    TooMany { what: Limit, count: u64 },
    /// Two files of a commit are of one group.
    DuplicateGroup { partition: Partition, file: FileId },
    /// A place of a commit's rows is not what the schema asks for: the file, its row and the element of the row, each
    /// counted from 0.
    BadRow { file: u64, row: u64, column: u32 },
    /// Two rows of a file have one key.
    DuplicateRow { key: Text },
    /// A file would have more bytes than a file takes.
    TooLarge { bytes: u64 },
    /// The instant to look at is below the floor.
    Expired { floor: Instant },
}

/// The answer to one line.
#[derive(Debug, Drop)]
pub enum Reply {
    Committed {
        at: Instant,
        files: Listed<Path>,
    },
    Files {
        at: Instant,
        files: Listed<FileSize>,
    },
    Partitions {
        at: Instant,
        partitions: Listed<Text>,
    },
    Refused {
        refusal: Refusal,
    },
}
