use mx_base::{FileId, Instant, Partition};
use mx_lists::Listed;
use mx_schema::Row;

/// The rows of a data file, with the group and the partition that it belongs to.
#[derive(Debug, Drop)]
pub struct FileRows {
    pub file: FileId,
    pub partition: Partition,
    pub rows: Listed<Row>,
}

/// What a client asks of a table, and the session that the ask belongs to.
#[derive(Debug, Drop)]
pub struct Ask {
    /// From 1 to 64.
    pub session: u32,
    pub kind: AskKind,
}

/// What is asked.
#[derive(Debug, Drop)]
pub enum AskKind {
    /// Add files to the table.
    Commit {
        files: Listed<FileRows>,
    },
    /// Answer a question about the table as it is at an instant, or at the newest commit.
    LookUp {
        question: Question,
        at: Option<Instant>,
    },
}

/// What a look-up asks for.
#[derive(Debug, Drop)]
pub enum Question {
    /// The files of a partition.
    Files { partition: Partition },
    /// The partitions of the table.
    Partitions,
}
