use mx_lists::{Listed, Text};
use mx_schema::Cell;

/// A row of a data file: the five texts of the Hudi columns, and the cells of the schema's columns.
#[derive(Debug, Drop)]
pub struct FullRow {
    /// The instant of the commit.
    pub commit_time: Text,
    /// The row's number in the commit.
    pub commit_seqno: Text,
    pub record_key: Text,
    pub partition_path: Text,
    pub file_name: Text,
    pub cells: Listed<Cell>,
}
