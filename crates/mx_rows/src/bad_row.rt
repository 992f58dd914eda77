/// A place that is not what the schema asks for: the file, its row and the element of the row, each counted from 0.
#[derive(Clone, Copy, Debug, PartialEq, Eq)]
pub struct BadRow {
    pub file: u64,
    pub row: u64,
    pub column: u32,
}
