use crate::cell::Cell;

/// What is known of one column of a file: its bounds, and how many cells and bytes it has.
#[derive(Clone, Debug, Drop)]
pub struct ColumnStat {
    pub min: Cell,
    pub max: Cell,
    /// All cells, nulls included.
    pub values: u64,
    pub nulls: u64,
    pub size: u64,
    pub uncompressed: u64,
}
