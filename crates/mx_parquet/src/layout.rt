use mx_schema::Column;
use sqlite_items::Items;

/// Where the chunk of a column stands in the file.
#[derive(Clone, Copy, Debug, Drop)]
pub(crate) struct ChunkPlace {
    pub(crate) offset: usize,
    pub(crate) size: usize,
}

/// A row group: how many rows it has, and the chunk of each column.
#[derive(Debug, Drop)]
pub(crate) struct Group {
    pub(crate) row_count: usize,
    pub(crate) chunks: Items<ChunkPlace>,
}

/// What a footer says.
#[derive(Debug, Drop)]
pub(crate) struct Layout {
    pub(crate) columns: Items<Column>,
    pub(crate) row_count: usize,
    pub(crate) groups: Items<Group>,
}
