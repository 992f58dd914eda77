//! Files of rows in Parquet, as the data files of a table are: their one written form, and which bytes stand for rows.
//!
//! A file has a chunk for each column, the five of Hudi before those of the schema, and a footer that says where they
//! stand (`specs/Columns.antt`, `specs/Encoding.antt`). A chunk is one page behind its header. Headers and footer are
//! structs of Thrift (`specs/Shape.antt`), written as `mx_thrift` writes structs. Numbers are little-endian.
//!
//! ```text
//! file   = "PAR1" chunk* footer footer-length:u32 "PAR1"
//! chunk  = page-header page
//! page   = [levels-length:u32 levels] cell*      levels where the column allows nulls, and no cell for a null
//! cell   = length:u32 bytes | i32 | i64          truth values are bits, eight in a byte, the lowest first
//! ```
//!
//! | call | contract |
//! |---|---|
//! | `RowView::new`, `cell_view`, `row_views` | the row, the cell and the rows that are to be written, without copies of their texts |
//! | `rows_fit` | whether a file of a schema can hold the rows |
//! | `write_rows` | the one file of the rows |
//! | `size_rows` | its length, without writing it |
//! | `a_written_file_holds_its_rows` | what is written stands for its schema and its rows |
//! | `read_rows` | the one schema and the rows that a file stands for, or why it stands for none |
//!
//! `specs/Decoding.antt` says which bytes stand for which rows, in any number of row groups and pages and with fields
//! that are passed over (`Decodes`).
//!
//! A file is read from its end: `opening` finds the footer, `elements`, `schema` and `groups` tell what it says, each
//! with the first broken rule (`specs/Opening.antt`, `specs/Footer.antt`, `specs/Found.antt`). A file stands for rows
//! exactly where the chunks that are found so hold them (`reading_law`, `specs/Held.antt`). `chunk` reads the pages of a
//! chunk one behind the other, each by its header (`header`), its levels (`page_reading`) and its values (`values`), so
//! that they are told exactly where there are any (`specs/Values.antt`, `specs/Chunks.antt`). `rows` fills the rows of a
//! row group column by column (`specs/Filling.antt`).
//!
//! What is read is the only schema with the only rows whose numbers fit their kinds that the file stands for. An error
//! says that it stands for none (`specs/Refusals.antt`), and is the first fault in reading order: of the footer, and then
//! row group by row group, column by column and page by page (`specs/Faults.antt`).
//! No memory is taken for a count that only a footer or the header of a page says: a page without levels is first seen
//! to have bytes for its values, and the rows of a row group, at most 16,384, are made once its first column is read.
#![tactic(auto)]

mod chunk;
mod column;
mod elements;
mod error;
mod fields;
mod file_size;
mod fitting;
mod footer;
mod groups;
mod header;
mod law;
mod layout;
mod opening;
mod page;
mod page_reading;
mod page_size;
mod reading;
mod reading_law;
mod row;
mod rows;
mod schema;
mod shape;
mod thrift_size;
mod values;
mod view;
mod writing;

pub use error::{Feature, ParquetError};
pub use fitting::rows_fit;
pub use law::a_written_file_holds_its_rows;
pub use reading::{Contents, read_rows};
pub use row::FullRow;
pub use view::{CellView, RowView, cell_view, row_views};
pub use writing::{size_rows, write_rows};

#[cfg(test)]
mod header_tests;
#[cfg(test)]
mod opening_tests;
#[cfg(test)]
mod reading_tests;
#[cfg(test)]
mod tests;
