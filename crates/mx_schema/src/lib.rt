//! Schemas of tables, and the cells that their columns hold.
//!
//! | call | contract |
//! |---|---|
//! | `Schema::parse`, `print` | the one text of a schema, exact both ways; else the first column that is bad |
//! | `print_columns` | the text that a schema of these columns has |
//! | `Schema::fits` | the first place of a row that is not what the schema asks for |
//! | `Cell::compare`, `cells_are_ordered` | truth values before numbers before texts, and each by its value: a total order up to ties |
//! | `ColumnStat` | what is known of one column of a file |
#![tactic(auto)]

mod cell;
mod column;
mod column_stat;
mod error;
mod row;
mod schema;
#[cfg(test)]
mod tests;

pub use cell::{Cell, cells_are_ordered};
pub use column::{Column, ColumnKind};
pub use column_stat::ColumnStat;
pub use error::SchemaError;
pub use row::{Row, RowValue};
pub use schema::{Schema, print_columns};
