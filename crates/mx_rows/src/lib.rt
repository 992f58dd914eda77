//! The rows of a commit: which may not be written, and the rows of its data files.
//!
//! Files, rows and the elements of a row are counted from 0. The first bad place is in the order of files, of their
//! rows and of the elements (`specs/Checks.antt`). A row of a data file has in front the five columns of Hudi: the
//! commit's instant, the row's number in the commit, the key, the partition and the name of the file
//! (`specs/Filled.antt`).
//!
//! | call | contract |
//! |---|---|
//! | `first_bad_row` | the first place that is not what the schema asks for, none exactly where each row fits |
//! | `first_double` | the key of the first row that has that of an earlier one of its file, none exactly where there is none |
//! | `first_too_many` | how many rows the first file has that has more than 16,384, none exactly where no file has |
//! | `full_rows` | the rows of a data file, which a file of the schema can hold, with texts in UTF-8 |
#![tactic(auto)]

mod bad_row;
mod cells;
mod checking;
mod doubles;
mod filling;
#[cfg(test)]
mod filling_tests;
#[cfg(test)]
mod tests;

pub use bad_row::BadRow;
pub use checking::{MOST_ROWS, first_bad_row, first_too_many};
pub use doubles::first_double;
pub use filling::{Place, full_rows};
