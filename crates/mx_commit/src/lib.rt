//! What a commit of files makes: its changes in their order, and what its object says.
//!
//! A commit of files makes a request, a list of the files, the data files, a mark, a log, the object that names the
//! log, and the object with which it counts. Without files it writes no log. The data files are made first, and held:
//! their lengths are what the log and the object say.
//!
//! | call | contract |
//! |---|---|
//! | `first_double` | the first file of the group of an earlier one, none exactly where there is none (`specs/Written.antt`) |
//! | `new_files` | the data files of the ask's rows, each a file of Parquet; or how long the first is that is too large (`specs/Made.antt`) |
//! | `new_files_are_apart` | a law: they are of the ask's groups |
//! | `written_file` | the entry of a file in the commit's object |
//! | `plan_commit` | the changes of a commit of the files, which read back (`specs/Changes.antt`, `IsPlanOf`) |
#![tactic(auto)]

mod adding;
mod entries;
mod laws;
mod making;
mod meta;
mod new_file;
mod plan;
#[cfg(test)]
mod tests;
mod written;

pub use entries::{first_double, written_file};
pub use laws::new_files_are_apart;
pub use making::{MakeError, new_files};
pub use new_file::NewFile;
pub use plan::plan_commit;
pub use written::Written;
