//! The two ways in which a table begins: a new one is made, or a folder is read.
//!
//! | call | contract |
//! |---|---|
//! | `init` | makes exactly the objects of a new table in a folder that holds nothing, and leaves a valid one without commits; else the first path that stands (`specs/Init.antt`) |
//! | `read_folder` | what a folder holds, its pending and its completed commits, exactly where it opens; else the first cause: no config, another version, the least path that shows damage (`specs/Opening.antt`) |
//!
//! `mx_folder` says when a folder opens. The objects below `.hoodie/` are read once each and held until the damage is
//! looked for: first each object by its name (`src/objects.rt`), then what is needed and missing (`src/faults.rt`). A folder
//! that opens tells its pending commits as well, by the names and the lists of files that are held (`src/pending.rt`), and what
//! the objects of its completed commits say (`src/completed.rt`).
#![tactic(auto)]

mod completed;
mod context;
mod entries;
mod error;
mod faults;
mod folder;
mod held;
mod kinds;
mod new_table;
mod objects;
mod pending;
#[cfg(test)]
mod reading_tests;
#[cfg(test)]
mod tests;

pub use error::{InitError, ReadError};
pub use folder::{Folder, read_folder};
pub use mx_folder::Pending;
pub use new_table::init;
