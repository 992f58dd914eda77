//! The index of files: which partitions a table has, and the names and sizes of the files of each.
//!
//! On the key `__all_partitions__` it has the list of the partitions, and on each partition the list of its files
//! (`specs/Files.antt`). A commit adds words of its new files, a clean words that take files out (`specs/Delta.antt`);
//! what a base and its logs show is `mx_merge`'s.
//!
//! | call | contract |
//! |---|---|
//! | `ALL_PARTITIONS` | the key of the list of all partitions |
//! | `delta` | the entries that an action adds, in the order of keys: none where it has no file |
//! | `a_delta_makes_the_index_of_the_table_after` | over the index of a table they show the index of the table after |
#![tactic(auto)]

mod adding;
mod laws;
mod said;
#[cfg(test)]
mod tests;
mod words;

pub use adding::delta;
pub use laws::a_delta_makes_the_index_of_the_table_after;
pub use said::ALL_PARTITIONS;
