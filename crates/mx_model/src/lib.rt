//! What a table says of itself: its completed commits, the files that they list, and the answers that these give.
//!
//! The definitions speak of objects alone: no log, no world. A commit counts where its object stands at its path and
//! reads as one (`specs/Timeline.antt`); it names its files (`specs/Listing.antt`), these make a map from partitions to
//! names and sizes (`specs/Maps.antt`), and the map gives the reply (`specs/Answer.antt`). No file leaves the table, so
//! an older file of a group stays beside the newer one.
//!
//! Beside them stands the plain slow program: tests of the crates above compare what they read from logs with it.
//!
//! | call | contract |
//! |---|---|
//! | `rebuild` | the maps of the actions at most at an instant |
//! | `answer` | the reply that the maps give to a question |
//! | `Maps::add`, `file_sizes`, `partitions` | one more file, and no change where memory runs out; names and sizes of a partition; the partitions |
//! | `sizes_are_of_own_files` | a law: the sizes of a partition come from its own files alone |
//! | `all_count_at_newest` | a law: at the newest instant every action counts |
#![tactic(auto)]

mod action;
mod laws;
mod maps;
mod program;
#[cfg(test)]
mod tests;

pub use action::Action;
pub use laws::{all_count_at_newest, sizes_are_of_own_files};
pub use maps::Maps;
pub use program::{answer, rebuild};
