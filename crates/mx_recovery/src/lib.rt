//! A table that was left, opened for changes: its folder is read, and what pending commits left is taken away.
//!
//! A commit is pending where it is begun and not completed. By rising instant of the commits, what each left is deleted: its
//! logs, the two objects of its logs, the data files that it lists, its list of files, its request (`mx_folder`, `left_by`).
//! A path where nothing stands any more is passed over. So a recovery that was stopped is gone on with by the next one.
//!
//! | call | contract |
//! |---|---|
//! | `open_world` | where the folder opens, a store with its mirror behind exactly these deletes; else the refusals of `mx_open`, and nothing is changed; after a fault a front of the deletes. Every prefix is a valid table, where the opening was one (`specs/Recovering.antt`) |
//!
//! The last instant is the greatest one in any name at the opening, also of what recovery then takes away
//! (`src/instants.rt`). The deletes are worked out before the first one, from the names that stand (`src/deletes.rt`).
#![tactic(auto)]

mod deletes;
mod error;
mod instants;
mod opening;
#[cfg(test)]
mod opening_tests;
mod plan;
#[cfg(test)]
mod tests;

pub use error::OpenFailed;
pub use opening::open_world;
