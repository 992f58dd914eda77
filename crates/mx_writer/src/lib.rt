//! Commits: which rows may be committed together, and the order in which the changes of their files are made.
//!
//! | call | contract |
//! |---|---|
//! | `commit` | draws the next instant and makes the changes of a commit of the files' rows, in their order; or refuses them, or stops at one of the changes (`specs/Commit.antt`) |
//!
//! Refusals come in the order in which they are looked for: how many files and rows, groups, bad rows, keys that stand
//! twice, files that are too large, and then the last instant and the room of the table. Each comes before the first
//! change. What the changes are is `mx_commit`'s. Each keeps a valid table: the objects before the last one are loose, and the last
//! one completes the newest commit, whose log adds what it lists (`proofs/EarlyLemmas.antt`, `proofs/CommitLemmas.antt`).
#![tactic(auto)]

mod checking;
mod committing;
#[cfg(test)]
mod refusal_tests;
#[cfg(test)]
mod tests;

pub use committing::{CommitError, commit};
