//! The objects of a table's timeline as JSON, on one line, with names in byte order.
//!
//! | call | contract |
//! |---|---|
//! | `CommitMeta::print`, `read` | the one text of the object, which reads back; the object that bytes spell, else the least bad field (`specs/CommitText.antt`) |
//! | `PathList`, `DropList`, `RollbackPlan` | likewise (`specs/PathLists.antt`) |
//! | `IndexPlan`, `CompactPlan` | likewise (`specs/Plans.antt`) |
//! | `DeltaMeta`, `BaseMeta` | likewise (`specs/ShardFiles.antt`) |
//! | `new` of those with a rule | the object, exactly where its rule holds |
//!
//! Which field a refusal names: `specs/Fields.antt`. Invariants: a `RollbackPlan` has an instant other than 0, and
//! lists that have an order stand in it.
#![tactic(auto)]

mod base_meta;
mod checking;
mod commit_meta;
mod compact_plan;
mod delta_meta;
mod drop_list;
mod error;
mod fields;
mod index_plan;
mod line;
mod names;
mod parts;
mod path_list;
mod paths;
mod places;
#[cfg(test)]
mod reading_tests;
mod rising;
mod rollback_plan;
mod shard_files;
#[cfg(test)]
mod shard_tests;
mod stats;
#[cfg(test)]
mod tests;

pub use base_meta::BaseMeta;
pub use commit_meta::{CommitMeta, PartitionStats, WriteStat};
pub use compact_plan::CompactPlan;
pub use delta_meta::DeltaMeta;
pub use drop_list::DropList;
pub use error::MetaError;
pub use index_plan::IndexPlan;
pub use path_list::PathList;
pub use places::{Place, ShardFile};
pub use rollback_plan::RollbackPlan;
