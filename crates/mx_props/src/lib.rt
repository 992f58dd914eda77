//! The config of a table: which index partitions can be read, which one is being built, and the schema.
//!
//! `Props` keeps the rules of a config (`specs/Config.antt`, `IsConfig`).
//!
//! | call | contract |
//! |---|---|
//! | `Props::read` | the config that the bytes are the text of; else another version, or the first bad line |
//! | `Props::print` | the one text of the config |
//! | `Props::new` | a config exactly where the rules hold |
//! | `available`, `building`, `schema` | what the config says |
#![tactic(auto)]

mod error;
mod parts;
mod props;
mod reading;
#[cfg(test)]
mod tests;
mod version;

pub use error::PropsError;
pub use props::Props;
