//! What the index says under one key: five kinds of payload, as bytes and back, and how a newer one goes over an
//! older one.
//!
//! A payload keeps its rules (`specs/Rules.antt`, `IsWellFormed`): `encode` takes it so, and `decode` and `combine`
//! answer it so. Each payload has one spelling (`specs/Encoding.antt`).
//!
//! | call | contract |
//! |---|---|
//! | `encode` | the one spelling of the payload |
//! | `decode` | the payload that the bytes spell, all of them; else the place of the first broken rule |
//! | `combine` | lists of one kind over each other, where the newer word of a name stands; else the newer payload |
//! | `combine_is_associative` | payloads of one kind are combined alike in any order of the pairs |
#![tactic(auto)]

mod error;
mod fields;
mod merging;
mod payload;
mod reading;
mod words;
mod writing;

pub use error::PayloadError;
pub use merging::{combine, combine_is_associative};
pub use payload::{NameWord, Payload};
pub use reading::decode;
pub use writing::encode;

#[cfg(test)]
mod tests;
