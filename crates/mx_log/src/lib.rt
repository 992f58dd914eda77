//! Log files: the entries that one action adds to a shard, at the action's instant.
//!
//! ```text
//! log = "#HUDI#" 1:u16 instant:u64 content-length:u64 content
//! ```
//!
//! Numbers are big-endian, the content is a file of entries (`mx_hfile`), and nothing stands behind it. So each log of
//! entries at an instant has one spelling (`specs/Encoding.antt`).
//!
//! A reader goes from left to right, and over the content in its own order (`specs/Decoding.antt`). `BadLog { at }` is
//! the start of the first field that breaks a rule, counted from the start of the log; the content's begin at 24. An
//! instant that is 0 or has more than seventeen digits is a fault at 8, and a length that is not that of all that is
//! left is one at 16.
//!
//! | call | contract |
//! |---|---|
//! | `write_log` | the one log of the entries at the instant |
//! | `read_log` | the instant and the entries whose log the bytes are; else the place of the first broken rule |
#![tactic(auto)]

mod error;
mod reading;
mod writing;

pub use error::LogError;
pub use reading::read_log;
pub use writing::write_log;

#[cfg(test)]
mod tests;
