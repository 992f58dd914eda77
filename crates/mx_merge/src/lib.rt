//! What a base of the index and its logs show: the newest word on each key.
//!
//! The payloads on a key are those that the base and then each log, the oldest first, have on it
//! (`specs/Merged.antt`). A payload of another kind takes the place of all before it. Of lists each name is as the last
//! word that speaks of it says, and absent where that takes it out; of the other kinds the last payload is shown,
//! unless it is deleted (`specs/Shown.antt`).
//!
//! A value that is asked for and spells no payload is `BadPayload`: of the least such key the oldest such value, by the
//! place of its first broken rule.
//!
//! | call | contract |
//! |---|---|
//! | `payload_on` | what one key shows, as a payload |
//! | `look` | what one key shows, as an entry |
//! | `scan` | what the keys with a prefix show, in the order of keys |
//! | `merge` | what all keys show, in the order of keys |
//! | `Sizes` | sizes by names, as a finite map |
//! | `what_is_shown_may_be_merged_again` | merged entries may stand in the place of those that they were merged from |
#![tactic(auto)]

mod error;
mod known;
mod laws;
mod log;
mod looking;
mod merging;
mod run;
mod sizes;

pub use error::MergeError;
pub use laws::what_is_shown_may_be_merged_again;
pub use log::Log;
pub use looking::{look, payload_on};
pub use merging::{merge, scan};
pub use sizes::Sizes;

#[cfg(test)]
mod tests;
