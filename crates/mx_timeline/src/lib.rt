//! The timeline of a table: which actions its objects' names say are completed, and which are pending.
//!
//! | call | contract |
//! |---|---|
//! | `Timeline::of` | the timeline that some names say; else the first name that is no object's |
//! | `Timeline::is_completed` | whether a commit or a clean is completed at an instant |
//! | `Timeline::newest`, `frontier` | the newest completed one, and the newest one with no pending commit or clean below it |
//! | `Timeline::least_pending` | the least instant at which any action is pending |
//! | `Timeline::count` | at how many instants an action has an object |
//!
//! The definitions (`specs/Timeline.antt`) speak of the names alone. No call but `of` takes memory.
#![tactic(auto)]

mod names;
mod stages;
#[cfg(test)]
mod tests;
mod timeline;

pub use names::TimelineError;
pub use timeline::Timeline;
