//! One line after the other: each is answered, and its reply written, before the next one is taken.
//!
//! | call | contract |
//! |---|---|
//! | `drive` | the change in doubt is settled, then the ask is answered (`specs/Answers.antt`, `IsAnswered`) |
//! | `serve` | the answers are one history of the lines (`specs/History.antt`, `IsHistory`), and the bytes written are their replies |
#![tactic(auto)]

mod answered;
mod asks;
mod line;
mod serving;

pub use answered::Answered;
pub use asks::drive;
pub use serving::{Ending, Served, serve};
