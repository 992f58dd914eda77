//! The lines of a source, and whole writes to a sink.
//!
//! What was read ahead is kept in `Ahead`, beside the source. The contracts speak of what is ahead and then what the
//! source has left, where it is told (`specs/Ahead.antt`), and of the lines of that (`specs/Lines.antt`).
//!
//! | call | contract |
//! |---|---|
//! | `next_line` | the next line of what is left, None exactly at its end; a line of more than 4,194,304 bytes is not held |
//! | `write_all` | all the bytes, or a front of them and a fault |
//!
//! An input is read up to 2^40 bytes, and no further.
#![tactic(auto)]

mod ahead;
mod line;
mod whole;

pub use ahead::{Ahead, ReadError};
pub use line::{Line, next_line};
pub use whole::write_all;

#[cfg(test)]
mod tests;
