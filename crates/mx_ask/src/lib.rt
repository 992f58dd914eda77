//! What clients ask a table on one line, and what it replies on one line.
//!
//! An ask is a JSON object with its fields and no other, in any order and spacing, on a line of at most 4,194,304 bytes.
//! The instant to look at and the session may be left out: then the newest commit is meant, and session 1. A row of a
//! commit is an array of nulls, truth values, integers of 64 bits and texts. How many files and rows a commit has, and
//! whether the rows are such as the table takes, is not looked at here.
//!
//! | call | contract |
//! |---|---|
//! | `ask_of` | the only ask that the line is, or `NotAnAsk` exactly where it is none (`specs/Asks.antt`, `IsAsk`) |
//! | `print_reply` | the reply's JSON without spaces, names in the order of their bytes (`specs/Replies.antt`, `reply_text`) |
#![tactic(auto)]

mod ask;
mod fields;
mod members;
mod objects;
mod printing;
#[cfg(test)]
mod printing_tests;
mod reading;
mod refusals;
#[cfg(test)]
mod refused_tests;
mod reply;
mod rows;
#[cfg(test)]
mod rows_tests;
#[cfg(test)]
mod tests;

pub use ask::{Ask, AskKind, FileRows, Question};
pub use printing::print_reply;
pub use reading::{LineError, ask_of};
pub use reply::{FileSize, Limit, Refusal, Reply};
