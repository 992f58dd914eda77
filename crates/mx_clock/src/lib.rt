//! The first instant of a call, from a civil date and time.
//!
//! | call | contract |
//! |---|---|
//! | `instant_of_civil` | the instant whose digits are those of the date and the time, None exactly before the year 0 |
#![tactic(auto)]

mod civil;
#[cfg(test)]
mod tests;

pub use civil::instant_of_civil;
