//! Avro's numbers and byte strings, both ways.
//!
//! A long is zigzag, then seven bits per byte, lowest first, in the shortest form only; a byte string is a long
//! length and the bytes. So each value has one spelling (`specs/Encoding.antt`).
//!
//! | call | contract |
//! |---|---|
//! | `put_long`, `put_bytes` | the spelling of the value at the end |
//! | `take_long` | the number whose spelling stands at a place, and the place behind it; else the first fault |
//! | `take_bytes` | where the bytes of a byte string begin and end; else the first fault |
//! | `one_spelling` | no spelling of a number begins that of another |
//!
//! The two that take use no memory, and read no more than ten bytes of a number.
#![tactic(auto)]

mod error;
mod reading;
mod writing;

pub use error::AvroError;
pub use reading::{take_bytes, take_long};
pub use writing::{one_spelling, put_bytes, put_long};

#[cfg(test)]
mod tests;
