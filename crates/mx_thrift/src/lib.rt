//! Structs in the compact protocol of Apache Thrift, as bytes and back.
//!
//! A field is a header with its type and how much its id is above the one before, and its value; the byte 0 ends a
//! struct. Numbers stand seven bits in a byte, lowest first, and those with a sign as their zigzag. A list or a set is
//! its count and its type in one byte, and its items; a map is its count, the byte of its two types, and its pairs.
//! `specs/Grammar.antt` says which bytes stand for which fields (`Decodes`), in any form of a number and of a header;
//! `specs/Encoding.antt` gives the one form that is written (`written`), and what can be (`IsWritable`);
//! `specs/Decoding.antt` reads from left to right, to the first broken rule (`struct_at`).
//!
//! | call | contract |
//! |---|---|
//! | `write_struct` | the written form of the fields, which is in the grammar and reads back at any place, whatever follows |
//! | `read_struct` | the fields that the bytes at a place stand for, and the place behind them; else the first broken rule |
//! | `one_struct` | no bytes begin with two structs |
//!
//! Sixteen structs and containers may stand inside each other. Memory is taken for what has been read, never from a
//! count that is claimed.
//!
//! Places of broken rules: a number, a byte, a double or a byte string is named by where it begins, a type by its byte,
//! a struct or a container that is too deep by where it begins. The count of a list is read before its type is judged,
//! since an empty list may name any. Where one byte breaks two rules, the id comes before the type.
#![tactic(auto)]

mod error;
mod header;
mod kind;
mod numbers;
mod reading;
mod value;
mod writing;

pub use error::ThriftError;
pub use reading::{one_struct, read_struct};
pub use value::{Field, Fields, Value};
pub use writing::write_struct;

#[cfg(test)]
mod tests;
#[cfg(test)]
mod writing_tests;
