//! Lines of JSON: a line is a value or refused, and a value is printed on one line.
//!
//! A value that is taken holds no float, and at most 32 arrays and objects stand inside each other.
//!
//! | call | contract |
//! |---|---|
//! | `read_line` | the value that the line is; refused exactly where it is none (`specs/Plain.antt`, `Spells`) |
//! | `field` | the member of an object, `NoField` exactly where there is none, `WrongKind` exactly at no object |
//! | `print` | the value's text with no space and its names in the order of their bytes, which reads back |
#![tactic(auto)]

mod fields;
mod json;
mod printing;
#[cfg(test)]
mod tests;

pub use fields::{FieldError, field};
pub use json::{Json, TextError, read_line};
pub use printing::print;
