//! Definition levels of an optional column, which say of each row whether a cell is there, as bytes and back.
//!
//! They stand in Parquet's hybrid of bit width 1. A run is a level that is repeated, or groups of eight levels, each of
//! them a byte (`specs/Encoding.antt`). Written are runs of the first kind alone, each as long as can be; read are both
//! kinds (`specs/Decoding.antt`).
//!
//! | call | contract |
//! |---|---|
//! | `write_levels` | the written form of the levels, which reads back |
//! | `read_levels` | the levels that the bytes stand for, as many as are wanted; else the first bad place |
//!
//! Memory is taken for levels whose run has been read, and for no more than are wanted.
#![tactic(auto)]

mod error;
mod reading;
mod run;
mod writing;

pub use error::LevelError;
pub use reading::read_levels;
pub use writing::write_levels;

#[cfg(test)]
mod tests;
