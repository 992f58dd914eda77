//! Files of entries in the order of their keys, as the index keeps its bases: data blocks, an index block, a trailer.
//!
//! Each list of entries has one spelling (`specs/Encoding.antt`): keys rise strictly in byte order and have 1 to 65,535
//! bytes, and a block takes entries as long as its body has fewer than 16,384 bytes (`specs/Division.antt`). Numbers
//! are big-endian. A file has at most 268,435,456 bytes.
//!
//! ```text
//! file    = block* index trailer
//! block   = "DATABLK*" body-length:u32 (key-length:u16 key value-length:u32 value)+
//! index   = "IDXROOT2" body-length:u32 blocks:u32 (offset:u64 block-length:u32 key-length:u16 first-key)*
//! trailer = "MDTTRAIL" 1:u32 0:u32 index-offset:u64 index-length:u64 entries:u64 blocks:u32 0:u32 16 zero bytes
//! ```
//!
//! A reader goes by this order: the length of the file, the trailer, the index block, the data blocks. A field is held
//! against what was read before it, so a first key in the index that isn't the block's is a fault of the block; that
//! there are as many entries as the trailer says is tested last, and is a fault of the trailer (`specs/Decoding.antt`).
//!
//! A key is also found by three ranges of a file: the last 64 bytes, the index block, and the one data block that can
//! hold it, each read from its own bytes (`specs/Ranges.antt`). That is the look-up in the whole (`specs/Found.antt`).
//!
//! | call | contract |
//! |---|---|
//! | `write` | the one file of the entries |
//! | `size` | its length, without writing it |
//! | `read` | the entries whose file the bytes are, all of them; else the place of the first broken rule |
//! | `index_place`, `Index::load` | what the trailer and the index block say; else the place of the first broken rule |
//! | `Index::block_for`, `Index::blocks_with` | the last block whose first key is not above a key; the blocks that can hold a key with a prefix |
//! | `Index::blocks`, `Index::place` | how many blocks there are; where one begins, and its length |
//! | `search` | where a block has the value of a key, or that it has no such key; else the place of the first broken rule |
//! | `one_answer` | the value found by ranges is the one that the entries have, and no block with a prefix is left out |
//! | `one_division`, `one_list` | the blocks of entries divide them, and no other blocks do; no two lists have one file |
#![tactic(auto)]

mod blocks;
mod dividing;
mod error;
mod fields;
mod footer;
mod listing;
mod loading;
mod ranged;
mod reading;
mod searching;
mod trailer;
mod writing;

pub use dividing::one_division;
pub use error::HFileError;
pub use footer::index_place;
pub use loading::Index;
pub use ranged::one_answer;
pub use reading::{MOST_BYTES, one_list, read};
pub use searching::search;
pub use writing::{size, write};

#[cfg(test)]
mod range_tests;
#[cfg(test)]
mod tests;
