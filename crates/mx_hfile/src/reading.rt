ghost use Rattle.std.specs.Prelude.{◌≡◌, ◌≤◌, List, length, map, IfOk, IfErr, IsTrue, false, true, ◌||◌, nat_lt};
ghost use Rattle.mx_base.specs.declared.entry.Entry.{Entry};
ghost use Rattle.mx_hfile.specs.Encoding.{AreEntries, encoding};
ghost use Rattle.mx_hfile.specs.Decoding.{Decodes, IsOnly, IsWithin, file_in, blocks_in};
ghost use Rattle.mx_hfile.specs.Seen.{seen};

use crate::blocks::entries_of;
use crate::error::{HFileError, before};
use crate::listing::index_of;
use crate::trailer::trailer_of;
use mx_base::Entry;
use std::alloc::Global;

/// The greatest length of a file, in bytes.
pub const MOST_BYTES: usize = 268_435_456;

/// The entries whose file this is.
pub fn read(alloc: Global, bytes: &[u8]) -> Result<Vec<Entry>, HFileError>
    ensures found { IfOk result (λ entries. AreEntries entries.items × (length (encoding entries.items) ≤ 268_435_456) × (bytes.now ≡ encoding entries.items)) }
    ensures only { (entries : List Entry) → AreEntries entries → length (encoding entries) ≤ 268_435_456 → bytes.now ≡ encoding entries → IsOnly entries result }
    ensures exact { Decodes (file_in bytes.now) result }
    ensures within { IfErr result (IsWithin (length bytes.now)) }
{
    file_of(alloc, bytes)
}

/// No two lists of entries have one file.
pub fn one_list()
    ensures { (a b : List Entry) → AreEntries a → AreEntries b → length (encoding a) ≤ 268_435_456 → encoding a ≡ encoding b → a ≡ b }
{}

fn file_of(alloc: Global, bytes: &[u8]) -> Result<Vec<Entry>, HFileError>
    ensures read { Decodes (file_in bytes.now) result }
    ensures within { IfErr result (IsWithin (length bytes.now)) }
{
    let len = bytes.len();
    if !is_length(len) {
        return Err(HFileError::BadHFile { at: 0 });
    }
    let (_, trailer) = bytes.split_at(len - 64);
    let trailer = match trailer_of(len, trailer) {
        Ok(trailer) => trailer,
        Err(fault) => return Err(before(fault, len)),
    };
    let (blocks, behind) = bytes.split_at(trailer.offset);
    let (index, _) = behind.split_at(len - 64 - trailer.offset);
    let listings = match index_of(alloc, trailer.block_count, trailer.offset, index) {
        Ok(listings) => listings,
        Err(fault) => return Err(before(fault, len - 64)),
    };
    let entries = entries_of(alloc, &listings, blocks)?;
    if entries.len() as u64 != trailer.entry_count {
        return Err(HFileError::BadHFile { at: len - 32 });
    }
    Ok(entries)
}

/// Whether a file may have this length: the index block and the trailer of no entries have 80 bytes.
fn is_length(len: usize) -> bool
    ensures fits { IsTrue result → (80 ≤ len) × (len ≤ 268_435_456) }
    ensures else_not { result ≡ false → (nat_lt len 80 || nat_lt 268_435_456 len) ≡ true }
{
    (80..=MOST_BYTES).contains(&len)
}
