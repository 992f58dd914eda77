ghost use Rattle.std.specs.Prelude.{◌≡◌, ◌≤◌, ◌++◌, ◌∷◌, OnOk, IfErr, [], length, map, None, Some};
ghost use Rattle.mx_lists.specs.Reading.{Gives};
ghost use Rattle.mx_hfile.specs.Decoding.{Decodes, IsWithin, last_key, body_in, entries_in, block_in, blocks_in};
ghost use Rattle.mx_hfile.specs.Seen.{seen, Adds, Covers, IsBad};

use crate::error::{HFileError, before};
use crate::fields::{bad, entry_of, expected};
use crate::listing::Listing;
use mx_base::Entry;
use mx_lists::{Bytes, Fault};
use std::alloc::{AllocError, Global};

pub(crate) const DATA_MAGIC: [u8; 8] = *b"DATABLK*";

/// From so many bytes of a block's body on the next entry begins a new block.
pub(crate) const FULL: usize = 16_384;

/// The entries of the blocks that have these places, which fill the data.
pub(crate) fn entries_of(
    alloc: Global,
    listings: &[Listing<'_>],
    bytes: &[u8],
) -> Result<Vec<Entry>, HFileError>
    requires { Covers (length bytes.now) (map seen listings.now) }
    ensures read { Decodes (blocks_in [] 0 (map seen listings.now) bytes.now) result }
    ensures within { IfErr result (IsWithin (length bytes.now)) }
{
    let mut entries = Vec::new(alloc);
    let mut rest = bytes;
    let mut last: &[u8] = &[];
    for listing in listings {
        let (block, behind) = rest.split_at(listing.len as usize);
        match push_block(alloc, &mut entries, last, listing, block) {
            Ok(key) => last = key,
            Err(fault) => return Err(before(fault, bytes.len() - behind.len())),
        }
        rest = behind;
    }
    Ok(entries)
}

/// Pushes the entries of a block behind a last key, and answers their last key.
fn push_block<'a>(
    alloc: Global,
    entries: &mut Vec<Entry>,
    last: &[u8],
    listing: &Listing<'_>,
    bytes: &'a [u8],
) -> Result<&'a [u8], Fault>
    requires last { last.now ≡ last_key [] entries.old.items }
    requires len { length bytes.now ≡ listing.now.len }
    ensures { Adds entries.old.items entries.new.items (block_in last.now (seen listing.now) bytes.now) result }
{
    let body = body_of(listing.len, bytes)?;
    let (key, value, rest) = entry_of(last, Some(listing.key), body)?;
    push(alloc, entries, key, value)?;
    push_entries(alloc, entries, body.len(), key, rest)
}

/// The body of a block, which has this length.
#[tactic(auto, unfolding(crate::specs::Decoding::body_in, crate::specs::Encoding::number, crate::specs::Encoding::data_magic))]
pub(crate) fn body_of(len: u32, bytes: &[u8]) -> Result<&[u8], Fault>
    requires { length bytes.now ≡ len }
    ensures read { Gives (λ body. body.now) result (body_in bytes.now) }
    ensures memory { IfErr result IsBad }
{
    let rest = expected(&DATA_MAGIC, bytes)?;
    expected(&len.saturating_sub(12).to_be_bytes(), rest)
}

/// Pushes the entries up to the end of a block, and answers the last key.
fn push_entries<'a>(
    alloc: Global,
    entries: &mut Vec<Entry>,
    len: usize,
    last: &'a [u8],
    bytes: &'a [u8],
) -> Result<&'a [u8], Fault>
    requires last { last.now ≡ last_key [] entries.old.items }
    requires len { length bytes.now ≤ len }
    ensures { Adds entries.old.items entries.new.items (entries_in (length bytes.now) len last.now bytes.now) result }
{
    let mut last = last;
    let mut rest = bytes;
    while !rest.is_empty() {
        if len - rest.len() >= FULL {
            return bad(rest);
        }
        let (key, value, behind) = entry_of(last, None, rest)?;
        push(alloc, entries, key, value)?;
        last = key;
        rest = behind;
    }
    Ok(last)
}

fn push(alloc: Global, entries: &mut Vec<Entry>, key: &[u8], value: &[u8]) -> Result<(), AllocError>
    ensures { OnOk result (entries.new.items ≡ entries.old.items ++ record { key = key.now; value = value.now } ∷ []) }
{
    entries.push(Entry {
        key: Bytes::from_slice(alloc, key)?,
        value: Bytes::from_slice(alloc, value)?,
    })?;
    Ok(())
}
