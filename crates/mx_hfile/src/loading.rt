ghost use Rattle.std.specs.Prelude.{◌≡◌, ◌≤◌, ◌<◌, ◌^◌, ◌+◌, ℕ, [], length, map, sum_by, None, IfOk, IfSome, ◌↔◌};
ghost use Rattle.mx_hfile.specs.Seen.{seen};
ghost use Rattle.mx_hfile.specs.Ranges.{Reads, loaded_in, place_at, KeysRise, IsBlockFor, AreAllAbove, CanHold};
ghost use Rattle.mx_hfile.specs.Held.{held_place, Follow, is_upto, is_through, IsCountOf};

use crate::error::{HFileError, before};
use crate::footer::footer_of;
use crate::listing::{Listing, index_of};
use mx_lists::Bytes;
use std::alloc::{AllocError, Global};
use std::marker::Model;

/// What the index keeps of a block.
#[derive(Drop)]
pub(crate) struct Held {
    pub at: u64,
    pub len: u32,
    pub key: Bytes,
}

/// The index block of a file: the place and the first key of each of its blocks.
///
/// Blocks follow each other from the start of the file on, and first keys rise.
#[derive(Drop)]
pub struct Index {
    blocks: Vec<Held>,
}

impl Model for Index {
    ghost use Rattle.std.specs.Prelude.{List, map};
    ghost use Rattle.mx_hfile.specs.Encoding.{Place};
    ghost use Rattle.mx_hfile.specs.Held.{held_place, IsIndex};

    ghost Value = { List Place };

    ghost view = { λ i. map held_place i.blocks.items };

    ghost invariant = { λ i. IsIndex i.blocks.items };
}

impl Index {
    /// The index of a file, from the last 64 bytes of the file and the bytes of its index block.
    ///
    /// A fault of the trailer is placed in these 64 bytes, and one of the index block in the file. Bytes of another
    /// length than the trailer says are a fault at the start of the index block.
    pub fn load(alloc: Global, trailer: &[u8], index: &[u8]) -> Result<Index, HFileError>
        ensures { Reads (loaded_in trailer.now index.now) result }
    {
        let footer = match footer_of(trailer) {
            Ok(footer) => footer,
            Err(fault) => return Err(before(fault, trailer.len())),
        };
        if index.len() as u64 != footer.index_len {
            return Err(HFileError::BadHFile {
                at: footer.offset as usize,
            });
        }
        let end = footer.offset as usize + index.len();
        let listings = match index_of(alloc, footer.block_count, footer.offset as usize, index) {
            Ok(listings) => listings,
            Err(fault) => return Err(before(fault, end)),
        };
        Ok(Index {
            blocks: held_of(alloc, &listings)?,
        })
    }

    /// How many blocks there are.
    pub fn blocks(&self) -> u32
        ensures { result ≡ length self.now }
    {
        self.blocks.len() as u32
    }

    /// Where the block begins in the file, and how many bytes it has.
    pub fn place(&self, block: u32) -> (u64, u32)
        requires { block < length self.now }
        ensures place { result ≡ place_at self.now block }
        ensures within { result.0 + result.1 + 80 ≤ 268_435_456 }
    {
        let held = &self.blocks[block as usize];
        (held.at, held.len)
    }

    /// The last block whose first key is not above the key, the only one that can hold it.
    ///
    /// It takes no memory.
    pub fn block_for(&self, key: &[u8]) -> Option<u32>
        ensures found { IfSome result (IsBlockFor self.now key.now) }
        ensures none { result ≡ None → AreAllAbove self.now key.now }
    {
        let count = count_upto(self.blocks.as_slice(), key);
        if count == 0 {
            return None;
        }
        Some(count as u32 - 1)
    }

    /// The first of the blocks that can hold a key with the prefix, and the one behind the last; 0 and 0 where none
    /// can.
    pub fn blocks_with(&self, prefix: &[u8]) -> (u32, u32)
        ensures exact { (block : ℕ) → CanHold self.now prefix.now block ↔ ((result.0 ≤ block) × (block < result.1)) }
        ensures none { result.1 ≤ result.0 → (result.0 ≡ 0) × (result.1 ≡ 0) }
    {
        if prefix.len() > 65_535 {
            return (0, 0);
        }
        let upto = count_upto(self.blocks.as_slice(), prefix);
        let end = count_through(self.blocks.as_slice(), prefix);
        (upto.saturating_sub(1) as u32, end as u32)
    }
}

fn held_of(alloc: Global, listings: &[Listing<'_>]) -> Result<Vec<Held>, AllocError>
    requires { sum_by (λ p. p.len) (map seen listings.now) < 2 ^ 64 }
    ensures places { IfOk result (λ held. map held_place held.items ≡ map seen listings.now) }
    ensures follow { IfOk result (λ held. Follow 0 held.items) }
{
    let mut held = Vec::new(alloc);
    let mut at = 0_u64;
    for listing in listings {
        held.push(Held {
            at,
            len: listing.len,
            key: Bytes::from_slice(alloc, listing.key)?,
        })?;
        at += u64::from(listing.len);
    }
    Ok(held)
}

/// How many blocks have a first key that is not above the key.
fn count_upto(held: &[Held], key: &[u8]) -> usize
    requires { KeysRise [] (map held_place held.now) }
    ensures { IsCountOf (is_upto key.now) (map held_place held.now) result }
{
    held.partition_point(
        |block: &Held| -> bool
            ensures { result ≡ is_upto key.entry.now block.now.key }
        { !key.cmp(block.key.as_slice()).is_lt() },
    )
}

/// How many blocks have a first key that is not above each key with the prefix.
fn count_through(held: &[Held], prefix: &[u8]) -> usize
    requires { KeysRise [] (map held_place held.now) }
    ensures { IsCountOf (is_through prefix.now) (map held_place held.now) result }
{
    held.partition_point(
        |block: &Held| -> bool
            ensures { result ≡ is_through prefix.entry.now block.now.key }
        { is_through(block.key.as_slice(), prefix) },
    )
}

fn is_through(first: &[u8], prefix: &[u8]) -> bool
    ensures { result ≡ is_through prefix.now first.now }
{
    first.starts_with(prefix) || !prefix.cmp(first).is_lt()
}
