ghost use Rattle.std.specs.Prelude.{◌≡◌, ◌≤◌, ◌<◌, ◌^◌, ◌+◌, IfOk, IsTrue, None, List, [], ℕ, map, length};
ghost use Rattle.mx_hfile.specs.Encoding.{number, index_magic};
ghost use Rattle.mx_lists.specs.Reading.{Gives};
ghost use Rattle.mx_hfile.specs.Decoding.{is_length, listing_in, listings_in, index_in};
ghost use Rattle.mx_hfile.specs.Seen.{seen};

use crate::fields::{bad, expected, key_of, u32_in};
use mx_lists::Fault;
use std::alloc::Global;

pub(crate) const INDEX_MAGIC: [u8; 8] = *b"IDXROOT2";

/// What the index says of a block.
#[derive(Drop)]
pub(crate) struct Listing<'a> {
    pub len: u32,
    pub key: &'a [u8],
}

/// What the index says of so many blocks, behind data of this length.
#[tactic(auto, unfolding(crate::specs::Decoding::index_in, crate::specs::Encoding::number, crate::specs::Encoding::index_magic))]
pub(crate) fn index_of(
    alloc: Global,
    blocks: u32,
    end: usize,
    bytes: &[u8],
) -> Result<Vec<Listing<'_>>, Fault>
    requires bytes { 16 ≤ length bytes.now }
    requires fits { length bytes.now < 2 ^ 32 }
    ensures { Gives (λ v. map seen v.items) result (index_in blocks end bytes.now) }
{
    let rest = expected(&INDEX_MAGIC, bytes)?;
    let rest = expected(&((bytes.len() - 12) as u32).to_be_bytes(), rest)?;
    let rest = expected(&blocks.to_be_bytes(), rest)?;
    let (listings, rest) = listings_of(alloc, blocks, end, rest)?;
    if !rest.is_empty() {
        return Err(Fault::Bad { left: rest.len() });
    }
    Ok(listings)
}

fn listings_of(
    alloc: Global,
    blocks: u32,
    end: usize,
    bytes: &[u8],
) -> Result<(Vec<Listing<'_>>, &[u8]), Fault>
    ensures { Gives (λ x. (map seen x.0.items, x.1.now)) result (listings_in blocks 0 end [] bytes.now) }
{
    let mut listings = Vec::new(alloc);
    let mut rest = bytes;
    let mut last: &[u8] = &[];
    let mut at = 0;
    let mut more = blocks;
    while more > 0 {
        more -= 1;
        let (listing, behind) = listing_of(more, at, end, last, rest)?;
        at += listing.len as usize;
        last = listing.key;
        rest = behind;
        listings.push(listing)?;
    }
    if at != end {
        return bad(rest);
    }
    Ok((listings, rest))
}

#[tactic(auto, unfolding(crate::specs::Decoding::listing_in, crate::specs::Encoding::number))]
fn listing_of<'a>(
    more: u32,
    at: usize,
    end: usize,
    last: &[u8],
    bytes: &'a [u8],
) -> Result<(Listing<'a>, &'a [u8]), Fault>
    requires { at ≤ end }
    ensures read { Gives (λ x. (seen x.0, x.1.now)) result (listing_in more at end last.now bytes.now) }
    ensures within { IfOk result (λ x. at + x.0.len ≤ end) }
{
    let rest = expected(&(at as u64).to_be_bytes(), bytes)?;
    let (len, at_key) = u32_in(rest)?;
    if !is_length(more, end - at, len as usize) {
        return bad(rest);
    }
    let (key, rest) = key_of(last, None, at_key)?;
    Ok((Listing { len, key }, rest))
}

/// Whether a block with so many bytes up to the data's end may have this length.
fn is_length(more: u32, left: usize, len: usize) -> bool
    ensures same { (at end : ℕ) → end ≡ at + left → result ≡ is_length more at end len }
    ensures within { IsTrue result → len ≤ left }
{
    if more == 0 {
        len == left
    } else {
        len < left && len > 16_395
    }
}
