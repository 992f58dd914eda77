ghost use Rattle.std.specs.Prelude.{◌≡◌, ◌≤◌, ◌-◌, length, Some, None, IfErr, if◌then◌else◌};
ghost use Rattle.mx_lists.specs.Reading.{Gives};
ghost use Rattle.mx_hfile.specs.Seen.{IsBad, earlier};
ghost use Rattle.mx_hfile.specs.Ranges.{answered, search_in, search_body};

use crate::blocks::{FULL, body_of};
use crate::error::{HFileError, before};
use crate::fields::{bad, entry_of};
use crate::reading::MOST_BYTES;
use mx_lists::Fault;

/// The start and the end of the value of the key in the bytes of a block, or `None` where the block has no such key.
///
/// The block is read to its end, and a fault is placed in its bytes. It takes no memory.
pub fn search(block: &[u8], key: &[u8]) -> Result<Option<(usize, usize)>, HFileError>
    ensures { result ≡ answered (length block.now) (search_in key.now block.now) }
{
    match search_of(block, key) {
        Ok(found) => Ok(found),
        Err(fault) => Err(before(fault, block.len())),
    }
}

#[tactic(auto, unfolding(crate::specs::Ranges::search_in, crate::specs::Ranges::block_alone_in))]
fn search_of(block: &[u8], key: &[u8]) -> Result<Option<(usize, usize)>, Fault>
    ensures read { Gives (λ found. found) result (search_in key.now block.now) }
    ensures memory { IfErr result IsBad }
{
    if block.len() > MOST_BYTES {
        return bad(block);
    }
    let body = body_of(block.len() as u32, block)?;
    if body.is_empty() {
        return bad(body);
    }
    value_in(block.len(), key, body)
}

/// The place of the key's value, in a block of this length that ends with these entries.
fn value_in(len: usize, key: &[u8], body: &[u8]) -> Result<Option<(usize, usize)>, Fault>
    requires { length body.now ≤ len }
    ensures read { Gives (λ found. found) result (search_body key.now (len - length body.now) body.now) }
    ensures memory { IfErr result IsBad }
{
    let mut found = None;
    let mut last: &[u8] = &[];
    let mut rest = body;
    while !rest.is_empty() {
        if body.len() - rest.len() >= FULL {
            return bad(rest);
        }
        let (next, value, behind) = entry_of(last, None, rest)?;
        let end = len - behind.len();
        let start = end - value.len();
        found = earlier(found, next == key, (start, end));
        last = next;
        rest = behind;
    }
    Ok(found)
}

/// The place that was found, or else this one where it is the key's.
fn earlier(
    found: Option<(usize, usize)>,
    is_key: bool,
    place: (usize, usize),
) -> Option<(usize, usize)>
    ensures { result ≡ earlier found (if is_key then Some place else None) }
{
    match found {
        Some(place) => Some(place),
        None if is_key => Some(place),
        None => None,
    }
}
