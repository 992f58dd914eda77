ghost use Rattle.std.specs.Prelude.{◌≡◌, ◌≤◌, ◌-◌, ◌+◌, length, replicate, IfOk, ◌<◌};
ghost use Rattle.mx_lists.specs.Reading.{Gives};
ghost use Rattle.mx_hfile.specs.Decoding.{offset_in, trailer_in};
ghost use Rattle.mx_hfile.specs.Seen.{said};

use crate::fields::{bad, expected, u32_in, u64_in};
use mx_lists::Fault;

pub(crate) const TRAILER_MAGIC: [u8; 8] = *b"MDTTRAIL";

/// What the trailer says: how long the data is, and how many entries and blocks there are.
#[derive(Clone, Copy, Drop)]
pub(crate) struct Trailer {
    pub offset: usize,
    pub entry_count: u64,
    pub block_count: u32,
}

/// The trailer of a file of this length.
#[tactic(auto, unfolding(crate::specs::Decoding::trailer_in, crate::specs::Encoding::number, crate::specs::Encoding::trailer_magic))]
pub(crate) fn trailer_of(len: usize, bytes: &[u8]) -> Result<Trailer, Fault>
    requires { 80 ≤ len }
    ensures read { Gives said result (trailer_in len bytes.now) }
    ensures room { IfOk result (λ t. t.offset + 80 ≤ len) }
{
    let rest = expected(&TRAILER_MAGIC, bytes)?;
    let rest = expected(&1_u32.to_be_bytes(), rest)?;
    let rest = expected(&0_u32.to_be_bytes(), rest)?;
    let (offset, rest) = offset_of(len, rest)?;
    let rest = expected(&((len - 64 - offset) as u64).to_be_bytes(), rest)?;
    let (entry_count, rest) = u64_in(rest)?;
    let (block_count, rest) = u32_in(rest)?;
    let rest = expected(&0_u32.to_be_bytes(), rest)?;
    let _end = expected(&[0; 16], rest)?;
    Ok(Trailer {
        offset,
        entry_count,
        block_count,
    })
}

fn offset_of(len: usize, bytes: &[u8]) -> Result<(usize, &[u8]), Fault>
    requires { 80 ≤ len }
    ensures read { Gives (λ x. (x.0, x.1.now)) result (offset_in len bytes.now) }
    ensures room { IfOk result (λ x. x.0 + 80 ≤ len) }
{
    let (offset, rest) = u64_in(bytes)?;
    if offset >= (len - 79) as u64 {
        return bad(bytes);
    }
    Ok((offset as usize, rest))
}
