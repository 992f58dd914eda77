ghost use Rattle.std.specs.Prelude.{◌≡◌, ◌≤◌, ◌<◌, ◌^◌, ◌+◌, length, IfErr, IfOk};
ghost use Rattle.mx_lists.specs.Reading.{Gives};
ghost use Rattle.mx_hfile.specs.Seen.{IsBad};
ghost use Rattle.mx_hfile.specs.Ranges.{answered, offset_alone_in, index_len_in, footer_in, index_place_in};

use crate::error::{HFileError, before};
use crate::fields::{bad, expected, u32_in, u64_in};
use crate::reading::MOST_BYTES;
use crate::trailer::TRAILER_MAGIC;
use mx_lists::Fault;

/// What the trailer says by itself: where the index block begins and how long it is, and how many entries and blocks
/// there are.
#[derive(Clone, Copy, Drop)]
pub(crate) struct Footer {
    pub offset: u64,
    pub index_len: u64,
    pub entry_count: u64,
    pub block_count: u32,
}

/// Where the index block begins and how many bytes it has, as the last 64 bytes of a file say.
///
/// A fault is placed in these bytes. It takes no memory.
pub fn index_place(trailer: &[u8]) -> Result<(u64, u64), HFileError>
    ensures { result ≡ answered (length trailer.now) (index_place_in trailer.now) }
{
    match footer_of(trailer) {
        Ok(footer) => Ok((footer.offset, footer.index_len)),
        Err(fault) => Err(before(fault, trailer.len())),
    }
}

/// The trailer of a file whose length isn't known.
#[tactic(auto, unfolding(crate::specs::Ranges::footer_in, crate::specs::Encoding::number, crate::specs::Encoding::trailer_magic))]
pub(crate) fn footer_of(bytes: &[u8]) -> Result<Footer, Fault>
    ensures read { Gives (λ f. f) result (footer_in bytes.now) }
    ensures memory { IfErr result IsBad }
    ensures count { IfOk result (λ f. f.block_count < 2 ^ 32) }
    ensures room { IfOk result (λ f. (16 ≤ f.index_len) × (f.offset + f.index_len + 64 ≤ 268_435_456)) }
{
    if bytes.len() != 64 {
        return bad(bytes);
    }
    let rest = expected(&TRAILER_MAGIC, bytes)?;
    let rest = expected(&1_u32.to_be_bytes(), rest)?;
    let rest = expected(&0_u32.to_be_bytes(), rest)?;
    let (offset, rest) = offset_of(rest)?;
    let (index_len, rest) = index_len_of(offset, rest)?;
    let (entry_count, rest) = u64_in(rest)?;
    let (block_count, rest) = u32_in(rest)?;
    let rest = expected(&0_u32.to_be_bytes(), rest)?;
    let _end = expected(&[0; 16], rest)?;
    Ok(Footer {
        offset,
        index_len,
        entry_count,
        block_count,
    })
}

fn offset_of(bytes: &[u8]) -> Result<(u64, &[u8]), Fault>
    ensures read { Gives (λ x. (x.0, x.1.now)) result (offset_alone_in bytes.now) }
    ensures memory { IfErr result IsBad }
    ensures room { IfOk result (λ x. x.0 + 80 ≤ 268_435_456) }
{
    let (offset, rest) = u64_in(bytes)?;
    if offset > MOST_BYTES as u64 - 80 {
        return bad(bytes);
    }
    Ok((offset, rest))
}

fn index_len_of(offset: u64, bytes: &[u8]) -> Result<(u64, &[u8]), Fault>
    requires { offset + 80 ≤ 268_435_456 }
    ensures read { Gives (λ x. (x.0, x.1.now)) result (index_len_in offset bytes.now) }
    ensures memory { IfErr result IsBad }
    ensures room { IfOk result (λ x. (16 ≤ x.0) × (offset + x.0 + 64 ≤ 268_435_456)) }
{
    let (len, rest) = u64_in(bytes)?;
    if len < 16 || len > MOST_BYTES as u64 - 64 - offset {
        return bad(bytes);
    }
    Ok((len, rest))
}
