ghost use Rattle.std.specs.Prelude.{◌≡◌, ◌/◌, ◌%◌, ◌+ℤ◌, pos};
ghost use Rattle.mx_thrift.specs.Types.{kind_of_code};
ghost use Rattle.mx_thrift.specs.Decoding.{Gives, named_from, said_in, without, types_in, long_head_in, short_head_in, head_in};

use crate::error::{Fault, Rule};
use crate::kind::{Kind, kind_of};
use crate::numbers::{byte_of, count_of, short_of};

/// The header of a field: its type's code, what that code says, and its id.
#[derive(Clone, Copy, Debug)]
pub(crate) struct Header {
    pub(crate) code: u8,
    pub(crate) kind: Kind,
    pub(crate) id: i16,
}

/// The kind that a code names, in a byte from which on so many bytes are left.
fn named(left: usize, code: u8) -> Result<Kind, Fault>
    ensures { Gives (λ kind. kind) result (named_from left (kind_of_code code)) }
{
    match kind_of(code) {
        Some(kind) => Ok(kind),
        None => Err(Fault::Broken {
            rule: Rule::BadType,
            left,
        }),
    }
}

/// The header of the field behind the one with the last id, or none at the end of the struct.
#[tactic(auto, unfolding(crate::specs::Decoding::head_in))]
pub(crate) fn header_of(bytes: &[u8], last: i16) -> Result<(Option<Header>, &[u8]), Fault>
    ensures { Gives (λ x. (x.0, x.1.now)) result (head_in last bytes.now) }
{
    let (byte, rest) = byte_of(bytes)?;
    if byte == 0 {
        Ok((None, rest))
    } else if byte < 16 {
        long_header(bytes.len(), byte, rest)
    } else {
        let id = i32::from(last) + i32::from(byte / 16);
        short_header(bytes.len(), byte % 16, id, rest)
    }
}

fn long_header(left: usize, code: u8, bytes: &[u8]) -> Result<(Option<Header>, &[u8]), Fault>
    ensures { Gives (λ x. (x.0, x.1.now)) result (long_head_in left code bytes.now) }
{
    let kind = named(left, code)?;
    let (id, rest) = short_of(bytes)?;
    Ok((Some(Header { code, kind, id }), rest))
}

fn short_header(
    left: usize,
    code: u8,
    id: i32,
    bytes: &[u8],
) -> Result<(Option<Header>, &[u8]), Fault>
    ensures { Gives (λ x. (x.0, x.1.now)) result (short_head_in left code id bytes.now) }
{
    let Ok(id) = i16::try_from(id) else {
        return Err(Fault::Broken {
            rule: Rule::Wide,
            left,
        });
    };
    let kind = named(left, code)?;
    Ok((Some(Header { code, kind, id }), bytes))
}

/// The count of a list from the high half of its first byte and the bytes behind.
pub(crate) fn said_count(high: u8, bytes: &[u8]) -> Result<(usize, &[u8]), Fault>
    ensures { Gives (λ x. (x.0, x.1.now)) result (said_in high bytes.now) }
{
    if high < 15 {
        Ok((usize::from(high), bytes))
    } else {
        count_of(bytes)
    }
}

/// What stands behind the count of a list whose type is none, which has to be 0.
pub(crate) fn no_items(left: usize, high: u8, bytes: &[u8]) -> Result<&[u8], Fault>
    ensures { Gives (λ rest. rest.now) result (without left (said_in high bytes.now)) }
{
    match said_count(high, bytes) {
        Ok((0, rest)) => Ok(rest),
        Err(
            Fault::Broken {
                rule: Rule::Short,
                left,
            },
        ) => Err(Fault::Broken {
            rule: Rule::Short,
            left,
        }),
        Err(Fault::NoMemory) => Err(Fault::NoMemory),
        _ => Err(Fault::Broken {
            rule: Rule::BadType,
            left,
        }),
    }
}

/// The types of a map: their codes, and what these say.
pub(crate) fn types_of(bytes: &[u8]) -> Result<((u8, u8), (Kind, Kind), &[u8]), Fault>
    ensures { Gives (λ x. ((x.0, x.1), x.2.now)) result (types_in bytes.now) }
{
    let (byte, rest) = byte_of(bytes)?;
    let key = named(bytes.len(), byte / 16)?;
    let value = named(bytes.len(), byte % 16)?;
    Ok(((byte / 16, byte % 16), (key, value), rest))
}
