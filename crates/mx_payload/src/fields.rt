ghost use Rattle.std.specs.Prelude.{◌≡◌, length, Err};
ghost use Rattle.mx_lists.specs.declared.fault.Fault.TheVariants as faults;
ghost use Rattle.mx_lists.specs.Reading.{Gives};
ghost use Rattle.mx_payload.specs.Decoding.{number_in, natural_in, small_in, expected_in, bytes_in, text_in, flag_in, cell_in, empty_fields, stat_in, filter_in, instant_in};

use mx_avro::{take_bytes, take_long};
use mx_lists::{Bytes, Fault, Text};
use mx_schema::{Cell, ColumnStat};
use std::alloc::Global;

pub(crate) fn bad<T>(bytes: &[u8]) -> Result<T, Fault>
    ensures { result ≡ Err (faults.Bad (length bytes.now)) }
{
    Err(Fault::Bad { left: bytes.len() })
}

fn number_of(bytes: &[u8]) -> Result<(i64, &[u8]), Fault>
    ensures { Gives (λ x. (x.0, x.1.now)) result (number_in bytes.now) }
{
    match take_long(bytes, 0) {
        Ok((number, end)) => Ok((number, &bytes[end..])),
        Err(_) => bad(bytes),
    }
}

#[tactic(auto, unfolding(crate::specs::Decoding::natural_in))]
pub(crate) fn natural_of(bytes: &[u8]) -> Result<(u64, &[u8]), Fault>
    ensures { Gives (λ x. (x.0, x.1.now)) result (natural_in bytes.now) }
{
    let (number, rest) = number_of(bytes)?;
    if number < 0 {
        return bad(bytes);
    }
    Ok((number as u64, rest))
}

#[tactic(auto, unfolding(crate::specs::Decoding::small_in))]
fn small_of(bytes: &[u8]) -> Result<(i32, &[u8]), Fault>
    ensures { Gives (λ x. (x.0, x.1.now)) result (small_in bytes.now) }
{
    let (number, rest) = number_of(bytes)?;
    match i32::try_from(number) {
        Ok(small) => Ok((small, rest)),
        Err(_) => bad(bytes),
    }
}

/// What stands behind the number that is wanted.
#[tactic(auto, unfolding(crate::specs::Decoding::expected_in))]
pub(crate) fn expected(wanted: u64, bytes: &[u8]) -> Result<&[u8], Fault>
    ensures { Gives (λ rest. rest.now) result (expected_in wanted bytes.now) }
{
    let (number, rest) = natural_of(bytes)?;
    if number != wanted {
        return bad(bytes);
    }
    Ok(rest)
}

#[tactic(auto, unfolding(crate::specs::Decoding::bytes_in))]
fn bytes_of(bytes: &[u8]) -> Result<(&[u8], &[u8]), Fault>
    ensures { Gives (λ x. (x.0.now, x.1.now)) result (bytes_in bytes.now) }
{
    let Ok((start, end)) = take_bytes(bytes, 0) else {
        return bad(bytes);
    };
    Ok((&bytes[start..end], &bytes[end..]))
}

#[tactic(auto, unfolding(crate::specs::Decoding::text_in))]
pub(crate) fn text_of(alloc: Global, bytes: &[u8]) -> Result<(Text, &[u8]), Fault>
    ensures { Gives (λ x. (x.0, x.1.now)) result (text_in bytes.now) }
{
    let (text, rest) = bytes_of(bytes)?;
    match str::from_utf8(text) {
        Ok(text) => Ok((Text::from_str(alloc, text)?, rest)),
        Err(_) => bad(bytes),
    }
}

#[tactic(auto, unfolding(crate::specs::Decoding::flag_in))]
pub(crate) fn flag_of(bytes: &[u8]) -> Result<(bool, &[u8]), Fault>
    ensures { Gives (λ x. (x.0, x.1.now)) result (flag_in bytes.now) }
{
    match bytes {
        [0, rest @ ..] => Ok((false, rest)),
        [1, rest @ ..] => Ok((true, rest)),
        _ => bad(bytes),
    }
}

#[tactic(auto, unfolding(crate::specs::Decoding::cell_in))]
fn cell_of(alloc: Global, bytes: &[u8]) -> Result<(Cell, &[u8]), Fault>
    ensures { Gives (λ x. (x.0, x.1.now)) result (cell_in bytes.now) }
{
    let (branch, value) = natural_of(bytes)?;
    match branch {
        0 => Ok((Cell::Null, value)),
        1 => {
            let (flag, rest) = flag_of(value)?;
            Ok((Cell::Flag(flag), rest))
        }
        2 => {
            let (number, rest) = small_of(value)?;
            Ok((Cell::Small(number), rest))
        }
        3 => {
            let (number, rest) = number_of(value)?;
            Ok((Cell::Whole(number), rest))
        }
        4 => {
            let (text, rest) = text_of(alloc, value)?;
            Ok((Cell::Text(text), rest))
        }
        _ => bad(bytes),
    }
}

#[tactic(auto, unfolding(crate::specs::Decoding::stat_in))]
pub(crate) fn stat_of(alloc: Global, bytes: &[u8]) -> Result<(ColumnStat, bool, &[u8]), Fault>
    ensures { Gives (λ x. ((x.0, x.1), x.2.now)) result (stat_in bytes.now) }
{
    let (min, rest) = cell_of(alloc, bytes)?;
    let (max, rest) = cell_of(alloc, rest)?;
    let (values, rest) = natural_of(rest)?;
    let (nulls, rest) = natural_of(rest)?;
    let (size, rest) = natural_of(rest)?;
    let (uncompressed, rest) = natural_of(rest)?;
    let (deleted, rest) = flag_of(rest)?;
    let stat = ColumnStat {
        min,
        max,
        values,
        nulls,
        size,
        uncompressed,
    };
    let empty = empty_fields(&stat);
    if deleted && empty < 6 {
        return Err(Fault::Bad {
            left: bytes.len().saturating_sub(empty),
        });
    }
    Ok((stat, deleted, rest))
}

/// How many fields in front say nothing.
fn empty_fields(stat: &ColumnStat) -> usize
    ensures { result ≡ empty_fields stat.now }
{
    if !matches!(stat.min, Cell::Null) {
        0
    } else if !matches!(stat.max, Cell::Null) {
        1
    } else if stat.values > 0 {
        2
    } else if stat.nulls > 0 {
        3
    } else if stat.size > 0 {
        4
    } else if stat.uncompressed > 0 {
        5
    } else {
        6
    }
}

#[tactic(auto, unfolding(crate::specs::Decoding::filter_in))]
pub(crate) fn filter_of(alloc: Global, bytes: &[u8]) -> Result<(Bytes, bool, &[u8]), Fault>
    ensures { Gives (λ x. ((x.0, x.1), x.2.now)) result (filter_in bytes.now) }
{
    let (bits, rest) = bytes_of(bytes)?;
    if bits.len() % 8 != 0 {
        return bad(bytes);
    }
    let (deleted, rest) = flag_of(rest)?;
    if bits.is_empty() != deleted {
        return bad(bytes);
    }
    Ok((Bytes::from_slice(alloc, bits)?, deleted, rest))
}

#[tactic(auto, unfolding(crate::specs::Decoding::instant_in))]
pub(crate) fn instant_of(bytes: &[u8]) -> Result<(u64, &[u8]), Fault>
    ensures { Gives (λ x. (x.0, x.1.now)) result (instant_in bytes.now) }
{
    let (instant, rest) = natural_of(bytes)?;
    if instant == 0 || instant > 99_999_999_999_999_999 {
        return bad(bytes);
    }
    Ok((instant, rest))
}
