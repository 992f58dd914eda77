ghost use Rattle.std.specs.Prelude.{◌≡◌, ◌+◌, ◌^◌, ◌<◌, ◌≤◌, length, Err, IfOk};
ghost use Rattle.mx_avro.specs.Decoding.{signed};
ghost use Rattle.mx_thrift.specs.declared.error.Rule.TheVariants as rules;
ghost use Rattle.mx_thrift.specs.declared.error.Fault.TheVariants as faults;
ghost use Rattle.mx_thrift.specs.Grammar.{signed_byte};
ghost use Rattle.mx_thrift.specs.Decoding.{Gives, byte_in, eight_in, groups_in, number_in, signed_in, count_in, text_in};

use crate::error::{Fault, Rule};

pub(crate) fn broken<T>(rule: Rule, bytes: &[u8]) -> Result<T, Fault>
    ensures { result ≡ Err (faults.Broken rule (length bytes.now)) }
{
    Err(Fault::Broken {
        rule,
        left: bytes.len(),
    })
}

pub(crate) fn byte_of(bytes: &[u8]) -> Result<(u8, &[u8]), Fault>
    ensures { Gives (λ x. (x.0, x.1.now)) result (byte_in bytes.now) }
{
    match bytes {
        [byte, rest @ ..] => Ok((*byte, rest)),
        [] => broken(Rule::Short, bytes),
    }
}

#[tactic(auto, unfolding(crate::specs::Decoding::eight_in))]
pub(crate) fn eight_of(bytes: &[u8]) -> Result<([u8; 8], &[u8]), Fault>
    ensures { Gives (λ x. (x.0, x.1.now)) result (eight_in bytes.now) }
{
    match bytes {
        [a, b, c, d, e, f, g, h, rest @ ..] => Ok(([*a, *b, *c, *d, *e, *f, *g, *h], rest)),
        _ => broken(Rule::Short, bytes),
    }
}

/// The place of the last byte that a number may have.
const LAST_PLACE: usize = 9;

/// The number that stands first, whatever its type, and the bytes behind it.
fn groups_of(bytes: &[u8]) -> Result<(u128, &[u8]), Fault>
    ensures { Gives (λ x. (x.0, x.1.now)) result (groups_in (length bytes.now) 10 bytes.now) }
{
    let mut number: u128 = 0;
    let mut scale: u128 = 1;
    for (index, &byte) in bytes.iter().enumerate() {
        number += scale * u128::from(byte % 128);
        if byte < 128 {
            return Ok((number, &bytes[index + 1..]));
        }
        if index == LAST_PLACE {
            return broken(Rule::Wide, bytes);
        }
        scale *= 128;
    }
    broken(Rule::Short, bytes)
}

#[tactic(auto, unfolding(crate::specs::Decoding::number_in))]
fn number_of(bytes: &[u8], most: u64) -> Result<(u64, &[u8]), Fault>
    ensures within { IfOk result (λ x. x.0 ≤ most) }
    ensures exact { Gives (λ x. (x.0, x.1.now)) result (number_in (most + 1) bytes.now) }
{
    let (number, rest) = groups_of(bytes)?;
    if number > u128::from(most) {
        return broken(Rule::Wide, bytes);
    }
    Ok((number as u64, rest))
}

pub(crate) fn short_of(bytes: &[u8]) -> Result<(i16, &[u8]), Fault>
    ensures { Gives (λ x. (x.0, x.1.now)) result (signed_in (2 ^ 16) bytes.now) }
{
    let (number, rest) = number_of(bytes, 0xffff)?;
    Ok((short_from(number), rest))
}

fn short_from(number: u64) -> i16
    requires { number < 2 ^ 16 }
    ensures { result ≡ signed number }
{
    let half = (number / 2) as i16;
    if number % 2 == 0 { half } else { -half - 1 }
}

pub(crate) fn int_of(bytes: &[u8]) -> Result<(i32, &[u8]), Fault>
    ensures { Gives (λ x. (x.0, x.1.now)) result (signed_in (2 ^ 32) bytes.now) }
{
    let (number, rest) = number_of(bytes, 0xffff_ffff)?;
    Ok((int_from(number), rest))
}

fn int_from(number: u64) -> i32
    requires { number < 2 ^ 32 }
    ensures { result ≡ signed number }
{
    let half = (number / 2) as i32;
    if number % 2 == 0 { half } else { -half - 1 }
}

pub(crate) fn long_of(bytes: &[u8]) -> Result<(i64, &[u8]), Fault>
    ensures { Gives (λ x. (x.0, x.1.now)) result (signed_in (2 ^ 64) bytes.now) }
{
    let (number, rest) = number_of(bytes, u64::MAX)?;
    Ok((long_from(number), rest))
}

fn long_from(number: u64) -> i64
    ensures { result ≡ signed number }
{
    let half = (number / 2) as i64;
    if number % 2 == 0 { half } else { -half - 1 }
}

/// A length or a count.
pub(crate) fn count_of(bytes: &[u8]) -> Result<(usize, &[u8]), Fault>
    ensures { Gives (λ x. (x.0, x.1.now)) result (count_in bytes.now) }
{
    let (count, rest) = number_of(bytes, 0x7fff_ffff)?;
    Ok((count as usize, rest))
}

#[tactic(auto, unfolding(crate::specs::Decoding::text_in))]
pub(crate) fn text_of(bytes: &[u8]) -> Result<(&[u8], &[u8]), Fault>
    ensures { Gives (λ x. (x.0.now, x.1.now)) result (text_in bytes.now) }
{
    let (len, rest) = count_of(bytes)?;
    if rest.len() < len {
        return broken(Rule::Short, bytes);
    }
    Ok(rest.split_at(len))
}

/// A byte with its highest bit set stands for a number below 0.
pub(crate) fn signed_byte(byte: u8) -> i8
    ensures { result ≡ signed_byte byte }
{
    if byte < 128 {
        byte as i8
    } else {
        -((255 - byte) as i8) - 1
    }
}
