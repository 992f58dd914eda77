ghost use Rattle.std.specs.Prelude.{◌≡◌, ◌≤◌, List, ℕ, length, IfOk};
ghost use Rattle.std.specs.Int.{w16, w64};
ghost use Rattle.mx_base.specs.declared.entry.Entry.{Entry};
ghost use Rattle.mx_hfile.specs.Encoding.{AreEntries, encoding};
ghost use Rattle.mx_lists.specs.Reading.{passing};
ghost use Rattle.mx_hfile.specs.Decoding.{number_in, expected_in};
ghost use Rattle.mx_log.specs.Encoding.{IsMoment, log_encoding};
ghost use Rattle.mx_log.specs.Decoding.{Shows, Decodes, IsOnly, is_moment, header_in, log_in};

use crate::error::LogError;
use mx_base::{Entry, Instant};
use mx_hfile::HFileError;
use std::alloc::Global;

pub(crate) const LOG_MAGIC: [u8; 6] = *b"#HUDI#";

/// The instant and the entries whose log the bytes are.
pub fn read_log(alloc: Global, bytes: &[u8]) -> Result<(Instant, Vec<Entry>), LogError>
    ensures found { IfOk result (λ log. IsMoment log.0 × AreEntries log.1.items × (length (encoding log.1.items) ≤ 268_435_456) × (bytes.now ≡ log_encoding log.0 log.1.items)) }
    ensures only { (at : ℕ) (entries : List Entry) → IsMoment at → AreEntries entries → length (encoding entries) ≤ 268_435_456 → bytes.now ≡ log_encoding at entries → IsOnly at entries result }
    ensures exact { Decodes (log_in bytes.now) result }
{
    log_of(alloc, bytes)
}

#[tactic(auto, unfolding(crate::specs::Decoding::log_in))]
fn log_of(alloc: Global, bytes: &[u8]) -> Result<(Instant, Vec<Entry>), LogError>
    ensures { Decodes (log_in bytes.now) result }
{
    let (at, content) = match header_of(bytes) {
        Ok(header) => header,
        Err(left) => {
            return Err(LogError::BadLog {
                at: bytes.len().saturating_sub(left),
            });
        }
    };
    match mx_hfile::read(alloc, content) {
        Ok(entries) => Ok((at, entries)),
        Err(HFileError::NoMemory) => Err(LogError::NoMemory),
        Err(HFileError::BadHFile { at: place }) => Err(LogError::BadLog { at: 24 + place }),
    }
}

/// The instant and the content, or how many bytes are left from the first field on that breaks a rule.
#[tactic(auto, unfolding(crate::specs::Decoding::header_in, mx_hfile::specs::Encoding::number, crate::specs::Encoding::log_magic))]
fn header_of(bytes: &[u8]) -> Result<(Instant, &[u8]), usize>
    ensures read { Shows (λ x. (x.0, x.1.now)) result (header_in bytes.now) }
    ensures room { IfOk result (λ x. length x.1.now ≤ length bytes.now) }
{
    let rest = expected(&LOG_MAGIC, bytes)?;
    let rest = expected(&1_u16.to_be_bytes(), rest)?;
    let (at, rest) = match moment_of(rest) {
        Ok(found) => found,
        Err(left) => return Err(left),
    };
    let len = rest.len().saturating_sub(8) as u64;
    let content = expected(&len.to_be_bytes(), rest)?;
    Ok((at, content))
}

#[tactic(auto, unfolding(mx_hfile::specs::Decoding::number_in))]
fn moment_of(bytes: &[u8]) -> Result<(Instant, &[u8]), usize>
    ensures read { Shows (λ x. (x.0, x.1.now)) result (passing is_moment (number_in w64) bytes.now) }
    ensures room { IfOk result (λ x. length x.1.now ≤ length bytes.now) }
{
    if bytes.len() < 8 {
        return Err(bytes.len());
    }
    let (front, rest) = bytes.split_at(8);
    let number = u64::from_be_bytes([
        front[0], front[1], front[2], front[3], front[4], front[5], front[6], front[7],
    ]);
    if number == 0 {
        return Err(bytes.len());
    }
    match Instant::new(number) {
        Some(at) => Ok((at, rest)),
        None => Err(bytes.len()),
    }
}

/// What stands behind the bytes that are wanted.
#[tactic(auto, unfolding(mx_hfile::specs::Decoding::expected_in, mx_hfile::specs::Decoding::text_in))]
fn expected<'a>(wanted: &[u8], bytes: &'a [u8]) -> Result<&'a [u8], usize>
    ensures read { Shows (λ rest. rest.now) result (expected_in wanted.now bytes.now) }
    ensures room { IfOk result (λ rest. length rest.now ≤ length bytes.now) }
{
    if bytes.len() < wanted.len() {
        return Err(bytes.len());
    }
    let (text, rest) = bytes.split_at(wanted.len());
    if text != wanted {
        return Err(bytes.len());
    }
    Ok(rest)
}
