ghost use Rattle.std.specs.Prelude.{◌≡◌, IfOk};
ghost use Rattle.mx_payload.specs.declared.payload.Payload.{Payload};
ghost use Rattle.mx_payload.specs.Rules.{IsWellFormed};
ghost use Rattle.mx_payload.specs.Encoding.{encoding};
ghost use Rattle.mx_lists.specs.Reading.{Gives};
ghost use Rattle.mx_payload.specs.Decoding.{Decodes, IsOnly, payload_in, partitions_in, files_in, stats_in, bloom_in, location_in, kind_in};

use crate::error::PayloadError;
use crate::fields::{expected, filter_of, flag_of, instant_of, natural_of, stat_of, text_of};
use crate::payload::Payload;
use crate::words::{map_of, names_of};
use mx_lists::{Fault, Listed};
use std::alloc::Global;

/// The payload that the bytes spell, all of them.
pub fn decode(alloc: Global, bytes: &[u8]) -> Result<Payload, PayloadError>
    ensures found { IfOk result (λ payload. IsWellFormed payload × (bytes.now ≡ encoding payload)) }
    ensures only { (payload : Payload) → IsWellFormed payload → bytes.now ≡ encoding payload → IsOnly payload result }
    ensures exact { Decodes bytes.now result }
{
    read(alloc, bytes)
}

fn read(alloc: Global, bytes: &[u8]) -> Result<Payload, PayloadError>
    ensures { Decodes bytes.now result }
{
    match payload_of(alloc, bytes) {
        Ok(payload) => Ok(payload),
        Err(Fault::NoMemory) => Err(PayloadError::NoMemory),
        Err(Fault::Bad { left }) => Err(PayloadError::BadPayload {
            at: bytes.len().saturating_sub(left),
        }),
    }
}

#[tactic(auto, unfolding(crate::specs::Decoding::payload_in))]
fn payload_of(alloc: Global, bytes: &[u8]) -> Result<Payload, Fault>
    ensures { Gives (λ p. p) result (payload_in bytes.now) }
{
    let key = expected(0, bytes)?;
    let (kind, rest) = natural_of(key)?;
    let (payload, rest) = kind_of(alloc, key.len(), kind, rest)?;
    if !rest.is_empty() {
        return Err(Fault::Bad { left: rest.len() });
    }
    Ok(payload)
}

fn kind_of(alloc: Global, left: usize, kind: u64, bytes: &[u8]) -> Result<(Payload, &[u8]), Fault>
    ensures { Gives (λ x. (x.0, x.1.now)) result (kind_in left kind bytes.now) }
{
    match kind {
        1 => partitions_of(alloc, bytes),
        2 => files_of(alloc, bytes),
        3 => stats_of(alloc, bytes),
        4 => bloom_of(alloc, bytes),
        5 => location_of(alloc, bytes),
        _ => Err(Fault::Bad { left }),
    }
}

#[tactic(auto, unfolding(crate::specs::Decoding::partitions_in))]
fn partitions_of(alloc: Global, bytes: &[u8]) -> Result<(Payload, &[u8]), Fault>
    ensures { Gives (λ x. (x.0, x.1.now)) result (partitions_in bytes.now) }
{
    let files = expected(1, bytes)?;
    let (words, filter) = map_of(alloc, true, files)?;
    let stats = expected(0, filter)?;
    let location = expected(0, stats)?;
    let rest = expected(0, location)?;
    let names = names_of(alloc, words)?;
    Ok((Payload::Partitions(Listed::from_vec(names)), rest))
}

#[tactic(auto, unfolding(crate::specs::Decoding::files_in))]
fn files_of(alloc: Global, bytes: &[u8]) -> Result<(Payload, &[u8]), Fault>
    ensures { Gives (λ x. (x.0, x.1.now)) result (files_in bytes.now) }
{
    let files = expected(1, bytes)?;
    let (words, filter) = map_of(alloc, false, files)?;
    let stats = expected(0, filter)?;
    let location = expected(0, stats)?;
    let rest = expected(0, location)?;
    Ok((Payload::Files(Listed::from_vec(words)), rest))
}

#[tactic(auto, unfolding(crate::specs::Decoding::stats_in))]
fn stats_of(alloc: Global, bytes: &[u8]) -> Result<(Payload, &[u8]), Fault>
    ensures { Gives (λ x. (x.0, x.1.now)) result (stats_in bytes.now) }
{
    let filter = expected(0, bytes)?;
    let stats = expected(0, filter)?;
    let file = expected(1, stats)?;
    let (file, column) = text_of(alloc, file)?;
    let (column, stat) = text_of(alloc, column)?;
    let (stat, deleted, location) = stat_of(alloc, stat)?;
    let rest = expected(0, location)?;
    let payload = Payload::Stats {
        file,
        column,
        stat,
        deleted,
    };
    Ok((payload, rest))
}

#[tactic(auto, unfolding(crate::specs::Decoding::bloom_in))]
fn bloom_of(alloc: Global, bytes: &[u8]) -> Result<(Payload, &[u8]), Fault>
    ensures { Gives (λ x. (x.0, x.1.now)) result (bloom_in bytes.now) }
{
    let filter = expected(0, bytes)?;
    let bits = expected(1, filter)?;
    let (bits, deleted, stats) = filter_of(alloc, bits)?;
    let location = expected(0, stats)?;
    let rest = expected(0, location)?;
    Ok((Payload::Bloom { bits, deleted }, rest))
}

#[tactic(auto, unfolding(crate::specs::Decoding::location_in))]
fn location_of(alloc: Global, bytes: &[u8]) -> Result<(Payload, &[u8]), Fault>
    ensures { Gives (λ x. (x.0, x.1.now)) result (location_in bytes.now) }
{
    let filter = expected(0, bytes)?;
    let stats = expected(0, filter)?;
    let location = expected(0, stats)?;
    let partition = expected(1, location)?;
    let (partition, file) = text_of(alloc, partition)?;
    let (file, instant) = text_of(alloc, file)?;
    let (instant, deleted) = instant_of(instant)?;
    let (deleted, rest) = flag_of(deleted)?;
    let payload = Payload::Location {
        partition,
        file,
        instant,
        deleted,
    };
    Ok((payload, rest))
}
