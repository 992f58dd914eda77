// Whether bytes are entries of the index.
ghost use Rattle.std.specs.Prelude.{IfOk};
ghost use Rattle.mx_folder.specs.Reading.{ReadsAsBase, ReadsAsLog, SpellPayloads};
ghost use Rattle.mx_merge.specs.Merged.{IsRead};
ghost use Rattle.mx_open.specs.Deciding.{Decides};

use mx_base::{Entry, Instant};
use mx_hfile::HFileError;
use mx_log::{LogError, read_log};
use mx_payload::{PayloadError, decode};
use std::alloc::{AllocError, Global};

/// Whether the bytes are a base, each of whose values is a payload.
pub(crate) fn is_base(alloc: Global, bytes: &[u8]) -> Result<bool, AllocError>
    ensures { IfOk result (λ is. Decides is (ReadsAsBase bytes.now)) }
{
    match mx_hfile::read(alloc, bytes) {
        Ok(entries) => have_payloads(alloc, entries.as_slice()),
        Err(HFileError::NoMemory) => Err(AllocError),
        Err(HFileError::BadHFile { .. }) => Ok(false),
    }
}

/// Whether the bytes are a log of the instant, each of whose values is a payload.
pub(crate) fn is_log(alloc: Global, at: Instant, bytes: &[u8]) -> Result<bool, AllocError>
    ensures { IfOk result (λ is. Decides is (ReadsAsLog at bytes.now)) }
{
    match read_log(alloc, bytes) {
        Ok((found, entries)) => {
            if found != at {
                return Ok(false);
            }
            have_payloads(alloc, entries.as_slice())
        }
        Err(LogError::NoMemory) => Err(AllocError),
        Err(LogError::BadLog { .. }) => Ok(false),
    }
}

fn have_payloads(alloc: Global, entries: &[Entry]) -> Result<bool, AllocError>
    ensures { IfOk result (λ have. Decides have (SpellPayloads entries.now)) }
{
    for entry in entries {
        if !has_payload(alloc, entry)? {
            return Ok(false);
        }
    }
    Ok(true)
}

fn has_payload(alloc: Global, entry: &Entry) -> Result<bool, AllocError>
    ensures { IfOk result (λ has. Decides has (IsRead entry.now.value)) }
{
    match decode(alloc, entry.value.as_slice()) {
        Ok(_) => Ok(true),
        Err(PayloadError::NoMemory) => Err(AllocError),
        Err(PayloadError::BadPayload { .. }) => Ok(false),
    }
}
