ghost use Rattle.std.specs.Prelude.{◌≡◌, ◌≢◌, ◌<◌, ◌^◌, List, ℕ, IfOk, IsErrOf, MatchOption};
ghost use Rattle.serde_json.specs.Data.{number, string, unsigned};
ghost use Rattle.serde_json.specs.View.{view};
ghost use Rattle.mx_base.specs.Digits.{instant_text};
ghost use Rattle.mx_base.specs.Names.{IsFileId, IsPartition};
ghost use Rattle.mx_ask.specs.Asks.{IsSessionNumber};

use crate::LineError;
use crate::members::text_in;
use mx_base::{FileId, Instant, NameError, Partition};
use serde_json::Value;
use std::alloc::Global;

/// The session that a value is.
pub fn session_in(value: &Value) -> Option<u32>
    ensures { MatchOption result
        ((session : ℕ) → IsSessionNumber session → view value.now ≢ number (unsigned session))
        (λ session. (view value.now ≡ number (unsigned session)) × IsSessionNumber session) }
{
    let session = value.as_u64()?;
    if 1 <= session && session <= 64 {
        Some(session as u32)
    } else {
        None
    }
}

/// The instant that a value is.
pub fn instant_in(value: &Value) -> Option<Instant>
    ensures { MatchOption result
        ((at : ℕ) → at < 10 ^ 17 → view value.now ≢ string (instant_text at))
        (λ at. (view value.now ≡ string (instant_text at)) × (at < 10 ^ 17)) }
{
    match Instant::parse(text_in(value)?) {
        Ok(at) => {
            // Only this call says that the number fits.
            prove!(at.number() <= 99_999_999_999_999_999);
            Some(at)
        }
        Err(_) => None,
    }
}

/// The file id that a value is.
pub fn file_id_in(value: &Value) -> Option<FileId>
    ensures { MatchOption result
        ((file : List ℕ) → IsFileId file → view value.now ≢ string file)
        (λ file. (view value.now ≡ string file) × IsFileId file) }
{
    match FileId::parse(text_in(value)?) {
        Ok(file) => Some(file),
        Err(_) => None,
    }
}

/// The partition that a value is.
pub fn partition_in(alloc: Global, value: &Value) -> Result<Partition, LineError>
    ensures ok { IfOk result (λ partition. (view value.now ≡ string partition) × IsPartition partition) }
    ensures not_an_ask { IsErrOf result LineError.NotAnAsk
        → (partition : List ℕ) → IsPartition partition → view value.now ≢ string partition }
{
    let Some(text) = text_in(value) else {
        return Err(LineError::NotAnAsk);
    };
    match Partition::parse(alloc, text) {
        Ok(partition) => Ok(partition),
        Err(NameError::BadName) => Err(LineError::NotAnAsk),
        Err(NameError::NoMemory) => Err(LineError::NoMemory),
    }
}
