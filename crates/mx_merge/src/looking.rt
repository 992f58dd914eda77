ghost use Rattle.std.specs.Prelude.{◌≡◌, fold, IfOk, OnOk, IfSome};
ghost use Rattle.mx_payload.specs.Rules.{IsWellFormed};
ghost use Rattle.mx_merge.specs.Merged.{slice_entries, values_on_key, Shows, Finds};
ghost use Rattle.mx_merge.specs.Said.{heard, IsKnown, entry_with};

use crate::error::MergeError;
use crate::known::Known;
use crate::log::Log;
use mx_base::Entry;
use mx_lists::Bytes;
use mx_payload::{Payload, encode};
use std::alloc::{AllocError, Global};

/// What a base and its logs, the oldest first, show on the key.
pub fn payload_on(
    alloc: Global,
    base: &[Entry],
    logs: &[Log],
    key: &[u8],
) -> Result<Option<Payload>, MergeError>
    ensures shows { Shows key.now (slice_entries base.now logs.now) result }
    ensures kept { IfOk result (λ found. IfSome found IsWellFormed) }
{
    let mut known = Known::new();
    read_all(alloc, &mut known, base, key)?;
    for log in logs {
        read_all(alloc, &mut known, log.entries.as_slice(), key)?;
    }
    known.shown(alloc)
}

/// The entry that a base and its logs, the oldest first, show on the key.
pub fn look(
    alloc: Global,
    base: &[Entry],
    logs: &[Log],
    key: &[u8],
) -> Result<Option<Entry>, MergeError>
    ensures { Finds key.now (slice_entries base.now logs.now) result }
{
    match payload_on(alloc, base, logs, key)? {
        Some(payload) => {
            let key = Bytes::from_slice(alloc, key)?;
            Ok(Some(entry_with(alloc, key, &payload)?))
        }
        None => Ok(None),
    }
}

/// The entry of what a key shows.
pub(crate) fn entry_with(alloc: Global, key: Bytes, payload: &Payload) -> Result<Entry, AllocError>
    requires { IsWellFormed payload.now }
    ensures { IfOk result (λ entry. entry ≡ entry_with key payload.now) }
{
    let value = Bytes::from_vec(encode(alloc, payload)?);
    Ok(Entry { key, value })
}

/// Reads the values that entries have on the key.
fn read_all(
    alloc: Global,
    known: &mut Known,
    entries: &[Entry],
    key: &[u8],
) -> Result<(), AllocError>
    requires { IsKnown known.old }
    ensures known { OnOk result (known.new ≡ fold heard known.old (values_on_key key.now entries.now)) }
    ensures kept { OnOk result (IsKnown known.new) }
{
    for entry in entries {
        if entry.key.as_slice() == key {
            known.push(alloc, entry.value.as_slice())?;
        }
    }
    Ok(())
}
