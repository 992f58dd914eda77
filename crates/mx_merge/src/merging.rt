ghost use Rattle.std.specs.Prelude.{◌≡◌, ◌++◌, List, ℕ, true, nat_eq, fold, OnOk, IfErr, bytes_eq, if◌then◌else◌};
ghost use Rattle.std.specs.List.{starts_with};
ghost use Rattle.std.specs.Option.{option_to_list};
ghost use Rattle.std.specs.BTreeMap as tree;
ghost use Rattle.std.specs.Ordering.{nat_cmp};
ghost use Rattle.std.specs.Cmp.Lexicographic.{slice_cmp};
ghost use Rattle.mx_merge.specs.Merged.{slice_entries, Merges};
ghost use Rattle.mx_merge.specs.Said.{known_at, asked, heard, entry_on, IsKnown, IsShown, FailsBy, TellsAll};

use crate::error::MergeError;
use crate::known::Known;
use crate::log::Log;
use crate::looking::entry_with;
use mx_base::Entry;
use mx_lists::{Bytes, Listed};
use std::alloc::{AllocError, Global};
use std::collections::BTreeMap;

/// The entries that a base and its logs, the oldest first, show on the keys with the prefix.
pub fn scan(
    alloc: Global,
    base: &[Entry],
    logs: &[Log],
    prefix: &[u8],
) -> Result<Listed<Entry>, MergeError>
    ensures { Merges (λ key. starts_with nat_eq key prefix.now) (slice_entries base.now logs.now) result }
{
    let mut met = BTreeMap::new(alloc);
    meet_all(alloc, &mut met, base, prefix)?;
    for log in logs {
        meet_all(alloc, &mut met, log.entries.as_slice(), prefix)?;
    }
    shown_entries(alloc, met)
}

/// The entries that a base and its logs, the oldest first, show.
pub fn merge(alloc: Global, base: &[Entry], logs: &[Log]) -> Result<Listed<Entry>, MergeError>
    ensures { Merges (λ key. true) (slice_entries base.now logs.now) result }
{
    scan(alloc, base, logs, &[])
}

fn meet_all(
    alloc: Global,
    met: &mut BTreeMap<Bytes, Known>,
    entries: &[Entry],
    prefix: &[u8],
) -> Result<(), AllocError>
    requires { (key : List ℕ) → IsKnown (known_at met.old key) }
    ensures known { OnOk result ((key : List ℕ) → known_at met.new key ≡ fold heard (known_at met.old key) (asked prefix.now key entries.now)) }
    ensures kept { OnOk result ((key : List ℕ) → IsKnown (known_at met.new key)) }
{
    for entry in entries {
        if entry.key.as_slice().starts_with(prefix) {
            meet(alloc, met, entry)?;
        }
    }
    Ok(())
}

fn meet(alloc: Global, met: &mut BTreeMap<Bytes, Known>, entry: &Entry) -> Result<(), AllocError>
    requires { (key : List ℕ) → IsKnown (known_at met.old key) }
    ensures known { OnOk result ((key : List ℕ) → known_at met.new key ≡ (if bytes_eq entry.now.key key then heard (known_at met.old key) entry.now.value else known_at met.old key)) }
    ensures kept { OnOk result ((key : List ℕ) → IsKnown (known_at met.new key)) }
{
    let value = entry.value.as_slice();
    if let Some(known) = met.get_mut(&entry.key) {
        return known.push(alloc, value);
    }
    let mut known = Known::new();
    known.push(alloc, value)?;
    met.insert(entry.key.clone()?, known)?;
    Ok(())
}

fn shown_entries(alloc: Global, met: BTreeMap<Bytes, Known>) -> Result<Listed<Entry>, MergeError>
    requires { (key : List ℕ) → IsKnown (known_at met key) }
    ensures tells { TellsAll met.entries result }
    ensures ordered { tree.IsOrdered (slice_cmp nat_cmp) met }
{
    let mut entries = Listed::new(alloc);
    for (key, known) in met {
        push_shown(alloc, &mut entries, key, known)?;
    }
    Ok(entries)
}

fn push_shown(
    alloc: Global,
    entries: &mut Listed<Entry>,
    key: Bytes,
    known: Known,
) -> Result<(), MergeError>
    requires { IsKnown known }
    ensures pushed { OnOk result (entries.new ≡ entries.old ++ option_to_list (entry_on (key, known))) }
    ensures shown { OnOk result (IsShown known) }
    ensures fails { IfErr result (FailsBy known) }
{
    if let Some(payload) = known.shown(alloc)? {
        entries.push(entry_with(alloc, key, &payload)?)?;
    }
    Ok(())
}
