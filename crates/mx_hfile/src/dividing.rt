ghost use Rattle.std.specs.Prelude.{List, ◌≡◌, ◌<◌, ◌++◌, ◌∷◌, length, min, ◌^◌, ◌-◌, ◌+◌};
ghost use Rattle.std.specs.List.{flat_map};
ghost use Rattle.mx_base.specs.declared.entry.Entry.{Entry};
ghost use Rattle.mx_hfile.specs.Encoding.{entry_bytes, body, blocks_of};
ghost use Rattle.mx_hfile.specs.Division.{Divides};

use crate::blocks::FULL;
use mx_base::Entry;

/// The entries of the first block, and those behind it.
pub(crate) fn first_block(entries: &[Entry]) -> (&[Entry], &[Entry])
    requires { 0 < length entries.now }
    ensures cut { blocks_of entries.now ≡ result.0.now ∷ blocks_of result.1.now }
    ensures whole { entries.now ≡ result.0.now ++ result.1.now }
    ensures some { 0 < length result.0.now }
    ensures behind { length result.1.now < length entries.now }
{
    let mut len = 0_u64;
    for (count, entry) in entries.iter().enumerate() {
        if len >= FULL as u64 {
            return entries.split_at(count);
        }
        len = len.saturating_add(entry_len(entry));
    }
    (entries, &[])
}

/// How many bytes these entries have in a block, or 2^64 - 1 where there are more.
pub(crate) fn body_len(entries: &[Entry]) -> u64
    ensures { result ≡ min (length (body entries.now)) (2 ^ 64 - 1) }
{
    let mut len = 0_u64;
    for entry in entries {
        len = len.saturating_add(entry_len(entry));
    }
    len
}

fn entry_len(entry: &Entry) -> u64
    ensures { result ≡ min (length (entry_bytes entry.now)) (2 ^ 64 - 1) }
{
    (6 + entry.key.as_slice().len() as u64).saturating_add(entry.value.as_slice().len() as u64)
}

/// The blocks of entries divide them, and nothing else does.
pub fn one_division()
    ensures divides { (entries : List Entry) → Divides entries (blocks_of entries) }
    ensures only { (entries : List Entry) (blocks : List (List Entry)) → Divides entries blocks → blocks ≡ blocks_of entries }
{}
