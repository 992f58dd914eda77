ghost use Rattle.std.specs.Prelude.{◌≡◌, ◌≢◌, ℕ, List, ◌<◌, ◌^◌, ◌++◌, MatchOption, codes, slice_index};
ghost use Rattle.mx_base.specs.Digits.{digits, instant_text};
ghost use Rattle.mx_base.specs.Objects.{part_front};
ghost use Rattle.mx_base.specs.declared.part.Part as parts;

use crate::digits::read_digits;
use crate::{Instant, Part};

/// The number of an instant at the front of a name, and what follows it.
pub fn split_instant(name: &str) -> Option<(u64, &str)>
    ensures { MatchOption result ((at : ℕ) (ending : List ℕ) → at < 10 ^ 17 → slice_index ending 0 < 128 → name.now ≢ instant_text at ++ ending) (λ read. (read.0 < 10 ^ 17) × (name.now ≡ instant_text read.0 ++ read.1.now)) }
{
    let Some((digits, ending)) = name.split_at_checked(17) else {
        return None;
    };
    match Instant::parse(digits) {
        Ok(at) => Some((at.number(), ending)),
        Err(_) => None,
    }
}

/// A shard of four digits and the `_` behind it at the front of a name, and what follows them.
pub fn split_shard(name: &str) -> Option<(u32, &str)>
    ensures { MatchOption result ((shard : ℕ) (rest : List ℕ) → name.now ≢ digits 4 shard ++ (codes "_" ++ rest)) (λ read. (read.0 < 10000) × (name.now ≡ digits 4 read.0 ++ (codes "_" ++ read.1.now))) }
{
    let (digits, rest) = name.split_at_checked(4)?;
    let Some(shard) = read_digits(digits.as_bytes()) else {
        return None;
    };
    let rest = rest.strip_prefix("_")?;
    Some((shard as u32, rest))
}

/// The folder of an index partition and the partition's name again at the front of a name, and what follows them.
pub fn split_part(name: &str) -> Option<(Part, &str)>
    ensures { MatchOption result ((part : parts.Part) (rest : List ℕ) → name.now ≢ part_front part ++ rest) (λ read. name.now ≡ part_front read.0 ++ read.1.now) }
{
    if let Some(rest) = name.strip_prefix("files/files-") {
        return Some((Part::Files, rest));
    }
    if let Some(rest) = name.strip_prefix("column_stats/column_stats-") {
        return Some((Part::ColumnStats, rest));
    }
    if let Some(rest) = name.strip_prefix("bloom_filters/bloom_filters-") {
        return Some((Part::BloomFilters, rest));
    }
    if let Some(rest) = name.strip_prefix("record_index/record_index-") {
        return Some((Part::RecordIndex, rest));
    }
    None
}
