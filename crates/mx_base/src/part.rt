ghost use Rattle.std.specs.Prelude.{◌≡◌, ◌↔◌, ◌<◌, IfOk, IsTrue, Ok};
ghost use Rattle.mx_base.specs.Parts.{part_name, part_place, shard_count};
ghost use Rattle.mx_base.specs.declared.part.Part as parts;

use crate::instant::BadName;
use mx_lists::Same;

/// An index partition of the metadata table, in the order in which the config lists them.
#[derive(Clone, Copy, Debug, PartialEq, Eq, PartialOrd, Ord)]
pub enum Part {
    Files,
    ColumnStats,
    BloomFilters,
    RecordIndex,
}

impl Part {
    /// The partition that a name is of.
    pub fn parse(text: &str) -> Result<Part, BadName>
        ensures ok { IfOk result (λ part. text.now ≡ part_name part) }
        ensures only { (part : parts.Part) → text.now ≡ part_name part → result ≡ Ok part }
    {
        match text {
            "files" => Ok(Part::Files),
            "column_stats" => Ok(Part::ColumnStats),
            "bloom_filters" => Ok(Part::BloomFilters),
            "record_index" => Ok(Part::RecordIndex),
            _ => Err(BadName),
        }
    }

    /// Its name.
    pub fn name(self) -> &'static str
        ensures { result.now ≡ part_name self }
    {
        match self {
            Part::Files => "files",
            Part::ColumnStats => "column_stats",
            Part::BloomFilters => "bloom_filters",
            Part::RecordIndex => "record_index",
        }
    }

    /// How many shards it has.
    pub fn shards(self) -> u32
        ensures value { result ≡ shard_count self }
        ensures some { 0 < result }
    {
        match self {
            Part::Files => 1,
            Part::ColumnStats | Part::BloomFilters => 4,
            Part::RecordIndex => 8,
        }
    }

    /// Its place in the order of the partitions.
    pub fn place(self) -> u32
        ensures { result ≡ part_place self }
    {
        self as u32
    }

    /// Whether it comes before another.
    pub fn is_before(self, other: Part) -> bool
        ensures { IsTrue result ↔ (part_place self < part_place other) }
    {
        self < other
    }
}

impl Same for Part {
    fn same(&self, other: &Part) -> bool {
        self == other
    }
}
