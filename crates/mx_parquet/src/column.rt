ghost use Rattle.std.specs.Prelude.{◌≡◌, ◌+◌, ◌<◌, Some, length, slice_get};
ghost use Rattle.mx_parquet.specs.Columns.{hudi_names, columns_of, text_column};
ghost use Rattle.mx_parquet.specs.Seen.{seen};

use mx_schema::{Column, ColumnKind};

/// How many columns of Hudi stand before those of the schema.
pub(crate) const HUDI_COUNT: usize = 5;

/// A column of a file.
#[derive(Clone, Copy, Drop)]
pub(crate) struct ColumnView<'a> {
    pub(crate) name: &'a str,
    pub(crate) kind: ColumnKind,
    pub(crate) nullable: bool,
}

/// The column at a place.
pub(crate) fn column_at(schema: &[Column], place: usize) -> ColumnView<'_>
    requires { place < 5 + length schema.now }
    ensures { slice_get (columns_of schema.now) place ≡ Some (seen result) }
{
    if place < HUDI_COUNT {
        return hudi_column(place);
    }
    schema_column(&schema[place - HUDI_COUNT])
}

fn schema_column(column: &Column) -> ColumnView<'_>
    ensures { seen result ≡ column.now }
{
    ColumnView {
        name: column.name.as_str(),
        kind: column.kind,
        nullable: column.nullable,
    }
}

fn hudi_column(place: usize) -> ColumnView<'static>
    requires { place < 5 }
    ensures value { seen result ≡ text_column result.name.now }
    ensures name { slice_get hudi_names place ≡ Some result.name.now }
{
    ColumnView {
        name: hudi_name(place),
        kind: ColumnKind::Text,
        nullable: false,
    }
}

#[tactic(auto, unfolding(crate::specs::Columns::hudi_names))]
fn hudi_name(place: usize) -> &'static str
    requires { place < 5 }
    ensures { slice_get hudi_names place ≡ Some result.now }
{
    match place {
        0 => "_hoodie_commit_time",
        1 => "_hoodie_commit_seqno",
        2 => "_hoodie_record_key",
        3 => "_hoodie_partition_path",
        _ => "_hoodie_file_name",
    }
}
