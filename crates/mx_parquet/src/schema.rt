ghost use Rattle.std.specs.Prelude.{◌≡◌, ◌↔◌, IsTrue, map};
ghost use Rattle.mx_parquet.specs.Columns.{text_column, hudi_names};
ghost use Rattle.mx_parquet.specs.Found.{FindsSchema, FindsColumns};

use crate::column::HUDI_COUNT;
use crate::error::{Failure, Flaw};
use mx_lists::{Same, same_items};
use mx_schema::{Column, ColumnKind, Schema, SchemaError, print_columns};
use std::alloc::Global;

const HUDI_NAMES: [&str; 5] = [
    "_hoodie_commit_time",
    "_hoodie_commit_seqno",
    "_hoodie_record_key",
    "_hoodie_partition_path",
    "_hoodie_file_name",
];

/// The schema whose columns stand behind those of Hudi.
pub(crate) fn schema_of(alloc: Global, columns: &[Column]) -> Result<Schema, Failure>
    ensures { FindsSchema columns.now result }
{
    let Some((front, behind)) = columns.split_at_checked(HUDI_COUNT) else {
        return Err(Failure::Flawed { flaw: Flaw::Bad });
    };
    if !are_hudi(front) {
        return Err(Failure::Flawed { flaw: Flaw::Bad });
    }
    schema_from(alloc, behind)
}

/// Whether columns are those of Hudi.
#[tactic(auto, unfolding(crate::specs::Columns::hudi_names))]
fn are_hudi(columns: &[Column]) -> bool
    ensures { IsTrue result ↔ (columns.now ≡ map text_column hudi_names) }
{
    are_texts(columns, &HUDI_NAMES)
}

/// Whether columns are columns of texts of these names, without nulls.
fn are_texts(columns: &[Column], names: &[&str]) -> bool
    ensures { IsTrue result ↔ (columns.now ≡ map (λ name. text_column name.now) names.now) }
{
    match (columns, names) {
        ([], []) => true,
        ([column, columns @ ..], [name, names @ ..]) => {
            is_text(column, name) && are_texts(columns, names)
        }
        _ => false,
    }
}

fn is_text(column: &Column, name: &str) -> bool
    ensures { IsTrue result ↔ (column.now ≡ text_column name.now) }
{
    column.name.as_str() == name && column.kind.same(&ColumnKind::Text) && !column.nullable
}

/// The schema of these columns.
fn schema_from(alloc: Global, columns: &[Column]) -> Result<Schema, Failure>
    ensures { FindsColumns columns.now result }
{
    let text = print_columns(alloc, columns)?;
    match Schema::parse(alloc, text.as_str()) {
        Ok(schema) => {
            if same_items(schema.columns(), columns) {
                Ok(schema)
            } else {
                Err(Failure::Flawed { flaw: Flaw::Bad })
            }
        }
        Err(SchemaError::NoMemory) => Err(Failure::NoMemory),
        Err(SchemaError::BadSchema { .. }) => Err(Failure::Flawed { flaw: Flaw::Bad }),
    }
}
