ghost use Rattle.std.specs.Prelude.{◌≡◌, ◌++◌, ◌∷◌, [], IfOk, decimal, unwrap_or};
ghost use Rattle.std.specs.List.{AllByRecursion};
ghost use Rattle.std.specs.Str.{IsUtf8};
ghost use Rattle.mx_base.specs.Digits.{instant_text};
ghost use Rattle.mx_parquet.specs.Fits.{FitsRow, HasTexts, IsEncoded};
ghost use Rattle.mx_schema.specs.Rows.{FitsAll, asked};
ghost use Rattle.mx_rows.specs.Checks as checks;
ghost use Rattle.mx_rows.specs.Checks.{RowsFit};
ghost use Rattle.mx_rows.specs.Filled as spec;

use crate::cells::{behind_key, cells_of};
use crate::doubles::key_of;
use mx_base::{Instant, Partition};
use mx_lists::Text;
use mx_parquet::RowView;
use mx_schema::{Row, Schema};
use std::alloc::{AllocError, Global};

/// Where the rows of a file are written.
#[derive(Drop)]
pub struct Place<'a> {
    /// The instant of the commit.
    pub at: Instant,
    /// The file's number in the commit, from 0.
    pub number: u64,
    pub partition: &'a Partition,
    /// The last part of the file's path.
    pub name: &'a Text,
}

/// The rows of the file at a place, with the five columns of Hudi. They have no copies of the rows' texts.
pub fn full_rows<'a>(
    alloc: Global,
    schema: &Schema,
    place: &Place<'a>,
    rows: &'a [Row],
) -> Result<Vec<RowView<'a>>, AllocError>
    requires fit { RowsFit schema.now rows.now }
    ensures rows { IfOk result (λ full. full.items ≡ spec.full_rows schema.now (record { at = place.now.at; number = place.now.number; partition = place.now.partition.now; name = place.now.name.now }) rows.now) }
    ensures fit { IfOk result (λ full. AllByRecursion (FitsRow schema.now) full.items) }
    ensures texts { IfOk result (λ full. AllByRecursion HasTexts full.items) }
{
    let time = place.at.to_text(alloc)?;
    let mut full = Vec::with_capacity(alloc, rows.len())?;
    for number in 0..rows.len() {
        let row = full_row(alloc, schema, place, &time, number as u64, &rows[number])?;
        full.push(row)?;
    }
    Ok(full)
}

fn full_row<'a>(
    alloc: Global,
    schema: &Schema,
    place: &Place<'a>,
    time: &Text,
    number: u64,
    row: &'a Row,
) -> Result<RowView<'a>, AllocError>
    requires time { time.now ≡ instant_text place.now.at }
    requires fits { FitsAll (asked schema.now) row.now }
    ensures texts { IfOk result (λ full. HasTexts full) }
    ensures row { IfOk result (λ full. full ≡ spec.full_row schema.now (record { at = place.now.at; number = place.now.number; partition = place.now.partition.now; name = place.now.name.now }) number row.now) }
{
    let seqno = seqno(alloc, time.as_str(), place.number, number)?;
    let cells = cells_of(alloc, schema.columns(), behind_key(row))?;
    let full = RowView::new(
        time.clone()?,
        seqno,
        record_key(row),
        place.partition.as_str(),
        place.name.as_str(),
        cells,
    );
    tell_texts(&full);
    Ok(full)
}

fn tell_texts(row: &RowView<'_>)
    requires { AllByRecursion IsEncoded row.now.cells }
    ensures { HasTexts row.now }
{
    tell_text(row.commit_time());
    tell_text(row.commit_seqno());
    tell_text(row.record_key());
    tell_text(row.partition_path());
    tell_text(row.file_name());
}

// The call tells that the text is in UTF-8.
fn tell_text(text: &str)
    ensures { IsUtf8 text.now }
{
    let _bytes = text.as_bytes();
}

fn seqno(alloc: Global, time: &str, file: u64, row: u64) -> Result<Text, AllocError>
    ensures { IfOk result (λ text. text ≡ time.now ++ (95 ∷ decimal file) ++ (95 ∷ decimal row)) }
{
    Ok(Text::from_string(format!(in alloc; "{time}_{file}_{row}")?))
}

// The key of a row, empty where it has none.
fn record_key(row: &Row) -> &str
    ensures { result.now ≡ unwrap_or (checks.key_of row.now) [] }
{
    match key_of(row) {
        Some(key) => key.as_str(),
        None => "",
    }
}
