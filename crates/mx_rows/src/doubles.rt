ghost use Rattle.std.specs.Prelude.{◌≡◌, ℕ, List, IfOk, MatchOption, option_copied};
ghost use Rattle.mx_rows.specs.Checks as spec;
ghost use Rattle.mx_rows.specs.Checks.{AreDistinct, HaveDistinct, IsFirstDouble, IsFirstDoubleRow, keys_of};
ghost use Rattle.mx_rows.specs.Found.{HasKeys, IsMet, IsDouble};

use mx_ask::FileRows;
use mx_lists::Text;
use mx_schema::{Row, RowValue};
use std::alloc::{AllocError, Global};
use std::collections::BTreeSet;

/// The key of the first row that has that of an earlier row of its file.
pub fn first_double(alloc: Global, files: &[FileRows]) -> Result<Option<Text>, AllocError>
    ensures { IfOk result (λ found. MatchOption found (HaveDistinct files.now) (IsFirstDoubleRow files.now)) }
{
    for file in files {
        if let Some(key) = double_in_file(alloc, file.rows.as_slice())? {
            return Ok(Some(key));
        }
    }
    Ok(None)
}

fn double_in_file(alloc: Global, rows: &[Row]) -> Result<Option<Text>, AllocError>
    ensures { IfOk result (λ found. MatchOption found (AreDistinct (keys_of rows.now)) (IsFirstDouble (keys_of rows.now))) }
{
    let mut met = BTreeSet::new(alloc);
    for row in rows {
        if let Some(key) = meet(&mut met, row)? {
            return Ok(Some(key));
        }
    }
    Ok(None)
}

// Adds the key of a row to those that were met before; gives it where it was there.
fn meet(met: &mut BTreeSet<Text>, row: &Row) -> Result<Option<Text>, AllocError>
    ensures { (keys : List (List ℕ)) → HasKeys met.old keys → IfOk result (λ found. MatchOption found (IsMet met.new keys row.now) (IsDouble keys row.now)) }
{
    let Some(key) = key_of(row) else {
        return Ok(None);
    };
    if met.insert(key.clone()?)? {
        return Ok(None);
    }
    Ok(Some(key.clone()?))
}

/// The key of a row.
pub(crate) fn key_of(row: &Row) -> Option<&Text>
    ensures { option_copied result ≡ spec.key_of row.now }
{
    match row.as_slice().first() {
        Some(RowValue::Text(key)) => Some(key),
        _ => None,
    }
}
