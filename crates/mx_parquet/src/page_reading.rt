ghost use Rattle.std.specs.Prelude.{◌≡◌, ◌<◌, ◌^◌, true, IsTrue, List, length, replicate, IfOk};
ghost use Rattle.mx_schema.specs.declared.cell.Cell.{Cell as AnyCell};
ghost use Rattle.mx_levels.specs.Decoding as levels;
ghost use Rattle.mx_parquet.specs.Decoding.{IsPageOf};
ghost use Rattle.mx_parquet.specs.Values as values;
ghost use Rattle.mx_parquet.specs.Chunks.{Reads, FindsOne, AreLevelsIn};

use crate::error::{Failure, Flaw};
use crate::values::{cells_of, sized_of};
use mx_levels::{LevelError, read_levels};
use mx_lists::Listed;
use mx_schema::{Cell, Column, ColumnKind};
use std::alloc::{AllocError, Global};

/// The cells of a page that has so many.
pub(crate) fn page_of(
    alloc: Global,
    column: &Column,
    count: usize,
    bytes: &[u8],
) -> Result<Listed<Cell>, Failure>
    requires { length bytes.now < 2 ^ 32 }
    ensures { Reads (λ held. IsPageOf column.now bytes.now held × (length held ≡ count)) result }
{
    if is_too_short(column, count, bytes) {
        return Err(Failure::Flawed { flaw: Flaw::Bad });
    }
    let (levels, rest) = levels_of(alloc, column.nullable, count, bytes)?;
    cells_of(alloc, column.kind, levels.as_slice(), rest)
}

/// Whether bytes are too few for so many values of a column without nulls. No level stands there for them, so the count
/// is not yet seen in the bytes.
fn is_too_short(column: &Column, count: usize, bytes: &[u8]) -> bool
    requires { length bytes.now < 2 ^ 32 }
    ensures { IsTrue result → (held : List AnyCell) → ¬ (IsPageOf column.now bytes.now held × (length held ≡ count)) }
{
    !column.nullable && count > most_values(column.kind, bytes.len())
}

/// How many values of a kind so many bytes hold at most.
fn most_values(kind: ColumnKind, len: usize) -> usize
    requires { len < 2 ^ 32 }
    ensures { result ≡ values.most_values kind len }
{
    match kind {
        ColumnKind::Boolean => 8 * len,
        ColumnKind::Int32 | ColumnKind::Text => len / 4,
        ColumnKind::Int64 => len / 8,
    }
}

/// The levels of a page that has so many, and the bytes behind them.
fn levels_of(
    alloc: Global,
    nullable: bool,
    count: usize,
    bytes: &[u8],
) -> Result<(Listed<bool>, &[u8]), Failure>
    ensures { FindsOne (λ x. (x.0, x.1.now)) (AreLevelsIn nullable count bytes.now) result }
{
    if nullable {
        let (body, rest) = sized_of(bytes)?;
        Ok((levels_in(alloc, body, count)?, rest))
    } else {
        Ok((all_present(alloc, count)?, bytes))
    }
}

fn levels_in(alloc: Global, body: &[u8], count: usize) -> Result<Listed<bool>, Failure>
    ensures { FindsOne (λ x. x) (levels.Decodes body.now count) result }
{
    match read_levels(alloc, body, count) {
        Ok(levels) => Ok(Listed::from_vec(levels)),
        Err(LevelError::NoMemory) => Err(Failure::NoMemory),
        Err(LevelError::BadRun { .. }) => Err(Failure::Flawed { flaw: Flaw::Bad }),
    }
}

/// The levels of cells of which none is null.
fn all_present(alloc: Global, count: usize) -> Result<Listed<bool>, AllocError>
    ensures { IfOk result (λ levels. levels ≡ replicate count true) }
{
    let mut levels = Vec::new(alloc);
    levels.resize(count, true)?;
    Ok(Listed::from_vec(levels))
}
