ghost use Rattle.std.specs.Prelude.{◌≡◌, ◌++◌, length, flat_map, IfOk, OnOk};
ghost use Rattle.std.specs.Int.{w32, w64, from_le_bytes, cast_signed};
ghost use Rattle.mx_schema.specs.declared.column.ColumnKind.TheVariants as kinds;
ghost use Rattle.mx_levels.specs.Encoding.{bits};
ghost use Rattle.mx_parquet.specs.Reading.{Gives, Answers};
ghost use Rattle.mx_parquet.specs.Values as values;
ghost use Rattle.mx_parquet.specs.Values.{Tells, front_in, sized_in, value_in, plain_in, flags_in, truths_in, cells_in};

use crate::error::{Failure, Flaw};
use crate::opening::u32_of;
use mx_lists::{Listed, Text};
use mx_schema::{Cell, ColumnKind};
use std::alloc::{AllocError, Global};

/// A cell of a kind for each level: null where it is false, and else the next of the values.
pub(crate) fn cells_of(
    alloc: Global,
    kind: ColumnKind,
    levels: &[bool],
    bytes: &[u8],
) -> Result<Listed<Cell>, Failure>
    ensures { Answers result (cells_in kind levels.now bytes.now) }
{
    match kind {
        ColumnKind::Boolean => truths_of(alloc, levels, bytes),
        ColumnKind::Int32 | ColumnKind::Int64 | ColumnKind::Text => {
            plain_of(alloc, kind, levels, bytes)
        }
    }
}

fn plain_of(
    alloc: Global,
    kind: ColumnKind,
    levels: &[bool],
    bytes: &[u8],
) -> Result<Listed<Cell>, Failure>
    ensures { Answers result (plain_in kind levels.now bytes.now) }
{
    let mut cells = Listed::new(alloc);
    let mut rest = bytes;
    let mut more = levels;
    while let Some((level, others)) = more.split_first() {
        let (cell, behind) = cell_of(alloc, kind, *level, rest)?;
        cells.push(cell)?;
        rest = behind;
        more = others;
    }
    if !rest.is_empty() {
        return Err(Failure::Flawed { flaw: Flaw::Bad });
    }
    Ok(cells)
}

/// A cell by its level, and the bytes behind it.
fn cell_of(
    alloc: Global,
    kind: ColumnKind,
    level: bool,
    bytes: &[u8],
) -> Result<(Cell, &[u8]), Failure>
    ensures { Tells (λ x. (x.0, x.1.now)) result (values.cell_in kind level bytes.now) }
{
    if level {
        value_of(alloc, kind, bytes)
    } else {
        Ok((Cell::Null, bytes))
    }
}

/// A value of a kind, and the bytes behind it.
#[tactic(auto, unfolding(crate::specs::Values::value_in))]
fn value_of(alloc: Global, kind: ColumnKind, bytes: &[u8]) -> Result<(Cell, &[u8]), Failure>
    ensures { Tells (λ x. (x.0, x.1.now)) result (value_in kind bytes.now) }
{
    match kind {
        ColumnKind::Boolean => Err(Failure::Flawed { flaw: Flaw::Bad }),
        ColumnKind::Int32 => {
            let (number, rest) = front_of(bytes, 4)?;
            Ok((Cell::Small(i32_of(number)), rest))
        }
        ColumnKind::Int64 => {
            let (number, rest) = front_of(bytes, 8)?;
            Ok((Cell::Whole(i64_of(number)), rest))
        }
        ColumnKind::Text => text_of(alloc, bytes),
    }
}

/// A text, and the bytes behind it.
#[tactic(auto, unfolding(crate::specs::Values::value_in))]
fn text_of(alloc: Global, bytes: &[u8]) -> Result<(Cell, &[u8]), Failure>
    ensures { Tells (λ x. (x.0, x.1.now)) result (value_in kinds.Text bytes.now) }
{
    let (text, rest) = sized_of(bytes)?;
    match str::from_utf8(text) {
        Ok(text) => Ok((Cell::Text(Text::from_str(alloc, text)?), rest)),
        Err(_) => Err(Failure::Flawed { flaw: Flaw::Bad }),
    }
}

/// Bytes behind their length, and those behind them.
#[tactic(auto, unfolding(crate::specs::Values::sized_in))]
pub(crate) fn sized_of(bytes: &[u8]) -> Result<(&[u8], &[u8]), Flaw>
    ensures { Gives (λ x. (x.0.now, x.1.now)) result (sized_in bytes.now) }
{
    let (len, behind) = front_of(bytes, 4)?;
    front_of(behind, u32_of(len) as usize)
}

/// So many bytes in front, and those behind.
#[tactic(auto, unfolding(crate::specs::Values::front_in))]
fn front_of(bytes: &[u8], count: usize) -> Result<(&[u8], &[u8]), Flaw>
    ensures parts { Gives (λ x. (x.0.now, x.1.now)) result (front_in count bytes.now) }
    ensures len { IfOk result (λ x. length x.0.now ≡ count) }
{
    if bytes.len() < count {
        return Err(Flaw::Bad);
    }
    Ok(bytes.split_at(count))
}

fn i32_of(bytes: &[u8]) -> i32
    requires { length bytes.now ≡ 4 }
    ensures { result ≡ cast_signed w32 (from_le_bytes w32 bytes.now) }
{
    i32::from_le_bytes([bytes[0], bytes[1], bytes[2], bytes[3]])
}

fn i64_of(bytes: &[u8]) -> i64
    requires { length bytes.now ≡ 8 }
    ensures { result ≡ cast_signed w64 (from_le_bytes w64 bytes.now) }
{
    i64::from_le_bytes([
        bytes[0], bytes[1], bytes[2], bytes[3], bytes[4], bytes[5], bytes[6], bytes[7],
    ])
}

/// Truth values, which are bits.
#[tactic(auto, unfolding(crate::specs::Values::truths_in))]
fn truths_of(alloc: Global, levels: &[bool], bytes: &[u8]) -> Result<Listed<Cell>, Failure>
    ensures { Answers result (truths_in levels.now bytes.now) }
{
    if bytes.len() != present_count(levels).div_ceil(8) {
        return Err(Failure::Flawed { flaw: Flaw::Bad });
    }
    let flags = bits_of(alloc, bytes)?;
    Ok(flags_of(alloc, levels, &flags)?)
}

/// How many levels are those of a value.
#[tactic(auto, unfolding(crate::specs::Values::present_count))]
fn present_count(levels: &[bool]) -> usize
    ensures { result ≡ values.present_count levels.now }
{
    levels.iter().filter(|level| **level).count()
}

/// A cell for each level, of truth values in order.
fn flags_of(alloc: Global, levels: &[bool], flags: &[bool]) -> Result<Listed<Cell>, AllocError>
    ensures { IfOk result (λ cells. cells ≡ flags_in levels.now flags.now) }
{
    let mut cells = Listed::new(alloc);
    let mut rest = flags;
    let mut more = levels;
    while let Some((level, others)) = more.split_first() {
        let (cell, behind) = flag_of(*level, rest);
        cells.push(cell)?;
        rest = behind;
        more = others;
    }
    Ok(cells)
}

/// A truth value or a null, and the truth values behind it.
fn flag_of(level: bool, flags: &[bool]) -> (Cell, &[bool])
    ensures { (result.0, result.1.now) ≡ values.flag_in level flags.now }
{
    match (level, flags) {
        (true, [flag, behind @ ..]) => (Cell::Flag(*flag), behind),
        _ => (Cell::Null, flags),
    }
}

/// The bits of bytes, the lowest of a byte first.
fn bits_of(alloc: Global, bytes: &[u8]) -> Result<Vec<bool>, AllocError>
    ensures { IfOk result (λ flags. flags.items ≡ flat_map (bits 8) bytes.now) }
{
    let mut flags = Vec::new(alloc);
    for &byte in bytes {
        flags.extend_from_slice(&byte_bits(byte))?;
    }
    Ok(flags)
}

/// The bits of a byte, the lowest first.
#[tactic(auto, unfolding(mx_levels::specs::Encoding::bits))]
fn byte_bits(byte: u8) -> [bool; 8]
    ensures { result ≡ bits 8 byte }
{
    let second = byte / 2;
    let third = second / 2;
    let fourth = third / 2;
    let fifth = fourth / 2;
    let sixth = fifth / 2;
    let seventh = sixth / 2;
    let eighth = seventh / 2;
    [
        byte % 2 == 1,
        second % 2 == 1,
        third % 2 == 1,
        fourth % 2 == 1,
        fifth % 2 == 1,
        sixth % 2 == 1,
        seventh % 2 == 1,
        eighth % 2 == 1,
    ]
}
