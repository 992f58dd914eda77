ghost use Rattle.std.specs.Prelude.{◌≡◌, ◌++◌, List, ℕ, pos, map, OnOk, IfOk};
ghost use Rattle.std.specs.List.{flat_map};
ghost use Rattle.mx_avro.specs.Encoding.{long_encoding, bytes_encoding};
ghost use Rattle.mx_payload.specs.declared.payload.Payload.TheVariants.{Partitions, Files, Stats, Bloom, Location};
ghost use Rattle.mx_payload.specs.Rules.{IsWellFormed, IsLong, IsStat, AreWords, plain};
ghost use Rattle.mx_payload.specs.Encoding.{long, flag, cell_bytes, word, word_map, stat_bytes, column_bytes, place_bytes, absent, encoding};

use crate::payload::{NameWord, Payload};
use mx_avro::{put_bytes, put_long};
use mx_lists::Text;
use mx_schema::{Cell, ColumnStat};
use std::alloc::{AllocError, Global};

/// The one spelling of a payload.
pub fn encode(alloc: Global, payload: &Payload) -> Result<Vec<u8>, AllocError>
    requires { IsWellFormed payload.now }
    ensures { IfOk result (λ bytes. bytes.items ≡ encoding payload.now) }
{
    let mut out = Vec::new(alloc);
    put_payload(&mut out, payload)?;
    Ok(out)
}

fn put_payload(out: &mut Vec<u8>, payload: &Payload) -> Result<(), AllocError>
    requires { IsWellFormed payload.now }
    ensures { OnOk result (out.new.items ≡ out.old.items ++ encoding payload.now) }
{
    match payload {
        Payload::Partitions(names) => put_partitions(out, names.as_slice()),
        Payload::Files(words) => put_files(out, words.as_slice()),
        Payload::Stats {
            file,
            column,
            stat,
            deleted,
        } => put_stats(out, file, column, stat, *deleted),
        Payload::Bloom { bits, deleted } => put_bloom(out, bits.as_slice(), *deleted),
        Payload::Location {
            partition,
            file,
            instant,
            deleted,
        } => put_location(out, partition, file, *instant, *deleted),
    }
}

fn put_partitions(out: &mut Vec<u8>, names: &[Text]) -> Result<(), AllocError>
    requires { AreWords (map plain names.now) }
    ensures { OnOk result (out.new.items ≡ out.old.items ++ encoding (Partitions names.now)) }
{
    put_head(out, 1)?;
    put_long(out, 1)?;
    put_names(out, names)?;
    put_absent(out)?;
    put_absent(out)?;
    put_absent(out)
}

fn put_files(out: &mut Vec<u8>, words: &[NameWord]) -> Result<(), AllocError>
    requires { AreWords words.now }
    ensures { OnOk result (out.new.items ≡ out.old.items ++ encoding (Files words.now)) }
{
    put_head(out, 2)?;
    put_long(out, 1)?;
    put_words(out, words)?;
    put_absent(out)?;
    put_absent(out)?;
    put_absent(out)
}

fn put_stats(
    out: &mut Vec<u8>,
    file: &Text,
    column: &Text,
    stat: &ColumnStat,
    deleted: bool,
) -> Result<(), AllocError>
    requires { IsStat stat.now deleted }
    ensures { OnOk result (out.new.items ≡ out.old.items ++ encoding (Stats file.now column.now stat.now deleted)) }
{
    put_head(out, 3)?;
    put_absent(out)?;
    put_absent(out)?;
    put_long(out, 1)?;
    put_column(out, file, column, stat, deleted)?;
    put_absent(out)
}

#[tactic(auto, unfolding(crate::specs::Encoding::column_bytes))]
fn put_column(
    out: &mut Vec<u8>,
    file: &Text,
    column: &Text,
    stat: &ColumnStat,
    deleted: bool,
) -> Result<(), AllocError>
    requires { IsStat stat.now deleted }
    ensures { OnOk result (out.new.items ≡ out.old.items ++ column_bytes file.now column.now stat.now deleted) }
{
    put_bytes(out, file.as_str().as_bytes())?;
    put_bytes(out, column.as_str().as_bytes())?;
    put_stat(out, stat, deleted)
}

fn put_bloom(out: &mut Vec<u8>, bits: &[u8], deleted: bool) -> Result<(), AllocError>
    ensures { OnOk result (out.new.items ≡ out.old.items ++ encoding (Bloom bits.now deleted)) }
{
    put_head(out, 4)?;
    put_absent(out)?;
    put_long(out, 1)?;
    put_bytes(out, bits)?;
    put_flag(out, deleted)?;
    put_absent(out)?;
    put_absent(out)
}

fn put_location(
    out: &mut Vec<u8>,
    partition: &Text,
    file: &Text,
    instant: u64,
    deleted: bool,
) -> Result<(), AllocError>
    requires { IsLong instant }
    ensures { OnOk result (out.new.items ≡ out.old.items ++ encoding (Location partition.now file.now instant deleted)) }
{
    put_head(out, 5)?;
    put_absent(out)?;
    put_absent(out)?;
    put_absent(out)?;
    put_long(out, 1)?;
    put_place(out, partition, file, instant, deleted)
}

#[tactic(auto, unfolding(crate::specs::Encoding::place_bytes))]
fn put_place(
    out: &mut Vec<u8>,
    partition: &Text,
    file: &Text,
    instant: u64,
    deleted: bool,
) -> Result<(), AllocError>
    requires { IsLong instant }
    ensures { OnOk result (out.new.items ≡ out.old.items ++ place_bytes partition.now file.now instant deleted) }
{
    put_bytes(out, partition.as_str().as_bytes())?;
    put_bytes(out, file.as_str().as_bytes())?;
    put_long(out, instant as i64)?;
    put_flag(out, deleted)
}

fn put_head(out: &mut Vec<u8>, kind: i64) -> Result<(), AllocError>
    ensures { OnOk result (out.new.items ≡ out.old.items ++ absent ++ long_encoding kind) }
{
    put_long(out, 0)?;
    put_long(out, kind)
}

fn put_absent(out: &mut Vec<u8>) -> Result<(), AllocError>
    ensures { OnOk result (out.new.items ≡ out.old.items ++ absent) }
{
    put_long(out, 0)
}

fn put_flag(out: &mut Vec<u8>, deleted: bool) -> Result<(), AllocError>
    ensures { OnOk result (out.new.items ≡ out.old.items ++ flag deleted) }
{
    out.push(if deleted { 1 } else { 0 })?;
    Ok(())
}

fn put_names(out: &mut Vec<u8>, names: &[Text]) -> Result<(), AllocError>
    requires { AreWords (map plain names.now) }
    ensures { OnOk result (out.new.items ≡ out.old.items ++ word_map (map plain names.now)) }
{
    if names.is_empty() {
        return put_long(out, 0);
    }
    put_long(out, names.len() as i64)?;
    for name in names {
        put_word(out, name, 0, false)?;
    }
    put_long(out, 0)
}

fn put_words(out: &mut Vec<u8>, words: &[NameWord]) -> Result<(), AllocError>
    requires { AreWords words.now }
    ensures { OnOk result (out.new.items ≡ out.old.items ++ word_map words.now) }
{
    if words.is_empty() {
        return put_long(out, 0);
    }
    put_long(out, words.len() as i64)?;
    for word in words {
        put_word(out, &word.name, word.size, word.deleted)?;
    }
    put_long(out, 0)
}

fn put_word(out: &mut Vec<u8>, name: &Text, size: u64, deleted: bool) -> Result<(), AllocError>
    requires { IsLong size }
    ensures { OnOk result (out.new.items ≡ out.old.items ++ bytes_encoding name.now ++ long size ++ flag deleted) }
{
    put_bytes(out, name.as_str().as_bytes())?;
    put_long(out, size as i64)?;
    put_flag(out, deleted)
}

fn put_stat(out: &mut Vec<u8>, stat: &ColumnStat, deleted: bool) -> Result<(), AllocError>
    requires { IsStat stat.now deleted }
    ensures { OnOk result (out.new.items ≡ out.old.items ++ stat_bytes stat.now deleted) }
{
    put_cell(out, &stat.min)?;
    put_cell(out, &stat.max)?;
    put_long(out, stat.values as i64)?;
    put_long(out, stat.nulls as i64)?;
    put_long(out, stat.size as i64)?;
    put_long(out, stat.uncompressed as i64)?;
    put_flag(out, deleted)
}

fn put_cell(out: &mut Vec<u8>, cell: &Cell) -> Result<(), AllocError>
    ensures { OnOk result (out.new.items ≡ out.old.items ++ cell_bytes cell.now) }
{
    match cell {
        Cell::Null => put_long(out, 0),
        Cell::Flag(flag) => {
            put_long(out, 1)?;
            put_flag(out, *flag)
        }
        Cell::Small(number) => {
            put_long(out, 2)?;
            put_long(out, i64::from(*number))
        }
        Cell::Whole(number) => {
            put_long(out, 3)?;
            put_long(out, *number)
        }
        Cell::Text(text) => {
            put_long(out, 4)?;
            put_bytes(out, text.as_str().as_bytes())
        }
    }
}
