ghost use Rattle.std.specs.Prelude.{◌≡◌, ◌≢◌, List, IfOk, IsErrOf, All, Some, codes, map};
ghost use Rattle.serde_json.specs.Data.{string};
ghost use Rattle.serde_json.specs.Find.{get};
ghost use Rattle.serde_json.specs.View.{view, items_of, items_view};
ghost use Rattle.mx_ask.specs.declared.ask.Ask.{Ask};
ghost use Rattle.mx_ask.specs.declared.ask.FileRows.{FileRows};
ghost use Rattle.mx_ask.specs.declared.reading.LineError.TheVariants.{NoMemory};
ghost use Rattle.mx_ask.specs.Asks.{file_data, IsFileRows, IsNamed, IsAskData, IsAsk};

use crate::fields::{file_id_in, partition_in};
use crate::members::three_members;
use crate::objects::{commit_parts, files_parts, partitions_parts};
use crate::rows::rows_in;
use crate::{Ask, AskKind, FileRows, Question};
use mx_lists::Listed;
use mx_text::{TextError, read_line};
use serde_json::Value;
use std::alloc::{AllocError, Global};

/// The most bytes of a line that is an ask, without its newline.
const MOST_BYTES: usize = 4_194_304;

/// Why a line gives no ask.
#[derive(Clone, Copy, Debug, PartialEq, Eq)]
pub enum LineError {
    NotAnAsk,
    NoMemory,
}

impl From<AllocError> for LineError {
    ghost from_gives = { λ _ e. e ≡ NoMemory };

    fn from(_: AllocError) -> Self {
        LineError::NoMemory
    }
}

/// The ask that a line is.
pub fn ask_of(alloc: Global, line: &[u8]) -> Result<Ask, LineError>
    ensures ok { IfOk result (λ ask. IsAsk line.now ask) }
    ensures only { IfOk result (λ ask. (other : Ask) → IsAsk line.now other → other ≡ ask) }
    ensures not_an_ask { IsErrOf result LineError.NotAnAsk → (ask : Ask) → ¬ IsAsk line.now ask }
{
    if line.len() > MOST_BYTES {
        return Err(LineError::NotAnAsk);
    }
    match read_line(alloc, line) {
        Ok(json) => ask_in(alloc, json.value),
        Err(TextError::NotJson) => Err(LineError::NotAnAsk),
        Err(TextError::NoMemory) => Err(LineError::NoMemory),
    }
}

fn ask_in(alloc: Global, value: Value) -> Result<Ask, LineError>
    ensures ok { IfOk result (λ ask. IsAskData ask (view value) × IsNamed ask) }
    ensures not_an_ask { IsErrOf result LineError.NotAnAsk
        → (ask : Ask) → IsNamed ask → ¬ IsAskData ask (view value) }
{
    match value.get("ask").and_then(Value::as_str) {
        Some("commit") => commit_in(alloc, value),
        Some("files") => partition_files_in(alloc, value),
        Some("partitions") => partitions_in(value),
        _ => Err(LineError::NotAnAsk),
    }
}

fn commit_in(alloc: Global, value: Value) -> Result<Ask, LineError>
    requires { get (codes "ask") (view value) ≡ Some (string (codes "commit")) }
    ensures ok { IfOk result (λ ask. IsAskData ask (view value) × IsNamed ask) }
    ensures not_an_ask { IsErrOf result LineError.NotAnAsk
        → (ask : Ask) → IsNamed ask → ¬ IsAskData ask (view value) }
{
    let Some((files, session)) = commit_parts(value) else {
        return Err(LineError::NotAnAsk);
    };
    let Value::Array(items) = files else {
        return Err(LineError::NotAnAsk);
    };
    let files = files_in(alloc, items)?;
    Ok(Ask {
        session,
        kind: AskKind::Commit { files },
    })
}

fn partition_files_in(alloc: Global, value: Value) -> Result<Ask, LineError>
    requires { get (codes "ask") (view value) ≡ Some (string (codes "files")) }
    ensures ok { IfOk result (λ ask. IsAskData ask (view value) × IsNamed ask) }
    ensures not_an_ask { IsErrOf result LineError.NotAnAsk
        → (ask : Ask) → IsNamed ask → ¬ IsAskData ask (view value) }
{
    let Some((at, partition, session)) = files_parts(value) else {
        return Err(LineError::NotAnAsk);
    };
    let partition = partition_in(alloc, &partition)?;
    Ok(Ask {
        session,
        kind: AskKind::LookUp {
            question: Question::Files { partition },
            at,
        },
    })
}

fn partitions_in(value: Value) -> Result<Ask, LineError>
    requires { get (codes "ask") (view value) ≡ Some (string (codes "partitions")) }
    ensures ok { IfOk result (λ ask. IsAskData ask (view value) × IsNamed ask) }
    ensures not_an_ask { IsErrOf result LineError.NotAnAsk
        → (ask : Ask) → IsNamed ask → ¬ IsAskData ask (view value) }
{
    let Some((at, session)) = partitions_parts(value) else {
        return Err(LineError::NotAnAsk);
    };
    Ok(Ask {
        session,
        kind: AskKind::LookUp {
            question: Question::Partitions,
            at,
        },
    })
}

fn files_in(alloc: Global, items: Vec<Value>) -> Result<Listed<FileRows>, LineError>
    ensures ok { IfOk result (λ files. (items_view items.items ≡ items_of (map file_data files)) × All IsFileRows files) }
    ensures not_an_ask { IsErrOf result LineError.NotAnAsk
        → (files : List FileRows) → All IsFileRows files → items_view items.items ≢ items_of (map file_data files) }
{
    let mut files = Listed::from_vec(Vec::with_capacity(alloc, items.len())?);
    for item in items {
        files.push(file_in(alloc, item)?)?;
    }
    Ok(files)
}

fn file_in(alloc: Global, value: Value) -> Result<FileRows, LineError>
    ensures ok { IfOk result (λ file. (view value ≡ file_data file) × IsFileRows file) }
    ensures not_an_ask { IsErrOf result LineError.NotAnAsk
        → (file : FileRows) → IsFileRows file → view value ≢ file_data file }
{
    let Some((file, partition, rows)) = three_members(value, "file", "partition", "rows") else {
        return Err(LineError::NotAnAsk);
    };
    let Some(file) = file_id_in(&file) else {
        return Err(LineError::NotAnAsk);
    };
    let partition = partition_in(alloc, &partition)?;
    let rows = rows_in(alloc, rows)?;
    Ok(FileRows {
        file,
        partition,
        rows,
    })
}
