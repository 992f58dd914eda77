//! `mdt`: the metadata table of a lakehouse table.
//!
//! `init <folder> <schema>` makes a new table, and `serve <folder>` answers the lines of standard input, one after the other, on
//! standard output. Until there is a store that outlives a run, `serve` begins with a new table in memory.
//!
//! | call | contract |
//! |---|---|
//! | `command` | a new table is made, or the table is opened and the answers are one history of the lines (`specs/Ends.antt`); every prefix of the journal is a valid table, where the opening was one |
//! | `main` | calls `command` over standard input and output; its exit status is that of the command |
#![tactic(auto)]

ghost use Rattle.std.specs.Prelude.{◌≡◌, ◌<◌, IfOk, Some, option_map, string_bytes};
ghost use Rattle.mdt.specs.Ends.{exit_code, message};

mod command;
#[cfg(test)]
mod fault_tests;
#[cfg(test)]
mod row_tests;
mod standard;
mod status;
#[cfg(test)]
mod tests;
#[cfg(test)]
mod word_tests;
mod words;

use crate::command::Ended;
use crate::status::{Status, init_status};
use jiff::Zoned;
use jiff::tz::TimeZone;
use mx_base::Instant;
use mx_clock::instant_of_civil;
use mx_open::{InitError, init};
use mx_schema::{Schema, SchemaError};
use mx_store::{MemStore, Named};
use std::alloc::{AllocError, Global};
use std::marker::Brand;
use std::process::ExitCode;
use std::{env, io};

fn main(rt: HostRuntime) -> ExitCode {
    let status = match words_of(&rt) {
        Ok(words) => run(&rt, words.as_slice()),
        Err(status) => status,
    };
    // A message that can't be written, or made for want of memory, changes no status.
    if let Ok(Some(message)) = message_of(rt.alloc(), &status) {
        let _ = eprintln!(rt; "mdt: {message}");
    }
    ExitCode::from(code_of(&status))
}

// The words behind the program's name. One that is no UTF-8 is the word of no command.
fn words_of(rt: &HostRuntime) -> Result<Vec<String>, Status> {
    let all = match env::args(rt) {
        Ok(all) => all,
        Err(error) if error.kind() == io::ErrorKind::OutOfMemory => return Err(Status::NoMemory),
        Err(_) => return Err(Status::Words),
    };
    let mut words = Vec::new(rt.alloc());
    for word in all.skip(1) {
        if words.push(word).is_err() {
            return Err(Status::NoMemory);
        }
    }
    Ok(words)
}

fn run(rt: &HostRuntime, words: &[String]) -> Status {
    match first_store(rt.alloc(), words) {
        Ok(store) => run_over::<Brand>(rt, words, opening_moment(rt), store),
        Err(error) => init_status(error),
    }
}

// A store in memory, with a new table unless the words ask for one.
fn first_store(alloc: Global, words: &[String]) -> Result<MemStore, InitError> {
    let mut store = MemStore::empty(alloc);
    if !asks_init(words) {
        let schema = first_schema(alloc)?;
        init(alloc, &mut store, &schema)?;
    }
    Ok(store)
}

fn asks_init(words: &[String]) -> bool {
    words.first().is_some_and(|word| word.as_str() == "init")
}

fn first_schema(alloc: Global) -> Result<Schema, AllocError> {
    match Schema::parse(alloc, "a:int64") {
        Ok(schema) => Ok(schema),
        Err(SchemaError::NoMemory | SchemaError::BadSchema { .. }) => Err(AllocError),
    }
}

// Carries out the command over standard input and output.
fn run_over<N: Named>(rt: &HostRuntime, words: &[String], now: Instant, store: MemStore) -> Status
    requires moment { now ≡ N.moment }
    requires some { 0 < now }
    requires count { N.count ≡ store.faults }
    requires opening { N.opening ≡ Some store.changes }
{
    let mut source = standard::Input::over(rt.stdin());
    let mut sink = standard::Output::over(rt.stdout());
    let Ended {
        status,
        store: _,
        answers: _,
    } = command::command::<MemStore, standard::Input, standard::Output, N>(
        rt.alloc(),
        words,
        now,
        store,
        &mut source,
        &mut sink,
    );
    status
}

// The clock's date and time in UTC, and the first instant where it can't be told.
fn opening_moment(rt: &HostRuntime) -> Instant
    ensures { 0 < result }
{
    let Ok(now) = Zoned::now(rt, TimeZone::UTC) else {
        return first_instant();
    };
    match instant_of_civil(now.datetime()) {
        Some(at) if at.number() > 0 => at,
        _ => first_instant(),
    }
}

fn first_instant() -> Instant
    ensures { result ≡ 1 }
{
    match Instant::new(1) {
        Some(at) => at,
        None => unreachable!(),
    }
}

/// The exit status: 6 where a table is not opened or made as it stands, and else a different one for each end.
fn code_of(status: &Status) -> u8
    ensures { result ≡ exit_code status.now }
{
    match status {
        Status::Done => 0,
        Status::NoMemory => 1,
        Status::Words => 2,
        Status::SourceFault => 3,
        Status::SinkFault => 4,
        Status::StoreFault => 5,
        Status::NotATable
        | Status::Damaged { .. }
        | Status::Version { .. }
        | Status::NotEmpty { .. } => 6,
        Status::TooLong => 8,
    }
}

/// The line on standard error, none where the command was carried out.
fn message_of(alloc: Global, status: &Status) -> Result<Option<String>, AllocError>
    ensures { IfOk result (λ text. option_map (λ line. string_bytes line) text ≡ message status.now) }
{
    let text = match status {
        Status::Done => return Ok(None),
        Status::NoMemory => String::from_str(alloc, "no memory")?,
        Status::Words => String::from_str(alloc, "words")?,
        Status::SourceFault => String::from_str(alloc, "source fault")?,
        Status::SinkFault => String::from_str(alloc, "sink fault")?,
        Status::StoreFault => String::from_str(alloc, "store fault")?,
        Status::NotATable => String::from_str(alloc, "not a table")?,
        Status::Damaged { path } => {
            let path = path.as_str();
            format!(in alloc; "damaged {path}")?
        }
        Status::Version { found } => format!(in alloc; "version {found}")?,
        Status::NotEmpty { path } => {
            let path = path.as_str();
            format!(in alloc; "not empty {path}")?
        }
        Status::TooLong => String::from_str(alloc, "too long")?,
    };
    Ok(Some(text))
}
