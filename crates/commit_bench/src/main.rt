//! Answers the commit on standard input so many times, over a table in memory, for `bench/commit_line`.
//!
//! The words are the number of rounds, what is done in each round, and a schema: `copy`, where the line is copied and no
//! more, `json`, where the kit's reader reads it as JSON, or `commit`, where it is read as an ask and committed to a table
//! of the schema. It prints the rounds and how many of them were as they should be.
#![tactic(auto)]

mod table;

use crate::table::committed;
use bench_input::{bad_input, number};
use mx_schema::Schema;
use serde_json::Value;
use std::alloc::Global;
use std::io::Read;
use std::{env, io};

/// What is done with the line in each round.
#[derive(Clone, Copy, PartialEq, Eq)]
enum Work {
    Copy,
    Json,
    Commit,
}

fn main(rt: HostRuntime) -> io::Result<()> {
    let alloc = rt.alloc();
    let mut words = env::args(&rt)?.skip(1);
    let rounds = number(words.next());
    let work = match words.next() {
        Some(word) if word.as_str() == "copy" => Work::Copy,
        Some(word) if word.as_str() == "json" => Work::Json,
        _ => Work::Commit,
    };
    let schema = schema_of(alloc, words.next())?;
    let line = input(alloc, &mut rt.stdin())?;
    let done = match work {
        Work::Copy => copied(alloc, line.as_slice(), rounds)?,
        Work::Json => parsed(alloc, line.as_slice(), rounds),
        Work::Commit => committed(alloc, &schema, line.as_slice(), rounds)?,
    };
    println!(rt; "rounds {rounds} done {done}")
}

fn schema_of(alloc: Global, word: Option<String>) -> io::Result<Schema> {
    let parsed = match &word {
        Some(word) => Schema::parse(alloc, word.as_str()),
        None => Schema::parse(alloc, "a:int64"),
    };
    match parsed {
        Ok(schema) => Ok(schema),
        Err(_) => Err(bad_input()),
    }
}

// The input without a newline at its end.
fn input<R: Read>(alloc: Global, reader: &mut R) -> io::Result<Vec<u8>> {
    let mut bytes = Vec::new(alloc);
    reader.read_to_end(&mut bytes)?;
    if bytes.last() == Some(&b'\n') {
        bytes.pop();
    }
    Ok(bytes)
}

fn copied(alloc: Global, line: &[u8], rounds: u32) -> io::Result<u32> {
    let mut done = 0u32;
    for _ in 0..rounds {
        if Vec::from_slice(alloc, line)?.len() == line.len() {
            done = done.saturating_add(1);
        }
    }
    Ok(done)
}

fn parsed(alloc: Global, line: &[u8], rounds: u32) -> u32 {
    let mut done = 0u32;
    for _ in 0..rounds {
        if Value::from_slice(alloc, line).is_ok() {
            done = done.saturating_add(1);
        }
    }
    done
}
