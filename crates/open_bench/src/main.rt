//! Makes a table of so many commits of one file in memory, and opens it so many times, for `bench/open`.
//!
//! The words are the number of commits, the number of rounds, and what is done in each round: `make`, nothing, `read`,
//! each object below `.hoodie/` is read once, or `open`, the table is opened. It prints the commits, the changes of the
//! store and the reads of all rounds.
#![tactic(auto)]

mod table;

use crate::table::{opened, table_of};
use bench_input::number;
use mx_store::{MemStore, Store};
use std::alloc::Global;
use std::{env, io};

/// What is done in each round.
#[derive(Clone, Copy, PartialEq, Eq)]
enum Work {
    Make,
    Read,
    Open,
}

fn main(rt: HostRuntime) -> io::Result<()> {
    let alloc = rt.alloc();
    let mut words = env::args(&rt)?.skip(1);
    let commits = number(words.next());
    let rounds = number(words.next());
    let work = match words.next() {
        Some(word) if word.as_str() == "make" => Work::Make,
        Some(word) if word.as_str() == "read" => Work::Read,
        _ => Work::Open,
    };
    let mut store = table_of(alloc, commits)?;
    let before = store.reads().len();
    for _ in 0..rounds {
        store = round(alloc, store, work)?;
    }
    let changes = store.journal().len();
    let reads = store.reads().len().saturating_sub(before);
    println!(rt; "commits {commits} changes {changes} reads {reads}")
}

fn round(alloc: Global, store: MemStore, work: Work) -> io::Result<MemStore> {
    match work {
        Work::Make => Ok(store),
        Work::Read => read_all(alloc, store),
        Work::Open => opened(alloc, store),
    }
}

// Reads each object below `.hoodie/` once.
fn read_all(alloc: Global, store: MemStore) -> io::Result<MemStore> {
    let mut store = store;
    let Ok(paths) = store.list(alloc, ".hoodie/") else {
        return Err(io::Error::from(io::ErrorKind::OutOfMemory));
    };
    for path in paths.as_slice() {
        if store.get(alloc, path).is_err() {
            return Err(io::Error::from(io::ErrorKind::OutOfMemory));
        }
    }
    Ok(store)
}
