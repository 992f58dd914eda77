//! Reads the file of entries on standard input so many times, and writes it once more each time, for `bench/hfile`.
//!
//! The words, and what it prints, are those of `bench_input`.
#![tactic(auto)]

use bench_input::{Round, bad_input, run};
use mx_hfile::{read, write};
use std::alloc::Global;
use std::io;

struct Entries;

fn main(rt: HostRuntime) -> io::Result<()> {
    run::<Entries, _>(&rt)
}

impl Round for Entries {
    fn made(alloc: Global, bytes: &[u8], again: bool) -> io::Result<u64> {
        let Ok(entries) = read(alloc, bytes) else {
            return Err(bad_input());
        };
        if !again {
            return Ok(0);
        }
        Ok(write(alloc, &entries)?.len() as u64)
    }
}
