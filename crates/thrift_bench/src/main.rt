//! Reads the struct on standard input so many times, for `bench/thrift`.
//!
//! The words, and what it prints, are those of `bench_input`; a round makes as many bytes as the struct has.
#![tactic(auto)]

use bench_input::{Round, bad_input, run};
use mx_thrift::read_struct;
use std::alloc::Global;
use std::io;

struct Structs;

fn main(rt: HostRuntime) -> io::Result<()> {
    run::<Structs, _>(&rt)
}

impl Round for Structs {
    fn made(alloc: Global, bytes: &[u8], _again: bool) -> io::Result<u64> {
        let Ok((_, end)) = read_struct(alloc, bytes, 0) else {
            return Err(bad_input());
        };
        Ok(end as u64)
    }
}
