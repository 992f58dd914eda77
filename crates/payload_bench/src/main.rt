//! Decodes the payload on standard input so many times, and encodes it once more each time, for `bench/payload`.
//!
//! The words, and what it prints, are those of `bench_input`.
#![tactic(auto)]

use bench_input::{Round, bad_input, run};
use mx_payload::{decode, encode};
use std::alloc::Global;
use std::io;

struct Payloads;

fn main(rt: HostRuntime) -> io::Result<()> {
    run::<Payloads, _>(&rt)
}

impl Round for Payloads {
    fn made(alloc: Global, bytes: &[u8], again: bool) -> io::Result<u64> {
        let Ok(payload) = decode(alloc, bytes) else {
            return Err(bad_input());
        };
        if !again {
            return Ok(0);
        }
        Ok(encode(alloc, &payload)?.len() as u64)
    }
}
