//! What the programs of `bench/` share: their words, the bytes on standard input, the rounds, and what they print of them.
//!
//! | item | contract |
//! |---|---|
//! | `Round` | none: what a program does with the bytes in one round |
//! | `run` | none: does the rounds, and prints how many there were and how many bytes they made |
//! | `number` | none: the number that a word is, 1 where it is none |
//! | `bad_input` | none: the error of a program whose input is not what it reads |
#![tactic(auto)]

use std::alloc::Global;
use std::env::Env;
use std::io::{Input, Print, Read};
use std::{env, io};

/// What a program does with the bytes on standard input in one round.
pub trait Round {
    /// How many bytes it made of them. They are only read, or written again too.
    fn made(alloc: Global, bytes: &[u8], again: bool) -> io::Result<u64>;
}

#[derive(Clone, Copy, PartialEq, Eq)]
enum Work {
    Copy,
    Read,
    Both,
}

/// Does the rounds that the words ask for, and prints them and the bytes that were made.
///
/// The words are the number of rounds and `copy`, where the bytes are copied and no more, `read`, or `both`.
pub fn run<P: Round, R: Env + AllocGlobal + Input + Print>(rt: &R) -> io::Result<()> {
    let alloc = rt.alloc();
    let mut words = env::args(rt)?.skip(1);
    let rounds = number(words.next());
    let work = match words.next() {
        Some(word) if word.as_str() == "copy" => Work::Copy,
        Some(word) if word.as_str() == "read" => Work::Read,
        _ => Work::Both,
    };
    let mut bytes = Vec::new(alloc);
    rt.reader().read_to_end(&mut bytes)?;
    let mut made = 0u64;
    for _ in 0..rounds {
        made = made.saturating_add(bytes_made::<P>(alloc, bytes.as_slice(), work)?);
    }
    println!(rt; "rounds {rounds} made {made}")
}

fn bytes_made<P: Round>(alloc: Global, bytes: &[u8], work: Work) -> io::Result<u64> {
    match work {
        Work::Copy => Ok(Vec::from_slice(alloc, bytes)?.len() as u64),
        Work::Read => P::made(alloc, bytes, false),
        Work::Both => P::made(alloc, bytes, true),
    }
}

/// The number that the word is, 1 where it is none.
pub fn number(word: Option<String>) -> u32 {
    match word {
        Some(word) => word.as_str().parse::<u32>().unwrap_or(1),
        None => 1,
    }
}

/// The error of a program whose input is not what it reads.
pub fn bad_input() -> io::Error {
    io::Error::from(io::ErrorKind::InvalidData)
}
