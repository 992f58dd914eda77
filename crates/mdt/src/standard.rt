ghost use Rattle.std.specs.Prelude.{◌≡◌, None};

use mx_store::{Failed, Sink, Source};
use std::io::{Read, Stdin, Stdout, Write};

/// Standard input. It tells nothing of its bytes.
#[derive(Drop)]
pub struct Input {
    reader: Stdin,
    faults: u64,
}

impl Input {
    /// No call has failed yet.
    pub fn over(reader: Stdin) -> Input
        ensures { result.faults ≡ 0 }
    {
        Input { reader, faults: 0 }
    }
}

impl Source for Input {
    ghost left = { λ i. None };

    ghost faults = { λ i. i.faults };

    fn read(&mut self, buf: &mut [u8]) -> Result<usize, Failed> {
        match self.reader.read(buf) {
            Ok(count) => Ok(count),
            Err(_) => {
                self.faults = self.faults.saturating_add(1);
                Err(Failed)
            }
        }
    }
}

/// Standard output. It tells nothing of what was written; a write that takes nothing counts as an error.
#[derive(Drop)]
pub struct Output {
    writer: Stdout,
    faults: u64,
}

impl Output {
    /// No call has failed yet.
    pub fn over(writer: Stdout) -> Output
        ensures { result.faults ≡ 0 }
    {
        Output { writer, faults: 0 }
    }
}

impl Sink for Output {
    ghost written = { λ o. None };

    ghost faults = { λ o. o.faults };

    fn write(&mut self, piece: &[u8]) -> Result<usize, Failed> {
        match self.writer.write(piece) {
            Ok(count) if count > 0 || piece.is_empty() => Ok(count),
            _ => {
                self.faults = self.faults.saturating_add(1);
                Err(Failed)
            }
        }
    }
}
