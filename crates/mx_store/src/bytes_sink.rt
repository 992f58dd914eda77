ghost use Rattle.std.specs.Prelude.{◌≡◌, ◌++◌, ◌≤◌, [], length, IsTrue, IsErr, IfOk, OnOk, OnErr, Some};
ghost use Rattle.mx_store.specs.Calls.{CountsErrors, Rose};
ghost use Rattle.mx_store.specs.Memory.{next_call};
ghost use Rattle.mx_store.specs.Streams.{Adds, is_to_fail};

use crate::streams::{Failed, Sink};
use std::alloc::{AllocError, Global};
use std::marker::Model;

/// A sink into memory, whose writes fail by their numbers.
#[derive(Drop)]
pub struct BytesSink {
    bytes: Vec<u8>,
    fails: Vec<u64>,
    calls: u64,
    faults: u64,
}

impl Model for BytesSink {
    ghost use Rattle.mx_store.specs.Streams.{SinkSeen};

    ghost Value = { SinkSeen };

    ghost view = { λ s. record { written = s.bytes.items; fails = s.fails.items; calls = s.calls; faults = s.faults } };
}

impl BytesSink {
    /// A sink to which nothing was written. The calls whose numbers, counted from 0, stand in `fails` fail.
    pub fn empty(alloc: Global, fails: Vec<u64>) -> BytesSink
        ensures written { result.written ≡ [] }
        ensures fails { result.fails ≡ fails.items }
        ensures calls { result.calls ≡ 0 }
        ensures faults { result.faults ≡ 0 }
    {
        BytesSink {
            bytes: Vec::new(alloc),
            fails,
            calls: 0,
            faults: 0,
        }
    }

    /// What was written.
    pub fn bytes(&self) -> &[u8]
        ensures { result.now ≡ self.now.written }
    {
        &self.bytes
    }

    // Counts a call, and tells whether it is to fail.
    fn begin(&mut self) -> bool
        ensures fails { result ≡ is_to_fail self.old.fails self.old.calls }
        ensures calls { self.new ≡ record self.old { calls = next_call self.old.calls } }
    {
        let call = self.calls;
        self.calls = call.saturating_add(1);
        self.fails.contains(&call)
    }

    fn failed(&mut self) -> Failed
        ensures faults { Rose self.old.faults self.new.faults }
        ensures same { self.new ≡ record self.old { faults = self.new.faults } }
    {
        self.faults = self.faults.saturating_add(1);
        Failed
    }

    fn add(&mut self, piece: &[u8]) -> Result<(), AllocError>
        ensures ok { OnOk result (self.new ≡ record self.old { written = self.old.written ++ piece.now }) }
        ensures err { OnErr result (self.new ≡ self.old) }
    {
        self.bytes.extend_from_slice(piece)?;
        Ok(())
    }
}

impl Sink for BytesSink {
    ghost written = { λ s. Some s.written };

    ghost faults = { λ s. s.faults };

    // Want of memory is a failure too, so the fate is said one way.
    fn write(&mut self, piece: &[u8]) -> Result<usize, Failed>
        ensures bound { IfOk result (λ n. n ≤ length piece.now) }
        ensures bytes { Adds (Some self.old.written) (Some self.new.written) piece.now result }
        ensures cause { CountsErrors self.old.faults self.new.faults result }
        ensures fate { IsTrue (is_to_fail self.old.fails self.old.calls) → IsErr result }
        ensures count { IfOk result (λ n. n ≡ length piece.now) }
        // the calls that are to fail stay
        ensures calls { self.new ≡ record self.old { written = self.new.written; calls = next_call self.old.calls; faults = self.new.faults } }
    {
        if self.begin() || self.add(piece).is_err() {
            return Err(self.failed());
        }
        Ok(piece.len())
    }
}
