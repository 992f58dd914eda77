ghost use Rattle.std.specs.Prelude.{◌≡◌, ◌+◌, ◌-◌, ◌<◌, ◌≤◌, length, take, drop, min, is_err, IfOk, Some};
ghost use Rattle.mx_store.specs.Calls.{CountsErrors, Rose};
ghost use Rattle.mx_store.specs.Memory.{next_call};
ghost use Rattle.mx_store.specs.Streams.{Takes, is_to_fail, stop_after};

use crate::streams::{Failed, Source};
use std::marker::Model;

/// A source over bytes in memory, whose reads stop at given places and fail by their numbers.
#[derive(Drop)]
pub struct BytesSource {
    bytes: Vec<u8>,
    at: usize,
    cuts: Vec<usize>,
    fails: Vec<u64>,
    calls: u64,
    faults: u64,
}

impl Model for BytesSource {
    ghost use Rattle.std.specs.Prelude.{◌≤◌, drop, length};
    ghost use Rattle.mx_store.specs.Streams.{SourceSeen};

    ghost Value = { SourceSeen };

    ghost view = { λ s. record { left = drop s.at s.bytes.items; at = s.at; cuts = s.cuts.items; fails = s.fails.items; calls = s.calls; faults = s.faults } };

    ghost invariant = { λ s. s.at ≤ length s.bytes.items };
}

impl BytesSource {
    /// A source of these bytes. No read goes past the least of the cuts above the place where it begins, and the calls
    /// whose numbers, counted from 0, stand in `fails` fail.
    pub fn over(bytes: Vec<u8>, cuts: Vec<usize>, fails: Vec<u64>) -> BytesSource
        ensures left { result.left ≡ bytes.items }
        ensures at { result.at ≡ 0 }
        ensures cuts { result.cuts ≡ cuts.items }
        ensures fails { result.fails ≡ fails.items }
        ensures calls { result.calls ≡ 0 }
        ensures faults { result.faults ≡ 0 }
    {
        BytesSource {
            bytes,
            at: 0,
            cuts,
            fails,
            calls: 0,
            faults: 0,
        }
    }

    // Counts a call, and tells whether it is to fail.
    fn begin(&mut self) -> bool
        ensures fails { result ≡ is_to_fail self.old.fails self.old.calls }
        ensures calls { self.new ≡ record self.old { calls = next_call self.old.calls } }
    {
        let call = self.calls;
        self.calls = call.saturating_add(1);
        self.fails.contains(&call)
    }

    fn failed(&mut self) -> Failed
        ensures faults { Rose self.old.faults self.new.faults }
        ensures same { self.new ≡ record self.old { faults = self.new.faults } }
    {
        self.faults = self.faults.saturating_add(1);
        Failed
    }

    // Where a read that begins here has to stop.
    fn stop(&self) -> usize
        ensures value { result ≡ stop_after self.now.cuts self.now.at (self.now.at + length self.now.left) }
        ensures low { self.now.at ≤ result }
        ensures high { result ≤ self.now.at + length self.now.left }
        ensures moves { 0 < length self.now.left → self.now.at < result }
    {
        let mut stop = self.bytes.len();
        for &cut in &self.cuts {
            if self.at < cut {
                stop = stop.min(cut);
            }
        }
        stop
    }

    // Takes what there is up to the stop.
    fn take_to(&mut self, stop: usize, buf: &mut [u8]) -> usize
        requires low { self.old.at ≤ stop }
        requires high { stop ≤ self.old.at + length self.old.left }
        ensures count { result ≡ min (stop - self.old.at) (length buf.old) }
        ensures taken { take result buf.new ≡ take result self.old.left }
        ensures size { length buf.new ≡ length buf.old }
        ensures rest { self.new ≡ record self.old { left = drop result self.old.left; at = self.old.at + result } }
    {
        let count = (stop - self.at).min(buf.len());
        buf[..count].copy_from_slice(&self.bytes[self.at..self.at + count]);
        self.at += count;
        count
    }
}

impl Source for BytesSource {
    ghost left = { λ s. Some s.left };

    ghost faults = { λ s. s.faults };

    fn read(&mut self, buf: &mut [u8]) -> Result<usize, Failed>
        ensures bound { IfOk result (λ n. n ≤ length buf.new) }
        ensures bytes { Takes (Some self.old.left) (Some self.new.left) buf.new result }
        ensures cause { CountsErrors self.old.faults self.new.faults result }
        ensures fate { is_err result ≡ is_to_fail self.old.fails self.old.calls }
        ensures count { IfOk result (λ n. n ≡ min (stop_after self.old.cuts self.old.at (self.old.at + length self.old.left) - self.old.at) (length buf.new)) }
        // the cuts and the calls that are to fail stay
        ensures calls { self.new ≡ record self.old { left = self.new.left; at = self.new.at; calls = next_call self.old.calls; faults = self.new.faults } }
        ensures place { self.new.at + length self.new.left ≡ self.old.at + length self.old.left }
    {
        if self.begin() {
            return Err(self.failed());
        }
        let stop = self.stop();
        Ok(self.take_to(stop, buf))
    }
}
