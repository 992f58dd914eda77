ghost use Rattle.std.specs.Prelude.{◌≡◌, ◌≤◌, ◌<◌, ℕ, List, length, take, IfOk};
ghost use Rattle.std.specs.declared.option.Option.{Option};
ghost use Rattle.mx_store.specs.Calls.{CountsErrors};
ghost use Rattle.mx_store.specs.Streams.{Takes, Adds};

/// A read or a write that failed, and was counted.
#[derive(Clone, Copy, Debug, PartialEq, Eq)]
pub struct Failed;

/// Where bytes come from.
pub trait Source {
    /// The bytes that are left, where they are told.
    ghost left: { Self → Option (List ℕ) };

    /// How often it failed. It never falls.
    ghost faults: { Self → ℕ };

    /// Takes the next bytes into the buffer's front. A read of 0 into a buffer that isn't empty is the end.
    fn read(&mut self, buf: &mut [u8]) -> Result<usize, Failed>
        ensures bound { IfOk result (λ n. n ≤ length buf.new) }
        ensures bytes { Takes (left self.old) (left self.new) buf.new result }
        ensures cause { CountsErrors (faults self.old) (faults self.new) result };
}

/// Where bytes go.
pub trait Sink {
    /// The bytes written, where they are told.
    ghost written: { Self → Option (List ℕ) };

    /// How often it failed. It never falls.
    ghost faults: { Self → ℕ };

    /// Writes a front of the piece, and at least one byte of a piece that isn't empty.
    fn write(&mut self, piece: &[u8]) -> Result<usize, Failed>
        ensures bound { IfOk result (λ n. n ≤ length piece.now) }
        ensures bytes { Adds (written self.old) (written self.new) piece.now result }
        ensures cause { CountsErrors (faults self.old) (faults self.new) result };
}
