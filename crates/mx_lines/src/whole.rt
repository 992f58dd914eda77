ghost use Rattle.std.specs.Prelude.{◌≡◌, ℕ, take, OnOk, OnErr};
ghost use Rattle.mx_store.specs.Calls.{CountsErrors};
ghost use Rattle.mx_store.specs.Streams.{added};

use mx_store::{Failed, Sink};

/// Writes all the bytes, or a front of them.
pub fn write_all<O: Sink>(sink: &mut O, bytes: &[u8]) -> Result<(), Failed>
    ensures ok { OnOk result (O.written sink.new ≡ added (O.written sink.old) bytes.now) }
    ensures err { OnErr result ((n : ℕ) × (O.written sink.new ≡ added (O.written sink.old) (take n bytes.now))) }
    ensures cause { CountsErrors (O.faults sink.old) (O.faults sink.new) result }
{
    let mut rest = bytes;
    while !rest.is_empty() {
        let count = sink.write(rest)?;
        rest = &rest[count..];
    }
    Ok(())
}
