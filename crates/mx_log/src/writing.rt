ghost use Rattle.std.specs.Prelude.{◌≡◌, ◌≤◌, ◌++◌, length, IfOk, OnOk};
ghost use Rattle.mx_hfile.specs.Encoding.{AreEntries, encoding};
ghost use Rattle.mx_log.specs.Encoding.{header, log_encoding};

use crate::reading::LOG_MAGIC;
use mx_base::{Entry, Instant};
use std::alloc::{AllocError, Global};

/// The log of entries at an instant. One at the number 0, which is no instant, is written and does not read.
pub fn write_log(alloc: Global, at: Instant, entries: &[Entry]) -> Result<Vec<u8>, AllocError>
    requires entries { AreEntries entries.now }
    requires room { length (encoding entries.now) ≤ 268_435_456 }
    ensures { IfOk result (λ bytes. bytes.items ≡ log_encoding at entries.now) }
{
    let content = mx_hfile::write(alloc, entries)?;
    let mut out = Vec::with_capacity(alloc, 24 + content.len())?;
    put_header(&mut out, at, content.len() as u64)?;
    out.extend_from_slice(&content)?;
    Ok(out)
}

#[tactic(auto, unfolding(mx_hfile::specs::Encoding::number, crate::specs::Encoding::log_magic))]
fn put_header(out: &mut Vec<u8>, at: Instant, len: u64) -> Result<(), AllocError>
    ensures { OnOk result (out.new.items ≡ out.old.items ++ header at len) }
{
    put(out, &LOG_MAGIC)?;
    put(out, &1_u16.to_be_bytes())?;
    put(out, &at.number().to_be_bytes())?;
    put(out, &len.to_be_bytes())
}

fn put(out: &mut Vec<u8>, bytes: &[u8]) -> Result<(), AllocError>
    ensures { OnOk result (out.new.items ≡ out.old.items ++ bytes.now) }
{
    out.extend_from_slice(bytes)?;
    Ok(())
}
