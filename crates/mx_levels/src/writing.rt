ghost use Rattle.std.specs.Prelude.{◌≡◌, ◌++◌, ◌<◌, ◌≤◌, ◌^◌, length, IfOk, OnOk};
ghost use Rattle.std.specs.List.{prefix_len};
ghost use Rattle.std.specs.Bool.{beq};
ghost use Rattle.mx_levels.specs.Encoding.{Repeated, run_bytes, written};
ghost use Rattle.mx_levels.specs.Decoding.{Decodes};

use mx_avro::put_long;
use std::alloc::{AllocError, Global};

/// The bytes of the levels: runs of one level, each as long as can be.
pub fn write_levels(alloc: Global, levels: &[bool]) -> Result<Vec<u8>, AllocError>
    ensures bytes { IfOk result (λ out. out.items ≡ written levels.now) }
    ensures reads { IfOk result (λ out. Decodes out.items (length levels.now) levels.now) }
{
    let mut out = Vec::new(alloc);
    let mut rest = levels;
    while let Some(&level) = rest.first() {
        let count = leading(rest, level);
        put_run(&mut out, count, level)?;
        (_, rest) = rest.split_at(count);
    }
    Ok(out)
}

/// How many of the levels in front are this one.
fn leading(levels: &[bool], level: bool) -> usize
    ensures count { result ≡ prefix_len (beq level) levels.now }
    ensures within { result ≤ length levels.now }
{
    for (index, &other) in levels.iter().enumerate() {
        if other != level {
            return index;
        }
    }
    levels.len()
}

fn put_run(out: &mut Vec<u8>, count: usize, level: bool) -> Result<(), AllocError>
    requires { count < 2 ^ 63 }
    ensures { OnOk result (out.new.items ≡ out.old.items ++ run_bytes (Repeated count level)) }
{
    put_long(out, count as i64)?;
    out.push(u8::from(level))?;
    Ok(())
}
