ghost use Rattle.std.specs.Prelude.{◌≡◌, ◌+◌, ◌-◌, ◌≤◌, ◌++◌, Bool, List, length, take, replicate, flat_map, IfOk, IfErr, OnOk};
ghost use Rattle.mx_levels.specs.Encoding.{bits, run_levels};
ghost use Rattle.mx_levels.specs.Decoding.{Decodes, ShowsUnlessMemory, HasCause, IsWithin, seen};

use crate::error::LevelError;
use crate::run::{Run, run_in};
use std::alloc::{AllocError, Global};

/// The levels that all of the bytes stand for, as many as are wanted.
pub fn read_levels(alloc: Global, bytes: &[u8], count: usize) -> Result<Vec<bool>, LevelError>
    ensures ok { IfOk result (λ levels. Decodes bytes.now count levels.items) }
    ensures only { (levels : List Bool) → Decodes bytes.now count levels → ShowsUnlessMemory (λ v. v.items) result levels }
    ensures bad { IfErr result (HasCause bytes.now count) }
{
    let mut levels = Vec::new(alloc);
    let mut rest = bytes;
    while levels.len() < count {
        let Some((run, behind)) = run_in(rest, count - levels.len()) else {
            return Err(bad_run(bytes, rest));
        };
        push_run(&mut levels, run, count)?;
        rest = behind;
    }
    if !rest.is_empty() {
        return Err(bad_run(bytes, rest));
    }
    Ok(levels)
}

fn bad_run(bytes: &[u8], rest: &[u8]) -> LevelError
    requires { length rest.now ≤ length bytes.now }
    ensures { result ≡ LevelError.BadRun (length bytes.now - length rest.now) }
{
    LevelError::BadRun {
        at: bytes.len() - rest.len(),
    }
}

/// Pushes the levels of a run, as long as fewer than so many are there.
fn push_run(levels: &mut Vec<bool>, run: Run<'_>, count: usize) -> Result<(), AllocError>
    requires room { length levels.old.items ≤ count }
    requires within { IsWithin (count - length levels.old.items) (seen run) }
    ensures { OnOk result (levels.new.items ≡ take count (levels.old.items ++ run_levels (seen run.entry))) }
{
    match run {
        Run::Repeated { count: more, level } => levels.resize(levels.len() + more, level),
        Run::Packed { groups } => push_groups(levels, groups, count),
    }
}

fn push_groups(levels: &mut Vec<bool>, groups: &[u8], count: usize) -> Result<(), AllocError>
    requires { length levels.old.items ≤ count }
    ensures { OnOk result (levels.new.items ≡ take count (levels.old.items ++ flat_map (bits 8) groups.now)) }
{
    for &group in groups {
        push_group(levels, group, count)?;
    }
    Ok(())
}

fn push_group(levels: &mut Vec<bool>, group: u8, count: usize) -> Result<(), AllocError>
    requires { length levels.old.items ≤ count }
    ensures { OnOk result (levels.new.items ≡ take count (levels.old.items ++ bits 8 group)) }
{
    let mut rest = group;
    for _ in 0..8_u8 {
        if levels.len() == count {
            return Ok(());
        }
        levels.push(rest % 2 == 1)?;
        rest /= 2;
    }
    Ok(())
}
