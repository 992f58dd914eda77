ghost use Rattle.std.specs.Prelude.{◌≡◌, IfOk, OnOk, IfSome};
ghost use Rattle.mx_payload.specs.Rules.{IsWellFormed};
ghost use Rattle.mx_merge.specs.declared.run.Run.TheVariants as runs;
ghost use Rattle.mx_merge.specs.declared.known.Known.TheVariants.{Said};
ghost use Rattle.mx_merge.specs.Said.{heard, IsKept, IsKnown, Tells};

use crate::error::MergeError;
use crate::run::Run;
use mx_payload::{Payload, PayloadError, decode};
use std::alloc::{AllocError, Global};
use std::mem;

/// What the values say that were read on a key, or the place of the first broken rule in the first bad one.
#[derive(Drop)]
pub(crate) enum Known {
    Said(Run),
    Bad { at: usize },
}

impl Known {
    /// Nothing was read yet.
    pub(crate) fn new() -> Known
        ensures { result ≡ Said runs.Nothing }
    {
        Known::Said(Run::Nothing)
    }

    /// One more value is read.
    pub(crate) fn push(&mut self, alloc: Global, value: &[u8]) -> Result<(), AllocError>
        requires { IsKnown self.old }
        ensures known { OnOk result (self.new ≡ heard self.old value.now) }
        ensures kept { OnOk result (IsKnown self.new) }
    {
        let before = mem::replace(self, Known::new());
        *self = before.with_value(alloc, value)?;
        Ok(())
    }

    fn with_value(self, alloc: Global, value: &[u8]) -> Result<Known, AllocError>
        requires { IsKnown self }
        ensures known { IfOk result (λ after. after ≡ heard self value.now) }
        ensures kept { IfOk result IsKnown }
    {
        match self {
            Known::Said(run) => run_after(alloc, run, value),
            Known::Bad { at } => Ok(Known::Bad { at }),
        }
    }

    /// What is shown, or the bad value.
    pub(crate) fn shown(self, alloc: Global) -> Result<Option<Payload>, MergeError>
        requires { IsKnown self }
        ensures tells { Tells self result }
        ensures kept { IfOk result (λ found. IfSome found IsWellFormed) }
    {
        match self {
            Known::Said(run) => Ok(run.shown(alloc)?),
            Known::Bad { at } => Err(MergeError::BadPayload { at }),
        }
    }
}

fn run_after(alloc: Global, run: Run, value: &[u8]) -> Result<Known, AllocError>
    requires { IsKept run }
    ensures known { IfOk result (λ after. after ≡ heard (Said run) value.now) }
    ensures kept { IfOk result IsKnown }
{
    match decode(alloc, value) {
        Ok(payload) => Ok(Known::Said(run.with_payload(alloc, payload)?)),
        Err(PayloadError::BadPayload { at }) => Ok(Known::Bad { at }),
        Err(PayloadError::NoMemory) => Err(AllocError),
    }
}
