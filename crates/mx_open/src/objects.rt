// Whether an object is of its kind, by its path and what the config says.
ghost use Rattle.std.specs.Prelude.{ℕ, IfOk};
ghost use Rattle.mx_base.specs.declared.object_name.ObjectName.TheVariants as names;
ghost use Rattle.mx_folder.specs.Folder.{IsObjectAt};
ghost use Rattle.mx_folder.specs.Reading.{IsAvailable, Reads, ReadsAsBase, ReadsAsLog};
ghost use Rattle.mx_store.specs.Objects.{Objects};
ghost use Rattle.mx_open.specs.Deciding.{Decides, IsContext, IsFine};

use crate::context::Context;
use crate::entries::{is_base, is_log};
use crate::held::Held;
use crate::kinds::{reads_as_commit, reads_as_delta, reads_as_first};
use mx_base::{
    ActionKind, ActionState, BaseKind, Instant, MetadataActionKind, ObjectName, Part, Path,
};
use std::alloc::{AllocError, Global};

/// Whether what stands at the path is an object of its kind.
pub(crate) fn is_fine(
    alloc: Global,
    held: &Held,
    context: &Context,
    path: &Path,
) -> Result<bool, AllocError>
    requires context { IsContext held.now context.now }
    ensures fine { IfOk result (λ fine. Decides fine (IsFine held.now path.now)) }
{
    match held.get(path) {
        Some(bytes) => is_object(alloc, context, path, bytes.as_slice()),
        None => Ok(true),
    }
}

fn is_object(
    alloc: Global,
    context: &Context,
    path: &Path,
    bytes: &[u8],
) -> Result<bool, AllocError>
    ensures { (objects : Objects) → IsContext objects context.now → IfOk result (λ is. Decides is (IsObjectAt objects path.now bytes.now)) }
{
    match ObjectName::of(path) {
        Some(name) => reads(alloc, context, name, bytes),
        None => Ok(false),
    }
}

// Whether the bytes are those of an object of this name.
fn reads(
    alloc: Global,
    context: &Context,
    name: ObjectName,
    bytes: &[u8],
) -> Result<bool, AllocError>
    ensures { (objects : Objects) → IsContext objects context.now → IfOk result (λ reads. Decides reads (Reads objects name bytes.now)) }
{
    match name {
        ObjectName::Config => context.reads_as_config(alloc, bytes),
        ObjectName::Timeline { at, kind, state } => {
            reads_as_timeline(alloc, at, kind, state, bytes)
        }
        ObjectName::Metadata {
            at,
            kind,
            completed,
        } => reads_as_metadata(alloc, at, kind, completed, bytes),
        ObjectName::Base {
            part,
            upto,
            kind,
            ..
        } => reads_as_base(alloc, context, part, upto, kind, bytes),
        ObjectName::Log { part, at, .. } => reads_as_log(alloc, context, part, at, bytes),
    }
}

fn reads_as_timeline(
    alloc: Global,
    at: Instant,
    kind: ActionKind,
    state: ActionState,
    bytes: &[u8],
) -> Result<bool, AllocError>
    ensures { (objects : Objects) → IfOk result (λ reads. Decides reads (Reads objects (names.Timeline at kind state) bytes.now)) }
{
    match kind {
        ActionKind::Commit => reads_as_commit(alloc, at, state, bytes),
        _ => Ok(false),
    }
}

fn reads_as_metadata(
    alloc: Global,
    at: Instant,
    kind: MetadataActionKind,
    completed: bool,
    bytes: &[u8],
) -> Result<bool, AllocError>
    ensures { (objects : Objects) → IfOk result (λ reads. Decides reads (Reads objects (names.Metadata at kind completed) bytes.now)) }
{
    match kind {
        MetadataActionKind::DeltaCommit => reads_as_delta(alloc, at, completed, bytes),
        MetadataActionKind::Indexing if at.number() == 0 => {
            reads_as_first(alloc, completed, bytes)
        }
        _ => Ok(false),
    }
}

fn reads_as_base(
    alloc: Global,
    context: &Context,
    part: Part,
    upto: Instant,
    kind: BaseKind,
    bytes: &[u8],
) -> Result<bool, AllocError>
    ensures { (objects : Objects) (shard : ℕ) → IsContext objects context.now → IfOk result (λ reads. Decides reads (Reads objects (names.Base part shard upto kind) bytes.now)) }
{
    match kind {
        BaseKind::Indexing if upto.number() == 0 => reads_as_first_base(
            alloc, context, part, bytes,
        ),
        _ => Ok(false),
    }
}

// A base of a part that can't be read is not looked at.
fn reads_as_first_base(
    alloc: Global,
    context: &Context,
    part: Part,
    bytes: &[u8],
) -> Result<bool, AllocError>
    ensures { (objects : Objects) → IsContext objects context.now → IfOk result (λ reads. Decides reads (IsAvailable objects part → ReadsAsBase bytes.now)) }
{
    if !context.is_available(part) {
        return Ok(true);
    }
    is_base(alloc, bytes)
}

fn reads_as_log(
    alloc: Global,
    context: &Context,
    part: Part,
    at: Instant,
    bytes: &[u8],
) -> Result<bool, AllocError>
    ensures { (objects : Objects) → IsContext objects context.now → IfOk result (λ reads. Decides reads (IsAvailable objects part → ReadsAsLog at bytes.now)) }
{
    if !context.is_available(part) {
        return Ok(true);
    }
    is_log(alloc, at, bytes)
}
