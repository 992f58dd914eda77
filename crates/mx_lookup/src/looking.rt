ghost use Rattle.std.specs.Prelude.{◌≡◌, IfOk, IfSome, None};
ghost use Rattle.mx_ask.specs.Asks.{IsNamedQuestion};
ghost use Rattle.mx_merge.specs.Merged.{AreRead, shown_on, slice_entries};
ghost use Rattle.mx_store.specs.Calls.{Counts};
ghost use Rattle.mx_store.specs.Objects.{Objects, objects_of};
ghost use Rattle.mx_world.specs.Mirror.{IsMirrorOf};
ghost use Rattle.mx_world.specs.State.{standing};
ghost use Rattle.mx_lookup.specs.Looking.{IsAnswer, IsLookedUp, IsPinned, ReadsOn, key_of};

use crate::slice::{base_read, logs_read};
use crate::told::reply_of;
use mx_ask::{Question, Reply};
use mx_base::{Entry, Instant};
use mx_files::ALL_PARTITIONS;
use mx_merge::{Log, MergeError, payload_on};
use mx_payload::Payload;
use mx_store::{Named, Store, StoreError};
use mx_world::{Mirror, World};
use std::alloc::{AllocError, Global};

/// The answer to a question at an instant, or at the newest completed commit where none is asked for. The first base is
/// read, and the logs of the completed commits up to the instant, each once, and no other object.
pub fn look_up<S: Store, N: Named>(
    alloc: Global,
    table: &mut World<S, N>,
    question: &Question,
    asked: Option<Instant>,
) -> Result<Reply, StoreError>
    requires sure { table.old.doubt ≡ None }
    ensures answer { IfOk result (λ reply. IfSome (S.journal table.old.store) (λ j. IsLookedUp (objects_of j) question.now asked reply (S.reads table.old.store) (S.reads table.new.store))) }
    ensures kind { IfOk result IsAnswer }
    ensures reads { ReadsOn (S.reads table.old.store) (S.reads table.new.store) }
    ensures same { standing S.journal table.new ≡ standing S.journal table.old }
    ensures mirror { table.new.mirror ≡ table.old.mirror }
    ensures faults { Counts (S.faults table.old.store) (S.faults table.new.store) result }
{
    let at = pinned(table.mirror(), asked);
    let instants = table.mirror().completed_upto(alloc, at)?;
    let base = base_read(alloc, table)?;
    let logs = logs_read(alloc, table, instants.as_slice())?;
    let found = shown(alloc, base.as_slice(), logs.as_slice(), key_of(question))?;
    Ok(reply_of(alloc, question, at, found)?)
}

fn pinned(mirror: &Mirror, asked: Option<Instant>) -> Instant
    ensures { (objects : Objects) → IsMirrorOf objects mirror.now → IsPinned objects asked result }
{
    match asked {
        Some(at) => at,
        None => mirror.newest(),
    }
}

// The key that a question is about.
fn key_of(question: &Question) -> &[u8]
    ensures key { result.now ≡ key_of question.now }
    ensures named { IsNamedQuestion question.now }
{
    match question {
        Question::Files { partition } => partition.as_str().as_bytes(),
        Question::Partitions => ALL_PARTITIONS.as_bytes(),
    }
}

// What the key shows. In a table that opens each value is a payload.
fn shown(
    alloc: Global,
    base: &[Entry],
    logs: &[Log],
    key: &[u8],
) -> Result<Option<Payload>, AllocError>
    ensures { AreRead key.now (slice_entries base.now logs.now) → IfOk result (λ found. found ≡ shown_on key.now (slice_entries base.now logs.now)) }
{
    match payload_on(alloc, base, logs, key) {
        Ok(found) => Ok(found),
        Err(MergeError::NoMemory) => Err(AllocError),
        Err(MergeError::BadPayload { .. }) => Ok(None),
    }
}
