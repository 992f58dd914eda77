// The slice of the files partition: the first base, and the logs of completed commits.
ghost use Rattle.std.specs.Prelude.{◌≡◌, ◌∷◌, [], IfOk, OnOk, unwrap_or};
ghost use Rattle.mx_base.specs.Objects.{object_path};
ghost use Rattle.mx_folder.specs.Named as named;
ghost use Rattle.mx_folder.specs.Named.{log_name, first_base as first_base_name};
ghost use Rattle.mx_folder.specs.Slices.{base_of, log_of};
ghost use Rattle.mx_store.specs.Calls.{Counts};
ghost use Rattle.mx_world.specs.State.{standing};
ghost use Rattle.mx_lookup.specs.Looking.{AreLogs, IsBase, ReadsAll, ReadsOn, log_paths};

use mx_base::{BaseKind, Entry, Instant, ObjectName, Part};
use mx_hfile::HFileError;
use mx_lists::Listed;
use mx_log::{LogError, read_log};
use mx_merge::Log;
use mx_store::{Named, Store, StoreError};
use mx_world::World;
use std::alloc::{AllocError, Global};

/// The entries of the first base.
pub(crate) fn base_read<S: Store, N: Named>(
    alloc: Global,
    table: &mut World<S, N>,
) -> Result<Listed<Entry>, StoreError>
    ensures entries { IfOk result (IsBase (S.journal table.old.store)) }
    ensures reads { OnOk result (ReadsAll (object_path first_base_name ∷ []) (S.reads table.old.store) (S.reads table.new.store)) }
    ensures reads_on { ReadsOn (S.reads table.old.store) (S.reads table.new.store) }
    ensures same { standing S.journal table.new ≡ standing S.journal table.old }
    ensures mirror { table.new.mirror ≡ table.old.mirror }
    ensures faults { Counts (S.faults table.old.store) (S.faults table.new.store) result }
{
    let path = first_base().path(alloc)?;
    let Some(bytes) = table.read_object(alloc, &path)? else {
        return Ok(Listed::new(alloc));
    };
    Ok(entries_of_base(alloc, bytes.as_slice())?)
}

/// The logs of the commits of these instants.
pub(crate) fn logs_read<S: Store, N: Named>(
    alloc: Global,
    table: &mut World<S, N>,
    instants: &[Instant],
) -> Result<Vec<Log>, StoreError>
    ensures logs { IfOk result (λ logs. AreLogs (S.journal table.old.store) instants.now logs.items) }
    ensures reads { OnOk result (ReadsAll (log_paths instants.now) (S.reads table.old.store) (S.reads table.new.store)) }
    ensures reads_on { ReadsOn (S.reads table.old.store) (S.reads table.new.store) }
    ensures same { standing S.journal table.new ≡ standing S.journal table.old }
    ensures mirror { table.new.mirror ≡ table.old.mirror }
    ensures faults { Counts (S.faults table.old.store) (S.faults table.new.store) result }
{
    let mut logs = Vec::new(alloc);
    for at in instants {
        logs.push(log_read(alloc, table, *at)?)?;
    }
    Ok(logs)
}

fn log_read<S: Store, N: Named>(
    alloc: Global,
    table: &mut World<S, N>,
    at: Instant,
) -> Result<Log, StoreError>
    ensures log { IfOk result (λ log. AreLogs (S.journal table.old.store) (at ∷ []) (log ∷ [])) }
    ensures reads { OnOk result (ReadsAll (object_path (log_name at) ∷ []) (S.reads table.old.store) (S.reads table.new.store)) }
    ensures reads_on { ReadsOn (S.reads table.old.store) (S.reads table.new.store) }
    ensures same { standing S.journal table.new ≡ standing S.journal table.old }
    ensures mirror { table.new.mirror ≡ table.old.mirror }
    ensures faults { Counts (S.faults table.old.store) (S.faults table.new.store) result }
{
    let path = files_log(at).path(alloc)?;
    let Some(bytes) = table.read_object(alloc, &path)? else {
        let entries = Listed::new(alloc);
        return Ok(Log { at, entries });
    };
    let entries = entries_of_log(alloc, at, bytes.as_slice())?;
    Ok(Log { at, entries })
}

// The entries that the bytes are as a base.
fn entries_of_base(alloc: Global, bytes: &[u8]) -> Result<Listed<Entry>, AllocError>
    ensures { IfOk result (λ entries. entries ≡ unwrap_or (base_of bytes.now) []) }
{
    match mx_hfile::read(alloc, bytes) {
        Ok(entries) => Ok(Listed::from_vec(entries)),
        Err(HFileError::NoMemory) => Err(AllocError),
        Err(HFileError::BadHFile { .. }) => Ok(Listed::new(alloc)),
    }
}

// The entries that the bytes are as a log of the instant.
fn entries_of_log(alloc: Global, at: Instant, bytes: &[u8]) -> Result<Listed<Entry>, AllocError>
    ensures { IfOk result (λ entries. entries ≡ unwrap_or (log_of at bytes.now) []) }
{
    match read_log(alloc, bytes) {
        Ok((found, entries)) => {
            if found != at {
                return Ok(Listed::new(alloc));
            }
            Ok(Listed::from_vec(entries))
        }
        Err(LogError::NoMemory) => Err(AllocError),
        Err(LogError::BadLog { .. }) => Ok(Listed::new(alloc)),
    }
}

fn files_log(at: Instant) -> ObjectName
    ensures { result ≡ named.log_name at }
{
    ObjectName::Log {
        part: Part::Files,
        shard: 0,
        at,
    }
}

fn first_base() -> ObjectName
    ensures { result ≡ named.first_base }
{
    ObjectName::Base {
        part: Part::Files,
        shard: 0,
        upto: start(),
        kind: BaseKind::Indexing,
    }
}

// The instant before the first commit.
fn start() -> Instant
    ensures { result ≡ 0 }
{
    match Instant::new(0) {
        Some(at) => at,
        None => unreachable!(),
    }
}
