ghost use Rattle.std.specs.Prelude.{◌≡◌, All, IfOk, IfSome, OnOk, None};
ghost use Rattle.std.specs.Result.{IfErr};
ghost use Rattle.mx_base.specs.Paths.{group_name};
ghost use Rattle.mx_commit.specs.Made.{IsFileOf, new_files};
ghost use Rattle.mx_folder.specs.Files.{IsSchemaOf};
ghost use Rattle.mx_store.specs.Objects.{objects_of};
ghost use Rattle.mx_world.specs.State.{standing};
ghost use Rattle.mx_writer.specs.Commit.{AreEntries, Commits, CountsCommit, HasRoom, IsCommitBefore, IsEntryOf, MayBeCommitted, RefusesFiles, RefusesRoom, next_after};
ghost use Rattle.mx_writer.specs.declared.committing.CommitError.TheVariants as errors;
ghost use Rattle.mx_world.specs.declared.error.ChangeError.TheVariants as changes;

use crate::checking::{check_files, make_files};
use mx_ask::{FileRows, Limit};
use mx_base::{FileId, Instant, Partition, group_name};
use mx_commit::{NewFile, Written, plan_commit, written_file};
use mx_lists::{Listed, Text};
use mx_rows::BadRow;
use mx_schema::Schema;
use mx_store::{Named, Store};
use mx_world::{ChangeError, World};
use std::alloc::{AllocError, Global};

/// The most instants of the timeline.
const MOST_INSTANTS: u64 = 8192;

/// The most files that the table lists.
const MOST_LIVE: u64 = 8192;

/// Why files were not committed.
#[derive(Debug, Drop)]
pub enum CommitError {
    /// There are more of them than one commit takes, or there would be more instants or files than the table takes.
    TooMany { what: Limit, count: u64 },
    /// The first file that is of the group of one in front of it.
    DuplicateGroup { partition: Partition, file: FileId },
    /// The first place of the rows that is not what the schema asks for.
    BadRow { place: BadRow },
    /// The key of the first row that has that of an earlier row of its file.
    DuplicateRow { key: Text },
    /// The first file that is too large would have so many bytes.
    TooLarge { bytes: u64 },
    /// The last instant is the greatest one.
    InstantsUsedUp,
    /// A change was not made, and those behind it neither.
    Stopped { why: ChangeError },
}

impl From<AllocError> for CommitError {
    ghost from_gives = { λ _ e. e ≡ errors.Stopped changes.NoMemory };

    fn from(_: AllocError) -> Self {
        CommitError::Stopped {
            why: ChangeError::NoMemory,
        }
    }
}

impl From<ChangeError> for CommitError {
    ghost from_gives = { λ why e. e ≡ errors.Stopped why };

    fn from(why: ChangeError) -> Self {
        CommitError::Stopped { why }
    }
}

/// Commits the rows of files at the next instant. It reads no object.
pub fn commit<S: Store, N: Named>(
    alloc: Global,
    table: &mut World<S, N>,
    files: &[FileRows],
) -> Result<Instant, CommitError>
    requires sure { table.old.doubt ≡ None }
    ensures commits { Commits files.now (standing S.journal table.old) (standing S.journal table.new) result }
    ensures reads { S.reads table.new.store ≡ S.reads table.old.store }
    ensures faults { CountsCommit (S.faults table.old.store) (S.faults table.new.store) result }
{
    let made = files_made(alloc, table, files)?;
    let Some(at) = table.last().next() else {
        return Err(CommitError::InstantsUsedUp);
    };
    check_room(alloc, table, files)?;
    let entries = entries_of(alloc, table, made.as_slice(), at)?;
    let changes = plan_commit(alloc, at, made, entries.as_slice())?;
    table.change_in_turn(alloc, changes)?;
    Ok(at)
}

// The data files of the rows by the schema of the table, where they may be committed together.
fn files_made<S: Store, N: Named>(
    alloc: Global,
    table: &World<S, N>,
    files: &[FileRows],
) -> Result<Listed<NewFile>, CommitError>
    requires sure { table.now.doubt ≡ None }
    ensures of_table { IfSome (S.journal table.now.store) (λ j. IsSchemaOf (objects_of j) table.now.mirror.config.schema) }
    ensures may { OnOk result (MayBeCommitted table.now.mirror.config.schema table.now.last files.now) }
    ensures files { IfOk result (λ made. made ≡ new_files table.now.mirror.config.schema (next_after table.now.last) files.now) }
    ensures held { IfOk result (λ made. All (IsFileOf table.now.mirror.config.schema) made) }
    ensures err { IfErr result (RefusesFiles table.now.mirror.config.schema table.now.last files.now) }
{
    let schema = schema_of(table);
    check_files(alloc, schema, files)?;
    make_files(alloc, schema, table.last(), files)
}

// The schema of the table, which the config of the folder has.
fn schema_of<S: Store, N: Named>(table: &World<S, N>) -> &Schema
    requires sure { table.now.doubt ≡ None }
    ensures schema { result.now ≡ table.now.mirror.config.schema }
    ensures of_table { IfSome (S.journal table.now.store) (λ j. IsSchemaOf (objects_of j) table.now.mirror.config.schema) }
{
    // The call tells that the mirror is the folder's.
    let _last = table.last();
    table.mirror().config().schema()
}

// Whether the timeline has room for one instant more, and the table for the files.
fn check_room<S: Store, N: Named>(
    alloc: Global,
    table: &World<S, N>,
    files: &[FileRows],
) -> Result<(), CommitError>
    requires sure { table.now.doubt ≡ None }
    ensures ok { OnOk result (IfSome (S.journal table.now.store) (λ j. HasRoom (objects_of j) files.now)) }
    ensures err { IfErr result (RefusesRoom (S.journal table.now.store) files.now) }
{
    // The call tells that the mirror is the folder's.
    let _last = table.last();
    let instants = table.mirror().instants(alloc)?.saturating_add(1);
    if instants > MOST_INSTANTS {
        return Err(CommitError::TooMany {
            what: Limit::Instants,
            count: instants,
        });
    }
    let live = table.mirror().live().saturating_add(files.len() as u64);
    if live > MOST_LIVE {
        return Err(CommitError::TooMany {
            what: Limit::Live,
            count: live,
        });
    }
    Ok(())
}

// The entries of the files, each with the commit that wrote its group last.
fn entries_of<S: Store, N: Named>(
    alloc: Global,
    table: &World<S, N>,
    files: &[NewFile],
    at: Instant,
) -> Result<Vec<Written>, AllocError>
    requires sure { table.now.doubt ≡ None }
    ensures { IfOk result (λ entries. AreEntries (S.journal table.now.store) files.now at entries.items) }
{
    let mut entries = Vec::new(alloc);
    for file in files {
        entries.push(entry_of(alloc, table, file, at)?)?;
    }
    Ok(entries)
}

fn entry_of<S: Store, N: Named>(
    alloc: Global,
    table: &World<S, N>,
    file: &NewFile,
    at: Instant,
) -> Result<Written, AllocError>
    requires sure { table.now.doubt ≡ None }
    ensures { IfOk result (λ written. IsEntryOf (S.journal table.now.store) file.now at written) }
{
    let before = commit_before(alloc, table, file)?;
    written_file(alloc, file, at, before)
}

// The commit that wrote a file of the group last.
fn commit_before<S: Store, N: Named>(
    alloc: Global,
    table: &World<S, N>,
    file: &NewFile,
) -> Result<Option<Instant>, AllocError>
    requires sure { table.now.doubt ≡ None }
    ensures { IfOk result (λ previous. IfSome (S.journal table.now.store) (λ j. IsCommitBefore (objects_of j) (group_name file.now.partition file.now.file) previous)) }
{
    // The call tells that the mirror is the folder's.
    let _last = table.last();
    let group = group_name(alloc, &file.partition, &file.file)?;
    let newest = table.mirror().newest_of(&group);
    if newest.number() == 0 {
        return Ok(None);
    }
    Ok(Some(newest))
}
