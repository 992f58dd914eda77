ghost use Rattle.std.specs.Prelude.{◌≡◌, ◌+◌, ◌<◌, ◌^◌, IfOk, None};
ghost use Rattle.mx_lookup.specs.Looking.{ReadsOn};
ghost use Rattle.mx_world.specs.State.{Stands, standing};
ghost use Rattle.mx_hub.specs.Answers as spec;
ghost use Rattle.mx_hub.specs.Answers.{AnswersCommits, AnswersQuestion, AnswersSettled, CommitsFiles, CountsEnded, CountsReply, IsAnswered, IsRefusedFor, IsReplyTo, ReadsSlice, paths_at};

use crate::answered::Answered;
use mx_ask::{Ask, AskKind, FileRows, Question, Refusal, Reply};
use mx_base::{Instant, Path};
use mx_lists::Listed;
use mx_lookup::look_up;
use mx_store::{Named, Store, StoreError};
use mx_world::{ChangeError, World};
use mx_writer::{CommitError, commit};
use std::alloc::{AllocError, Global};

/// Answers an ask. Where a change is in doubt it is settled before, by one read of its path. A look-up reads its slice.
pub fn drive<S: Store, N: Named>(
    alloc: Global,
    table: &mut World<S, N>,
    number: u64,
    ask: &Ask,
) -> Answered
    ensures number { result.ask ≡ number }
    ensures answered { IsAnswered N.opening ask.now (standing S.journal table.old) (standing S.journal table.new) result }
    ensures reads { ReadsSlice N.opening (S.journal table.new.store) result.reply (S.reads table.old.store) (S.reads table.new.store) }
    ensures reads_on { ReadsOn (S.reads table.old.store) (S.reads table.new.store) }
    ensures faults { CountsReply (S.faults table.old.store) (S.faults table.new.store) result.reply }
{
    match table.settle(alloc) {
        Ok(()) => answer_settled(alloc, table, number, ask),
        Err(error) => refused(table, number, store_refusal(error)),
    }
}

/// An answer that changes nothing.
pub(crate) fn refused<S: Store, N: Named>(
    table: &World<S, N>,
    number: u64,
    refusal: Refusal,
) -> Answered
    ensures number { result.ask ≡ number }
    ensures refused { IsRefusedFor refusal (standing S.journal table.now) (standing S.journal table.now) result }
{
    let seq = table.seq();
    Answered {
        ask: number,
        begun: seq,
        seq,
        reply: Reply::Refused { refusal },
    }
}

fn answer_settled<S: Store, N: Named>(
    alloc: Global,
    table: &mut World<S, N>,
    number: u64,
    ask: &Ask,
) -> Answered
    requires sure { table.old.doubt ≡ None }
    ensures number { result.ask ≡ number }
    ensures begun { result.begun ≡ table.old.applied }
    ensures counted { spec.IsCounted N.opening (standing S.journal table.old) }
    ensures seq { result.seq ≡ table.new.applied }
    ensures reply { IsReplyTo N.opening ask.now (standing S.journal table.old) (standing S.journal table.new) result.reply }
    ensures reads { ReadsSlice N.opening (S.journal table.new.store) result.reply (S.reads table.old.store) (S.reads table.new.store) }
    ensures reads_on { ReadsOn (S.reads table.old.store) (S.reads table.new.store) }
    ensures faults { CountsReply (S.faults table.old.store) (S.faults table.new.store) result.reply }
{
    let begun = table.seq();
    let reply = reply_to(alloc, table, ask);
    let seq = table.seq();
    Answered {
        ask: number,
        begun,
        seq,
        reply,
    }
}

fn reply_to<S: Store, N: Named>(alloc: Global, table: &mut World<S, N>, ask: &Ask) -> Reply
    requires sure { table.old.doubt ≡ None }
    ensures reply { IsReplyTo N.opening ask.now (standing S.journal table.old) (standing S.journal table.new) result }
    ensures reads { ReadsSlice N.opening (S.journal table.new.store) result (S.reads table.old.store) (S.reads table.new.store) }
    ensures reads_on { ReadsOn (S.reads table.old.store) (S.reads table.new.store) }
    ensures faults { CountsReply (S.faults table.old.store) (S.faults table.new.store) result }
{
    match &ask.kind {
        AskKind::Commit { files } => commit_replied(alloc, table, files.as_slice()),
        AskKind::LookUp { question, at } => question_replied(alloc, table, question, *at),
    }
}

fn commit_replied<S: Store, N: Named>(
    alloc: Global,
    table: &mut World<S, N>,
    files: &[FileRows],
) -> Reply
    requires sure { table.old.doubt ≡ None }
    ensures reply { AnswersCommits files.now (standing S.journal table.old) (standing S.journal table.new) result }
    ensures reads { S.reads table.new.store ≡ S.reads table.old.store }
    ensures faults { CountsReply (S.faults table.old.store) (S.faults table.new.store) result }
{
    match commit_files(alloc, table, files) {
        Ok(reply) => reply,
        Err(error) => Reply::Refused {
            refusal: commit_refusal(error),
        },
    }
}

// Commits the files. Their paths are made ready before, since nothing may be wanted once the commit is complete.
fn commit_files<S: Store, N: Named>(
    alloc: Global,
    table: &mut World<S, N>,
    files: &[FileRows],
) -> Result<Reply, CommitError>
    requires sure { table.old.doubt ≡ None }
    ensures commits { CommitsFiles files.now (standing S.journal table.old) (standing S.journal table.new) result }
    ensures reads { S.reads table.new.store ≡ S.reads table.old.store }
    ensures faults { CountsEnded (S.faults table.old.store) (S.faults table.new.store) result }
{
    let paths = next_paths(alloc, table.last(), files)?;
    let at = commit(alloc, table, files)?;
    Ok(Reply::Committed { at, files: paths })
}

// The paths of the files at the next instant, none where there is no further instant.
fn next_paths(alloc: Global, last: Instant, files: &[FileRows]) -> Result<Listed<Path>, AllocError>
    ensures { IfOk result (λ paths. last + 1 < 10 ^ 17 → paths ≡ paths_at files.now (last + 1)) }
{
    match last.next() {
        Some(at) => paths_of(alloc, at, files),
        None => Ok(Listed::new(alloc)),
    }
}

fn paths_of(alloc: Global, at: Instant, files: &[FileRows]) -> Result<Listed<Path>, AllocError>
    ensures { IfOk result (λ paths. paths ≡ paths_at files.now at) }
{
    let mut paths = Listed::new(alloc);
    for file in files {
        paths.push(Path::of_data_file(alloc, &file.partition, &file.file, at)?)?;
    }
    Ok(paths)
}

fn question_replied<S: Store, N: Named>(
    alloc: Global,
    table: &mut World<S, N>,
    question: &Question,
    at: Option<Instant>,
) -> Reply
    requires sure { table.old.doubt ≡ None }
    ensures reply { AnswersQuestion N.opening question.now at (standing S.journal table.old) (standing S.journal table.new) result }
    ensures reads { ReadsSlice N.opening (S.journal table.new.store) result (S.reads table.old.store) (S.reads table.new.store) }
    ensures reads_on { ReadsOn (S.reads table.old.store) (S.reads table.new.store) }
    ensures faults { CountsReply (S.faults table.old.store) (S.faults table.new.store) result }
{
    // The call tells that the folder is a valid table.
    let _seq = table.seq();
    match look_up(alloc, table, question, at) {
        Ok(reply) => reply,
        Err(error) => Reply::Refused {
            refusal: store_refusal(error),
        },
    }
}

fn store_refusal(error: StoreError) -> Refusal
    ensures { result ≡ spec.store_refusal error }
{
    match error {
        StoreError::Failed => Refusal::StoreFault,
        StoreError::NoMemory => Refusal::NoMemory,
    }
}

fn commit_refusal(error: CommitError) -> Refusal
    ensures { result ≡ spec.commit_refusal error }
{
    match error {
        CommitError::TooMany { what, count } => Refusal::TooMany { what, count },
        CommitError::DuplicateGroup { partition, file } => {
            Refusal::DuplicateGroup { partition, file }
        }
        CommitError::BadRow { place } => Refusal::BadRow {
            file: place.file,
            row: place.row,
            column: place.column,
        },
        CommitError::DuplicateRow { key } => Refusal::DuplicateRow { key },
        CommitError::TooLarge { bytes } => Refusal::TooLarge { bytes },
        CommitError::InstantsUsedUp => Refusal::InstantsUsedUp,
        CommitError::Stopped { why } => change_refusal(why),
    }
}

fn change_refusal(why: ChangeError) -> Refusal
    ensures { result ≡ spec.change_refusal why }
{
    match why {
        ChangeError::StoreFault => Refusal::StoreFault,
        ChangeError::Changed { path } => Refusal::Changed { path },
        ChangeError::NoMemory | ChangeError::InDoubt { .. } => Refusal::NoMemory,
    }
}
