// What a payload tells of a table.
ghost use Rattle.std.specs.Prelude.{◌≡◌, IfOk, map};
ghost use Rattle.mx_lookup.specs.Looking.{IsAnswer, file_size, names_told, sizes_told, told};

use mx_ask::{FileSize, Question, Reply};
use mx_base::Instant;
use mx_lists::{Listed, Text};
use mx_payload::{NameWord, Payload};
use std::alloc::{AllocError, Global};

/// The reply to a question whose key shows this.
pub(crate) fn reply_of(
    alloc: Global,
    question: &Question,
    at: Instant,
    found: Option<Payload>,
) -> Result<Reply, AllocError>
    ensures reply { IfOk result (λ reply. reply ≡ told question.now at found) }
    ensures kind { IfOk result IsAnswer }
{
    match question {
        Question::Files { .. } => Ok(Reply::Files {
            at,
            files: sizes_told(alloc, found)?,
        }),
        Question::Partitions => Ok(Reply::Partitions {
            at,
            partitions: names_told(alloc, found),
        }),
    }
}

fn sizes_told(alloc: Global, found: Option<Payload>) -> Result<Listed<FileSize>, AllocError>
    ensures { IfOk result (λ files. files ≡ sizes_told found) }
{
    match found {
        Some(Payload::Files(words)) => sizes_of(alloc, words.into_vec()),
        _other => Ok(Listed::new(alloc)),
    }
}

fn sizes_of(alloc: Global, words: Vec<NameWord>) -> Result<Listed<FileSize>, AllocError>
    ensures { IfOk result (λ files. files ≡ map file_size words.items) }
{
    let mut files = Listed::new(alloc);
    for word in words {
        files.push(FileSize {
            name: word.name,
            size: word.size,
        })?;
    }
    Ok(files)
}

fn names_told(alloc: Global, found: Option<Payload>) -> Listed<Text>
    ensures { result ≡ names_told found }
{
    match found {
        Some(Payload::Partitions(names)) => names,
        _other => Listed::new(alloc),
    }
}
