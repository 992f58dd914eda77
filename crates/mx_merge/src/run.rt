ghost use Rattle.std.specs.Prelude.{◌≡◌, IfOk, IfSome};
ghost use Rattle.mx_payload.specs.Rules.{IsWellFormed};
ghost use Rattle.mx_merge.specs.Said.{partition_sizes, file_sizes, pushed, is_deleted, shown_run, IsKept};

use crate::sizes::{Sizes, with_names, with_words};
use mx_lists::Listed;
use mx_payload::Payload;
use std::alloc::{AllocError, Global};

/// What the payloads of one kind on a key say that stand behind the last change of kind.
#[derive(Drop)]
pub(crate) enum Run {
    Nothing,
    Partitions(Sizes),
    Files(Sizes),
    Last(Payload),
}

impl Run {
    /// The run after one more payload.
    pub(crate) fn with_payload(self, alloc: Global, payload: Payload) -> Result<Run, AllocError>
        ensures { IfOk result (λ run. run ≡ pushed self payload) }
    {
        match payload {
            Payload::Partitions(names) => {
                let sizes = with_names(self.partition_sizes(alloc), names.into_vec())?;
                Ok(Run::Partitions(sizes))
            }
            Payload::Files(words) => {
                let sizes = with_words(self.file_sizes(alloc), words.into_vec())?;
                Ok(Run::Files(sizes))
            }
            payload => Ok(Run::Last(payload)),
        }
    }

    fn partition_sizes(self, alloc: Global) -> Sizes
        ensures { result ≡ partition_sizes self }
    {
        match self {
            Run::Partitions(sizes) => sizes,
            Run::Nothing | Run::Files(_) | Run::Last(_) => Sizes::new(alloc),
        }
    }

    fn file_sizes(self, alloc: Global) -> Sizes
        ensures { result ≡ file_sizes self }
    {
        match self {
            Run::Files(sizes) => sizes,
            Run::Nothing | Run::Partitions(_) | Run::Last(_) => Sizes::new(alloc),
        }
    }

    /// What the run shows.
    pub(crate) fn shown(self, alloc: Global) -> Result<Option<Payload>, AllocError>
        requires { IsKept self }
        ensures shows { IfOk result (λ found. found ≡ shown_run self) }
        ensures kept { IfOk result (λ found. IfSome found IsWellFormed) }
    {
        match self {
            Run::Nothing => Ok(None),
            Run::Partitions(sizes) => {
                let names = sizes.into_names(alloc)?;
                Ok(Some(Payload::Partitions(Listed::from_vec(names))))
            }
            Run::Files(sizes) => {
                let words = sizes.into_words(alloc)?;
                Ok(Some(Payload::Files(Listed::from_vec(words))))
            }
            Run::Last(payload) if is_deleted(&payload) => Ok(None),
            Run::Last(payload) => Ok(Some(payload)),
        }
    }
}

fn is_deleted(payload: &Payload) -> bool
    ensures { result ≡ is_deleted payload.now }
{
    match payload {
        Payload::Partitions(_) | Payload::Files(_) => false,
        Payload::Stats { deleted, .. }
        | Payload::Bloom { deleted, .. }
        | Payload::Location { deleted, .. } => *deleted,
    }
}
