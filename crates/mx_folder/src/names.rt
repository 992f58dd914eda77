ghost use Rattle.std.specs.Prelude.{◌≡◌};
ghost use Rattle.mx_folder.specs.Named as named;

use mx_base::{ActionKind, ActionState, Instant, MetadataActionKind, ObjectName, Part};

/// The object of a commit in this state.
pub fn commit_name(at: Instant, state: ActionState) -> ObjectName
    ensures { result ≡ ObjectName.Timeline at ActionKind.Commit state }
{
    ObjectName::Timeline {
        at,
        kind: ActionKind::Commit,
        state,
    }
}

/// The object that names the logs of a commit, or the mark before them.
pub fn delta_name(at: Instant, completed: bool) -> ObjectName
    ensures { result ≡ ObjectName.Metadata at MetadataActionKind.DeltaCommit completed }
{
    ObjectName::Metadata {
        at,
        kind: MetadataActionKind::DeltaCommit,
        completed,
    }
}

/// The log of the files partition.
pub fn log_name(at: Instant) -> ObjectName
    ensures { result ≡ named.log_name at }
{
    ObjectName::Log {
        part: Part::Files,
        shard: 0,
        at,
    }
}
