ghost use Rattle.std.specs.Prelude.{◌≡◌, Bool, IfSome, Some};
ghost use Rattle.mx_base.specs.Objects as spec;
ghost use Rattle.mx_base.specs.declared.object_name.ActionKind as kinds;
ghost use Rattle.mx_base.specs.declared.object_name.ActionState as states;
ghost use Rattle.mx_base.specs.declared.object_name.MetadataActionKind as metadata_kinds;
ghost use Rattle.mx_base.specs.declared.object_name.BaseKind as base_kinds;

use crate::{ActionKind, ActionState, BaseKind, MetadataActionKind};

/// How the name of an object of the data timeline ends.
pub fn timeline_ending(kind: ActionKind, state: ActionState) -> &'static str
    ensures { result.now ≡ spec.timeline_ending kind state }
{
    match (kind, state) {
        (ActionKind::Commit, ActionState::Requested) => ".commit.requested",
        (ActionKind::Commit, ActionState::Inflight) => ".inflight",
        (ActionKind::Commit, ActionState::Completed) => ".commit",
        (ActionKind::Clean, ActionState::Requested) => ".clean.requested",
        (ActionKind::Clean, ActionState::Inflight) => ".clean.inflight",
        (ActionKind::Clean, ActionState::Completed) => ".clean",
        (ActionKind::Rollback, ActionState::Requested) => ".rollback.requested",
        (ActionKind::Rollback, ActionState::Inflight) => ".rollback.inflight",
        (ActionKind::Rollback, ActionState::Completed) => ".rollback",
        (ActionKind::Indexing, ActionState::Requested) => ".indexing.requested",
        (ActionKind::Indexing, ActionState::Inflight) => ".indexing.inflight",
        (ActionKind::Indexing, ActionState::Completed) => ".indexing",
    }
}

/// The kind and state that an ending of the data timeline tells.
pub fn timeline_kind(ending: &str) -> Option<(ActionKind, ActionState)>
    ensures found { IfSome result (λ read. ending.now ≡ spec.timeline_ending read.0 read.1) }
    ensures only { (kind : kinds.ActionKind) (state : states.ActionState) → ending.now ≡ spec.timeline_ending kind state → result ≡ Some (kind, state) }
{
    match ending {
        ".commit.requested" => Some((ActionKind::Commit, ActionState::Requested)),
        ".inflight" => Some((ActionKind::Commit, ActionState::Inflight)),
        ".commit" => Some((ActionKind::Commit, ActionState::Completed)),
        ".clean.requested" => Some((ActionKind::Clean, ActionState::Requested)),
        ".clean.inflight" => Some((ActionKind::Clean, ActionState::Inflight)),
        ".clean" => Some((ActionKind::Clean, ActionState::Completed)),
        ".rollback.requested" => Some((ActionKind::Rollback, ActionState::Requested)),
        ".rollback.inflight" => Some((ActionKind::Rollback, ActionState::Inflight)),
        ".rollback" => Some((ActionKind::Rollback, ActionState::Completed)),
        ".indexing.requested" => Some((ActionKind::Indexing, ActionState::Requested)),
        ".indexing.inflight" => Some((ActionKind::Indexing, ActionState::Inflight)),
        ".indexing" => Some((ActionKind::Indexing, ActionState::Completed)),
        _ => None,
    }
}

/// How the name of an object of the metadata timeline ends.
pub fn metadata_ending(kind: MetadataActionKind, completed: bool) -> &'static str
    ensures { result.now ≡ spec.metadata_ending kind completed }
{
    match (kind, completed) {
        (MetadataActionKind::DeltaCommit, false) => ".deltacommit.inflight",
        (MetadataActionKind::DeltaCommit, true) => ".deltacommit",
        (MetadataActionKind::Indexing, false) => "010.deltacommit.inflight",
        (MetadataActionKind::Indexing, true) => "010.deltacommit",
        (MetadataActionKind::Compaction, false) => "001.compaction.inflight",
        (MetadataActionKind::Compaction, true) => "001.commit",
        (MetadataActionKind::Clean, false) => "002.clean.inflight",
        (MetadataActionKind::Clean, true) => "002.clean",
    }
}

/// The kind that an ending of the metadata timeline tells, and whether the action is completed.
pub fn metadata_kind(ending: &str) -> Option<(MetadataActionKind, bool)>
    ensures found { IfSome result (λ read. ending.now ≡ spec.metadata_ending read.0 read.1) }
    ensures only { (kind : metadata_kinds.MetadataActionKind) (completed : Bool) → ending.now ≡ spec.metadata_ending kind completed → result ≡ Some (kind, completed) }
{
    match ending {
        ".deltacommit.inflight" => Some((MetadataActionKind::DeltaCommit, false)),
        ".deltacommit" => Some((MetadataActionKind::DeltaCommit, true)),
        "010.deltacommit.inflight" => Some((MetadataActionKind::Indexing, false)),
        "010.deltacommit" => Some((MetadataActionKind::Indexing, true)),
        "001.compaction.inflight" => Some((MetadataActionKind::Compaction, false)),
        "001.commit" => Some((MetadataActionKind::Compaction, true)),
        "002.clean.inflight" => Some((MetadataActionKind::Clean, false)),
        "002.clean" => Some((MetadataActionKind::Clean, true)),
        _ => None,
    }
}

/// How the name of a base ends.
pub fn base_ending(kind: BaseKind) -> &'static str
    ensures { result.now ≡ spec.base_ending kind }
{
    match kind {
        BaseKind::Compaction => "001.hfile",
        BaseKind::Indexing => "010.hfile",
    }
}

/// The kind that the ending of a base tells.
pub fn base_kind(ending: &str) -> Option<BaseKind>
    ensures found { IfSome result (λ kind. ending.now ≡ spec.base_ending kind) }
    ensures only { (kind : base_kinds.BaseKind) → ending.now ≡ spec.base_ending kind → result ≡ Some kind }
{
    match ending {
        "001.hfile" => Some(BaseKind::Compaction),
        "010.hfile" => Some(BaseKind::Indexing),
        _ => None,
    }
}
