ghost use Rattle.std.specs.Prelude.{◌≡◌, ◌<◌, ◌^◌, ◌++◌, ℕ, List, Bool, IfOk, IfSome, Some, codes};
ghost use Rattle.std.specs.Option.{SomeIff};
ghost use Rattle.mx_base.specs.Objects as spec;
ghost use Rattle.mx_base.specs.declared.part.Part as parts;
ghost use Rattle.mx_base.specs.declared.object_name.ActionKind as kinds;
ghost use Rattle.mx_base.specs.declared.object_name.ActionState as states;
ghost use Rattle.mx_base.specs.declared.object_name.MetadataActionKind as metadata_kinds;
ghost use Rattle.mx_base.specs.declared.object_name.BaseKind as base_kinds;
ghost use Rattle.mx_base.specs.declared.object_name.ObjectName as names;

use crate::ascii::ascii_text;
use crate::digits::four_digits;
use crate::endings::{
    base_ending, base_kind, metadata_ending, metadata_kind, timeline_ending, timeline_kind,
};
use crate::splits::{split_instant, split_part, split_shard};
use crate::{Instant, Part, Path};
use mx_lists::Text;
use std::alloc::{AllocError, Global};

/// What an action of the data timeline does.
#[derive(Clone, Copy, Debug, PartialEq, Eq, PartialOrd, Ord)]
pub enum ActionKind {
    Commit,
    Clean,
    Rollback,
    Indexing,
}

/// How far an action of the data timeline has come.
#[derive(Clone, Copy, Debug, PartialEq, Eq, PartialOrd, Ord)]
pub enum ActionState {
    Requested,
    Inflight,
    Completed,
}

/// What an action of the metadata timeline does.
#[derive(Clone, Copy, Debug, PartialEq, Eq, PartialOrd, Ord)]
pub enum MetadataActionKind {
    DeltaCommit,
    Indexing,
    Compaction,
    Clean,
}

/// What wrote a base.
#[derive(Clone, Copy, Debug, PartialEq, Eq, PartialOrd, Ord)]
pub enum BaseKind {
    Compaction,
    Indexing,
}

/// The name of an object below `.hoodie/`.
#[derive(Clone, Copy, Debug, PartialEq, Eq)]
pub enum ObjectName {
    Config,
    Timeline {
        at: Instant,
        kind: ActionKind,
        state: ActionState,
    },
    Metadata {
        at: Instant,
        kind: MetadataActionKind,
        completed: bool,
    },
    Base {
        part: Part,
        shard: u32,
        upto: Instant,
        kind: BaseKind,
    },
    Log {
        part: Part,
        shard: u32,
        at: Instant,
    },
}

impl ObjectName {
    /// The name whose path it is.
    pub fn of(path: &Path) -> Option<ObjectName>
        ensures found { IfSome result (λ name. spec.IsObjectName name × (path.now ≡ spec.object_path name)) }
        ensures only { (name : names.ObjectName) → spec.IsObjectName name → path.now ≡ spec.object_path name → result ≡ Some name }
    {
        let name = path.as_str().strip_prefix(".hoodie/")?;
        if name == "hoodie.properties" {
            return Some(ObjectName::Config);
        }
        let Some(name) = name.strip_prefix("metadata/") else {
            return timeline_object(name);
        };
        match name.strip_prefix(".hoodie/") {
            Some(name) => metadata_object(name),
            None => shard_object(name),
        }
    }

    /// Its path.
    pub fn path(&self, alloc: Global) -> Result<Path, AllocError>
        ensures { IfOk result (λ path. path ≡ spec.object_path self.now) }
    {
        match *self {
            ObjectName::Config => Path::of_config(alloc),
            ObjectName::Timeline { at, kind, state } => {
                Path::joined(alloc, ".hoodie/", at, timeline_ending(kind, state))
            }
            ObjectName::Metadata {
                at,
                kind,
                completed,
            } => Path::joined(
                alloc,
                ".hoodie/metadata/.hoodie/",
                at,
                metadata_ending(kind, completed),
            ),
            ObjectName::Base {
                part,
                shard,
                upto,
                kind,
            } => {
                let front = shard_front(alloc, part, shard)?;
                Path::joined(alloc, front.as_str(), upto, base_ending(kind))
            }
            ObjectName::Log { part, shard, at } => {
                let front = shard_front(alloc, part, shard)?;
                Path::joined(alloc, front.as_str(), at, ".log")
            }
        }
    }
}

/// A path is of one name at most.
pub fn path_has_one_name()
    ensures { (path : List ℕ) (one other : names.ObjectName) → spec.IsObjectName one → spec.IsObjectName other → path ≡ spec.object_path one → path ≡ spec.object_path other → one ≡ other }
{}

fn timeline_object(name: &str) -> Option<ObjectName>
    ensures found { IfSome result (λ object. spec.IsObjectName object × (codes ".hoodie/" ++ name.now ≡ spec.object_path object)) }
    ensures only { (at : ℕ) (kind : kinds.ActionKind) (state : states.ActionState) → spec.IsObjectName (ObjectName.Timeline at kind state) → codes ".hoodie/" ++ name.now ≡ spec.object_path (ObjectName.Timeline at kind state) → result ≡ Some (ObjectName.Timeline at kind state) }
{
    let (number, ending) = split_instant(name)?;
    let (kind, state) = timeline_kind(ending)?;
    timeline_name(number, kind, state)
}

fn timeline_name(number: u64, kind: ActionKind, state: ActionState) -> Option<ObjectName>
    requires { number < 10 ^ 17 }
    ensures { SomeIff result (spec.IsObjectName (ObjectName.Timeline number kind state)) (ObjectName.Timeline number kind state) }
{
    if number == 0 {
        return None;
    }
    let at = Instant::of_number(number);
    Some(ObjectName::Timeline { at, kind, state })
}

fn metadata_object(name: &str) -> Option<ObjectName>
    ensures found { IfSome result (λ object. spec.IsObjectName object × (codes ".hoodie/metadata/.hoodie/" ++ name.now ≡ spec.object_path object)) }
    ensures only { (at : ℕ) (kind : metadata_kinds.MetadataActionKind) (completed : Bool) → spec.IsObjectName (ObjectName.Metadata at kind completed) → codes ".hoodie/metadata/.hoodie/" ++ name.now ≡ spec.object_path (ObjectName.Metadata at kind completed) → result ≡ Some (ObjectName.Metadata at kind completed) }
{
    let (number, ending) = split_instant(name)?;
    let (kind, completed) = metadata_kind(ending)?;
    metadata_name(number, kind, completed)
}

fn metadata_name(number: u64, kind: MetadataActionKind, completed: bool) -> Option<ObjectName>
    requires { number < 10 ^ 17 }
    ensures { SomeIff result (spec.IsObjectName (ObjectName.Metadata number kind completed)) (ObjectName.Metadata number kind completed) }
{
    if number == 0 && is_delta_commit(kind) {
        return None;
    }
    let at = Instant::of_number(number);
    Some(ObjectName::Metadata {
        at,
        kind,
        completed,
    })
}

fn is_delta_commit(kind: MetadataActionKind) -> bool
    ensures { result ≡ spec.is_delta_commit kind }
{
    matches!(kind, MetadataActionKind::DeltaCommit)
}

fn shard_object(name: &str) -> Option<ObjectName>
    ensures found { IfSome result (λ object. spec.IsObjectName object × (codes ".hoodie/metadata/" ++ name.now ≡ spec.object_path object)) }
    ensures base { (part : parts.Part) (shard upto : ℕ) (kind : base_kinds.BaseKind) → spec.IsObjectName (ObjectName.Base part shard upto kind) → codes ".hoodie/metadata/" ++ name.now ≡ spec.object_path (ObjectName.Base part shard upto kind) → result ≡ Some (ObjectName.Base part shard upto kind) }
    ensures log { (part : parts.Part) (shard at : ℕ) → spec.IsObjectName (ObjectName.Log part shard at) → codes ".hoodie/metadata/" ++ name.now ≡ spec.object_path (ObjectName.Log part shard at) → result ≡ Some (ObjectName.Log part shard at) }
{
    let (part, name) = split_part(name)?;
    let (shard, name) = split_shard(name)?;
    let (number, ending) = split_instant(name)?;
    if ending == ".log" {
        return log_name(part, shard, number);
    }
    let kind = base_kind(ending)?;
    Some(ObjectName::Base {
        part,
        shard,
        upto: Instant::of_number(number),
        kind,
    })
}

fn log_name(part: Part, shard: u32, number: u64) -> Option<ObjectName>
    requires shard { shard < 10000 }
    requires instant { number < 10 ^ 17 }
    ensures { SomeIff result (spec.IsObjectName (ObjectName.Log part shard number)) (ObjectName.Log part shard number) }
{
    if number == 0 {
        return None;
    }
    let at = Instant::of_number(number);
    Some(ObjectName::Log { part, shard, at })
}

fn shard_front(alloc: Global, part: Part, shard: u32) -> Result<Text, AllocError>
    ensures { IfOk result (λ front. front ≡ spec.shard_front part shard) }
{
    let part = part.name();
    let digits = four_digits(shard);
    let digits = ascii_text(&digits);
    Ok(Text::from_string(format!(in alloc; ".hoodie/metadata/{part}/{part}-{digits}_")?))
}
