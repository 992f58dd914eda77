ghost use Rattle.std.specs.Prelude.{◌≡◌, ◌↔◌, ℕ, List, All, IsTrue, IfOk, IfErr, OnOk};
ghost use Rattle.std.specs.List.{list_any};
ghost use Rattle.std.specs.BTreeSet.{contains};
ghost use Rattle.std.specs.Ordering.{nat_cmp};
ghost use Rattle.mx_timeline.specs.Stages as spec;
ghost use Rattle.mx_timeline.specs.Timeline as timeline;
ghost use Rattle.mx_timeline.specs.Keeping.{IsTimelineOf, HasCause};

use crate::names::{TimelineError, object_names};
use crate::stages::{Stages, lesser, note};
use mx_base::{ActionKind, Instant, ObjectName, Path};
use std::alloc::{AllocError, Global};
use std::collections::BTreeSet;

/// Which actions of a table are completed, and which are pending.
#[derive(Drop)]
pub struct Timeline {
    commits: Stages,
    cleans: Stages,
    rollbacks: Stages,
    indexings: Stages,
    instants: BTreeSet<Instant>,
}

impl Timeline {
    /// The timeline that the names of a table's objects say, in any order.
    pub fn of(alloc: Global, names: &[Path]) -> Result<Timeline, TimelineError>
        ensures ok { IfOk result (IsTimelineOf names.now) }
        ensures names { OnOk result (All timeline.IsObjectPath names.now) }
        ensures err { IfErr result (HasCause names.now) }
    {
        let objects = object_names(alloc, names)?;
        let objects = objects.as_slice();
        Ok(Timeline {
            commits: Stages::of(alloc, objects, ActionKind::Commit)?,
            cleans: Stages::of(alloc, objects, ActionKind::Clean)?,
            rollbacks: Stages::of(alloc, objects, ActionKind::Rollback)?,
            indexings: Stages::of(alloc, objects, ActionKind::Indexing)?,
            instants: all_instants(alloc, objects)?,
        })
    }

    /// Whether a commit or a clean is completed at the instant.
    pub fn is_completed(&self, at: Instant) -> bool
        ensures { (names : List (List ℕ)) → IsTimelineOf names self.now → IsTrue result ↔ timeline.IsCompleted names at }
    {
        self.commits.is_completed(at) || self.cleans.is_completed(at)
    }

    /// The newest completed commit or clean, and 0 where there is none.
    pub fn newest(&self) -> Instant
        ensures { (names : List (List ℕ)) → IsTimelineOf names self.now → timeline.IsNewest names result }
    {
        self.greatest_upto(&None)
    }

    /// The newest completed commit or clean with no pending commit or clean below it, and 0 where there is none.
    pub fn frontier(&self) -> Instant
        ensures { (names : List (List ℕ)) → IsTimelineOf names self.now → timeline.IsFrontier names result }
    {
        let bound = lesser(self.commits.least_pending(), self.cleans.least_pending());
        self.greatest_upto(&bound)
    }

    /// The least instant at which an action of any kind is pending.
    pub fn least_pending(&self) -> Option<Instant>
        ensures { (names : List (List ℕ)) → IsTimelineOf names self.now → timeline.IsLeast (timeline.IsPending names) result }
    {
        let folded = lesser(self.commits.least_pending(), self.cleans.least_pending());
        let others = lesser(
            self.rollbacks.least_pending(),
            self.indexings.least_pending(),
        );
        lesser(folded, others)
    }

    /// At how many instants an action has an object.
    pub fn count(&self) -> u64
        ensures { (names : List (List ℕ)) → IsTimelineOf names self.now → timeline.IsInstantCount names result }
    {
        self.instants.len() as u64
    }

    // The greatest completed commit or clean that is at most at the bound.
    fn greatest_upto(&self, bound: &Option<Instant>) -> Instant
        ensures { (names : List (List ℕ)) → IsTimelineOf names self.now → timeline.IsGreatest (λ at. timeline.IsCompleted names at × spec.IsUpto bound.now at) result }
    {
        let commit = self.commits.greatest_upto(bound);
        commit.max(self.cleans.greatest_upto(bound))
    }
}

// The instants of all actions.
fn all_instants(alloc: Global, objects: &[ObjectName]) -> Result<BTreeSet<Instant>, AllocError>
    ensures { IfOk result (λ s. (q : ℕ) → contains nat_cmp s q ≡ list_any (spec.acts_at q) objects.now) }
{
    let mut instants = BTreeSet::new(alloc);
    for object in objects {
        note(&mut instants, instant_of(object))?;
    }
    Ok(instants)
}

fn instant_of(object: &ObjectName) -> Option<Instant>
    ensures { result ≡ spec.instant_of object.now }
{
    match *object {
        ObjectName::Timeline { at, .. } => Some(at),
        _ => None,
    }
}
