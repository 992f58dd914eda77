ghost use Rattle.std.specs.Prelude.{◌≡◌, ◌↔◌, ◌||◌, ℕ, Bool, true, false, IsTrue, IfOk, OnOk, Some, max};
ghost use Rattle.std.specs.List.{list_any};
ghost use Rattle.std.specs.BTreeSet.{contains};
ghost use Rattle.std.specs.Ordering.{nat_cmp};
ghost use Rattle.mx_timeline.specs.Stages as spec;
ghost use Rattle.mx_timeline.specs.Timeline.{IsLeast, IsGreatest};

use mx_base::{ActionKind, ActionState, Instant, ObjectName};
use std::alloc::{AllocError, Global};
use std::collections::BTreeSet;

/// The instants at which actions of one kind have an object, and those at which they are completed.
#[derive(Drop)]
pub struct Stages {
    begun: BTreeSet<Instant>,
    completed: BTreeSet<Instant>,
}

impl Stages {
    /// The stages of the actions of a kind that some objects are of.
    pub fn of(alloc: Global, objects: &[ObjectName], kind: ActionKind) -> Result<Stages, AllocError>
        ensures begun { IfOk result (λ s. (q : ℕ) → contains nat_cmp s.begun q ≡ list_any (spec.begins kind q) objects.now) }
        ensures completed { IfOk result (λ s. (q : ℕ) → contains nat_cmp s.completed q ≡ list_any (spec.completes kind q) objects.now) }
    {
        Ok(Stages {
            begun: begun_instants(alloc, objects, kind)?,
            completed: completed_instants(alloc, objects, kind)?,
        })
    }

    /// Whether the action at an instant is completed.
    pub fn is_completed(&self, at: Instant) -> bool
        ensures { result ≡ contains nat_cmp self.now.completed at }
    {
        self.completed.contains(&at)
    }

    /// The least instant at which an action is begun and not completed.
    pub fn least_pending(&self) -> Option<Instant>
        ensures { IsLeast (spec.Pends self.now) result }
    {
        let mut least = None;
        for at in self.begun.iter() {
            least = self.lesser_pending(least, *at);
        }
        least
    }

    /// The greatest completed instant that is at most at the bound, and 0 where there is none.
    pub fn greatest_upto(&self, bound: &Option<Instant>) -> Instant
        ensures { IsGreatest (λ at. IsTrue (contains nat_cmp self.now.completed at) × spec.IsUpto bound.now at) result }
    {
        let mut greatest = no_instant();
        for at in self.completed.iter() {
            greatest = greater_upto(bound, greatest, *at);
        }
        greatest
    }

    // The instant where it is not completed and below the least one so far, and else that one.
    fn lesser_pending(&self, least: Option<Instant>, at: Instant) -> Option<Instant>
        ensures completed { IsTrue (contains nat_cmp self.now.completed at) → result ≡ least }
        ensures pending { contains nat_cmp self.now.completed at ≡ false → result ≡ spec.lesser least (Some at) }
    {
        if self.completed.contains(&at) {
            return least;
        }
        lesser(least, Some(at))
    }
}

/// The lesser of two instants, of which each may be missing.
pub fn lesser(one: Option<Instant>, other: Option<Instant>) -> Option<Instant>
    ensures { result ≡ spec.lesser one other }
{
    match (one, other) {
        (Some(one), Some(other)) => Some(one.min(other)),
        (Some(one), None) => Some(one),
        (None, other) => other,
    }
}

fn begun_instants(
    alloc: Global,
    objects: &[ObjectName],
    kind: ActionKind,
) -> Result<BTreeSet<Instant>, AllocError>
    ensures { IfOk result (λ s. (q : ℕ) → contains nat_cmp s q ≡ list_any (spec.begins kind q) objects.now) }
{
    let mut instants = BTreeSet::new(alloc);
    for object in objects {
        note(&mut instants, begun_at(kind, object))?;
    }
    Ok(instants)
}

fn completed_instants(
    alloc: Global,
    objects: &[ObjectName],
    kind: ActionKind,
) -> Result<BTreeSet<Instant>, AllocError>
    ensures { IfOk result (λ s. (q : ℕ) → contains nat_cmp s q ≡ list_any (spec.completes kind q) objects.now) }
{
    let mut instants = BTreeSet::new(alloc);
    for object in objects {
        note(&mut instants, completed_at(kind, object))?;
    }
    Ok(instants)
}

// The set with one instant more, where there is one.
pub(crate) fn note(instants: &mut BTreeSet<Instant>, at: Option<Instant>) -> Result<(), AllocError>
    ensures { OnOk result ((q : ℕ) → contains nat_cmp instants.new q ≡ (contains nat_cmp instants.old q || spec.is_at q at)) }
{
    if let Some(at) = at {
        instants.insert(at)?;
    }
    Ok(())
}

// The instant of an action of this kind.
fn begun_at(kind: ActionKind, object: &ObjectName) -> Option<Instant>
    ensures { result ≡ spec.begun_at kind object.now }
{
    match *object {
        ObjectName::Timeline { at, kind: of, .. } if of == kind => Some(at),
        _ => None,
    }
}

// The instant of an action of this kind that is completed.
fn completed_at(kind: ActionKind, object: &ObjectName) -> Option<Instant>
    ensures { result ≡ spec.completed_at kind object.now }
{
    match *object {
        ObjectName::Timeline {
            at,
            kind: of,
            state: ActionState::Completed,
        } if of == kind => Some(at),
        _ => None,
    }
}

// The greater of the greatest one so far and an instant that is at most at the bound.
fn greater_upto(bound: &Option<Instant>, greatest: Instant, at: Instant) -> Instant
    ensures within { spec.IsUpto bound.now at → result ≡ max greatest at }
    ensures beyond { ¬ spec.IsUpto bound.now at → result ≡ greatest }
{
    match bound {
        Some(bound) if *bound < at => greatest,
        _ => greatest.max(at),
    }
}

fn no_instant() -> Instant
    ensures { result ≡ 0 }
{
    match Instant::new(0) {
        Some(at) => at,
        None => unreachable!(),
    }
}
