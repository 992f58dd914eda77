ghost use Rattle.std.specs.Prelude.{◌≡◌, All, ℕ, ◌<◌, ◌≤◌, ◌+◌, ◌^◌, max, List, Option, Some, None, IfOk, IfSome, OnOk, OnErr};
ghost use Rattle.mx_store.specs.Calls.{Counts, Finds, Reads, with_change};
ghost use Rattle.mx_store.specs.Journal.{Begins};
ghost use Rattle.mx_store.specs.declared.change.Change.TheVariants.{Create, Delete};
ghost use Rattle.mx_world.specs.Instants.{Requests, IsDrawnBy};
ghost use Rattle.mx_world.specs.Instants as instants;
ghost use Rattle.mx_world.specs.Mirror.{IsPlain};
ghost use Rattle.mx_world.specs.State as spec;
ghost use Rattle.mx_world.specs.State.{Declines, IsKept, StaysValid, Stands, Makes, MayMake, IsDone, Changes, CountsFaults, Settles, ReadsDoubt, standing, IsLastAfter};
ghost use Rattle.mx_world.specs.Turns.{ChangesInTurn, MayMakeInTurn};

use crate::asking::{Outcome, declined, is_done, last_after, make, path_of};
use crate::error::ChangeError;
use crate::mirror::Mirror;
use crate::turns::change_all;
use mx_base::{Instant, Path};
use mx_lists::Bytes;
use mx_store::{Change, Named, Store, StoreError};
use std::alloc::Global;
use std::collections::VecDeque;
use std::marker::{Model, PhantomData};

/// A store with its mirror, changed one object at a time.
#[derive(Drop)]
pub struct World<S: Store, N: Named> {
    store: S,
    mirror: Mirror,
    last: Instant,
    applied: u64,
    doubt: Option<Change>,
    of: PhantomData<N>,
}

impl<S: Store, N: Named> Model for World<S, N> {
    ghost use Rattle.mx_world.specs.State as spec;
    ghost use Rattle.mx_world.specs.State.{Declines, Shown, IsKept};
    ghost use Rattle.mx_groups.specs.contracts.groups.Groups as groups;
    ghost use Rattle.std.specs.Coded.{codes};

    ghost Value = { Shown S };

    ghost coded = { Prim.hlevel (codes, groups.the_row.coded) };

    ghost view = { λ w. record { store = w.store; mirror = w.mirror; last = w.last; applied = w.applied; doubt = w.doubt } };

    ghost invariant = { λ w. IsKept N.opening (S.journal w.store) w.mirror w.last w.applied w.doubt };
}

impl<S: Store, N: Named> World<S, N> {
    /// A store with the mirror of what it holds. No name in it has a greater instant than `last`, and `applied` changes were
    /// made since the opening.
    pub fn over(store: S, mirror: Mirror, last: Instant, applied: u64) -> World<S, N>
        requires kept { IsKept N.opening (S.journal store) mirror last applied None }
        ensures store { result.store ≡ store }
        ensures mirror { result.mirror ≡ mirror }
        ensures last { result.last ≡ last }
        ensures applied { result.applied ≡ applied }
        ensures doubt { result.doubt ≡ None }
    {
        World {
            store,
            mirror,
            last,
            applied,
            doubt: None,
            of: PhantomData,
        }
    }

    /// The store. Every prefix of its journal since the opening is a valid table, where the opening was one.
    pub fn into_store(self) -> S
        ensures store { result ≡ self.store }
        ensures begins { Begins N.opening (S.journal result) }
        ensures valid { StaysValid N.opening (S.journal result) }
    {
        let World {
            store,
            mirror: _,
            last: _,
            applied: _,
            doubt: _,
            of: _,
        } = self;
        store
    }

    /// What is known of the folder. Where a change is in doubt, it is what was known before that.
    pub fn mirror(&self) -> &Mirror
        ensures value { result.now ≡ self.now.mirror }
        ensures stands { Stands N.opening (S.journal self.now.store) self.now.mirror self.now.last self.now.applied self.now.doubt }
    {
        &self.mirror
    }

    /// The greatest instant that was drawn, or that a name had at the opening.
    pub fn last(&self) -> Instant
        ensures value { result ≡ self.now.last }
        ensures stands { Stands N.opening (S.journal self.now.store) self.now.mirror self.now.last self.now.applied self.now.doubt }
    {
        self.last
    }

    /// The number of changes that are known to be applied since the opening.
    pub fn seq(&self) -> u64
        ensures value { result ≡ self.now.applied }
        ensures stands { Stands N.opening (S.journal self.now.store) self.now.mirror self.now.last self.now.applied self.now.doubt }
    {
        self.applied
    }

    /// The bytes of an object, by one `get`.
    pub fn read_object(&mut self, alloc: Global, path: &Path) -> Result<Option<Bytes>, StoreError>
        ensures told { Finds path.now (S.journal self.old.store) result }
        ensures same { standing S.journal self.new ≡ standing S.journal self.old }
        ensures mirror { self.new.mirror ≡ self.old.mirror }
        ensures reads { Reads path.now (S.reads self.old.store) (S.reads self.new.store) result }
        ensures faults { Counts (S.faults self.old.store) (S.faults self.new.store) result }
    {
        self.store.get(alloc, path)
    }

    /// Makes one change, and reads nothing.
    ///
    /// The caller knows that it may be made: a create is of a path where nothing stands, a delete of one where something does, and a
    /// valid table stays one. Where the store fails, the change is in doubt, and no other is made before `settle`.
    pub fn change(&mut self, alloc: Global, change: Change) -> Result<(), ChangeError>
        requires plain { IsPlain change }
        requires may { MayMake (S.journal self.old.store) self.old.doubt self.old.last change }
        ensures changes { Changes change (standing S.journal self.old) (standing S.journal self.new) result }
        ensures reads { S.reads self.new.store ≡ S.reads self.old.store }
        ensures faults { CountsFaults (S.faults self.old.store) (S.faults self.new.store) result }
    {
        if let Some(doubt) = &self.doubt {
            let path = path_of(doubt).clone()?;
            return Err(ChangeError::InDoubt { path });
        }
        if self.applied == u64::MAX {
            return Err(ChangeError::NoMemory);
        }
        let last = last_after(self.last, &change);
        self.mirror.begin(alloc, &change)?;
        match make(alloc, &mut self.store, &change) {
            Outcome::Made => {
                self.mirror.complete(&change);
                self.last = last;
                self.applied += 1;
                Ok(())
            }
            Outcome::Declined => {
                self.mirror.complete(&change);
                self.last = last;
                declined(change)
            }
            Outcome::Failed => {
                self.mirror.give_up(&change);
                self.last = last;
                self.doubt = Some(change);
                Err(ChangeError::StoreFault)
            }
            Outcome::NoMemory => {
                self.mirror.give_up(&change);
                Err(ChangeError::NoMemory)
            }
        }
    }

    /// Makes the changes one after the other, up to the first one that is not made.
    ///
    /// The caller knows that each may be made on what the ones before it leave.
    pub fn change_in_turn(&mut self, alloc: Global, changes: Vec<Change>) -> Result<(), ChangeError>
        requires plain { All IsPlain changes.items }
        requires may { MayMakeInTurn (S.journal self.old.store) self.old.doubt self.old.last changes.items }
        ensures turns { ChangesInTurn changes.items (standing S.journal self.old) (standing S.journal self.new) result }
        ensures reads { S.reads self.new.store ≡ S.reads self.old.store }
        ensures faults { CountsFaults (S.faults self.old.store) (S.faults self.new.store) result }
    {
        change_all(alloc, self, VecDeque::from(changes))
    }

    /// Settles the doubt by one `get` of its path: the change counts as applied exactly where the object stands as it leaves it. Where
    /// none is in doubt, nothing is done.
    pub fn settle(&mut self, alloc: Global) -> Result<(), StoreError>
        ensures settles { Settles (standing S.journal self.old) (standing S.journal self.new) result }
        ensures reads { ReadsDoubt self.old.doubt (S.reads self.old.store) (S.reads self.new.store) result }
        ensures faults { Counts (S.faults self.old.store) (S.faults self.new.store) result }
    {
        let Some(change) = &self.doubt else {
            return Ok(());
        };
        if self.applied == u64::MAX {
            return Err(StoreError::NoMemory);
        }
        self.mirror.begin(alloc, change)?;
        match self.store.get(alloc, path_of(change)) {
            Ok(found) => {
                if is_done(change, &found) {
                    self.mirror.complete(change);
                    self.applied += 1;
                    self.doubt = None;
                    return Ok(());
                }
                self.mirror.give_up(change);
                self.doubt = None;
                Ok(())
            }
            Err(error) => {
                self.mirror.give_up(change);
                Err(error)
            }
        }
    }
}
