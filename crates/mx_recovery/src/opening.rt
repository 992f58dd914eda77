ghost use Rattle.std.specs.Prelude.{◌≡◌, ℕ, ◌<◌, ◌≤◌, ◌-◌, All, IfSome};
ghost use Rattle.mx_world.specs.State.{StaysValid};
ghost use Rattle.mx_store.specs.Objects.{objects_of};
ghost use Rattle.mx_open.specs.declared.error.ReadError.{ReadError};
ghost use Rattle.mx_recovery.specs.Planning as planning;
ghost use Rattle.mx_recovery.specs.Planning.{IsDeletion, IsPlanOf};
ghost use Rattle.mx_recovery.specs.Recovering.{CountsOpening, Opens, store_of};

use crate::error::OpenFailed;
use crate::plan::{Plan, read_plan};
use mx_base::Instant;
use mx_open::ReadError;
use mx_store::{Named, Store};
use mx_world::{ChangeError, World};
use std::alloc::Global;

/// Opens the table in a folder: it is read, and what pending commits left is deleted. The next instant that is drawn is `now` at
/// least, and above each one that a name had at the opening.
pub fn open_world<S: Store, N: Named>(
    alloc: Global,
    store: S,
    now: Instant,
) -> Result<World<S, N>, OpenFailed<S>>
    requires moment { now ≡ N.moment }
    requires meant { 0 < now }
    requires opening { N.opening ≡ S.journal store }
    ensures opens { Opens S.journal now (S.journal store) result }
    ensures valid { StaysValid N.opening (S.journal (store_of result)) }
    ensures faults { CountsOpening (S.faults store) (S.faults (store_of result)) result }
{
    let mut store = store;
    match read_plan(alloc, &mut store, now) {
        Ok(plan) => recover(alloc, store, plan, now),
        Err(why) => Err(OpenFailed { store, why }),
    }
}

fn recover<S: Store, N: Named>(
    alloc: Global,
    store: S,
    plan: Plan,
    now: Instant,
) -> Result<World<S, N>, OpenFailed<S>>
    requires opening { N.opening ≡ S.journal store }
    requires planned { IfSome (S.journal store) (λ journal. IsPlanOf now (objects_of journal) plan) }
    requires plain { All IsDeletion plan.changes }
    requires from { now - 1 ≤ plan.last }
    ensures recovers { Opens S.journal now (S.journal store) result }
    ensures valid { StaysValid N.opening (S.journal (store_of result)) }
    ensures faults { CountsOpening (S.faults store) (S.faults (store_of result)) result }
{
    let Plan {
        mirror,
        last,
        changes,
    } = plan;
    let mut world: World<S, N> = World::over(store, mirror, last, 0);
    match world.change_in_turn(alloc, changes.into_vec()) {
        Ok(()) => {
            let _last = world.last();
            Ok(world)
        }
        Err(error) => Err(OpenFailed {
            store: world.into_store(),
            why: why_of(error),
        }),
    }
}

// No delete is refused, and none is made while another is in doubt.
fn why_of(error: ChangeError) -> ReadError
    ensures { result ≡ planning.why_of error }
{
    match error {
        ChangeError::StoreFault => ReadError::StoreFault,
        _ => ReadError::NoMemory,
    }
}
