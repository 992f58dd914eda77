ghost use Rattle.std.specs.Prelude.{◌≡◌, All};
ghost use Rattle.mx_world.specs.Mirror.{IsPlain};
ghost use Rattle.mx_world.specs.State.{CountsFaults, standing};
ghost use Rattle.mx_world.specs.Turns.{ChangesInTurn, MayMakeInTurn};

use crate::error::ChangeError;
use crate::world::World;
use mx_store::{Change, Named, Store};
use std::alloc::Global;
use std::collections::VecDeque;

/// Makes the changes one after the other, up to the first one that is not made.
pub(crate) fn change_all<S: Store, N: Named>(
    alloc: Global,
    world: &mut World<S, N>,
    changes: VecDeque<Change>,
) -> Result<(), ChangeError>
    requires plain { All IsPlain changes.items }
    requires may { MayMakeInTurn (S.journal world.old.store) world.old.doubt world.old.last changes.items }
    ensures turns { ChangesInTurn changes.items (standing S.journal world.old) (standing S.journal world.new) result }
    ensures reads { S.reads world.new.store ≡ S.reads world.old.store }
    ensures faults { CountsFaults (S.faults world.old.store) (S.faults world.new.store) result }
{
    let mut changes = changes;
    while let Some(change) = changes.pop_front() {
        world.change(alloc, change)?;
    }
    Ok(())
}
