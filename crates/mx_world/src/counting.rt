ghost use Rattle.std.specs.Prelude.{◌≡◌, ℕ, IfOk, IfSome, OnOk, Some};
ghost use Rattle.mx_world.specs.Instants as instants;
ghost use Rattle.mx_world.specs.Instants.{CountsActionsOf, HasActionToo, HasActionsOf, IsOfAction};

use mx_base::{Instant, ObjectName, Path};
use std::alloc::{AllocError, Global};
use std::collections::BTreeSet;

/// How many instants have an action of which an object is among the names.
pub(crate) fn count_instants(alloc: Global, names: &BTreeSet<Path>) -> Result<u64, AllocError>
    ensures { IfOk result (λ count. CountsActionsOf names.now.keys count) }
{
    let instants = action_instants(alloc, names)?;
    Ok(instants.len() as u64)
}

fn action_instants(alloc: Global, names: &BTreeSet<Path>) -> Result<BTreeSet<Instant>, AllocError>
    ensures { IfOk result (λ instants. HasActionsOf names.now.keys instants) }
{
    let mut instants = BTreeSet::new(alloc);
    for path in names.iter() {
        add_instant(&mut instants, path)?;
    }
    Ok(instants)
}

fn add_instant(instants: &mut BTreeSet<Instant>, path: &Path) -> Result<(), AllocError>
    ensures { OnOk result (HasActionToo path.now instants.old instants.new) }
{
    if let Some(at) = action_instant(path) {
        instants.insert(at)?;
    }
    Ok(())
}

// The instant of the action of whose object it is the path.
fn action_instant(path: &Path) -> Option<Instant>
    ensures found { IfSome result (IsOfAction path.now) }
    ensures only { (at : ℕ) → IsOfAction path.now at → result ≡ Some at }
{
    let name = ObjectName::of(path)?;
    instant_of(&name)
}

fn instant_of(name: &ObjectName) -> Option<Instant>
    ensures { result ≡ instants.action_in name.now }
{
    match *name {
        ObjectName::Timeline { at, .. } => Some(at),
        _ => None,
    }
}
