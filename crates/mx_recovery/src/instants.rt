ghost use Rattle.std.specs.Prelude.{◌≡◌, ◌-◌, ℕ, ◌<◌, Contains, IfOk, IfSome, OnOk, Some, max};
ghost use Rattle.mx_base.specs.DataFiles.{IsDataFileAt};
ghost use Rattle.mx_base.specs.Objects.{IsObjectName, object_path};
ghost use Rattle.mx_world.specs.Instants as spec;
ghost use Rattle.mx_world.specs.Instants.{NamesInstant};
ghost use Rattle.mx_recovery.specs.Planning.{IsGreatestOf, GoesOver};

use mx_base::{DataFile, Instant, ObjectName, Path};
use std::alloc::{AllocError, Global};

/// The instant before.
pub fn before(now: Instant) -> Instant
    requires { 0 < now }
    ensures { result ≡ now - 1 }
{
    match Instant::new(now.number() - 1) {
        Some(at) => at,
        None => unreachable!(),
    }
}

/// The greatest of the instant and those that the paths name.
pub fn greatest_of(alloc: Global, least: Instant, paths: &[Path]) -> Result<Instant, AllocError>
    ensures { IfOk result (IsGreatestOf least paths.now) }
{
    let mut greatest = least;
    for path in paths {
        greatest = later(greatest, instant_in(alloc, path)?);
    }
    Ok(greatest)
}

// The later of the instant and the other one, where there is one.
fn later(greatest: Instant, at: Option<Instant>) -> Instant
    ensures { GoesOver greatest at result }
{
    match at {
        Some(at) => greatest.max(at),
        None => greatest,
    }
}

// The instant that the path of an object or of a data file names.
fn instant_in(alloc: Global, path: &Path) -> Result<Option<Instant>, AllocError>
    ensures found { IfOk result (λ at. IfSome at (NamesInstant path.now)) }
    ensures only { (at : ℕ) → NamesInstant path.now at → IfOk result (λ found. found ≡ Some at) }
{
    match ObjectName::of(path) {
        Some(name) => Ok(instant_of(&name)),
        None => data_instant(alloc, path),
    }
}

fn instant_of(name: &ObjectName) -> Option<Instant>
    ensures { result ≡ spec.instant_of name.now }
{
    match *name {
        ObjectName::Config => None,
        ObjectName::Timeline { at, .. } => Some(at),
        ObjectName::Metadata { at, .. } => Some(at),
        ObjectName::Base { upto, .. } => Some(upto),
        ObjectName::Log { at, .. } => Some(at),
    }
}

fn data_instant(alloc: Global, path: &Path) -> Result<Option<Instant>, AllocError>
    ensures found { IfOk result (λ at. IfSome at (λ at. (file : DataFile) × IsDataFileAt path.now file × (file.at ≡ at))) }
    ensures only { (file : DataFile) → IsDataFileAt path.now file → IfOk result (λ found. found ≡ Some file.at) }
{
    match DataFile::of(alloc, path)? {
        Some(file) => Ok(Some(file.at)),
        None => Ok(None),
    }
}
