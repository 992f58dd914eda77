// The least path at which a folder is damaged.
ghost use Rattle.std.specs.Prelude.{◌≡◌, ℕ, List, All, Contains, IfOk, IsSome, Some, Option};
ghost use Rattle.mx_meta.specs.ShardFiles.{delta_meta_of};
ghost use Rattle.mx_store.specs.Objects.{at_path};
ghost use Rattle.mx_open.specs.Deciding as spec;
ghost use Rattle.mx_open.specs.Deciding.{IsContext, IsFine, IsLeastOther, IsReadableLog, IsReadableBase, MeetsCommit, MeetsObject, IsUnharmed};

use crate::context::Context;
use crate::held::Held;
use crate::objects::is_fine;
use mx_base::{Instant, Path};
use mx_folder::delta_name;
use mx_meta::{DeltaMeta, MetaError};
use std::alloc::{AllocError, Global};

/// The least path at which an object is not of its kind, or what is needed is missing.
pub(crate) fn least_damaged(
    alloc: Global,
    held: &Held,
    context: &Context,
) -> Result<Option<Path>, AllocError>
    requires context { IsContext held.now context.now }
    ensures least { IfOk result (IsLeastOther (IsUnharmed held.now)) }
{
    let paths = held.paths(alloc)?;
    let object = object_damaged(alloc, held, context, paths.as_slice())?;
    let base = base_missing(held, context, context.bases.as_slice())?;
    Ok(lesser(object, base))
}

fn object_damaged(
    alloc: Global,
    held: &Held,
    context: &Context,
    paths: &[Path],
) -> Result<Option<Path>, AllocError>
    requires context { IsContext held.now context.now }
    ensures least { IfOk result (IsLeastOther (λ q. All (λ (path : List ℕ). MeetsObject held.now context.now path q) paths.now)) }
{
    let mut least = None;
    for path in paths {
        least = lesser(least, damaged_by(alloc, held, context, path)?);
    }
    Ok(least)
}

// The object at the path, or what it needs.
fn damaged_by(
    alloc: Global,
    held: &Held,
    context: &Context,
    path: &Path,
) -> Result<Option<Path>, AllocError>
    requires context { IsContext held.now context.now }
    ensures least { IfOk result (IsLeastOther (MeetsObject held.now context.now path.now)) }
{
    let own = damaged_at(alloc, held, context, path)?;
    match path.commit_instant() {
        Some(at) => Ok(lesser(own, commit_missing(alloc, held, context, at)?)),
        None => Ok(own),
    }
}

fn damaged_at(
    alloc: Global,
    held: &Held,
    context: &Context,
    path: &Path,
) -> Result<Option<Path>, AllocError>
    requires context { IsContext held.now context.now }
    ensures least { IfOk result (IsLeastOther (λ q. q ≡ path.now → IsFine held.now q)) }
{
    if is_fine(alloc, held, context, path)? {
        return Ok(None);
    }
    Ok(Some(path.clone()?))
}

fn commit_missing(
    alloc: Global,
    held: &Held,
    context: &Context,
    at: Instant,
) -> Result<Option<Path>, AllocError>
    ensures { IfOk result (IsLeastOther (MeetsCommit held.now context.now at)) }
{
    let delta = delta_name(at, true).path(alloc)?;
    match held.get(&delta) {
        Some(bytes) => log_missing(alloc, held, context, at, bytes.as_slice()),
        None => Ok(Some(delta)),
    }
}

// A log that the object of a commit's logs names.
fn log_missing(
    alloc: Global,
    held: &Held,
    context: &Context,
    at: Instant,
    bytes: &[u8],
) -> Result<Option<Path>, AllocError>
    ensures { IfOk result (IsLeastOther (λ q. (logs : List (List ℕ)) → delta_meta_of bytes.now ≡ Some logs → Contains logs q → IsReadableLog context.now at q → IsSome (at_path held.now q))) }
{
    match DeltaMeta::read(alloc, bytes) {
        Ok(meta) => missing_among(held, context, at, meta.logs()),
        Err(MetaError::BadMeta { .. }) => Ok(None),
        Err(MetaError::NoMemory) => Err(AllocError),
    }
}

fn missing_among(
    held: &Held,
    context: &Context,
    at: Instant,
    logs: &[Path],
) -> Result<Option<Path>, AllocError>
    ensures { IfOk result (IsLeastOther (λ q. All (λ (log : List ℕ). q ≡ log → IsReadableLog context.now at q → IsSome (at_path held.now q)) logs.now)) }
{
    let mut least = None;
    for log in logs {
        least = lesser(least, missing_log(held, context, at, log)?);
    }
    Ok(least)
}

fn missing_log(
    held: &Held,
    context: &Context,
    at: Instant,
    log: &Path,
) -> Result<Option<Path>, AllocError>
    ensures { IfOk result (IsLeastOther (λ q. q ≡ log.now → IsReadableLog context.now at q → IsSome (at_path held.now q))) }
{
    if context.is_readable_log(log, at) {
        missing(held, log)
    } else {
        Ok(None)
    }
}

fn base_missing(held: &Held, context: &Context, bases: &[Path]) -> Result<Option<Path>, AllocError>
    ensures { IfOk result (IsLeastOther (λ q. All (λ (base : List ℕ). q ≡ base → IsReadableBase context.now q → IsSome (at_path held.now q)) bases.now)) }
{
    let mut least = None;
    for base in bases {
        least = lesser(least, missing_base(held, context, base)?);
    }
    Ok(least)
}

fn missing_base(held: &Held, context: &Context, base: &Path) -> Result<Option<Path>, AllocError>
    ensures { IfOk result (IsLeastOther (λ q. q ≡ base.now → IsReadableBase context.now q → IsSome (at_path held.now q))) }
{
    if context.is_readable_base(base) {
        missing(held, base)
    } else {
        Ok(None)
    }
}

fn missing(held: &Held, path: &Path) -> Result<Option<Path>, AllocError>
    ensures { IfOk result (IsLeastOther (λ q. q ≡ path.now → IsSome (at_path held.now q))) }
{
    match held.get(path) {
        Some(_) => Ok(None),
        None => Ok(Some(path.clone()?)),
    }
}

fn lesser(one: Option<Path>, other: Option<Path>) -> Option<Path>
    ensures { result ≡ spec.lesser one other }
{
    match (one, other) {
        (Some(one), Some(other)) => Some(lesser_path(one, other)),
        (one, None) => one,
        (None, other) => other,
    }
}

fn lesser_path(one: Path, other: Path) -> Path
    ensures { Some result ≡ spec.lesser (Some one) (Some other) }
{
    if one < other { one } else { other }
}
