ghost use Rattle.std.specs.Prelude.{◌≡◌, IfOk};
ghost use Rattle.mx_meta.specs.Places.{place_in, place_of, places_of, stands_in_order};

use crate::rising::is_rising;
use mx_base::{ObjectName, Part, Path};
use mx_lists::Listed;
use std::alloc::{AllocError, Global};

/// A shard of an index partition.
#[derive(Clone, Copy, Debug)]
pub struct Place {
    pub part: Part,
    pub shard: u32,
}

/// What stands in a shard.
#[derive(Clone, Copy, Debug)]
pub enum ShardFile {
    Log,
    Base,
}

/// Whether each is the path of such a file, and they stand by partition and shard, none twice.
#[tactic(auto, unfolding(crate::specs::Places::stands_in_order))]
pub fn stands_in_order(alloc: Global, file: ShardFile, paths: &[Path]) -> Result<bool, AllocError>
    ensures { IfOk result (λ answer. answer ≡ stands_in_order file paths.now) }
{
    match places_of(alloc, file, paths)? {
        Some(places) => Ok(is_rising(places.as_slice())),
        None => Ok(false),
    }
}

fn places_of(
    alloc: Global,
    file: ShardFile,
    paths: &[Path],
) -> Result<Option<Listed<Place>>, AllocError>
    ensures { IfOk result (λ places. places ≡ places_of file paths.now) }
{
    let mut places = Listed::new(alloc);
    for path in paths {
        match place_of(file, path) {
            Some(place) => places.push(place)?,
            None => return Ok(None),
        }
    }
    Ok(Some(places))
}

fn place_of(file: ShardFile, path: &Path) -> Option<Place>
    ensures { result ≡ place_of file path.now }
{
    match ObjectName::of(path) {
        Some(object) => place_in(file, object),
        None => None,
    }
}

fn place_in(file: ShardFile, object: ObjectName) -> Option<Place>
    ensures { result ≡ place_in file object }
{
    match (file, object) {
        (ShardFile::Log, ObjectName::Log { part, shard, .. }) => Some(Place { part, shard }),
        (ShardFile::Base, ObjectName::Base { part, shard, .. }) => Some(Place { part, shard }),
        _ => None,
    }
}
