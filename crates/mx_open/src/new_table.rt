ghost use Rattle.std.specs.Prelude.{◌≡◌, ◌∷◌, [], IfOk, OnOk, IfSome, map};
ghost use Rattle.serde_json.specs.Written.{compact_text};
ghost use Rattle.mx_base.specs.Objects.{object_path};
ghost use Rattle.mx_base.specs.declared.object_name.MetadataActionKind.TheVariants as kinds;
ghost use Rattle.mx_folder.specs.Named.{first_base};
ghost use Rattle.mx_hfile.specs.Encoding.{encoding};
ghost use Rattle.mx_meta.specs.ShardFiles.{base_meta_data};
ghost use Rattle.mx_props.specs.Config.{config_text};
ghost use Rattle.mx_folder.specs.Begin.{first_config, first_meta, init_changes};
ghost use Rattle.mx_schema.specs.Columns.{IsSchema};
ghost use Rattle.mx_store.specs.Calls.{Counts};
ghost use Rattle.mx_store.specs.Objects.{objects_of};
ghost use Rattle.mx_open.specs.Init.{Inits, IsNewTable, CountsInit, FirstOf, MayMake, Makes, creation};

use crate::error::InitError;
use mx_base::{BaseKind, Instant, MetadataActionKind, ObjectName, Part, Path};
use mx_lists::{Bytes, Listed};
use mx_meta::BaseMeta;
use mx_props::Props;
use mx_schema::Schema;
use mx_store::{Store, StoreError};
use std::alloc::{AllocError, Global};

/// An object that is to be made.
#[derive(Debug, Drop)]
pub(crate) struct NewObject {
    pub path: Path,
    pub bytes: Bytes,
}

/// Makes a new table of this schema in a folder that holds nothing. It has no commits.
pub fn init<S: Store>(alloc: Global, store: &mut S, schema: &Schema) -> Result<(), InitError>
    ensures makes { Inits schema.now (S.journal store.old) (S.journal store.new) result }
    ensures table { OnOk result (IfSome (S.journal store.new) (λ journal. IsNewTable (objects_of journal))) }
    ensures faults { CountsInit (S.faults store.old) (S.faults store.new) result }
{
    if let Some(path) = first_path(alloc, store)? {
        return Err(InitError::NotEmpty { path });
    }
    let objects = new_objects(alloc, schema)?;
    make_all(alloc, store, &objects)
}

// The first path in byte order.
fn first_path<S: Store>(alloc: Global, store: &mut S) -> Result<Option<Path>, StoreError>
    ensures first { IfOk result (λ path. FirstOf (S.journal store.old) path) }
    ensures journal { S.journal store.new ≡ S.journal store.old }
    ensures faults { Counts (S.faults store.old) (S.faults store.new) result }
{
    let paths = store.list(alloc, "")?;
    match paths.as_slice().first() {
        Some(path) => Ok(Some(path.clone()?)),
        None => Ok(None),
    }
}

// The objects of a new table, in the order in which they are made.
fn new_objects(alloc: Global, schema: &Schema) -> Result<Vec<NewObject>, AllocError>
    ensures changes { IfOk result (λ objects. map creation objects.items ≡ init_changes schema.now) }
    ensures schema { OnOk result (IsSchema schema.now) }
{
    let empty: &[u8] = b"{}";
    let mark = object(alloc, indexing(false), Bytes::from_slice(alloc, empty)?)?;
    let base = object(alloc, first_base(), base_bytes(alloc)?)?;
    let bases = object(alloc, indexing(true), bases_text(alloc)?)?;
    let config = object(alloc, ObjectName::Config, config_bytes(alloc, schema)?)?;
    Ok(vec![in alloc; mark, base, bases, config]?)
}

fn object(alloc: Global, name: ObjectName, bytes: Bytes) -> Result<NewObject, AllocError>
    ensures { IfOk result (λ object. (object.path ≡ object_path name) × (object.bytes ≡ bytes)) }
{
    let path = name.path(alloc)?;
    Ok(NewObject { path, bytes })
}

// The instant before the first commit.
fn start() -> Instant
    ensures { result ≡ 0 }
{
    match Instant::new(0) {
        Some(at) => at,
        None => unreachable!(),
    }
}

// The base that a table begins with.
pub(crate) fn first_base() -> ObjectName
    ensures { result ≡ first_base }
{
    ObjectName::Base {
        part: Part::Files,
        shard: 0,
        upto: start(),
        kind: BaseKind::Indexing,
    }
}

// The object of the first base, or the mark before it.
pub(crate) fn indexing(completed: bool) -> ObjectName
    ensures { result ≡ ObjectName.Metadata 0 kinds.Indexing completed }
{
    ObjectName::Metadata {
        at: start(),
        kind: MetadataActionKind::Indexing,
        completed,
    }
}

// A base without entries.
fn base_bytes(alloc: Global) -> Result<Bytes, AllocError>
    ensures { IfOk result (λ bytes. bytes ≡ encoding []) }
{
    Ok(Bytes::from_vec(mx_hfile::write(alloc, &[])?))
}

fn bases_text(alloc: Global) -> Result<Bytes, AllocError>
    ensures { IfOk result (λ bytes. bytes ≡ compact_text (base_meta_data first_meta)) }
{
    let base = first_base().path(alloc)?;
    let bases = Listed::from_vec(vec![in alloc; base]?);
    match BaseMeta::new(alloc, bases, start())? {
        Some(meta) => meta.print(alloc),
        None => unreachable!(),
    }
}

fn config_bytes(alloc: Global, schema: &Schema) -> Result<Bytes, AllocError>
    ensures text { IfOk result (λ bytes. bytes ≡ config_text (first_config schema.now)) }
    ensures schema { OnOk result (IsSchema schema.now) }
{
    let _columns = schema.columns();
    let available = Listed::from_vec(vec![in alloc; Part::Files]?);
    match Props::new(available, None, schema.clone()?) {
        Some(props) => props.print(alloc),
        None => unreachable!(),
    }
}

fn make_all<S: Store>(alloc: Global, store: &mut S, objects: &[NewObject]) -> Result<(), InitError>
    requires may { MayMake (S.journal store.old) (map creation objects.now) }
    ensures makes { Makes (map creation objects.now) (S.journal store.old) (S.journal store.new) result }
    ensures faults { CountsInit (S.faults store.old) (S.faults store.new) result }
{
    for object in objects {
        make(alloc, store, object)?;
    }
    Ok(())
}

// A store that tells nothing may answer that something stands at the path.
fn make<S: Store>(alloc: Global, store: &mut S, object: &NewObject) -> Result<(), InitError>
    requires may { MayMake (S.journal store.old) (creation object.now ∷ []) }
    ensures makes { Makes (creation object.now ∷ []) (S.journal store.old) (S.journal store.new) result }
    ensures faults { CountsInit (S.faults store.old) (S.faults store.new) result }
{
    if store.create(alloc, &object.path, object.bytes.as_slice())? {
        return Ok(());
    }
    Err(InitError::NotEmpty {
        path: object.path.clone()?,
    })
}
