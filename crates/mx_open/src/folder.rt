ghost use Rattle.std.specs.Prelude.{◌≡◌, IfOk, OnOk, IfSome, Some, filter, not};
ghost use Rattle.mx_base.specs.declared.object_name.ObjectName.TheVariants as names;
ghost use Rattle.mx_folder.specs.Named.{first_bases, is_hidden, object_at};
ghost use Rattle.mx_store.specs.Calls.{Counts};
ghost use Rattle.mx_store.specs.Objects.{Objects, at_path, objects_of};
ghost use Rattle.mx_open.specs.Deciding.{Adds, AreBases, AreHeld, IsContext, IsSaid, available_of};
ghost use Rattle.mx_open.specs.Opening.{Opens, OpensHeld, CountsRead, SaysConfig};

use crate::completed::completed_actions;
use crate::context::Context;
use crate::error::ReadError;
use crate::faults::least_damaged;
use crate::held::Held;
use crate::new_table::indexing;
use crate::pending::{copied, pending_commits};
use mx_base::{ObjectName, Part, Path};
use mx_folder::Pending;
use mx_lists::{Bytes, Listed};
use mx_meta::{BaseMeta, MetaError};
use mx_model::Action;
use mx_props::{Props, PropsError};
use mx_store::{Store, StoreError};
use std::alloc::{AllocError, Global};

/// What a folder holds, by one list and one read of each object below `.hoodie/`.
#[derive(Drop)]
pub struct Folder {
    pub config: Props,
    /// The paths below `.hoodie/`, in byte order.
    pub names: Listed<Path>,
    /// The other paths, in byte order.
    pub others: Listed<Path>,
    /// The commits that are begun and not completed, by rising instant.
    pub pending: Listed<Pending>,
    /// The completed commits, each with what its object says.
    pub commits: Listed<Action>,
}

/// What the config says, where it reads.
pub(crate) fn read_config(alloc: Global, held: &Held) -> Result<Option<Props>, ReadError>
    ensures { SaysConfig held.now result }
{
    let path = ObjectName::Config.path(alloc)?;
    match held.get(&path) {
        Some(bytes) => read_props(alloc, bytes.as_slice()),
        None => Err(ReadError::NotATable),
    }
}

fn read_props(alloc: Global, bytes: &[u8]) -> Result<Option<Props>, ReadError>
    ensures { (objects : Objects) → object_at objects names.Config ≡ Some bytes.now → SaysConfig objects result }
{
    match Props::read(alloc, bytes) {
        Ok(props) => Ok(Some(props)),
        Err(PropsError::BadProps { .. }) => Ok(None),
        Err(PropsError::Version { found }) => Err(ReadError::Version {
            found: u64::from(found),
        }),
        Err(PropsError::NoMemory) => Err(ReadError::NoMemory),
    }
}

/// What the config and the object of the first base say of the other objects.
pub(crate) fn context_of(
    alloc: Global,
    held: &Held,
    config: &Option<Props>,
) -> Result<Context, AllocError>
    requires said { IsSaid held.now config.now }
    ensures { IfOk result (IsContext held.now) }
{
    let available = available_in(alloc, config)?;
    let Bases { paths, unread } = bases_in(alloc, held)?;
    Ok(Context {
        available,
        bases: paths,
        unread,
    })
}

fn available_in(alloc: Global, config: &Option<Props>) -> Result<Listed<Part>, AllocError>
    ensures { IfOk result (λ parts. parts ≡ available_of config.now) }
{
    match config {
        Some(props) => Ok(Listed::from_vec(Vec::from_slice(alloc, props.available())?)),
        None => Ok(Listed::new(alloc)),
    }
}

// The bases that count, and whether the object that names them stands and does not read.
#[derive(Drop)]
struct Bases {
    paths: Listed<Path>,
    unread: bool,
}

fn bases_in(alloc: Global, held: &Held) -> Result<Bases, AllocError>
    ensures { IfOk result (λ bases. AreBases held.now bases.paths bases.unread) }
{
    let path = indexing(true).path(alloc)?;
    match held.get(&path) {
        Some(bytes) => read_bases(alloc, bytes.as_slice()),
        None => Ok(Bases {
            paths: Listed::new(alloc),
            unread: false,
        }),
    }
}

fn read_bases(alloc: Global, bytes: &[u8]) -> Result<Bases, AllocError>
    ensures { (objects : Objects) → object_at objects first_bases ≡ Some bytes.now → IfOk result (λ bases. AreBases objects bases.paths bases.unread) }
{
    match BaseMeta::read(alloc, bytes) {
        Ok(meta) => Ok(Bases {
            paths: copied(alloc, meta.bases())?,
            unread: false,
        }),
        Err(MetaError::BadMeta { .. }) => Ok(Bases {
            paths: Listed::new(alloc),
            unread: true,
        }),
        Err(MetaError::NoMemory) => Err(AllocError),
    }
}

/// Reads the config, then each object below `.hoodie/`, and looks for damage. It changes nothing.
pub fn read_folder<S: Store>(alloc: Global, store: &mut S) -> Result<Folder, ReadError>
    ensures opens { IfSome (S.journal store.old) (λ journal. Opens (objects_of journal) result) }
    ensures journal { S.journal store.new ≡ S.journal store.old }
    ensures faults { CountsRead (S.faults store.old) (S.faults store.new) result }
{
    let paths = store.list(alloc, "")?;
    let names = hidden_paths(alloc, paths.as_slice())?;
    let held = read_objects(alloc, store, names.as_slice())?;
    let others = other_paths(alloc, paths.as_slice())?;
    open_held(alloc, &held, names, others)
}

// The objects at these paths.
fn read_objects<S: Store>(alloc: Global, store: &mut S, paths: &[Path]) -> Result<Held, StoreError>
    ensures told { IfOk result (λ held. IfSome (S.journal store.old) (λ journal. AreHeld held (objects_of journal) paths.now paths.now)) }
    ensures journal { S.journal store.new ≡ S.journal store.old }
    ensures faults { Counts (S.faults store.old) (S.faults store.new) result }
{
    let mut held = Held::new(alloc);
    for path in paths {
        read_object(alloc, store, &mut held, path)?;
    }
    Ok(held)
}

fn read_object<S: Store>(
    alloc: Global,
    store: &mut S,
    held: &mut Held,
    path: &Path,
) -> Result<(), StoreError>
    ensures told { OnOk result (IfSome (S.journal store.old) (λ journal. Adds path.now (at_path (objects_of journal) path.now) held.old held.new)) }
    ensures journal { S.journal store.new ≡ S.journal store.old }
    ensures faults { Counts (S.faults store.old) (S.faults store.new) result }
{
    if let Some(bytes) = store.get(alloc, path)? {
        held.insert(path.clone()?, bytes)?;
    }
    Ok(())
}

fn hidden_paths(alloc: Global, paths: &[Path]) -> Result<Listed<Path>, AllocError>
    ensures { IfOk result (λ hidden. hidden ≡ filter is_hidden paths.now) }
{
    let mut hidden = Listed::new(alloc);
    for path in paths {
        if is_hidden(path) {
            hidden.push(path.clone()?)?;
        }
    }
    Ok(hidden)
}

fn other_paths(alloc: Global, paths: &[Path]) -> Result<Listed<Path>, AllocError>
    ensures { IfOk result (λ others. others ≡ filter (λ path. not (is_hidden path)) paths.now) }
{
    let mut others = Listed::new(alloc);
    for path in paths {
        if !is_hidden(path) {
            others.push(path.clone()?)?;
        }
    }
    Ok(others)
}

fn is_hidden(path: &Path) -> bool
    ensures { result ≡ is_hidden path.now }
{
    path.as_str().as_bytes().starts_with(b".hoodie/")
}

// The folder of these objects, where no path is damaged.
fn open_held(
    alloc: Global,
    held: &Held,
    names: Listed<Path>,
    others: Listed<Path>,
) -> Result<Folder, ReadError>
    ensures { OpensHeld held.now names others result }
{
    let config = read_config(alloc, held)?;
    let context = context_of(alloc, held, &config)?;
    if let Some(path) = least_damaged(alloc, held, &context)? {
        return Err(ReadError::Damaged { path });
    }
    let pending = pending_commits(alloc, held, names.as_slice())?;
    let commits = completed_actions(alloc, held, names.as_slice())?;
    match config {
        Some(config) => Ok(Folder {
            config,
            names,
            others,
            pending,
            commits,
        }),
        None => unreachable!(),
    }
}
