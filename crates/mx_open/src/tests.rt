use crate::{InitError, init};
use mx_base::Path;
use mx_schema::Schema;
use mx_store::{Change, MemStore, Store};
use std::alloc::Global;
use std::test::Fail;

// A base without entries, as tools/print-index-objects prints it.
pub(crate) const EMPTY_BASE: &[u8] =
    b"IDXROOT2\x00\x00\x00\x04\x00\x00\x00\x00MDTTRAIL\x00\x00\x00\x01\x00\x00\x00\x00\x00\x00\x00\x00\x00\x00\x00\x00\x00\x00\x00\x00\x00\x00\x00\x10\x00\x00\x00\x00\x00\x00\x00\x00\x00\x00\x00\x00\x00\x00\x00\x00\x00\x00\x00\x00\x00\x00\x00\x00\x00\x00\x00\x00\x00\x00\x00\x00";

// The paths and bytes of a new table, in the order in which they are made.
const NEW_TABLE: [(&str, &[u8]); 4] = [
    (
        ".hoodie/metadata/.hoodie/00000000000000000010.deltacommit.inflight",
        b"{}",
    ),
    (
        ".hoodie/metadata/files/files-0000_00000000000000000010.hfile",
        EMPTY_BASE,
    ),
    (
        ".hoodie/metadata/.hoodie/00000000000000000010.deltacommit",
        b"{\"bases\":[\".hoodie/metadata/files/files-0000_00000000000000000010.hfile\"],\"upto\":\"00000000000000000\"}",
    ),
    (
        ".hoodie/hoodie.properties",
        b"hoodie.table.metadata.partitions=files\nhoodie.table.metadata.partitions.inflight=\nhoodie.table.version=6\nmdt.schema=a:int64\n",
    ),
];

// Whether `init` says this: the path that stands, or another word.
fn is_said(ended: &Result<(), InitError>, word: &str) -> bool {
    match ended {
        Ok(()) => word == "made",
        Err(InitError::NotEmpty { path }) => path.as_str() == word,
        Err(InitError::StoreFault) => word == "fault",
        Err(InitError::NoMemory) => word == "no memory",
    }
}

// Runs `init` with one column of whole numbers, and tells whether it says this.
pub(crate) fn begins(alloc: Global, store: &mut MemStore, word: &str) -> Result<bool, Fail> {
    let Ok(schema) = Schema::parse(alloc, "a:int64") else {
        return Err(Fail::new("the schema is one"));
    };
    Ok(is_said(&init(alloc, store, &schema), word))
}

// Whether the store holds the first so many objects of a new table, made in their order.
fn holds_front(store: &MemStore, count: usize) -> bool {
    if store.journal().len() != count {
        return false;
    }
    for (change, object) in store.journal().iter().zip(NEW_TABLE) {
        if !is_made(change, object) {
            return false;
        }
    }
    true
}

fn is_made(change: &Change, object: (&str, &[u8])) -> bool {
    match change {
        Change::Create { path, bytes } => {
            path.as_str() == object.0 && bytes.as_slice() == object.1
        }
        _ => false,
    }
}

#[test]
fn a_new_table_is_four_objects_of_which_the_config_is_the_last(
    rt: HostRuntime,
) -> Result<(), Fail> {
    let alloc = rt.alloc();
    let mut store = MemStore::empty(alloc);
    let made = begins(alloc, &mut store, "made")?;
    assert!(rt; made && holds_front(&store, 4));
    Ok(())
}

fn add(alloc: Global, store: &mut MemStore, path: &str) -> Result<(), Fail> {
    let path = Path::parse(alloc, path)?;
    match store.create(alloc, &path, b"x") {
        Ok(true) => Ok(()),
        _ => Err(Fail::new("an object is made")),
    }
}

fn three_objects(alloc: Global) -> Result<MemStore, Fail> {
    let mut store = MemStore::empty(alloc);
    add(alloc, &mut store, "b/1")?;
    add(alloc, &mut store, "a/2")?;
    add(alloc, &mut store, "a/10")?;
    Ok(store)
}

#[test]
fn a_folder_that_is_not_empty_is_named_by_its_first_path_and_kept(
    rt: HostRuntime,
) -> Result<(), Fail> {
    let alloc = rt.alloc();
    let mut store = three_objects(alloc)?;
    let named = begins(alloc, &mut store, "a/10")?;
    assert!(rt; named && store.journal().len() == 3);
    Ok(())
}

#[test]
fn a_table_that_stands_is_named_by_its_config(rt: HostRuntime) -> Result<(), Fail> {
    let alloc = rt.alloc();
    let mut store = MemStore::empty(alloc);
    let made = begins(alloc, &mut store, "made")?;
    let named = begins(alloc, &mut store, ".hoodie/hoodie.properties")?;
    assert!(rt; made && named && holds_front(&store, 4));
    Ok(())
}

// Whether a new table of which this call fails says so and holds its first so many objects.
fn ends_at(alloc: Global, call: u64, applied: bool, made: usize) -> Result<bool, Fail> {
    let mut store = MemStore::empty(alloc);
    store.fail(call, applied)?;
    let fault = begins(alloc, &mut store, "fault")?;
    Ok(fault && holds_front(&store, made))
}

#[test]
fn a_call_that_fails_leaves_the_first_objects_of_a_new_table(rt: HostRuntime) -> Result<(), Fail> {
    let alloc = rt.alloc();
    let cases = [
        (0, false, 0),
        (1, false, 0),
        (1, true, 1),
        (2, false, 1),
        (2, true, 2),
        (3, false, 2),
        (3, true, 3),
        (4, false, 3),
        (4, true, 4),
    ];
    for (call, applied, made) in cases {
        let ends = ends_at(alloc, call, applied, made)?;
        assert!(rt; ends, "at {call}");
    }
    Ok(())
}
