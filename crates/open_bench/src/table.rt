ghost use Rattle.std.specs.Prelude.{◌≡◌, ◌<◌, Some};

use bench_input::bad_input;
use mx_ask::{Reply, ask_of};
use mx_base::Instant;
use mx_hub::drive;
use mx_open::init;
use mx_recovery::open_world;
use mx_schema::Schema;
use mx_store::{MemStore, Named};
use mx_world::World;
use std::alloc::Global;
use std::io;
use std::marker::Brand;

/// A store in memory with a table of so many commits of one file.
pub(crate) fn table_of(alloc: Global, commits: u32) -> io::Result<MemStore> {
    let Ok(schema) = Schema::parse(alloc, "a:int64") else {
        return Err(bad_input());
    };
    let mut store = MemStore::empty(alloc);
    if init(alloc, &mut store, &schema).is_err() {
        return Err(bad_input());
    }
    filled::<Brand>(alloc, store, first_moment(), commits)
}

/// The store once the table in it was opened.
pub(crate) fn opened(alloc: Global, store: MemStore) -> io::Result<MemStore> {
    filled::<Brand>(alloc, store, first_moment(), 0)
}

// The store once the table in it was opened, and so many commits were made.
fn filled<N: Named>(
    alloc: Global,
    store: MemStore,
    now: Instant,
    commits: u32,
) -> io::Result<MemStore>
    requires opening { N.opening ≡ Some store.changes }
    requires moment { now ≡ N.moment }
    requires some { 0 < now }
{
    let Ok(table) = open_world::<MemStore, N>(alloc, store, now) else {
        return Err(bad_input());
    };
    let mut table = table;
    for number in 0..commits {
        commit(alloc, &mut table, number)?;
    }
    Ok(table.into_store())
}

// Commits a file of one of a thousand groups.
fn commit<N: Named>(alloc: Global, table: &mut World<MemStore, N>, number: u32) -> io::Result<()> {
    let group = number % 1000;
    let line = format!(in alloc;
        "{{\"ask\":\"commit\",\"files\":[{{\"file\":\"11111111-1111-4111-8111-{group:012}\",\"partition\":\"p\",\"rows\":[[\"a\",1]]}}]}}"
    )?;
    let Ok(ask) = ask_of(alloc, line.as_bytes()) else {
        return Err(bad_input());
    };
    match drive(alloc, table, u64::from(number), &ask).reply {
        Reply::Committed { .. } => Ok(()),
        _ => Err(bad_input()),
    }
}

fn first_moment() -> Instant
    ensures { 0 < result }
{
    match Instant::new(20_250_101_000_000_000) {
        Some(at) => at,
        None => unreachable!(),
    }
}
