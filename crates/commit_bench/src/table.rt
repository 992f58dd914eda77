ghost use Rattle.std.specs.Prelude.{◌≡◌, ◌<◌, None};

use bench_input::bad_input;
use mx_ask::{Reply, ask_of};
use mx_base::Instant;
use mx_hub::drive;
use mx_open::init;
use mx_recovery::open_world;
use mx_schema::Schema;
use mx_store::{MemStore, Named, QuietStore};
use mx_world::World;
use std::alloc::Global;
use std::io;
use std::marker::Brand;

/// How many of so many commits of the line are answered as committed, over a new table of the schema.
pub(crate) fn committed(
    alloc: Global,
    schema: &Schema,
    line: &[u8],
    rounds: u32,
) -> io::Result<u32> {
    let mut store = QuietStore::over(MemStore::empty(alloc));
    if init(alloc, &mut store, schema).is_err() {
        return Err(bad_input());
    }
    let Some(now) = Instant::new(20_250_101_000_000_000) else {
        return Err(bad_input());
    };
    filled::<Brand>(alloc, store, now, line, rounds)
}

fn filled<N: Named>(
    alloc: Global,
    store: QuietStore,
    now: Instant,
    line: &[u8],
    rounds: u32,
) -> io::Result<u32>
    requires opening { N.opening ≡ None }
    requires moment { now ≡ N.moment }
    requires some { 0 < now }
{
    let Ok(table) = open_world::<QuietStore, N>(alloc, store, now) else {
        return Err(bad_input());
    };
    let mut table = table;
    let mut done = 0u32;
    for number in 0..rounds {
        if commits(alloc, &mut table, number, line) {
            done = done.saturating_add(1);
        }
    }
    Ok(done)
}

fn commits<N: Named>(
    alloc: Global,
    table: &mut World<QuietStore, N>,
    number: u32,
    line: &[u8],
) -> bool {
    let Ok(ask) = ask_of(alloc, line) else {
        return false;
    };
    matches!(
        &drive(alloc, table, u64::from(number), &ask).reply,
        Reply::Committed { .. }
    )
}
