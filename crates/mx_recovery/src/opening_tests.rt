// The last instant of a table that is opened, folders that are refused, and stores that tell nothing.
ghost use Rattle.std.specs.Prelude.{◌≡◌, ◌<◌, ◌^◌, None};

use crate::open_world;
use crate::tests::{CONFIG, MOMENT, REQUESTED, add, opened, table_of, table_with};
use mx_base::Instant;
use mx_store::{MemStore, Named, QuietStore};
use std::alloc::Global;
use std::marker::Brand;
use std::test::Fail;

const STRAY: &str =
    "2024-01-01/11111111-1111-4111-8111-111111111111_0-0-0_20250101000000009.parquet";

// The last instant after the opening of a table with the first so many objects of the commit.
fn last_with(alloc: Global, count: usize, now: u64) -> Result<u64, Fail>
    requires meant { 0 < now }
    requires small { now < 10 ^ 17 }
{
    let seen = opened(alloc, table_with(alloc, count)?, now);
    Ok(seen.last)
}

#[test]
fn the_last_instant_is_the_greatest_in_any_name_at_the_opening(
    rt: HostRuntime,
) -> Result<(), Fail> {
    let alloc = rt.alloc();
    // how many objects of the commit stand, the moment, and the last instant
    const CASES: [(usize, u64, u64); 4] = [
        (0, 5, 4),
        (1, 5, MOMENT),
        (7, MOMENT, MOMENT),
        (7, MOMENT + 8, MOMENT + 7),
    ];
    for (count, now, last) in CASES {
        let found = last_with(alloc, count, now)?;
        assert_eq!(rt; found, last, "at {count}");
    }
    Ok(())
}

#[test]
fn the_name_of_a_data_file_counts_for_the_last_instant(rt: HostRuntime) -> Result<(), Fail> {
    let alloc = rt.alloc();
    let seen = opened(alloc, table_of(alloc, 0, &[(STRAY, b"x")])?, MOMENT);
    assert_eq!(rt; seen.last, MOMENT + 9);
    Ok(())
}

// Whether a folder of one object is refused for this, and kept.
fn is_refused(alloc: Global, path: &str, text: &str, said: &str) -> Result<bool, Fail> {
    let mut store = MemStore::empty(alloc);
    add(alloc, &mut store, path, text.as_bytes())?;
    let seen = opened(alloc, store, MOMENT);
    Ok(seen.said == said && seen.store.journal().len() == 1)
}

#[test]
fn a_folder_that_does_not_open_is_refused_and_kept(rt: HostRuntime) -> Result<(), Fail> {
    let alloc = rt.alloc();
    const VERSION_5: &str =
        "hoodie.table.metadata.partitions=files\nhoodie.table.metadata.partitions.inflight=\nhoodie.table.version=5\nmdt.schema=a:int64\n";
    // an object, and what the opening says
    const CASES: [(&str, &str, &str); 3] = [
        (REQUESTED, "{}", "no table"),
        (CONFIG, VERSION_5, "version 5"),
        (CONFIG, "x", CONFIG),
    ];
    for (path, text, said) in CASES {
        let refused = is_refused(alloc, path, text, said)?;
        assert!(rt; refused, "{said}");
    }
    Ok(())
}

// The count of changes and the last instant after the opening of a store that tells nothing.
fn opened_untold<N: Named>(alloc: Global, store: MemStore) -> Result<(u64, u64), Fail>
    requires opening { N.opening ≡ None }
    requires moment { N.moment ≡ 20250101000000000 }
{
    let now = match Instant::new(MOMENT) {
        Some(at) => at,
        None => unreachable!(),
    };
    match open_world::<QuietStore, N>(alloc, QuietStore::over(store), now) {
        Ok(world) => Ok((world.seq(), world.last().number())),
        Err(_) => Err(Fail::new("the folder opens")),
    }
}

#[test]
fn a_store_that_tells_nothing_is_opened_alike(rt: HostRuntime) -> Result<(), Fail> {
    let alloc = rt.alloc();
    for count in [0, 3, 6] {
        let (seq, last) = opened_untold::<Brand>(alloc, table_with(alloc, count)?)?;
        let greatest = if count == 0 { MOMENT - 1 } else { MOMENT };
        assert_eq!(rt; seq, count as u64);
        assert_eq!(rt; last, greatest);
    }
    Ok(())
}
