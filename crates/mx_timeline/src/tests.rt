use super::*;
use mx_base::{Instant, Path};
use std::alloc::Global;
use std::process::Abort;
use std::test::Fail;

fn paths_of(alloc: Global, rt: &impl Abort, names: &[&str]) -> Result<Vec<Path>, Fail> {
    let mut paths = Vec::new(alloc);
    for name in names {
        paths.push(Path::parse(alloc, name).ok().expect(rt, "a path"))?;
    }
    Ok(paths)
}

const T1: &str = ".hoodie/00000000000000001.commit";

const T2_BEGUN: &str = ".hoodie/00000000000000002.commit.requested";

const T2_WRITING: &str = ".hoodie/00000000000000002.inflight";

const T3: &str = ".hoodie/00000000000000003.commit";

const T4_CLEAN: &str = ".hoodie/00000000000000004.clean";

const T2_INDEXING: &str = ".hoodie/00000000000000002.indexing.inflight";

const T5_ROLLED_BACK: &str = ".hoodie/00000000000000005.rollback";

const T5_ROLLBACK: &str = ".hoodie/00000000000000005.rollback.requested";

const LOG: &str = ".hoodie/metadata/files/files-0000_00000000000000009.log";

#[test]
fn the_frontier_stops_below_the_least_pending_commit_or_clean(rt: HostRuntime) -> Result<(), Fail> {
    let alloc = rt.alloc();
    // The names; the frontier, the newest, the least pending instant, and how many instants there are.
    let cases: [(&[&str], u64, u64, Option<u64>, u64); 9] = [
        (&[], 0, 0, None, 0),
        (&[LOG], 0, 0, None, 0),
        (&[T1], 1, 1, None, 1),
        (&[T1, T3], 3, 3, None, 2),
        (&[T3, T2_BEGUN, T1], 1, 3, Some(2), 3),
        (&[T1, T2_WRITING, T4_CLEAN], 1, 4, Some(2), 3),
        (&[T1, T2_INDEXING, T4_CLEAN], 4, 4, Some(2), 3),
        (&[T2_BEGUN, T3], 0, 3, Some(2), 2),
        (&[T1, T5_ROLLBACK, T5_ROLLED_BACK], 1, 1, None, 2),
    ];
    for (names, frontier, newest, pending, count) in cases {
        let paths = paths_of(alloc, &rt, names)?;
        let timeline = Timeline::of(alloc, paths.as_slice())
            .ok()
            .expect(&rt, "a timeline");
        assert_eq!(rt; timeline.frontier().number(), frontier);
        assert_eq!(rt; timeline.newest().number(), newest);
        assert_eq!(rt; timeline.least_pending().map(Instant::number), pending);
        assert_eq!(rt; timeline.count(), count);
    }
    Ok(())
}

#[test]
fn an_instant_is_completed_by_a_commit_or_a_clean_alone(rt: HostRuntime) -> Result<(), Fail> {
    let alloc = rt.alloc();
    let paths = paths_of(
        alloc,
        &rt,
        &[T1, T2_BEGUN, T2_WRITING, T4_CLEAN, T5_ROLLED_BACK],
    )?;
    let timeline = Timeline::of(alloc, paths.as_slice())
        .ok()
        .expect(&rt, "a timeline");
    let cases = [
        (0, false),
        (1, true),
        (2, false),
        (3, false),
        (4, true),
        (5, false),
    ];
    for (number, completed) in cases {
        let at = Instant::new(number).expect(&rt, "an instant");
        assert_eq!(rt; timeline.is_completed(at), completed, "{number}");
    }
    Ok(())
}

// The name that is refused.
fn refused(alloc: Global, rt: &impl Abort, names: &[&str]) -> Result<Path, Fail> {
    let paths = paths_of(alloc, rt, names)?;
    match Timeline::of(alloc, paths.as_slice()) {
        Err(TimelineError::BadTimeline { name }) => Ok(name),
        _ => Err(Fail::new("each name was taken, or memory ran out")),
    }
}

#[test]
fn the_first_name_that_is_no_objects_is_named(rt: HostRuntime) -> Result<(), Fail> {
    let alloc = rt.alloc();
    let name = refused(alloc, &rt, &["2024-01-01/a"])?;
    assert_eq!(rt; name.as_str(), "2024-01-01/a");
    let name = refused(alloc, &rt, &[T1, ".hoodie/x", ".hoodie/w"])?;
    assert_eq!(rt; name.as_str(), ".hoodie/x");
    let name = refused(alloc, &rt, &[T1, ".hoodie/00000000000000000.commit"])?;
    assert_eq!(rt; name.as_str(), ".hoodie/00000000000000000.commit");
    Ok(())
}
