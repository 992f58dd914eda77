// Streams that are cut or fail, and stores that fail.
use crate::tests::{
    COMMITTED, FIRST_LINES, FIRST_REPLIES, FOUND, MOMENT, NOTHING, input, new_table, replies, run,
    run_at, served,
};
use mx_store::{BytesSink, MemStore};
use std::alloc::Global;
use std::test::Fail;

static LOOK_UP: &[u8] = b"{\"ask\":\"files\",\"partition\":\"2024-01-01\"}\n";

const FAULT: &str = "{\"refused\":\"StoreFault\",\"seq\":";

// A new table whose store's call of this number, counted behind its making, fails.
fn failing_table(alloc: Global, call: u64, applied: bool) -> Result<MemStore, Fail> {
    let mut store = new_table(alloc)?;
    store.fail(call.saturating_add(5), applied)?;
    Ok(store)
}

fn serves_alike(alloc: Global, cut: usize) -> Result<bool, Fail> {
    let source = input(alloc, FIRST_LINES, &[cut], &[])?;
    let sink = BytesSink::empty(alloc, Vec::new(alloc));
    let words = ["serve", "work"];
    let left = run_at(alloc, MOMENT, new_table(alloc)?, &words, source, sink)?;
    Ok(left.code == 0 && left.written.as_slice() == FIRST_REPLIES)
}

#[test]
fn a_source_that_is_cut_anywhere_gives_the_same_replies(rt: HostRuntime) -> Result<(), Fail> {
    for cut in 0..FIRST_LINES.len() {
        assert!(rt; serves_alike(rt.alloc(), cut)?, "cut at {cut}");
    }
    Ok(())
}

// The exit status and the number of replies where this call of the source, and this one of the sink, fails.
fn streamed(alloc: Global, source_fails: &[u64], sink_fails: &[u64]) -> Result<(u8, usize), Fail> {
    let source = input(alloc, FIRST_LINES, &[], source_fails)?;
    let sink = BytesSink::empty(alloc, Vec::from_slice(alloc, sink_fails)?);
    let words = ["serve", "work"];
    let left = run_at(alloc, MOMENT, new_table(alloc)?, &words, source, sink)?;
    if !FIRST_REPLIES.starts_with(left.written.as_slice()) {
        return Err(Fail::new("the replies are the first ones"));
    }
    Ok((left.code, lines_in(left.written.as_slice())))
}

fn lines_in(bytes: &[u8]) -> usize {
    bytes.iter().filter(|byte| **byte == b'\n').count()
}

#[test]
fn a_stream_that_fails_ends_the_run_behind_the_lines_before(rt: HostRuntime) -> Result<(), Fail> {
    let alloc = rt.alloc();
    // The first call of the source gives all bytes, and the second finds the end.
    assert!(rt; streamed(alloc, &[0], &[])? == (3, 0));
    assert!(rt; streamed(alloc, &[1], &[])? == (3, 3));
    assert!(rt; streamed(alloc, &[2], &[])? == (0, 3));
    assert!(rt; streamed(alloc, &[], &[0])? == (4, 0));
    assert!(rt; streamed(alloc, &[], &[1])? == (4, 1));
    assert!(rt; streamed(alloc, &[], &[2])? == (4, 2));
    assert!(rt; streamed(alloc, &[], &[3])? == (0, 3));
    Ok(())
}

// Whether the first lines are answered so over a store whose call of this number fails.
fn fails_so(
    alloc: Global,
    call: u64,
    applied: bool,
    code: u8,
    parts: &[(&str, u64)],
) -> Result<bool, Fail> {
    let (found, written) = served(alloc, failing_table(alloc, call, applied)?, FIRST_LINES)?;
    let wanted = replies(alloc, parts)?;
    Ok(found == code && written.as_slice() == wanted.as_slice())
}

// Opening makes one list and reads four objects.
#[test]
fn a_store_that_fails_at_the_opening_ends_the_run_before_a_line(
    rt: HostRuntime,
) -> Result<(), Fail> {
    for call in 0..5 {
        assert!(rt; fails_so(rt.alloc(), call, false, 5, &[])?, "call {call}");
    }
    Ok(())
}

#[test]
fn a_change_that_failed_is_settled_before_the_next_ask(rt: HostRuntime) -> Result<(), Fail> {
    let alloc = rt.alloc();
    for change in 0..6 {
        let call = change + 6;
        let undone = [(NOTHING, 0), (FAULT, change), (NOTHING, change)];
        let done = [(NOTHING, 0), (FAULT, change), (NOTHING, change + 1)];
        assert!(rt;
            fails_so(alloc, call, false, 0, &undone)?,
            "change {change}"
        );
        assert!(rt;
            fails_so(alloc, call, true, 0, &done)?,
            "change {change}, applied"
        );
    }
    Ok(())
}

#[test]
fn a_completion_that_failed_shows_the_file_exactly_where_it_was_applied(
    rt: HostRuntime,
) -> Result<(), Fail> {
    let alloc = rt.alloc();
    let undone = [(NOTHING, 0), (FAULT, 6), (NOTHING, 6)];
    let done = [(NOTHING, 0), (FAULT, 6), (FOUND, 7)];
    assert!(rt; fails_so(alloc, 12, false, 0, &undone)?);
    assert!(rt; fails_so(alloc, 12, true, 0, &done)?);
    Ok(())
}

#[test]
fn a_read_that_failed_is_told_and_the_run_goes_on(rt: HostRuntime) -> Result<(), Fail> {
    let alloc = rt.alloc();
    let first = [(FAULT, 0), (COMMITTED, 7), (FOUND, 7)];
    let told = [(NOTHING, 0), (COMMITTED, 7), (FAULT, 7)];
    let all = [(NOTHING, 0), (COMMITTED, 7), (FOUND, 7)];
    // The first look-up reads the base, the second one the base and a log.
    assert!(rt; fails_so(alloc, 5, false, 0, &first)?);
    assert!(rt; fails_so(alloc, 13, false, 0, &told)?);
    assert!(rt; fails_so(alloc, 14, false, 0, &told)?);
    assert!(rt; fails_so(alloc, 15, false, 0, &all)?);
    Ok(())
}

// Whether a look-up in a run behind a commit that stopped at this change is answered so.
fn reopens_so(alloc: Global, change: u64, part: &str, seq: u64) -> Result<bool, Fail> {
    let store = failing_table(alloc, change.saturating_add(6), false)?;
    let stopped = run(alloc, store, &["serve", "work"], FIRST_LINES)?;
    let (code, written) = served(alloc, stopped.store, LOOK_UP)?;
    let wanted = replies(alloc, &[(part, seq)])?;
    Ok(code == 0 && written.as_slice() == wanted.as_slice())
}

#[test]
fn a_commit_that_stopped_is_taken_away_and_a_complete_one_is_shown(
    rt: HostRuntime,
) -> Result<(), Fail> {
    for change in 0..7 {
        assert!(rt;
            reopens_so(rt.alloc(), change, NOTHING, change)?,
            "change {change}"
        );
    }
    assert!(rt; reopens_so(rt.alloc(), 7, FOUND, 0)?);
    Ok(())
}
