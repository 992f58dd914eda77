ghost use Rattle.std.specs.Prelude.{◌≡◌, ◌≢◌, Some};

use crate::command::{Ended, command};
use crate::{code_of, message_of};
use mx_base::Instant;
use mx_open::init;
use mx_schema::Schema;
use mx_store::{BytesSink, BytesSource, MemStore, Named, Store};
use std::alloc::Global;
use std::marker::Brand;
use std::test::Fail;

pub(crate) const MOMENT: u64 = 20_250_101_000_000_000;

// A look-up, a commit and the look-up once more.
pub(crate) static FIRST_LINES: &[u8] =
    b"{\"ask\":\"files\",\"partition\":\"2024-01-01\"}\n{\"ask\":\"commit\",\"files\":[{\"file\":\"11111111-1111-4111-8111-111111111111\",\"partition\":\"2024-01-01\",\"rows\":[[\"a\",1]]}]}\n{\"ask\":\"files\",\"partition\":\"2024-01-01\"}\n";

pub(crate) static FIRST_REPLIES: &[u8] =
    b"{\"at\":\"00000000000000000\",\"files\":[],\"ok\":\"files\",\"seq\":0}\n{\"files\":[\"2024-01-01/11111111-1111-4111-8111-111111111111_0-0-0_20250101000000000.parquet\"],\"instant\":\"20250101000000000\",\"ok\":\"commit\",\"seq\":7}\n{\"at\":\"20250101000000000\",\"files\":[{\"name\":\"11111111-1111-4111-8111-111111111111_0-0-0_20250101000000000.parquet\",\"size\":693}],\"ok\":\"files\",\"seq\":7}\n";

// The reply of a look-up that finds nothing, and of one that finds the file, without the number of changes.
pub(crate) const NOTHING: &str =
    "{\"at\":\"00000000000000000\",\"files\":[],\"ok\":\"files\",\"seq\":";

pub(crate) const FOUND: &str =
    "{\"at\":\"20250101000000000\",\"files\":[{\"name\":\"11111111-1111-4111-8111-111111111111_0-0-0_20250101000000000.parquet\",\"size\":693}],\"ok\":\"files\",\"seq\":";

pub(crate) const COMMITTED: &str =
    "{\"files\":[\"2024-01-01/11111111-1111-4111-8111-111111111111_0-0-0_20250101000000000.parquet\"],\"instant\":\"20250101000000000\",\"ok\":\"commit\",\"seq\":";

// What a command leaves.
#[derive(Drop)]
pub(crate) struct Left {
    pub(crate) code: u8,
    pub(crate) message: String,
    pub(crate) written: Vec<u8>,
    pub(crate) store: MemStore,
}

fn run_over<N: Named>(
    alloc: Global,
    now: Instant,
    store: MemStore,
    words: &[String],
    mut source: BytesSource,
    mut sink: BytesSink,
) -> Result<Left, Fail>
    requires meant { now ≢ 0 }
    requires opening { N.opening ≡ Some store.changes }
    requires count { N.count ≡ store.faults }
    requires moment { N.moment ≡ now }
{
    let Ended {
        status,
        store,
        answers: _,
    } = command::<MemStore, BytesSource, BytesSink, N>(
        alloc,
        words,
        now,
        store,
        &mut source,
        &mut sink,
    );
    let message = match message_of(alloc, &status)? {
        Some(text) => text,
        None => String::new(alloc),
    };
    Ok(Left {
        code: code_of(&status),
        message,
        written: Vec::from_slice(alloc, sink.bytes())?,
        store,
    })
}

fn words_of(alloc: Global, words: &[&str]) -> Result<Vec<String>, Fail> {
    let mut owned = Vec::new(alloc);
    for word in words {
        owned.push(String::from_str(alloc, *word)?)?;
    }
    Ok(owned)
}

// The input, cut at these places, of which these calls fail.
pub(crate) fn input(
    alloc: Global,
    bytes: &[u8],
    cuts: &[usize],
    fails: &[u64],
) -> Result<BytesSource, Fail> {
    Ok(BytesSource::over(
        Vec::from_slice(alloc, bytes)?,
        Vec::from_slice(alloc, cuts)?,
        Vec::from_slice(alloc, fails)?,
    ))
}

// The call at the moment of this number.
pub(crate) fn run_at(
    alloc: Global,
    moment: u64,
    store: MemStore,
    words: &[&str],
    source: BytesSource,
    sink: BytesSink,
) -> Result<Left, Fail> {
    let words = words_of(alloc, words)?;
    match Instant::new(moment) {
        Some(now) if now.number() != 0 => {
            run_over::<Brand>(alloc, now, store, words.as_slice(), source, sink)
        }
        _ => Err(Fail::new("the moment is one")),
    }
}

pub(crate) fn run(
    alloc: Global,
    store: MemStore,
    words: &[&str],
    lines: &[u8],
) -> Result<Left, Fail> {
    let source = input(alloc, lines, &[], &[])?;
    let sink = BytesSink::empty(alloc, Vec::new(alloc));
    run_at(alloc, MOMENT, store, words, source, sink)
}

// The call at the last moment.
pub(crate) fn run_late(alloc: Global, store: MemStore, lines: &[u8]) -> Result<Left, Fail> {
    let source = input(alloc, lines, &[], &[])?;
    let sink = BytesSink::empty(alloc, Vec::new(alloc));
    let words = ["serve", "work"];
    run_at(alloc, 99_999_999_999_999_999, store, &words, source, sink)
}

// A store of a new table, which made five calls: a list and four creates.
pub(crate) fn new_table(alloc: Global) -> Result<MemStore, Fail> {
    let mut store = MemStore::empty(alloc);
    let Ok(schema) = Schema::parse(alloc, "a:int64") else {
        return Err(Fail::new("the schema is one"));
    };
    match init(alloc, &mut store, &schema) {
        Ok(()) => Ok(store),
        Err(_) => Err(Fail::new("the table is made")),
    }
}

// The bytes that were written, and the exit status.
pub(crate) fn served(alloc: Global, store: MemStore, lines: &[u8]) -> Result<(u8, Vec<u8>), Fail> {
    let left = run(alloc, store, &["serve", "work"], lines)?;
    Ok((left.code, left.written))
}

// These beginnings of replies, each with its number of changes.
pub(crate) fn replies(alloc: Global, parts: &[(&str, u64)]) -> Result<Vec<u8>, Fail> {
    let mut text = String::new(alloc);
    for &(part, seq) in parts {
        text.push_str(format!(in alloc; "{part}{seq}}}\n")?.as_str())?;
    }
    Ok(Vec::from_slice(alloc, text.as_bytes())?)
}

#[test]
fn a_file_is_shown_once_its_commit_is_complete(rt: HostRuntime) -> Result<(), Fail> {
    let alloc = rt.alloc();
    let (code, written) = served(alloc, new_table(alloc)?, FIRST_LINES)?;
    assert!(rt; code == 0);
    assert_eq!(rt; written.as_slice(), FIRST_REPLIES);
    Ok(())
}

// A commit, and look-ups before it, at it, and above the newest one.
static LINES_AT: &[u8] =
    b"{\"ask\":\"commit\",\"files\":[{\"file\":\"11111111-1111-4111-8111-111111111111\",\"partition\":\"2024-01-01\",\"rows\":[[\"a\",1]]}],\"session\":64}\n{\"ask\":\"files\",\"at\":\"00000000000000000\",\"partition\":\"2024-01-01\"}\n{\"ask\":\"files\",\"at\":\"20250101000000000\",\"partition\":\"2024-01-01\",\"session\":2}\n{\"ask\":\"files\",\"at\":\"99999999999999999\",\"partition\":\"2024-01-01\"}\n";

const FOUND_ABOVE: &str =
    "{\"at\":\"99999999999999999\",\"files\":[{\"name\":\"11111111-1111-4111-8111-111111111111_0-0-0_20250101000000000.parquet\",\"size\":693}],\"ok\":\"files\",\"seq\":";

#[test]
fn a_look_up_shows_the_files_of_the_instant_that_it_asks_for(rt: HostRuntime) -> Result<(), Fail> {
    let alloc = rt.alloc();
    let (code, written) = served(alloc, new_table(alloc)?, LINES_AT)?;
    let parts = [(COMMITTED, 7), (NOTHING, 7), (FOUND, 7), (FOUND_ABOVE, 7)];
    assert!(rt; code == 0);
    assert_eq!(rt; written.as_slice(), replies(alloc, &parts)?.as_slice());
    Ok(())
}

// The partitions of a new table, a commit of two files in two partitions, a look-up of each and of the partitions, and a
// commit of no files.
static LINES_OF_TWO: &[u8] =
    b"{\"ask\":\"partitions\"}\n{\"ask\":\"commit\",\"files\":[{\"file\":\"22222222-2222-4222-8222-222222222222\",\"partition\":\"2024-01-02\",\"rows\":[[\"b\",2]]},{\"file\":\"11111111-1111-4111-8111-111111111111\",\"partition\":\"2024-01-01\",\"rows\":[[\"a\",1]]}]}\n{\"ask\":\"files\",\"partition\":\"2024-01-01\"}\n{\"ask\":\"files\",\"partition\":\"2024-01-02\"}\n{\"ask\":\"partitions\",\"session\":2}\n{\"ask\":\"partitions\",\"at\":\"00000000000000000\"}\n{\"ask\":\"commit\",\"files\":[]}\n";

const COMMITTED_TWO: &str =
    "{\"files\":[\"2024-01-02/22222222-2222-4222-8222-222222222222_0-0-0_20250101000000000.parquet\",\"2024-01-01/11111111-1111-4111-8111-111111111111_0-0-0_20250101000000000.parquet\"],\"instant\":\"20250101000000000\",\"ok\":\"commit\",\"seq\":";

const FOUND_OTHER: &str =
    "{\"at\":\"20250101000000000\",\"files\":[{\"name\":\"22222222-2222-4222-8222-222222222222_0-0-0_20250101000000000.parquet\",\"size\":693}],\"ok\":\"files\",\"seq\":";

const NO_PARTITIONS: &str =
    "{\"at\":\"00000000000000000\",\"ok\":\"partitions\",\"partitions\":[],\"seq\":";

const TWO_PARTITIONS: &str =
    "{\"at\":\"20250101000000000\",\"ok\":\"partitions\",\"partitions\":[\"2024-01-01\",\"2024-01-02\"],\"seq\":";

const COMMITTED_NONE: &str =
    "{\"files\":[],\"instant\":\"20250101000000001\",\"ok\":\"commit\",\"seq\":";

#[test]
fn a_commit_of_two_files_is_eight_changes_and_one_of_none_five(
    rt: HostRuntime,
) -> Result<(), Fail> {
    let alloc = rt.alloc();
    let (code, written) = served(alloc, new_table(alloc)?, LINES_OF_TWO)?;
    let parts = [
        (NO_PARTITIONS, 0),
        (COMMITTED_TWO, 8),
        (FOUND, 8),
        (FOUND_OTHER, 8),
        (TWO_PARTITIONS, 8),
        (NO_PARTITIONS, 8),
        (COMMITTED_NONE, 13),
    ];
    assert!(rt; code == 0);
    assert_eq!(rt; written.as_slice(), replies(alloc, &parts)?.as_slice());
    Ok(())
}

// A commit of so many files, each of a group of its own, and then of the first one once more.
fn commit_of(alloc: Global, count: u32) -> Result<String, Fail> {
    let mut line = String::from_str(alloc, "{\"ask\":\"commit\",\"files\":[")?;
    for number in 0..count {
        line.push_str(format!(in alloc;
            "{{\"file\":\"{number:08}-1111-4111-8111-111111111111\",\"partition\":\"2024-01-01\",\"rows\":[]}},"
        )?.as_str())?;
    }
    line.push_str(
        "{\"file\":\"00000000-1111-4111-8111-111111111111\",\"partition\":\"2024-01-01\",\"rows\":[]}]}\n",
    )?;
    Ok(line)
}

const TOO_MANY: &str = "{\"count\":17,\"refused\":\"TooMany\",\"seq\":0,\"what\":\"files\"}\n";

const DOUBLE: &str =
    "{\"file\":\"00000000-1111-4111-8111-111111111111\",\"partition\":\"2024-01-01\",\"refused\":\"DuplicateGroup\",\"seq\":0}\n";

#[test]
fn seventeen_files_and_one_group_twice_are_refused_and_change_nothing(
    rt: HostRuntime,
) -> Result<(), Fail> {
    let alloc = rt.alloc();
    for (count, reply) in [(16, TOO_MANY), (2, DOUBLE)] {
        let line = commit_of(alloc, count)?;
        let left = run(
            alloc,
            new_table(alloc)?,
            &["serve", "work"],
            line.as_bytes(),
        )?;
        assert!(rt; left.code == 0);
        assert_eq!(rt; left.written.as_slice(), reply.as_bytes());
        assert_eq!(rt; left.store.journal().len(), 4);
    }
    Ok(())
}

#[test]
fn a_line_that_is_no_ask_is_refused_and_the_next_is_served(rt: HostRuntime) -> Result<(), Fail> {
    let alloc = rt.alloc();
    let lines =
        b"nonsense\n\n\xff\xfe\n{\"ask\":\"commit\",\"files\":[1]}\n{\"ask\":\"files\",\"partition\":\"P\"}";
    let (code, written) = served(alloc, new_table(alloc)?, lines)?;
    let line = "{\"refused\":\"line\",\"seq\":";
    let parts = [(line, 0), (line, 0), (line, 0), (line, 0), (NOTHING, 0)];
    let wanted = replies(alloc, &parts)?;
    assert!(rt; code == 0);
    assert_eq!(rt; written.as_slice(), wanted.as_slice());
    Ok(())
}
