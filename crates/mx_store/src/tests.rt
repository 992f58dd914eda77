use crate::{
    BytesSink, BytesSource, Failed, MemStore, QuietStore, Sink, Source, Store, StoreError,
};
use mx_base::Path;
use mx_lists::{Bytes, Listed};
use std::alloc::Global;
use std::test::Fail;

#[derive(Clone, Copy, Debug)]
enum Call {
    Create(&'static str, &'static [u8]),
    Put(&'static str, &'static [u8]),
    Delete(&'static str),
    Get(&'static str),
    GetRange(&'static str, u64, u64),
    List(&'static str),
}

// What the call answers: "yes" or "no", the bytes that it found or "-", the paths with a space behind each, or "failed".
fn answer<S: Store>(alloc: Global, store: &mut S, call: Call) -> Result<Vec<u8>, Fail> {
    match call {
        Call::Create(path, bytes) => {
            let path = Path::parse(alloc, path)?;
            flag(alloc, store.create(alloc, &path, bytes))
        }
        Call::Put(path, bytes) => {
            let path = Path::parse(alloc, path)?;
            flag(alloc, store.put(alloc, &path, bytes).map(|_| true))
        }
        Call::Delete(path) => {
            let path = Path::parse(alloc, path)?;
            flag(alloc, store.delete(alloc, &path))
        }
        Call::Get(path) => {
            let path = Path::parse(alloc, path)?;
            found(alloc, store.get(alloc, &path))
        }
        Call::GetRange(path, at, len) => {
            let path = Path::parse(alloc, path)?;
            found(alloc, store.get_range(alloc, &path, at, len))
        }
        Call::List(prefix) => listed(alloc, store.list(alloc, prefix)),
    }
}

fn flag(alloc: Global, answered: Result<bool, StoreError>) -> Result<Vec<u8>, Fail> {
    let word: &[u8] = match answered {
        Ok(true) => b"yes",
        Ok(false) => b"no",
        Err(StoreError::Failed) => b"failed",
        Err(StoreError::NoMemory) => b"no memory",
    };
    Ok(Vec::from_slice(alloc, word)?)
}

fn found(alloc: Global, answered: Result<Option<Bytes>, StoreError>) -> Result<Vec<u8>, Fail> {
    match answered {
        Ok(Some(bytes)) => Ok(bytes.into_vec()),
        Ok(None) => Ok(Vec::from_slice(alloc, b"-")?),
        Err(e) => flag(alloc, Err(e)),
    }
}

fn listed(alloc: Global, answered: Result<Listed<Path>, StoreError>) -> Result<Vec<u8>, Fail> {
    let paths = match answered {
        Ok(paths) => paths,
        Err(e) => return flag(alloc, Err(e)),
    };
    let mut line = Vec::new(alloc);
    for path in paths.as_slice() {
        line.extend_from_slice(path.as_str().as_bytes())?;
        line.push(b' ')?;
    }
    Ok(line)
}

// The calls of one store in turn, with what each answers.
const CALLS: [(Call, &[u8]); 30] = [
    (Call::Create("b/2", b"two"), b"yes"),
    (Call::Create("b/2", b"other"), b"no"),
    (Call::Get("b/2"), b"two"),
    (Call::Put("b/2", b"deux"), b"yes"),
    (Call::Get("b/2"), b"deux"),
    (Call::Put("b/10", b"ten"), b"yes"),
    (Call::Put("b/1", b"one"), b"yes"),
    (Call::Create("a", b"x"), b"yes"),
    (Call::List("b/"), b"b/1 b/10 b/2 "),
    (Call::GetRange("b/2", 1, 2), b"eu"),
    (Call::GetRange("b/2", 2, 9), b"ux"),
    (Call::GetRange("b/2", 4, 1), b""),
    (Call::GetRange("b/2", 9, 1), b""),
    (Call::GetRange("c", 0, 1), b"-"),
    (Call::Delete("a"), b"yes"),
    (Call::Delete("a"), b"no"),
    (Call::Get("a"), b"-"),
    (Call::Create("f", b"1"), b"failed"),
    (Call::Get("f"), b"-"),
    (Call::Create("f", b"2"), b"failed"),
    (Call::Get("f"), b"2"),
    (Call::Create("f", b"3"), b"failed"),
    (Call::Get("f"), b"2"),
    (Call::Delete("f"), b"failed"),
    (Call::Get("f"), b"-"),
    (Call::Delete("f"), b"failed"),
    (Call::Get("b/2"), b"failed"),
    (Call::List(""), b"b/1 b/10 b/2 "),
    (Call::Put("b/1", b"uno"), b"failed"),
    (Call::Get("b/1"), b"one"),
];

// The calls that fail, by their places, and whether a change is made all the same.
const FAILURES: [(u64, bool); 8] = [
    (17, false),
    (19, false),
    (19, true),
    (21, true),
    (23, true),
    (25, true),
    (26, true),
    (28, false),
];

fn failing(alloc: Global) -> Result<MemStore, Fail> {
    let mut store = MemStore::empty(alloc);
    for (call, applied) in FAILURES {
        store.fail(call, applied)?;
    }
    Ok(store)
}

#[test]
fn a_store_in_memory_answers_by_its_journal_and_fails_where_it_is_told(
    rt: HostRuntime,
) -> Result<(), Fail> {
    let alloc = rt.alloc();
    let mut store = failing(alloc)?;
    for (call, expected) in CALLS {
        assert_eq!(rt;
            answer(alloc, &mut store, call)?.as_slice(),
            expected,
            "at {call:?}"
        );
    }
    assert_eq!(rt; store.journal().len(), 8);
    assert_eq!(rt; store.reads().len(), 14);
    Ok(())
}

#[test]
fn a_store_that_tells_nothing_answers_and_fails_alike(rt: HostRuntime) -> Result<(), Fail> {
    let alloc = rt.alloc();
    let mut store = QuietStore::over(failing(alloc)?);
    for (call, expected) in CALLS {
        assert_eq!(rt;
            answer(alloc, &mut store, call)?.as_slice(),
            expected,
            "at {call:?}"
        );
    }
    Ok(())
}

#[test]
fn a_source_over_bytes_stops_at_its_cuts_and_fails_by_its_calls(
    rt: HostRuntime,
) -> Result<(), Fail> {
    let alloc = rt.alloc();
    let cases: [(usize, Result<&[u8], Failed>); 7] = [
        (8, Ok(b"abc")),
        (8, Err(Failed)),
        (8, Ok(b"de")),
        (2, Ok(b"fg")),
        (0, Ok(b"")),
        (4, Ok(b"h")),
        (4, Ok(b"")),
    ];
    let mut source = BytesSource::over(
        Vec::from_slice(alloc, b"abcdefgh")?,
        Vec::from_slice(alloc, &[3, 5, 3, 20])?,
        Vec::from_slice(alloc, &[1])?,
    );
    let mut buf = [0; 8];
    for (room, expected) in cases {
        assert!(rt; room <= 8);
        let read = source.read(&mut buf[..room]).map(|count| &buf[..count]);
        assert_eq!(rt; read, expected, "with room for {room}");
    }
    Ok(())
}

#[test]
fn a_sink_into_memory_keeps_what_was_written_and_fails_by_its_calls(
    rt: HostRuntime,
) -> Result<(), Fail> {
    let alloc = rt.alloc();
    let cases: [(&[u8], Result<usize, Failed>); 4] = [
        (b"ab", Ok(2)),
        (b"cd", Err(Failed)),
        (b"", Ok(0)),
        (b"ef", Ok(2)),
    ];
    let mut sink = BytesSink::empty(alloc, Vec::from_slice(alloc, &[1])?);
    for (piece, expected) in cases {
        assert_eq!(rt; sink.write(piece), expected, "at {piece:?}");
    }
    assert_eq!(rt; sink.bytes(), b"abef".as_slice());
    Ok(())
}
