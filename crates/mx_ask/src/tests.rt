use super::*;
use crate::rows_tests::{Given, Rows, are};
use mx_base::Partition;
use std::alloc::Global;
use std::test::Fail;

/// Commits of one file, and its rows.
const COMMITS: [(&[u8], Rows); 5] = [
    (
        b"{\"ask\":\"commit\",\"files\":[{\"file\":\"11111111-1111-4111-8111-111111111111\",\"partition\":\"2024-01-01\",\"rows\":[[\"a,b\"]]}]}",
        &[&[Given::Text("a,b")]],
    ),
    (
        b" { \"files\" : [ { \"rows\" : [ ] , \"partition\" : \"2024-01-01\" , \"file\" : \"11111111-1111-4111-8111-111111111111\" } ] , \"ask\" : \"commit\" } \r",
        &[],
    ),
    (
        b"{\"\\u0061sk\":\"commit\",\"files\":[{\"file\":\"11111111-1111-4111-8111-11111111111\\u0031\",\"partition\":\"2024\\u002d01-01\",\"r\\u006fws\":[[\"\\u0061\\n\\u0000\\u00e9\"]]}]}",
        &[&[Given::Text("a\n\0\u{e9}")]],
    ),
    (
        b"{\"ask\":1.5,\"files\":[],\"ask\":\"commit\",\"files\":[{\"file\":\"11111111-1111-4111-8111-111111111111\",\"partition\":\"2024-01-01\",\"rows\":[[\"twice\"]]}]}",
        &[&[Given::Text("twice")]],
    ),
    (
        b"{\"ask\":\"commit\",\"files\":[{\"rows\":0,\"file\":\"11111111-1111-4111-8111-111111111111\",\"partition\":\"/\",\"partition\":\"2024-01-01\",\"rows\":[[\"\xf0\x9f\x98\x80\"]]}]}",
        &[&[Given::Text("\u{1f600}")]],
    ),
];

#[test]
fn a_commit_has_exactly_its_fields_in_any_order_and_spacing(rt: HostRuntime) -> Result<(), Fail> {
    let alloc = rt.alloc();
    let file: &[(&str, &str)] = &[("11111111-1111-4111-8111-111111111111", "2024-01-01")];
    for (at, (line, rows)) in COMMITS.iter().enumerate() {
        assert_eq!(rt; places(alloc, line, file)?, true, "line {at}");
        assert_eq!(rt; first_rows(alloc, line, rows), true, "line {at}");
    }
    Ok(())
}

#[test]
fn a_look_at_files_has_exactly_its_fields_in_any_order_and_spacing(
    rt: HostRuntime,
) -> Result<(), Fail> {
    let alloc = rt.alloc();
    let looks: [(&[u8], &[u8]); 4] = [
        (
            b"{\"ask\":\"files\",\"partition\":\"2024-01-01\"}",
            b"2024-01-01",
        ),
        (
            b"\t{\"partition\":\"Zz9-_.=\",\"ask\":\"files\"}",
            b"Zz9-_.=",
        ),
        (
            b"{\"partition\":[[1.0]],\"ask\":\"f\\u0069les\",\"partition\":\"0\"}",
            b"0",
        ),
        (
            b"{\"ask\":\"files\",\"partition\":\"0123456789012345678901234567890123456789012345678901234567890123\"}",
            b"0123456789012345678901234567890123456789012345678901234567890123",
        ),
    ];
    for (line, name) in looks {
        match look_at_files(alloc, line) {
            Some((partition, _)) => assert_eq!(rt; partition.as_str().as_bytes(), name),
            None => assert!(rt; false, "no look at {name:?}"),
        }
    }
    Ok(())
}

/// Commits, with the ids and the partitions of their files.
const FILES: [(&[u8], &[(&str, &str)]); 4] = [
    (b"{\"ask\":\"commit\",\"files\":[]}", &[]),
    (b"{\"files\":[ ],\"ask\":\"commit\"}", &[]),
    (
        b"{\"ask\":\"commit\",\"files\":[{\"file\":\"22222222-2222-4222-8222-222222222222\",\"partition\":\"b\",\"rows\":[[\"x\"]]} , {\"partition\":\"a\",\"rows\":[],\"file\":\"11111111-1111-4111-8111-111111111111\"}]}",
        &[
            ("22222222-2222-4222-8222-222222222222", "b"),
            ("11111111-1111-4111-8111-111111111111", "a"),
        ],
    ),
    (
        b"{\"ask\":\"commit\",\"files\":[{\"file\":\"11111111-1111-4111-8111-111111111111\",\"partition\":\"a\",\"rows\":[[\"x\"]]},{\"file\":\"11111111-1111-4111-8111-111111111111\",\"partition\":\"a\",\"rows\":[[\"x\"]]},{\"file\":\"11111111-1111-4111-8111-111111111111\",\"partition\":\"a\",\"rows\":[[\"y\"]]}]}",
        &[
            ("11111111-1111-4111-8111-111111111111", "a"),
            ("11111111-1111-4111-8111-111111111111", "a"),
            ("11111111-1111-4111-8111-111111111111", "a"),
        ],
    ),
];

#[test]
fn a_commit_has_any_number_of_files_in_their_order(rt: HostRuntime) -> Result<(), Fail> {
    for (at, (line, expected)) in FILES.iter().enumerate() {
        assert_eq!(rt; places(rt.alloc(), line, expected)?, true, "line {at}");
    }
    Ok(())
}

#[test]
fn a_look_at_files_is_at_an_instant_or_at_the_newest_commit(rt: HostRuntime) -> Result<(), Fail> {
    let alloc = rt.alloc();
    let cases: [(&[u8], Option<u64>); 5] = [
        (b"{\"ask\":\"files\",\"partition\":\"a\"}", None),
        (
            b"{\"ask\":\"files\",\"at\":\"20250101000000001\",\"partition\":\"a\"}",
            Some(20250101000000001),
        ),
        (
            b" { \"partition\" : \"a\" , \"\\u0061t\" : \"0000000000000000\\u0030\" , \"ask\" : \"files\" } ",
            Some(0),
        ),
        (
            b"{\"session\":2,\"partition\":\"a\",\"at\":\"99999999999999999\",\"ask\":\"files\"}",
            Some(99999999999999999),
        ),
        (
            b"{\"ask\":\"files\",\"at\":null,\"partition\":\"a\",\"at\":\"00000000000000001\"}",
            Some(1),
        ),
    ];
    for (line, expected) in cases {
        match look_at_files(alloc, line) {
            Some((partition, at)) => {
                assert_eq!(rt; partition.as_str(), "a");
                assert_eq!(rt; at, expected);
            }
            None => assert!(rt; false, "no look at {expected:?}"),
        }
    }
    Ok(())
}

/// Looks at the partitions, with their instants and sessions.
const LOOKS_AT_PARTITIONS: [(&[u8], Option<u64>, u32); 11] = [
    (b"{\"ask\":\"partitions\"}", None, 1),
    (
        b"{\"ask\":\"partitions\",\"at\":\"20250101000000001\"}",
        Some(20250101000000001),
        1,
    ),
    (b"{\"ask\":\"partitions\",\"session\":64}", None, 64),
    (
        b"{\"ask\":\"partitions\",\"at\":\"00000000000000000\",\"session\":9}",
        Some(0),
        9,
    ),
    (
        b"{\"session\":1,\"at\":\"99999999999999999\",\"ask\":\"partitions\"}",
        Some(99999999999999999),
        1,
    ),
    (
        b" { \"\\u0061t\" : \"0000000000000000\\u0031\" , \"session\" : 2 , \"ask\" : \"p\\u0061rtitions\" } \r",
        Some(1),
        2,
    ),
    (b"\t{\"session\" : 3,\"ask\":\"partitions\"}", None, 3),
    (
        b"{\"ask\":\"partitions\",\"at\":null,\"at\":\"00000000000000005\"}",
        Some(5),
        1,
    ),
    (
        b"{\"at\":\"00000000000000005\",\"ask\":\"partitions\",\"at\":\"00000000000000006\"}",
        Some(6),
        1,
    ),
    (
        b"{\"session\":65,\"ask\":\"partitions\",\"session\":4}",
        None,
        4,
    ),
    (b"{\"ask\":\"files\",\"ask\":\"partitions\"}", None, 1),
];

#[test]
fn a_look_at_partitions_may_have_an_instant_and_a_session(rt: HostRuntime) -> Result<(), Fail> {
    let alloc = rt.alloc();
    for (line, at, session) in LOOKS_AT_PARTITIONS {
        assert_eq!(rt; look_at_partitions(alloc, line), Some((at, session)));
    }
    Ok(())
}

#[test]
fn an_ask_is_of_the_session_that_it_tells_or_of_session_1(rt: HostRuntime) -> Result<(), Fail> {
    let alloc = rt.alloc();
    let cases: [(&[u8], u32); 8] = [
        (b"{\"ask\":\"files\",\"partition\":\"a\"}", 1),
        (b"{\"ask\":\"files\",\"partition\":\"a\",\"session\":1}", 1),
        (
            b"{\"session\" : 64 , \"ask\":\"files\",\"partition\":\"a\"}",
            64,
        ),
        (
            b"{\"ask\":\"files\",\"at\":\"00000000000000000\",\"partition\":\"a\",\"session\":9}",
            9,
        ),
        (
            b"{\"ask\":\"files\",\"partition\":\"a\",\"session\":65,\"session\":2}",
            2,
        ),
        (b"{\"ask\":\"commit\",\"files\":[]}", 1),
        (b"{\"ask\":\"commit\",\"files\":[],\"session\":1}", 1),
        (
            b"{\"ask\":\"commit\",\"\\u0073ession\":64,\"files\":[]}",
            64,
        ),
    ];
    for (line, session) in cases {
        assert_eq!(rt; ask_of(alloc, line)?.session, session);
    }
    Ok(())
}

// Whether a commit's files have these ids and partitions.
fn places(alloc: Global, line: &[u8], expected: &[(&str, &str)]) -> Result<bool, Fail> {
    let AskKind::Commit { files } = ask_of(alloc, line)?.kind else {
        return Ok(false);
    };
    if files.len() != expected.len() {
        return Ok(false);
    }
    for (file, (id, partition)) in files.as_slice().iter().zip(expected) {
        if file.file.to_text(alloc)?.as_str() != *id || file.partition.as_str() != *partition {
            return Ok(false);
        }
    }
    Ok(true)
}

// Whether the first file of a commit has these rows.
fn first_rows(alloc: Global, line: &[u8], expected: Rows) -> bool {
    match ask_of(alloc, line) {
        Ok(
            Ask {
                kind: AskKind::Commit { files },
                ..
            },
        ) => match files.as_slice() {
            [file, ..] => are(file.rows.as_slice(), expected),
            [] => false,
        },
        _ => false,
    }
}

// The partition and the instant of a look at files.
fn look_at_files(alloc: Global, line: &[u8]) -> Option<(Partition, Option<u64>)> {
    let AskKind::LookUp { question, at } = ask_of(alloc, line).ok()?.kind else {
        return None;
    };
    match question {
        Question::Files { partition } => Some((partition, at.map(|at| at.number()))),
        Question::Partitions => None,
    }
}

// The instant and the session of a look at the partitions.
fn look_at_partitions(alloc: Global, line: &[u8]) -> Option<(Option<u64>, u32)> {
    let Ask { session, kind } = ask_of(alloc, line).ok()?;
    let AskKind::LookUp { question, at } = kind else {
        return None;
    };
    match question {
        Question::Partitions => Some((at.map(|at| at.number()), session)),
        Question::Files { .. } => None,
    }
}
