use super::*;
use std::alloc::Global;
use std::test::Fail;

/// Lines that are no asks.
const NO_ASKS: [&[u8]; 42] = [
    b"",
    b"null",
    b"1",
    b"[]",
    b"{}",
    b"\"files\"",
    b"[\"files\",\"2024-01-01\"]",
    b"{\"ask\":\"files\",\"partition\":\"2024-01-01\"",
    b"{\"ask\":\"files\",\"partition\":\"2024-01-01\",}",
    b"{\"ask\":\"files\",\"partition\":\"2024-01-01\"} 1",
    b"{\"ask\":\"files\"}",
    b"{\"partition\":\"2024-01-01\"}",
    b"{\"ask\":\"files\",\"partition\":\"2024-01-01\",\"a\":\"\"}",
    b"{\"ask\":\"files\",\"Partition\":\"2024-01-01\"}",
    b"{\"ask\":\"files\",\"files\":\"2024-01-01\"}",
    b"{\"ask\":\"Files\",\"partition\":\"2024-01-01\"}",
    b"{\"ask\":\"wait\",\"partition\":\"2024-01-01\"}",
    b"{\"ask\":\"commit\",\"partition\":\"2024-01-01\"}",
    b"{\"ask\":null,\"partition\":\"2024-01-01\"}",
    b"{\"ask\":\"files\",\"partition\":20240101}",
    b"{\"ask\":\"files\",\"partition\":[\"2024-01-01\"]}",
    b"{\"ask\":\"files\",\"partition\":\"\"}",
    b"{\"ask\":\"files\",\"partition\":\"2024/01\"}",
    b"{\"ask\":\"files\",\"partition\":\".hoodie\"}",
    b"{\"ask\":\"files\",\"partition\":\"2024-01-01\\u0000\"}",
    b"{\"ask\":\"files\",\"partition\":\"01234567890123456789012345678901234567890123456789012345678901234\"}",
    b"{\"ask\":\"files\",\"partition\":\"2024-01-01\",\"partition\":\"/\"}",
    b"{\"ask\":\"files\",\"partition\":\"2024-01-01\xff\"}",
    b"{\"ask\":\"commit\"}",
    b"{\"ask\":\"commit\",\"files\":null}",
    b"{\"ask\":\"commit\",\"files\":[1]}",
    b"{\"ask\":\"commit\",\"files\":{\"file\":\"11111111-1111-4111-8111-111111111111\",\"partition\":\"2024-01-01\",\"rows\":[]}}",
    b"{\"ask\":\"commit\",\"files\":[{\"file\":\"11111111-1111-4111-8111-111111111111\",\"partition\":\"2024-01-01\",\"rows\":[]}],\"sessions\":1}",
    b"{\"ask\":\"commit\",\"files\":[],\"partition\":\"2024-01-01\"}",
    b"{\"ask\":\"commit\",\"at\":\"20250101000000000\",\"files\":[]}",
    b"{\"ask\":\"commit\",\"files\":[{\"file\":\"11111111-1111-4111-8111-111111111111\",\"partition\":\"2024-01-01\",\"rows\":[]},null]}",
    b"{\"ask\":\"commit\",\"files\":[{\"file\":\"11111111-1111-4111-8111-111111111111\",\"partition\":\"2024-01-01\",\"rows\":[]},{\"file\":\"11111111-1111-4111-8111-111111111112\",\"partition\":\"/\",\"rows\":[]}]}",
    b"{\"ask\":\"files\",\"partition\":\"2024-01-01\",\"session\":1,\"sessions\":1}",
    b"{\"ask\":\"files\",\"at\":\"20250101000000000\"}",
    b"{\"ask\":\"files\",\"at\":\"20250101000000000\",\"files\":[],\"partition\":\"2024-01-01\"}",
    b"{\"ask\":\"files\",\"files\":[{\"file\":\"11111111-1111-4111-8111-111111111111\",\"partition\":\"2024-01-01\",\"rows\":[]}]}",
    b"{\"ask\":\"commit\",\"files\":[],\"rows\":[]}",
];

#[test]
fn any_other_line_is_no_ask(rt: HostRuntime) -> Result<(), Fail> {
    let alloc = rt.alloc();
    for (at, line) in NO_ASKS.iter().enumerate() {
        assert_eq!(rt;
            refusal(alloc, line),
            Some(LineError::NotAnAsk),
            "line {at}"
        );
    }
    Ok(())
}

#[test]
fn a_file_with_other_fields_is_no_file_of_a_commit(rt: HostRuntime) -> Result<(), Fail> {
    let alloc = rt.alloc();
    let files: [&str; 15] = [
        "",
        "\"file\":\"11111111-1111-4111-8111-111111111111\",\"partition\":\"2024-01-01\"",
        "\"file\":\"11111111-1111-4111-8111-111111111111\",\"rows\":[]",
        "\"partition\":\"2024-01-01\",\"rows\":[]",
        "\"file\":\"11111111-1111-4111-8111-111111111111\",\"partition\":\"2024-01-01\",\"text\":\"\"",
        "\"file\":\"11111111-1111-4111-8111-111111111111\",\"partition\":\"2024-01-01\",\"Rows\":[]",
        "\"file\":\"11111111-1111-4111-8111-111111111111\",\"partition\":\"2024-01-01\",\"rows\":[],\"text\":\"\"",
        "\"file\":\"11111111-1111-4111-8111-111111111111\",\"partition\":\"2024-01-01\",\"text\":[],\"rows\":[]",
        "\"file\":\"11111111-1111-4111-8111-111111111111\",\"partition\":\"2024-01-01\",\"rows\":[],\"rows\":null",
        "\"file\":\"11111111-1111-4111-8111-111111111111\",\"partition\":\"2024-01-01\",\"rows\":[],\"size\":0",
        "\"file\":\"11111111-1111-4111-8111-111111111111\",\"partition\":\"_\",\"rows\":[]",
        "\"file\":\"AAAAAAAA-1111-4111-8111-111111111111\",\"partition\":\"2024-01-01\",\"rows\":[]",
        "\"file\":\"11111111111141118111111111111111\",\"partition\":\"2024-01-01\",\"rows\":[]",
        "\"file\":\"{11111111-1111-4111-8111-111111111111}\",\"partition\":\"2024-01-01\",\"rows\":[]",
        "\"file\":\"11111111-1111-4111-8111-11111111111g\",\"partition\":\"2024-01-01\",\"rows\":[]",
    ];
    for (at, file) in files.iter().enumerate() {
        let line = format!(in alloc; "{{\"ask\":\"commit\",\"files\":[{{{file}}}]}}")?;
        assert_eq!(rt;
            refusal(alloc, line.as_bytes()),
            Some(LineError::NotAnAsk),
            "file {at}"
        );
    }
    Ok(())
}

#[test]
fn a_session_is_an_integer_from_1_to_64(rt: HostRuntime) -> Result<(), Fail> {
    let alloc = rt.alloc();
    let sessions: [&str; 15] = [
        "0",
        "65",
        "-1",
        "-0",
        "1.0",
        "1.5",
        "1e0",
        "\"1\"",
        "null",
        "true",
        "[1]",
        "{}",
        "4294967297",
        "18446744073709551615",
        "18446744073709551617",
    ];
    for session in sessions {
        let look = format!(in alloc;
            "{{\"ask\":\"files\",\"partition\":\"a\",\"session\":{session}}}"
        )?;
        let commit = format!(in alloc;
            "{{\"ask\":\"commit\",\"files\":[],\"session\":{session}}}"
        )?;
        assert_eq!(rt;
            refusal(alloc, look.as_bytes()),
            Some(LineError::NotAnAsk),
            "a look-up of session {session}"
        );
        assert_eq!(rt;
            refusal(alloc, commit.as_bytes()),
            Some(LineError::NotAnAsk),
            "a commit of session {session}"
        );
    }
    Ok(())
}

#[test]
fn an_instant_to_look_at_is_a_text_of_17_digits(rt: HostRuntime) -> Result<(), Fail> {
    let alloc = rt.alloc();
    let instants: [&str; 10] = [
        "null",
        "20250101000000000",
        "0",
        "\"\"",
        "\"2025010100000000\"",
        "\"202501010000000000\"",
        "\"2025010100000000a\"",
        "\"+2025010100000000\"",
        "\" 2025010100000000\"",
        "[\"20250101000000000\"]",
    ];
    for at in instants {
        let line = format!(in alloc; "{{\"ask\":\"files\",\"at\":{at},\"partition\":\"a\"}}")?;
        assert_eq!(rt;
            refusal(alloc, line.as_bytes()),
            Some(LineError::NotAnAsk),
            "at {at}"
        );
    }
    Ok(())
}

#[test]
fn a_line_of_more_than_4_194_304_bytes_is_no_ask(rt: HostRuntime) -> Result<(), Fail> {
    let alloc = rt.alloc();
    let ask = "{\"ask\":\"files\",\"partition\":\"2024-01-01\"}";
    for (blanks, refused) in [(4_194_264, None), (4_194_265, Some(LineError::NotAnAsk))] {
        let mut line = String::from_str(alloc, ask)?;
        line.push_str(" ".repeat(alloc, blanks)?.as_str())?;
        assert_eq!(rt; refusal(alloc, line.as_bytes()), refused, "{blanks} blanks");
    }
    Ok(())
}

#[test]
fn a_look_at_partitions_has_no_other_field(rt: HostRuntime) -> Result<(), Fail> {
    let alloc = rt.alloc();
    let lines: [&[u8]; 18] = [
        b"\"partitions\"",
        b"{\"partitions\":[]}",
        b"{\"asks\":\"partitions\"}",
        b"{\"ask\":\"Partitions\"}",
        b"{\"ask\":\"partition\"}",
        b"{\"ask\":[\"partitions\"]}",
        b"{\"ask\":\"partitions\",\"a\":\"\"}",
        b"{\"ask\":\"partitions\",\"files\":[]}",
        b"{\"ask\":\"partitions\",\"partition\":\"2024-01-01\"}",
        b"{\"ask\":\"partitions\",\"partitions\":[]}",
        b"{\"ask\":\"partitions\",\"at\":\"20250101000000000\",\"partition\":\"2024-01-01\"}",
        b"{\"ask\":\"partitions\",\"session\":1,\"sessions\":1}",
        b"{\"ask\":\"partitions\",\"session\":65}",
        b"{\"ask\":\"partitions\",\"session\":null}",
        b"{\"ask\":\"partitions\",\"at\":null}",
        b"{\"ask\":\"partitions\",\"at\":20250101000000000}",
        b"{\"ask\":\"partitions\",\"at\":\"2025010100000000\",\"session\":1}",
        b"{\"ask\":\"partitions\",\"at\":\"20250101000000000\",\"at\":null}",
    ];
    for (at, line) in lines.iter().enumerate() {
        assert_eq!(rt;
            refusal(alloc, line),
            Some(LineError::NotAnAsk),
            "line {at}"
        );
    }
    Ok(())
}

fn refusal(alloc: Global, line: &[u8]) -> Option<LineError> {
    ask_of(alloc, line).err()
}
