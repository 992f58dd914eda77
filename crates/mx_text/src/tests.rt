use super::*;
use serde_json::Value;
use std::alloc::{AllocError, Global};
use std::test::Fail;

#[test]
fn a_line_that_is_taken_prints_as_the_value_that_it_is(rt: HostRuntime) -> Result<(), Fail> {
    let alloc = rt.alloc();
    let cases: [(&[u8], &[u8]); 19] = [
        (b"null", b"null"),
        (b"{\"a\":1,\"a\":2}", b"{\"a\":2}"),
        (b"{\"ask\":1.5,\"ask\":\"wait\"}", b"{\"ask\":\"wait\"}"),
        (
            b"{\"b\":[true,false],\"a\":{}}",
            b"{\"a\":{},\"b\":[true,false]}",
        ),
        (b"0", b"0"),
        (b"-1", b"-1"),
        (b"9223372036854775807", b"9223372036854775807"),
        (b"9223372036854775808", b"9223372036854775808"),
        (b"18446744073709551615", b"18446744073709551615"),
        (b"-9223372036854775808", b"-9223372036854775808"),
        (b" \t\r\n[ 1 , 2 ]\n", b"[1,2]"),
        (b"\"\\u0061\\/\"", b"\"a/\""),
        (b"\"\\ud83d\\ude00\"", b"\"\xf0\x9f\x98\x80\""),
        (
            b"\"\\u0000\\u001F\\u0008\\f\\n\\r\\t\"",
            b"\"\\u0000\\u001f\\b\\f\\n\\r\\t\"",
        ),
        (b"\"\\\"\\\\\"", b"\"\\\"\\\\\""),
        (b"\"\x7f\"", b"\"\x7f\""),
        (b"\"\xc3\xa9\"", b"\"\xc3\xa9\""),
        (b"\"\"", b"\"\""),
        (b"[]", b"[]"),
    ];
    for (line, printed) in cases {
        let json = read_line(alloc, line)?;
        assert_eq!(rt; json.value.to_string(alloc)?.as_bytes(), printed);
    }
    Ok(())
}

#[test]
fn a_line_that_is_no_json_or_holds_a_float_is_refused(rt: HostRuntime) -> Result<(), Fail> {
    let alloc = rt.alloc();
    let lines: [&[u8]; 29] = [
        b"",
        b" ",
        b"1.0",
        b"1e2",
        b"-0",
        b"0.0",
        b"{\"a\":[1.5]}",
        b"18446744073709551616",
        b"-9223372036854775809",
        b"1e999",
        b"01",
        b"+1",
        b".5",
        b"-",
        b"1 2",
        b"nul",
        b"True",
        b"[1,]",
        b"{\"a\":1,}",
        b"{\"a\"}",
        b"{a:1}",
        b"'a'",
        b"[",
        b"\"a",
        b"\"\\ud800\"",
        b"\"\\udc00\"",
        b"\"\t\"",
        b"\"\xff\"",
        b"\xef\xbb\xbf1",
    ];
    for (at, line) in lines.iter().enumerate() {
        assert_eq!(rt; refusal(alloc, line), Some(TextError::NotJson), "line {at}");
    }
    Ok(())
}

#[test]
fn no_more_than_32_containers_stand_inside_each_other(rt: HostRuntime) -> Result<(), Fail> {
    let alloc = rt.alloc();
    let cases = [
        ("[", "]", 32, None),
        ("[", "]", 33, Some(TextError::NotJson)),
        ("[", "]", 127, Some(TextError::NotJson)),
        ("[", "]", 128, Some(TextError::NotJson)),
        ("[{\"a\":", "}]", 16, None),
        ("[{\"a\":", "}]", 17, Some(TextError::NotJson)),
    ];
    for (open, close, count, refused) in cases {
        let line = nested(alloc, open, close, count)?;
        assert_eq!(rt;
            refusal(alloc, line.as_bytes()),
            refused,
            "{count} of {open}"
        );
    }
    Ok(())
}

#[test]
fn a_field_is_a_member_of_an_object(rt: HostRuntime) -> Result<(), Fail> {
    let alloc = rt.alloc();
    let cases: [(&[u8], &str, Result<Option<u64>, FieldError>); 6] = [
        (b"{\"a\":1,\"b\":2}", "b", Ok(Some(2))),
        (b"{\"a\":1,\"a\":3}", "a", Ok(Some(3))),
        (b"{\"a\":null}", "a", Ok(None)),
        (b"{\"a\":1}", "A", Err(FieldError::NoField)),
        (b"{}", "", Err(FieldError::NoField)),
        (b"[1]", "0", Err(FieldError::WrongKind)),
    ];
    for (line, name, found) in cases {
        let json = read_line(alloc, line)?;
        assert_eq!(rt; field(&json.value, name).map(Value::as_u64), found);
    }
    Ok(())
}

fn nested(alloc: Global, open: &str, close: &str, count: usize) -> Result<String, AllocError> {
    let mut line = open.repeat(alloc, count)?;
    line.push_str("0")?;
    line.push_str(close.repeat(alloc, count)?.as_str())?;
    Ok(line)
}

fn refusal(alloc: Global, line: &[u8]) -> Option<TextError> {
    read_line(alloc, line).err()
}
