use super::*;
use mx_schema::{Row, RowValue};
use std::alloc::Global;
use std::test::Fail;

/// An element of a row.
#[derive(Clone, Copy)]
pub(super) enum Given<'a> {
    Null,
    Flag(bool),
    Whole(i64),
    Text(&'a str),
}

use Given::{Flag, Null, Text, Whole};

pub(super) type Rows = &'static [&'static [Given<'static>]];

/// Rows that are such, whatever their lengths and the kinds of their elements.
const TAKEN: [(&str, Rows); 13] = [
    ("[]", &[]),
    (" [ ] ", &[]),
    ("[[]]", &[&[]]),
    ("[[],[],[]]", &[&[], &[], &[]]),
    ("[[\"a\",1]]", &[&[Text("a"), Whole(1)]]),
    (
        "[[null,true,false,\"\",-1,0]]",
        &[&[Null, Flag(true), Flag(false), Text(""), Whole(-1), Whole(0)]],
    ),
    (
        "[[-9223372036854775808,9223372036854775807]]",
        &[&[
            Whole(-9_223_372_036_854_775_808),
            Whole(9_223_372_036_854_775_807),
        ]],
    ),
    (
        "[[\"\\u0061\",\"\\\"\\\\\\n\",\"\\u0000\",\"\\u00e9\u{e9}\",\"\\ud83d\\ude00\"]]",
        &[&[
            Text("a"),
            Text("\"\\\n"),
            Text("\0"),
            Text("\u{e9}\u{e9}"),
            Text("\u{1f600}"),
        ]],
    ),
    (
        "[[2,1],[1,2],[1,2]]",
        &[
            &[Whole(2), Whole(1)],
            &[Whole(1), Whole(2)],
            &[Whole(1), Whole(2)],
        ],
    ),
    (
        "[[1,\"b\"],[\"b\",1]]",
        &[&[Whole(1), Text("b")], &[Text("b"), Whole(1)]],
    ),
    (
        "[[\"a\"],[],[true,null,\"a\",7],[null]]",
        &[
            &[Text("a")],
            &[],
            &[Flag(true), Null, Text("a"), Whole(7)],
            &[Null],
        ],
    ),
    (
        " [ [ \"c\" , 3 ] ,\t[ false ] ] ",
        &[&[Text("c"), Whole(3)], &[Flag(false)]],
    ),
    (
        "[[\"null\",\"true\",\"1\",\"[]\"]]",
        &[&[Text("null"), Text("true"), Text("1"), Text("[]")]],
    ),
];

/// What is no rows.
const REFUSED: [&str; 38] = [
    "null",
    "true",
    "0",
    "\"\"",
    "\"[]\"",
    "{}",
    "{\"rows\":[]}",
    "{\"0\":[]}",
    "[1]",
    "[null]",
    "[true]",
    "[\"a\"]",
    "[{}]",
    "[[],null]",
    "[[\"a\",1],{}]",
    "[\"a\",1]",
    "[[[]]]",
    "[[{}]]",
    "[[[\"a\",1]]]",
    "[[\"a\",[1]]]",
    "[[\"a\",{\"b\":1}]]",
    "[[\"a\",1],[\"b\",[]]]",
    "[[9223372036854775808]]",
    "[[-9223372036854775809]]",
    "[[18446744073709551615]]",
    "[[18446744073709551616]]",
    "[[1.0]]",
    "[[0.5]]",
    "[[1e3]]",
    "[[1E0]]",
    "[[-0]]",
    "[[-0.0]]",
    "[[\"a\",1],[\"b\",1.0]]",
    "[[01]]",
    "[[+1]]",
    "[[1,]]",
    "[[nul]]",
    "[['a']]",
];

#[test]
fn rows_of_any_length_and_elements_of_any_kind_are_kept_in_their_order(
    rt: HostRuntime,
) -> Result<(), Fail> {
    for (rows, expected) in TAKEN {
        assert_eq!(rt; commits(rt.alloc(), rows, expected)?, Some(true), "{rows}");
    }
    Ok(())
}

#[test]
fn rows_are_arrays_of_nulls_truth_values_integers_of_64_bits_and_texts(
    rt: HostRuntime,
) -> Result<(), Fail> {
    for rows in REFUSED {
        assert_eq!(rt; commits(rt.alloc(), rows, &[])?, None, "{rows}");
    }
    Ok(())
}

#[test]
fn the_rows_of_a_later_file_are_looked_at_too(rt: HostRuntime) -> Result<(), Fail> {
    for (rows, refused) in [("[[1]]", None), ("[[1.0]]", Some(LineError::NotAnAsk))] {
        assert_eq!(rt; second_refused(rt.alloc(), rows)?, refused, "{rows}");
    }
    Ok(())
}

// Whether the line of a commit with these rows has the rows that are expected; none where it is no ask.
fn commits(alloc: Global, rows: &str, expected: Rows) -> Result<Option<bool>, Fail> {
    let line = format!(in alloc;
        "{{\"ask\":\"commit\",\"files\":[{{\"file\":\"11111111-1111-4111-8111-111111111111\",\"partition\":\"a\",\"rows\":{rows}}}]}}"
    )?;
    match ask_of(alloc, line.as_bytes()) {
        Ok(ask) => Ok(Some(is_commit_of(&ask, expected))),
        Err(LineError::NotAnAsk) => Ok(None),
        Err(LineError::NoMemory) => Ok(Some(false)),
    }
}

// Why the line of a commit of two files is no ask, the second of which has these rows.
fn second_refused(alloc: Global, rows: &str) -> Result<Option<LineError>, Fail> {
    let line = format!(in alloc;
        "{{\"ask\":\"commit\",\"files\":[{{\"file\":\"11111111-1111-4111-8111-111111111111\",\"partition\":\"a\",\"rows\":[]}},{{\"file\":\"22222222-2222-4222-8222-222222222222\",\"partition\":\"a\",\"rows\":{rows}}}]}}"
    )?;
    Ok(ask_of(alloc, line.as_bytes()).err())
}

fn is_commit_of(ask: &Ask, expected: Rows) -> bool {
    match &ask.kind {
        AskKind::Commit { files } => match files.as_slice() {
            [file] => are(file.rows.as_slice(), expected),
            _ => false,
        },
        AskKind::LookUp { .. } => false,
    }
}

/// Whether rows are those that are expected.
pub(super) fn are(rows: &[Row], expected: Rows) -> bool {
    rows.len() == expected.len()
        && rows
            .iter()
            .zip(expected)
            .all(|(row, given)| is_row(row, given))
}

fn is_row(row: &Row, given: &[Given<'_>]) -> bool {
    row.len() == given.len()
        && row
            .as_slice()
            .iter()
            .zip(given)
            .all(|(value, given)| is_value(value, *given))
}

fn is_value(value: &RowValue, given: Given<'_>) -> bool {
    match (value, given) {
        (RowValue::Null, Null) => true,
        (RowValue::Flag(found), Flag(flag)) => *found == flag,
        (RowValue::Whole(found), Whole(number)) => *found == number,
        (RowValue::Text(found), Text(text)) => found.as_str() == text,
        _ => false,
    }
}
