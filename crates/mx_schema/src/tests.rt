use super::*;
use mx_lists::{Listed, Same, Text};
use std::alloc::{AllocError, Global};
use std::cmp::Ordering;
use std::test::Fail;

const LONG: &str = "a23456789_123456789_123456789_123456789_123456789_123456789_123";

// So many columns, each with a name of its own.
fn columns_text(alloc: Global, count: u32) -> Result<String, AllocError> {
    let mut text = String::new(alloc);
    for number in 0..count {
        let mark = if number == 0 { "" } else { "," };
        text.push_str(format!(in alloc; "{mark}c{number}:int64")?.as_str())?;
    }
    Ok(text)
}

#[test]
fn a_schema_is_columns_with_commas_between_them_and_prints_as_it_was_read(
    rt: HostRuntime,
) -> Result<(), Fail> {
    let alloc = rt.alloc();
    let most = columns_text(alloc, 32)?;
    let named = format!(in alloc; "{LONG}:string?")?;
    let cases = [
        ("a:int64", 1),
        ("a:int64,s:string?,z:int32?", 3),
        ("a:boolean,A:boolean?,a_:int32,a0:string", 4),
        (named.as_str(), 1),
        (most.as_str(), 32),
    ];
    for (text, count) in cases {
        let schema = Schema::parse(alloc, text).ok().expect(&rt, "a schema");
        assert_eq!(rt; schema.columns().len(), count);
        let printed = schema.print(alloc)?;
        assert_eq!(rt; printed.as_str(), text);
        assert!(rt; schema.same(&schema.clone()?));
    }
    Ok(())
}

#[test]
fn a_text_that_is_no_schema_is_refused_at_its_first_bad_column(
    rt: HostRuntime,
) -> Result<(), Fail> {
    let alloc = rt.alloc();
    let more = columns_text(alloc, 33)?;
    let named = format!(in alloc; "{LONG}4:string")?;
    let cases = [
        ("", 0),
        (",", 0),
        ("a:int64,", 1),
        ("a:int64,,b", 1),
        ("a:int64,b:int16,c:int8", 1),
        ("a:int64, b:int64", 1),
        ("a:int64,b:int64,a:string", 2),
        ("a:int64\n", 0),
        ("a:int64??", 0),
        ("a:?", 0),
        ("a", 0),
        (":int64", 0),
        ("1a:int64", 0),
        ("_a:int64", 0),
        ("a-b:int64", 0),
        ("a:b:int64", 0),
        ("a:INT64", 0),
        ("\u{e9}:int64", 0),
        ("a:int64,b:int64,\u{e9}", 2),
        (named.as_str(), 0),
        (more.as_str(), 32),
    ];
    for (text, at) in cases {
        match Schema::parse(alloc, text) {
            Ok(_) => assert!(rt; false, "{text}"),
            Err(error) => assert_eq!(rt; error, SchemaError::BadSchema { at }, "{text}"),
        }
    }
    Ok(())
}

// A row of a text, and behind it a number, a text and how many nulls.
fn row_of(
    alloc: Global,
    key: &str,
    number: i64,
    text: &str,
    nulls: u32,
) -> Result<Row, AllocError> {
    let mut row = Listed::new(alloc);
    row.push(RowValue::Text(Text::from_str(alloc, key)?))?;
    row.push(RowValue::Whole(number))?;
    row.push(RowValue::Text(Text::from_str(alloc, text)?))?;
    for _ in 0..nulls {
        row.push(RowValue::Null)?;
    }
    Ok(row)
}

#[test]
fn a_row_is_bad_at_its_first_place_that_is_not_what_the_schema_asks_for(
    rt: HostRuntime,
) -> Result<(), Fail> {
    let alloc = rt.alloc();
    let key = "k".repeat(alloc, 255)?;
    let long_key = "k".repeat(alloc, 256)?;
    let text = "\u{e9}".repeat(alloc, 2048)?;
    let long_text = format!(in alloc; "{text}a")?;
    let key = key.as_str();
    let text = text.as_str();
    let schema = Schema::parse(alloc, "i:int32,s:string,f:boolean?")
        .ok()
        .expect(&rt, "a schema");
    let cases = [
        (key, 2_147_483_647, text, 1, None),
        ("k\u{1}", -2_147_483_648, "\u{0}", 1, None),
        ("", 0, "", 1, Some(0)),
        ("k\u{0}", 0, "", 1, Some(0)),
        (long_key.as_str(), 0, "", 2, Some(0)),
        ("k", 2_147_483_648, "", 1, Some(1)),
        ("k", -2_147_483_649, "", 0, Some(1)),
        ("k", 0, long_text.as_str(), 1, Some(2)),
        ("k", 0, "", 0, Some(3)),
        ("k", 0, "", 2, Some(4)),
    ];
    for (key, number, text, nulls, place) in cases {
        let row = row_of(alloc, key, number, text, nulls)?;
        assert_eq!(rt; schema.fits(&row), place, "{key} {number} {nulls}");
    }
    assert_eq!(rt; schema.fits(&Listed::new(alloc)), Some(0));
    Ok(())
}

#[test]
fn a_cell_is_bad_where_its_kind_is_not_the_columns(rt: HostRuntime) -> Result<(), Fail> {
    let alloc = rt.alloc();
    let cases = [
        ("i:int64,s:string,f:boolean?", None),
        ("i:string,s:string,f:boolean?", Some(1)),
        ("i:boolean,s:string,f:boolean?", Some(1)),
        ("i:int64,s:int64,f:boolean?", Some(2)),
        ("i:int64,s:boolean?,f:boolean?", Some(2)),
        ("i:int64,s:string,f:boolean", Some(3)),
    ];
    let row = row_of(alloc, "k", 1, "", 1)?;
    for (text, place) in cases {
        let schema = Schema::parse(alloc, text).ok().expect(&rt, "a schema");
        assert_eq!(rt; schema.fits(&row), place, "{text}");
    }
    Ok(())
}

#[test]
fn cells_rise_from_truth_values_over_numbers_to_texts(rt: HostRuntime) -> Result<(), Fail> {
    let alloc = rt.alloc();
    let rising = [
        Cell::Null,
        Cell::Flag(false),
        Cell::Flag(true),
        Cell::Whole(i64::MIN),
        Cell::Small(-1),
        Cell::Whole(0),
        Cell::Small(1),
        Cell::Whole(2_147_483_648),
        Cell::Text(Text::from_str(alloc, "")?),
        Cell::Text(Text::from_str(alloc, "Z")?),
        Cell::Text(Text::from_str(alloc, "a")?),
        Cell::Text(Text::from_str(alloc, "aa")?),
        Cell::Text(Text::from_str(alloc, "\u{e9}")?),
    ];
    for (place, cell) in rising.iter().enumerate() {
        for (other_place, other) in rising.iter().enumerate() {
            assert_eq!(rt;
                cell.compare(other),
                place.cmp(&other_place),
                "{cell:?} {other:?}"
            );
        }
    }
    assert_eq!(rt; Cell::Small(7).compare(&Cell::Whole(7)), Ordering::Equal);
    Ok(())
}
