ghost use Rattle.std.specs.Prelude.{◌≡◌, IfOk};
ghost use Rattle.mx_thrift.specs.Encoding.{IsWritable};

use super::*;
use crate::tests::{PAGE_HEADER, shown};
use mx_lists::Bytes;
use sqlite_items::Items;
use std::alloc::{AllocError, Global};
use std::test::*;

#[test]
fn a_page_header_is_written_in_17_bytes(rt: HostRuntime) -> Result<(), Fail> {
    let out = write_struct(rt.alloc(), &page_header(rt.alloc())?)?;
    assert_eq!(rt; out.as_slice(), PAGE_HEADER.as_slice());
    Ok(())
}

fn page_header(alloc: Global) -> Result<Fields, AllocError>
    ensures { IfOk result IsWritable }
{
    let mut values = Items::new(alloc);
    values.push(int(1, 1))?;
    values.push(int(2, 0))?;
    values.push(int(3, 3))?;
    values.push(int(4, 3))?;
    let mut fields = Items::new(alloc);
    fields.push(int(1, 0))?;
    fields.push(int(2, 8))?;
    fields.push(int(3, 8))?;
    fields.push(Field {
        id: 5,
        value: Value::Struct(values),
    })?;
    Ok(fields)
}

fn int(id: i16, number: i32) -> Field
    ensures { result ≡ record { id = id; value = Value.Int number } }
{
    Field {
        id,
        value: Value::Int(number),
    }
}

#[test]
fn from_15_items_on_the_count_stands_behind_the_header(rt: HostRuntime) -> Result<(), Fail> {
    let alloc = rt.alloc();
    let short = [0x19, 0xe8, 0, 0, 0, 0, 0, 0, 0, 0, 0, 0, 0, 0, 0, 0, 0x00];
    let long = [
        0x19, 0xf8, 0x0f, 0, 0, 0, 0, 0, 0, 0, 0, 0, 0, 0, 0, 0, 0, 0, 0x00,
    ];
    let fourteen = write_struct(alloc, &empty_texts(alloc, 14)?)?;
    assert_eq!(rt; fourteen.as_slice(), short.as_slice());
    let fifteen = write_struct(alloc, &empty_texts(alloc, 15)?)?;
    assert_eq!(rt; fifteen.as_slice(), long.as_slice());
    assert_eq!(rt;
        shown(alloc, &short)?,
        shown_fields(alloc, &empty_texts(alloc, 14)?, 17)?
    );
    assert_eq!(rt;
        shown(alloc, &long)?,
        shown_fields(alloc, &empty_texts(alloc, 15)?, 19)?
    );
    Ok(())
}

fn shown_fields(alloc: Global, fields: &Fields, end: usize) -> Result<String, AllocError> {
    format!(in alloc; "{fields:?} {end}")
}

// A field with a list of so many empty byte strings.
fn empty_texts(alloc: Global, count: u8) -> Result<Fields, AllocError>
    ensures { IfOk result IsWritable }
{
    let mut items = Items::new(alloc);
    for _ in 0..count {
        items.push(Value::Bytes(Bytes::new(alloc)))?;
    }
    let mut fields = Items::new(alloc);
    fields.push(Field {
        id: 1,
        value: Value::List { kind: 8, items },
    })?;
    Ok(fields)
}

#[test]
fn numbers_lists_and_structs_are_written_in_the_fewest_bytes(rt: HostRuntime) -> Result<(), Fail> {
    let out = write_struct(rt.alloc(), &footer(rt.alloc())?)?;
    let wanted = [
        0x16, 0xff, 0xff, 0xff, 0xff, 0xff, 0xff, 0xff, 0xff, 0xff, 0x01, 0xf8, 0x02, b'h', b'i',
        0x19, 0x1c, 0x15, 0x80, 0x01, 0x00, 0x00,
    ];
    assert_eq!(rt; out.as_slice(), wanted.as_slice());
    Ok(())
}

// A long, a byte string fifteen ids behind it, and a list of one struct.
fn footer(alloc: Global) -> Result<Fields, AllocError>
    ensures { IfOk result IsWritable }
{
    let mut inner = Items::new(alloc);
    inner.push(int(1, 64))?;
    let mut structs = Items::new(alloc);
    structs.push(Value::Struct(inner))?;
    let mut fields = Items::new(alloc);
    fields.push(Field {
        id: 1,
        value: Value::Long(i64::MIN),
    })?;
    fields.push(Field {
        id: 16,
        value: Value::Bytes(Bytes::from_slice(alloc, b"hi")?),
    })?;
    fields.push(Field {
        id: 17,
        value: Value::List {
            kind: 12,
            items: structs,
        },
    })?;
    Ok(fields)
}
