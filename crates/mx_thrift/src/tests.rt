use super::*;
use std::alloc::{AllocError, Global};
use std::test::*;

/// The header of a data page of Parquet: its type, its two sizes, and the header of its values.
pub(crate) const PAGE_HEADER: [u8; 17] = [
    0x15, 0x00, 0x15, 0x10, 0x15, 0x10, 0x2c, 0x15, 0x02, 0x15, 0x00, 0x15, 0x06, 0x15, 0x06, 0x00,
    0x00,
];

const PAGE_HEADER_SHOWN: &str =
    "Items { items: [Field { id: 1, value: Int(0) }, Field { id: 2, value: Int(8) }, Field { id: 3, value: Int(8) }, Field { id: 5, value: Struct(Items { items: [Field { id: 1, value: Int(1) }, Field { id: 2, value: Int(0) }, Field { id: 3, value: Int(3) }, Field { id: 4, value: Int(3) }] }) }] }";

/// An int, a byte string, a struct with an int, and a list of two ints.
const NESTED: [u8; 16] = [
    0x15, 0x02, 0x18, 0x02, b'h', b'i', 0x1c, 0x15, 0x80, 0x01, 0x00, 0x19, 0x25, 0x02, 0x04, 0x00,
];

const TYPES: [(&[u8], &str); 9] = [
    (&[0x00], "Items { items: [] } 1"),
    (
        &[0x11, 0x12, 0x00],
        "Items { items: [Field { id: 1, value: Flag(true) }, Field { id: 2, value: Flag(false) }] } 3",
    ),
    (
        &[0x13, 0xff, 0x14, 0x03, 0x16, 0x01, 0x00],
        "Items { items: [Field { id: 1, value: Byte(-1) }, Field { id: 2, value: Short(-2) }, Field { id: 3, value: Long(-1) }] } 7",
    ),
    (
        &[0x17, 1, 2, 3, 4, 5, 6, 7, 8, 0x00],
        "Items { items: [Field { id: 1, value: Double([1, 2, 3, 4, 5, 6, 7, 8]) }] } 10",
    ),
    (
        &[0x18, 0x02, b'h', b'i', 0x00],
        "Items { items: [Field { id: 1, value: Bytes(Bytes { bytes: [104, 105] }) }] } 5",
    ),
    (
        &[0x19, 0x32, 0x00, 0x01, 0x02, 0x00],
        "Items { items: [Field { id: 1, value: List { kind: 2, items: Items { items: [Flag(false), Flag(true), Flag(false)] } } }] } 6",
    ),
    (
        &[0x1a, 0x13, 0x05, 0x00],
        "Items { items: [Field { id: 1, value: Set { kind: 3, items: Items { items: [Byte(5)] } } }] } 4",
    ),
    (
        &[0x1b, 0x01, 0x85, 0x01, b'k', 0x02, 0x00],
        "Items { items: [Field { id: 1, value: Map { key_kind: 8, value_kind: 5, pairs: Items { items: [(Bytes(Bytes { bytes: [107] }), Int(1))] } } }] } 7",
    ),
    (
        &[0x1b, 0x00, 0x00],
        "Items { items: [Field { id: 1, value: Map { key_kind: 0, value_kind: 0, pairs: Items { items: [] } } }] } 3",
    ),
];

const LONG_FORMS: [(&[u8], &str); 6] = [
    (
        &[0x15, 0x80, 0x00, 0x00],
        "Items { items: [Field { id: 1, value: Int(0) }] } 4",
    ),
    (
        &[
            0x15, 0x82, 0x80, 0x80, 0x80, 0x80, 0x80, 0x80, 0x80, 0x80, 0x00, 0x00,
        ],
        "Items { items: [Field { id: 1, value: Int(1) }] } 12",
    ),
    (
        &[
            0x16, 0xff, 0xff, 0xff, 0xff, 0xff, 0xff, 0xff, 0xff, 0xff, 0x01, 0x00,
        ],
        "Items { items: [Field { id: 1, value: Long(-9223372036854775808) }] } 12",
    ),
    (
        &[0x05, 0x04, 0x02, 0x05, 0x01, 0x04, 0x00],
        "Items { items: [Field { id: 2, value: Int(1) }, Field { id: -1, value: Int(2) }] } 7",
    ),
    (
        &[0x19, 0xf5, 0x01, 0x02, 0x00],
        "Items { items: [Field { id: 1, value: List { kind: 5, items: Items { items: [Int(1)] } } }] } 5",
    ),
    (
        &[0x18, 0x81, 0x00, b'h', 0x00],
        "Items { items: [Field { id: 1, value: Bytes(Bytes { bytes: [104] }) }] } 5",
    ),
];

const FAULTS: [(&[u8], ThriftError); 20] = [
    // Eleven bytes, or a value that is too large for its type.
    (
        &[
            0x16, 0x80, 0x80, 0x80, 0x80, 0x80, 0x80, 0x80, 0x80, 0x80, 0x80, 0x00, 0x00,
        ],
        ThriftError::Wide { at: 1 },
    ),
    (
        &[
            0x16, 0x80, 0x80, 0x80, 0x80, 0x80, 0x80, 0x80, 0x80, 0x80, 0x80,
        ],
        ThriftError::Wide { at: 1 },
    ),
    (
        &[0x16, 0x80, 0x80, 0x80, 0x80, 0x80, 0x80, 0x80, 0x80, 0x80],
        ThriftError::Short { at: 1 },
    ),
    (
        &[
            0x16, 0x80, 0x80, 0x80, 0x80, 0x80, 0x80, 0x80, 0x80, 0x80, 0x02,
        ],
        ThriftError::Wide { at: 1 },
    ),
    (&[0x14, 0x80, 0x80, 0x04, 0x00], ThriftError::Wide { at: 1 }),
    (
        &[0x15, 0x80, 0x80, 0x80, 0x80, 0x10, 0x00],
        ThriftError::Wide { at: 1 },
    ),
    (
        &[0x18, 0x80, 0x80, 0x80, 0x80, 0x08],
        ThriftError::Wide { at: 1 },
    ),
    (
        &[0x1b, 0x80, 0x80, 0x80, 0x80, 0x08],
        ThriftError::Wide { at: 1 },
    ),
    (
        &[0x19, 0xf5, 0x80, 0x80, 0x80, 0x80, 0x08],
        ThriftError::Wide { at: 2 },
    ),
    // An id past an i16, behind itself or behind the one before it.
    (&[0x05, 0x80, 0x80, 0x04, 0x00], ThriftError::Wide { at: 1 }),
    (
        &[0x05, 0xfe, 0xff, 0x03, 0x00, 0x15, 0x00, 0x00],
        ThriftError::Wide { at: 5 },
    ),
    (
        &[0x05, 0xfe, 0xff, 0x03, 0x00, 0x1d],
        ThriftError::Wide { at: 5 },
    ),
    // Only the byte 0 ends a struct.
    (&[0x10, 0x00], ThriftError::BadType { at: 0 }),
    (&[0x0d], ThriftError::BadType { at: 0 }),
    // A list whose type is none has to be empty.
    (&[0x19, 0xf0], ThriftError::Short { at: 2 }),
    (&[0x19, 0xf0, 0x01], ThriftError::BadType { at: 1 }),
    (
        &[0x19, 0xf0, 0x80, 0x80, 0x80, 0x80, 0x08],
        ThriftError::BadType { at: 1 },
    ),
    // A count of 2^31 - 1 in few bytes.
    (
        &[0x19, 0xf5, 0xff, 0xff, 0xff, 0xff, 0x07],
        ThriftError::Short { at: 7 },
    ),
    (
        &[0x1b, 0xff, 0xff, 0xff, 0xff, 0x07, 0x33, 0x01, 0x02, 0x03],
        ThriftError::Short { at: 10 },
    ),
    (
        &[0x18, 0xff, 0xff, 0xff, 0xff, 0x07, b'h', b'i'],
        ThriftError::Short { at: 1 },
    ),
];

pub(crate) fn shown(alloc: Global, bytes: &[u8]) -> Result<String, AllocError> {
    match read_struct(alloc, bytes, 0) {
        Ok((fields, end)) => format!(in alloc; "{fields:?} {end}"),
        Err(error) => format!(in alloc; "{error:?}"),
    }
}

fn fault(alloc: Global, bytes: &[u8]) -> Option<ThriftError> {
    read_struct(alloc, bytes, 0).err()
}

#[test]
fn a_struct_is_read_at_its_place(rt: HostRuntime) -> Result<(), Fail> {
    let alloc = rt.alloc();
    let (fields, end) = read_struct(alloc, &PAGE_HEADER, 0)?;
    assert_eq!(rt;
        format!(in alloc; "{fields:?}")?.as_str(),
        PAGE_HEADER_SHOWN
    );
    assert_eq!(rt; end, 17);
    let (fields, end) = read_struct(alloc, &PAGE_HEADER, 7)?;
    assert_eq!(rt; fields.len(), 4);
    assert_eq!(rt; end, 16);
    assert_eq!(rt;
        read_struct(alloc, &PAGE_HEADER, 17).err(),
        Some(ThriftError::Short { at: 17 })
    );
    assert_eq!(rt;
        read_struct(alloc, &PAGE_HEADER, 19).err(),
        Some(ThriftError::Short { at: 19 })
    );
    Ok(())
}

#[test]
fn each_type_is_read(rt: HostRuntime) -> Result<(), Fail> {
    for (bytes, wanted) in TYPES {
        assert_eq!(rt; shown(rt.alloc(), bytes)?.as_str(), wanted, "{bytes:?}");
    }
    Ok(())
}

#[test]
fn an_empty_list_keeps_the_type_that_it_names(rt: HostRuntime) -> Result<(), Fail> {
    let text = shown(rt.alloc(), &[0x19, 0x0e, 0x00])?;
    let wanted =
        "Items { items: [Field { id: 1, value: List { kind: 14, items: Items { items: [] } } }] } 3";
    assert_eq!(rt; text.as_str(), wanted);
    Ok(())
}

#[test]
fn what_is_cut_is_named_by_its_beginning(rt: HostRuntime) {
    let places = [0, 1, 2, 3, 3, 3, 6, 7, 8, 8, 10, 11, 12, 13, 14, 15];
    for (len, &at) in places.iter().enumerate() {
        let cut = fault(rt.alloc(), &NESTED[..len]);
        assert_eq!(rt; cut, Some(ThriftError::Short { at }), "{len}");
    }
    assert_eq!(rt; fault(rt.alloc(), &NESTED), None);
}

#[test]
fn codes_from_1_to_12_are_types_wherever_one_stands(rt: HostRuntime) {
    for code in 0..16_u8 {
        let field = [0x10 + code, 0, 0, 0, 0, 0, 0, 0, 0, 0, 0, 0];
        let list = [0x19, 0x10 + code, 0, 0, 0, 0, 0, 0, 0, 0, 0, 0];
        let set = [0x1a, 0x10 + code, 0, 0, 0, 0, 0, 0, 0, 0, 0, 0];
        let key = [0x1b, 1, 16 * code + 3, 0, 0, 0, 0, 0, 0, 0, 0, 0, 0];
        let value = [0x1b, 1, 0x30 + code, 0, 0, 0, 0, 0, 0, 0, 0, 0, 0];
        let is_type = code >= 1 && code <= 12;
        assert_eq!(rt;
            fault(rt.alloc(), &field),
            bad_type_unless(is_type, 0),
            "{code}"
        );
        assert_eq!(rt;
            fault(rt.alloc(), &list),
            bad_type_unless(is_type, 1),
            "{code}"
        );
        assert_eq!(rt;
            fault(rt.alloc(), &set),
            bad_type_unless(is_type, 1),
            "{code}"
        );
        assert_eq!(rt;
            fault(rt.alloc(), &key),
            bad_type_unless(is_type, 2),
            "{code}"
        );
        assert_eq!(rt;
            fault(rt.alloc(), &value),
            bad_type_unless(is_type, 2),
            "{code}"
        );
        assert_eq!(rt; fault(rt.alloc(), &[0x19, code, 0]), None, "{code}");
    }
}

fn bad_type_unless(is_type: bool, at: usize) -> Option<ThriftError> {
    if is_type {
        None
    } else {
        Some(ThriftError::BadType { at })
    }
}

#[test]
fn sixteen_may_stand_inside_each_other(rt: HostRuntime) {
    let structs = [0x1c_u8; 15];
    assert_eq!(rt;
        fault(rt.alloc(), &structs),
        Some(ThriftError::Short { at: 15 })
    );
    let structs = [0x1c_u8; 16];
    assert_eq!(rt;
        fault(rt.alloc(), &structs),
        Some(ThriftError::Deep { at: 16 })
    );
    let lists = [0x19_u8; 15];
    assert_eq!(rt;
        fault(rt.alloc(), &lists),
        Some(ThriftError::Short { at: 15 })
    );
    let lists = [0x19_u8; 16];
    assert_eq!(rt;
        fault(rt.alloc(), &lists),
        Some(ThriftError::Deep { at: 16 })
    );
    let closed = [
        0x19, 0x19, 0x19, 0x19, 0x19, 0x19, 0x19, 0x19, 0x19, 0x19, 0x19, 0x19, 0x19, 0x19, 0x19,
        0x09, 0x00,
    ];
    assert_eq!(rt; fault(rt.alloc(), &closed), None);
}

#[test]
fn the_first_broken_rule_is_named(rt: HostRuntime) {
    for (bytes, error) in FAULTS {
        assert_eq!(rt; fault(rt.alloc(), bytes), Some(error), "{bytes:?}");
    }
}

#[test]
fn numbers_need_not_be_in_their_shortest_form(rt: HostRuntime) -> Result<(), Fail> {
    for (bytes, wanted) in LONG_FORMS {
        assert_eq!(rt; shown(rt.alloc(), bytes)?.as_str(), wanted, "{bytes:?}");
    }
    Ok(())
}
