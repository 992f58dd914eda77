use super::*;
use mx_lists::{Bytes, Listed, Text};
use std::alloc::Global;
use std::test::*;

const PARTITIONS: &[u8] = b"\x00\x02\x02\x04\x02\x61\x00\x00\x02\x62\x00\x00\x00\x00\x00\x00";

const FILES: &[u8] = b"\x00\x04\x02\x04\x02\x65\x00\x01\x02\x66\xea\x0a\x00\x00\x00\x00\x00";

const STATS: &[u8] =
    b"\x00\x06\x00\x00\x02\x02\x66\x02\x63\x06\x03\x08\x02\x7a\x06\x02\x30\xd8\x04\x00\x00";

const BLOOM: &[u8] = b"\x00\x08\x00\x02\x10\x00\x2a\x00\x00\x00\x55\x00\x00\x00\x00\x00";

const LOCATION: &[u8] =
    b"\x00\x0a\x00\x00\x00\x02\x02\x70\x02\x67\x80\xc8\xaa\xcc\x81\xd7\xf8\x47\x01";

// The fields broken one at a time: which, the bytes, and the place.
const BROKEN: [(&str, &[u8], usize); 42] = [
    ("a key", b"\x02\x6b\x04\x02\x00\x00\x00\x00", 0),
    ("kind 0", b"\x00\x00\x00\x00\x00\x00", 1),
    ("kind 6", b"\x00\x0c\x00\x00\x00\x00", 1),
    ("kind below 0", b"\x00\x01\x00\x00\x00\x00", 1),
    (
        "kind in a longer form",
        b"\x00\x84\x00\x02\x00\x00\x00\x00",
        1,
    ),
    ("no files", b"\x00\x04\x00\x00\x00\x00", 2),
    ("branch 2 for the files", b"\x00\x04\x04\x00\x00\x00\x00", 2),
    ("files beside stats", b"\x00\x06\x02\x00\x00\x00\x00", 2),
    (
        "two blocks",
        b"\x00\x04\x02\x02\x02\x66\x0a\x00\x02\x02\x67\x0a\x00\x00\x00\x00\x00",
        8,
    ),
    (
        "a block with its size",
        b"\x00\x04\x02\x01\x08\x02\x66\x0a\x00\x00\x00\x00\x00",
        3,
    ),
    (
        "count 2^62",
        b"\x00\x04\x02\x80\x80\x80\x80\x80\x80\x80\x80\x80\x01\x02\x66\x0a\x00\x00\x00\x00\x00",
        17,
    ),
    (
        "one name twice",
        b"\x00\x04\x02\x04\x02\x66\x0a\x00\x02\x66\x0c\x00\x00\x00\x00\x00",
        8,
    ),
    (
        "falling names",
        b"\x00\x04\x02\x04\x02\x66\x0a\x00\x02\x65\x0c\x00\x00\x00\x00\x00",
        8,
    ),
    (
        "no UTF-8",
        b"\x00\x04\x02\x02\x02\xff\x0a\x00\x00\x00\x00\x00",
        4,
    ),
    (
        "a size below 0",
        b"\x00\x04\x02\x02\x02\x66\x09\x00\x00\x00\x00\x00",
        6,
    ),
    (
        "deleted with a size",
        b"\x00\x04\x02\x02\x02\x66\x0a\x01\x00\x00\x00\x00",
        6,
    ),
    (
        "flag 2",
        b"\x00\x04\x02\x02\x02\x66\x0a\x02\x00\x00\x00\x00",
        7,
    ),
    (
        "a partition with a size",
        b"\x00\x02\x02\x02\x02\x61\x02\x00\x00\x00\x00\x00",
        6,
    ),
    (
        "a deleted partition",
        b"\x00\x02\x02\x02\x02\x61\x00\x01\x00\x00\x00\x00",
        7,
    ),
    (
        "a filter beside files",
        b"\x00\x04\x02\x00\x02\x00\x00\x00",
        4,
    ),
    (
        "a filter of 7 bytes",
        b"\x00\x08\x00\x02\x0e\x31\x32\x33\x34\x35\x36\x37\x00\x00\x00",
        4,
    ),
    (
        "a filter of no bytes",
        b"\x00\x08\x00\x02\x00\x00\x00\x00",
        4,
    ),
    (
        "deleted with a filter",
        b"\x00\x08\x00\x02\x10\x31\x32\x33\x34\x35\x36\x37\x38\x01\x00\x00",
        4,
    ),
    (
        "flag 3",
        b"\x00\x08\x00\x02\x10\x31\x32\x33\x34\x35\x36\x37\x38\x03\x00\x00",
        13,
    ),
    (
        "branch 5",
        b"\x00\x06\x00\x00\x02\x02\x66\x02\x63\x0a\x00\x02\x00\x00\x00\x00\x00",
        9,
    ),
    (
        "a flag of a cell",
        b"\x00\x06\x00\x00\x02\x02\x66\x02\x63\x02\x02\x00\x02\x00\x00\x00\x00\x00",
        10,
    ),
    (
        "33 bits",
        b"\x00\x06\x00\x00\x02\x02\x66\x02\x63\x04\x80\x80\x80\x80\x10\x00\x02\x00\x00\x00\x00\x00",
        10,
    ),
    (
        "33 bits below 0",
        b"\x00\x06\x00\x00\x02\x02\x66\x02\x63\x00\x04\x81\x80\x80\x80\x10\x02\x00\x00\x00\x00\x00",
        11,
    ),
    (
        "a text that is no UTF-8",
        b"\x00\x06\x00\x00\x02\x02\x66\x02\x63\x00\x08\x02\xc3\x02\x00\x00\x00\x00\x00",
        11,
    ),
    (
        "values below 0",
        b"\x00\x06\x00\x00\x02\x02\x66\x02\x63\x00\x00\x01\x00\x00\x00\x00\x00",
        11,
    ),
    (
        "nulls below 0",
        b"\x00\x06\x00\x00\x02\x02\x66\x02\x63\x00\x00\x02\x01\x00\x00\x00\x00",
        12,
    ),
    (
        "size below 0",
        b"\x00\x06\x00\x00\x02\x02\x66\x02\x63\x00\x00\x02\x00\x01\x00\x00\x00",
        13,
    ),
    (
        "uncompressed below 0",
        b"\x00\x06\x00\x00\x02\x02\x66\x02\x63\x00\x00\x02\x00\x00\x01\x00\x00",
        14,
    ),
    (
        "deleted with a least",
        b"\x00\x06\x00\x00\x02\x02\x66\x02\x63\x06\x0e\x00\x00\x00\x00\x00\x01\x00",
        9,
    ),
    (
        "deleted with a greatest",
        b"\x00\x06\x00\x00\x02\x02\x66\x02\x63\x00\x02\x00\x06\x00\x00\x00\x01\x00",
        10,
    ),
    (
        "deleted with values",
        b"\x00\x06\x00\x00\x02\x02\x66\x02\x63\x00\x00\x06\x00\x00\x00\x01\x00",
        11,
    ),
    (
        "deleted with nulls",
        b"\x00\x06\x00\x00\x02\x02\x66\x02\x63\x00\x00\x00\x06\x00\x00\x01\x00",
        12,
    ),
    (
        "deleted with a size of its cells",
        b"\x00\x06\x00\x00\x02\x02\x66\x02\x63\x00\x00\x00\x00\x06\x00\x01\x00",
        13,
    ),
    (
        "deleted with uncompressed",
        b"\x00\x06\x00\x00\x02\x02\x66\x02\x63\x00\x00\x00\x00\x00\x06\x01\x00",
        14,
    ),
    (
        "instant 0",
        b"\x00\x0a\x00\x00\x00\x02\x02\x70\x02\x67\x00\x00",
        10,
    ),
    (
        "instant below 0",
        b"\x00\x0a\x00\x00\x00\x02\x02\x70\x02\x67\x01\x00",
        10,
    ),
    (
        "instant of 18 digits",
        b"\x00\x0a\x00\x00\x00\x02\x02\x70\x02\x67\x80\x80\xd0\xd8\x8b\xde\xa2\xe3\x02\x00",
        10,
    ),
];

fn encoded(alloc: Global, bytes: &[u8]) -> Result<Vec<u8>, PayloadError> {
    let payload = decode(alloc, bytes)?;
    encode(alloc, &payload).map_err(|_e| PayloadError::NoMemory)
}

#[test]
fn a_payload_that_was_read_is_written_as_it_stood(rt: HostRuntime) {
    let payloads: [&[u8]; 12] = [
        PARTITIONS,
        FILES,
        STATS,
        BLOOM,
        LOCATION,
        b"\x00\x08\x00\x02\x00\x01\x00\x00",
        b"\x00\x06\x00\x00\x02\x02\x66\x02\x63\x00\x00\x00\x00\x00\x00\x01\x00",
        b"\x00\x04\x02\x00\x00\x00\x00",
        b"\x00\x02\x02\x00\x00\x00\x00",
        b"\x00\x06\x00\x00\x02\x02\x66\x02\x63\x02\x01\x04\xff\xff\xff\xff\x0f\x12\x02\x04\xfe\xff\xff\xff\xff\xff\xff\xff\xff\x01\x00\x00",
        b"\x00\x0a\x00\x00\x00\x02\x02\x70\x02\x67\x02\x00",
        b"\x00\x0a\x00\x00\x00\x02\x02\x70\x02\x67\xfe\xff\xcf\xd8\x8b\xde\xa2\xe3\x02\x00",
    ];
    for bytes in payloads {
        assert!(rt;
            matches!(encoded(rt.alloc(), bytes), Ok(again) if again.as_slice() == bytes),
            "{bytes:?}"
        );
    }
}

#[test]
fn a_payload_that_is_cut_anywhere_is_refused_at_the_field_that_is_cut(rt: HostRuntime) {
    let payloads: [(&[u8], &[usize]); 5] = [
        (
            PARTITIONS,
            &[0, 1, 2, 3, 4, 4, 6, 7, 8, 8, 10, 11, 12, 13, 14, 15],
        ),
        (
            FILES,
            &[0, 1, 2, 3, 4, 4, 6, 7, 8, 8, 10, 10, 12, 13, 14, 15, 16],
        ),
        (
            STATS,
            &[
                0, 1, 2, 3, 4, 5, 5, 7, 7, 9, 10, 11, 12, 12, 14, 15, 16, 17, 17, 19, 20,
            ],
        ),
        (BLOOM, &[0, 1, 2, 3, 4, 4, 4, 4, 4, 4, 4, 4, 4, 13, 14, 15]),
        (
            LOCATION,
            &[
                0, 1, 2, 3, 4, 5, 6, 6, 8, 8, 10, 10, 10, 10, 10, 10, 10, 10, 18,
            ],
        ),
    ];
    for (bytes, places) in payloads {
        assert_eq!(rt; places.len(), bytes.len());
        for (len, &at) in places.iter().enumerate() {
            assert_eq!(rt;
                encoded(rt.alloc(), &bytes[..len]),
                Err(PayloadError::BadPayload { at }),
                "{len}"
            );
        }
    }
}

#[test]
fn a_broken_field_is_refused_at_its_place(rt: HostRuntime) {
    for (what, bytes, at) in BROKEN {
        assert_eq!(rt;
            encoded(rt.alloc(), bytes),
            Err(PayloadError::BadPayload { at }),
            "{what}"
        );
    }
}

#[test]
fn a_list_of_one_file_has_twelve_bytes(rt: HostRuntime) -> Result<(), Fail> {
    let alloc = rt.alloc();
    let mut words = Listed::new(alloc);
    words.push(NameWord {
        name: Text::from_str(alloc, "f")?,
        size: 5,
        deleted: false,
    })?;
    let written = encode(alloc, &Payload::Files(words))?;
    assert_eq!(rt;
        written.as_slice(),
        b"\x00\x04\x02\x02\x02\x66\x0a\x00\x00\x00\x00\x00".as_slice()
    );
    Ok(())
}

// What the older and the newer payload together are written as.
fn combined(alloc: Global, older: &[u8], newer: &[u8]) -> Result<Vec<u8>, PayloadError> {
    let older = decode(alloc, older)?;
    let newer = decode(alloc, newer)?;
    let both = combine(alloc, older, newer).map_err(|_e| PayloadError::NoMemory)?;
    encode(alloc, &both).map_err(|_e| PayloadError::NoMemory)
}

#[test]
fn the_newer_word_of_a_name_stands_and_deleted_words_stay(rt: HostRuntime) {
    let older = b"\x00\x04\x02\x06\x02\x61\x02\x00\x02\x62\x04\x00\x02\x64\x00\x01\x00\x00\x00\x00";
    let newer = b"\x00\x04\x02\x06\x02\x62\x00\x01\x02\x63\x06\x00\x02\x64\x0a\x00\x00\x00\x00\x00";
    let both: &[u8] =
        b"\x00\x04\x02\x08\x02\x61\x02\x00\x02\x62\x00\x01\x02\x63\x06\x00\x02\x64\x0a\x00\x00\x00\x00\x00";
    let empty = b"\x00\x04\x02\x00\x00\x00\x00";
    let cases: [(&[u8], &[u8], &[u8]); 5] = [
        (older, newer, both),
        (both, newer, both),
        (empty, newer, newer),
        (older, empty, older),
        (
            b"\x00\x02\x02\x02\x02\x61\x00\x00\x00\x00\x00\x00",
            b"\x00\x02\x02\x02\x02\x62\x00\x00\x00\x00\x00\x00",
            PARTITIONS,
        ),
    ];
    for (older, newer, both) in cases {
        assert!(rt;
            matches!(combined(rt.alloc(), older, newer), Ok(bytes) if bytes.as_slice() == both)
        );
    }
}

#[test]
fn the_newer_payload_stands_unless_both_are_lists_of_one_kind(rt: HostRuntime) {
    let pairs = [(BLOOM, LOCATION), (FILES, PARTITIONS), (STATS, FILES)];
    for (older, newer) in pairs {
        assert!(rt;
            matches!(combined(rt.alloc(), older, newer), Ok(bytes) if bytes.as_slice() == newer)
        );
    }
}
