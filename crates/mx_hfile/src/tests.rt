ghost use Rattle.std.specs.Prelude.{◌≡◌, ◌≤◌, IsTrue, length};
ghost use Rattle.mx_hfile.specs.Encoding.{AreEntries, encoding};

use super::*;
use mx_base::Entry;
use mx_lists::{Bytes, Same};
use std::alloc::{AllocError, Global};
use std::test::*;

type Pairs = &'static [(&'static [u8], &'static [u8])];

pub(crate) const VALUE: &[u8] = b"\x00\x04\x02\x02\x02\x66\x0a\x00\x00\x00\x00\x00";

// No entries, and one entry: what the format says, byte for byte.
const WRITTEN: [(Pairs, &[u8]); 2] = [
    (
        &[],
        b"IDXROOT2\x00\x00\x00\x04\x00\x00\x00\x00\
        MDTTRAIL\x00\x00\x00\x01\x00\x00\x00\x00\
        \x00\x00\x00\x00\x00\x00\x00\x00\x00\x00\x00\x00\x00\x00\x00\x10\
        \x00\x00\x00\x00\x00\x00\x00\x00\x00\x00\x00\x00\x00\x00\x00\x00\
        \x00\x00\x00\x00\x00\x00\x00\x00\x00\x00\x00\x00\x00\x00\x00\x00",
    ),
    (&[(b"p", VALUE)], ONE),
];

pub(crate) const ONE: &[u8] = b"DATABLK*\x00\x00\x00\x13\x00\x01p\x00\x00\x00\x0c\
    \x00\x04\x02\x02\x02\x66\x0a\x00\x00\x00\x00\x00\
    IDXROOT2\x00\x00\x00\x13\x00\x00\x00\x01\
    \x00\x00\x00\x00\x00\x00\x00\x00\x00\x00\x00\x1f\x00\x01p\
    MDTTRAIL\x00\x00\x00\x01\x00\x00\x00\x00\
    \x00\x00\x00\x00\x00\x00\x00\x1f\x00\x00\x00\x00\x00\x00\x00\x1f\
    \x00\x00\x00\x00\x00\x00\x00\x01\x00\x00\x00\x01\x00\x00\x00\x00\
    \x00\x00\x00\x00\x00\x00\x00\x00\x00\x00\x00\x00\x00\x00\x00\x00";

// Where a byte of the file of one entry is changed, what to, and the place of the field that is broken then.
const BROKEN: [(usize, u8, usize); 27] = [
    (0, b'd', 0),
    (11, 0x12, 8),
    (11, 0x14, 8),
    (13, 0, 12),
    (13, 2, 14),
    (14, b'q', 14),
    (14, b'o', 14),
    (18, 13, 19),
    (18, 11, 30),
    (38, b'1', 31),
    (42, 0x14, 39),
    (46, 2, 43),
    (54, 1, 47),
    (58, 0x1e, 55),
    (58, 0x20, 55),
    (60, 0, 59),
    (60, 2, 61),
    (62, b'm', 62),
    (73, 2, 70),
    (77, 1, 74),
    (85, 0x1e, 86),
    (85, 0x2f, 78),
    (93, 0x1e, 86),
    (101, 2, 94),
    (105, 0, 43),
    (109, 1, 106),
    (125, 1, 110),
];

pub(crate) fn entry(alloc: Global, key: &[u8], value: &[u8]) -> Result<Entry, AllocError> {
    Ok(Entry {
        key: Bytes::from_slice(alloc, key)?,
        value: Bytes::from_slice(alloc, value)?,
    })
}

fn entries_of(alloc: Global, pairs: &[(&[u8], &[u8])]) -> Result<Vec<Entry>, AllocError> {
    let mut entries = Vec::new(alloc);
    for &(key, value) in pairs {
        entries.push(entry(alloc, key, value)?)?;
    }
    Ok(entries)
}

// An entry whose value has so many bytes.
pub(crate) fn long_entry(alloc: Global, key: &[u8], len: usize) -> Result<Entry, AllocError> {
    let mut value = Vec::new(alloc);
    value.resize(len, 7)?;
    entry(alloc, key, &value)
}

fn are_entries(entries: &[Entry]) -> bool
    ensures { IsTrue result → AreEntries entries.now }
{
    let mut last: &[u8] = &[];
    for entry in entries {
        let key = entry.key.as_slice();
        if key.len() > 65_535 || !last.cmp(key).is_lt() {
            return false;
        }
        last = key;
    }
    true
}

// The file of the entries, where they have one.
pub(crate) fn written(alloc: Global, entries: &[Entry]) -> Result<Option<Vec<u8>>, AllocError> {
    if !are_entries(entries) || size(entries) > MOST_BYTES as u64 {
        return Ok(None);
    }
    Ok(Some(write(alloc, entries)?))
}

fn are_same(a: &[Entry], b: &[Entry]) -> bool {
    if a.len() != b.len() {
        return false;
    }
    for (one, other) in a.iter().zip(b) {
        if !one.key.same(&other.key) || !one.value.same(&other.value) {
            return false;
        }
    }
    true
}

// A file whose first block's body has 16,384 bytes.
fn two_blocks(alloc: Global) -> Result<Vec<Entry>, AllocError> {
    let mut entries = Vec::new(alloc);
    entries.push(long_entry(alloc, b"a", 16_377)?)?;
    entries.push(long_entry(alloc, b"b", 1)?)?;
    Ok(entries)
}

#[test]
fn entries_are_written_as_the_format_says_and_read_again(rt: HostRuntime) -> Result<(), Fail> {
    let alloc = rt.alloc();
    for (pairs, bytes) in WRITTEN {
        let entries = entries_of(alloc, pairs)?;
        let out = written(alloc, &entries)?.expect(&rt, "a file");
        assert_eq!(rt; out.as_slice(), bytes);
        assert_eq!(rt; size(&entries), bytes.len() as u64);
        assert!(rt; are_same(&read(alloc, bytes)?, &entries));
    }
    Ok(())
}

#[test]
fn the_first_broken_rule_is_named_by_the_start_of_its_field(rt: HostRuntime) -> Result<(), Fail> {
    let alloc = rt.alloc();
    for (place, byte, at) in BROKEN {
        let mut bytes = Vec::from_slice(alloc, ONE)?;
        if let Some(old) = bytes.get_mut(place) {
            *old = byte;
        }
        let read = read(alloc, &bytes);
        assert_eq!(rt;
            read.err(),
            Some(HFileError::BadHFile { at }),
            "{place} {byte}"
        );
    }
    Ok(())
}

#[test]
fn a_file_that_is_cut_or_has_bytes_behind_it_is_refused(rt: HostRuntime) -> Result<(), Fail> {
    let alloc = rt.alloc();
    let entries = two_blocks(alloc)?;
    let mut bytes = written(alloc, &entries)?.expect(&rt, "a file");
    let whole = bytes.len();
    for len in 0..whole {
        let read = read(alloc, &bytes[..len]);
        let at = if len < 80 { 0 } else { len - 64 };
        assert_eq!(rt; read.err(), Some(HFileError::BadHFile { at }), "{len}");
    }
    bytes.push(0)?;
    let read = read(alloc, &bytes);
    assert_eq!(rt;
        read.err(),
        Some(HFileError::BadHFile {
            at: whole.saturating_sub(63)
        })
    );
    Ok(())
}

#[test]
fn a_byte_that_is_changed_is_refused_or_makes_the_file_of_other_entries(
    rt: HostRuntime,
) -> Result<(), Fail> {
    let alloc = rt.alloc();
    let entries = two_blocks(alloc)?;
    let file = written(alloc, &entries)?.expect(&rt, "a file");
    for place in 0..file.len() {
        // All but most bytes of the long value.
        if place > 40 && place < 16_380 {
            continue;
        }
        let mut bytes = file.clone()?;
        if let Some(old) = bytes.get_mut(place) {
            *old ^= 1;
        }
        if let Ok(other) = read(alloc, &bytes) {
            assert!(rt; !are_same(&other, &entries), "{place}");
            let again = written(alloc, &other)?.expect(&rt, "a file");
            assert_eq!(rt; again.as_slice(), bytes.as_slice(), "{place}");
        }
    }
    Ok(())
}

#[test]
fn an_entry_begins_a_block_once_the_body_has_16384_bytes(rt: HostRuntime) -> Result<(), Fail> {
    let alloc = rt.alloc();
    // The bytes of the first value, the length of the file, and the number of blocks.
    let cases = [
        (16_376, 16_498, 1),
        (16_377, 16_526, 2),
        (16_378, 16_527, 2),
    ];
    for (value, len, blocks) in cases {
        let mut entries = Vec::new(alloc);
        entries.push(long_entry(alloc, b"a", value)?)?;
        entries.push(long_entry(alloc, b"b", 1)?)?;
        let out = written(alloc, &entries)?.expect(&rt, "a file");
        assert_eq!(rt; out.len(), len);
        assert_eq!(rt; size(&entries), len as u64);
        assert_eq!(rt; out.get(len - 21).copied(), Some(blocks));
        assert!(rt; are_same(&read(alloc, &out)?, &entries));
    }
    Ok(())
}

#[test]
fn keys_have_1_to_65535_bytes_and_rise(rt: HostRuntime) -> Result<(), Fail> {
    let alloc = rt.alloc();
    let mut long = Vec::new(alloc);
    long.resize(65_535, b'k')?;
    let mut entries = Vec::new(alloc);
    entries.push(entry(alloc, b"a", b"")?)?;
    entries.push(entry(alloc, &long, b"v")?)?;
    let out = written(alloc, &entries)?.expect(&rt, "a file");
    assert!(rt; are_same(&read(alloc, &out)?, &entries));
    long.push(b'k')?;
    entries.push(entry(alloc, &long, b"v")?)?;
    assert!(rt; written(alloc, &entries)?.is_none());
    Ok(())
}

#[test]
fn a_key_that_does_not_rise_is_refused_at_its_place(rt: HostRuntime) -> Result<(), Fail> {
    let alloc = rt.alloc();
    let entries = entries_of(alloc, &[(b"p", VALUE), (b"q", b"v")])?;
    for key in [b'p', b'o', b'a'] {
        let mut bytes = written(alloc, &entries)?.expect(&rt, "a file");
        if let Some(old) = bytes.get_mut(33) {
            *old = key;
        }
        let read = read(alloc, &bytes);
        assert_eq!(rt; read.err(), Some(HFileError::BadHFile { at: 33 }), "{key}");
    }
    Ok(())
}
