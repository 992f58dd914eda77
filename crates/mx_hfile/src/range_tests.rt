use super::*;
use crate::tests::{ONE, VALUE, entry, long_entry, written};
use mx_base::Entry;
use std::alloc::{AllocError, Global};
use std::test::*;

// The bytes of a place of a file, or none where it has no such place.
fn part(file: &[u8], place: (u64, u64)) -> &[u8] {
    let (at, len) = (place.0 as usize, place.1 as usize);
    if at > file.len() || len > file.len() - at {
        return &[];
    }
    let (_, rest) = file.split_at(at);
    rest.split_at(len).0
}

fn trailer_of(file: &[u8]) -> &[u8] {
    part(file, ((file.len() as u64).saturating_sub(64), 64))
}

// The index of a file, by two ranges.
fn index_of(alloc: Global, file: &[u8]) -> Result<Index, HFileError> {
    let trailer = trailer_of(file);
    let place = index_place(trailer)?;
    Index::load(alloc, trailer, part(file, place))
}

// The value of a key in a file, by one more range.
fn value_of<'a>(file: &'a [u8], index: &Index, key: &[u8]) -> Result<Option<&'a [u8]>, HFileError> {
    let Some(block) = index.block_for(key) else {
        return Ok(None);
    };
    let (at, len) = index.place(block);
    let bytes = part(file, (at, u64::from(len)));
    let Some((start, end)) = search(bytes, key)? else {
        return Ok(None);
    };
    let place = (start as u64, (end as u64).saturating_sub(start as u64));
    Ok(Some(part(bytes, place)))
}

// Three blocks, of which the first has a body of 16,384 bytes.
fn three_blocks(alloc: Global) -> Result<Vec<Entry>, AllocError> {
    let mut entries = Vec::new(alloc);
    entries.push(long_entry(alloc, b"b", 16_377)?)?;
    entries.push(entry(alloc, b"ca", b"v1")?)?;
    entries.push(long_entry(alloc, b"cb", 16_400)?)?;
    entries.push(entry(alloc, b"cc", b"")?)?;
    entries.push(entry(alloc, b"d", b"v2")?)?;
    Ok(entries)
}

// Keys, the block that each belongs to, and how many bytes its value has.
const KEYS: [(&[u8], Option<u32>, Option<usize>); 13] = [
    (b"", None, None),
    (b"a", None, None),
    (b"b", Some(0), Some(16_377)),
    (b"ba", Some(0), None),
    (b"c", Some(0), None),
    (b"ca", Some(1), Some(2)),
    (b"ca\x00", Some(1), None),
    (b"cb", Some(1), Some(16_400)),
    (b"cbz", Some(1), None),
    (b"cc", Some(2), Some(0)),
    (b"cd", Some(2), None),
    (b"d", Some(2), Some(2)),
    (b"\xff", Some(2), None),
];

// Prefixes, and the blocks that can hold a key with each.
const PREFIXES: [(&[u8], (u32, u32)); 11] = [
    (b"", (0, 3)),
    (b"a", (0, 0)),
    (b"b", (0, 1)),
    (b"bb", (0, 1)),
    (b"c", (0, 3)),
    (b"ca", (1, 2)),
    (b"cb", (1, 2)),
    (b"cbz", (1, 2)),
    (b"cc", (2, 3)),
    (b"cd", (2, 3)),
    (b"\xff", (2, 3)),
];

// Where a byte of the file of one entry is changed, what to, and the place of the fault: in the trailer's bytes, in
// the file for the index block, in the block's bytes.
const BAD_TRAILERS: [(usize, u8, usize); 9] = [
    (62, b'm', 0),
    (73, 2, 8),
    (77, 1, 12),
    (78, 1, 16),
    (82, 16, 16),
    (86, 1, 24),
    (93, 15, 24),
    (109, 1, 44),
    (125, 1, 48),
];

const BAD_INDEXES: [(usize, u8, usize); 9] = [
    (38, b'1', 31),
    (42, 0x14, 39),
    (46, 2, 43),
    (54, 1, 47),
    (58, 0x1e, 55),
    (58, 0x20, 55),
    (60, 0, 59),
    (60, 2, 61),
    (105, 0, 43),
];

const BAD_BLOCKS: [(usize, u8, usize); 6] = [
    (0, b'd', 0),
    (11, 0x12, 8),
    (11, 0x14, 8),
    (13, 0, 12),
    (18, 13, 19),
    (18, 11, 30),
];

fn changed(alloc: Global, place: usize, byte: u8) -> Result<Vec<u8>, AllocError> {
    let mut bytes = Vec::from_slice(alloc, ONE)?;
    if let Some(old) = bytes.get_mut(place) {
        *old = byte;
    }
    Ok(bytes)
}

fn is_bad<T: Drop>(read: Result<T, HFileError>, at: usize) -> bool {
    match read {
        Ok(_) => false,
        Err(error) => error == HFileError::BadHFile { at },
    }
}

#[test]
fn one_entry_and_none_are_found_by_ranges(rt: HostRuntime) -> Result<(), Fail> {
    let alloc = rt.alloc();
    let none = written(alloc, &[])?.expect(&rt, "a file");
    assert_eq!(rt; index_place(trailer_of(&none))?, (0, 16));
    let index = index_of(alloc, &none)?;
    assert_eq!(rt; index.blocks(), 0);
    assert_eq!(rt; index.block_for(b"p"), None);
    assert_eq!(rt; index.blocks_with(b""), (0, 0));
    assert_eq!(rt; index_place(trailer_of(ONE))?, (31, 31));
    let index = index_of(alloc, ONE)?;
    assert_eq!(rt; index.blocks(), 1);
    assert_eq!(rt; search(part(ONE, (0, 31)), b"p")?, Some((19, 31)));
    assert_eq!(rt; search(part(ONE, (0, 31)), b"q")?, None);
    assert_eq!(rt; value_of(ONE, &index, b"p")?, Some(VALUE));
    Ok(())
}

#[test]
fn each_key_is_found_in_its_block_and_no_other_key_is(rt: HostRuntime) -> Result<(), Fail> {
    let alloc = rt.alloc();
    let entries = three_blocks(alloc)?;
    let file = written(alloc, &entries)?.expect(&rt, "a file");
    let index = index_of(alloc, &file)?;
    for (key, block, len) in KEYS {
        assert_eq!(rt; index.block_for(key), block, "{key:?}");
        let found = value_of(&file, &index, key)?.map(|value: &[u8]| value.len());
        assert_eq!(rt; found, len, "{key:?}");
    }
    for entry in entries.iter() {
        let found = value_of(&file, &index, entry.key.as_slice())?;
        assert_eq!(rt; found, Some(entry.value.as_slice()));
    }
    Ok(())
}

#[test]
fn the_blocks_of_a_prefix_are_those_that_can_hold_it(rt: HostRuntime) -> Result<(), Fail> {
    let alloc = rt.alloc();
    let entries = three_blocks(alloc)?;
    let file = written(alloc, &entries)?.expect(&rt, "a file");
    let index = index_of(alloc, &file)?;
    for (prefix, blocks) in PREFIXES {
        assert_eq!(rt; index.blocks_with(prefix), blocks, "{prefix:?}");
    }
    Ok(())
}

#[test]
fn keys_of_1_and_65535_bytes_are_found(rt: HostRuntime) -> Result<(), Fail> {
    let alloc = rt.alloc();
    let mut long = Vec::new(alloc);
    long.resize(65_535, b'k')?;
    let mut entries = Vec::new(alloc);
    entries.push(entry(alloc, b"a", b"1")?)?;
    entries.push(entry(alloc, &long, b"2")?)?;
    entries.push(entry(alloc, b"l", b"3")?)?;
    let file = written(alloc, &entries)?.expect(&rt, "a file");
    let index = index_of(alloc, &file)?;
    assert_eq!(rt; index.blocks(), 2);
    assert_eq!(rt; value_of(&file, &index, b"a")?, Some(b"1".as_slice()));
    assert_eq!(rt; value_of(&file, &index, &long)?, Some(b"2".as_slice()));
    assert_eq!(rt; value_of(&file, &index, b"l")?, Some(b"3".as_slice()));
    assert_eq!(rt; index.blocks_with(&long), (0, 1));
    long.push(b'k')?;
    assert_eq!(rt; index.blocks_with(&long), (0, 0));
    assert_eq!(rt; value_of(&file, &index, &long)?, None);
    Ok(())
}

#[test]
fn a_fault_is_placed_in_the_trailer_the_file_or_the_block(rt: HostRuntime) -> Result<(), Fail> {
    let alloc = rt.alloc();
    for (place, byte, at) in BAD_TRAILERS {
        let file = changed(alloc, place, byte)?;
        assert!(rt; is_bad(index_place(trailer_of(&file)), at), "{place}");
        assert!(rt;
            is_bad(Index::load(alloc, trailer_of(&file), &[]), at),
            "{place}"
        );
    }
    for (place, byte, at) in BAD_INDEXES {
        let file = changed(alloc, place, byte)?;
        assert!(rt; is_bad(index_of(alloc, &file), at), "{place}");
    }
    for (place, byte, at) in BAD_BLOCKS {
        let file = changed(alloc, place, byte)?;
        assert!(rt; is_bad(search(part(&file, (0, 31)), b"p"), at), "{place}");
    }
    Ok(())
}

#[test]
fn bytes_that_are_cut_or_have_one_behind_them_are_refused(rt: HostRuntime) -> Result<(), Fail> {
    let alloc = rt.alloc();
    let trailer = trailer_of(ONE);
    for len in 0..64 {
        assert!(rt; is_bad(index_place(part(ONE, (62, len))), 0), "{len}");
    }
    assert!(rt; is_bad(index_place(part(ONE, (61, 65))), 0));
    for len in 0..31 {
        let index = part(ONE, (31, len));
        assert!(rt; is_bad(Index::load(alloc, trailer, index), 31), "{len}");
        let at = if len < 8 { 0 } else { 8 };
        assert!(rt; is_bad(search(part(ONE, (0, len)), b"p"), at), "{len}");
    }
    assert!(rt; is_bad(Index::load(alloc, trailer, part(ONE, (31, 32))), 31));
    assert!(rt; is_bad(search(part(ONE, (0, 32)), b"p"), 8));
    Ok(())
}
