use super::*;
use mx_base::{Entry, Instant};
use mx_lists::{Bytes, Listed};
use mx_payload::Payload;
use std::alloc::Global;
use std::test::*;

// The file `f` of 5 bytes, byte for byte as in docs/FORMATS.md; then of 9 bytes, deleted, beside `g`, and `g` alone.
const F_5: &[u8] = b"\x00\x04\x02\x02\x02\x66\x0a\x00\x00\x00\x00\x00";

const F_9: &[u8] = b"\x00\x04\x02\x02\x02\x66\x12\x00\x00\x00\x00\x00";

const NO_F: &[u8] = b"\x00\x04\x02\x02\x02\x66\x00\x01\x00\x00\x00\x00";

const F_5_G_3: &[u8] = b"\x00\x04\x02\x04\x02\x66\x0a\x00\x02\x67\x06\x00\x00\x00\x00\x00";

const G_3: &[u8] = b"\x00\x04\x02\x02\x02\x67\x06\x00\x00\x00\x00\x00";

const NO_FILES: &[u8] = b"\x00\x04\x02\x00\x00\x00\x00";

const A: &[u8] = b"\x00\x02\x02\x02\x02\x61\x00\x00\x00\x00\x00\x00";

const B: &[u8] = b"\x00\x02\x02\x02\x02\x62\x00\x00\x00\x00\x00\x00";

const A_B: &[u8] = b"\x00\x02\x02\x04\x02\x61\x00\x00\x02\x62\x00\x00\x00\x00\x00\x00";

const STATS: &[u8] =
    b"\x00\x06\x00\x00\x02\x02\x66\x02\x63\x06\x03\x08\x02\x7a\x06\x02\x30\xd8\x04\x00\x00";

const NO_STATS: &[u8] = b"\x00\x06\x00\x00\x02\x02\x66\x02\x63\x00\x00\x00\x00\x00\x00\x01\x00";

const BLOOM: &[u8] = b"\x00\x08\x00\x02\x10\x00\x2a\x00\x00\x00\x55\x00\x00\x00\x00\x00";

const NO_BLOOM: &[u8] = b"\x00\x08\x00\x02\x00\x01\x00\x00";

const LOCATION: &[u8] =
    b"\x00\x0a\x00\x00\x00\x02\x02\x70\x02\x67\x80\xc8\xaa\xcc\x81\xd7\xf8\x47\x00";

const NO_LOCATION: &[u8] =
    b"\x00\x0a\x00\x00\x00\x02\x02\x70\x02\x67\x80\xc8\xaa\xcc\x81\xd7\xf8\x47\x01";

// Files whose branch says that they are absent, and a kind that is none.
const BAD_AT_2: &[u8] = b"\x00\x04\x00\x00\x00\x00";

const BAD_AT_1: &[u8] = b"\x00\x00\x00\x00\x00\x00";

fn entries_of(alloc: Global, pairs: &[(&[u8], &[u8])]) -> Result<Listed<Entry>, MergeError> {
    let mut entries = Listed::new(alloc);
    for &(key, value) in pairs {
        entries.push(Entry {
            key: Bytes::from_slice(alloc, key)?,
            value: Bytes::from_slice(alloc, value)?,
        })?;
    }
    Ok(entries)
}

// A log for each value on the key `k`.
fn logs_of(alloc: Global, values: &[&[u8]]) -> Result<Vec<Log>, MergeError> {
    let mut logs = Vec::new(alloc);
    for &value in values {
        logs.push(Log {
            at: Instant::new(5).ok_or(MergeError::NoMemory)?,
            entries: entries_of(alloc, &[(b"k", value)])?,
        })?;
    }
    Ok(logs)
}

// What `k` shows that has the one value in the base, and each other one in a log.
fn shown(alloc: Global, base: &[u8], newer: &[&[u8]]) -> Result<Option<Entry>, MergeError> {
    let base = entries_of(alloc, &[(b"j", BAD_AT_1), (b"k", base)])?;
    let logs = logs_of(alloc, newer)?;
    look(alloc, base.as_slice(), logs.as_slice(), b"k")
}

fn shows(alloc: Global, base: &[u8], newer: &[&[u8]], value: &[u8]) -> bool {
    match shown(alloc, base, newer) {
        Ok(Some(entry)) => entry.key.as_slice() == b"k".as_slice()
            && entry.value.as_slice() == value,
        _ => false,
    }
}

#[test]
fn of_each_name_the_newest_word_is_shown(rt: HostRuntime) {
    let cases: [(&str, &[u8], &[&[u8]], &[u8]); 9] = [
        ("alone", F_5, &[], F_5),
        ("a newer word stands over an older one", F_5, &[F_9], F_9),
        ("the last log is the newest", F_9, &[NO_F, F_9, F_5], F_5),
        ("a deleted name is gone", F_5_G_3, &[NO_F], G_3),
        ("names of both lists", G_3, &[F_5], F_5_G_3),
        ("an empty list is shown", F_5, &[NO_F], NO_FILES),
        ("partitions", B, &[A], A_B),
        (
            "another kind takes the place of all",
            F_5,
            &[BLOOM, G_3],
            G_3,
        ),
        ("and of another list", F_5, &[A], A),
    ];
    for (what, base, newer, value) in cases {
        assert!(rt; shows(rt.alloc(), base, newer, value), "{what}");
    }
}

#[test]
fn what_is_deleted_shows_nothing_until_there_is_a_newer_one(rt: HostRuntime) {
    let kinds: [(&[u8], &[u8]); 3] = [
        (STATS, NO_STATS),
        (BLOOM, NO_BLOOM),
        (LOCATION, NO_LOCATION),
    ];
    for (payload, deleted) in kinds {
        let alloc = rt.alloc();
        assert!(rt; shows(alloc, payload, &[], payload));
        assert!(rt; matches!(shown(alloc, payload, &[deleted]), Ok(None)));
        assert!(rt; shows(alloc, payload, &[deleted, payload], payload));
    }
}

fn count_of_files(alloc: Global) -> Result<usize, MergeError> {
    let base = entries_of(alloc, &[(b"k", F_5_G_3)])?;
    match payload_on(alloc, base.as_slice(), &[], b"k")? {
        Some(Payload::Files(words)) => Ok(words.len()),
        _ => Ok(0),
    }
}

#[test]
fn a_payload_on_a_key_is_read(rt: HostRuntime) {
    assert_eq!(rt; count_of_files(rt.alloc()), Ok(2));
}

const MANY: [(&[u8], &[u8]); 6] = [
    (b"ab", F_5),
    (b"b", BLOOM),
    (b"ba", A),
    (b"k", F_5),
    (b"ka", B),
    (b"l", NO_BLOOM),
];

fn are(entries: Result<Listed<Entry>, MergeError>, pairs: &[(&[u8], &[u8])]) -> bool {
    let Ok(entries) = entries else {
        return false;
    };
    entries.len() == pairs.len()
        && entries.as_slice().iter().zip(pairs).all(|(entry, pair)| entry.key.as_slice() == pair.0
            && entry.value.as_slice() == pair.1)
}

fn scanned(alloc: Global, prefix: &[u8]) -> Result<Listed<Entry>, MergeError> {
    let base = entries_of(alloc, &MANY)?;
    let logs = logs_of(alloc, &[NO_F, G_3])?;
    scan(alloc, base.as_slice(), logs.as_slice(), prefix)
}

fn merged(alloc: Global, base: &[(&[u8], &[u8])]) -> Result<Listed<Entry>, MergeError> {
    let base = entries_of(alloc, base)?;
    let logs = logs_of(alloc, &[NO_F, G_3])?;
    merge(alloc, base.as_slice(), logs.as_slice())
}

#[test]
fn keys_that_show_something_are_merged_in_their_order(rt: HostRuntime) {
    let all: [(&[u8], &[u8]); 5] = [
        (b"ab", F_5),
        (b"b", BLOOM),
        (b"ba", A),
        (b"k", G_3),
        (b"ka", B),
    ];
    assert!(rt; are(merged(rt.alloc(), &MANY), &all));
    assert!(rt; are(scanned(rt.alloc(), b"k"), &[(b"k", G_3), (b"ka", B)]));
    assert!(rt; are(scanned(rt.alloc(), b"l"), &[]));
}

#[test]
fn of_the_least_key_with_a_bad_value_the_oldest_one_is_told(rt: HostRuntime) {
    let alloc = rt.alloc();
    let cases: [(&[(&[u8], &[u8])], usize); 3] = [
        (
            &[
                (b"l", BAD_AT_1),
                (b"c", F_5),
                (b"c", BAD_AT_2),
                (b"c", BAD_AT_1),
            ],
            2,
        ),
        (&[(b"m", BAD_AT_2), (b"l", BAD_AT_1)], 1),
        (&[(b"k", BAD_AT_2), (b"kk", BAD_AT_1)], 2),
    ];
    for (base, at) in cases {
        assert_eq!(rt;
            merged(alloc, base).err(),
            Some(MergeError::BadPayload { at })
        );
    }
    assert_eq!(rt;
        shown(alloc, BAD_AT_2, &[F_5, BAD_AT_1]).err(),
        Some(MergeError::BadPayload { at: 2 })
    );
}
