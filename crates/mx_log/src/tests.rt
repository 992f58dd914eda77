use super::*;
use std::test::*;

// One entry at instant 5: what the format says, byte for byte.
const LOG: &[u8] = b"#HUDI#\x00\x01\x00\x00\x00\x00\x00\x00\x00\x05\x00\x00\x00\x00\x00\x00\x00\x7e\
    DATABLK*\x00\x00\x00\x13\x00\x01p\x00\x00\x00\x0c\
    \x00\x04\x02\x02\x02\x66\x0a\x00\x00\x00\x00\x00\
    IDXROOT2\x00\x00\x00\x13\x00\x00\x00\x01\
    \x00\x00\x00\x00\x00\x00\x00\x00\x00\x00\x00\x1f\x00\x01p\
    MDTTRAIL\x00\x00\x00\x01\x00\x00\x00\x00\
    \x00\x00\x00\x00\x00\x00\x00\x1f\x00\x00\x00\x00\x00\x00\x00\x1f\
    \x00\x00\x00\x00\x00\x00\x00\x01\x00\x00\x00\x01\x00\x00\x00\x00\
    \x00\x00\x00\x00\x00\x00\x00\x00\x00\x00\x00\x00\x00\x00\x00\x00";

// Where a byte of the log is changed, what to, and the place of the field that is broken then.
const BROKEN: [(usize, u8, usize); 10] = [
    (0, b'-', 0),
    (5, b'-', 0),
    (7, 2, 6),
    (15, 0, 8),
    (8, 2, 8),
    (23, 0x7d, 16),
    (24, b'd', 24),
    (38, b'q', 38),
    (86, b'm', 86),
    (149, 1, 134),
];

#[test]
fn a_log_is_read_and_written_as_the_format_says(rt: HostRuntime) -> Result<(), Fail> {
    let alloc = rt.alloc();
    let (at, entries) = read_log(alloc, LOG)?;
    assert_eq!(rt; at.number(), 5);
    assert_eq!(rt; entries.len(), 1);
    let out = write_log(alloc, at, &entries)?;
    assert_eq!(rt; out.as_slice(), LOG);
    Ok(())
}

#[test]
fn the_first_broken_rule_is_named_by_its_place_in_the_log(rt: HostRuntime) -> Result<(), Fail> {
    let alloc = rt.alloc();
    for (place, byte, at) in BROKEN {
        let mut bytes = Vec::from_slice(alloc, LOG)?;
        if let Some(old) = bytes.get_mut(place) {
            *old = byte;
        }
        let read = read_log(alloc, &bytes);
        assert_eq!(rt; read.err(), Some(LogError::BadLog { at }), "{place}");
    }
    Ok(())
}

#[test]
fn a_log_that_is_cut_or_has_bytes_behind_it_is_refused(rt: HostRuntime) -> Result<(), Fail> {
    let alloc = rt.alloc();
    for len in 0..LOG.len() {
        let at = match len {
            0..6 => 0,
            6 | 7 => 6,
            8..16 => 8,
            _ => 16,
        };
        let read = read_log(alloc, &LOG[..len]);
        assert_eq!(rt; read.err(), Some(LogError::BadLog { at }), "{len}");
    }
    let mut longer = Vec::from_slice(alloc, LOG)?;
    longer.push(0)?;
    let read = read_log(alloc, &longer);
    assert_eq!(rt; read.err(), Some(LogError::BadLog { at: 16 }));
    Ok(())
}
