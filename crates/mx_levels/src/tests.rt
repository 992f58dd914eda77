use super::*;
use std::test::*;

#[test]
fn levels_are_written_as_runs_and_read_again(rt: HostRuntime) -> Result<(), Fail> {
    let long = [true; 100];
    let cases: [(&[bool], &[u8]); 6] = [
        (&[], &[]),
        (&[true], &[0x02, 0x01]),
        (&[true, true, false], &[0x04, 0x01, 0x02, 0x00]),
        (&[false, true, false], &[0x02, 0x00, 0x02, 0x01, 0x02, 0x00]),
        (&[false, false], &[0x04, 0x00]),
        (&long, &[0xc8, 0x01, 0x01]),
    ];
    for (levels, bytes) in cases {
        let out = write_levels(rt.alloc(), levels)?;
        assert_eq!(rt; out.as_slice(), bytes, "{bytes:?}");
        let read = read_levels(rt.alloc(), &out, levels.len())?;
        assert_eq!(rt; read.as_slice(), levels, "{bytes:?}");
    }
    Ok(())
}

#[test]
fn runs_of_both_kinds_are_read_until_the_count_is_reached(rt: HostRuntime) -> Result<(), Fail> {
    let cases: [(&[u8], &[bool]); 7] = [
        (&[], &[]),
        (&[0x04, 0x01, 0x02, 0x00], &[true, true, false]),
        (&[0x03, 0x03], &[true, true, false]),
        (&[0x02, 0x01, 0x02, 0x01], &[true, true]),
        (
            &[0x03, 0x81],
            &[true, false, false, false, false, false, false, true],
        ),
        (
            &[0x05, 0x00, 0xff],
            &[false, false, false, false, false, false, false, false, true],
        ),
        (
            &[0x03, 0xfe, 0x02, 0x01],
            &[false, true, true, true, true, true, true, true, true],
        ),
    ];
    for (bytes, levels) in cases {
        let read = read_levels(rt.alloc(), bytes, levels.len())?;
        assert_eq!(rt; read.as_slice(), levels, "{bytes:?}");
    }
    Ok(())
}

// Bytes with the count of levels that is wanted, and the place of the first bad run's header.
const BAD_RUNS: [(&[u8], usize, usize); 17] = [
    (&[0x02, 0x01], 0, 0),
    (&[0x00], 0, 0),
    (&[0x04, 0x02], 2, 0),
    (&[0x04, 0x01, 0x02, 0x02], 3, 2),
    (&[0x04, 0x01, 0x02, 0x00, 0x00], 3, 4),
    (&[0x03, 0x03, 0x00], 3, 2),
    (&[0x84, 0x00, 0x01], 2, 0),
    (
        &[
            0x80, 0x80, 0x80, 0x80, 0x80, 0x80, 0x80, 0x80, 0x80, 0x02, 0x01,
        ],
        2,
        0,
    ),
    (
        &[
            0x84, 0x80, 0x80, 0x80, 0x80, 0x80, 0x80, 0x80, 0x80, 0x80, 0x00, 0x01,
        ],
        2,
        0,
    ),
    (&[0x00, 0x01], 1, 0),
    (&[0x01], 1, 0),
    (&[0x02, 0x01, 0x00, 0x01, 0x02, 0x01], 2, 2),
    (&[0x06, 0x01], 2, 0),
    (&[0x02, 0x01, 0x04, 0x01], 2, 2),
    (&[0x05, 0xff, 0xff], 8, 0),
    (
        &[0xff, 0xff, 0xff, 0xff, 0xff, 0xff, 0xff, 0xff, 0xff, 0x01],
        usize::MAX,
        0,
    ),
    (
        &[0xfe, 0xff, 0xff, 0xff, 0xff, 0xff, 0xff, 0xff, 0xff, 0x01],
        9,
        0,
    ),
];

#[test]
fn the_first_bad_run_is_named_by_its_header(rt: HostRuntime) {
    for (bytes, count, at) in BAD_RUNS {
        let read = read_levels(rt.alloc(), bytes, count);
        assert_eq!(rt;
            read.err(),
            Some(LevelError::BadRun { at }),
            "{bytes:?} {count}"
        );
    }
}

#[test]
fn bytes_that_are_cut_are_bad_at_the_run_that_is_not_whole(rt: HostRuntime) -> Result<(), Fail> {
    let whole = [0x02, 0x00, 0xc8, 0x01, 0x01, 0x05, 0xaa, 0x55];
    let count = 1 + 100 + 16;
    assert_eq!(rt; read_levels(rt.alloc(), &whole, count)?.len(), count);
    let places = [0, 0, 2, 2, 2, 5, 5, 5];
    for (len, &at) in places.iter().enumerate() {
        let read = read_levels(rt.alloc(), &whole[..len], count);
        assert_eq!(rt; read.err(), Some(LevelError::BadRun { at }), "{len}");
    }
    Ok(())
}
