use super::*;
use std::test::*;

const GREATEST: [u8; 10] = [0xfe, 0xff, 0xff, 0xff, 0xff, 0xff, 0xff, 0xff, 0xff, 0x01];

const LEAST: [u8; 10] = [0xff, 0xff, 0xff, 0xff, 0xff, 0xff, 0xff, 0xff, 0xff, 0x01];

#[test]
fn a_number_is_written_as_zigzag_and_read_again(rt: HostRuntime) -> Result<(), Fail> {
    let cases: [(i64, &[u8]); 11] = [
        (0, &[0x00]),
        (-1, &[0x01]),
        (1, &[0x02]),
        (-2, &[0x03]),
        (63, &[0x7e]),
        (-64, &[0x7f]),
        (64, &[0x80, 0x01]),
        (693, &[0xea, 0x0a]),
        (-1_000_000, &[0xff, 0x88, 0x7a]),
        (i64::MAX, &GREATEST),
        (i64::MIN, &LEAST),
    ];
    for (number, bytes) in cases {
        let mut out = Vec::new(rt.alloc());
        put_long(&mut out, number)?;
        assert_eq!(rt; out.as_slice(), bytes, "{number}");
        out.push(0xff)?;
        assert_eq!(rt; take_long(&out, 0), Ok((number, bytes.len())), "{number}");
    }
    Ok(())
}

#[test]
fn a_number_that_is_cut_is_short_and_one_in_a_longer_form_is_wide(rt: HostRuntime) {
    let short = Err(AvroError::Short { at: 1 });
    let wide = Err(AvroError::Wide { at: 1 });
    let cases: [(&[u8], Result<(i64, usize), AvroError>); 10] = [
        (&[], short),
        (&[9], short),
        (&[9, 0x80], short),
        (
            &[9, 0x80, 0x80, 0x80, 0x80, 0x80, 0x80, 0x80, 0x80, 0x80],
            short,
        ),
        (
            &[
                9, 0x80, 0x80, 0x80, 0x80, 0x80, 0x80, 0x80, 0x80, 0x80, 0x80,
            ],
            wide,
        ),
        (
            &[
                9, 0x80, 0x80, 0x80, 0x80, 0x80, 0x80, 0x80, 0x80, 0x80, 0x02,
            ],
            wide,
        ),
        (&[9, 0x80, 0x00], wide),
        (&[9, 0x81, 0x80, 0x00], wide),
        (&[9, 0x81, 0x00, 0x05], wide),
        (&[9, 0x81, 0x01, 0x00], Ok((-65, 3))),
    ];
    for (bytes, taken) in cases {
        assert_eq!(rt; take_long(bytes, 1), taken, "{bytes:?}");
    }
}

#[test]
fn a_byte_string_is_its_length_and_its_bytes(rt: HostRuntime) -> Result<(), Fail> {
    let mut out = Vec::new(rt.alloc());
    put_bytes(&mut out, b"foo")?;
    assert_eq!(rt; out.as_slice(), [0x06, b'f', b'o', b'o'].as_slice());
    let cases: [(&[u8], Result<(usize, usize), AvroError>); 8] = [
        (&[0x06, b'f', b'o', b'o'], Ok((1, 4))),
        (&[0x06, b'f', b'o', b'o', 0x01], Ok((1, 4))),
        (&[0x00], Ok((1, 1))),
        (&[0x06, b'f', b'o'], Err(AvroError::Short { at: 0 })),
        (&[0x06], Err(AvroError::Short { at: 0 })),
        (&[0x80], Err(AvroError::Short { at: 0 })),
        (&[0x80, 0x00], Err(AvroError::Wide { at: 0 })),
        (&[0x01, b'f'], Err(AvroError::Negative { at: 0 })),
    ];
    for (bytes, taken) in cases {
        assert_eq!(rt; take_bytes(bytes, 0), taken, "{bytes:?}");
    }
    assert_eq!(rt; take_bytes(&GREATEST, 0), Err(AvroError::Short { at: 0 }));
    assert_eq!(rt; take_bytes(&LEAST, 0), Err(AvroError::Negative { at: 0 }));
    Ok(())
}
