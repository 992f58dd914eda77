use crate::{Ahead, Line, ReadError, next_line, write_all};
use mx_store::{BytesSink, BytesSource, Failed};
use std::alloc::Global;
use std::test::Fail;

// The lines up to the end or to an error, with a bar behind each; "long" stands for one that is not held.
fn all_lines(
    alloc: Global,
    source: &mut BytesSource,
) -> Result<(Vec<u8>, Option<ReadError>), Fail> {
    let mut ahead = Ahead::new(alloc)?;
    let mut lines = Vec::new(alloc);
    loop {
        match next_line(alloc, source, &mut ahead) {
            Ok(Some(Line::Whole { bytes })) => lines.extend_from_slice(bytes.as_slice())?,
            Ok(Some(Line::Long)) => lines.extend_from_slice(b"long")?,
            Ok(None) => return Ok((lines, None)),
            Err(error) => return Ok((lines, Some(error))),
        }
        lines.push(b'|')?;
    }
}

#[test]
fn lines_stand_between_newlines_wherever_the_reads_are_cut(rt: HostRuntime) -> Result<(), Fail> {
    let alloc = rt.alloc();
    let cases: [(&[u8], &[u8]); 8] = [
        (b"", b""),
        (b"\n", b"|"),
        (b"\n\n", b"||"),
        (b"ab\n", b"ab|"),
        (b"ab\ncd", b"ab|cd|"),
        (b"\nab\n\ncd\n", b"|ab||cd|"),
        (b"ab\r\ncd\r\n", b"ab\r|cd\r|"),
        (b"\r", b"\r|"),
    ];
    for (input, expected) in cases {
        for cut in 0..=input.len() {
            let mut source = BytesSource::over(
                Vec::from_slice(alloc, input)?,
                Vec::from_slice(alloc, &[cut])?,
                Vec::new(alloc),
            );
            let (lines, error) = all_lines(alloc, &mut source)?;
            assert_eq!(rt; lines.as_slice(), expected, "{input:?} cut at {cut}");
            assert_eq!(rt; error, None, "{input:?} cut at {cut}");
        }
    }
    Ok(())
}

#[test]
fn a_line_of_more_than_4194304_bytes_is_not_held_and_the_next_one_is_read(
    rt: HostRuntime,
) -> Result<(), Fail> {
    let alloc = rt.alloc();
    let cases: [(usize, usize, &[u8]); 3] = [
        (4_194_303, 4_194_303, b"a|b|"),
        (4_194_304, 4_194_304, b"a|b|"),
        (4_194_305, 4, b"long|b|"),
    ];
    for (len, held, end) in cases {
        let mut input = vec![in alloc; b'a'; len]?;
        input.extend_from_slice(b"\nb")?;
        let mut source = BytesSource::over(input, Vec::new(alloc), Vec::new(alloc));
        let (lines, error) = all_lines(alloc, &mut source)?;
        assert_eq!(rt; error, None, "at {len}");
        assert_eq!(rt; lines.len(), held + 3, "at {len}");
        assert!(rt; lines.as_slice().ends_with(end), "at {len}");
    }
    Ok(())
}

#[test]
fn a_read_that_fails_is_a_fault(rt: HostRuntime) -> Result<(), Fail> {
    let alloc = rt.alloc();
    let cases: [(u64, &[u8]); 3] = [(0, b""), (1, b"a|"), (2, b"a|")];
    for (fails, before) in cases {
        let mut source = BytesSource::over(
            Vec::from_slice(alloc, b"a\nbc\n")?,
            Vec::from_slice(alloc, &[2, 3])?,
            Vec::from_slice(alloc, &[fails])?,
        );
        let (lines, error) = all_lines(alloc, &mut source)?;
        assert_eq!(rt; error, Some(ReadError::Fault), "at read {fails}");
        assert_eq!(rt; lines.as_slice(), before, "at read {fails}");
    }
    Ok(())
}

#[test]
fn a_write_writes_all_or_tells_its_fault(rt: HostRuntime) -> Result<(), Fail> {
    let alloc = rt.alloc();
    let mut sink = BytesSink::empty(alloc, Vec::from_slice(alloc, &[1])?);
    let cases: [(&[u8], Result<(), Failed>, &[u8]); 4] = [
        (b"ab", Ok(()), b"ab"),
        (b"cd", Err(Failed), b"ab"),
        (b"", Ok(()), b"ab"),
        (b"ef", Ok(()), b"abef"),
    ];
    for (bytes, expected, written) in cases {
        assert_eq!(rt; write_all(&mut sink, bytes), expected, "at {bytes:?}");
        assert_eq!(rt; sink.bytes(), written, "at {bytes:?}");
    }
    Ok(())
}
