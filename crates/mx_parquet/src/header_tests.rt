use crate::error::{Failure, Feature, ParquetError};
use crate::header::size_of;
use crate::opening_tests::edited;
use crate::tests::ONE_ROW;
use mx_thrift::{Fields, read_struct};
use std::alloc::AllocGlobal;
use std::process::Abort;
use std::test::*;

/// Where the header of the last page of the file of one row begins.
const HEADER: usize = 228;

fn header_of<R: Abort + AllocGlobal>(rt: &R, file: &[u8]) -> Fields {
    let (fields, _) = read_struct(rt.alloc(), file, HEADER)
        .ok()
        .expect(rt, "a struct");
    fields
}

fn fault_of<R: Abort + AllocGlobal>(rt: &R, file: &[u8]) -> Option<ParquetError> {
    match size_of(header_of(rt, file).as_slice()) {
        Ok(_) => None,
        Err(flaw) => Some(Failure::Flawed { flaw }.at(HEADER)),
    }
}

#[test]
fn a_header_says_how_many_values_and_bytes_its_page_has(rt: HostRuntime) -> Result<(), Fail> {
    let fields = header_of(&rt, ONE_ROW);
    let page = size_of(fields.as_slice()).ok().expect(&rt, "a header");
    assert_eq!(rt; page.value_count, 1);
    assert_eq!(rt; page.size, 8);
    Ok(())
}

#[test]
fn what_is_wrong_with_a_header_is_told(rt: HostRuntime) -> Result<(), Fail> {
    let bad = Some(ParquetError::BadParquet { at: HEADER });
    let page = Some(ParquetError::Unsupported {
        what: Feature::Page,
    });
    let encoding = Some(ParquetError::Unsupported {
        what: Feature::Encoding,
    });
    let cases = [
        (229, 0x04, page),
        (233, 0x12, bad),
        (238, 0x10, encoding),
        (240, 0x08, bad),
    ];
    for (at, byte, wanted) in cases {
        let file = edited(&rt, ONE_ROW, at, byte)?;
        let found = fault_of(&rt, &file);
        assert_eq!(rt; found, wanted, "{at}");
    }
    Ok(())
}
