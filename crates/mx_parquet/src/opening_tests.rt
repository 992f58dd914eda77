ghost use Rattle.std.specs.Prelude.{◌≡◌, set, IfOk};

use crate::error::{Feature, ParquetError};
use crate::layout::{ChunkPlace, Layout};
use crate::opening::layout_in;
use crate::schema::schema_of;
use crate::tests::ONE_ROW;
use mx_schema::ColumnKind;
use std::alloc::{AllocGlobal, Global};
use std::process::Abort;
use std::test::*;

/// Where the chunks of the file of one row stand, and how many bytes they have.
const CHUNKS: [(usize, usize); 6] = [(4, 38), (42, 42), (84, 22), (106, 31), (137, 91), (228, 25)];

/// Where its footer begins.
pub(super) const FOOTER: usize = 253;

const BAD: Option<ParquetError> = Some(ParquetError::BadParquet { at: FOOTER });

fn unsupported(what: Feature) -> Option<ParquetError> {
    Some(ParquetError::Unsupported { what })
}

fn fault_of(alloc: Global, file: &[u8]) -> Option<ParquetError> {
    match layout_in(alloc, file) {
        Ok(_) => None,
        Err(error) => Some(error),
    }
}

// A file with another byte at a place.
pub(super) fn edited<R: Abort + AllocGlobal>(
    rt: &R,
    file: &[u8],
    at: usize,
    byte: u8,
) -> Result<Vec<u8>, Fail>
    ensures { IfOk result (λ edited. edited.items ≡ set file.now at byte) }
{
    let mut edited = Vec::from_slice(rt.alloc(), file)?;
    assert!(rt; at < edited.len());
    edited[at] = byte;
    Ok(edited)
}

fn shows<R: Abort + AllocGlobal>(
    rt: &R,
    cases: &[(usize, u8, Option<ParquetError>)],
) -> Result<(), Fail> {
    for &(at, byte, wanted) in cases {
        let file = edited(rt, ONE_ROW, at, byte)?;
        let found = fault_of(rt.alloc(), &file);
        assert_eq!(rt; found, wanted, "{at}");
    }
    Ok(())
}

fn has_chunks<R: Abort>(rt: &R, found: &[ChunkPlace]) {
    assert_eq!(rt; found.len(), CHUNKS.len());
    for (place, chunk) in found.iter().zip(CHUNKS.iter()) {
        assert_eq!(rt; place.offset, chunk.0);
        assert_eq!(rt; place.size, chunk.1);
    }
}

fn has_layout<R: Abort>(rt: &R, layout: &Layout) {
    assert_eq!(rt; layout.row_count, 1);
    let columns = layout.columns.as_slice();
    assert_eq!(rt; columns.len(), 6);
    assert_eq!(rt; columns[2].name.as_str(), "_hoodie_record_key");
    assert_eq!(rt; columns[5].name.as_str(), "a");
    assert!(rt; columns[5].kind == ColumnKind::Int64);
    let groups = layout.groups.as_slice();
    assert_eq!(rt; groups.len(), 1);
    assert_eq!(rt; groups[0].row_count, 1);
    has_chunks(rt, groups[0].chunks.as_slice());
}

#[test]
fn the_footer_says_where_each_chunk_stands(rt: HostRuntime) -> Result<(), Fail> {
    let layout = layout_in(rt.alloc(), ONE_ROW).ok().expect(&rt, "a footer");
    has_layout(&rt, &layout);
    Ok(())
}

#[test]
fn a_magic_or_a_length_that_is_wrong_is_told_where_it_stands(rt: HostRuntime) -> Result<(), Fail> {
    let cut = fault_of(rt.alloc(), &ONE_ROW[..692]);
    assert_eq!(rt; cut, Some(ParquetError::BadParquet { at: 688 }));
    let short = fault_of(rt.alloc(), &ONE_ROW[..11]);
    assert_eq!(rt; short, Some(ParquetError::BadParquet { at: 0 }));
    let cases = [
        (0, b'Q', Some(ParquetError::BadParquet { at: 0 })),
        (692, b'2', Some(ParquetError::BadParquet { at: 689 })),
        (687, 1, Some(ParquetError::BadParquet { at: 685 })),
    ];
    shows(&rt, &cases)
}

#[test]
fn what_is_not_supported_is_named(rt: HostRuntime) -> Result<(), Fail> {
    let cases = [
        (268, 0x06, unsupported(Feature::Kind)),
        (270, 0x04, unsupported(Feature::Nested)),
        (293, 0x02, unsupported(Feature::Converted)),
        (454, 0x02, unsupported(Feature::Codec)),
    ];
    shows(&rt, &cases)
}

#[test]
fn a_dictionary_page_is_not_supported(rt: HostRuntime) -> Result<(), Fail> {
    let alloc = rt.alloc();
    let mut file = Vec::from_slice(alloc, &ONE_ROW[..463])?;
    file.extend_from_slice(&[0x26, 0x08])?;
    file.extend_from_slice(&ONE_ROW[463..685])?;
    file.extend_from_slice(b"\xb2\x01\x00\x00PAR1")?;
    assert_eq!(rt; fault_of(alloc, &file), unsupported(Feature::Page));
    Ok(())
}

#[test]
fn a_broken_rule_of_a_field_is_told_at_the_footer(rt: HostRuntime) -> Result<(), Fail> {
    let cases = [
        (254, 0x7e, None),
        (265, 0x0a, BAD),
        (270, 0x06, BAD),
        (409, 0x02, BAD),
        (417, 0x04, BAD),
        (456, 0x04, BAD),
    ];
    shows(&rt, &cases)
}

#[test]
fn the_schema_stands_behind_the_columns_of_hudi(rt: HostRuntime) -> Result<(), Fail> {
    let alloc = rt.alloc();
    let layout = layout_in(alloc, ONE_ROW).ok().expect(&rt, "a footer");
    let columns = layout.columns.as_slice();
    let schema = schema_of(alloc, columns).ok().expect(&rt, "a schema");
    let text = schema.print(alloc)?;
    assert_eq!(rt; text.as_str(), "a:int64");
    assert!(rt; columns.len() == 6);
    assert!(rt; schema_of(alloc, &columns[1..]).is_err());
    assert!(rt; schema_of(alloc, &columns[..5]).is_err());
    Ok(())
}
