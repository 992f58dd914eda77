ghost use Rattle.std.specs.Prelude.{◌≡◌, ◌≤◌, ◌-◌, ◌+◌, ◌||◌, length, take, true, false, IsTrue, IfOk, nat_lt, not};
ghost use Rattle.std.specs.Int.{w32, from_le_bytes};
ghost use Rattle.mx_parquet.specs.Opening as opening;
ghost use Rattle.mx_parquet.specs.Opening.{AnswersAt, struct_from, file_layout};

use crate::error::ParquetError;
use crate::groups::layout_of;
use crate::layout::Layout;
use mx_thrift::{Fields, ThriftError, read_struct};
use std::alloc::Global;

const MAGIC: [u8; 4] = *b"PAR1";

/// The most bytes that a file may have.
const MOST_BYTES: usize = 4_194_304;

/// What the footer of a file says.
#[tactic(auto, unfolding(crate::specs::Opening::file_layout))]
pub(crate) fn layout_in(alloc: Global, file: &[u8]) -> Result<Layout, ParquetError>
    ensures { AnswersAt result (file_layout file.now) }
{
    let at = match footer_place(file) {
        Ok(at) => at,
        Err(at) => return Err(ParquetError::BadParquet { at }),
    };
    layout_at(alloc, file, at)
}

fn layout_at(alloc: Global, file: &[u8], at: usize) -> Result<Layout, ParquetError>
    requires { 12 ≤ length file.now }
    ensures { AnswersAt result (opening.said_at (length file.now) at (struct_from (take (length file.now - 8) file.now) at)) }
{
    let (front, _) = file.split_at(file.len() - 8);
    let footer = struct_of(alloc, front, at)?;
    match layout_of(alloc, file.len(), footer.as_slice()) {
        Ok(layout) => Ok(layout),
        Err(failure) => Err(failure.at(at)),
    }
}

/// The struct that fills the bytes from a place on.
#[tactic(auto, unfolding(crate::specs::Opening::struct_from))]
fn struct_of(alloc: Global, bytes: &[u8], at: usize) -> Result<Fields, ParquetError>
    ensures { AnswersAt result (struct_from bytes.now at) }
{
    match read_struct(alloc, bytes, at) {
        Ok((fields, end)) => {
            if end == bytes.len() {
                Ok(fields)
            } else {
                Err(ParquetError::BadParquet { at: end })
            }
        }
        Err(error) => Err(thrift_error(error)),
    }
}

pub(crate) fn thrift_error(error: ThriftError) -> ParquetError
    ensures { result ≡ opening.thrift_error error }
{
    match error {
        ThriftError::Short { at }
        | ThriftError::Wide { at }
        | ThriftError::BadType { at }
        | ThriftError::Deep { at } => ParquetError::BadParquet { at },
        ThriftError::NoMemory => ParquetError::NoMemory,
    }
}

/// Where the footer of a file begins, or the place of the first broken rule.
#[tactic(auto, unfolding(crate::specs::Opening::footer_place))]
pub(crate) fn footer_place(file: &[u8]) -> Result<usize, usize>
    ensures place { result ≡ opening.footer_place file.now }
    ensures room { IfOk result (λ at. 12 ≤ length file.now) }
{
    let len = file.len();
    if !is_length(len) {
        return Err(0);
    }
    let (first, _) = file.split_at(4);
    if !is_magic(first) {
        return Err(0);
    }
    let (inner, last) = file.split_at(len - 4);
    if !is_magic(last) {
        return Err(len - 4);
    }
    let (_, number) = inner.split_at(len - 8);
    let size = u32_of(number) as usize;
    if size + 12 > len {
        return Err(len - 8);
    }
    Ok(len - 8 - size)
}

/// Whether a file may have this length: both magics and the footer's length have 12 bytes.
fn is_length(len: usize) -> bool
    ensures fits { IsTrue result → (12 ≤ len) × (len ≤ 4_194_304) }
    ensures same { (nat_lt len 12 || nat_lt 4_194_304 len) ≡ not result }
{
    (12..=MOST_BYTES).contains(&len)
}

#[tactic(auto, unfolding(crate::specs::Encoding::magic))]
fn is_magic(bytes: &[u8]) -> bool
    ensures { result ≡ opening.is_magic bytes.now }
{
    bytes == &MAGIC[..]
}

/// The number that four bytes are, the lowest first.
pub(crate) fn u32_of(bytes: &[u8]) -> u32
    requires { length bytes.now ≡ 4 }
    ensures { result ≡ from_le_bytes w32 bytes.now }
{
    u32::from_le_bytes([bytes[0], bytes[1], bytes[2], bytes[3]])
}
