ghost use Rattle.std.specs.Prelude.{◌≡◌, ◌≢◌, ◌∷◌, ◌++◌, ℕ, List, MatchOption, IfOk, position, ◌==◌};
ghost use Rattle.mx_schema.specs.Columns.{IsSchema};
ghost use Rattle.mx_props.specs.Config.{IsConfig, AreAvailable, IsApart, available_line, building_line, version_line, schema_line, config_text};
ghost use Rattle.mx_props.specs.Lines.{SaysBadLine};
ghost use Rattle.mx_props.specs.Reading.{IsPlain, IsOneLine, Reads, config_of};

use crate::error::PropsError;
use crate::parts::{are_available, building_of, is_apart, parts_of};
use mx_base::Part;
use mx_lists::Listed;
use mx_schema::{Schema, SchemaError};
use std::alloc::Global;

/// What the four lines of a config say.
pub(crate) fn lines_in(
    alloc: Global,
    bytes: &[u8],
) -> Result<(Listed<Part>, Option<Part>, Schema), PropsError>
    ensures ok { IfOk result (λ x. IsConfig (config_of x) × (bytes.now ≡ config_text (config_of x))) }
    ensures bad { SaysBadLine bytes.now result }
{
    let (available, rest) = available_in(alloc, bytes)?;
    let (building, rest) = building_in(available.as_slice(), rest)?;
    let Some(rest) = after_version(rest) else {
        return Err(PropsError::BadProps { line: 2 });
    };
    let (schema, rest) = schema_in(alloc, rest)?;
    if !rest.is_empty() {
        return Err(PropsError::BadProps { line: 4 });
    }
    Ok((available, building, schema))
}

fn available_in(alloc: Global, bytes: &[u8]) -> Result<(Listed<Part>, &[u8]), PropsError>
    ensures { Reads (λ x. (x.0, x.1.now)) AreAvailable 0 available_line bytes.now result }
{
    let Some((value, rest)) = value_of(bytes, b"hoodie.table.metadata.partitions=") else {
        return Err(PropsError::BadProps { line: 0 });
    };
    let Some(parts) = parts_of(alloc, value)? else {
        return Err(PropsError::BadProps { line: 0 });
    };
    if !are_available(parts.as_slice()) {
        return Err(PropsError::BadProps { line: 0 });
    }
    Ok((parts, rest))
}

fn building_in<'a>(
    available: &[Part],
    bytes: &'a [u8],
) -> Result<(Option<Part>, &'a [u8]), PropsError>
    ensures { Reads (λ x. (x.0, x.1.now)) (IsApart available.now) 1 building_line bytes.now result }
{
    let Some((value, rest)) = value_of(bytes, b"hoodie.table.metadata.partitions.inflight=") else {
        return Err(PropsError::BadProps { line: 1 });
    };
    let Some(building) = building_of(value) else {
        return Err(PropsError::BadProps { line: 1 });
    };
    if !is_apart(available, building) {
        return Err(PropsError::BadProps { line: 1 });
    }
    Ok((building, rest))
}

fn after_version(bytes: &[u8]) -> Option<&[u8]>
    ensures { MatchOption result
        ((rest : List ℕ) → bytes.now ≢ version_line ++ rest)
        (λ rest. bytes.now ≡ version_line ++ rest.now) }
{
    bytes.strip_prefix(b"hoodie.table.version=6\n")
}

fn schema_in(alloc: Global, bytes: &[u8]) -> Result<(Schema, &[u8]), PropsError>
    ensures { Reads (λ x. (x.0, x.1.now)) IsSchema 3 schema_line bytes.now result }
{
    let Some((value, rest)) = value_of(bytes, b"mdt.schema=") else {
        return Err(PropsError::BadProps { line: 3 });
    };
    match Schema::parse(alloc, value) {
        Ok(schema) => Ok((schema, rest)),
        Err(SchemaError::NoMemory) => Err(PropsError::NoMemory),
        Err(SchemaError::BadSchema { .. }) => Err(PropsError::BadProps { line: 3 }),
    }
}

// What stands behind the key in the first line, and what follows the line.
fn value_of<'a>(bytes: &'a [u8], key: &[u8]) -> Option<(&'a str, &'a [u8])>
    ensures { MatchOption result
        ((value rest : List ℕ) → IsPlain value → bytes.now ≢ key.now ++ (value ++ 10 ∷ rest))
        (λ x. IsOneLine x.0.now × (bytes.now ≡ key.now ++ (x.0.now ++ 10 ∷ x.1.now))) }
{
    let Some(behind) = bytes.strip_prefix(key) else {
        return None;
    };
    let Some((value, rest)) = first_line(behind) else {
        return None;
    };
    match str::from_utf8(value) {
        Ok(value) => Some((value, rest)),
        Err(_) => None,
    }
}

fn first_line(bytes: &[u8]) -> Option<(&[u8], &[u8])>
    ensures { MatchOption result (IsOneLine bytes.now)
        (λ x. IsOneLine x.0.now × (bytes.now ≡ x.0.now ++ 10 ∷ x.1.now)) }
{
    let Some(end) = newline_in(bytes) else {
        return None;
    };
    Some((&bytes[..end], &bytes[end + 1..]))
}

fn newline_in(bytes: &[u8]) -> Option<usize>
    ensures { result ≡ position (λ byte. byte == 10) bytes.now }
{
    bytes.iter().position(|byte| *byte == b'\n')
}
