ghost use Rattle.std.specs.Prelude.{◌≡◌, ◌∷◌, [], MatchOption};
ghost use Rattle.mx_parquet.specs.Decoding.{is_id, values_of};
ghost use Rattle.mx_parquet.specs.Reading as reading;
ghost use Rattle.mx_parquet.specs.Reading.{Gives, at_most_once, value_in, int_in, maybe_int_in, long_in, bytes_in, struct_in, list_in};
ghost use Rattle.mx_parquet.specs.Seen.{said};

use crate::error::Flaw;
use mx_thrift::{Field, Value};

/// Whether a number is this one.
pub(crate) fn is(number: i32, wanted: u8) -> bool
    ensures { result ≡ is_id wanted number }
{
    number == i32::from(wanted)
}

fn has_id(field: &Field, id: u8) -> bool
    ensures { result ≡ is_id id field.now.id }
{
    field.id == i16::from(id)
}

/// The first value that stands under a number, and the fields behind it.
fn next_of(fields: &[Field], id: u8) -> Option<(&Value, &[Field])>
    ensures { MatchOption result (values_of id fields.now ≡ []) (λ x. values_of id fields.now ≡ x.0.now ∷ values_of id x.1.now) }
{
    let mut rest = fields;
    while let [field, behind @ ..] = rest {
        if has_id(field, id) {
            return Some((&field.value, behind));
        }
        rest = behind;
    }
    None
}

/// How often a value stands under a number.
#[derive(Clone, Copy, Drop)]
enum Standing<'a> {
    Never,
    Once(&'a Value),
    Often,
}

fn standing_of(fields: &[Field], id: u8) -> Standing<'_>
    ensures { at_most_once (values_of id fields.now) ≡ said result }
{
    match next_of(fields, id) {
        None => Standing::Never,
        Some((value, behind)) => match next_of(behind, id) {
            None => Standing::Once(value),
            Some(_) => Standing::Often,
        },
    }
}

/// The value under a number, which stands once.
fn value_of(fields: &[Field], id: u8) -> Result<&Value, Flaw>
    ensures { Gives (λ v. v.now) result (value_in id fields.now) }
{
    match standing_of(fields, id) {
        Standing::Once(value) => Ok(value),
        Standing::Never | Standing::Often => Err(Flaw::Bad),
    }
}

#[tactic(auto, using(crate::proofs::OfKind::is_int, crate::proofs::OfKind::not_int))]
fn as_int(value: &Value) -> Result<i32, Flaw>
    ensures { result ≡ reading.as_int value.now }
{
    match value {
        Value::Int(number) => Ok(*number),
        _ => Err(Flaw::Bad),
    }
}

#[tactic(auto, using(crate::proofs::OfKind::is_long, crate::proofs::OfKind::not_long))]
fn as_long(value: &Value) -> Result<i64, Flaw>
    ensures { result ≡ reading.as_long value.now }
{
    match value {
        Value::Long(number) => Ok(*number),
        _ => Err(Flaw::Bad),
    }
}

#[tactic(auto, using(crate::proofs::OfKind::is_bytes, crate::proofs::OfKind::not_bytes))]
pub(crate) fn as_bytes(value: &Value) -> Result<&[u8], Flaw>
    ensures { Gives (λ bytes. bytes.now) result (reading.as_bytes value.now) }
{
    match value {
        Value::Bytes(bytes) => Ok(bytes.as_slice()),
        _ => Err(Flaw::Bad),
    }
}

/// The fields of a value that is a struct.
#[tactic(auto, using(crate::proofs::OfKind::is_struct, crate::proofs::OfKind::not_struct))]
pub(crate) fn as_struct(value: &Value) -> Result<&[Field], Flaw>
    ensures { Gives (λ fields. fields.now) result (reading.as_struct value.now) }
{
    match value {
        Value::Struct(fields) => Ok(fields.as_slice()),
        _ => Err(Flaw::Bad),
    }
}

#[tactic(auto, using(crate::proofs::OfKind::is_list, crate::proofs::OfKind::other_list, crate::proofs::OfKind::not_list))]
fn as_list(value: &Value, code: u8) -> Result<&[Value], Flaw>
    ensures { Gives (λ items. items.now) result (reading.as_list code value.now) }
{
    match value {
        Value::List { kind, items } => {
            if *kind == code {
                Ok(items.as_slice())
            } else {
                Err(Flaw::Bad)
            }
        }
        _ => Err(Flaw::Bad),
    }
}

/// The number of 32 bits under a number.
#[tactic(auto, unfolding(crate::specs::Reading::int_in))]
pub(crate) fn int_of(fields: &[Field], id: u8) -> Result<i32, Flaw>
    ensures { result ≡ int_in id fields.now }
{
    as_int(value_of(fields, id)?)
}

/// The number of 64 bits under a number.
#[tactic(auto, unfolding(crate::specs::Reading::long_in))]
pub(crate) fn long_of(fields: &[Field], id: u8) -> Result<i64, Flaw>
    ensures { result ≡ long_in id fields.now }
{
    as_long(value_of(fields, id)?)
}

/// The byte string under a number.
#[tactic(auto, unfolding(crate::specs::Reading::bytes_in))]
pub(crate) fn bytes_of(fields: &[Field], id: u8) -> Result<&[u8], Flaw>
    ensures { Gives (λ bytes. bytes.now) result (bytes_in id fields.now) }
{
    as_bytes(value_of(fields, id)?)
}

/// The struct under a number.
#[tactic(auto, unfolding(crate::specs::Reading::struct_in))]
pub(crate) fn struct_of(fields: &[Field], id: u8) -> Result<&[Field], Flaw>
    ensures { Gives (λ fields. fields.now) result (struct_in id fields.now) }
{
    as_struct(value_of(fields, id)?)
}

/// The list of items of a type under a number.
#[tactic(auto, unfolding(crate::specs::Reading::list_in))]
pub(crate) fn list_of(fields: &[Field], code: u8, id: u8) -> Result<&[Value], Flaw>
    ensures { Gives (λ items. items.now) result (list_in code id fields.now) }
{
    as_list(value_of(fields, id)?, code)
}

/// The number of 32 bits under a number, if it stands.
#[tactic(auto, unfolding(crate::specs::Reading::maybe_int_in))]
pub(crate) fn maybe_int_of(fields: &[Field], id: u8) -> Result<Option<i32>, Flaw>
    ensures { result ≡ maybe_int_in id fields.now }
{
    match standing_of(fields, id) {
        Standing::Never => Ok(None),
        Standing::Once(value) => Ok(Some(as_int(value)?)),
        Standing::Often => Err(Flaw::Bad),
    }
}

/// Whether nothing stands under a number.
pub(crate) fn is_missing(fields: &[Field], id: u8) -> bool
    ensures { result ≡ reading.is_missing (values_of id fields.now) }
{
    next_of(fields, id).is_none()
}

/// A count, which is not below 0.
pub(crate) fn count_of(number: i64) -> Result<usize, Flaw>
    ensures { result ≡ reading.count_of number }
{
    match usize::try_from(number) {
        Ok(count) => Ok(count),
        Err(_) => Err(Flaw::Bad),
    }
}
