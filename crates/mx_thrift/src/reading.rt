ghost use Rattle.std.specs.Prelude.{◌≡◌, ◌+◌, ◌-◌, ◌<◌, ◌^◌, ◌++◌, ℕ, List, length, drop, IfOk};
ghost use Rattle.mx_avro.specs.Decoding.{StandsAt};
ghost use Rattle.mx_thrift.specs.declared.value.Field.{Field};
ghost use Rattle.mx_thrift.specs.Grammar.{Decodes};
ghost use Rattle.mx_thrift.specs.Decoding.{Gives, Answers, IsOnly, error_at, leaf_in, list_in, map_in, held_in, field_in, struct_in, in_turn, both, over_in, value_in, struct_at};

use crate::error::{Fault, Rule, ThriftError};
use crate::header::{Header, header_of, no_items, said_count, types_of};
use crate::kind::{Kind, kind_of};
use crate::numbers::{
    broken, byte_of, count_of, eight_of, int_of, long_of, short_of, signed_byte, text_of,
};
use crate::value::{Field, Fields, Value, id_of};
use mx_lists::Bytes;
use sqlite_items::Items;
use std::alloc::Global;

/// How many structs and containers may stand inside each other in a struct.
const MOST_INSIDE: u8 = 15;

/// The struct that begins at a place, and the place behind it.
pub fn read_struct(alloc: Global, bytes: &[u8], at: usize) -> Result<(Fields, usize), ThriftError>
    ensures found { IfOk result (λ x. (text : List ℕ) × StandsAt bytes.now at text x.1 × Decodes text x.0) }
    ensures only { (fields : List Field) (text rest : List ℕ) → drop at bytes.now ≡ text ++ rest → Decodes text fields
        → IsOnly (fields, at + length text) result }
    ensures exact { Answers result (struct_at bytes.now at) }
{
    read(alloc, bytes, at)
}

/// No bytes begin with two structs.
pub fn one_struct()
    ensures { (a b x y : List ℕ) (f g : List Field) → Decodes a f → Decodes b g → a ++ x ≡ b ++ y → (f ≡ g) × (a ≡ b) }
{}

#[tactic(auto, unfolding(crate::specs::Decoding::struct_at))]
fn read(alloc: Global, bytes: &[u8], at: usize) -> Result<(Fields, usize), ThriftError>
    ensures { Answers result (struct_at bytes.now at) }
{
    let rest = behind(bytes, at);
    match struct_of(alloc, rest, MOST_INSIDE) {
        Ok((fields, end)) => Ok((fields, place(at, rest.len(), end.len()))),
        Err(Fault::NoMemory) => Err(ThriftError::NoMemory),
        Err(Fault::Broken { rule, left }) => Err(error_at(rule, place(at, rest.len(), left))),
    }
}

fn behind(bytes: &[u8], at: usize) -> &[u8]
    ensures { result.now ≡ drop at bytes.now }
{
    if at < bytes.len() { &bytes[at..] } else { &[] }
}

fn place(at: usize, len: usize, left: usize) -> usize
    requires { at + len < 2 ^ 64 }
    ensures { result ≡ at + (len - left) }
{
    at + len.saturating_sub(left)
}

fn error_at(rule: Rule, at: usize) -> ThriftError
    ensures { result ≡ error_at rule at }
{
    match rule {
        Rule::Short => ThriftError::Short { at },
        Rule::Wide => ThriftError::Wide { at },
        Rule::BadType => ThriftError::BadType { at },
        Rule::Deep => ThriftError::Deep { at },
    }
}

/// A value that holds no other.
#[tactic(auto, unfolding(crate::specs::Decoding::leaf_in))]
fn leaf_of(alloc: Global, bytes: &[u8], kind: Kind) -> Result<(Value, &[u8]), Fault>
    ensures { Gives (λ x. (x.0, x.1.now)) result (leaf_in kind bytes.now) }
{
    match kind {
        Kind::Flag => {
            let (byte, rest) = byte_of(bytes)?;
            Ok((Value::Flag(byte == 1), rest))
        }
        Kind::Byte => {
            let (byte, rest) = byte_of(bytes)?;
            Ok((Value::Byte(signed_byte(byte)), rest))
        }
        Kind::Short => {
            let (number, rest) = short_of(bytes)?;
            Ok((Value::Short(number), rest))
        }
        Kind::Int => {
            let (number, rest) = int_of(bytes)?;
            Ok((Value::Int(number), rest))
        }
        Kind::Long => {
            let (number, rest) = long_of(bytes)?;
            Ok((Value::Long(number), rest))
        }
        Kind::Double => {
            let (double, rest) = eight_of(bytes)?;
            Ok((Value::Double(double), rest))
        }
        Kind::Bytes => {
            let (text, rest) = text_of(bytes)?;
            Ok((Value::Bytes(Bytes::from_slice(alloc, text)?), rest))
        }
        Kind::List | Kind::Set | Kind::Map | Kind::Struct => broken(Rule::Deep, bytes),
    }
}

/// A value, with at most so many structs and containers inside each other.
#[cycle(value)]
fn value_of(alloc: Global, bytes: &[u8], kind: Kind, depth: u8) -> Result<(Value, &[u8]), Fault>
    ensures { Gives (λ x. (x.0, x.1.now)) result (value_in depth kind bytes.now) }
{
    if depth == 0 {
        leaf_of(alloc, bytes, kind)
    } else {
        over_of(alloc, bytes, kind, depth - 1)
    }
}

/// A value, with at most so many structs and containers inside each other in it.
#[cycle(value)]
#[tactic(auto, unfolding(crate::specs::Decoding::over_in))]
fn over_of(alloc: Global, bytes: &[u8], kind: Kind, inner: u8) -> Result<(Value, &[u8]), Fault>
    ensures { Gives (λ x. (x.0, x.1.now)) result (over_in (value_in inner) kind bytes.now) }
{
    match kind {
        Kind::List => {
            let (kind, items, rest) = list_of(alloc, bytes, inner)?;
            Ok((Value::List { kind, items }, rest))
        }
        Kind::Set => {
            let (kind, items, rest) = list_of(alloc, bytes, inner)?;
            Ok((Value::Set { kind, items }, rest))
        }
        Kind::Map => {
            let ((key_kind, value_kind), pairs, rest) = map_of(alloc, bytes, inner)?;
            let map = Value::Map {
                key_kind,
                value_kind,
                pairs,
            };
            Ok((map, rest))
        }
        Kind::Struct => {
            let (fields, rest) = struct_of(alloc, bytes, inner)?;
            Ok((Value::Struct(fields), rest))
        }
        _ => leaf_of(alloc, bytes, kind),
    }
}

/// A list or a set: the code of its type, and its items.
#[cycle(value)]
#[tactic(auto, unfolding(crate::specs::Decoding::list_in))]
fn list_of(alloc: Global, bytes: &[u8], inner: u8) -> Result<(u8, Items<Value>, &[u8]), Fault>
    ensures { Gives (λ x. ((x.0, x.1), x.2.now)) result (list_in (value_in inner) bytes.now) }
{
    let (byte, behind) = byte_of(bytes)?;
    match kind_of(byte % 16) {
        Some(kind) => {
            let (count, behind) = said_count(byte / 16, behind)?;
            let (items, rest) = items_of(alloc, behind, kind, count, inner)?;
            Ok((byte % 16, items, rest))
        }
        None => {
            let rest = no_items(bytes.len(), byte / 16, behind)?;
            Ok((byte % 16, Items::new(alloc), rest))
        }
    }
}

#[cycle(value)]
fn items_of(
    alloc: Global,
    bytes: &[u8],
    kind: Kind,
    count: usize,
    inner: u8,
) -> Result<(Items<Value>, &[u8]), Fault>
    ensures { Gives (λ x. (x.0, x.1.now)) result (in_turn (value_in inner kind) count bytes.now) }
{
    let mut items = Items::new(alloc);
    let mut rest = bytes;
    for _ in 0..count {
        let (item, behind) = value_of(alloc, rest, kind, inner)?;
        items.push(item)?;
        rest = behind;
    }
    Ok((items, rest))
}

/// A map: the codes of its types, and its pairs.
#[cycle(value)]
#[tactic(auto, unfolding(crate::specs::Decoding::map_in))]
fn map_of(
    alloc: Global,
    bytes: &[u8],
    inner: u8,
) -> Result<((u8, u8), Items<(Value, Value)>, &[u8]), Fault>
    ensures { Gives (λ x. ((x.0, x.1), x.2.now)) result (map_in (value_in inner) bytes.now) }
{
    let (count, behind) = count_of(bytes)?;
    if count == 0 {
        return Ok(((0, 0), Items::new(alloc), behind));
    }
    let (codes, kinds, behind) = types_of(behind)?;
    let (pairs, rest) = pairs_of(alloc, behind, kinds, count, inner)?;
    Ok((codes, pairs, rest))
}

#[cycle(value)]
fn pairs_of(
    alloc: Global,
    bytes: &[u8],
    kinds: (Kind, Kind),
    count: usize,
    inner: u8,
) -> Result<(Items<(Value, Value)>, &[u8]), Fault>
    ensures { Gives (λ x. (x.0, x.1.now)) result (in_turn (both (value_in inner kinds.0) (value_in inner kinds.1)) count bytes.now) }
{
    let mut pairs = Items::new(alloc);
    let mut rest = bytes;
    for _ in 0..count {
        let (pair, behind) = pair_of(alloc, rest, kinds, inner)?;
        pairs.push(pair)?;
        rest = behind;
    }
    Ok((pairs, rest))
}

#[cycle(value)]
fn pair_of(
    alloc: Global,
    bytes: &[u8],
    kinds: (Kind, Kind),
    inner: u8,
) -> Result<((Value, Value), &[u8]), Fault>
    ensures { Gives (λ x. (x.0, x.1.now)) result (both (value_in inner kinds.0) (value_in inner kinds.1) bytes.now) }
{
    let (key, behind) = value_of(alloc, bytes, kinds.0, inner)?;
    let (value, rest) = value_of(alloc, behind, kinds.1, inner)?;
    Ok(((key, value), rest))
}

#[cycle(value)]
fn struct_of(alloc: Global, bytes: &[u8], inner: u8) -> Result<(Fields, &[u8]), Fault>
    ensures { Gives (λ x. (x.0, x.1.now)) result (struct_in (value_in inner) bytes.now) }
{
    let mut fields = Items::new(alloc);
    let mut last = 0;
    let mut rest = bytes;
    // Each field has a byte at least, and so has the end.
    for _ in 0..bytes.len() {
        let (next, behind) = field_of(alloc, rest, last, inner)?;
        rest = behind;
        let Some(field) = next else {
            return Ok((fields, rest));
        };
        last = id_of(&field);
        fields.push(field)?;
    }
    broken(Rule::Short, rest)
}

/// The field behind the one with the last id, or none at the end of the struct.
#[cycle(value)]
#[tactic(auto, unfolding(crate::specs::Decoding::field_in))]
fn field_of(
    alloc: Global,
    bytes: &[u8],
    last: i16,
    inner: u8,
) -> Result<(Option<Field>, &[u8]), Fault>
    ensures { Gives (λ x. (x.0, x.1.now)) result (field_in (value_in inner) last bytes.now) }
{
    let (header, behind) = header_of(bytes, last)?;
    let Some(header) = header else {
        return Ok((None, behind));
    };
    let (value, rest) = held_of(alloc, behind, header, inner)?;
    let field = Field {
        id: header.id,
        value,
    };
    Ok((Some(field), rest))
}

/// The value of a field. That of a truth value stands in its header.
#[cycle(value)]
fn held_of(alloc: Global, bytes: &[u8], header: Header, inner: u8) -> Result<(Value, &[u8]), Fault>
    ensures { Gives (λ x. (x.0, x.1.now)) result (held_in (value_in inner) header.code header.kind bytes.now) }
{
    match header.kind {
        Kind::Flag => Ok((Value::Flag(header.code == 1), bytes)),
        kind => value_of(alloc, bytes, kind, inner),
    }
}
