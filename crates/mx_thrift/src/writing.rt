ghost use Rattle.std.specs.Prelude.{◌≡◌, ℕ, ◌+◌, List, Ok, ◌++◌, ◌<◌, ◌^◌, ◌-ℤ◌, length, map, flat_map, IfOk, OnOk, [], ◌∷◌, pos};
ghost use Rattle.mx_avro.specs.Encoding.{zigzag, groups, long_encoding};
ghost use Rattle.mx_thrift.specs.Encoding.{count_bytes, list_head, small_gap, struct_bytes, written_value, written_field, written, IsWritable};
ghost use Rattle.mx_thrift.specs.Grammar.{Decodes};
ghost use Rattle.mx_thrift.specs.Decoding.{struct_at};

use crate::value::{Field, Fields, Value, id_of};
use mx_avro::put_long;
use std::alloc::{AllocError, Global};

/// The one written form of a struct, which reads back at any place and whatever follows.
pub fn write_struct(alloc: Global, fields: &Fields) -> Result<Vec<u8>, AllocError>
    requires { IsWritable fields.now }
    ensures bytes { IfOk result (λ out. out.items ≡ written fields.now) }
    ensures decodes { IfOk result (λ out. Decodes out.items fields.now) }
    ensures reads { IfOk result (λ out. (front rest : List ℕ) → struct_at (front ++ (out.items ++ rest)) (length front)
        ≡ Ok (fields.now, length front + length out.items)) }
{
    put_fields(alloc, fields)
}

fn put_fields(alloc: Global, fields: &Fields) -> Result<Vec<u8>, AllocError>
    ensures { IfOk result (λ out. out.items ≡ written fields.now) }
{
    let mut out = Vec::new(alloc);
    put_struct(&mut out, fields.as_slice())?;
    Ok(out)
}

// No other value is written: the condition of `write_struct` bars it.
#[cycle(put)]
fn put_value(out: &mut Vec<u8>, value: &Value) -> Result<(), AllocError>
    ensures { OnOk result (out.new.items ≡ out.old.items ++ (written_value value.now).1) }
{
    match value {
        Value::Int(number) => put_int(out, number),
        Value::Long(number) => put_number(out, number),
        Value::Bytes(text) => put_text(out, text.as_slice()),
        Value::List { kind, items } => {
            put_list_head(out, *kind, items.len())?;
            put_items(out, items.as_slice())
        }
        Value::Struct(fields) => put_struct(out, fields.as_slice()),
        _ => Ok(()),
    }
}

#[cycle(put)]
fn put_items(out: &mut Vec<u8>, items: &[Value]) -> Result<(), AllocError>
    ensures { OnOk result (out.new.items ≡ out.old.items ++ flat_map (λ item. item.1) (map written_value items.now)) }
{
    for item in items {
        put_value(out, item)?;
    }
    Ok(())
}

#[cycle(put)]
fn put_struct(out: &mut Vec<u8>, fields: &[Field]) -> Result<(), AllocError>
    ensures { OnOk result (out.new.items ≡ out.old.items ++ struct_bytes (pos 0) (map written_field fields.now)) }
{
    let mut last = 0;
    for field in fields {
        let id = id_of(field);
        out.push(gap(last, id) * 16 + code_of(&field.value))?;
        put_value(out, &field.value)?;
        last = id;
    }
    out.push(0)?;
    Ok(())
}

/// How much an id is above another, if that fits the short header; else 0.
fn gap(last: i16, id: i16) -> u8
    ensures small { result < 16 }
    ensures value { result ≡ small_gap (id -ℤ last) }
{
    let gap = i32::from(id) - i32::from(last);
    if gap >= 0 && gap < 16 { gap as u8 } else { 0 }
}

/// The type's code of a value that is written.
fn code_of(value: &Value) -> u8
    ensures small { result < 16 }
    ensures value { result ≡ (written_value value.now).0 }
{
    match value {
        Value::Int(_) => 5,
        Value::Long(_) => 6,
        Value::Bytes(_) => 8,
        Value::List { .. } => 9,
        Value::Struct(_) => 12,
        _ => 0,
    }
}

fn put_int(out: &mut Vec<u8>, number: &i32) -> Result<(), AllocError>
    ensures { OnOk result (out.new.items ≡ out.old.items ++ long_encoding number.now) }
{
    put_long(out, i64::from(*number))
}

fn put_number(out: &mut Vec<u8>, number: &i64) -> Result<(), AllocError>
    ensures { OnOk result (out.new.items ≡ out.old.items ++ long_encoding number.now) }
{
    put_long(out, *number)
}

fn put_list_head(out: &mut Vec<u8>, kind: u8, count: usize) -> Result<(), AllocError>
    ensures { OnOk result (out.new.items ≡ out.old.items ++ list_head kind count) }
{
    if count < 15 {
        out.push(count as u8 * 16 + kind % 16)?;
        return Ok(());
    }
    out.push(240 + kind % 16)?;
    put_count(out, count)
}

fn put_text(out: &mut Vec<u8>, text: &[u8]) -> Result<(), AllocError>
    ensures { OnOk result (out.new.items ≡ out.old.items ++ (count_bytes (length text.now) ++ text.now)) }
{
    put_count(out, text.len())?;
    out.extend_from_slice(text)?;
    Ok(())
}

// A count is written as a long, since it is the zigzag of one.
#[tactic(auto, unfolding(mx_avro::specs::Encoding::long_encoding))]
fn put_count(out: &mut Vec<u8>, count: usize) -> Result<(), AllocError>
    ensures { OnOk result (out.new.items ≡ out.old.items ++ count_bytes count) }
{
    put_long(out, unsigned(count))
}

fn unsigned(count: usize) -> i64
    ensures { zigzag result ≡ count }
{
    let half = (count / 2) as i64;
    if count % 2 == 0 { half } else { -half - 1 }
}
