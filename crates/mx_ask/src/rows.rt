ghost use Rattle.std.specs.Prelude.{◌≡◌, ◌≢◌, List, IfOk, IsErrOf, All, map};
ghost use Rattle.serde_json.specs.Data.{number};
ghost use Rattle.serde_json.specs.View.{view, items_of, items_view, number_view};
ghost use Rattle.mx_ask.specs.Rows.{IsRow, IsRowValue, row_data, rows_data, value_data};
ghost use Rattle.mx_schema.specs.declared.row.RowValue.{RowValue as AnyValue};

use crate::LineError;
use mx_lists::{Listed, Text};
use mx_schema::{Row, RowValue};
use serde_json::{Number, Value};
use std::alloc::Global;

/// The rows that a value is.
pub(crate) fn rows_in(alloc: Global, value: Value) -> Result<Listed<Row>, LineError>
    ensures ok { IfOk result (λ rows. (view value ≡ rows_data rows) × All IsRow rows) }
    ensures not_an_ask { IsErrOf result LineError.NotAnAsk
        → (rows : List (List AnyValue)) → All IsRow rows → view value ≢ rows_data rows }
{
    let Value::Array(items) = value else {
        return Err(LineError::NotAnAsk);
    };
    each_row(alloc, items)
}

fn each_row(alloc: Global, items: Vec<Value>) -> Result<Listed<Row>, LineError>
    ensures ok { IfOk result (λ rows. (items_view items.items ≡ items_of (map row_data rows)) × All IsRow rows) }
    ensures not_an_ask { IsErrOf result LineError.NotAnAsk
        → (rows : List (List AnyValue)) → All IsRow rows → items_view items.items ≢ items_of (map row_data rows) }
{
    let mut rows = Listed::from_vec(Vec::with_capacity(alloc, items.len())?);
    for item in items {
        rows.push(row_in(alloc, item)?)?;
    }
    Ok(rows)
}

fn row_in(alloc: Global, value: Value) -> Result<Row, LineError>
    ensures ok { IfOk result (λ row. (view value ≡ row_data row) × IsRow row) }
    ensures not_an_ask { IsErrOf result LineError.NotAnAsk
        → (row : List AnyValue) → IsRow row → view value ≢ row_data row }
{
    let Value::Array(items) = value else {
        return Err(LineError::NotAnAsk);
    };
    each_value(alloc, items)
}

fn each_value(alloc: Global, items: Vec<Value>) -> Result<Row, LineError>
    ensures ok { IfOk result (λ row. (items_view items.items ≡ items_of (map value_data row)) × IsRow row) }
    ensures not_an_ask { IsErrOf result LineError.NotAnAsk
        → (row : List AnyValue) → IsRow row → items_view items.items ≢ items_of (map value_data row) }
{
    let mut row = Listed::from_vec(Vec::with_capacity(alloc, items.len())?);
    for item in items {
        row.push(value_in(item)?)?;
    }
    Ok(row)
}

fn value_in(value: Value) -> Result<RowValue, LineError>
    ensures ok { IfOk result (λ v. (view value ≡ value_data v) × IsRowValue v) }
    ensures not_an_ask { IsErrOf result LineError.NotAnAsk
        → (v : AnyValue) → IsRowValue v → view value ≢ value_data v }
{
    match value {
        Value::Null => Ok(RowValue::Null),
        Value::Bool(flag) => Ok(RowValue::Flag(flag)),
        Value::Number(numeral) => whole_in(&numeral),
        Value::String(text) => Ok(RowValue::Text(Text::from_string(text))),
        Value::Array(_) | Value::Object(_) => Err(LineError::NotAnAsk),
    }
}

fn whole_in(numeral: &Number) -> Result<RowValue, LineError>
    ensures ok { IfOk result (λ v. (number (number_view numeral.now) ≡ value_data v) × IsRowValue v) }
    ensures not_an_ask { IsErrOf result LineError.NotAnAsk
        → (v : AnyValue) → IsRowValue v → number (number_view numeral.now) ≢ value_data v }
{
    match numeral.as_i64() {
        Some(whole) => Ok(RowValue::Whole(whole)),
        None => Err(LineError::NotAnAsk),
    }
}
