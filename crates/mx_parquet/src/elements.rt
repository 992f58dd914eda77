ghost use Rattle.std.specs.Prelude.{◌≡◌};
ghost use Rattle.mx_parquet.specs.Reading.{Gives, Answers, each_in};
ghost use Rattle.mx_parquet.specs.Footer as footers;
ghost use Rattle.mx_parquet.specs.Footer.{nullable_in, text_in, element_in, root_at, columns_in};

use crate::error::{Failure, Feature, Flaw};
use crate::fields::{as_struct, bytes_of, count_of, int_of, is, list_of, maybe_int_of};
use mx_lists::Text;
use mx_schema::{Column, ColumnKind};
use mx_thrift::{Field, Value};
use sqlite_items::Items;
use std::alloc::Global;
use std::str::from_utf8;

/// The columns of a footer.
#[tactic(auto, unfolding(crate::specs::Footer::columns_in))]
pub(crate) fn columns_of(alloc: Global, footer: &[Field]) -> Result<Items<Column>, Failure>
    ensures { Answers result (columns_in footer.now) }
{
    columns_below(alloc, list_of(footer, 12, 2)?)
}

fn columns_below(alloc: Global, items: &[Value]) -> Result<Items<Column>, Failure>
    ensures { Answers result (footers.columns_below items.now) }
{
    let [root, elements @ ..] = items else {
        return Err(Failure::Flawed { flaw: Flaw::Bad });
    };
    let count = root_of(root)?;
    let columns = elements_of(alloc, elements)?;
    if columns.len() != count {
        return Err(Failure::Flawed { flaw: Flaw::Bad });
    }
    Ok(columns)
}

/// How many columns stand below a root.
#[tactic(auto, unfolding(crate::specs::Footer::root_at))]
fn root_of(value: &Value) -> Result<usize, Flaw>
    ensures { result ≡ root_at value.now }
{
    let root = as_struct(value)?;
    let _name = bytes_of(root, 4)?;
    count_of(i64::from(int_of(root, 5)?))
}

fn elements_of(alloc: Global, elements: &[Value]) -> Result<Items<Column>, Failure>
    ensures { Answers result (each_in footers.element_at elements.now) }
{
    let mut columns = Items::new(alloc);
    let mut rest = elements;
    while let Some((element, behind)) = rest.split_first() {
        columns.push(element_at(alloc, element)?)?;
        rest = behind;
    }
    Ok(columns)
}

fn element_at(alloc: Global, value: &Value) -> Result<Column, Failure>
    ensures { Answers result (footers.element_at value.now) }
{
    element_of(alloc, as_struct(value)?)
}

/// The column of an element.
#[tactic(auto, unfolding(crate::specs::Footer::element_in))]
fn element_of(alloc: Global, fields: &[Field]) -> Result<Column, Failure>
    ensures { Answers result (element_in fields.now) }
{
    let nullable = is_nullable(fields)?;
    let kind = kind_in(fields)?;
    let name = text_of(fields, 4)?;
    let name = Text::from_str(alloc, name)?;
    Ok(Column {
        name,
        kind,
        nullable,
    })
}

/// Whether an element of a column allows nulls.
#[tactic(auto, unfolding(crate::specs::Footer::nullable_in))]
fn is_nullable(fields: &[Field]) -> Result<bool, Flaw>
    ensures { result ≡ nullable_in fields.now }
{
    let Some(children) = maybe_int_of(fields, 5)? else {
        return nullable_of(int_of(fields, 3)?);
    };
    if is(children, 0) {
        return Err(Flaw::Bad);
    }
    Err(Flaw::Unsupported {
        what: Feature::Nested,
    })
}

fn nullable_of(repetition: i32) -> Result<bool, Flaw>
    ensures { result ≡ footers.nullable_of repetition }
{
    if is(repetition, 0) {
        Ok(false)
    } else if is(repetition, 1) {
        Ok(true)
    } else if is(repetition, 2) {
        Err(Flaw::Unsupported {
            what: Feature::Nested,
        })
    } else {
        Err(Flaw::Bad)
    }
}

/// The kind of an element.
#[tactic(auto, unfolding(crate::specs::Footer::kind_in))]
fn kind_in(fields: &[Field]) -> Result<ColumnKind, Flaw>
    ensures { result ≡ footers.kind_in fields.now }
{
    let kind = kind_of(int_of(fields, 1)?)?;
    converted(kind, maybe_int_of(fields, 6)?)
}

/// The kind of a type.
pub(crate) fn kind_of(code: i32) -> Result<ColumnKind, Flaw>
    ensures { result ≡ footers.kind_of code }
{
    if is(code, 0) {
        Ok(ColumnKind::Boolean)
    } else if is(code, 1) {
        Ok(ColumnKind::Int32)
    } else if is(code, 2) {
        Ok(ColumnKind::Int64)
    } else if is(code, 6) {
        Ok(ColumnKind::Text)
    } else {
        Err(Flaw::Unsupported {
            what: Feature::Kind,
        })
    }
}

fn converted(kind: ColumnKind, code: Option<i32>) -> Result<ColumnKind, Flaw>
    ensures { result ≡ footers.converted kind code }
{
    match (kind, code) {
        (ColumnKind::Text, Some(code)) if is(code, 0) => Ok(ColumnKind::Text),
        (ColumnKind::Boolean, None) => Ok(ColumnKind::Boolean),
        (ColumnKind::Int32, None) => Ok(ColumnKind::Int32),
        (ColumnKind::Int64, None) => Ok(ColumnKind::Int64),
        _ => Err(Flaw::Unsupported {
            what: Feature::Converted,
        }),
    }
}

/// The text under a number.
#[tactic(auto, unfolding(crate::specs::Footer::text_in))]
fn text_of(fields: &[Field], id: u8) -> Result<&str, Flaw>
    ensures { Gives (λ text. text.now) result (text_in id fields.now) }
{
    match from_utf8(bytes_of(fields, id)?) {
        Ok(text) => Ok(text),
        Err(_) => Err(Flaw::Bad),
    }
}
