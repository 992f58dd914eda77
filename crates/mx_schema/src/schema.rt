ghost use Rattle.std.specs.Prelude.{◌≡◌, ◌++◌, ◌∷◌, [], ◌≤◌, ◌<◌, List, MatchOption, IfOk, OnOk, OnErr, length, string_bytes, IsTrue, ◌↔◌};
ghost use Rattle.mx_schema.specs.declared.column.Column.{Column};
ghost use Rattle.mx_schema.specs.Columns.{column_text, schema_text, IsColumn, AreColumns, IsSchema, SaysBad, IsOnly};
ghost use Rattle.mx_schema.specs.Rows.{asked, FitsAll, IsFirstBad};
ghost use Rattle.std.specs.List.{list_any, flat_map};
ghost use Rattle.std.specs.Str.{bytes_eq};

use crate::column::{Column, column_of};
use crate::error::SchemaError;
use crate::row::{Row, first_bad_place};
use mx_lists::{Listed, Same, Text};
use std::alloc::{AllocError, Global};
use std::marker::Model;

/// The columns of a table. Contracts see it as their list.
#[derive(Debug, Drop)]
pub struct Schema {
    columns: Listed<Column>,
}

impl Model for Schema {
    ghost use Rattle.std.specs.Prelude.{List};
    ghost use Rattle.mx_schema.specs.declared.column.Column.{Column};
    ghost use Rattle.mx_schema.specs.Columns.{IsSchema};

    ghost Value = { List Column };

    ghost view = { λ s. s.columns };

    ghost invariant = { λ s. IsSchema s.columns };
}

impl Schema {
    /// The schema that a text is.
    pub fn parse(alloc: Global, text: &str) -> Result<Schema, SchemaError>
        ensures ok { IfOk result (λ schema. IsSchema schema × (text.now ≡ schema_text schema)) }
        ensures only { (schema : List Column) → IsSchema schema → text.now ≡ schema_text schema → IsOnly schema result }
        ensures bad { SaysBad text.now result }
    {
        let columns = columns_of(alloc, text)?;
        Ok(Schema { columns })
    }

    /// Its text.
    pub fn print(&self, alloc: Global) -> Result<Text, AllocError>
        ensures text { IfOk result (λ text. text ≡ schema_text self.now) }
        ensures kept { IsSchema self.now }
    {
        print_columns(alloc, self.columns.as_slice())
    }

    /// Its columns, in order.
    pub fn columns(&self) -> &[Column]
        ensures value { result.now ≡ self.now }
        ensures kept { IsSchema self.now }
    {
        self.columns.as_slice()
    }

    /// The first bad place of a row: its key is at 0, and the cells of the columns behind it. A row that is too short
    /// is bad at its end, one that is too long behind the last column.
    pub fn fits(&self, row: &Row) -> Option<u32>
        ensures { MatchOption result (FitsAll (asked self.now) row.now) (IsFirstBad (asked self.now) row.now) }
    {
        first_bad_place(self.columns(), row.as_slice())
    }
}

impl Clone for Schema {
    ghost is_clone = { λ b c. c ≡ b };

    fn clone(&self) -> Result<Schema, AllocError> {
        Ok(Schema {
            columns: self.columns.clone()?,
        })
    }
}

impl Same for Schema {
    fn same(&self, other: &Schema) -> bool {
        self.columns.same(&other.columns)
    }
}

fn columns_of(alloc: Global, text: &str) -> Result<Listed<Column>, SchemaError>
    ensures ok { IfOk result (λ columns. IsSchema columns × (text.now ≡ schema_text columns)) }
    ensures bad { SaysBad text.now result }
{
    let mut columns = Listed::new(alloc);
    for piece in text.split(',') {
        match next_column(alloc, columns.as_slice(), piece)? {
            Some(column) => columns.push(column)?,
            None => {
                return Err(SchemaError::BadSchema {
                    at: columns.len() as u32,
                });
            }
        }
    }
    Ok(columns)
}

// The column behind others, where it can stand there.
fn next_column(alloc: Global, before: &[Column], piece: &str) -> Result<Option<Column>, AllocError>
    requires { AreColumns before.now }
    ensures { IfOk result (λ column. MatchOption column
        ((column : Column) → piece.now ≡ column_text column → ¬ (AreColumns (before.now ++ column ∷ [])))
        (λ column. (piece.now ≡ column_text column) × AreColumns (before.now ++ column ∷ []))) }
{
    let Some(column) = column_of(alloc, piece)? else {
        return Ok(None);
    };
    if !can_follow(before, &column) {
        return Ok(None);
    }
    Ok(Some(column))
}

fn can_follow(before: &[Column], column: &Column) -> bool
    requires before { AreColumns before.now }
    requires column { IsColumn column.now }
    ensures { IsTrue result ↔ AreColumns (before.now ++ column.now ∷ []) }
{
    before.len() < 32 && !is_named(before, column.name.as_str())
}

fn is_named(columns: &[Column], name: &str) -> bool
    ensures { result ≡ list_any (λ column. bytes_eq column.name name.now) columns.now }
{
    columns.iter().any(|column| column.name.as_str() == name)
}

/// The text of columns, as a schema of them has it.
pub fn print_columns(alloc: Global, columns: &[Column]) -> Result<Text, AllocError>
    ensures { IfOk result (λ text. text ≡ schema_text columns.now) }
{
    let mut text = String::new(alloc);
    put_columns(&mut text, columns)?;
    Ok(Text::from_string(text))
}

fn put_columns(text: &mut String, columns: &[Column]) -> Result<(), AllocError>
    ensures { OnOk result (string_bytes text.new ≡ string_bytes text.old ++ schema_text columns.now) }
{
    let Some((first, others)) = columns.split_first() else {
        return Ok(());
    };
    put_column(text, first)?;
    put_others(text, others)?;
    Ok(())
}

// The columns behind the first one.
fn put_others(text: &mut String, others: &[Column]) -> Result<(), AllocError>
    ensures { OnOk result (string_bytes text.new ≡ string_bytes text.old ++ flat_map (λ column. 44 ∷ column_text column) others.now) }
{
    for column in others {
        text.push(',')?;
        put_column(text, column)?;
    }
    Ok(())
}

fn put_column(text: &mut String, column: &Column) -> Result<(), AllocError>
    ensures { OnOk result (string_bytes text.new ≡ string_bytes text.old ++ column_text column.now) }
{
    text.push_str(column.name.as_str())?;
    text.push(':')?;
    text.push_str(column.kind.name())?;
    if column.nullable {
        text.push('?')?;
    }
    Ok(())
}
