ghost use Rattle.std.specs.Prelude.{◌≡◌, ◌≢◌, Bool, MatchOption, IfOk, ℕ, List, ◌∷◌, ◌++◌};
ghost use Rattle.mx_schema.specs.declared.column.Column.{Column};
ghost use Rattle.mx_schema.specs.declared.column.ColumnKind.{ColumnKind};
ghost use Rattle.std.specs.List.{list_all};
ghost use Rattle.mx_schema.specs.Columns as columns;
ghost use Rattle.mx_schema.specs.Columns.{kind_name, mark, column_text, IsColumn};

use mx_lists::{Same, Text};
use std::alloc::{AllocError, Global};

/// What the cells of a column are.
#[derive(Clone, Copy, Debug, PartialEq, Eq)]
pub enum ColumnKind {
    Boolean,
    Int32,
    Int64,
    Text,
}

/// A column of a schema.
#[derive(Clone, Debug, Drop)]
pub struct Column {
    pub name: Text,
    pub kind: ColumnKind,
    /// Whether its cells may be null.
    pub nullable: bool,
}

impl Same for ColumnKind {
    fn same(&self, other: &ColumnKind) -> bool {
        self == other
    }
}

impl Same for Column {
    fn same(&self, other: &Column) -> bool {
        self.name.same(&other.name)
            && self.kind.same(&other.kind)
            && self.nullable == other.nullable
    }
}

impl ColumnKind {
    /// Its name in a schema.
    pub fn name(self) -> &'static str
        ensures { result.now ≡ kind_name self }
    {
        match self {
            ColumnKind::Boolean => "boolean",
            ColumnKind::Int32 => "int32",
            ColumnKind::Int64 => "int64",
            ColumnKind::Text => "string",
        }
    }

    /// The kind that a text names.
    pub fn parse(text: &str) -> Option<ColumnKind>
        ensures { MatchOption result ((kind : ColumnKind) → text.now ≢ kind_name kind) (λ kind. text.now ≡ kind_name kind) }
    {
        match text {
            "boolean" => Some(ColumnKind::Boolean),
            "int32" => Some(ColumnKind::Int32),
            "int64" => Some(ColumnKind::Int64),
            "string" => Some(ColumnKind::Text),
            _ => None,
        }
    }
}

/// The column that a text spells.
pub(crate) fn column_of(alloc: Global, text: &str) -> Result<Option<Column>, AllocError>
    ensures { IfOk result (λ column. MatchOption column
        ((column : Column) → IsColumn column → text.now ≢ column_text column)
        (λ column. IsColumn column × (text.now ≡ column_text column))) }
{
    let Some((name, kind)) = text.split_once(':') else {
        return Ok(None);
    };
    if !is_column_name(name.as_bytes()) {
        return Ok(None);
    }
    let Some((kind, nullable)) = kind_of(kind) else {
        return Ok(None);
    };
    Ok(Some(Column {
        name: Text::from_str(alloc, name)?,
        kind,
        nullable,
    }))
}

// A kind, and whether a mark behind it allows nulls.
fn kind_of(text: &str) -> Option<(ColumnKind, bool)>
    ensures { MatchOption result
        ((kind : ColumnKind) (nullable : Bool) → text.now ≢ kind_name kind ++ mark nullable)
        (λ found. text.now ≡ kind_name found.0 ++ mark found.1) }
{
    match text.strip_suffix('?') {
        Some(text) => Some((ColumnKind::parse(text)?, true)),
        None => Some((ColumnKind::parse(text)?, false)),
    }
}

#[tactic(auto, unfolding(crate::specs::Columns::is_column_name))]
fn is_column_name(name: &[u8]) -> bool
    ensures { result ≡ columns.is_column_name name.now }
{
    !name.is_empty() && name.len() <= 63 && name[0].is_ascii_alphabetic() && are_column_bytes(name)
}

fn are_column_bytes(name: &[u8]) -> bool
    ensures { result ≡ list_all columns.is_column_byte name.now }
{
    name.iter()
        .all(|byte| byte.is_ascii_alphanumeric() || *byte == b'_')
}
