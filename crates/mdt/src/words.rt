ghost use Rattle.std.specs.Prelude.{◌≡◌, List, IfOk, IfSome, Some, option_map, string_bytes};
ghost use Rattle.mx_schema.specs.Columns.{IsSchema, schema_text};
ghost use Rattle.mx_schema.specs.declared.column.Column.{Column};
ghost use Rattle.mdt.specs.declared.words.Command.{Command as Asked};
ghost use Rattle.mdt.specs.declared.words.Command.TheVariants.{Init};
ghost use Rattle.mdt.specs.Words as grammar;
ghost use Rattle.mdt.specs.Words.{IsCommand};

use mx_schema::{Schema, SchemaError};
use std::alloc::{AllocError, Global};

/// What the words behind the program's name ask for.
#[derive(Drop)]
pub enum Command {
    /// Make a new table.
    Init { schema: Schema },
    /// Answer the lines of the input.
    Serve,
}

/// The command of the words, none where they are those of no command.
pub fn command_of(alloc: Global, words: &[String]) -> Result<Option<Command>, AllocError>
    ensures some { IfOk result (λ found. IfSome found (λ command. IsCommand words.now command)) }
    ensures only { IfOk result (λ found. (command : Asked) → IsCommand words.now command → found ≡ Some command) }
{
    if is_serve(words) {
        return Ok(Some(Command::Serve));
    }
    match schema_word(words) {
        Some(text) => init_of(alloc, text.as_str()),
        None => Ok(None),
    }
}

fn is_serve(words: &[String]) -> bool
    ensures { result ≡ grammar.is_serve words.now }
{
    match words {
        [command, _folder] => command.as_str() == "serve",
        _ => false,
    }
}

// What stands behind `init` and a folder.
fn schema_word(words: &[String]) -> Option<&String>
    ensures { option_map (λ word. string_bytes word.now) result ≡ grammar.schema_word words.now }
{
    match words {
        [command, _folder, schema] if command.as_str() == "init" => Some(schema),
        _ => None,
    }
}

fn init_of(alloc: Global, text: &str) -> Result<Option<Command>, AllocError>
    ensures some { IfOk result (λ found. IfSome found (grammar.IsInitOf text.now)) }
    ensures only { IfOk result (λ found. (schema : List Column) → IsSchema schema → text.now ≡ schema_text schema → found ≡ Some (Init schema)) }
{
    match Schema::parse(alloc, text) {
        Ok(schema) => Ok(Some(Command::Init { schema })),
        Err(SchemaError::BadSchema { .. }) => Ok(None),
        Err(SchemaError::NoMemory) => Err(AllocError),
    }
}
