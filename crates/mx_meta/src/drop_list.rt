ghost use Rattle.std.specs.Prelude.{◌≡◌, All, IfOk, OnOk, Some, None, true};
ghost use Rattle.std.specs.Option.{SomeIff};
ghost use Rattle.serde_json.specs.View.{view};
ghost use Rattle.serde_json.specs.Written.{compact_text};
ghost use Rattle.mx_base.specs.Names.{IsPath};
ghost use Rattle.mx_meta.specs.Fields.{IfBad, IsRefusedFor};
ghost use Rattle.mx_meta.specs.Rising.{is_rising, bytes_below};
ghost use Rattle.mx_meta.specs.PathLists.{drop_list_data, drop_list_fields, drop_list_of};

use crate::MetaError;
use crate::checking::{Field, check_fields, read_object};
use crate::line::line_bytes;
use crate::paths::{path_values, rising_paths_field};
use crate::rising::is_rising;
use mx_base::Path;
use mx_lists::{Bytes, Listed};
use serde_json::{Value, json};
use std::alloc::{AllocError, Global};
use std::marker::Model;

/// Paths that are dropped, in the order of their bytes. Contracts see it as the list of them.
#[derive(Debug, Drop)]
pub struct DropList {
    paths: Listed<Path>,
}

impl Model for DropList {
    ghost use Rattle.std.specs.Prelude.{◌≡◌, List, ℕ, true};
    ghost use Rattle.mx_meta.specs.Rising.{is_rising, bytes_below};

    ghost Value = { List (List ℕ) };

    ghost view = { λ d. d.paths };

    ghost invariant = { λ d. is_rising bytes_below d.paths ≡ true };
}

impl DropList {
    /// The list of paths that rise in the order of their bytes.
    pub fn new(paths: Listed<Path>) -> Option<DropList>
        ensures { SomeIff result (is_rising bytes_below paths ≡ true) paths }
    {
        if is_rising(paths.as_slice()) {
            Some(DropList { paths })
        } else {
            None
        }
    }

    /// Its paths.
    pub fn paths(&self) -> &[Path]
        ensures value { result.now ≡ self.now }
        ensures rising { is_rising bytes_below self.now ≡ true }
    {
        self.paths.as_slice()
    }

    /// The object on one line.
    pub fn print(&self, alloc: Global) -> Result<Bytes, AllocError>
        ensures text { IfOk result (λ bytes. bytes ≡ compact_text (drop_list_data self.now)) }
        ensures reads { IfOk result (λ bytes. drop_list_of bytes ≡ Some self.now) }
    {
        let value = list_value(alloc, self)?;
        line_bytes(alloc, &value)
    }

    /// The object that bytes spell.
    #[tactic(auto, unfolding(crate::specs::PathLists::drop_list_of, crate::specs::PathLists::drop_list_in))]
    pub fn read(alloc: Global, bytes: &[u8]) -> Result<DropList, MetaError>
        ensures ok { IfOk result (λ list. drop_list_of bytes.now ≡ Some list) }
        ensures bad { IfBad result (IsRefusedFor drop_list_fields bytes.now) }
        ensures only { IfBad result (λ _. drop_list_of bytes.now ≡ None) }
    {
        let object = read_object(alloc, bytes)?;
        let paths = rising_paths_field(alloc, &object, "drop")?;
        let fields = [Field {
            name: "drop",
            reads: paths.is_some(),
        }];
        check_fields(alloc, &object, &fields)?;
        Ok(DropList {
            paths: paths.unwrap(),
        })
    }
}

#[tactic(auto, unfolding(crate::specs::PathLists::drop_list_data, crate::specs::Json::paths_data))]
fn list_value(alloc: Global, list: &DropList) -> Result<Value, AllocError>
    ensures value { IfOk result (λ v. view v ≡ drop_list_data list.now) }
    ensures names { OnOk result (All IsPath list.now) }
    ensures rising { OnOk result (is_rising bytes_below list.now ≡ true) }
{
    let paths = path_values(alloc, list.paths())?;
    json!(in alloc; {"drop": paths})
}
