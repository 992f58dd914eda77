ghost use Rattle.std.specs.Prelude.{◌≡◌, All, IfOk, OnOk, Some, None};
ghost use Rattle.serde_json.specs.View.{view};
ghost use Rattle.serde_json.specs.Written.{compact_text};
ghost use Rattle.mx_base.specs.Names.{IsPath};
ghost use Rattle.mx_meta.specs.Fields.{IfBad, IsRefusedFor};
ghost use Rattle.mx_meta.specs.PathLists.{path_list_data, path_list_fields, path_list_of};

use crate::MetaError;
use crate::checking::{Field, check_fields, read_object};
use crate::line::line_bytes;
use crate::paths::{path_values, paths_field};
use mx_base::Path;
use mx_lists::{Bytes, Listed};
use serde_json::{Value, json};
use std::alloc::{AllocError, Global};

/// Paths in any order.
#[derive(Debug, Drop)]
pub struct PathList {
    pub paths: Listed<Path>,
}

impl PathList {
    /// The object on one line.
    pub fn print(&self, alloc: Global) -> Result<Bytes, AllocError>
        ensures text { IfOk result (λ bytes. bytes ≡ compact_text (path_list_data self.now)) }
        ensures reads { IfOk result (λ bytes. path_list_of bytes ≡ Some self.now) }
    {
        let value = list_value(alloc, self)?;
        line_bytes(alloc, &value)
    }

    /// The object that bytes spell.
    #[tactic(auto, unfolding(crate::specs::PathLists::path_list_of, crate::specs::PathLists::path_list_in))]
    pub fn read(alloc: Global, bytes: &[u8]) -> Result<PathList, MetaError>
        ensures ok { IfOk result (λ list. path_list_of bytes.now ≡ Some list) }
        ensures bad { IfBad result (IsRefusedFor path_list_fields bytes.now) }
        ensures only { IfBad result (λ _. path_list_of bytes.now ≡ None) }
    {
        let object = read_object(alloc, bytes)?;
        let paths = paths_field(alloc, &object, "paths")?;
        let fields = [Field {
            name: "paths",
            reads: paths.is_some(),
        }];
        check_fields(alloc, &object, &fields)?;
        Ok(PathList {
            paths: paths.unwrap(),
        })
    }
}

#[tactic(auto, unfolding(crate::specs::PathLists::path_list_data, crate::specs::Json::paths_data))]
fn list_value(alloc: Global, list: &PathList) -> Result<Value, AllocError>
    ensures value { IfOk result (λ v. view v ≡ path_list_data list.now) }
    ensures names { OnOk result (All IsPath list.now.paths) }
{
    let paths = path_values(alloc, list.paths.as_slice())?;
    json!(in alloc; {"paths": paths})
}
