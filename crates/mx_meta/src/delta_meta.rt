ghost use Rattle.std.specs.Prelude.{◌≡◌, All, IfOk, OnOk, Some, None, true};
ghost use Rattle.std.specs.Option.{SomeIff};
ghost use Rattle.serde_json.specs.View.{view};
ghost use Rattle.serde_json.specs.Written.{compact_text};
ghost use Rattle.mx_base.specs.Names.{IsPath};
ghost use Rattle.mx_meta.specs.Fields.{IfBad, IsRefusedFor};
ghost use Rattle.mx_meta.specs.Places.{stands_in_order};
ghost use Rattle.mx_meta.specs.ShardFiles.{delta_meta_data, delta_meta_fields, delta_meta_of};

use crate::MetaError;
use crate::checking::{Field, check_fields, read_object};
use crate::line::line_bytes;
use crate::paths::path_values;
use crate::places::{ShardFile, stands_in_order};
use crate::shard_files::shard_files_field;
use mx_base::Path;
use mx_lists::{Bytes, Listed};
use serde_json::{Value, json};
use std::alloc::{AllocError, Global};
use std::marker::Model;

/// The logs that a commit wrote, by partition and shard. Contracts see it as the list of their paths.
#[derive(Debug, Drop)]
pub struct DeltaMeta {
    logs: Listed<Path>,
}

impl Model for DeltaMeta {
    ghost use Rattle.std.specs.Prelude.{◌≡◌, List, ℕ, true};
    ghost use Rattle.mx_meta.specs.Places.{stands_in_order};
    ghost use Rattle.mx_meta.specs.declared.places.ShardFile.TheVariants.{Log};

    ghost Value = { List (List ℕ) };

    ghost view = { λ m. m.logs };

    ghost invariant = { λ m. stands_in_order Log m.logs ≡ true };
}

impl DeltaMeta {
    /// The object of logs that stand by partition and shard.
    pub fn new(alloc: Global, logs: Listed<Path>) -> Result<Option<DeltaMeta>, AllocError>
        ensures { IfOk result (λ meta. SomeIff meta (stands_in_order ShardFile.Log logs ≡ true) logs) }
    {
        if stands_in_order(alloc, ShardFile::Log, logs.as_slice())? {
            Ok(Some(DeltaMeta { logs }))
        } else {
            Ok(None)
        }
    }

    /// The logs.
    pub fn logs(&self) -> &[Path]
        ensures value { result.now ≡ self.now }
        ensures order { stands_in_order ShardFile.Log self.now ≡ true }
    {
        self.logs.as_slice()
    }

    /// The object on one line.
    pub fn print(&self, alloc: Global) -> Result<Bytes, AllocError>
        ensures text { IfOk result (λ bytes. bytes ≡ compact_text (delta_meta_data self.now)) }
        ensures reads { IfOk result (λ bytes. delta_meta_of bytes ≡ Some self.now) }
    {
        let value = meta_value(alloc, self)?;
        line_bytes(alloc, &value)
    }

    /// The object that bytes spell.
    #[tactic(auto, unfolding(crate::specs::ShardFiles::delta_meta_of, crate::specs::ShardFiles::delta_meta_in))]
    pub fn read(alloc: Global, bytes: &[u8]) -> Result<DeltaMeta, MetaError>
        ensures ok { IfOk result (λ meta. delta_meta_of bytes.now ≡ Some meta) }
        ensures bad { IfBad result (IsRefusedFor delta_meta_fields bytes.now) }
        ensures only { IfBad result (λ _. delta_meta_of bytes.now ≡ None) }
    {
        let object = read_object(alloc, bytes)?;
        let logs = shard_files_field(alloc, ShardFile::Log, &object, "logs")?;
        let fields = [Field {
            name: "logs",
            reads: logs.is_some(),
        }];
        check_fields(alloc, &object, &fields)?;
        Ok(DeltaMeta {
            logs: logs.unwrap(),
        })
    }
}

#[tactic(auto, unfolding(crate::specs::ShardFiles::delta_meta_data, crate::specs::Json::paths_data))]
fn meta_value(alloc: Global, meta: &DeltaMeta) -> Result<Value, AllocError>
    ensures value { IfOk result (λ v. view v ≡ delta_meta_data meta.now) }
    ensures names { OnOk result (All IsPath meta.now) }
    ensures order { OnOk result (stands_in_order ShardFile.Log meta.now ≡ true) }
{
    let logs = path_values(alloc, meta.logs())?;
    json!(in alloc; {"logs": logs})
}
