ghost use Rattle.std.specs.Prelude.{◌≡◌, ◌<◌, ◌^◌, All, IfOk, OnOk, Some, None, true};
ghost use Rattle.std.specs.Option.{SomeIff};
ghost use Rattle.serde_json.specs.View.{view};
ghost use Rattle.serde_json.specs.Written.{compact_text};
ghost use Rattle.mx_base.specs.Names.{IsPath};
ghost use Rattle.mx_meta.specs.Fields.{IfBad, IsRefusedFor};
ghost use Rattle.mx_meta.specs.Places.{stands_in_order};
ghost use Rattle.mx_meta.specs.ShardFiles.{base_meta_data, base_meta_fields, base_meta_of};

use crate::MetaError;
use crate::checking::{Field, check_fields, read_object};
use crate::line::line_bytes;
use crate::names::instant_field;
use crate::paths::path_values;
use crate::places::{ShardFile, stands_in_order};
use crate::shard_files::shard_files_field;
use mx_base::{Instant, Path};
use mx_lists::{Bytes, Listed};
use serde_json::{Value, json};
use std::alloc::{AllocError, Global};
use std::marker::Model;

/// The bases that were written of all up to an instant, by partition and shard.
#[derive(Debug, Drop)]
pub struct BaseMeta {
    bases: Listed<Path>,
    upto: Instant,
}

impl Model for BaseMeta {
    ghost use Rattle.std.specs.Prelude.{◌≡◌, true};
    ghost use Rattle.mx_meta.specs.Places.{stands_in_order};
    ghost use Rattle.mx_meta.specs.Views.{Bases};
    ghost use Rattle.mx_meta.specs.declared.places.ShardFile.TheVariants.{Base};

    ghost Value = { Bases };

    ghost view = { λ m. record { bases = m.bases; upto = m.upto } };

    ghost invariant = { λ m. stands_in_order Base m.bases ≡ true };
}

impl BaseMeta {
    /// The object of bases that stand by partition and shard.
    pub fn new(
        alloc: Global,
        bases: Listed<Path>,
        upto: Instant,
    ) -> Result<Option<BaseMeta>, AllocError>
        ensures { IfOk result (λ meta. SomeIff meta (stands_in_order ShardFile.Base bases ≡ true) (record { bases = bases; upto = upto })) }
    {
        if stands_in_order(alloc, ShardFile::Base, bases.as_slice())? {
            Ok(Some(BaseMeta { bases, upto }))
        } else {
            Ok(None)
        }
    }

    /// The bases.
    pub fn bases(&self) -> &[Path]
        ensures value { result.now ≡ self.now.bases }
        ensures order { stands_in_order ShardFile.Base self.now.bases ≡ true }
    {
        self.bases.as_slice()
    }

    /// The instant up to which they have everything.
    pub fn upto(&self) -> Instant
        ensures { result ≡ self.now.upto }
    {
        self.upto
    }

    /// The object on one line.
    pub fn print(&self, alloc: Global) -> Result<Bytes, AllocError>
        ensures text { IfOk result (λ bytes. bytes ≡ compact_text (base_meta_data self.now)) }
        ensures reads { IfOk result (λ bytes. base_meta_of bytes ≡ Some self.now) }
    {
        let value = meta_value(alloc, self)?;
        line_bytes(alloc, &value)
    }

    /// The object that bytes spell.
    #[tactic(auto, unfolding(crate::specs::ShardFiles::base_meta_of, crate::specs::ShardFiles::base_meta_in))]
    pub fn read(alloc: Global, bytes: &[u8]) -> Result<BaseMeta, MetaError>
        ensures ok { IfOk result (λ meta. base_meta_of bytes.now ≡ Some meta) }
        ensures bad { IfBad result (IsRefusedFor base_meta_fields bytes.now) }
        ensures only { IfBad result (λ _. base_meta_of bytes.now ≡ None) }
    {
        let object = read_object(alloc, bytes)?;
        let bases = shard_files_field(alloc, ShardFile::Base, &object, "bases")?;
        let upto = instant_field(&object, "upto");
        let fields = [
            Field {
                name: "bases",
                reads: bases.is_some(),
            },
            Field {
                name: "upto",
                reads: upto.is_some(),
            },
        ];
        check_fields(alloc, &object, &fields)?;
        Ok(BaseMeta {
            bases: bases.unwrap(),
            upto: upto.unwrap(),
        })
    }
}

#[tactic(auto, unfolding(crate::specs::ShardFiles::base_meta_data, crate::specs::Json::paths_data))]
fn meta_value(alloc: Global, meta: &BaseMeta) -> Result<Value, AllocError>
    ensures value { IfOk result (λ v. view v ≡ base_meta_data meta.now) }
    ensures names { OnOk result (All IsPath meta.now.bases) }
    ensures order { OnOk result (stands_in_order ShardFile.Base meta.now.bases ≡ true) }
    ensures bound { OnOk result (meta.now.upto < 10 ^ 17) }
{
    let bases = path_values(alloc, meta.bases())?;
    let upto = meta.upto().to_text(alloc)?;
    json!(in alloc; {"bases": bases, "upto": upto.as_str()})
}
