ghost use Rattle.std.specs.Prelude.{◌≡◌, ℕ, Err, Some, None, List, MatchOption, IfOk, codes, string_bytes, ◌++◌, ◌∷◌, []};
ghost use Rattle.mx_schema.specs.Columns.{IsSchema};
ghost use Rattle.mx_props.specs.Config.{Config, IsConfig, config_text, IsApart, AreAvailable};
ghost use Rattle.mx_props.specs.Lines.{SaysBadLine, SaysWhy, IsOnly};
ghost use Rattle.mx_props.specs.Version.{GivesAnother};
ghost use Rattle.mx_props.specs.declared.error.PropsError.TheVariants.{Version};

use crate::error::PropsError;
use crate::parts::{are_available, building_text, is_apart, parts_text};
use crate::reading::lines_in;
use crate::version::version_in;
use mx_base::Part;
use mx_lists::{Bytes, Listed};
use mx_schema::Schema;
use std::alloc::{AllocError, Global};
use std::marker::Model;

/// What the config of a table says.
#[derive(Debug, Drop)]
pub struct Props {
    available: Listed<Part>,
    building: Option<Part>,
    schema: Schema,
}

impl Model for Props {
    ghost use Rattle.mx_props.specs.Config.{Config, IsConfig};

    ghost Value = { Config };

    ghost view = { λ p. record { available = p.available; building = p.building; schema = p.schema } };

    ghost invariant = { λ p. IsConfig (record { available = p.available; building = p.building; schema = p.schema }) };
}

impl Props {
    /// The config of these parts and this schema.
    pub fn new(available: Listed<Part>, building: Option<Part>, schema: Schema) -> Option<Props>
        ensures { MatchOption result
            (¬ (IsConfig (record { available = available; building = building; schema = schema })))
            (λ props. props ≡ record { available = available; building = building; schema = schema }) }
    {
        if !are_available(available.as_slice()) {
            return None;
        }
        if !is_apart(available.as_slice(), building) {
            return None;
        }
        let _columns = schema.columns();
        Some(Props {
            available,
            building,
            schema,
        })
    }

    /// The config that bytes are the text of.
    pub fn read(alloc: Global, bytes: &[u8]) -> Result<Props, PropsError>
        ensures ok { IfOk result (λ props. IsConfig props × (bytes.now ≡ config_text props)) }
        ensures only { (config : Config) → IsConfig config → bytes.now ≡ config_text config → IsOnly config result }
        ensures version { (found : ℕ) → GivesAnother bytes.now found → result ≡ Err (Version found) }
        ensures why { SaysWhy bytes.now result }
    {
        match version_in(bytes) {
            Some(found) if found != 6 => Err(PropsError::Version { found }),
            _ => Props::of_lines(alloc, bytes),
        }
    }

    fn of_lines(alloc: Global, bytes: &[u8]) -> Result<Props, PropsError>
        ensures ok { IfOk result (λ props. IsConfig props × (bytes.now ≡ config_text props)) }
        ensures bad { SaysBadLine bytes.now result }
    {
        let (available, building, schema) = lines_in(alloc, bytes)?;
        Ok(Props {
            available,
            building,
            schema,
        })
    }

    /// Its text.
    pub fn print(&self, alloc: Global) -> Result<Bytes, AllocError>
        ensures text { IfOk result (λ bytes. bytes ≡ config_text self.now) }
        ensures kept { IsConfig self.now }
    {
        print_config(
            alloc,
            self.available.as_slice(),
            self.building,
            &self.schema,
        )
    }

    /// The parts that can be read, in their order.
    pub fn available(&self) -> &[Part]
        ensures value { result.now ≡ self.now.available }
        ensures kept { IsConfig self.now }
    {
        self.available.as_slice()
    }

    /// The part that is being built.
    pub fn building(&self) -> Option<Part>
        ensures value { result ≡ self.now.building }
        ensures kept { IsConfig self.now }
    {
        self.building
    }

    /// The schema of the table.
    pub fn schema(&self) -> &Schema
        ensures value { result.now ≡ self.now.schema }
        ensures kept { IsConfig self.now }
    {
        &self.schema
    }
}

fn print_config(
    alloc: Global,
    available: &[Part],
    building: Option<Part>,
    schema: &Schema,
) -> Result<Bytes, AllocError>
    ensures { IfOk result (λ bytes. bytes ≡ config_text (record { available = available.now; building = building; schema = schema.now })) }
{
    let available = parts_text(alloc, available)?;
    let schema = schema.print(alloc)?;
    let text = text_of(
        alloc,
        available.as_str(),
        building_text(building),
        schema.as_str(),
    )?;
    Bytes::from_slice(alloc, text.as_bytes())
}

fn text_of(
    alloc: Global,
    available: &str,
    building: &str,
    schema: &str,
) -> Result<String, AllocError>
    ensures { IfOk result (λ text. string_bytes text ≡ codes "hoodie.table.metadata.partitions=" ++ (available.now ++ 10 ∷ (codes "hoodie.table.metadata.partitions.inflight=" ++ (building.now
        ++ 10 ∷ (codes "hoodie.table.version=6" ++ 10 ∷ (codes "mdt.schema=" ++ (schema.now ++ 10 ∷ []))))))) }
{
    format!(in alloc;
        "hoodie.table.metadata.partitions={available}\nhoodie.table.metadata.partitions.inflight={building}\nhoodie.table.version=6\nmdt.schema={schema}\n"
    )
}
