ghost use Rattle.std.specs.Prelude.{◌≡◌, ◌<◌, ◌^◌, All, IfOk, OnOk, Some, None};
ghost use Rattle.std.specs.Option.{SomeIff};
ghost use Rattle.serde_json.specs.View.{view};
ghost use Rattle.serde_json.specs.Written.{compact_text};
ghost use Rattle.mx_base.specs.Names.{IsPath};
ghost use Rattle.mx_meta.specs.Fields.{IfBad, IsRefusedFor};
ghost use Rattle.mx_meta.specs.PathLists.{rollback_plan_data, rollback_plan_fields, rollback_plan_of};

use crate::MetaError;
use crate::checking::{Field, check_fields, read_object};
use crate::line::line_bytes;
use crate::names::some_instant_field;
use crate::paths::{path_values, paths_field};
use mx_base::{Instant, Path};
use mx_lists::{Bytes, Listed};
use serde_json::{Value, json};
use std::alloc::{AllocError, Global};
use std::marker::Model;

/// An instant other than 0 that is rolled back, and the paths that go with it.
#[derive(Debug, Drop)]
pub struct RollbackPlan {
    instant: Instant,
    paths: Listed<Path>,
}

impl Model for RollbackPlan {
    ghost use Rattle.std.specs.Prelude.{◌<◌};
    ghost use Rattle.mx_meta.specs.Views.{Rollback};

    ghost Value = { Rollback };

    ghost view = { λ p. record { instant = p.instant; paths = p.paths } };

    ghost invariant = { λ p. 0 < p.instant };
}

impl RollbackPlan {
    /// The plan for an instant, where one is meant.
    pub fn new(instant: Instant, paths: Listed<Path>) -> Option<RollbackPlan>
        ensures { SomeIff result (0 < instant) (record { instant = instant; paths = paths }) }
    {
        if instant.number() > 0 {
            Some(RollbackPlan { instant, paths })
        } else {
            None
        }
    }

    /// The instant that is rolled back.
    pub fn instant(&self) -> Instant
        ensures value { result ≡ self.now.instant }
        ensures some { 0 < self.now.instant }
    {
        self.instant
    }

    /// The paths that go.
    pub fn paths(&self) -> &[Path]
        ensures { result.now ≡ self.now.paths }
    {
        self.paths.as_slice()
    }

    /// The object on one line.
    pub fn print(&self, alloc: Global) -> Result<Bytes, AllocError>
        ensures text { IfOk result (λ bytes. bytes ≡ compact_text (rollback_plan_data self.now)) }
        ensures reads { IfOk result (λ bytes. rollback_plan_of bytes ≡ Some self.now) }
    {
        let value = plan_value(alloc, self)?;
        line_bytes(alloc, &value)
    }

    /// The object that bytes spell.
    #[tactic(auto, unfolding(crate::specs::PathLists::rollback_plan_of, crate::specs::PathLists::rollback_plan_in))]
    pub fn read(alloc: Global, bytes: &[u8]) -> Result<RollbackPlan, MetaError>
        ensures ok { IfOk result (λ plan. rollback_plan_of bytes.now ≡ Some plan) }
        ensures bad { IfBad result (IsRefusedFor rollback_plan_fields bytes.now) }
        ensures only { IfBad result (λ _. rollback_plan_of bytes.now ≡ None) }
    {
        let object = read_object(alloc, bytes)?;
        let instant = some_instant_field(&object, "instant");
        let paths = paths_field(alloc, &object, "paths")?;
        let fields = [
            Field {
                name: "instant",
                reads: instant.is_some(),
            },
            Field {
                name: "paths",
                reads: paths.is_some(),
            },
        ];
        check_fields(alloc, &object, &fields)?;
        Ok(RollbackPlan {
            instant: instant.unwrap(),
            paths: paths.unwrap(),
        })
    }
}

#[tactic(auto, unfolding(crate::specs::PathLists::rollback_plan_data, crate::specs::Json::paths_data))]
fn plan_value(alloc: Global, plan: &RollbackPlan) -> Result<Value, AllocError>
    ensures value { IfOk result (λ v. view v ≡ rollback_plan_data plan.now) }
    ensures names { OnOk result (All IsPath plan.now.paths) }
    ensures some { OnOk result (0 < plan.now.instant) }
    ensures bound { OnOk result (plan.now.instant < 10 ^ 17) }
{
    let instant = plan.instant().to_text(alloc)?;
    let paths = path_values(alloc, plan.paths())?;
    json!(in alloc; {"instant": instant.as_str(), "paths": paths})
}
