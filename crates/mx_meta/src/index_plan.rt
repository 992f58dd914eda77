ghost use Rattle.std.specs.Prelude.{◌≡◌, ◌<◌, ◌^◌, IfOk, OnOk, Some, None};
ghost use Rattle.serde_json.specs.View.{view};
ghost use Rattle.serde_json.specs.Written.{compact_text};
ghost use Rattle.mx_meta.specs.Fields.{IfBad, IsRefusedFor};
ghost use Rattle.mx_meta.specs.Plans.{index_plan_data, index_plan_fields, index_plan_of};

use crate::MetaError;
use crate::checking::{Field, check_fields, read_object};
use crate::line::line_bytes;
use crate::names::{instant_field, part_field};
use mx_base::{Instant, Part};
use mx_lists::Bytes;
use serde_json::{Value, json};
use std::alloc::{AllocError, Global};

/// An index partition that is to be built of what is completed up to an instant.
#[derive(Clone, Copy, Debug)]
pub struct IndexPlan {
    pub part: Part,
    pub upto: Instant,
}

impl IndexPlan {
    /// The object on one line.
    pub fn print(&self, alloc: Global) -> Result<Bytes, AllocError>
        ensures text { IfOk result (λ bytes. bytes ≡ compact_text (index_plan_data self.now)) }
        ensures reads { IfOk result (λ bytes. index_plan_of bytes ≡ Some self.now) }
    {
        let value = plan_value(alloc, self)?;
        line_bytes(alloc, &value)
    }

    /// The object that bytes spell.
    #[tactic(auto, unfolding(crate::specs::Plans::index_plan_of, crate::specs::Plans::index_plan_in))]
    pub fn read(alloc: Global, bytes: &[u8]) -> Result<IndexPlan, MetaError>
        ensures ok { IfOk result (λ plan. index_plan_of bytes.now ≡ Some plan) }
        ensures bad { IfBad result (IsRefusedFor index_plan_fields bytes.now) }
        ensures only { IfBad result (λ _. index_plan_of bytes.now ≡ None) }
    {
        let object = read_object(alloc, bytes)?;
        let part = part_field(&object, "part");
        let upto = instant_field(&object, "upto");
        let fields = [
            Field {
                name: "part",
                reads: part.is_some(),
            },
            Field {
                name: "upto",
                reads: upto.is_some(),
            },
        ];
        check_fields(alloc, &object, &fields)?;
        Ok(IndexPlan {
            part: part.unwrap(),
            upto: upto.unwrap(),
        })
    }
}

#[tactic(auto, unfolding(crate::specs::Plans::index_plan_data))]
fn plan_value(alloc: Global, plan: &IndexPlan) -> Result<Value, AllocError>
    ensures value { IfOk result (λ v. view v ≡ index_plan_data plan.now) }
    ensures bound { OnOk result (plan.now.upto < 10 ^ 17) }
{
    let upto = plan.upto.to_text(alloc)?;
    json!(in alloc; {"part": plan.part.name(), "upto": upto.as_str()})
}
