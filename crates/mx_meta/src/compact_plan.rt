ghost use Rattle.std.specs.Prelude.{◌≡◌, ◌<◌, ◌^◌, IfOk, OnOk, Some, None, true};
ghost use Rattle.std.specs.Option.{SomeIff};
ghost use Rattle.serde_json.specs.View.{view};
ghost use Rattle.serde_json.specs.Written.{compact_text};
ghost use Rattle.mx_meta.specs.Fields.{IfBad, IsRefusedFor};
ghost use Rattle.mx_meta.specs.Rising.{is_rising, part_below};
ghost use Rattle.mx_meta.specs.Plans.{compact_plan_data, compact_plan_fields, compact_plan_of};

use crate::MetaError;
use crate::checking::{Field, check_fields, read_object};
use crate::line::line_bytes;
use crate::names::instant_field;
use crate::parts::{part_values, parts_field};
use crate::rising::is_rising;
use mx_base::{Instant, Part};
use mx_lists::{Bytes, Listed};
use serde_json::{Value, json};
use std::alloc::{AllocError, Global};
use std::marker::Model;

/// Index partitions, in their order, that are compacted up to an instant.
#[derive(Debug, Drop)]
pub struct CompactPlan {
    parts: Listed<Part>,
    upto: Instant,
}

impl Model for CompactPlan {
    ghost use Rattle.std.specs.Prelude.{◌≡◌, true};
    ghost use Rattle.mx_meta.specs.Rising.{is_rising, part_below};
    ghost use Rattle.mx_meta.specs.Views.{Compaction};

    ghost Value = { Compaction };

    ghost view = { λ p. record { parts = p.parts; upto = p.upto } };

    ghost invariant = { λ p. is_rising part_below p.parts ≡ true };
}

impl CompactPlan {
    /// The plan for partitions that stand in their order.
    pub fn new(parts: Listed<Part>, upto: Instant) -> Option<CompactPlan>
        ensures { SomeIff result (is_rising part_below parts ≡ true) (record { parts = parts; upto = upto }) }
    {
        if is_rising(parts.as_slice()) {
            Some(CompactPlan { parts, upto })
        } else {
            None
        }
    }

    /// The partitions.
    pub fn parts(&self) -> &[Part]
        ensures value { result.now ≡ self.now.parts }
        ensures rising { is_rising part_below self.now.parts ≡ true }
    {
        self.parts.as_slice()
    }

    /// The instant up to which they are compacted.
    pub fn upto(&self) -> Instant
        ensures { result ≡ self.now.upto }
    {
        self.upto
    }

    /// The object on one line.
    pub fn print(&self, alloc: Global) -> Result<Bytes, AllocError>
        ensures text { IfOk result (λ bytes. bytes ≡ compact_text (compact_plan_data self.now)) }
        ensures reads { IfOk result (λ bytes. compact_plan_of bytes ≡ Some self.now) }
    {
        let value = plan_value(alloc, self)?;
        line_bytes(alloc, &value)
    }

    /// The object that bytes spell.
    #[tactic(auto, unfolding(crate::specs::Plans::compact_plan_of, crate::specs::Plans::compact_plan_in))]
    pub fn read(alloc: Global, bytes: &[u8]) -> Result<CompactPlan, MetaError>
        ensures ok { IfOk result (λ plan. compact_plan_of bytes.now ≡ Some plan) }
        ensures bad { IfBad result (IsRefusedFor compact_plan_fields bytes.now) }
        ensures only { IfBad result (λ _. compact_plan_of bytes.now ≡ None) }
    {
        let object = read_object(alloc, bytes)?;
        let parts = parts_field(alloc, &object, "parts")?;
        let upto = instant_field(&object, "upto");
        let fields = [
            Field {
                name: "parts",
                reads: parts.is_some(),
            },
            Field {
                name: "upto",
                reads: upto.is_some(),
            },
        ];
        check_fields(alloc, &object, &fields)?;
        Ok(CompactPlan {
            parts: parts.unwrap(),
            upto: upto.unwrap(),
        })
    }
}

#[tactic(auto, unfolding(crate::specs::Plans::compact_plan_data))]
fn plan_value(alloc: Global, plan: &CompactPlan) -> Result<Value, AllocError>
    ensures value { IfOk result (λ v. view v ≡ compact_plan_data plan.now) }
    ensures rising { OnOk result (is_rising part_below plan.now.parts ≡ true) }
    ensures bound { OnOk result (plan.now.upto < 10 ^ 17) }
{
    let parts = part_values(alloc, plan.parts())?;
    let upto = plan.upto().to_text(alloc)?;
    json!(in alloc; {"parts": parts, "upto": upto.as_str()})
}
