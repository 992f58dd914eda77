ghost use Rattle.std.specs.Prelude.{◌≡◌, ◌≤◌, IfOk, IsUtf8, OnOk, Some, false};
ghost use Rattle.serde_json.specs.Data.{depth};
ghost use Rattle.serde_json.specs.Read.{read};
ghost use Rattle.serde_json.specs.View.{view};
ghost use Rattle.serde_json.specs.Written.{compact_text, has_float};

use mx_lists::Bytes;
use serde_json::Value;
use std::alloc::{AllocError, Global};

/// The bytes of a value on one line.
pub fn line_bytes(alloc: Global, value: &Value) -> Result<Bytes, AllocError>
    requires float { has_float (view value.now) ≡ false }
    requires nests { depth (view value.now) ≤ 127 }
    ensures text { IfOk result (λ bytes. bytes ≡ compact_text (view value.now)) }
    ensures utf8 { IfOk result (λ bytes. IsUtf8 bytes) }
    ensures reads { IfOk result (λ bytes. read bytes ≡ Some (view value.now)) }
{
    let line = mx_text::print(alloc, value)?;
    Bytes::from_slice(alloc, line.as_str().as_bytes())
}
