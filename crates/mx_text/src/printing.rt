ghost use Rattle.std.specs.Prelude.{◌≡◌, ◌≤◌, IfOk, Some, false};
ghost use Rattle.serde_json.specs.Data.{depth};
ghost use Rattle.serde_json.specs.Read.{read, max_depth};
ghost use Rattle.serde_json.specs.View.{view};
ghost use Rattle.serde_json.specs.Written.{compact_text, has_float};

use mx_lists::Text;
use serde_json::Value;
use std::alloc::{AllocError, Global};

/// A value on one line: no spaces, and names in the order of their bytes.
pub fn print(alloc: Global, value: &Value) -> Result<Text, AllocError>
    requires { has_float (view value.now) ≡ false }
    ensures text { IfOk result (λ line. line ≡ compact_text (view value.now)) }
    ensures reads { depth (view value.now) ≤ max_depth → IfOk result (λ line. read line ≡ Some (view value.now)) }
{
    Ok(Text::from_string(value.to_string(alloc)?))
}
