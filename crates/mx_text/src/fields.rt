ghost use Rattle.std.specs.Prelude.{◌≡◌, ◌↔◌, IfOk, IsErrOf, Some, None, IsSome};
ghost use Rattle.serde_json.specs.Find.{get, as_object};
ghost use Rattle.serde_json.specs.View.{view};

use serde_json::Value;

/// Why a value has no such field.
#[derive(Clone, Copy, Debug, PartialEq, Eq)]
pub enum FieldError {
    NoField,
    WrongKind,
}

/// The value of a field of an object.
pub fn field<'a>(json: &'a Value, name: &str) -> Result<&'a Value, FieldError>
    ensures ok { IfOk result (λ v. get name.now (view json.now) ≡ Some (view v.now)) }
    ensures no_field { IsErrOf result FieldError.NoField ↔ (IsSome (as_object (view json.now)) × (get name.now (view json.now) ≡ None)) }
    ensures wrong_kind { IsErrOf result FieldError.WrongKind ↔ (as_object (view json.now) ≡ None) }
{
    if !json.is_object() {
        return Err(FieldError::WrongKind);
    }
    match json.get(name) {
        Some(value) => Ok(value),
        None => Err(FieldError::NoField),
    }
}
