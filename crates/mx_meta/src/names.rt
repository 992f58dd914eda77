ghost use Rattle.std.specs.Prelude.{◌≡◌, ◌<◌, IfSome};
ghost use Rattle.serde_json.specs.View.{view};
ghost use Rattle.mx_base.specs.Names.{is_file_id};
ghost use Rattle.mx_base.specs.Paths.{instant_of};
ghost use Rattle.mx_meta.specs.Json.{field_in, instant_in, some_instant_in, part_in, text_in};

use crate::fields::text_field;
use mx_base::{FileId, Instant, Part};
use serde_json::Value;

/// The instant that a field is.
#[tactic(auto, unfolding(crate::specs::Json::instant_in))]
pub fn instant_field(value: &Value, name: &str) -> Option<Instant>
    ensures { result ≡ field_in instant_in name.now (view value.now) }
{
    let text = text_field(value, name)?;
    instant(text)
}

/// The instant that a text is.
pub fn instant(text: &str) -> Option<Instant>
    ensures { result ≡ instant_of text.now }
{
    match Instant::parse(text) {
        Ok(at) => {
            // Only this call says that the number fits.
            prove!(at.number() <= 99_999_999_999_999_999);
            Some(at)
        }
        Err(_) => None,
    }
}

/// The instant other than 0 that a field is.
#[tactic(auto, unfolding(crate::specs::Json::some_instant_in))]
pub fn some_instant_field(value: &Value, name: &str) -> Option<Instant>
    ensures value { result ≡ field_in some_instant_in name.now (view value.now) }
    ensures some { IfSome result (λ at. 0 < at) }
{
    let at = instant_field(value, name)?;
    if at.number() > 0 { Some(at) } else { None }
}

/// The file id that a field is.
pub fn file_id_field(value: &Value, name: &str) -> Option<FileId>
    ensures { result ≡ field_in (text_in is_file_id) name.now (view value.now) }
{
    let text = text_field(value, name)?;
    match FileId::parse(text) {
        Ok(id) => Some(id),
        Err(_) => None,
    }
}

/// The index partition that a field is.
pub fn part_field(value: &Value, name: &str) -> Option<Part>
    ensures { result ≡ field_in part_in name.now (view value.now) }
{
    value.get(name).and_then(part)
}

/// The index partition that a value is.
#[tactic(auto, unfolding(crate::specs::Json::part_in))]
pub fn part(value: &Value) -> Option<Part>
    ensures { result ≡ part_in (view value.now) }
{
    let text = value.as_str()?;
    match Part::parse(text) {
        Ok(part) => Some(part),
        Err(_) => None,
    }
}
