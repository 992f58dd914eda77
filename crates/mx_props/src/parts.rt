ghost use Rattle.std.specs.Prelude.{◌≡◌, ◌≢◌, ◌<◌, ◌↔◌, ◌∷◌, ◌++◌, List, IsTrue, MatchOption, IfOk, OnOk, Option, Contains, length, string_bytes};
ghost use Rattle.std.specs.List.{flat_map};
ghost use Rattle.std.specs.Option.{option_to_list};
ghost use Rattle.mx_base.specs.declared.part.Part.{Part};
ghost use Rattle.mx_base.specs.Parts.{part_name};
ghost use Rattle.mx_props.specs.Config as config;
ghost use Rattle.mx_props.specs.Config.{rises_from, AreAvailable, IsApart};

use mx_base::Part;
use mx_lists::{Listed, Same, Text};
use std::alloc::{AllocError, Global};

/// Parts with commas between them.
pub(crate) fn parts_text(alloc: Global, parts: &[Part]) -> Result<Text, AllocError>
    ensures { IfOk result (λ text. text ≡ config.parts_text parts.now) }
{
    let mut text = String::new(alloc);
    put_parts(&mut text, parts)?;
    Ok(Text::from_string(text))
}

fn put_parts(text: &mut String, parts: &[Part]) -> Result<(), AllocError>
    ensures { OnOk result (string_bytes text.new ≡ string_bytes text.old ++ config.parts_text parts.now) }
{
    let Some((first, others)) = parts.split_first() else {
        return Ok(());
    };
    text.push_str(first.name())?;
    put_others(text, others)?;
    Ok(())
}

// The parts behind the first one.
fn put_others(text: &mut String, others: &[Part]) -> Result<(), AllocError>
    ensures { OnOk result (string_bytes text.new ≡ string_bytes text.old ++ flat_map (λ part. 44 ∷ part_name part) others.now) }
{
    for part in others {
        text.push(',')?;
        text.push_str(part.name())?;
    }
    Ok(())
}

/// The parts that a text lists, where each piece between its commas is the name of one.
pub(crate) fn parts_of(alloc: Global, text: &str) -> Result<Option<Listed<Part>>, AllocError>
    ensures { IfOk result (λ parts. MatchOption parts
        ((parts : List Part) → 0 < length parts → text.now ≢ config.parts_text parts)
        (λ parts. (0 < length parts) × (text.now ≡ config.parts_text parts))) }
{
    let mut parts = Listed::new(alloc);
    for piece in text.split(',') {
        match Part::parse(piece) {
            Ok(part) => parts.push(part)?,
            Err(_) => return Ok(None),
        }
    }
    Ok(Some(parts))
}

/// The one part that a text names, or none where it is empty.
pub(crate) fn building_of(text: &str) -> Option<Option<Part>>
    ensures { MatchOption result
        ((building : Option Part) → text.now ≢ config.parts_text (option_to_list building))
        (λ building. text.now ≡ config.parts_text (option_to_list building)) }
{
    if text.is_empty() {
        return Some(None);
    }
    match Part::parse(text) {
        Ok(part) => Some(Some(part)),
        Err(_) => None,
    }
}

/// The name of the one part, or nothing.
pub(crate) fn building_text(building: Option<Part>) -> &'static str
    ensures { result.now ≡ config.parts_text (option_to_list building) }
{
    match building {
        Some(part) => part.name(),
        None => "",
    }
}

/// Whether the parts can be those that are available.
pub(crate) fn are_available(parts: &[Part]) -> bool
    ensures { IsTrue result ↔ AreAvailable parts.now }
{
    match parts.first() {
        Some(Part::Files) => rises(parts),
        _ => false,
    }
}

fn rises(parts: &[Part]) -> bool
    ensures { result ≡ rises_from 0 parts.now }
{
    let mut least = 0;
    for part in parts {
        if part.place() < least {
            return false;
        }
        least = part.place() + 1;
    }
    true
}

/// Whether the part that is built is none of the available ones.
pub(crate) fn is_apart(available: &[Part], building: Option<Part>) -> bool
    ensures { IsTrue result ↔ IsApart available.now building }
{
    match building {
        Some(part) => !holds(available, part),
        None => true,
    }
}

fn holds(parts: &[Part], part: Part) -> bool
    ensures { IsTrue result ↔ Contains parts.now part }
{
    parts.iter().any(|other| other.same(&part))
}
