ghost use Rattle.std.specs.Prelude.{◌≡◌, ◌↔◌, All, Contains, IfOk, IsTrue, false};
ghost use Rattle.mx_folder.specs.Reading.{ReadsAsConfig};
ghost use Rattle.mx_store.specs.Objects.{Objects};
ghost use Rattle.mx_open.specs.Deciding.{Decides, HasBaseIn, IsContext, IsReadableLog, IsLogIn, IsReadableBase};

use crate::kinds::is_base_of;
use mx_base::{Instant, ObjectName, Part, Path};
use mx_lists::{Listed, Same};
use mx_props::{Props, PropsError};
use std::alloc::{AllocError, Global};

/// What the config and the object of the first base say of the other objects.
#[derive(Drop)]
pub(crate) struct Context {
    /// The parts that can be read, none where the config does not read.
    pub available: Listed<Part>,
    /// The bases that count, none where the object that names them does not read.
    pub bases: Listed<Path>,
    /// That object stands and does not read.
    pub unread: bool,
}

impl Context {
    /// Whether the part can be read.
    pub fn is_available(&self, part: Part) -> bool
        ensures { Decides result (Contains self.now.available part) }
    {
        holds(self.available.as_slice(), part)
    }

    /// Whether these are the bytes of a config each of whose parts has a base.
    pub fn reads_as_config(&self, alloc: Global, bytes: &[u8]) -> Result<bool, AllocError>
        ensures { (objects : Objects) → IsContext objects self.now → IfOk result (λ reads. Decides reads (ReadsAsConfig objects bytes.now)) }
    {
        match Props::read(alloc, bytes) {
            Ok(props) => Ok(self.are_based(props.available())),
            Err(PropsError::NoMemory) => Err(AllocError),
            Err(_) => Ok(false),
        }
    }

    // A damaged object of the first base says nothing of the parts.
    fn are_based(&self, parts: &[Part]) -> bool
        ensures { Decides result (self.now.unread ≡ false → All (HasBaseIn self.now.bases) parts.now) }
    {
        if self.unread {
            return true;
        }
        are_based(parts, self.bases.as_slice())
    }

    /// Whether the path is of a log of the instant, of a part that can be read.
    pub fn is_readable_log(&self, path: &Path, at: Instant) -> bool
        ensures { Decides result (IsReadableLog self.now at path.now) }
    {
        match ObjectName::of(path) {
            Some(name) => self.is_log(name, at),
            None => false,
        }
    }

    fn is_log(&self, name: ObjectName, at: Instant) -> bool
        ensures { Decides result (IsLogIn self.now.available at name) }
    {
        match name {
            ObjectName::Log {
                part,
                at: found,
                ..
            } => found.number() == at.number() && self.is_available(part),
            _ => false,
        }
    }

    /// Whether the path is of a base of a part that can be read.
    pub fn is_readable_base(&self, path: &Path) -> bool
        ensures { Decides result (IsReadableBase self.now path.now) }
    {
        match ObjectName::of(path) {
            Some(ObjectName::Base { part, .. }) => self.is_available(part),
            _ => false,
        }
    }
}

fn holds(parts: &[Part], part: Part) -> bool
    ensures { IsTrue result ↔ Contains parts.now part }
{
    parts.iter().any(|other| other.same(&part))
}

fn are_based(parts: &[Part], bases: &[Path]) -> bool
    ensures { Decides result (All (HasBaseIn bases.now) parts.now) }
{
    for part in parts {
        if !has_base(bases, *part) {
            return false;
        }
    }
    true
}

fn has_base(bases: &[Path], part: Part) -> bool
    ensures { Decides result (HasBaseIn bases.now part) }
{
    for path in bases {
        if is_base_of(path, part) {
            return true;
        }
    }
    false
}
