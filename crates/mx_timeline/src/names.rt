ghost use Rattle.std.specs.Prelude.{◌≡◌, IfOk, IfErr};
ghost use Rattle.std.specs.List.{AllZip};
ghost use Rattle.mx_timeline.specs.Timeline.{IsNameOf};
ghost use Rattle.mx_timeline.specs.Keeping.{HasCause};
ghost use Rattle.mx_timeline.specs.declared.names.TimelineError.TheVariants.{NoMemory};

use mx_base::{ObjectName, Path};
use mx_lists::Listed;
use std::alloc::{AllocError, Global};

/// Why names say no timeline.
#[derive(Debug, Drop)]
pub enum TimelineError {
    /// The first name that is no object's.
    BadTimeline { name: Path },
    NoMemory,
}

impl From<AllocError> for TimelineError {
    ghost from_gives = { λ _ e. e ≡ NoMemory };

    fn from(_: AllocError) -> Self {
        TimelineError::NoMemory
    }
}

/// What the names are of.
pub(crate) fn object_names(
    alloc: Global,
    names: &[Path],
) -> Result<Listed<ObjectName>, TimelineError>
    ensures ok { IfOk result (λ objects. AllZip IsNameOf names.now objects) }
    ensures err { IfErr result (HasCause names.now) }
{
    let mut objects = Listed::new(alloc);
    for name in names {
        match ObjectName::of(name) {
            Some(object) => objects.push(object)?,
            None => return Err(TimelineError::BadTimeline {
                name: name.clone()?,
            }),
        }
    }
    Ok(objects)
}
