ghost use Rattle.std.specs.Prelude.{◌≡◌, Bool};
ghost use Rattle.mx_meta.specs.Rising.{is_rising, bytes_below, part_below};

use crate::{Place, WriteStat};
use mx_base::{Part, Path};

/// What stands in lists in a strict order.
pub trait Rises {
    ghost below: { Self → Self → Bool };

    /// Whether it stands below another one.
    fn is_below(&self, other: &Self) -> bool
        ensures { result ≡ below self.now other.now };
}

impl Rises for Path {
    ghost below = { bytes_below };

    fn is_below(&self, other: &Path) -> bool {
        self < other
    }
}

impl Rises for Part {
    ghost below = { part_below };

    fn is_below(&self, other: &Part) -> bool {
        self.place() < other.place()
    }
}

impl Rises for WriteStat {
    ghost use Rattle.mx_meta.specs.CommitText.{stat_below};

    ghost below = { stat_below };

    fn is_below(&self, other: &WriteStat) -> bool {
        let first = self.file_id.print();
        let second = other.file_id.print();
        first.as_slice().cmp(second.as_slice()).is_lt()
    }
}

impl Rises for Place {
    ghost use Rattle.mx_meta.specs.Places.{place_below};

    ghost below = { place_below };

    fn is_below(&self, other: &Place) -> bool {
        if self.part.place() == other.part.place() {
            self.shard < other.shard
        } else {
            self.part.is_below(&other.part)
        }
    }
}

/// Whether each stands below the next.
pub fn is_rising<T: Rises>(items: &[T]) -> bool
    ensures { result ≡ is_rising T.below items.now }
{
    let [first, rest @ ..] = items else {
        return true;
    };
    let mut before = first;
    for item in rest {
        if !before.is_below(item) {
            return false;
        }
        before = item;
    }
    true
}
