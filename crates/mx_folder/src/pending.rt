use mx_base::{Instant, Path};
use mx_lists::Listed;

/// A commit that was begun and is not completed, with what it left in the folder.
#[derive(Drop)]
pub struct Pending {
    pub at: Instant,
    /// Its logs that stand, in byte order.
    pub logs: Listed<Path>,
    /// The paths that its list of files has, none where that is missing.
    pub files: Listed<Path>,
}
