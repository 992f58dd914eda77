use mx_base::{Entry, Instant};
use mx_lists::Listed;

/// The entries that an action adds to a shard, at the action's instant.
#[derive(Clone, Debug, Drop)]
pub struct Log {
    pub at: Instant,
    pub entries: Listed<Entry>,
}
