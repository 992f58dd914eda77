use mx_base::Instant;
use mx_meta::CommitMeta;

/// A completed commit: its instant and what its object says.
#[derive(Drop)]
pub struct Action {
    pub at: Instant,
    pub meta: CommitMeta,
}
