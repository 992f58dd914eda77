use mx_base::Path;
use mx_lists::Bytes;

/// One change of a store.
#[derive(Debug, Drop)]
pub enum Change {
    Create { path: Path, bytes: Bytes },
    Put { path: Path, bytes: Bytes },
    Delete { path: Path },
}
