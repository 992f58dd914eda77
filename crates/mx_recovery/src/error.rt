use mx_open::ReadError;
use mx_store::Store;

/// Why a table was not opened, with its store.
#[derive(Drop)]
pub struct OpenFailed<S: Store> {
    pub store: S,
    pub why: ReadError,
}
