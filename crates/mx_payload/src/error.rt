/// Why bytes are no payload.
#[derive(Clone, Copy, Debug, PartialEq, Eq)]
pub enum PayloadError {
    NoMemory,
    /// The first broken rule, at the start of its field.
    BadPayload { at: usize },
}
