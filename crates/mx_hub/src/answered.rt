use mx_ask::Reply;

/// An answer, with the changes that stood before the ask and after it.
#[derive(Debug, Drop)]
pub struct Answered {
    /// The number of the ask.
    pub ask: u64,
    /// The number of changes since the opening, before the ask's own first one.
    pub begun: u64,
    /// The number of changes since the opening, when the answer was decided.
    pub seq: u64,
    pub reply: Reply,
}
