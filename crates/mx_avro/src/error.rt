/// Why no value could be taken. The place is that of the number in question.
#[derive(Clone, Copy, Debug, PartialEq, Eq)]
pub enum AvroError {
    /// The bytes end first.
    Short { at: usize },
    /// A number is not in its shortest form, or passes 64 bits.
    Wide { at: usize },
    /// A length is below 0.
    Negative { at: usize },
}
