//! What a piece gave.

/// What a call of [`crate::CopyReader::feed`] came to.
#[derive(Clone, Copy, Debug, PartialEq, Eq)]
pub enum Fed {
    /// The piece is used up, and the line goes on.
    Waits,
    /// A row was added, and so many bytes of the piece were taken.
    Row(usize),
    /// The end-of-data marker has come, and so many bytes of the piece were taken.
    Ended(usize),
}
