//! The part of a strand that is in one block.

/// Whose block it is.
#[derive(Clone, Copy, Debug, PartialEq, Eq)]
pub struct Owner {
    /// The transaction.
    pub xid: u32,
    /// Which of its blocks it is.
    pub place: usize,
}

/// The first bytes of a block, of which more may have been written: those after them were cut.
#[derive(Clone, Copy, Debug)]
pub struct Piece {
    /// The number of the block.
    pub(crate) block: usize,
    /// How many bytes of it are left.
    pub(crate) kept: usize,
    /// How many were written.
    pub(crate) written: usize,
    /// The digest of those that were written.
    pub(crate) digest: u64,
}
