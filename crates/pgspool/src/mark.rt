//! Where an item begins among those that are kept as bytes.

/// An item's subxid, and the offset at which its encoding begins in the buffer.
#[derive(Clone, Copy, Debug)]
pub(crate) struct Mark {
    pub(crate) subxid: u32,
    pub(crate) start: usize,
}
