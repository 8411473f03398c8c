//! What is kept of a streamed transaction that is open.

use pgtuple::Seq;

/// What came under an xid.
#[derive(Debug, Drop)]
pub(crate) enum What {
    /// A Relation message of this OID.
    Relation(u32),
    /// A change of this relation.
    Change(u32),
    /// A Truncate of these relations.
    Truncate(Seq<u32>),
    /// The abort of the subtransaction.
    Abort,
}

/// An item of a streamed transaction, or the abort of a subtransaction.
#[derive(Debug, Drop)]
pub(crate) struct Noted {
    /// The transaction.
    pub(crate) xid: u32,
    /// The transaction or subtransaction that made it.
    pub(crate) subxid: u32,
    /// Its frame.
    pub(crate) at: u64,
    /// What came.
    pub(crate) what: What,
}
