//! One commit as it is handed to a store.

use crate::work::Work;
use pglsn::Lsn;

/// What a commit is about beside its changes, as its message tells. A store may note it; nothing
/// that is stored depends on it.
///
/// PostgreSQL documentation, Logical Replication Message Formats, Begin, Commit and Stream Commit.
#[derive(Clone, Copy, Debug, PartialEq, Eq)]
pub struct About {
    /// The LSN of the commit record: the final LSN of the transaction.
    pub final_lsn: Lsn,
    /// The xid of the transaction.
    pub xid: u32,
    /// When it was committed, in microseconds since 2000-01-01 00:00 UTC.
    pub time: i64,
}

/// A commit: the changes of a transaction, with the LSN at which its commit ends.
#[derive(Clone, Copy)]
pub struct Commit<'w, 'a> {
    /// The end LSN of the commit, which becomes the position.
    pub end: Lsn,
    /// What it is about, where that is known.
    pub about: Option<About>,
    /// Its changes.
    pub work: &'w Work<'a>,
}
