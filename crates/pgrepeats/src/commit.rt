//! A commit, as it is compared.

use crate::digest::Digest;

/// A commit: its LSNs, its xid and time, and what its changes come to.
///
/// PostgreSQL documentation, Logical Replication Message Formats, Begin, Commit and Stream Commit.
#[derive(Clone, Copy, Debug, PartialEq, Eq)]
pub struct Commit {
    /// The LSN after the commit record.
    pub end: u64,
    /// The LSN of the commit record.
    pub lsn: u64,
    pub xid: u32,
    /// In microseconds since 2000.
    pub time: i64,
    /// Of the changes that survive.
    pub digest: Digest,
}
