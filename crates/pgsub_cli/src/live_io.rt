//! What following a server reads, writes and asks.

use pgfollow::Link;
use pgspooled::Honesty;

/// What following reads, writes and asks.
#[derive(Drop)]
pub struct LiveIo<R: Drop, W: Drop, K: Drop, E: Drop> {
    /// The server.
    pub link: Link<R, W>,
    /// The times of statuses.
    pub clock: K,
    /// What faults are told to.
    pub err: E,
    /// Whether what was read of the spools' file is what was written to it, where there is one. It
    /// is noted at the end, and clauses alone read it.
    pub honesty: Honesty,
}
