//! A message that a transaction wrote into the log beside its changes.

use pglsn::Lsn;

/// A transactional message, borrowed: what `pg_logical_emit_message(true, prefix, content)` wrote.
/// It belongs to its transaction as a change does, and changes no row.
///
/// PostgreSQL documentation, Logical Replication Message Formats, Message.
#[derive(Clone, Copy, Debug)]
pub struct LogicalMessage<'a> {
    /// Where it is in the log.
    pub lsn: Lsn,
    /// The prefix that the client gave.
    pub prefix: &'a str,
    /// The bytes.
    pub content: &'a [u8],
    /// Whether it came in a stream block. There the server doesn't tell which subtransaction wrote
    /// it, so whether it survives isn't known.
    pub is_streamed: bool,
}
