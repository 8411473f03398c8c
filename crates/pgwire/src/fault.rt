//! Why bytes aren't frames of a session, or a payload isn't a message of a server.

use thiserror::Error;

/// Why bytes aren't frames of a session, or a payload isn't a message of a server.
///
/// PostgreSQL documentation, Message Formats (CopyData, CopyDone) and Streaming Replication
/// Protocol.
#[derive(Clone, Copy, Debug, PartialEq, Eq, Error)]
pub enum WireFault {
    /// The first byte of a frame is neither `d` nor `c`.
    #[error("wire 1 UnknownFrame {0}")]
    UnknownFrame(u8),
    /// A frame's length is below 4, above 2147483647, or not 4 for CopyDone.
    #[error("wire 2 BadLength")]
    BadLength,
    /// A payload is longer than the limit.
    #[error("wire 3 TooLarge")]
    TooLarge,
    /// A byte after CopyDone.
    #[error("wire 4 AfterDone")]
    AfterDone,
    /// The first byte of a payload is neither `w` nor `k`.
    #[error("wire 5 UnknownServerMessage {0}")]
    UnknownServerMessage(u8),
    /// The payload ends inside a field.
    #[error("wire 6 Short")]
    Short,
    /// A keepalive has more than 18 bytes.
    #[error("wire 7 Trailing")]
    Trailing,
    /// The reply byte of a keepalive is neither 0 nor 1.
    #[error("wire 8 BadReplyByte")]
    BadReplyByte,
    /// Memory has run out.
    #[error("memory")]
    Memory,
}
