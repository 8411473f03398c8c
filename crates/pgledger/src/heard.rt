//! A message that a transaction wrote beside its changes, as a ledger keeps it.

ghost use Rattle.std.specs.Prelude.{◌≡◌, IfOk};
ghost use Rattle.pgledger.specs.Entries.{heard_of};

use pgapply::LogicalMessage;
use pglsn::Lsn;
use pgtuple::{Bytes, Text};
use std::alloc::{AllocError, Global};

/// A transactional message that a ledger has heard, whole.
///
/// PostgreSQL documentation, Logical Replication Message Formats, Message.
#[derive(Debug, Drop)]
pub struct Heard {
    /// Where it is in the log.
    pub lsn: Lsn,
    /// The prefix that the client gave.
    pub prefix: Text,
    /// The bytes.
    pub content: Bytes,
}

impl Heard {
    /// This message, copied.
    pub fn copied(alloc: Global, message: &LogicalMessage<'_>) -> Result<Heard, AllocError>
        ensures { IfOk result (λ heard. heard ≡ heard_of message.now) }
    {
        Ok(Heard {
            lsn: message.lsn,
            prefix: Text::from_string(String::from_str(alloc, message.prefix)?),
            content: Bytes::from_vec(message.content.to_vec(alloc)?),
        })
    }
}
