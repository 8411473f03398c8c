//! Why a feed isn't opened, and why messages aren't told.

use pgapply::StoreFault;
use std::alloc::AllocError;
use thiserror::Error;

/// Why a segment of a feed isn't made or opened.
#[derive(Clone, Copy, Debug, PartialEq, Eq, Error)]
pub enum FeedFault {
    /// The file isn't a segment that begins at this LSN and has a commit that ends at the position,
    /// with its checksum.
    #[error("feed 1 NotAFeed")]
    NotAFeed,
    /// The system, the database and the slot are too long for the head of a segment.
    #[error("feed 2 TooLong")]
    TooLong,
    /// A call of the file failed.
    #[error("feed 3 Refused")]
    Refused,
    /// Memory has run out.
    #[error("memory")]
    Memory,
}

impl From<AllocError> for FeedFault {
    ghost use Rattle.std.specs.Prelude.{◌≡◌};
    ghost use Rattle.pgfeed.specs.declared.fault.FeedFault.TheVariants.{Memory};

    ghost from_gives = { λ _ fault. fault ≡ Memory };

    fn from(_error: AllocError) -> FeedFault {
        FeedFault::Memory
    }
}

/// Why the messages of a transaction can't be told, so that its commit isn't accepted.
#[derive(Clone, Copy)]
pub(crate) enum MessageFault {
    /// They have more bytes than the limit.
    TooLong,
    /// One came in a stream block, where the server doesn't tell which subtransaction wrote it.
    Streamed,
    /// Memory has run out.
    Memory,
}

impl MessageFault {
    /// What the operator is told beside the store's fault, if that isn't all.
    pub(crate) fn text(self) -> Option<&'static str> {
        match self {
            MessageFault::TooLong => Some("feed 4 MessagesTooLong"),
            MessageFault::Streamed => Some("feed 5 StreamedMessage"),
            MessageFault::Memory => None,
        }
    }
}

impl From<AllocError> for MessageFault {
    ghost use Rattle.std.specs.Prelude.{◌≡◌};
    ghost use Rattle.pgfeed.specs.declared.fault.MessageFault.TheVariants.{Memory};

    ghost from_gives = { λ _ fault. fault ≡ Memory };

    fn from(_error: AllocError) -> MessageFault {
        MessageFault::Memory
    }
}

/// What a store is told of messages that are lost.
impl From<MessageFault> for StoreFault {
    ghost use Rattle.pgapply.specs.Stored.{IsOwnFault};

    ghost from_gives = { λ _ of. IsOwnFault of };

    fn from(fault: MessageFault) -> StoreFault {
        match fault {
            MessageFault::Memory => StoreFault::Memory,
            MessageFault::TooLong | MessageFault::Streamed => StoreFault::Refused,
        }
    }
}

/// What a store is told of a segment that isn't made.
impl From<FeedFault> for StoreFault {
    ghost use Rattle.std.specs.Prelude.{◌≡◌};
    ghost use Rattle.pgapply.specs.Stored.{IsOwnFault};
    ghost use Rattle.pgfeed.specs.Told.{told_of};

    ghost from_gives = { λ fault of. (of ≡ told_of fault) × IsOwnFault of };

    fn from(fault: FeedFault) -> StoreFault {
        match fault {
            FeedFault::Memory => StoreFault::Memory,
            _ => StoreFault::Refused,
        }
    }
}
