//! What is found of sessions.

use pglogical::DecodeFault;
use pgorder::OrderFault;
use pgrepeats::Contradiction;
use pgwire::WireFault;
use thiserror::Error;

/// Why a session isn't compared any more.
#[derive(Clone, Copy, Debug, PartialEq, Eq, Error)]
pub enum Lost {
    /// What comes isn't the beginning of a frame. Nothing that comes later is compared.
    #[error("{0}")]
    Unframed(WireFault),
    /// The payload of CopyData is no message of a server.
    #[error("{0}")]
    Unsaid(WireFault),
    /// The data of XLogData isn't one logical message.
    #[error("{0}")]
    Undecoded(DecodeFault),
    /// The message can't come there.
    #[error("{0}")]
    Disordered(OrderFault),
    /// Memory has run out.
    #[error("memory")]
    Memory,
}

/// What is found of a session. `at` is the offset of a frame, in bytes from the session's first
/// one.
#[derive(Clone, Copy, Debug, PartialEq, Eq, Error)]
pub enum Finding {
    /// The commit of this frame isn't of one history with those that came before.
    #[error("{contradiction}")]
    Contradicted {
        at: u64,
        contradiction: Contradiction,
    },
    /// From this frame on the session isn't compared.
    #[error("not compared from {at} on: {why}")]
    Lost {
        at: u64,
        why: Lost,
    },
}
