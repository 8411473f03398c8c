//! What a watch finds of a session.

use crate::seen::Seen;
use pglogical::DecodeFault;
use pgwatch::Breach;
use pgwire::WireFault;

/// Where the watch over a session ends. `at` is the offset of a frame, in bytes from the session's
/// first one.
#[derive(Clone, Copy, Debug, PartialEq, Eq)]
pub enum End {
    /// At the end of its bytes, where a frame may have begun.
    Whole,
    /// At a frame that breaks a rule, or where no more can be held.
    Ended(Breach),
    /// What comes isn't the beginning of a frame.
    Unframed { at: u64, fault: WireFault },
    /// The payload of CopyData is no message of a server.
    Unsaid { at: u64, fault: WireFault },
    /// The data of XLogData isn't one logical message.
    Undecoded { at: u64, fault: DecodeFault },
}

/// What a watch finds of a session.
#[derive(Clone, Copy, Debug, PartialEq, Eq)]
pub struct Findings {
    /// What came before the end.
    pub seen: Seen,
    /// Where the watch ends, and why.
    pub end: End,
}
