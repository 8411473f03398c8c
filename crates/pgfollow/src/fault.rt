//! Why following a server ended.

use pgsub_core::Fault;
use thiserror::Error;

/// Why following a server ended.
#[derive(Clone, Copy, Debug, PartialEq, Eq, Error)]
pub enum FollowFault {
    /// A read failed.
    #[error("read")]
    Read,
    /// A write failed.
    #[error("cannot write")]
    Write,
    /// The stream was rejected, or memory has run out.
    #[error(transparent)]
    Stream(Fault),
}
