//! Why a text isn't a log sequence number.

use thiserror::Error;

/// Why a text isn't a log sequence number.
#[derive(Clone, Copy, Debug, PartialEq, Eq, Error)]
pub enum LsnFault {
    /// The text isn't two hexadecimal numbers of 1 to 8 digits, joined by a slash.
    #[error("not an LSN")]
    NotAnLsn,
}
