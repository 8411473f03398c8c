//! Why an item isn't held, or can't be borrowed.

ghost use Rattle.std.specs.Prelude.{◌≡◌};

use std::alloc::{AllocError, AllocFailed};
use thiserror::Error;

/// Why an item isn't held, a transaction isn't opened or cut, or its items can't be borrowed.
#[derive(Clone, Copy, Debug, PartialEq, Eq, Error)]
pub enum SpoolFault {
    /// With this item, all that is held would cost more bytes than the limit.
    #[error("spool 1 SpoolFull")]
    SpoolFull,
    /// Memory has run out.
    #[error("memory")]
    Memory,
    /// What is held goes to a file, and a write failed.
    #[error("spool 3 NotWritten")]
    NotWritten,
    /// What is held goes to a file, and the disk is full.
    #[error("spool 4 NoRoom")]
    NoRoom,
    /// What went to a file can't be read, or other bytes are read than were written.
    #[error("spool 5 NotRead")]
    NotRead,
    /// As many transactions are open as may be.
    #[error("spool 6 TooManyOpen")]
    TooManyOpen,
}

impl From<AllocError> for SpoolFault {
    ghost use Rattle.pgspool.specs.declared.fault.SpoolFault.TheVariants.{Memory};

    ghost from_gives = { λ _ fault. fault ≡ Memory };

    fn from(_error: AllocError) -> SpoolFault {
        SpoolFault::Memory
    }
}

impl<T: Drop> From<AllocFailed<T>> for SpoolFault {
    ghost use Rattle.pgspool.specs.declared.fault.SpoolFault.TheVariants.{Memory};

    ghost from_gives = { λ _ fault. fault ≡ Memory };

    fn from(_error: AllocFailed<T>) -> SpoolFault {
        SpoolFault::Memory
    }
}
