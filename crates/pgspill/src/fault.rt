//! Why bytes don't go into a file, or don't come back.

use std::alloc::{AllocError, AllocFailed};
use thiserror::Error;

/// Why bytes don't go into a file, or don't come back.
#[derive(Clone, Copy, Debug, PartialEq, Eq, Error)]
pub enum SpillFault {
    /// A write failed.
    #[error("spill 1 NotWritten")]
    NotWritten,
    /// A read failed, or gave other bytes than those that were written.
    #[error("spill 2 NotRead")]
    NotRead,
    /// The disk is full.
    #[error("spill 3 NoRoom")]
    NoRoom,
    /// Memory has run out.
    #[error("memory")]
    Memory,
}

impl From<AllocError> for SpillFault {
    ghost use Rattle.std.specs.Prelude.{◌≡◌};
    ghost use Rattle.pgspill.specs.declared.fault.SpillFault.TheVariants.{Memory};

    ghost from_gives = { λ _ fault. fault ≡ Memory };

    fn from(_error: AllocError) -> SpillFault {
        SpillFault::Memory
    }
}

impl<T: Drop> From<AllocFailed<T>> for SpillFault {
    ghost use Rattle.std.specs.Prelude.{◌≡◌};
    ghost use Rattle.pgspill.specs.declared.fault.SpillFault.TheVariants.{Memory};

    ghost from_gives = { λ _ fault. fault ≡ Memory };

    fn from(_error: AllocFailed<T>) -> SpillFault {
        SpillFault::Memory
    }
}
