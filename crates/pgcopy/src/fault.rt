//! Why COPY text can't be read.

ghost use Rattle.std.specs.Prelude.{◌≡◌};
ghost use Rattle.pgcopy.specs.declared.fault.CopyFault.TheVariants.{Memory};

use std::alloc::{AllocError, AllocFailed};
use thiserror::Error;

/// What is wrong with a line.
///
/// PostgreSQL documentation, COPY, File Formats, Text Format.
#[derive(Clone, Copy, Debug, PartialEq, Eq, Error)]
pub enum Reason {
    /// It has fewer columns than the table.
    #[error("1 MissingColumn")]
    MissingColumn,
    /// It has more columns than the table.
    #[error("2 ExtraColumn")]
    ExtraColumn,
    /// A column ends with the backslash that begins a sequence.
    #[error("3 CutSequence")]
    CutSequence,
    /// A carriage return stands there by itself: a server ends lines with a newline alone, and
    /// sends a carriage return as `\r`.
    #[error("4 CarriageReturn")]
    CarriageReturn,
    /// A column's value isn't UTF-8.
    #[error("5 NotUtf8")]
    NotUtf8,
    /// It has more bytes than the limit.
    #[error("6 TooLong")]
    TooLong,
}

/// Why COPY text can't be read.
#[derive(Clone, Copy, Debug, PartialEq, Eq, Error)]
pub enum CopyFault {
    /// The line with this number, counted from 1, and what is wrong with it.
    #[error("COPY line {0}: {1}")]
    Line(u64, Reason),
    /// Memory has run out.
    #[error("memory")]
    Memory,
}

impl From<AllocError> for CopyFault {
    ghost from_gives = { λ _ fault. fault ≡ Memory };

    fn from(_error: AllocError) -> CopyFault {
        CopyFault::Memory
    }
}

impl<T: Drop> From<AllocFailed<T>> for CopyFault {
    ghost from_gives = { λ _ fault. fault ≡ Memory };

    fn from(_error: AllocFailed<T>) -> CopyFault {
        CopyFault::Memory
    }
}

/// Why a row can't be read, whichever line it is.
#[derive(Clone, Copy, Debug, PartialEq, Eq)]
pub(crate) enum RowFault {
    /// What is wrong with it.
    Bad(Reason),
    /// Memory has run out.
    Memory,
}

impl From<AllocError> for RowFault {
    ghost use Rattle.pgcopy.specs.declared.fault.RowFault.TheVariants.{Memory as RowMemory};

    ghost from_gives = { λ _ fault. fault ≡ RowMemory };

    fn from(_error: AllocError) -> RowFault {
        RowFault::Memory
    }
}

impl<T: Drop> From<AllocFailed<T>> for RowFault {
    ghost use Rattle.pgcopy.specs.declared.fault.RowFault.TheVariants.{Memory as RowMemory};

    ghost from_gives = { λ _ fault. fault ≡ RowMemory };

    fn from(_error: AllocFailed<T>) -> RowFault {
        RowFault::Memory
    }
}
