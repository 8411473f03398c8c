//! Why a tuple can't be read.

ghost use Rattle.std.specs.Prelude.{◌≡◌};
ghost use Rattle.pgtuple.specs.FaultTexts.{kind_text};
ghost use Rattle.pgtuple.specs.declared.fault.TupleFault.TheVariants.{Memory};

use std::alloc::{AllocError, AllocFailed};
use thiserror::Error;

/// Why a tuple can't be read. Each but `Memory` carries the offset, in bytes from the tuple's first
/// byte, of the first field that can't be read.
///
/// PostgreSQL documentation, Logical Replication Message Formats, TupleData.
#[derive(Clone, Copy, Debug, PartialEq, Eq, Error)]
pub enum TupleFault {
    /// The bytes end inside the field.
    #[error("tuple 1 Short at {0}")]
    Short(usize),
    /// The byte isn't `n`, `u`, `t` or `b`.
    #[error("tuple 2 BadKind at {0}")]
    BadKind(usize),
    /// The length of a cell is negative.
    #[error("tuple 3 BadLength at {0}")]
    BadLength(usize),
    /// The bytes of a text cell aren't UTF-8.
    #[error("tuple 4 NotUtf8 at {0}")]
    NotUtf8(usize),
    /// The number of columns is negative or above 1600.
    #[error("tuple 5 TooManyColumns at {0}")]
    TooManyColumns(usize),
    /// Memory has run out.
    #[error("memory")]
    Memory,
}

impl TupleFault {
    /// The number and the name of its kind, without the offset.
    pub fn kind(self) -> &'static str
        ensures { result.now ≡ kind_text self }
    {
        match self {
            TupleFault::Short(_) => "1 Short",
            TupleFault::BadKind(_) => "2 BadKind",
            TupleFault::BadLength(_) => "3 BadLength",
            TupleFault::NotUtf8(_) => "4 NotUtf8",
            TupleFault::TooManyColumns(_) => "5 TooManyColumns",
            TupleFault::Memory => "6 Memory",
        }
    }
}

impl From<AllocError> for TupleFault {
    ghost from_gives = { λ _ e. e ≡ Memory };

    fn from(_e: AllocError) -> TupleFault {
        TupleFault::Memory
    }
}

impl<T: Drop> From<AllocFailed<T>> for TupleFault {
    ghost from_gives = { λ _ e. e ≡ Memory };

    fn from(_e: AllocFailed<T>) -> TupleFault {
        TupleFault::Memory
    }
}
