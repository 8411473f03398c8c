//! Why rows can't be read.

ghost use Rattle.std.specs.Prelude.{◌≡◌, ◌≢◌, IfOk, IfErr};
ghost use Rattle.sqlite.specs.declared.types.FromSqlError.TheVariants.{OutOfMemory};
ghost use Rattle.sqlite_trees.specs.declared.error.StoreError.TheVariants as refused;
ghost use Rattle.pgrows.specs.declared.fault.ReadFault.TheVariants.{Store, Malformed};

use sqlite::types::FromSqlError;
use sqlite_trees::error::StoreError;
use std::alloc::{AllocError, AllocFailed};

/// Why rows of the tables can't be read.
#[derive(Clone, Copy, Debug, PartialEq, Eq)]
pub enum ReadFault {
    /// A call of the trees fails, or memory runs out.
    Store(StoreError),
    /// A row isn't one that a store writes: a value has another type, or doesn't fit.
    Malformed,
}

impl From<StoreError> for ReadFault {
    ghost from_gives = { λ error fault. fault ≡ Store error };

    fn from(error: StoreError) -> ReadFault {
        ReadFault::Store(error)
    }
}

impl From<AllocError> for ReadFault {
    ghost from_gives = { λ _ fault. fault ≡ Store refused.OutOfMemory };

    fn from(_: AllocError) -> ReadFault {
        ReadFault::Store(StoreError::OutOfMemory)
    }
}

impl<T: Drop> From<AllocFailed<T>> for ReadFault {
    ghost from_gives = { λ _ fault. fault ≡ Store refused.OutOfMemory };

    fn from(_: AllocFailed<T>) -> ReadFault {
        ReadFault::Store(StoreError::OutOfMemory)
    }
}

/// What was read of a row. Each error but out of memory says that the row isn't one that a store
/// writes.
pub(crate) fn well_formed<T: Drop>(read: Result<T, FromSqlError>) -> Result<T, ReadFault>
    ensures ok { IfOk result (λ value. read ≡ Ok value) }
    ensures formed { IfErr read (λ error. error ≡ OutOfMemory) →
        IfErr result (λ fault. fault ≢ Malformed) }
{
    match read {
        Ok(value) => Ok(value),
        Err(FromSqlError::OutOfMemory) => Err(ReadFault::Store(StoreError::OutOfMemory)),
        Err(_) => Err(ReadFault::Malformed),
    }
}
