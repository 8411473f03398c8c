//! Why a step inside the store fails.

ghost use Rattle.std.specs.Prelude.{◌≡◌};

use crate::cause::Cause;
use pgapply::StoreFault;
use pgrel::RelFault;
use pgrows::ReadFault;
use sqlite::{Error, ErrorCode};
use sqlite_trees::error::StoreError;
use std::alloc::{AllocError, AllocFailed};
use std::marker::Model;

/// Why a step fails, seen as the fault of the store. An error of SQL is told as one.
#[derive(Drop)]
pub struct Refusal {
    fault: StoreFault,
    // Of an error of SQL, where it is known.
    cause: Option<Cause>,
}

impl Model for Refusal {
    ghost use Rattle.pgapply.specs.declared.fault.StoreFault.{StoreFault};

    ghost Value = { StoreFault };

    ghost view = { λ r. r.fault };
}

impl Refusal {
    /// A failed step with this fault.
    pub fn new(fault: StoreFault) -> Refusal
        ensures { result ≡ fault }
    {
        Refusal { fault, cause: None }
    }

    /// The fault of the store.
    pub fn fault(&self) -> StoreFault
        ensures { result ≡ self.now }
    {
        self.fault
    }

    /// The cause of an error of SQL, as a text for the operator, where it is known. No clause
    /// speaks of it.
    pub fn cause(&self) -> Option<&str> {
        match self.cause {
            Some(cause) => Some(cause.text()),
            None => None,
        }
    }

    /// The cause of it, and where none is known, the one that was known before.
    pub fn cause_or(&self, before: Option<Cause>) -> Option<Cause> {
        match self.cause {
            Some(cause) => Some(cause),
            None => before,
        }
    }

    /// This failure, of undoing what failed before: the cause is that of the first.
    pub fn behind(self, first: &Refusal) -> Refusal
        ensures { result ≡ self }
    {
        Refusal {
            fault: self.fault,
            cause: first.cause_or(self.cause),
        }
    }
}

impl From<Refusal> for StoreFault {
    ghost from_gives = { λ refusal fault. fault ≡ refusal };

    fn from(refusal: Refusal) -> StoreFault {
        refusal.fault
    }
}

impl From<StoreFault> for Refusal {
    ghost from_gives = { λ fault refusal. refusal ≡ fault };

    fn from(fault: StoreFault) -> Refusal {
        Refusal::new(fault)
    }
}

impl From<AllocError> for Refusal {
    ghost use Rattle.pgapply.specs.declared.fault.StoreFault.TheVariants.{Memory};

    ghost from_gives = { λ _ fault. fault ≡ Memory };

    fn from(_error: AllocError) -> Refusal {
        Refusal::new(StoreFault::Memory)
    }
}

impl<T: Drop> From<AllocFailed<T>> for Refusal {
    ghost use Rattle.pgapply.specs.declared.fault.StoreFault.TheVariants.{Memory};

    ghost from_gives = { λ _ fault. fault ≡ Memory };

    fn from(_error: AllocFailed<T>) -> Refusal {
        Refusal::new(StoreFault::Memory)
    }
}

/// Out of memory is `Memory`, and each other cause `Refused`.
impl From<Error> for Refusal {
    ghost use Rattle.pgencoded.specs.SqlFault.{IsFaultOf};

    ghost from_gives = { λ error fault. IsFaultOf error fault };

    fn from(error: Error) -> Refusal {
        match error {
            Error::SqliteFailure(ErrorCode::OutOfMemory) => Refusal::new(StoreFault::Memory),
            _ => Refusal {
                fault: StoreFault::Refused,
                cause: Cause::of_error(error),
            },
        }
    }
}

/// Out of memory is `Memory`, and each other cause `Refused`.
impl From<StoreError> for Refusal {
    ghost use Rattle.pgencoded.specs.SqlFault.{IsTreeFaultOf};

    ghost from_gives = { λ error fault. IsTreeFaultOf error fault };

    fn from(error: StoreError) -> Refusal {
        match error {
            StoreError::OutOfMemory => Refusal::new(StoreFault::Memory),
            _ => Refusal {
                fault: StoreFault::Refused,
                cause: Cause::of_trees(error),
            },
        }
    }
}

/// A row that no store writes is `NotAStore`.
impl From<ReadFault> for Refusal {
    ghost use Rattle.pgencoded.specs.SqlFault.{IsReadFaultOf};

    ghost from_gives = { λ read fault. IsReadFaultOf read fault };

    fn from(read: ReadFault) -> Refusal {
        match read {
            ReadFault::Store(error) => Refusal::from(error),
            ReadFault::Malformed => Refusal::new(StoreFault::NotAStore),
        }
    }
}

/// The checks of tuples and identities.
impl From<RelFault> for Refusal {
    ghost use Rattle.pgapply.specs.Apply.{store_fault};

    ghost from_gives = { λ fault of. of ≡ store_fault fault };

    fn from(fault: RelFault) -> Refusal {
        Refusal::new(StoreFault::from(fault))
    }
}
