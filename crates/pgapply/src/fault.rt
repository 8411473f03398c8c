//! Why a store rejects a work.

ghost use Rattle.std.specs.Prelude.{◌≡◌};

use pgrel::RelFault;
use std::alloc::{AllocError, AllocFailed};
use thiserror::Error;

/// Why a work was not taken. After each of these the store is as before the call.
///
/// PostgreSQL documentation, Logical Replication, Conflicts; ALTER TABLE, REPLICA IDENTITY.
#[derive(Clone, Copy, Debug, PartialEq, Eq, Error)]
pub enum StoreFault {
    /// A row comes into a table with a key, and one with this identity is there already.
    #[error("store 1 Clash")]
    Clash,
    /// A row of a table without a key is to change or go, and its whole old row wasn't sent.
    #[error("store 2 NoIdentity")]
    NoIdentity,
    /// A cell of the identity that is searched wasn't sent.
    #[error("store 3 UnknownIdentity")]
    UnknownIdentity,
    /// A cell of an inserted row wasn't sent.
    #[error("store 4 UnchangedInInsert")]
    UnchangedInInsert,
    /// A tuple has another number of cells than its relation has columns.
    #[error("store 5 Width")]
    Width,
    /// A row of a table without a key would be there more than 2147483647 times.
    #[error("store 7 TooManyCopies")]
    TooManyCopies,
    /// The SQL store refused a statement, for a cause that is none of the others.
    #[error("store 8 Refused")]
    Refused,
    /// The tables hold what no store has written. Once a store is opened, that comes only where
    /// what lies below it doesn't give back what was stored.
    #[error("store 10 NotAStore")]
    NotAStore,
    /// Memory has run out.
    #[error("memory")]
    Memory,
}

impl From<AllocError> for StoreFault {
    ghost use Rattle.pgapply.specs.declared.fault.StoreFault.TheVariants.{Memory};

    ghost from_gives = { λ _ fault. fault ≡ Memory };

    fn from(_error: AllocError) -> StoreFault {
        StoreFault::Memory
    }
}

impl<T: Drop> From<AllocFailed<T>> for StoreFault {
    ghost use Rattle.pgapply.specs.declared.fault.StoreFault.TheVariants.{Memory};

    ghost from_gives = { λ _ fault. fault ≡ Memory };

    fn from(_error: AllocFailed<T>) -> StoreFault {
        StoreFault::Memory
    }
}

/// The checks of tuples and identities.
impl From<RelFault> for StoreFault {
    ghost use Rattle.pgapply.specs.Apply.{store_fault};

    ghost from_gives = { λ fault of. of ≡ store_fault fault };

    fn from(fault: RelFault) -> StoreFault {
        match fault {
            RelFault::Width => StoreFault::Width,
            RelFault::UnknownIdentity => StoreFault::UnknownIdentity,
            RelFault::UnchangedInInsert => StoreFault::UnchangedInInsert,
            RelFault::NoIdentity => StoreFault::NoIdentity,
            RelFault::UnknownRelation(_) => StoreFault::Refused,
            RelFault::Memory => StoreFault::Memory,
        }
    }
}
