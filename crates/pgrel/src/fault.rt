//! Why a tuple doesn't fit a relation, or a relation isn't known.

ghost use Rattle.std.specs.Prelude.{◌≡◌};

use std::alloc::{AllocError, AllocFailed};
use thiserror::Error;

/// Why a tuple doesn't fit a relation, or a relation isn't known.
#[derive(Clone, Copy, Debug, PartialEq, Eq, Error)]
pub enum RelFault {
    /// The tuple's width isn't the number of columns.
    #[error("relation 1 Width")]
    Width,
    /// A cell of the identity that is searched was not sent.
    #[error("relation 2 UnknownIdentity")]
    UnknownIdentity,
    /// A cell of an inserted row was not sent.
    #[error("relation 3 UnchangedInInsert")]
    UnchangedInInsert,
    /// The table isn't keyed, and no whole old row was sent.
    #[error("relation 4 NoIdentity")]
    NoIdentity,
    /// No Relation message has described this OID.
    #[error("relation 5 UnknownRelation {0}")]
    UnknownRelation(u32),
    /// Memory has run out.
    #[error("memory")]
    Memory,
}

impl From<AllocError> for RelFault {
    ghost use Rattle.pgrel.specs.declared.fault.RelFault.TheVariants.{Memory};

    ghost from_gives = { λ _ fault. fault ≡ Memory };

    fn from(_error: AllocError) -> RelFault {
        RelFault::Memory
    }
}

impl<T: Drop> From<AllocFailed<T>> for RelFault {
    ghost use Rattle.pgrel.specs.declared.fault.RelFault.TheVariants.{Memory};

    ghost from_gives = { λ _ fault. fault ≡ Memory };

    fn from(_error: AllocFailed<T>) -> RelFault {
        RelFault::Memory
    }
}
