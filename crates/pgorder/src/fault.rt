//! Why a message is rejected.

ghost use Rattle.pgorder.specs.declared.fault.OrderFault.TheVariants.{Memory};
ghost use Rattle.std.specs.Prelude.{◌≡◌};

use std::alloc::AllocFailed;
use thiserror::Error;

/// Why a message can't come where it does. Of several that hold, the version decides first, then
/// where the message comes, then its xid or LSN.
#[derive(Clone, Copy, Debug, PartialEq, Eq, Error)]
pub enum OrderFault {
    /// A Relation, a change, a Type or an Origin outside pairs and blocks.
    #[error("order 1 OutsideTransaction")]
    OutsideTransaction,
    /// A Begin in a pair or a block, or of a transaction that is open.
    #[error("order 2 NestedBegin")]
    NestedBegin,
    /// A Commit outside pairs and blocks.
    #[error("order 3 CommitWithoutBegin")]
    CommitWithoutBegin,
    /// A Commit whose LSN isn't the final LSN of Begin.
    #[error("order 4 CommitLsnDiffers")]
    CommitLsnDiffers,
    /// A Stream Start in a pair or a block.
    #[error("order 5 NestedStart")]
    NestedStart,
    /// A Stream Stop outside blocks.
    #[error("order 6 StopWithoutStart")]
    StopWithoutStart,
    /// A first segment of a transaction that is open.
    #[error("order 7 FirstFlagOnOpen")]
    FirstFlagOnOpen,
    /// A later segment of a transaction that isn't open.
    #[error("order 8 LaterFlagOnUnknown")]
    LaterFlagOnUnknown,
    /// A Stream Commit of a transaction that isn't open.
    #[error("order 9 CommitOfUnknown")]
    CommitOfUnknown,
    /// A Stream Start, Stop, Commit or Abort in version 1.
    #[error("order 10 StreamInVersion1")]
    StreamInVersion1,
    /// A Commit in a block, or a Stream Commit in a pair or a block.
    #[error("order 11 CommitMisplaced")]
    CommitMisplaced,
    /// A Stream Abort in a pair or a block.
    #[error("order 12 AbortMisplaced")]
    AbortMisplaced,
    /// Memory ran out, at the first segment of a transaction.
    #[error("memory")]
    Memory,
}

impl<T: Drop> From<AllocFailed<T>> for OrderFault {
    ghost from_gives = { λ _ e. e ≡ Memory };

    fn from(_refused: AllocFailed<T>) -> OrderFault {
        OrderFault::Memory
    }
}
