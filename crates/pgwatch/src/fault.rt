//! Why a watch ends.

use pglsn::Lsn;
use pgorder::OrderFault;
use thiserror::Error;

/// The rule that a session breaks, or why it is no longer watched. `at` is the frame after which no
/// history is left that may be sent so, `cause` an earlier one to which it doesn't fit; both are
/// the numbers that the caller gave.
#[derive(Clone, Copy, Debug, PartialEq, Eq, Error)]
pub enum Breach {
    /// The message can't come here: pairs, blocks and xids are out of order.
    #[error("watch 1 Disordered")]
    Disordered {
        at: u64,
        fault: OrderFault,
    },
    /// A commit whose LSN is below the end of the commit before it, which was `cause`.
    #[error("watch 2 BelowCommit")]
    BelowCommit {
        at: u64,
        lsn: Lsn,
        cause: u64,
        end: Lsn,
    },
    /// A commit whose end isn't above its own LSN.
    #[error("watch 3 EndNotAbove")]
    EndNotAbove {
        at: u64,
        lsn: Lsn,
        end: Lsn,
    },
    /// A commit that ends at or below the start of the session.
    #[error("watch 4 BelowStart")]
    BelowStart {
        at: u64,
        end: Lsn,
        start: Lsn,
    },
    /// A commit with the change `cause` of a relation that no Relation message has described.
    #[error("watch 5 Undescribed")]
    Undescribed {
        at: u64,
        cause: u64,
        oid: u32,
    },
    /// A commit that changes rows and doesn't end above the keepalive `cause`.
    #[error("watch 6 BelowKeepalive")]
    BelowKeepalive {
        at: u64,
        end: Lsn,
        cause: u64,
        told: Lsn,
    },
    /// A streamed commit with the item or the abort `cause` of a subtransaction that isn't nested,
    /// or isn't aborted before anything else of the transaction.
    #[error("watch 7 Unnested")]
    Unnested {
        at: u64,
        cause: u64,
        subxid: u32,
    },
    /// Not watched: there is no room for another relation, open transaction or item of one.
    #[error("not watched: full")]
    Full {
        at: u64,
    },
    /// Not watched: memory has run out.
    #[error("not watched: memory")]
    Memory {
        at: u64,
    },
}
