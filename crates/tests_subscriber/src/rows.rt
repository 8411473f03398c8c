//! Worked sessions. What their transactions leave is shown by the built program as well
//! (tools/commands, tools/sweeps); what is confirmed and replied within one is shown here alone.

use crate::row::Step::{At, ClearReplies, Disconnect, Feed, Follow, Misses, Replies, Rows, Status};
use crate::row::{AMPLE, Row, T_1_A, T_1_L, T_2_B, T_2_M};
use pgapply::StoreFault::Clash;
use pgorder::OrderFault::CommitWithoutBegin;
use pgspool::SpoolFault::SpoolFull;
use pgsub_core::Fault::{Closed, Order, Spool, Store, Wire};
use pgwire::WireFault::AfterDone;

static TRANSACTIONS: [Row; 10] = [
    Row {
        shows: "replies inside a pair and after it",
        limit: AMPLE,
        steps: &[
            Feed("t1 begin:200 ins:2b keep:180?", Ok(())),
            Replies(
                "64 00000026 72 0000000000000180 0000000000000130 0000000000000130 0000000000000007 00",
            ),
            At(0x130, 0x130, 0x180),
            ClearReplies,
            Replies(""),
            Feed("commit:230 keep:280?", Ok(())),
            Replies(
                "64 00000026 72 0000000000000280 0000000000000280 0000000000000280 0000000000000007 00",
            ),
            At(0x230, 0x280, 0x280),
        ],
    },
    Row {
        shows: "a status of a new subscriber",
        limit: AMPLE,
        steps: &[
            Status(5, true),
            Replies(
                "64 00000026 72 0000000000000000 0000000000000000 0000000000000000 0000000000000005 01",
            ),
            At(0, 0, 0),
        ],
    },
    Row {
        shows: "the end of XLogData is received and not confirmed",
        limit: AMPLE,
        steps: &[
            Feed("begin:100-500", Ok(())),
            Status(9, false),
            Replies(
                "64 00000026 72 0000000000000500 0000000000000000 0000000000000000 0000000000000009 00",
            ),
            At(0, 0, 0x500),
            Disconnect,
            Replies(""),
            At(0, 0, 0),
        ],
    },
    Row {
        shows: "a fault closes until the next disconnection",
        limit: AMPLE,
        steps: &[
            Feed("commit:130", Err(Order(CommitWithoutBegin))),
            Feed("t1", Err(Closed)),
            Feed("keep:180?", Err(Closed)),
            At(0, 0, 0),
            Rows(&[]),
            Replies(""),
            Status(3, true),
            Replies(
                "64 00000026 72 0000000000000000 0000000000000000 0000000000000000 0000000000000003 01",
            ),
            Feed("t1", Err(Closed)),
            Disconnect,
            Replies(""),
            Feed("t1", Ok(())),
            At(0x130, 0x130, 0x130),
            Rows(&[T_1_A]),
        ],
    },
    Row {
        shows: "data after CopyDone in another chunk",
        limit: AMPLE,
        steps: &[
            Feed("t1 done", Ok(())),
            At(0x130, 0x130, 0x130),
            Feed("t1", Err(Wire(AfterDone))),
            At(0x130, 0x130, 0x130),
            Feed("t1", Err(Closed)),
            Rows(&[T_1_A]),
            Disconnect,
            Feed("t1", Ok(())),
            At(0x130, 0x130, 0x130),
            Rows(&[T_1_A]),
        ],
    },
    Row {
        shows: "a disconnection drops a truncated frame",
        limit: AMPLE,
        steps: &[
            Feed("begin:100 rel:t ins:1a commit:front", Ok(())),
            Disconnect,
            Feed("t1", Ok(())),
            At(0x130, 0x130, 0x130),
            Rows(&[T_1_A]),
        ],
    },
    Row {
        shows: "a repeat of what a keepalive confirmed",
        limit: AMPLE,
        steps: &[
            Feed("t1 keep:180", Ok(())),
            At(0x130, 0x180, 0x180),
            Disconnect,
            At(0x130, 0x180, 0x180),
            Feed("t1 begin:200 ins:2b commit:230", Ok(())),
            At(0x230, 0x230, 0x230),
            Rows(&[T_1_A, T_2_B]),
        ],
    },
    Row {
        shows: "an update keeps the cell that was not sent",
        limit: AMPLE,
        steps: &[
            Follow(&["begin:100 rel:w ins:w:1ab upd:w:1b commit:130"], Ok(())),
            Rows(&[(16385, "w", &["1", "b", "big"], 1)]),
        ],
    },
    Row {
        shows: "equal rows of a table without a key are counted",
        limit: AMPLE,
        steps: &[
            Follow(&["begin:100 rel:f ins:f ins:f del:f commit:130"], Ok(())),
            Rows(&[(16386, "f", &["x"], 1)]),
        ],
    },
    Row {
        shows: "changes that find no row in a commit that is rejected",
        limit: AMPLE,
        steps: &[
            Feed("t1", Ok(())),
            Misses(0, 0, 0),
            Feed(
                "begin:200 upd:9z del:9 commit:230 begin:300 del:9 ins:1z commit:330",
                Err(Store(Clash)),
            ),
            At(0x230, 0x230, 0x230),
            Misses(2, 0x230, 16384),
            Disconnect,
            Feed("begin:300 rel:t del:9 ins:2m commit:330", Ok(())),
            At(0x330, 0x330, 0x330),
            Misses(3, 0x230, 16384),
            Rows(&[T_1_A, T_2_M]),
        ],
    },
];

/// Sessions of whole transactions, which both versions of the protocol send alike.
pub(crate) fn transactions() -> &'static [Row] {
    &TRANSACTIONS
}

/// A transaction in two blocks, of which two subtransactions are rolled back.
const WITH_ABORTS: &str =
    "start:20 20:rel:t 20:ins:1a 21:rel:w 21:ins:w:1 21:ins:2b 22:ins:3c 21:ins:4d stop abort:20/22 abort:20/21 again:20 20:rel:w 20:ins:w:2 stop scommit:20";

/// Two transactions, the changes of each after its Begin.
pub(crate) const IN_PAIRS: &str =
    "begin:300 rel:t ins:1e commit:330 begin:400 upd:1l ins:2m commit:430";

/// The same two in blocks that alternate, with rolled-back subtransactions.
pub(crate) const IN_BLOCKS: &str =
    "start:10 10:rel:t 10:upd:1l 12:ins:8x stop start:11 11:rel:t 13:ins:9y stop abort:10/12 abort:11/13 again:11 11:ins:1e stop again:10 10:ins:2m 14:del:1 stop abort:10/14 scommit:11 scommit:10";

static BLOCKS: [Row; 6] = [
    Row {
        shows: "a keepalive between blocks",
        limit: AMPLE,
        steps: &[
            Feed("start:40 40:rel:t stop keep:180", Ok(())),
            Replies(""),
            At(0, 0x180, 0x180),
            Disconnect,
            At(0, 0x180, 0x180),
        ],
    },
    Row {
        shows: "a keepalive inside a block",
        limit: AMPLE,
        steps: &[
            Feed("start:40 40:rel:t keep:180 stop", Ok(())),
            At(0, 0, 0x180),
            Disconnect,
            At(0, 0, 0),
        ],
    },
    Row {
        shows: "subtransactions that are rolled back, in spools that they fill",
        limit: 253,
        steps: &[
            Follow(&[WITH_ABORTS], Ok(())),
            At(0x530, 0x530, 0x530),
            Rows(&[T_1_A, (16385, "w", &["2", "r", "s"], 1)]),
        ],
    },
    Row {
        shows: "subtransactions that are rolled back, in spools too small",
        limit: 252,
        steps: &[
            Follow(&[WITH_ABORTS], Err(Spool(SpoolFull))),
            At(0, 0, 0),
            Rows(&[]),
        ],
    },
    Row {
        shows: "two transactions in pairs",
        limit: AMPLE,
        steps: &[Follow(&[IN_PAIRS], Ok(())), Rows(&[T_1_L, T_2_M])],
    },
    Row {
        shows: "the same two in blocks, with parts rolled back",
        limit: AMPLE,
        steps: &[
            Follow(&[IN_BLOCKS], Ok(())),
            At(0x430, 0x430, 0x430),
            Rows(&[T_1_L, T_2_M]),
        ],
    },
];

/// Sessions with stream blocks of running transactions, which version 2 allows.
pub(crate) fn blocks() -> &'static [Row] {
    &BLOCKS
}
