//! Which messages of clients a store hears, and which of them wait as it stages a commit: no
//! contract says so.
//!
//! PostgreSQL documentation, Logical Replication Message Formats, Message.

use crate::counting::{new_store, rejecting_messages};
use crate::row::Step::{At, Disconnect, Feed};
use crate::row::{AMPLE, AT_ONCE, Row};
use crate::steps::taken;
use pgapply::{ReplicaStore, StoreFault, Watched};
use pgorder::Version;
use pgspool::ListSpools;
use pgsub_cli::Reported;
use pgsub_cli::files::Unheard;
use pgsub_core::Fault::Store;
use std::process::Abort;

/// A row, the messages that the store hears, and its commits, each with those that it tells.
struct Heard {
    row: Row,
    heard: &'static [u8],
    told: &'static [u8],
}

/// The transaction at 0/100, which describes t, with a message.
const A: &str = "begin:100 msg:a rel:t ins:1a commit:130";

static HEARD: [Heard; 7] = [
    Heard {
        row: Row {
            shows: "messages of a pair, each before its commit",
            limit: AMPLE,
            steps: &[Feed(
                "begin:100 msg:a rel:t ins:1a msg:b commit:130 begin:200 ins:2b commit:230 begin:300 msg:b commit:330",
                Ok(()),
            )],
        },
        heard: b"a:k=1 b:k=22 b:k=22 ",
        told: b"1 a:k=1 b:k=22 2 3 b:k=22 ",
    },
    Heard {
        row: Row {
            shows: "messages of no transaction aren't heard",
            limit: AMPLE,
            steps: &[Feed(
                "msg:c! begin:100 msg:c! rel:t ins:1a commit:130 start:20 20:msg:e! stop msg:c!",
                Ok(()),
            )],
        },
        heard: b"",
        told: b"1 ",
    },
    Heard {
        row: Row {
            shows: "a repeat leaves nothing for the next pair",
            limit: AMPLE,
            steps: &[
                Feed(A, Ok(())),
                Disconnect,
                Feed(A, Ok(())),
                Feed("begin:200 ins:2b commit:230", Ok(())),
            ],
        },
        heard: b"a:k=1 a:k=1 ",
        told: b"1 a:k=1 2 ",
    },
    Heard {
        row: Row {
            shows: "a repeat leaves nothing for a streamed transaction",
            limit: AMPLE,
            steps: &[
                Feed(A, Ok(())),
                Disconnect,
                Feed("start:20 20:rel:t 20:ins:1a stop", Ok(())),
                Feed(A, Ok(())),
                Feed("scommit:20 begin:700/40 msg:b commit:730", Ok(())),
            ],
        },
        heard: b"a:k=1 a:k=1 b:k=22 ",
        told: b"1 a:k=1 5 7 b:k=22 ",
    },
    Heard {
        row: Row {
            shows: "a pair that breaks off leaves nothing for the next session",
            limit: AMPLE,
            steps: &[
                Feed("begin:100 msg:a", Ok(())),
                Disconnect,
                Feed("begin:100 rel:t ins:1a commit:130", Ok(())),
            ],
        },
        heard: b"a:k=1 ",
        told: b"1 ",
    },
    Heard {
        row: Row {
            shows: "nor for a streamed transaction",
            limit: AMPLE,
            steps: &[
                Feed("begin:100 msg:a", Ok(())),
                Disconnect,
                Feed("start:20 20:rel:t 20:ins:1a stop scommit:20", Ok(())),
            ],
        },
        heard: b"a:k=1 ",
        told: b"5 ",
    },
    Heard {
        row: Row {
            shows: "messages in a block are heard as streamed, and are of no pair",
            limit: AMPLE,
            steps: &[Feed(
                "start:20 20:msg:d stop begin:100 rel:t ins:1a commit:130 again:20 20:msg:d 20:ins:1a stop scommit:20",
                Ok(()),
            )],
        },
        heard: b"d:k=4~ d:k=4~ ",
        told: b"1 5 ",
    },
];

/// Whether a store hears and tells so over a row in chunks of so many bytes.
fn hears(rt: &(impl Abort + AllocGlobal), heard: &Heard, chunk_len: usize) -> bool {
    let store = new_store(rt.alloc(), 0);
    let spools = ListSpools::new(rt.alloc(), heard.row.limit);
    let store = taken(rt, store, spools, &heard.row, Version::Two, chunk_len);
    store.heard.as_slice() == heard.heard && store.told.as_slice() == heard.told
}

#[test]
fn messages_are_heard_before_their_commit(rt: HostRuntime) {
    for heard in &HEARD {
        for chunk_len in [1, AT_ONCE] {
            assert!(rt; hears(&rt, heard, chunk_len), "{}", heard.row.shows);
        }
    }
}

/// What a store around one that accepts no commit with messages is given.
static HANDED_ON: Row = Row {
    shows: "messages are handed on, and forgotten",
    limit: AMPLE,
    steps: &[
        Feed(A, Err(Store(StoreFault::Refused))),
        Disconnect,
        Feed("begin:100 rel:t ins:1a commit:130", Ok(())),
        At(0x130, 0x130, 0x130),
    ],
};

/// Takes the row over a store around another one.
fn takes_handed_on<C: ReplicaStore + Drop>(rt: &(impl Abort + AllocGlobal), store: C) {
    let spools = ListSpools::new(rt.alloc(), AMPLE);
    drop(taken(rt, store, spools, &HANDED_ON, Version::Two, AT_ONCE));
}

#[test]
fn stores_around_others_hand_messages_on(rt: HostRuntime) {
    let alloc = rt.alloc();
    takes_handed_on(&rt, Watched::new(alloc, rejecting_messages(alloc)));
    takes_handed_on(&rt, Reported::new(rejecting_messages(alloc), Unheard));
}
